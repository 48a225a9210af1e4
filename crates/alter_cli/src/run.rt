//! The run of the script's commands.
ghost use Rattle.std.specs.Prelude.{◌≡◌, ◌<◌, ◌^◌, ◌++◌, length, option_map, IfOk, IfErr};
ghost use Rattle.std.specs.List.{AllByRecursion};
ghost use Rattle.alter_disk.specs.Moments.{Leaves, ReadsQuietly, Stays};
ghost use Rattle.alter_disk.specs.Uses.{ReadFailed, SinkFailed, WriteFailed};
ghost use Rattle.plain_sql.specs.Script.{IsPlainCommand};
ghost use Rattle.plain_schema.specs.Image.{Image};
ghost use Rattle.plain_schema.specs.Verdicts.{verdict_line};
ghost use Rattle.alter_session.specs.Applying.{ReadsUnlessDone};
ghost use Rattle.alter_session.specs.Session.{Holds, IsReady, disk_of};
ghost use Rattle.alter_cli.specs.Counted.{HasRunCauses, or_stop};
ghost use Rattle.alter_cli.specs.Ending.{WhereSinkTells};
ghost use Rattle.alter_cli.specs.First.{first_rules};
ghost use Rattle.alter_cli.specs.Left.{left_on};
ghost use Rattle.alter_cli.specs.Opened.{disk_turned};
ghost use Rattle.alter_cli.specs.Stops.{GaveLines, IsReachedBy, IsRunStop, Makes, NotRun, OpensAround, RanEach, StoppedAt};

use crate::halted::Halted;
use crate::opening::stop_of_way;
use crate::sink::print;
use crate::stop::Stop;
use alter_disk::{Disk, Sink};
use alter_session::{Outcome, Session};
use plain_schema::Verdict;
use plain_sql::Command;
use std::alloc::Global;

/// A command that was run and whose line is printed.
#[derive(Drop)]
pub struct Turn<D: Disk> {
    pub session: Session<D>,
    pub verdict: Verdict,
}

/// What became of the commands, each of them done or not, and the disk.
#[derive(Drop)]
pub struct Ran<D: Disk> {
    pub disk: D,
    pub result: Result<bool, Stop>,
}

/// Runs the command of this number, and prints its line once it is done.
fn run_command<D: Disk, K: Sink>(
    alloc: Global,
    session: Session<D>,
    number: u64,
    command: &Command,
    out: &mut K,
) -> Result<Turn<D>, Halted<D>>
    requires ready { IsReady D.Disk session }
    requires plain { IsPlainCommand command.now }
    requires small { length command.now.column < 2 ^ 30 }
    ensures ready { IfOk result (λ turn. IsReady D.Disk turn.session) }
    ensures makes { IfOk result (λ turn. Makes first_rules (λ image. Holds D.Disk image session) command.now turn.verdict (λ image. Holds D.Disk image turn.session)) }
    ensures line { IfOk result (λ turn. K.written out.new ≡ option_map (λ w. w ++ verdict_line number turn.verdict) (K.written out.old)) }
    ensures quiet { IfOk result (λ turn. ReadsUnlessDone D.Disk turn.verdict (disk_of session) (disk_of turn.session)) }
    ensures stop { IfErr result (λ halted. NotRun first_rules (ReadFailed D.Disk (disk_of session) halted.disk) (WriteFailed D.Disk (disk_of session) halted.disk)
        (SinkFailed K.Sink out.old out.new) (ReadsQuietly D.Disk (disk_of session) halted.disk) (λ image. Holds D.Disk image session) number command.now (left_on D.Disk halted.disk)
        (K.written out.old) (K.written out.new) halted.stop) }
    ensures stops { (image : Image) → Holds D.Disk image session → Leaves D.Disk (disk_of session) (disk_turned result) (OpensAround first_rules image command.now) }
    ensures stays { Stays D.Disk (disk_of session) (disk_turned result) }
    ensures cause { HasRunCauses D.Disk K.Sink (disk_of session) (disk_turned result) out.old out.new (or_stop result) }
{
    match session.apply(alloc, number, command) {
        Outcome::Done(session, answer) => match print(out, answer.line.as_bytes()) {
            Ok(()) => Ok(Turn {
                session,
                verdict: answer.verdict,
            }),
            Err(_) => Err(Halted {
                disk: session.close(),
                stop: Stop::Unprinted,
            }),
        },
        Outcome::Memory(session) => Err(Halted {
            disk: session.close(),
            stop: Stop::Memory,
        }),
        Outcome::Failed(disk, way) => Err(Halted {
            disk,
            stop: stop_of_way(way),
        }),
    }
}

/// Runs the commands one after the other, and says whether all of them are done.
pub fn run_commands<D: Disk, K: Sink>(
    alloc: Global,
    mut session: Session<D>,
    commands: &[Command],
    out: &mut K,
) -> Ran<D>
    requires ready { IsReady D.Disk session }
    requires plain { AllByRecursion IsPlainCommand commands.now }
    requires small { AllByRecursion (λ command. length command.column < 2 ^ 30) commands.now }
    ensures ran { IfOk result.result (λ all_done. (image : Image) → Holds D.Disk image session →
        RanEach first_rules (ReadsQuietly D.Disk (disk_of session) result.disk) image commands.now (K.written out.old) (left_on D.Disk result.disk) (K.written out.new) all_done) }
    ensures stop { IfErr result.result (λ stop. (image : Image) → Holds D.Disk image session →
        StoppedAt first_rules (ReadFailed D.Disk (disk_of session) result.disk) (WriteFailed D.Disk (disk_of session) result.disk) (SinkFailed K.Sink out.old out.new)
        (ReadsQuietly D.Disk (disk_of session) result.disk) image commands.now (K.written out.old) (left_on D.Disk result.disk) (K.written out.new) stop) }
    ensures stops { (image : Image) → Holds D.Disk image session → Leaves D.Disk (disk_of session) result.disk (IsReachedBy first_rules image commands.now) }
    ensures printed { WhereSinkTells (K.written out.old) (K.written out.new) (λ given now. GaveLines (SinkFailed K.Sink out.old out.new) given now result.result) }
    ensures cause { IfErr result.result (IsRunStop (ReadFailed D.Disk (disk_of session) result.disk) (WriteFailed D.Disk (disk_of session) result.disk) (SinkFailed K.Sink out.old out.new)) }
    ensures stays { Stays D.Disk (disk_of session) result.disk }
    ensures counts { HasRunCauses D.Disk K.Sink (disk_of session) result.disk out.old out.new result.result }
{
    let mut number = 0u64;
    let mut all_done = true;
    for command in commands {
        number += 1;
        match run_command(alloc, session, number, command, out) {
            Ok(
                Turn {
                    session: next,
                    verdict,
                },
            ) => {
                session = next;
                all_done = all_done && verdict.is_done();
            }
            Err(Halted { disk, stop }) => {
                return Ran {
                    disk,
                    result: Err(stop),
                };
            }
        }
    }
    Ran {
        disk: session.close(),
        result: Ok(all_done),
    }
}
