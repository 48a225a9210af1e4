//! A whole call.
ghost use Rattle.std.specs.Prelude.{◌≡◌, ◌⊎◌, map, IfSome, IfErr, OnOk, IsErrAnd, IsNone, string_bytes, option_map, false};
ghost use Rattle.std.specs.Prelude.{IsSomeAnd};
ghost use Rattle.alter_disk.specs.Changes.{IfTold};
ghost use Rattle.alter_disk.specs.Outside.{span};
ghost use Rattle.alter_disk.specs.Uses.{SinkFailed};
ghost use Rattle.alter_cli.specs.Counted.{EndsCounted, HasCauses, IsFaultExactly};
ghost use Rattle.alter_cli.specs.Ending.{EndsByFile, EndsByRun, EndsByScript, EndsComplete, EndsMisused, EndsPerformed, EndsPrinted, EndsStopped, EndsUnwritten, IfNamed, IfNameless, Keeps, WhereSinkTells};
ghost use Rattle.alter_cli.specs.First.{first_rules};
ghost use Rattle.alter_cli.specs.Outcome.{file_of};
ghost use Rattle.alter_cli.specs.Stops.{CanRunTold, GaveLines, IsEnd, IsLast, RunsSo, StopsBy, stop_status};

use crate::halted::Halted;
use crate::last_line::print_last;
use crate::opening::open_session;
use crate::run::{Ran, run_commands};
use crate::script_text::read_commands;
use crate::status::Status;
use crate::stop::Stop;
use alter_disk::{Disk, Sink, Source};
use std::alloc::Global;

/// How a call ended, and the disk that it was given.
#[derive(Drop)]
pub struct Ended<D: Drop> {
    pub status: Status,
    pub disk: D,
}

/// The file that the words name: they are the program's name and this word.
fn file_name(words: &[String]) -> Option<&str>
    ensures { option_map (λ name. name.now) result ≡ file_of (map string_bytes words.now) }
{
    match words {
        [_, file] => Some(file.as_str()),
        _ => None,
    }
}

/// Reads the script, opens the file, and runs the commands.
fn perform<D: Disk, S: Source, K: Sink>(
    alloc: Global,
    name: &str,
    disk: D,
    script: &mut S,
    out: &mut K,
) -> Ran<D>
    requires fresh { D.called disk ≡ false }
    requires label { IfSome (D.label disk) (λ known. name.now ≡ known) }
    ensures told { RunsSo first_rules D.Disk disk result.disk (span S.Source D.Disk K.Sink (script.old, disk, out.old) (script.new, result.disk, out.new)) result.result }
    ensures printed { WhereSinkTells (K.written out.old) (K.written out.new) (λ given now. GaveLines (SinkFailed K.Sink out.old out.new) given now result.result) }
    ensures able { OnOk result.result (CanRunTold first_rules (S.left script.old) (D.files disk)) }
    ensures cause { IfErr result.result (StopsBy first_rules (span S.Source D.Disk K.Sink (script.old, disk, out.old) (script.new, result.disk, out.new))) }
    ensures counts { HasCauses (span S.Source D.Disk K.Sink (script.old, disk, out.old) (script.new, result.disk, out.new)) result.result }
    ensures untouched { IsErrAnd result.result (λ stop. stop_status stop ≡ Status.Script) → result.disk ≡ disk }
    ensures stops { EndsStopped first_rules D.Disk disk result.disk (span S.Source D.Disk K.Sink (script.old, disk, out.old) (script.new, result.disk, out.new)) }
    ensures unwritten { EndsUnwritten first_rules D.Disk disk result.disk }
    ensures kept { Keeps (span S.Source D.Disk K.Sink (script.old, disk, out.old) (script.new, result.disk, out.new)) }
{
    let commands = match read_commands(alloc, script) {
        Ok(commands) => commands,
        Err(stop) => {
            return Ran {
                disk,
                result: Err(stop),
            };
        }
    };
    match open_session(alloc, disk, name) {
        Ok(session) => run_commands(alloc, session, commands.as_slice(), out),
        Err(Halted { disk, stop }) => Ran {
            disk,
            result: Err(stop),
        },
    }
}

/// Prints the last line of a call that stopped, and gives its status.
fn stopped<K: Sink>(stop: &Stop, out: &mut K) -> Status
    ensures status { (result ≡ stop_status stop.now) ⊎ ((result ≡ Status.Fault) × SinkFailed K.Sink out.old out.new) }
    ensures told { IfTold (K.written out.old) (λ given. IsSomeAnd (K.written out.new) (IsLast (SinkFailed K.Sink out.old out.new) stop.now result given)) }
    ensures counts { EndsCounted (K.faults out.old) (K.faults out.new) result }
{
    match print_last(out, stop) {
        Ok(()) => stop.status(),
        Err(_) => Status::Fault,
    }
}

/// Ends a call that ran its commands or stopped, and gives its status.
fn finish<K: Sink>(ran: Result<bool, Stop>, out: &mut K) -> Status
    ensures ended { IsEnd (SinkFailed K.Sink out.old out.new) ran result (K.written out.old) (K.written out.new) }
    ensures counts { EndsCounted (K.faults out.old) (K.faults out.new) result }
{
    match ran {
        Ok(true) => Status::Done,
        Ok(false) => Status::Refused,
        Err(stop) => stopped(&stop, out),
    }
}

/// Runs the script on the file that the words name, and writes a line for each command.
///
/// The words are the program's name and FILE. The disk is handed back, whatever the status.
pub fn sqlalter<D: Disk, S: Source, K: Sink>(
    alloc: Global,
    words: &[String],
    disk: D,
    script: &mut S,
    out: &mut K,
) -> Ended<D>
    requires fresh { D.called disk ≡ false }
    requires label { IfSome (file_of (map string_bytes words.now)) (λ name. IfSome (D.label disk) (λ known. name ≡ known)) }

    // Of a call with a file's name: the lines, the status and both files; what can be run is run whole.
    ensures performed { IfNamed (map string_bytes words.now) (EndsPerformed first_rules D.Disk disk result.disk
        (span S.Source D.Disk K.Sink (script.old, disk, out.old) (script.new, result.disk, out.new)) result.status) }
    ensures complete { IfNamed (map string_bytes words.now) (EndsComplete first_rules D.Disk disk result.disk
        (span S.Source D.Disk K.Sink (script.old, disk, out.old) (script.new, result.disk, out.new)) result.status) }

    // A stop at any moment of the call, and files that are refused.
    ensures stops { IfNamed (map string_bytes words.now) (EndsStopped first_rules D.Disk disk result.disk
        (span S.Source D.Disk K.Sink (script.old, disk, out.old) (script.new, result.disk, out.new))) }
    ensures unwritten { IfNamed (map string_bytes words.now) (EndsUnwritten first_rules D.Disk disk result.disk) }

    // Each status comes exactly where it should, by the objects that it is about.
    ensures script { IfNamed (map string_bytes words.now) (EndsByScript first_rules
        (span S.Source D.Disk K.Sink (script.old, disk, out.old) (script.new, result.disk, out.new)) result.status) }
    ensures file { IfNamed (map string_bytes words.now) (EndsByFile first_rules
        (span S.Source D.Disk K.Sink (script.old, disk, out.old) (script.new, result.disk, out.new)) result.status) }
    ensures run { IfNamed (map string_bytes words.now) (EndsByRun first_rules
        (span S.Source D.Disk K.Sink (script.old, disk, out.old) (script.new, result.disk, out.new)) result.status) }
    ensures usage { result.status ≡ Status.Usage → IsNone (file_of (map string_bytes words.now)) }

    // Of a call that names no file: the usage line, and nothing else is touched.
    ensures misused { IfNameless (map string_bytes words.now) (EndsMisused
        (span S.Source D.Disk K.Sink (script.old, disk, out.old) (script.new, result.disk, out.new)) result.status) }
    ensures unread { IfNameless (map string_bytes words.now) (script.new ≡ script.old) }
    ensures unopened { IfNameless (map string_bytes words.now) (result.disk ≡ disk) }

    // Whatever is told: a fault has a cause and each cause is a fault, each line of a fault has its cause; what stays.
    ensures cause { IsFaultExactly (span S.Source D.Disk K.Sink (script.old, disk, out.old) (script.new, result.disk, out.new)) result.status }
    ensures printed { EndsPrinted (span S.Source D.Disk K.Sink (script.old, disk, out.old) (script.new, result.disk, out.new)) result.status }
    ensures untouched { (result.status ≡ Status.Script) ⊎ (result.status ≡ Status.Usage) → result.disk ≡ disk }
    ensures kept { Keeps (span S.Source D.Disk K.Sink (script.old, disk, out.old) (script.new, result.disk, out.new)) }
{
    let Some(name) = file_name(words) else {
        let status = stopped(&Stop::Misused, out);
        return Ended { status, disk };
    };
    let ran = perform(alloc, name, disk, script, out);
    let status = finish(ran.result, out);
    Ended {
        status,
        disk: ran.disk,
    }
}
