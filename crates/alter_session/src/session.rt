//! A database that is open.
ghost use Rattle.std.specs.Prelude.{◌≡◌, ◌<◌, ◌^◌, true, length, Some, IfErr, IfOk};
ghost use Rattle.alter_disk.specs.Files.{Files};
ghost use Rattle.alter_disk.specs.Moments.{HasWay, Leaves, Stays};
ghost use Rattle.rollback_journal.specs.Recovery.{recovered};
ghost use Rattle.rollback_journal.specs.Standing.{standing};
ghost use Rattle.plain_schema.specs.Image.{Image};
ghost use Rattle.plain_sql.specs.Script.{IsPlainCommand};
ghost use Rattle.alter_session.specs.Applying.{Applied, HasLine, IsAnswer, IsAnswered, IsQuiet, IsUndone, MayHave, ReadsUnlessDone, StaysReady, disk_behind, failure_of};
ghost use Rattle.alter_session.specs.Committing.{HasCauses};
ghost use Rattle.alter_session.specs.Opening.{HasOpenCauses, IsOpenedFrom, IsUnopened, KeepsBytes, disk_after, opened_or_why};
ghost use Rattle.alter_session.specs.Session.{Holds, IsReady, disk_of};

use crate::answer::{Answer, Outcome};
use crate::carry::carry_out;
use crate::fault::Fault;
use crate::open_error::{OpenError, Unopened};
use crate::opening::open_shape;
use crate::reading::read_form;
use alter_disk::Disk;
use pager_core::Pages;
use plain_schema::Form;
use plain_sql::Command;
use std::alloc::Global;

/// A database that is open: its pages, over the disk that they own, and what they hold.
#[derive(Drop)]
pub struct Session<D: Disk> {
    pages: Pages<D>,
    form: Form,
}

impl<D: Disk> Session<D> {
    /// Opens the database of a disk whose opening was called: makes both files durable, recovers the database, and reads
    /// what it holds. A database that is not served is handed back as its recovery left it.
    pub fn open(alloc: Global, mut disk: D) -> Result<Session<D>, Unopened<D>>
        requires { D.called disk ≡ true }

        // What is opened is served, and what is refused is refused for this.
        ensures ready { IfOk result (IsReady D.Disk) }
        ensures opened { IfOk result (λ s. (f : Files) → D.files disk ≡ Some f → IsOpenedFrom D.Disk f s) }
        ensures refused { IfErr result (λ u. (f : Files) → D.files disk ≡ Some f → IsUnopened D.Disk f u.cause u.disk) }

        // A crash at any moment leaves files that stand for the same, and where nothing is to be recovered no byte changes.
        ensures stops { (f : Files) → D.files disk ≡ Some f → Leaves D.Disk disk (disk_after result) (λ c. standing c ≡ standing f) }
        ensures kept { (f : Files) → D.files disk ≡ Some f → recovered f ≡ f → KeepsBytes D.Disk f disk (disk_after result) }

        ensures stays { Stays D.Disk disk (disk_after result) }
        ensures cause { HasOpenCauses D.Disk disk (disk_after result) (opened_or_why result) }
    {
        let shape = match open_shape(alloc, &mut disk) {
            Ok(shape) => shape,
            Err(cause) => return Err(Unopened { disk, cause }),
        };
        let mut pages = Pages::new(alloc, disk, shape);
        match read_form(alloc, &mut pages) {
            Ok(Some(form)) => Ok(Session { pages, form }),
            Ok(None) => Err(Unopened {
                disk: pages.into_disk(),
                cause: OpenError::Unbuilt,
            }),
            Err(error) => Err(Unopened {
                disk: pages.into_disk(),
                cause: OpenError::from(error),
            }),
        }
    }

    /// Runs a command, and makes the line on it by its number, from 1. All memory is taken before the first write.
    ///
    /// After `Failed` the session is gone, and the database is opened again.
    pub fn apply(self, alloc: Global, number: u64, command: &Command) -> Outcome<D>
        requires ready { IsReady D.Disk self }
        requires plain { IsPlainCommand command.now }
        requires column { length command.now.column < 2 ^ 30 }

        // The image is the one after the command, with its verdict and its line. Only a command that is done is written.
        ensures ready { StaysReady D.Disk result }
        ensures applied { (image : Image) → Holds D.Disk image self → Applied D.Disk image command.now result }
        ensures line { HasLine number result }

        // A crash at any moment leaves files that open to the image before the command or after it. The disk is only read
        // unless the command is done.
        ensures stops { (image : Image) → Holds D.Disk image self → Leaves D.Disk (disk_of self) (disk_behind result) (MayHave image command.now) }
        ensures quiet { IsQuiet D.Disk (disk_of self) result }

        ensures stays { Stays D.Disk (disk_of self) (disk_behind result) }
        ensures cause { HasWay D.Disk (disk_of self) (disk_behind result) (failure_of result) }
    {
        let mut session = self;
        match session.run(alloc, number, command) {
            Ok(answer) => Outcome::Done(session, answer),
            Err(Fault::Memory(_)) => Outcome::Memory(session),
            Err(Fault::Failed(way)) => Outcome::Failed(session.close(), way),
        }
    }

    /// The same of a session that stays. After a failure of a call that writes it can only be closed.
    fn run(&mut self, alloc: Global, number: u64, command: &Command) -> Result<Answer, Fault>
        requires ready { IsReady D.Disk self.old }
        requires plain { IsPlainCommand command.now }
        requires column { length command.now.column < 2 ^ 30 }
        ensures ready { IsReady D.Disk self.new }
        ensures answer { IfOk result (λ answer. (image : Image) → Holds D.Disk image self.old → IsAnswered D.Disk image command.now answer.verdict self.new) }
        ensures line { IfOk result (IsAnswer number) }
        ensures quiet { IfOk result (λ answer. ReadsUnlessDone D.Disk answer.verdict (disk_of self.old) (disk_of self.new)) }
        ensures undone { IfErr result (IsUndone D.Disk command.now self.old self.new) }
        ensures stops { (image : Image) → Holds D.Disk image self.old → Leaves D.Disk (disk_of self.old) (disk_of self.new) (MayHave image command.now) }
        ensures stays { Stays D.Disk (disk_of self.old) (disk_of self.new) }
        ensures cause { HasCauses D.Disk (disk_of self.old) (disk_of self.new) result }
    {
        let plan = self.form.plan(alloc, command)?;
        let verdict = plan.verdict();
        let line = verdict.line(alloc, number)?;
        carry_out(alloc, &mut self.pages, &plan)?;
        self.form.take(plan);
        Ok(Answer { verdict, line })
    }

    /// Hands the disk back. It calls no method of it.
    pub fn close(self) -> D
        ensures { result ≡ disk_of self }
    {
        self.pages.into_disk()
    }
}
