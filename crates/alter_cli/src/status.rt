//! How a call ended.
ghost use Rattle.std.specs.Prelude.{◌≡◌};
ghost use Rattle.alter_cli.specs.Status.{code_of};

/// How a call ended.
#[derive(Clone, Copy, Debug, PartialEq, Eq)]
pub enum Status {
    /// Every command is done.
    Done,
    /// The script was run to its end, and a command was refused.
    Refused,
    /// The script is refused. The disk was not touched.
    Script,
    /// The file is refused.
    File,
    /// The script's source, the disk or the sink failed.
    Fault,
    /// Memory ran out.
    Memory,
    /// The words are no call.
    Usage,
}

impl Status {
    /// The process's exit code.
    pub fn code(self) -> u8
        ensures { result ≡ code_of self }
    {
        match self {
            Status::Done => 0,
            Status::Refused => 1,
            Status::Script => 2,
            Status::File => 3,
            Status::Fault => 4,
            Status::Memory => 5,
            Status::Usage => 64,
        }
    }
}
