//! Why a call ends before all its commands are run.
use crate::file_code::FileCode;
use crate::status::Status;
use std::alloc::AllocError;

/// Why a call ends before all its commands are run.
#[derive(Drop)]
pub enum Stop {
    /// The words name no file.
    Misused,
    /// The script is longer than the limit.
    TooLong,
    /// The script is none that is served.
    Unspelled,
    /// The script's source failed.
    Unread,
    /// The file is refused.
    Unserved(FileCode),
    /// The disk failed at reading.
    Unreadable,
    /// The disk failed at writing.
    Unwritten,
    /// The sink failed.
    Unprinted,
    Memory,
}

impl From<AllocError> for Stop {
    ghost use Rattle.std.specs.Prelude.{◌≡◌};
    ghost use Rattle.alter_cli.specs.declared.stop.Stop.TheVariants.{Memory};

    ghost from_gives = { λ _ e. e ≡ Memory };

    fn from(_fault: AllocError) -> Stop {
        Stop::Memory
    }
}

impl Stop {
    ghost use Rattle.std.specs.Prelude.{◌≡◌, IfErr, IfOk};
    ghost use Rattle.alter_cli.specs.Codes.{file_line};
    ghost use Rattle.alter_cli.specs.Stops.{stop_status, stop_line};

    /// The status of the call.
    pub fn status(&self) -> Status
        ensures { result ≡ stop_status self.now }
    {
        match self {
            Stop::Misused => Status::Usage,
            Stop::TooLong | Stop::Unspelled => Status::Script,
            Stop::Unserved(_) => Status::File,
            Stop::Memory => Status::Memory,
            Stop::Unread | Stop::Unreadable | Stop::Unwritten | Stop::Unprinted => Status::Fault,
        }
    }

    /// The last line of the call, or the code whose line it is. A sink that failed gets none.
    pub fn line(&self) -> Result<&'static str, FileCode>
        ensures text { IfOk result (λ line. line.now ≡ stop_line self.now) }
        ensures code { IfErr result (λ code. file_line code ≡ stop_line self.now) }
    {
        match self {
            Stop::Misused => Ok("usage: sqlalter FILE\n"),
            Stop::TooLong => Ok("script 1048576 too-long\n"),
            Stop::Unspelled => Ok("script 0 unbuilt\n"),
            Stop::Unread | Stop::Unreadable => Ok("fault read\n"),
            Stop::Unserved(code) => Err(*code),
            Stop::Unwritten => Ok("fault write\n"),
            Stop::Unprinted => Ok(""),
            Stop::Memory => Ok("memory\n"),
        }
    }
}
