ghost use Rattle.std.specs.Prelude.{◌≡◌};
ghost use Rattle.command.specs.Statuses.{number_of, status_of, stopped_at, unlaid_by};
ghost use Rattle.command.specs.declared.status.Stopped.TheVariants.{NoMemory as OutOfMemory, SinkFault as AtSink};

use ports::Failed;
use recovery::RebaseFault;
use request_text::Stop;
use std::alloc::AllocError;

/// The command was done.
pub const DONE: u8 = 0;

/// The words are no command.
pub const NOT_A_COMMAND: u8 = 2;

/// The source failed.
pub const SOURCE_FAULT: u8 = 4;

/// The sink failed.
pub const SINK_FAULT: u8 = 5;

/// A disk failed.
pub const DISK_FAULT: u8 = 6;

/// Out of memory, outside a request.
pub const NO_MEMORY: u8 = 7;

/// As many bytes were taken from the source as a run may take, 2^40, and no end was seen.
pub const TOO_LONG: u8 = 9;

/// One of the disks holds an open area: a universe was founded on them before.
pub const ALREADY_FOUNDED: u8 = 10;

/// The input does not begin with a founding text.
pub const NOT_FOUNDED: u8 = 11;

/// Why a run ends before its command is done.
#[derive(Clone, Copy, Debug, PartialEq, Eq)]
pub enum Stopped {
    NotACommand,
    SourceFault,
    SinkFault,
    DiskFault,
    NoMemory,
    TooLong,
    AlreadyFounded,
    NotFounded,
}

impl From<Stop> for Stopped {
    ghost from_gives = { λ stop stopped. stopped ≡ stopped_at stop };

    fn from(stop: Stop) -> Stopped {
        match stop {
            Stop::Fault => Stopped::SourceFault,
            Stop::Spent => Stopped::TooLong,
        }
    }
}

impl From<Failed> for Stopped {
    ghost from_gives = { λ _ stopped. stopped ≡ AtSink };

    fn from(_: Failed) -> Stopped {
        Stopped::SinkFault
    }
}

impl From<AllocError> for Stopped {
    ghost from_gives = { λ _ stopped. stopped ≡ OutOfMemory };

    fn from(_: AllocError) -> Stopped {
        Stopped::NoMemory
    }
}

impl From<RebaseFault> for Stopped {
    ghost from_gives = { λ fault stopped. stopped ≡ unlaid_by fault };

    fn from(fault: RebaseFault) -> Stopped {
        match fault {
            RebaseFault::Memory => Stopped::NoMemory,
            RebaseFault::DeviceFault => Stopped::DiskFault,
        }
    }
}

/// The status of a run that ended so.
pub fn exit_status(ended: Result<(), Stopped>) -> u8
    ensures { result ≡ status_of ended }
{
    match ended {
        Ok(()) => DONE,
        Err(Stopped::NotACommand) => NOT_A_COMMAND,
        Err(Stopped::SourceFault) => SOURCE_FAULT,
        Err(Stopped::SinkFault) => SINK_FAULT,
        Err(Stopped::DiskFault) => DISK_FAULT,
        Err(Stopped::NoMemory) => NO_MEMORY,
        Err(Stopped::TooLong) => TOO_LONG,
        Err(Stopped::AlreadyFounded) => ALREADY_FOUNDED,
        Err(Stopped::NotFounded) => NOT_FOUNDED,
    }
}
