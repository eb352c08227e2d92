ghost use Rattle.founding.specs.declared.fault.LineFault.TheVariants.{Memory as OutOfMemory};

use request_text::Stop;
use std::alloc::{AllocError, AllocFailed};
use thiserror::Error;

/// Why a founding text founds no universe.
#[derive(Clone, Copy, Debug, PartialEq, Eq, Error)]
pub enum FoundingFault {
    /// This line, counted from 1, is the first bad one. If the input ends too early, it is the line after the last.
    #[error("line {line} of the founding text is bad")]
    Bad { line: u64 },
    /// A read failed.
    #[error("a read failed")]
    ReadFault,
    /// The reader has taken all the bytes that it may take.
    #[error("the input is too long")]
    Spent,
    /// Memory ran out at a line that adds something.
    #[error("out of memory")]
    Memory,
}

impl From<Stop> for FoundingFault {
    ghost use Rattle.std.specs.Prelude.{◌≡◌};
    ghost use Rattle.founding.specs.Reading.{fault_of};

    ghost from_gives = { λ stop fault. fault ≡ fault_of stop };

    fn from(stop: Stop) -> FoundingFault {
        match stop {
            Stop::Fault => FoundingFault::ReadFault,
            Stop::Spent => FoundingFault::Spent,
        }
    }
}

/// Why a line adds nothing to a draft.
#[derive(Clone, Copy, Debug)]
pub enum LineFault {
    /// It is bad.
    Bad,
    /// Memory ran out, and the line would add something.
    Memory,
}

impl LineFault {
    ghost use Rattle.std.specs.Prelude.{◌≡◌};
    ghost use Rattle.founding.specs.Steps.{fault_at};

    /// The fault of a founding text in which the line of this number adds nothing.
    pub fn at(self, line: u64) -> FoundingFault
        ensures { result ≡ fault_at line self }
    {
        match self {
            LineFault::Bad => FoundingFault::Bad { line },
            LineFault::Memory => FoundingFault::Memory,
        }
    }
}

impl From<AllocError> for LineFault {
    ghost use Rattle.std.specs.Prelude.{◌≡◌};

    ghost from_gives = { λ _ fault. fault ≡ OutOfMemory };

    fn from(_error: AllocError) -> LineFault {
        LineFault::Memory
    }
}

impl<T: Drop> From<AllocFailed<T>> for LineFault {
    ghost use Rattle.std.specs.Prelude.{◌≡◌};

    ghost from_gives = { λ _ fault. fault ≡ OutOfMemory };

    fn from(_error: AllocFailed<T>) -> LineFault {
        LineFault::Memory
    }
}
