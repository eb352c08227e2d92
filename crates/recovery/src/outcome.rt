// What comes of opening a universe.
ghost use Rattle.std.specs.Prelude.{◌≡◌};
ghost use Rattle.recovery.specs.declared.outcome.OpenFault.TheVariants.{Memory as OutOfMemory, DeviceFault as AtDevice};

use base_bytes::Base;
use ports::Failed;
use std::alloc::AllocError;

/// What two areas hold: whether the right one is the chosen one; its generation; its base; the place of its first closed gate;
/// and whether that gate lies past the area's end.
#[derive(Debug, Drop)]
pub struct Found {
    pub right: bool,
    pub generation: u64,
    pub base: Base,
    pub end: u64,
    pub short: bool,
}

/// Why a universe isn't opened.
#[derive(Clone, Copy, Debug, PartialEq, Eq)]
pub enum OpenFault {
    /// No area is open.
    NotFounded,
    /// The digest that the chosen area keeps isn't the computed one.
    Damaged { kept: [u8; 32], computed: [u8; 32] },
    /// The digests of the chosen area agree, but its bytes spell no base, or they end too early.
    BadBase,
    /// A batch begins at this place. No batches are read yet.
    BadEntry { at: u64 },
    /// A disk failed.
    DeviceFault,
    /// Out of memory.
    Memory,
}

impl From<AllocError> for OpenFault {
    ghost from_gives = { λ _ fault. fault ≡ OutOfMemory };

    fn from(_: AllocError) -> OpenFault {
        OpenFault::Memory
    }
}

impl From<Failed> for OpenFault {
    ghost from_gives = { λ _ fault. fault ≡ AtDevice };

    fn from(_: Failed) -> OpenFault {
        OpenFault::DeviceFault
    }
}
