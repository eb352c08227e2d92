// A base becomes the area of a disk.
ghost use Rattle.std.specs.Prelude.{◌≡◌, IfOk, IsErrOf, OnOk};
ghost use Rattle.base_bytes.specs.Spelling.{base_spelling};
ghost use Rattle.disk_port.specs.Moments.{EachNow, EachSince};
ghost use Rattle.disk_port.specs.Story.{Told};
ghost use Rattle.ports.specs.Causes.{Rose};
ghost use Rattle.recovery.specs.Areas.{IsArea, IsBehind};
ghost use Rattle.recovery.specs.Laying.{IsRebasing};
ghost use Rattle.recovery.specs.declared.rebasing.RebaseFault.TheVariants.{Memory as OutOfMemory, DeviceFault as AtDevice};

use crate::head::Head;
use crate::laying::lay;
use base_bytes::Base;
use base_text::Bytes;
use disk_port::Disk;
use ports::Failed;
use std::alloc::{AllocError, Global};

/// Why a base isn't laid.
#[derive(Clone, Copy, Debug, PartialEq, Eq)]
pub enum RebaseFault {
    /// Out of memory. No call was made on the disk.
    Memory,
    /// The disk failed.
    DeviceFault,
}

impl From<AllocError> for RebaseFault {
    ghost from_gives = { λ _ fault. fault ≡ OutOfMemory };

    fn from(_: AllocError) -> RebaseFault {
        RebaseFault::Memory
    }
}

impl From<Failed> for RebaseFault {
    ghost from_gives = { λ _ fault. fault ≡ AtDevice };

    fn from(_: Failed) -> RebaseFault {
        RebaseFault::DeviceFault
    }
}

/// Makes a base the area of a disk, of this generation and with no entries. Each image in between is one from before, is not open,
/// or is the new area. A disk that holds the only open area of a universe is not for this: a crash might leave none.
pub fn rebase<D: Disk>(
    alloc: Global,
    base: &Base,
    generation: u64,
    into: &mut D,
) -> Result<(), RebaseFault>
    ensures since { Told D.story into.old into.new (
        EachSince D.story into.old into.new (IsRebasing (D.story.leaves into.old) generation (base_spelling base.now))) }
    ensures rebased { Told D.story into.old into.new (OnOk result (EachNow D.story into.new (IsArea generation (base_spelling base.now)))) }
    ensures memory { IsErrOf result RebaseFault.Memory → into.new ≡ into.old }
    ensures device { IsErrOf result RebaseFault.DeviceFault → Rose (D.faults into.old) (D.faults into.new) }
    ensures kept { (IsErrOf result RebaseFault.DeviceFault → ⊥) → D.faults into.new ≡ D.faults into.old }
{
    let bytes = base_bytes::write(alloc, base)?;
    let behind = behind_gate(alloc, generation, bytes.as_slice())?;
    lay(into, behind.as_slice())?;
    Ok(())
}

// What stands behind the gate of an area with this base and no entries.
fn behind_gate(alloc: Global, generation: u64, base: &[u8]) -> Result<Bytes, AllocError>
    ensures { IfOk result (λ bytes. IsBehind generation base.now bytes) }
{
    let head = Head::of(generation, base);
    let mut bytes = Bytes::new(alloc);
    bytes.push(&head.bytes())?;
    bytes.push(base)?;
    bytes.push(&[0])?;
    Ok(bytes)
}
