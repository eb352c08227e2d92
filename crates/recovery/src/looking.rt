// What is read of the first bytes of an area.
ghost use Rattle.std.specs.Prelude.{◌≡◌, ◌↔◌, IfOk, IsTrue, MatchOption, OnOk, take};
ghost use Rattle.disk_port.specs.Disk.{Elapses, Rests};
ghost use Rattle.disk_port.specs.Moments.{EachNow, EachSince};
ghost use Rattle.disk_port.specs.Story.{Told};
ghost use Rattle.ports.specs.Causes.{HasCause};
ghost use Rattle.recovery.specs.Areas.{IsMarked, IsOpen};
ghost use Rattle.recovery.specs.Looking.{Looks};
ghost use Rattle.recovery.specs.Reopening.{Shows};

use crate::head::{Head, LEAST, MARK};
use disk_port::Disk;
use ports::Failed;

/// Makes sure of what a disk holds, and tells whether the area on it is open. Then each image is what a read gives.
pub fn look<D: Disk>(disk: &mut D) -> Result<bool, Failed>
    ensures since { Told D.story disk.old disk.new (EachSince D.story disk.old disk.new (D.story.leaves disk.old)) }
    ensures seen { Told D.story disk.old disk.new (D.story.seen disk.new ≡ D.story.seen disk.old) }
    ensures settled { Told D.story disk.old disk.new (OnOk result (EachNow D.story disk.new (λ c. c ≡ D.story.seen disk.old))) }
    ensures opens { Told D.story disk.old disk.new (IfOk result (λ answer. IsTrue answer ↔ IsOpen (D.story.seen disk.old))) }
    ensures cause { HasCause (D.faults disk.old) (D.faults disk.new) result }
{
    Ok(read_head(disk)?.is_some())
}

/// Makes sure of what a disk holds, and reads the head of the area on it, if it is open.
pub fn read_head<D: Disk>(disk: &mut D) -> Result<Option<Head>, Failed>
    ensures looks { Told D.story disk.old disk.new (Looks D.story disk.old disk.new) }
    ensures settled { Told D.story disk.old disk.new (OnOk result (EachNow D.story disk.new (λ c. c ≡ D.story.seen disk.old))) }
    ensures shows { Told D.story disk.old disk.new (IfOk result (Shows (D.story.seen disk.old))) }
    ensures cause { HasCause (D.faults disk.old) (D.faults disk.new) result }
{
    disk.sync()?;
    match front(disk)? {
        Some(bytes) => Ok(Some(Head::read(&bytes))),
        None => Ok(None),
    }
}

// The first bytes of the area on a disk, if it is open.
fn front<D: Disk>(disk: &mut D) -> Result<Option<[u8; LEAST]>, Failed>
    ensures open { Told D.story disk.old disk.new (IfOk result (λ front. MatchOption front (IsOpen (D.story.seen disk.old) → ⊥)
        (λ bytes. IsOpen (D.story.seen disk.old) × (bytes ≡ take 58 (D.story.seen disk.old))))) }
    ensures images { Told D.story disk.old disk.new (Rests D.story disk.old disk.new) }
    ensures time { Told D.story disk.old disk.new (Elapses D.story disk.old disk.new) }
    ensures cause { HasCause (D.faults disk.old) (D.faults disk.new) result }
{
    let mut bytes = [0; LEAST];
    let count = disk.read_at(0, &mut bytes)?;
    if count == LEAST && is_marked(&bytes) {
        return Ok(Some(bytes));
    }
    Ok(None)
}

// Whether the first bytes of an area are an open gate and the mark.
fn is_marked(bytes: &[u8; LEAST]) -> bool
    ensures { IsTrue result ↔ IsMarked bytes.now }
{
    bytes[0] == 1 && bytes[1..9] == MARK[..]
}
