// Two areas become a universe.
ghost use Rattle.std.specs.Prelude.{◌≡◌, ◌⊎◌, IsErrOf, List, ℕ};
ghost use Rattle.disk_port.specs.Moments.{EachNow};
ghost use Rattle.disk_port.specs.Story.{Told};
ghost use Rattle.ports.specs.Causes.{Rose};
ghost use Rattle.recovery.specs.Looking.{Looks};
ghost use Rattle.recovery.specs.Reopening.{IsGateAt, IsHeadIn, IsIntact, Opens, OpensIn, first_batch};

use crate::choosing::{Choice, choose};
use crate::head::BASE;
use crate::looking::read_head;
use crate::outcome::{Found, OpenFault};
use crate::reading::{FirstGate, read_base, read_gate};
use crate::restoring::restore;
use base_bytes::Base;
use disk_port::Disk;
use std::alloc::Global;

/// Opens the universe that two areas hold: that of the open area with the greater generation, and of the left one at a tie. It
/// begins with a sync of each disk. After each result but `DeviceFault` a crash leaves what the reads give.
pub fn reopen<D: Disk>(alloc: Global, left: &mut D, right: &mut D) -> Result<Found, OpenFault>
    ensures left_looks { Told D.story left.old left.new (Looks D.story left.old left.new) }
    ensures right_looks { Told D.story right.old right.new (Looks D.story right.old right.new) }
    ensures left_settled { (IsErrOf result OpenFault.DeviceFault → ⊥)
        → Told D.story left.old left.new (EachNow D.story left.new (λ c. c ≡ D.story.seen left.old)) }
    ensures right_settled { (IsErrOf result OpenFault.DeviceFault → ⊥)
        → Told D.story right.old right.new (EachNow D.story right.new (λ c. c ≡ D.story.seen right.old)) }
    ensures opens { Told D.story left.old left.new (Told D.story right.old right.new (
        Opens (D.story.seen left.old) (D.story.seen right.old) result)) }
    ensures device { IsErrOf result OpenFault.DeviceFault
        → Rose (D.faults left.old) (D.faults left.new) ⊎ Rose (D.faults right.old) (D.faults right.new) }
    ensures left_kept { (IsErrOf result OpenFault.DeviceFault → ⊥) → D.faults left.new ≡ D.faults left.old }
    ensures right_kept { (IsErrOf result OpenFault.DeviceFault → ⊥) → D.faults right.new ≡ D.faults right.old }
{
    let on_left = read_head(left)?;
    let on_right = read_head(right)?;
    let Some(choice) = choose(on_left, on_right) else {
        return Err(OpenFault::NotFounded);
    };
    if choice.right {
        open_area(alloc, right, choice)
    } else {
        open_area(alloc, left, choice)
    }
}

// Opens the area that is chosen, on its disk.
fn open_area<D: Disk>(alloc: Global, disk: &mut D, choice: Choice) -> Result<Found, OpenFault>
    ensures looks { Told D.story disk.old disk.new (Looks D.story disk.old disk.new) }
    ensures opens { Told D.story disk.old disk.new (IsHeadIn (D.story.seen disk.old) choice.head
        → OpensIn (D.story.seen disk.old) choice.right result) }
    ensures device { IsErrOf result OpenFault.DeviceFault → Rose (D.faults disk.old) (D.faults disk.new) }
    ensures kept { (IsErrOf result OpenFault.DeviceFault → ⊥) → D.faults disk.new ≡ D.faults disk.old }
{
    let bytes = read_base(alloc, disk, choice.head.size)?;
    let base = restore(alloc, &choice.head, &bytes)?;
    let end = BASE + choice.head.size;
    let gate = read_gate(disk, end)?;
    conclude(choice, base, end, gate)
}

// What is found, if the gate at the end of the base isn't open.
fn conclude(choice: Choice, base: Base, end: u64, gate: FirstGate) -> Result<Found, OpenFault>
    ensures opens { (content : List ℕ) → IsIntact content choice.head base → end ≡ first_batch content → IsGateAt content end gate
        → OpensIn content choice.right result }
    ensures device { IsErrOf result OpenFault.DeviceFault → ⊥ }
{
    let short = match gate {
        FirstGate::Open => return Err(OpenFault::BadEntry { at: end }),
        FirstGate::Closed => false,
        FirstGate::Missing => true,
    };
    Ok(Found {
        right: choice.right,
        generation: choice.head.generation,
        base,
        end,
        short,
    })
}
