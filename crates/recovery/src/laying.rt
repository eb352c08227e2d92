// How an area is laid on a disk: its gate is closed, what stands behind it is written, and then the gate is opened.
ghost use Rattle.std.specs.Prelude.{◌≡◌, ◌∷◌, IfOk, List, OnOk, ℕ};
ghost use Rattle.disk_port.specs.Moments.{EachNow, EachSince};
ghost use Rattle.disk_port.specs.Story.{Told};
ghost use Rattle.ports.specs.Causes.{HasCause};
ghost use Rattle.recovery.specs.Laying.{HasBehind, HasGate, IsClosedAs, IsClosing, IsLaying, IsOpening};

use disk_port::{Disk, write_and_sync};
use ports::Failed;

/// Lays an area on a disk: behind its gate these bytes, and the gate open. Each image in between is one from before, is not
/// open, or is the whole area.
pub fn lay<D: Disk>(disk: &mut D, behind: &[u8]) -> Result<(), Failed>
    ensures since { Told D.story disk.old disk.new (
        EachSince D.story disk.old disk.new (IsLaying (D.story.leaves disk.old) (1 ∷ behind.now))) }
    ensures laid { Told D.story disk.old disk.new (OnOk result (EachNow D.story disk.new (λ c. c ≡ 1 ∷ behind.now))) }
    ensures cause { HasCause (D.faults disk.old) (D.faults disk.new) result }
{
    shut(disk)?;
    fill(disk, behind)?;
    open_gate(disk)
}

// Steps 1 to 4: makes sure that no image is open.
fn shut<D: Disk>(disk: &mut D) -> Result<(), Failed>
    ensures since { Told D.story disk.old disk.new (EachSince D.story disk.old disk.new (IsClosing (D.story.leaves disk.old))) }
    ensures shut { Told D.story disk.old disk.new (OnOk result (EachNow D.story disk.new HasGate)) }
    ensures cause { HasCause (D.faults disk.old) (D.faults disk.new) result }
{
    if is_closed(disk)? {
        return Ok(());
    }
    write_and_sync(disk, 0, &[0])
}

// Steps 1 and 2: makes sure of what the disk holds, and tells whether it begins with a closed gate.
fn is_closed<D: Disk>(disk: &mut D) -> Result<bool, Failed>
    ensures since { Told D.story disk.old disk.new (EachSince D.story disk.old disk.new (D.story.leaves disk.old)) }
    ensures closed { Told D.story disk.old disk.new (IfOk result (λ closed. EachNow D.story disk.new (IsClosedAs closed))) }
    ensures cause { HasCause (D.faults disk.old) (D.faults disk.new) result }
{
    disk.sync()?;
    let mut gate = [0];
    let count = disk.read_at(0, &mut gate)?;
    Ok(count == 1 && gate[0] != 1)
}

// Steps 5 to 7: has these bytes stand behind the closed gate, and nothing else.
fn fill<D: Disk>(disk: &mut D, behind: &[u8]) -> Result<(), Failed>
    requires { D.story.tells disk.old → EachNow D.story disk.old HasGate }
    ensures since { Told D.story disk.old disk.new (EachSince D.story disk.old disk.new HasGate) }
    ensures filled { Told D.story disk.old disk.new (OnOk result (EachNow D.story disk.new (HasBehind behind.now))) }
    ensures cause { HasCause (D.faults disk.old) (D.faults disk.new) result }
{
    disk.cut(1)?;
    write_and_sync(disk, 1, behind)
}

// Steps 8 and 9: opens the gate, whatever stands behind it.
fn open_gate<D: Disk>(disk: &mut D) -> Result<(), Failed>
    ensures since { Told D.story disk.old disk.new ((bytes : List ℕ) → EachNow D.story disk.old (HasBehind bytes)
        → EachSince D.story disk.old disk.new (IsOpening (1 ∷ bytes))) }
    ensures opened { Told D.story disk.old disk.new (OnOk result ((bytes : List ℕ) → EachNow D.story disk.old (HasBehind bytes)
        → EachNow D.story disk.new (λ c. c ≡ 1 ∷ bytes))) }
    ensures cause { HasCause (D.faults disk.old) (D.faults disk.new) result }
{
    write_and_sync(disk, 0, &[1])
}
