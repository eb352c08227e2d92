// What is read of an area behind its head.
ghost use Rattle.std.specs.Prelude.{◌≡◌, IfErr, IfOk, IsErrOf, drop, take};
ghost use Rattle.disk_port.specs.Story.{Told};
ghost use Rattle.ports.specs.Causes.{HasCause, Rose};
ghost use Rattle.recovery.specs.Looking.{Looks};
ghost use Rattle.recovery.specs.Reopening.{IsGateAt, IsOutside};

use crate::head::BASE;
use crate::outcome::OpenFault;
use disk_port::Disk;
use ports::Failed;
use std::alloc::Global;

/// Reads the bytes of a base of this size, as many as there are.
pub fn read_base<D: Disk>(alloc: Global, disk: &mut D, size: u64) -> Result<Vec<u8>, OpenFault>
    ensures looks { Told D.story disk.old disk.new (Looks D.story disk.old disk.new) }
    ensures bytes { Told D.story disk.old disk.new (IfOk result (λ bytes. bytes.items ≡ take size (drop 57 (D.story.seen disk.old)))) }
    ensures fault { IfErr result IsOutside }
    ensures device { IsErrOf result OpenFault.DeviceFault → Rose (D.faults disk.old) (D.faults disk.new) }
    ensures kept { (IsErrOf result OpenFault.DeviceFault → ⊥) → D.faults disk.new ≡ D.faults disk.old }
{
    let length = disk.len()?;
    let room = size.min(length.saturating_sub(BASE));
    let mut bytes = vec![in alloc; 0; room as usize]?;
    let count = disk.read_at(BASE, &mut bytes)?;
    bytes.truncate(count);
    Ok(bytes)
}

/// How the gate of the first batch stands.
#[derive(Clone, Copy, Debug, PartialEq, Eq)]
pub enum FirstGate {
    /// The area ends before it.
    Missing,
    Closed,
    Open,
}

/// Reads the gate at a place.
pub fn read_gate<D: Disk>(disk: &mut D, at: u64) -> Result<FirstGate, Failed>
    ensures looks { Told D.story disk.old disk.new (Looks D.story disk.old disk.new) }
    ensures gate { Told D.story disk.old disk.new (IfOk result (IsGateAt (D.story.seen disk.old) at)) }
    ensures cause { HasCause (D.faults disk.old) (D.faults disk.new) result }
{
    let mut gate = [0];
    let count = disk.read_at(at, &mut gate)?;
    if count == 0 {
        return Ok(FirstGate::Missing);
    }
    if gate[0] == 1 {
        return Ok(FirstGate::Open);
    }
    Ok(FirstGate::Closed)
}
