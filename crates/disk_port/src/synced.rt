// A write that is made sure of.
ghost use Rattle.std.specs.Prelude.{◌≡◌, ◌≤◌, ◌+◌, length, OnOk};
ghost use Rattle.disk_port.specs.Contents.{written};
ghost use Rattle.disk_port.specs.Moments.{EachNow, EachSince, TornFrom};
ghost use Rattle.disk_port.specs.Story.{Told};
ghost use Rattle.ports.specs.Causes.{HasCause};

use crate::disk::Disk;
use ports::Failed;

/// Writes bytes from this place on, and syncs. Until then a crash may leave any bytes there.
pub fn write_and_sync<D: Disk>(disk: &mut D, at: u64, bytes: &[u8]) -> Result<(), Failed>
    requires { D.story.tells disk.old → at ≤ length (D.story.seen disk.old) }
    ensures since { Told D.story disk.old disk.new (
        EachSince D.story disk.old disk.new (TornFrom D.story disk.old at (length bytes.now))) }
    ensures synced { Told D.story disk.old disk.new (OnOk result (
        EachNow D.story disk.new (λ c. c ≡ written (D.story.seen disk.old) at bytes.now))) }
    ensures calls { D.calls disk.new ≤ D.calls disk.old + 2 }
    ensures cause { HasCause (D.faults disk.old) (D.faults disk.new) result }
{
    disk.write_at(at, bytes)?;
    disk.sync()
}
