// The three traits over the system.
ghost use Rattle.std.specs.Prelude.{◌≡◌, ◌<◌, ◌≤◌, Ok, IfOk, OnErr, IsErr};
ghost use Rattle.ports.specs.Causes.{HasCause};
ghost use Rattle.ports.specs.Counts.{faults_after};

pub mod clock;
pub mod sink;
pub mod source;

use crate::failed::Failed;
use std::io;

// How many bytes a call of std moved. It failed if it moved fewer than `least`, and each failure
// is counted in `faults`.
fn count_moved(moved: io::Result<usize>, least: usize, faults: &mut u64) -> Result<usize, Failed>
    ensures enough { IfOk moved (λ n. least ≤ n → result ≡ Ok n) }
    ensures short { IfOk moved (λ n. n < least → IsErr result) }
    ensures err { OnErr moved (IsErr result) }
    ensures cause { HasCause faults.old faults.new result }
    ensures faults { faults.new ≡ faults_after faults.old result }
{
    match moved {
        Ok(count) if count >= least => Ok(count),
        _ => {
            *faults = faults.saturating_add(1);
            Err(Failed)
        }
    }
}
