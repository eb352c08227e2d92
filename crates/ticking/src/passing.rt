ghost use Rattle.std.specs.Prelude.{◌+◌, ◌<◌, ◌≤◌, IfOk};
ghost use Rattle.ports.specs.declared.clock.TheConstants.{LATEST};
ghost use Rattle.ticking.specs.Standing.{AreSomeWorld, Pass};

use happenings::{Held, apply};
use std::alloc::{AllocError, Global};
use tick_model::Rules;

/// Copies of all cells of a universe, which stand at a second that is not the last one, after one second more: each cell gains for
/// it, and then the events that are due by then happen, the first one first. It fails only if memory runs out.
fn pass_second(alloc: Global, rules: &Rules, cells: &Held, second: u64) -> Result<Held, AllocError>
    requires all { AreSomeWorld rules.now second cells.now }
    requires in_time { second < LATEST }
    ensures { IfOk result (Pass rules.now second cells.now (second + 1)) }
{
    let now = second + 1;
    let mut later = cells.gained(alloc, rules, now)?;
    'events: while let Some(what) = later.first_due(now) {
        apply(alloc, &mut later, rules, what)?;
    }
    Ok(later)
}

/// Copies of all cells of a universe, which stand at one second, after the seconds up to a moment of at most 2^40 − 1 have passed one
/// by one. It fails only if memory runs out.
pub fn pass(
    alloc: Global,
    rules: &Rules,
    cells: &Held,
    second: u64,
    moment: u64,
) -> Result<Held, AllocError>
    requires all { AreSomeWorld rules.now second cells.now }
    requires later { second ≤ moment }
    requires in_time { moment ≤ LATEST }
    ensures { IfOk result (Pass rules.now second cells.now moment) }
{
    let mut passed = cells.copy(alloc)?;
    'seconds: for now in second..moment {
        passed = pass_second(alloc, rules, &passed, now)?;
    }
    Ok(passed)
}
