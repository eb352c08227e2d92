ghost use Rattle.std.specs.Prelude.{IfOk, ◌≤◌};
ghost use Rattle.happenings.specs.Held.{IsNamed};
ghost use Rattle.laziness.specs.Stamps.{Stamps};
ghost use Rattle.lazy.specs.Advancing.{AdvancesIn, StandAt};
ghost use Rattle.lazy.specs.Planning.{CanAdvance, HoldsSame};
ghost use Rattle.ports.specs.declared.clock.TheConstants.{LATEST};
ghost use Rattle.tick_model.specs.Game.{game};
ghost use Rattle.tick_model.specs.Universe.{Setting};

use crate::running::run_yards;
use happenings::{Held, apply};
use std::alloc::{AllocError, Global};
use tick_model::Rules;

/// Copies of the cells, brought to a moment of at most 2^40 − 1 seconds: the events that they owe by then happen, the first one
/// first, and then each cell gains until the moment. It fails only if memory runs out.
///
/// After each event the yards build on alone until another event has its turn.
pub fn advance(alloc: Global, rules: &Rules, cells: &Held, moment: u64) -> Result<Held, AllocError>
    requires can { (setting : Setting) × (f : Stamps (game setting)) × CanAdvance setting rules.now cells.now moment f }
    requires named { IsNamed cells.now }
    requires in_time { moment ≤ LATEST }
    ensures advances { IfOk result (AdvancesIn rules.now cells.now moment) }
    ensures same { IfOk result (HoldsSame cells.now) }
    ensures stand { IfOk result (StandAt moment) }
    ensures named { IfOk result IsNamed }
{
    let copies = cells.copy(alloc)?;
    bring(alloc, rules, copies, moment)
}

/// The cells themselves, brought to a moment as `advance` brings copies. It fails only if memory runs out.
pub(crate) fn bring(
    alloc: Global,
    rules: &Rules,
    mut cells: Held,
    moment: u64,
) -> Result<Held, AllocError>
    requires can { (setting : Setting) × (f : Stamps (game setting)) × CanAdvance setting rules.now cells moment f }
    requires named { IsNamed cells }
    requires in_time { moment ≤ LATEST }
    ensures advances { IfOk result (AdvancesIn rules.now cells moment) }
    ensures same { IfOk result (HoldsSame cells) }
    ensures stand { IfOk result (StandAt moment) }
    ensures named { IfOk result IsNamed }
{
    'events: while let Some(what) = cells.first_due(moment) {
        apply(alloc, &mut cells, rules, what)?;
        run_yards(alloc, &mut cells, rules, moment)?;
    }
    cells.gain(rules, moment);
    Ok(cells)
}
