ghost use Rattle.std.specs.Prelude.{◌≡◌, ◌++◌, ◌+◌, ◌≤◌, length, map, replicate, IfOk, OnOk};
ghost use Rattle.battle.specs.Arrays.{IsMustered, IsReady, all_seen, shown};
ghost use Rattle.battle.specs.Course.{unhurt};
ghost use Rattle.battle.specs.Sides.{fighters, part_fighters};
ghost use Rattle.battle.specs.declared.limits.TheConstants.{MOST_UNITS};

use crate::army::Army;
use crate::fighter::Fighter;
use crate::part::Part;
use crate::ready::side_count;
use crate::unit_state::UnitState;
use catalog::UNIT_KINDS;
use std::alloc::{AllocError, Global};

/// The units of a side at the start of a battle: part by part, kind by kind, one by one.
pub(crate) fn muster(alloc: Global, parts: &[Part]) -> Result<Army, AllocError>
    requires { length (fighters parts.now) ≤ MOST_UNITS }
    ensures shown { IfOk result (λ army. shown 0 army ≡ map unhurt (fighters parts.now)) }
    ensures ready { IfOk result (λ army. IsReady 0 army) }
{
    let mut table = Vec::new(alloc);
    let mut units = Vec::with_capacity(alloc, side_count(parts) as usize)?;
    'parts: for (place, part) in parts.iter().enumerate() {
        add_part(&mut table, &mut units, place, part)?;
    }
    Ok(Army { table, units })
}

/// Adds the units of the part at this place.
fn add_part(
    table: &mut Vec<Fighter>,
    units: &mut Vec<UnitState>,
    place: usize,
    part: &Part,
) -> Result<(), AllocError>
    requires mustered { IsMustered table.old.items units.old.items }
    requires room { length units.old.items + length (part_fighters place part.now) ≤ MOST_UNITS }
    ensures shown { OnOk result (all_seen table.new.items 0 units.new.items
        ≡ all_seen table.old.items 0 units.old.items ++ map unhurt (part_fighters place part.now)) }
    ensures mustered { OnOk result (IsMustered table.new.items units.new.items) }
{
    'kinds: for (i, count) in part.n.iter().enumerate() {
        let fighter = Fighter::new(place, UNIT_KINDS[i], &part.techs);
        add_units(table, units, fighter, *count)?;
    }
    Ok(())
}

/// Adds so many units of these strengths, and the strengths if there are any.
fn add_units(
    table: &mut Vec<Fighter>,
    units: &mut Vec<UnitState>,
    fighter: Fighter,
    count: u32,
) -> Result<(), AllocError>
    requires mustered { IsMustered table.old.items units.old.items }
    requires room { length units.old.items + count ≤ MOST_UNITS }
    ensures shown { OnOk result (all_seen table.new.items 0 units.new.items
        ≡ all_seen table.old.items 0 units.old.items ++ map unhurt (replicate count fighter)) }
    ensures mustered { OnOk result (IsMustered table.new.items units.new.items) }
{
    if count == 0 {
        return Ok(());
    }
    let unit = UnitState::new(table.len() as u32, &fighter);
    table.push(fighter)?;
    units.resize(units.len() + count as usize, unit)?;
    Ok(())
}
