ghost use Rattle.std.specs.Prelude.{◌≡◌, ◌≢◌, ℕ, ◌+◌, ◌<◌, ◌≤◌, [], length, map, slice_index, IfNone, IfSome};
ghost use Rattle.catalog.specs.Kinds.{kind_number};
ghost use Rattle.battle.specs.Arrays.{AreKnown, fighter_of};
ghost use Rattle.battle.specs.Outcomes.{survivors};
ghost use Rattle.battle.specs.Places.{GainsOne, unit_number};
ghost use Rattle.battle.specs.declared.limits.TheConstants.{MOST_UNITS};

use crate::fighter::Fighter;
use crate::part::Part;
use crate::unit_state::UnitState;
use catalog::{Kind, UNIT_KINDS};

/// Gives each part of a side the units that are left of it. The table has their strengths.
pub(crate) fn keep(side: &mut [Part], table: &[Fighter], living: &[UnitState])
    requires most { length living.now ≤ MOST_UNITS }
    requires known { AreKnown (length table.now) living.now }
    ensures { side.new ≡ survivors (map (fighter_of table.now) living.now) side.old }
{
    clear(side);
    'living: for unit in living {
        let fighter = &table[unit.strength as usize];
        let place = fighter.part;
        if place < side.len() {
            add_one(&mut side[place], fighter.kind);
        }
    }
}

/// Takes all units from the parts of a side.
fn clear(side: &mut [Part])
    ensures { side.new ≡ survivors [] side.old }
{
    'parts: for part in side.iter_mut() {
        part.n = [0; 22];
    }
}

/// Counts one unit more of a kind.
fn add_one(part: &mut Part, kind: Kind)
    requires room { (place : ℕ) → place < 22 → slice_index part.old.n place < MOST_UNITS }
    ensures { GainsOne kind part.old part.new }
{
    if let Some(place) = unit_place(kind) {
        part.n[place] += 1;
    }
}

/// The place of a kind among the kinds of units, counted from 0. `None` if it is no unit.
fn unit_place(kind: Kind) -> Option<usize>
    ensures within { IfSome result (λ place. place < 22) }
    ensures found { IfSome result (λ place. unit_number place ≡ kind_number kind) }
    ensures none { IfNone result ((place : ℕ) → place < 22 → unit_number place ≢ kind_number kind) }
{
    let number = kind.number();
    UNIT_KINDS.iter().position(|unit| unit.number() == number)
}
