// Whether levels keep their caps, even if all items of a queue are done.
ghost use Rattle.std.specs.Prelude.{◌≡◌, ◌↔◌, ◌+◌, ◌≤◌, IsTrue, length};
ghost use Rattle.account_cell.specs.Bounds.{AreWithinCaps as AreTechsWithinCaps, count_of as techs_queued};
ghost use Rattle.catalog.specs.Classes.{is_building, is_technology};
ghost use Rattle.catalog.specs.Kinds.{place_in};
ghost use Rattle.catalog.specs.Levels.{level_cap_of};
ghost use Rattle.catalog.specs.Technologies.{level_in};
ghost use Rattle.catalog.specs.declared.classes.TheConstants.{BUILDINGS};
ghost use Rattle.planet_cell.specs.Bounds.{AreWithinCaps, count_of};
ghost use Rattle.std.specs.Prelude.{slice_index};
ghost use Rattle.tick_model.specs.declared.codes.TheConstants.{MOST_QUEUED};

use account_cell::ResearchItem;
use catalog::{Building, Class, KINDS, Kind, Technology, Techs};
use planet_cell::{BuildingItem, place_of};

/// Whether no technology rises above its highest level, even if all items of a queue are researched.
pub fn are_techs_within(techs: &Techs, items: &[ResearchItem]) -> bool
    requires { length items.now ≤ MOST_QUEUED }
    ensures { IsTrue result ↔ AreTechsWithinCaps techs.now.n items.now }
{
    'kinds: for kind in &KINDS {
        if !is_tech_within(*kind, techs, items) {
            return false;
        }
    }
    true
}

fn is_tech_within(kind: Kind, techs: &Techs, items: &[ResearchItem]) -> bool
    requires { length items.now ≤ MOST_QUEUED }
    ensures { IsTrue result ↔ (IsTrue (is_technology kind) → level_in techs.now.n kind + techs_queued kind items.now ≤ level_cap_of kind) }
{
    let Some(technology) = Technology::of(kind) else {
        return true;
    };
    let queued = items
        .iter()
        .filter(|item| item.kind.kind.number() == technology.kind.number())
        .count();
    usize::from(techs.level(technology)) + queued <= usize::from(technology.kind.level_cap())
}

/// Whether no building rises above its highest level, even if all items of a queue are built.
pub fn are_levels_within(levels: &[u8; 11], items: &[BuildingItem]) -> bool
    requires { length items.now ≤ MOST_QUEUED }
    ensures { IsTrue result ↔ AreWithinCaps levels.now items.now }
{
    'kinds: for kind in &KINDS {
        if !is_level_within(*kind, levels, items) {
            return false;
        }
    }
    true
}

fn is_level_within(kind: Kind, levels: &[u8; 11], items: &[BuildingItem]) -> bool
    requires { length items.now ≤ MOST_QUEUED }
    ensures { IsTrue result ↔ (IsTrue (is_building kind) → slice_index levels.now (place_in BUILDINGS kind) + count_of kind items.now ≤ level_cap_of kind) }
{
    let Some(building) = Building::of(kind) else {
        return true;
    };
    let queued = items
        .iter()
        .filter(|item| item.kind.kind.number() == building.kind.number())
        .count();
    usize::from(levels[place_of(building)]) + queued <= usize::from(building.kind.level_cap())
}
