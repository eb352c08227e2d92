// The words after the first of each form of request.
ghost use Rattle.std.specs.Prelude.{◌≡◌, [], ◌∷◌, MatchOption};
ghost use Rattle.std.specs.Fmt.{decimal};
ghost use Rattle.base_ids.specs.Text.{coord_text, system_text};
ghost use Rattle.base_ids.specs.declared.coord.Coord.{Coord};
ghost use Rattle.base_ids.specs.declared.fleet_number.FleetNumber.{FleetNumber};
ghost use Rattle.base_ids.specs.declared.system.System.{System};
ghost use Rattle.catalog.specs.Kinds.{kind_word};
ghost use Rattle.catalog.specs.Missions.{mission_word};
ghost use Rattle.catalog.specs.declared.amounts.Amounts.{Amounts};
ghost use Rattle.catalog.specs.declared.classes.Building.{Building};
ghost use Rattle.catalog.specs.declared.classes.Technology.{Technology};
ghost use Rattle.catalog.specs.declared.classes.Unit.{Unit};
ghost use Rattle.catalog.specs.declared.classes.Work.{Work};
ghost use Rattle.catalog.specs.declared.mission.Mission.{Mission};
ghost use Rattle.catalog.specs.declared.settings.Count.{Count};
ghost use Rattle.catalog.specs.declared.settings.SpeedSetting.{SpeedSetting};
ghost use Rattle.catalog.specs.declared.settings.Tenths.{Tenths};
ghost use Rattle.catalog.specs.declared.ships.Ships.{Ships};
ghost use Rattle.request_text.specs.Flights.{flight_words};
ghost use Rattle.request_text.specs.Words.{IsSpelled};

use crate::arguments::{next, next_flight, next_route};
use crate::form::Form;
use crate::request::Request;
use base_text::Parts;

/// Reads the words `C` of `planet`. `None` exactly if they are not such words.
pub fn planet(words: &mut Parts) -> Option<Request>
    ensures { MatchOption result
        ((at : Coord)
        → words.old ≡ coord_text at ∷ [] → ⊥)
        (IsSpelled Form.Planet words.old) }
{
    let at = next(words)?;
    if !words.is_at_end() {
        return None;
    }
    Some(Request::Planet(at))
}

/// Reads that no word follows `account`. `None` exactly if one does.
pub fn account(words: &mut Parts) -> Option<Request>
    ensures { MatchOption result (words.old ≡ [] → ⊥) (IsSpelled Form.Account words.old) }
{
    if !words.is_at_end() {
        return None;
    }
    Some(Request::Account)
}

/// Reads that no word follows `fleets`. `None` exactly if one does.
pub fn fleets(words: &mut Parts) -> Option<Request>
    ensures { MatchOption result (words.old ≡ [] → ⊥) (IsSpelled Form.Fleets words.old) }
{
    if !words.is_at_end() {
        return None;
    }
    Some(Request::Fleets)
}

/// Reads the words `G:S` of `system`. `None` exactly if they are not such words.
pub fn system(words: &mut Parts) -> Option<Request>
    ensures { MatchOption result
        ((system : System)
        → words.old ≡ system_text system ∷ [] → ⊥)
        (IsSpelled Form.System words.old) }
{
    let system = next(words)?;
    if !words.is_at_end() {
        return None;
    }
    Some(Request::System(system))
}

/// Reads the words `C BUILDING` of `build`. `None` exactly if they are not such words.
pub fn build(words: &mut Parts) -> Option<Request>
    ensures { MatchOption result
        ((at : Coord) (building : Building)
        → words.old ≡ coord_text at ∷ kind_word building.kind ∷ [] → ⊥)
        (IsSpelled Form.Build words.old) }
{
    let at = next(words)?;
    let building = next(words)?;
    if !words.is_at_end() {
        return None;
    }
    Some(Request::Build(at, building))
}

/// Reads the words `C TECH` of `research`. `None` exactly if they are not such words.
pub fn research(words: &mut Parts) -> Option<Request>
    ensures { MatchOption result
        ((at : Coord) (technology : Technology)
        → words.old ≡ coord_text at ∷ kind_word technology.kind ∷ [] → ⊥)
        (IsSpelled Form.Research words.old) }
{
    let at = next(words)?;
    let technology = next(words)?;
    if !words.is_at_end() {
        return None;
    }
    Some(Request::Research(at, technology))
}

/// Reads the words `C UNIT COUNT` of `yard`. `None` exactly if they are not such words.
pub fn yard(words: &mut Parts) -> Option<Request>
    ensures { MatchOption result
        ((at : Coord) (unit : Unit) (count : Count)
        → words.old ≡ coord_text at ∷ kind_word unit.kind ∷ decimal count.n ∷ [] → ⊥)
        (IsSpelled Form.Yard words.old) }
{
    let at = next(words)?;
    let unit = next(words)?;
    let count = next(words)?;
    if !words.is_at_end() {
        return None;
    }
    Some(Request::Yard(at, unit, count))
}

/// Reads the words `C WORK TENTHS` of `set`. `None` exactly if they are not such words.
pub fn set(words: &mut Parts) -> Option<Request>
    ensures { MatchOption result
        ((at : Coord) (work : Work) (tenths : Tenths)
        → words.old ≡ coord_text at ∷ kind_word work.kind ∷ decimal tenths.n ∷ [] → ⊥)
        (IsSpelled Form.Set words.old) }
{
    let at = next(words)?;
    let work = next(words)?;
    let tenths = next(words)?;
    if !words.is_at_end() {
        return None;
    }
    Some(Request::Set(at, work, tenths))
}

/// Reads the words `A B MISSION SETTING SHIPS METAL CRYSTAL DEUTERIUM` of `send`. `None` exactly if they are not such words.
pub fn send(words: &mut Parts) -> Option<Request>
    ensures { MatchOption result
        ((from : Coord) (to : Coord) (mission : Mission) (setting : SpeedSetting) (ships : Ships) (cargo : Amounts)
        → words.old ≡ coord_text from ∷ coord_text to ∷ mission_word mission ∷ flight_words setting ships cargo [] → ⊥)
        (IsSpelled Form.Send words.old) }
{
    let (from, to) = next_route(words)?;
    let mission = next(words)?;
    let (setting, ships, cargo) = next_flight(words)?;
    if !words.is_at_end() {
        return None;
    }
    Some(Request::Send(from, to, mission, setting, ships, cargo))
}

/// Reads the words `F A B SETTING SHIPS METAL CRYSTAL DEUTERIUM` of `join`. `None` exactly if they are not such words.
pub fn join(words: &mut Parts) -> Option<Request>
    ensures { MatchOption result
        ((fleet : FleetNumber) (from : Coord) (to : Coord) (setting : SpeedSetting) (ships : Ships) (cargo : Amounts)
        → words.old ≡ decimal fleet.f ∷ coord_text from ∷ coord_text to ∷ flight_words setting ships cargo [] → ⊥)
        (IsSpelled Form.Join words.old) }
{
    let fleet = next(words)?;
    let (from, to) = next_route(words)?;
    let (setting, ships, cargo) = next_flight(words)?;
    if !words.is_at_end() {
        return None;
    }
    Some(Request::Join(fleet, from, to, setting, ships, cargo))
}

/// Reads the words `F` of `recall`. `None` exactly if they are not such words.
pub fn recall(words: &mut Parts) -> Option<Request>
    ensures { MatchOption result
        ((fleet : FleetNumber)
        → words.old ≡ decimal fleet.f ∷ [] → ⊥)
        (IsSpelled Form.Recall words.old) }
{
    let fleet = next(words)?;
    if !words.is_at_end() {
        return None;
    }
    Some(Request::Recall(fleet))
}
