// The values that numbers in an entry's bytes stand for. Each answers `None` if its numbers stand for nothing.
ghost use Rattle.std.specs.Prelude.{◌≡◌, All, IsSomeAnd, MatchOption, nat_le, nat_lt};
ghost use Rattle.std.specs.List.{list_all, list_any};
ghost use Rattle.base_ids.specs.declared.coord.Coord.{Coord};
ghost use Rattle.base_ids.specs.declared.fleet_number.FleetNumber.{FleetNumber};
ghost use Rattle.base_ids.specs.declared.player.Player.{Player};
ghost use Rattle.base_ids.specs.declared.system.System.{System};
ghost use Rattle.catalog.specs.Kinds.{kind_number};
ghost use Rattle.catalog.specs.Missions.{mission_number};
ghost use Rattle.catalog.specs.declared.amounts.Amounts.{Amounts};
ghost use Rattle.catalog.specs.declared.kind.Kind.{Kind};
ghost use Rattle.catalog.specs.declared.mission.Mission.{Mission};
ghost use Rattle.catalog.specs.declared.settings.Count.{Count};
ghost use Rattle.catalog.specs.declared.settings.SpeedSetting.{SpeedSetting};
ghost use Rattle.catalog.specs.declared.settings.Tenths.{Tenths};
ghost use Rattle.catalog.specs.declared.ships.Ships.{Ships};
ghost use Rattle.records.specs.Columns.{place_of, place_of_system};

use crate::fields::{Load, Place};
use base_ids::{
    Coord, FleetNumber, LAST_GALAXY, LAST_NUMBER, LAST_PLAYER, LAST_POSITION, LAST_SYSTEM, Player,
    System,
};
use catalog::{
    Amounts, CAP, Class, Count, KINDS, Kind, Mission, Ships, SpeedSetting, Tenths, UNITS,
};

pub fn player(k: u32) -> Option<Player>
    ensures { (player : Player) → k ≡ player.k → result ≡ Some player }
{
    if k < 1 || k > LAST_PLAYER {
        return None;
    }
    Some(Player { k })
}

pub fn coord(place: Place) -> Option<Coord>
    ensures { (at : Coord) → place ≡ place_of at → result ≡ Some at }
{
    let Place { g, s, p } = place;
    if g < 1 || g > LAST_GALAXY || s < 1 || s > LAST_SYSTEM || p < 1 || p > LAST_POSITION {
        return None;
    }
    Some(Coord { g, s, p })
}

pub fn system(place: Place) -> Option<System>
    ensures { (at : System) → place ≡ place_of_system at → result ≡ Some at }
{
    let Place { g, s, p: _ } = place;
    if g < 1 || g > LAST_GALAXY || s < 1 || s > LAST_SYSTEM {
        return None;
    }
    Some(System { g, s })
}

fn kind(number: u8) -> Option<Kind>
    ensures { (kind : Kind) → number ≡ kind_number kind → result ≡ Some kind }
{
    numbered(&KINDS, number)
}

// The first of these kinds with this number.
fn numbered(kinds: &[Kind], number: u8) -> Option<Kind>
    ensures { MatchOption result
        (All (λ kind. number ≡ kind_number kind → ⊥) kinds.now)
        (λ kind. number ≡ kind_number kind) }
{
    'kinds: for kind in kinds {
        if kind.number() == number {
            return Some(*kind);
        }
    }
    None
}

// The member of a class whose kind has this number.
pub fn member<C: Class>(number: u8) -> Option<C>
    ensures { (member : C) → number ≡ kind_number (C.kind_of member)
        → IsSomeAnd result (λ found. C.kind_of found ≡ C.kind_of member) }
{
    let kind = kind(number)?;
    C::of(kind)
}

pub fn mission(number: u8) -> Option<Mission>
    ensures { (mission : Mission) → number ≡ mission_number mission → result ≡ Some mission }
{
    match number {
        1 => Some(Mission::Transport),
        2 => Some(Mission::Deploy),
        3 => Some(Mission::Harvest),
        4 => Some(Mission::Attack),
        _ => None,
    }
}

pub fn speed_setting(p: u8) -> Option<SpeedSetting>
    ensures { (setting : SpeedSetting) → p ≡ setting.p → result ≡ Some setting }
{
    if p < 1 || p > 10 {
        return None;
    }
    Some(SpeedSetting { p })
}

pub fn tenths(n: u8) -> Option<Tenths>
    ensures { (tenths : Tenths) → n ≡ tenths.n → result ≡ Some tenths }
{
    if n > 10 {
        return None;
    }
    Some(Tenths { n })
}

pub fn count(n: u32) -> Option<Count>
    ensures { (count : Count) → n ≡ count.n → result ≡ Some count }
{
    if n < 1 || n > UNITS {
        return None;
    }
    Some(Count { n })
}

pub fn fleet_number(f: u64) -> Option<FleetNumber>
    ensures { (fleet : FleetNumber) → f ≡ fleet.f → result ≡ Some fleet }
{
    if f < 1 || f > LAST_NUMBER {
        return None;
    }
    Some(FleetNumber { f })
}

pub fn cargo(load: &Load) -> Option<Amounts>
    ensures { (cargo : Amounts) → load.now.metal ≡ cargo.m → load.now.crystal ≡ cargo.c → load.now.deuterium ≡ cargo.d
        → result ≡ Some cargo }
{
    if load.metal > CAP || load.crystal > CAP || load.deuterium > CAP {
        return None;
    }
    Some(Amounts {
        m: load.metal,
        c: load.crystal,
        d: load.deuterium,
    })
}

pub fn ships(load: &Load) -> Option<Ships>
    ensures { (ships : Ships) → load.now.ships ≡ ships.n → result ≡ Some ships }
{
    let n = load.ships;
    if !are_within(&n) || !are_some(&n) {
        return None;
    }
    Some(Ships { n })
}

fn are_within(counts: &[u32]) -> bool
    ensures { result ≡ list_all (λ count. nat_le count UNITS) counts.now }
{
    counts.iter().all(|count| *count <= UNITS)
}

fn are_some(counts: &[u32]) -> bool
    ensures { result ≡ list_any (λ count. nat_lt 0 count) counts.now }
{
    counts.iter().any(|count| 0 < *count)
}
