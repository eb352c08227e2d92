ghost use Rattle.std.specs.Prelude.{◌≡◌, ◌+◌, ◌≤◌, ◌<◌, [], length, map, true, vec_capacity, AllPairs, IsSome};
ghost use Rattle.catalog.specs.declared.ships.TheConstants.{UNITS};
ghost use Rattle.std.specs.BTreeMap.{get, is_at, values};
ghost use Rattle.std.specs.List.{AllByRecursion, position};
ghost use Rattle.std.specs.Map.{set_value};
ghost use Rattle.base_ids.specs.Order.{coord_before, player_before};
ghost use Rattle.founding.specs.DraftMaps.{own_in, place_order, places_in, player_order, units_in};
ghost use Rattle.founding.specs.Drafts.{learned_to, put};
ghost use Rattle.founding.specs.Filing.{account_facts, account_sketched, facts_of, facts_sketched, Alters, HasRoom, IsListed};

use crate::account_sketch::AccountSketch;
use crate::named::NewTechnology;
use crate::sketch::Sketch;
use account_cell::Account;
use base_ids::{Coord, Player};
use planet_cell::Planet;
use std::alloc::Global;
use std::collections::BTreeMap;

/// Adds a place to those of a player, where it belongs in their order.
pub fn add_place(players: &mut BTreeMap<Player, AccountSketch>, owner: Player, at: Coord)
    requires { HasRoom (get player_order players.old owner) }
    ensures { Alters owner (put coord_before at (places_in (get player_order players.old owner)))
        (own_in (get player_order players.old owner)) (units_in (get player_order players.old owner)) players.old players.new }
{
    if let Some(account) = players.get_mut(&owner) {
        account.add_place(at);
    }
}

/// The account of a player has the level of a technology that a line says.
pub fn teach(players: &mut BTreeMap<Player, AccountSketch>, new: NewTechnology)
    requires { IsListed (get player_order players.old new.player) }
    ensures { Alters new.player (places_in (get player_order players.old new.player))
        (learned_to new (own_in (get player_order players.old new.player))) (units_in (get player_order players.old new.player)) players.old players.new }
{
    if let Some(account) = players.get_mut(&new.player) {
        account.learn(new);
    }
}

/// The planets of a player have so many more units.
pub fn count_units(players: &mut BTreeMap<Player, AccountSketch>, owner: Player, count: u32)
    requires listed { IsListed (get player_order players.old owner) }
    requires room { units_in (get player_order players.old owner) + count ≤ UNITS }
    ensures { Alters owner (places_in (get player_order players.old owner))
        (own_in (get player_order players.old owner)) (units_in (get player_order players.old owner) + count) players.old players.new }
{
    if let Some(account) = players.get_mut(&owner) {
        account.count_units(count);
    }
}

// Adds a place to a list that has room for it, where it belongs in the order of places.
pub(crate) fn insert_place(places: &mut Vec<Coord>, at: Coord)
    requires { length places.old.items < vec_capacity places.old }
    ensures items { places.new.items ≡ put coord_before at places.old.items }
    ensures capacity { vec_capacity places.old ≤ vec_capacity places.new }
{
    let index = first_behind(places, at).unwrap_or(places.len());
    places.insert(index, at).unwrap();
}

// The index of the first of the places that comes behind a place.
fn first_behind(places: &[Coord], at: Coord) -> Option<usize>
    ensures { result ≡ position (coord_before at) places.now }
{
    places.iter().position(|place| is_before(at, *place))
}

// Whether a place comes before another one.
fn is_before(at: Coord, other: Coord) -> bool
    ensures { result ≡ coord_before at other }
{
    at < other
}

/// Puts a planet in place of the one that stands where it does.
pub fn put_back(planets: &mut BTreeMap<Coord, Sketch>, sketch: Sketch)
    requires { IsSome (get place_order planets.old sketch.at) }
    ensures { planets.new.entries ≡ set_value (is_at (place_order sketch.at)) planets.old.entries sketch }
{
    if let Some(old) = planets.get_mut(&sketch.at) {
        *old = sketch;
    }
}

/// The accounts of the players in their order, in a list that has room for them.
pub fn list_accounts(
    alloc: Global,
    players: BTreeMap<Player, AccountSketch>,
    mut list: Vec<Account>,
) -> Vec<Account>
    requires empty { list.items ≡ [] }
    requires room { length players.entries ≤ vec_capacity list }
    ensures items { map account_facts result.items ≡ map account_sketched players.entries }
    ensures ordered { AllPairs (λ first second. player_before first.0 second.0 ≡ true) players.entries }
    ensures rise { AllPairs (λ first second. player_before first.player second.player ≡ true) result.items }
{
    'players: for (player, account) in players {
        list.push(found(alloc, player, account)).unwrap();
    }
    list
}

// The account of a player as it is founded, with an empty queue. It takes no memory.
fn found(alloc: Global, player: Player, account: AccountSketch) -> Account
    ensures { account_facts result ≡ account_sketched (player, account) }
{
    let AccountSketch {
        techs,
        planets,
        units,
    } = account;
    Account {
        player,
        techs,
        planets,
        units,
        research: Vec::new(alloc),
    }
}

/// The planets in their order, in a list that has room for them.
pub fn list_planets(
    alloc: Global,
    planets: &BTreeMap<Coord, Sketch>,
    mut list: Vec<Planet>,
) -> Vec<Planet>
    requires empty { list.items ≡ [] }
    requires room { length planets.now.entries ≤ vec_capacity list }
    requires placed { AllByRecursion (λ entry. entry.1.at ≡ entry.0) planets.now.entries }
    ensures items { map facts_of result.items ≡ map facts_sketched (values planets.now) }
    ensures rise { AllPairs (λ first second. coord_before first.at second.at ≡ true) result.items }
{
    'planets: for sketch in planets.values() {
        list.push(sketch.planet(alloc)).unwrap();
    }
    list
}
