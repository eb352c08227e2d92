// The places of the planets of each account.
ghost use Rattle.std.specs.Prelude.{◌≡◌, [], ◌∷◌, ◌++◌, All, IfOk, OnOk, if◌then◌else◌};
ghost use Rattle.std.specs.BTreeMap.{get};
ghost use Rattle.std.specs.List.{AllZip};
ghost use Rattle.base_bytes.specs.Counting.{HasPlaces, places_in, player_order};
ghost use Rattle.base_bytes.specs.Sound.{places_owned};
ghost use Rattle.base_bytes.specs.Told.{AreAlike};
ghost use Rattle.base_ids.specs.Cells.{same_player};
ghost use Rattle.base_ids.specs.declared.player.Player.{Player};

use account_cell::Account;
use base_ids::{Coord, Player};
use planet_cell::Planet;
use std::alloc::{AllocError, Global};
use std::collections::BTreeMap;

/// The accounts, each with the places of those of the planets that are its own.
pub fn with_all_places(
    alloc: Global,
    accounts: Vec<Account>,
    planets: &[Planet],
) -> Result<Vec<Account>, AllocError>
    ensures alike { IfOk result (λ all. AllZip AreAlike accounts.items all.items) }
    ensures places { IfOk result (λ all. All (λ account. account.planets.items ≡ places_owned account.player planets.now) all.items) }
{
    let owners = places_by_owner(alloc, planets)?;
    let mut all = Vec::new(alloc);
    'accounts: for account in accounts {
        let places = listed(alloc, &owners, account.player)?;
        all.push(with_places(account, places))?;
    }
    Ok(all)
}

fn with_places(account: Account, planets: Vec<Coord>) -> Account
    ensures alike { AreAlike account result }
    ensures places { result.planets.items ≡ planets.items }
{
    Account {
        player: account.player,
        techs: account.techs,
        planets,
        units: account.units,
        research: account.research,
    }
}

// The places that are listed for a player, in memory of their own.
fn listed(
    alloc: Global,
    owners: &BTreeMap<Player, Vec<Coord>>,
    player: Player,
) -> Result<Vec<Coord>, AllocError>
    ensures { IfOk result (λ places. places.items ≡ places_in (get player_order owners.now player)) }
{
    match owners.get(&player) {
        Some(places) => places.clone(),
        None => Ok(Vec::new(alloc)),
    }
}

// The places of the planets of each player who has some, in their order.
fn places_by_owner(
    alloc: Global,
    planets: &[Planet],
) -> Result<BTreeMap<Player, Vec<Coord>>, AllocError>
    ensures { IfOk result (λ owners. HasPlaces owners planets.now) }
{
    let mut owners = BTreeMap::new(alloc);
    'planets: for planet in planets {
        add_place(alloc, &mut owners, planet.owner, planet.at)?;
    }
    Ok(owners)
}

// Lists a place behind those of a player.
fn add_place(
    alloc: Global,
    owners: &mut BTreeMap<Player, Vec<Coord>>,
    owner: Player,
    at: Coord,
) -> Result<(), AllocError>
    ensures { OnOk result ((player : Player) → places_in (get player_order owners.new player)
        ≡ places_in (get player_order owners.old player) ++ (if same_player owner player then at ∷ [] else [])) }
{
    match owners.get_mut(&owner) {
        Some(places) => places.push(at)?,
        None => {
            owners.insert(owner, vec![in alloc; at]?)?;
        }
    }
    Ok(())
}
