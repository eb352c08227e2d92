ghost use Rattle.std.specs.Prelude.{◌≡◌, ◌++◌, [], ◌∷◌, IfOk, IfSome, MatchOption, None, OnOk, option_map};
ghost use Rattle.base_ids.specs.declared.cell_id.CellId.TheVariants.{Account as AccountId, Planet as PlanetId};
ghost use Rattle.closure.specs.Directory.{cells_of};
ghost use Rattle.happenings.specs.Held.{IsNamed};
ghost use Rattle.happenings.specs.Queues.{seen_held};
ghost use Rattle.lazy.specs.Taking.{AreTaken, IsTaken, IsTakenOf, PutsAccount, PutsParts, PutsPlanet, other_owner, planets_seen, seen_by};
ghost use Rattle.fleet_rec.specs.Fleet.{fleet_seen};
ghost use Rattle.orders.specs.Acting.{elsewhere, from_place, outbound, system_named, to_place};
ghost use Rattle.tick_model.specs.Sending.{fleet_of};

use account_cell::Account;
use base_ids::{Coord, Player, System};
use closure::Places;
use fleet_rec::{Fleet, Fleets};
use happenings::{AccountCell, Held, PlanetCell};
use orders::{PartFleets, Parts, SystemPlanet};
use planet_cell::Planet;
use request_text::Request;
use std::alloc::{AllocError, Global};

/// A planet, if one is there, and the fleets that belong to it.
#[derive(Drop)]
struct TakenPlanet {
    planet: Option<Planet>,
    fleets: Fleets,
}

/// An account, if it is there, and the fleets that belong to it.
#[derive(Drop)]
struct TakenAccount {
    account: Option<Account>,
    fleets: Fleets,
}

/// The parts that a request asks for, in memory of their own: none, if the caller's account isn't held.
pub fn take_parts(
    alloc: Global,
    places: &Places,
    cells: &Held,
    player: Player,
    req: &Request,
) -> Result<Parts, AllocError>
    requires { IsNamed cells.now }
    ensures { IfOk result (AreTaken (cells_of places.now) (seen_by cells.now player) player req.now) }
{
    let Some(cell) = cells.account(player) else {
        return Ok(no_parts(alloc));
    };
    let from = take_planet(alloc, cells, from_place(player, &cell.fleets, req))?;
    let to = take_planet(alloc, cells, to_place(player, &cell.fleets, req))?;
    let owner = take_owner(alloc, cells, player, &to.planet)?;
    Ok(Parts {
        caller: Some(cell.account.copy()?),
        from: from.planet,
        to: to.planet,
        to_owner: owner.account,
        fleets: PartFleets {
            caller: cell.fleets.copy()?,
            from: from.fleets,
            to: to.fleets,
            to_owner: owner.fleets,
        },
        seen: take_system(alloc, places, cells, req)?,
    })
}

/// No parts.
fn no_parts(alloc: Global) -> Parts
    ensures caller { result.caller ≡ None }
    ensures from { result.from ≡ None }
    ensures to { result.to ≡ None }
    ensures to_owner { result.to_owner ≡ None }
    ensures fleets { result.fleets.caller ≡ [] }
    ensures seen { result.seen.items ≡ [] }
{
    Parts {
        caller: None,
        from: None,
        to: None,
        to_owner: None,
        fleets: PartFleets {
            caller: Fleets::new(alloc),
            from: Fleets::new(alloc),
            to: Fleets::new(alloc),
            to_owner: Fleets::new(alloc),
        },
        seen: Vec::new(alloc),
    }
}

/// The planet at a place, in memory of its own, if a place is named and its planet is held.
fn take_planet(alloc: Global, cells: &Held, named: Option<Coord>) -> Result<TakenPlanet, AllocError>
    requires { IsNamed cells.now }
    ensures { IfOk result (λ taken. MatchOption named (taken.planet ≡ None) (λ at. IsTaken (seen_held cells.now (PlanetId at)) at taken.planet taken.fleets)) }
{
    let Some(at) = named else {
        return Ok(no_planet(alloc));
    };
    let Some(cell) = cells.planet(at) else {
        return Ok(no_planet(alloc));
    };
    Ok(TakenPlanet {
        planet: Some(cell.planet.copy()?),
        fleets: cell.fleets.copy()?,
    })
}

fn no_planet(alloc: Global) -> TakenPlanet
    ensures planet { result.planet ≡ None }
    ensures fleets { result.fleets ≡ [] }
{
    TakenPlanet {
        planet: None,
        fleets: Fleets::new(alloc),
    }
}

/// The account of the owner of a planet, in memory of its own, if that isn't the player and the account is held.
fn take_owner(
    alloc: Global,
    cells: &Held,
    player: Player,
    planet: &Option<Planet>,
) -> Result<TakenAccount, AllocError>
    requires { IsNamed cells.now }
    ensures { IfOk result (λ taken. MatchOption (other_owner player planet.now) (taken.account ≡ None)
        (λ owner. IsTakenOf (seen_held cells.now (AccountId owner)) owner taken.account taken.fleets)) }
{
    let Some(owner) = other_owner(player, planet) else {
        return Ok(no_account(alloc));
    };
    let Some(cell) = cells.account(owner) else {
        return Ok(no_account(alloc));
    };
    Ok(TakenAccount {
        account: Some(cell.account.copy()?),
        fleets: cell.fleets.copy()?,
    })
}

fn no_account(alloc: Global) -> TakenAccount
    ensures account { result.account ≡ None }
    ensures fleets { result.fleets ≡ [] }
{
    TakenAccount {
        account: None,
        fleets: Fleets::new(alloc),
    }
}

/// Who owns a planet, if that isn't the player.
fn other_owner(player: Player, planet: &Option<Planet>) -> Option<Player>
    ensures { result ≡ other_owner player planet.now }
{
    match planet {
        Some(planet) if planet.owner.k != player.k => Some(planet.owner),
        _ => None,
    }
}

/// What the planets of the system show that a request names, in the order of the directory.
fn take_system(
    alloc: Global,
    places: &Places,
    cells: &Held,
    req: &Request,
) -> Result<Vec<SystemPlanet>, AllocError>
    requires { IsNamed cells.now }
    ensures { IfOk result (λ seen. IfSome (system_named req.now) (λ system. seen.items ≡ planets_seen system (cells_of places.now) (seen_held cells.now))) }
{
    let Request::System(system) = req else {
        return Ok(Vec::new(alloc));
    };
    let mut seen = Vec::new(alloc);
    'spots: for spot in &places.planets {
        push_seen(cells, *system, spot.at, &mut seen)?;
    }
    Ok(seen)
}

/// Appends what the planet at a place shows, if the place is in the system and the planet is held.
fn push_seen(
    cells: &Held,
    system: System,
    at: Coord,
    seen: &mut Vec<SystemPlanet>,
) -> Result<(), AllocError>
    requires { IsNamed cells.now }
    ensures { OnOk result (seen.new.items ≡ seen.old.items ++ planets_seen system (PlanetId at ∷ []) (seen_held cells.now)) }
{
    if at.g != system.g || at.s != system.s {
        return Ok(());
    }
    let Some(cell) = cells.planet(at) else {
        return Ok(());
    };
    seen.push(SystemPlanet {
        at,
        owner: cell.planet.owner,
        debris: cell.planet.debris,
    })?;
    Ok(())
}

/// The place that a request names, or the origin of the caller's fleet that it calls back, among the fleets of the caller's account.
pub fn from_place(player: Player, fleets: &Fleets, req: &Request) -> Option<Coord>
    ensures { result ≡ from_place player fleets.now req.now }
{
    match req {
        Request::Planet(at)
        | Request::Build(at, _)
        | Request::Research(at, _)
        | Request::Yard(at, _, _)
        | Request::Set(at, _, _)
        | Request::Send(at, _, _, _, _, _)
        | Request::Join(_, at, _, _, _, _) => Some(*at),
        Request::Recall(number) => Some(outbound(fleets, player, number.f)?.origin),
        _ => None,
    }
}

/// The place to which a request sends a fleet, or the target of the caller's fleet that it calls back, if that is another place.
pub fn to_place(player: Player, fleets: &Fleets, req: &Request) -> Option<Coord>
    ensures { result ≡ to_place player fleets.now req.now }
{
    match req {
        Request::Send(from, to, _, _, _, _) | Request::Join(_, from, to, _, _, _) => {
            elsewhere(*from, *to)
        }
        Request::Recall(number) => {
            let fleet = outbound(fleets, player, number.f)?;
            elsewhere(fleet.origin, fleet.target)
        }
        _ => None,
    }
}

/// The player's fleet of this number, if it flies out.
fn outbound(fleets: &Fleets, player: Player, number: u64) -> Option<Fleet>
    ensures { option_map fleet_seen result ≡ outbound (fleet_of player number fleets.now) }
{
    let fleet = fleets.find(player, number)?;
    if fleet.outbound { Some(fleet) } else { None }
}

/// The second place, if it isn't the first.
fn elsewhere(from: Coord, to: Coord) -> Option<Coord>
    ensures { result ≡ elsewhere from to }
{
    if from == to { None } else { Some(to) }
}

/// Holds all parts at a moment: the caller's account, the planets at the two places, if they are named, and the other account. It
/// fails only if memory runs out.
pub fn put_parts(
    cells: &mut Held,
    parts: Parts,
    from: Option<Coord>,
    to: Option<Coord>,
    moment: u64,
) -> Result<(), AllocError>
    ensures puts { OnOk result (PutsParts from to parts moment cells.old cells.new) }
    ensures named { OnOk result (IsNamed cells.old → IsNamed cells.new) }
{
    let fleets = parts.fleets;
    put_account(cells, parts.caller, fleets.caller, moment)?;
    put_planet(cells, from, parts.from, fleets.from, moment)?;
    put_planet(cells, to, parts.to, fleets.to, moment)?;
    put_account(cells, parts.to_owner, fleets.to_owner, moment)
}

/// Holds the account at a moment, if there is one. It fails only if memory runs out.
fn put_account(
    cells: &mut Held,
    account: Option<Account>,
    fleets: Fleets,
    second: u64,
) -> Result<(), AllocError>
    ensures puts { OnOk result (PutsAccount account fleets second cells.old cells.new) }
    ensures named { OnOk result (IsNamed cells.old → IsNamed cells.new) }
{
    match account {
        Some(account) => cells.put_account(AccountCell {
            second,
            account,
            fleets,
        }),
        None => Ok(()),
    }
}

/// Holds the planet at a moment, if a place was named and a planet stands there. It fails only if memory runs out.
fn put_planet(
    cells: &mut Held,
    named: Option<Coord>,
    planet: Option<Planet>,
    fleets: Fleets,
    second: u64,
) -> Result<(), AllocError>
    ensures puts { OnOk result (PutsPlanet named planet fleets second cells.old cells.new) }
    ensures named { OnOk result (IsNamed cells.old → IsNamed cells.new) }
{
    match (named, planet) {
        (Some(_), Some(planet)) => cells.put_planet(PlanetCell {
            second,
            planet,
            fleets,
        }),
        _ => Ok(()),
    }
}
