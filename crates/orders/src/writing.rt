ghost use Rattle.std.specs.Prelude.{◌≡◌, ◌++◌, ◌≤◌, IfOk, OnOk, Some, map};
ghost use Rattle.account_cell.specs.Account.{account_fields};
ghost use Rattle.catalog.specs.declared.settings.TheConstants.{TOP_SPEED};
ghost use Rattle.fleet_rec.specs.Fleet.{fleet_seen};
ghost use Rattle.orders.specs.Acting.{account_seen, own_line, system_text};
ghost use Rattle.planet_cell.specs.Planet.{fields_of, queue_of};
ghost use Rattle.tick_model.specs.Lines.{account_text, fleet_lines, head_of, own_fleets, own_planet_lines, planet_text, slots_of, units_of, yield_of};

use crate::parts::SystemPlanet;
use crate::queues::{push_batches, push_buildings, push_researches};
use account_cell::Account;
use base_ids::{Coord, Player};
use base_text::Bytes;
use catalog::{Kind, Technology};
use fleet_rec::{Fleet, Fleets};
use planet_cell::Planet;
use rates::{Hourly, Resources, whole_units};
use reply_text::{
    AccountHead, PlanetHead, Units, push_account, push_at, push_debris, push_energy, push_fleet,
    push_hourly, push_levels, push_limit, push_own_planet, push_planet, push_settings, push_stock,
    push_technologies, push_units,
};
use std::alloc::{AllocError, Global};

fn units(amounts: Resources) -> Units
    ensures { result ≡ units_of amounts }
{
    Units {
        metal: amounts.metal,
        crystal: amounts.crystal,
        deuterium: amounts.deuterium,
    }
}

fn yielded(hourly: Hourly) -> Units
    ensures { result ≡ yield_of hourly }
{
    Units {
        metal: hourly.metal,
        crystal: hourly.crystal,
        deuterium: hourly.deuterium,
    }
}

/// What the first line of a planet shows.
fn head(planet: &Planet) -> PlanetHead
    ensures { result ≡ head_of planet.now.at (fields_of planet.now) }
{
    PlanetHead {
        at: planet.at,
        owner: planet.owner,
        temperature: planet.temperature,
        fields: planet.fields,
        used: planet.used_fields(),
    }
}

/// The lines that show a planet at a speed of 1 to `catalog::TOP_SPEED`. It fails only if memory runs out.
#[tactic(auto, unfolding(tick_model::specs::Lines::planet_text))]
pub fn planet_lines(alloc: Global, speed: u32, planet: &Planet) -> Result<Bytes, AllocError>
    requires { speed ≤ TOP_SPEED }
    ensures { IfOk result (λ body. body ≡ planet_text speed planet.now.at (fields_of planet.now) (queue_of planet.now)) }
{
    let mut body = Bytes::new(alloc);
    let yields = planet.yields(speed);
    push_planet(alloc, &mut body, head(planet))?;
    push_stock(alloc, &mut body, units(whole_units(planet.stock)))?;
    push_hourly(alloc, &mut body, yielded(yields))?;
    push_limit(alloc, &mut body, units(planet.limits()))?;
    push_energy(alloc, &mut body, yields.given, yields.need)?;
    push_debris(alloc, &mut body, planet.debris.metal, planet.debris.crystal)?;
    push_levels(alloc, &mut body, &planet.levels)?;
    push_settings(alloc, &mut body, &planet.tenths)?;
    push_units(alloc, &mut body, &planet.units)?;
    push_buildings(alloc, &mut body, planet.buildings.as_slice())?;
    push_batches(alloc, &mut body, planet.yard.as_slice())?;
    Ok(body)
}

/// The lines that show an account, to whose cell these fleets belong. It fails only if memory runs out.
#[tactic(auto, unfolding(tick_model::specs::Lines::account_text))]
pub fn account_lines(alloc: Global, account: &Account, fleets: &Fleets) -> Result<Bytes, AllocError>
    ensures { IfOk result (λ body. body ≡ account_text account.now.player (account_fields account.now) (account_seen (Some account.now) fleets.now)) }
{
    let mut body = Bytes::new(alloc);
    let head = AccountHead {
        player: account.player,
        units: account.units,
        fleets: fleets.count_of(account.player),
        slots: slots(account),
    };
    push_account(alloc, &mut body, head)?;
    push_technologies(alloc, &mut body, &account.techs.n)?;
    push_planets(alloc, &mut body, account.planets.as_slice())?;
    push_researches(alloc, &mut body, account.research.as_slice())?;
    Ok(body)
}

/// How many fleets an account may have: one, and one for each level of computer technology.
pub fn slots(account: &Account) -> u32
    ensures { result ≡ slots_of (account_fields account.now) }
{
    let computer = Technology {
        kind: Kind::Computer,
    };
    1 + u32::from(account.techs.level(computer))
}

/// Appends a line for each planet of an account.
#[tactic(auto, using(crate::proofs::Listing::next_planet))]
fn push_planets(alloc: Global, body: &mut Bytes, planets: &[Coord]) -> Result<(), AllocError>
    ensures { OnOk result (body.new ≡ body.old ++ own_planet_lines planets.now) }
{
    'planets: for at in planets {
        push_own_planet(alloc, body, *at)?;
    }
    Ok(())
}

/// A line for each of the fleets that is the player's. It fails only if memory runs out.
pub fn own_fleet_lines(alloc: Global, fleets: &Fleets, player: Player) -> Result<Bytes, AllocError>
    ensures { IfOk result (λ body. body ≡ fleet_lines (own_fleets player fleets.now)) }
{
    let mut body = Bytes::new(alloc);
    push_own_fleets(alloc, &mut body, fleets.as_slice(), player)?;
    Ok(body)
}

/// Appends a line for each of the fleets that is the player's.
#[tactic(auto, using(crate::proofs::Listing::next_own))]
fn push_own_fleets(
    alloc: Global,
    body: &mut Bytes,
    fleets: &[Fleet],
    player: Player,
) -> Result<(), AllocError>
    ensures { OnOk result (body.new ≡ body.old ++ fleet_lines (own_fleets player (map fleet_seen fleets.now))) }
{
    'fleets: for fleet in fleets {
        push_own(alloc, body, fleet, player)?;
    }
    Ok(())
}

/// Appends the line of a fleet, if it is the player's.
fn push_own(
    alloc: Global,
    body: &mut Bytes,
    fleet: &Fleet,
    player: Player,
) -> Result<(), AllocError>
    ensures { OnOk result (body.new ≡ body.old ++ own_line player (fleet_seen fleet.now)) }
{
    if fleet.owner.k == player.k {
        push_fleet(alloc, body, &fleet.line())?;
    }
    Ok(())
}

/// A line for each planet of a system. It fails only if memory runs out.
pub fn system_lines(alloc: Global, planets: &[SystemPlanet]) -> Result<Bytes, AllocError>
    ensures { IfOk result (λ body. body ≡ system_text planets.now) }
{
    let mut body = Bytes::new(alloc);
    push_system(alloc, &mut body, planets)?;
    Ok(body)
}

/// Appends a line for each planet of a system.
#[tactic(auto, using(crate::proofs::Listing::next_system_planet))]
fn push_system(alloc: Global, body: &mut Bytes, planets: &[SystemPlanet]) -> Result<(), AllocError>
    ensures { OnOk result (body.new ≡ body.old ++ system_text planets.now) }
{
    'planets: for planet in planets {
        push_at(
            alloc,
            body,
            planet.at,
            planet.owner,
            planet.debris.metal,
            planet.debris.crystal,
        )?;
    }
    Ok(())
}
