ghost use Rattle.std.specs.Prelude.{◌≡◌, [], IfOk, OnOk, map};
ghost use Rattle.base_bytes.specs.Base.{setting_of};
ghost use Rattle.base_bytes.specs.Sound.{IsSound};
ghost use Rattle.base_ids.specs.declared.cell_id.CellId.TheVariants.{Account as AccountId};
ghost use Rattle.lazy.specs.Beginning.{HoldsOf, HoldsWith, player_of, spot_of};

use account_cell::Account;
use base_bytes::Base;
use base_ids::Player;
use closure::{Places, Spot};
use fleet_rec::Fleets;
use happenings::{AccountCell, Held, PlanetCell};
use planet_cell::Planet;
use std::alloc::{AllocError, Global};

/// The names of all cells of a base. It fails only if memory runs out.
pub fn places_of(alloc: Global, base: &Base) -> Result<Places, AllocError>
    requires { IsSound base.now }
    ensures players { IfOk result (λ places. places.players.items ≡ map player_of base.now.accounts.items) }
    ensures planets { IfOk result (λ places. places.planets.items ≡ map spot_of base.now.planets.items) }
{
    Ok(Places {
        players: players_of(alloc, &base.accounts)?,
        planets: spots_of(alloc, &base.planets)?,
    })
}

// The players of these accounts.
fn players_of(alloc: Global, accounts: &[Account]) -> Result<Vec<Player>, AllocError>
    ensures { IfOk result (λ players. players.items ≡ map player_of accounts.now) }
{
    accounts.iter().map(|account| account.player).collect(alloc)
}

// The places of these planets, and their owners.
fn spots_of(alloc: Global, planets: &[Planet]) -> Result<Vec<Spot>, AllocError>
    ensures { IfOk result (λ spots. spots.items ≡ map spot_of planets.now) }
{
    planets
        .iter()
        .map(|planet| Spot {
            at: planet.at,
            owner: planet.owner,
        })
        .collect(alloc)
}

/// All cells of a base, each with the fleets that belong to it. It fails only if memory runs out.
pub fn cells_of(alloc: Global, base: &Base) -> Result<Held, AllocError>
    requires { IsSound base.now }
    ensures { IfOk result (HoldsOf base.now (setting_of base.now).cells) }
{
    let mut cells = Held::new(alloc);
    hold_accounts(alloc, base, &mut cells)?;
    hold_planets(alloc, base, &mut cells)?;
    hold_fleets(base, &mut cells)?;
    Ok(cells)
}

// Holds the accounts of a base besides, each without a fleet.
fn hold_accounts(alloc: Global, base: &Base, cells: &mut Held) -> Result<(), AllocError>
    requires sound { IsSound base.now }
    requires none { HoldsWith base.now [] [] cells.old }
    ensures { OnOk result (HoldsWith base.now [] (map (λ account. AccountId account.player) base.now.accounts.items) cells.new) }
{
    'accounts: for account in &base.accounts {
        cells.put_account(AccountCell {
            second: base.moment,
            account: account.copy()?,
            fleets: Fleets::new(alloc),
        })?;
    }
    Ok(())
}

// Holds the planets of a base besides its accounts, each without a fleet.
fn hold_planets(alloc: Global, base: &Base, cells: &mut Held) -> Result<(), AllocError>
    requires sound { IsSound base.now }
    requires accounts { HoldsWith base.now [] (map (λ account. AccountId account.player) base.now.accounts.items) cells.old }
    ensures { OnOk result (HoldsWith base.now [] (setting_of base.now).cells cells.new) }
{
    'planets: for planet in &base.planets {
        cells.put_planet(PlanetCell {
            second: base.moment,
            planet: planet.copy()?,
            fleets: Fleets::new(alloc),
        })?;
    }
    Ok(())
}

// The fleets of a base join those of their cells.
fn hold_fleets(base: &Base, cells: &mut Held) -> Result<(), AllocError>
    requires sound { IsSound base.now }
    requires none { HoldsWith base.now [] (setting_of base.now).cells cells.old }
    ensures { OnOk result (HoldsOf base.now (setting_of base.now).cells cells.new) }
{
    'fleets: for fleet in base.fleets.as_slice() {
        cells.join_fleet(fleet)?;
    }
    Ok(())
}
