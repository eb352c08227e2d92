use account_cell::Account;
use base_ids::{CellId, Coord, Player};
use fleet_rec::Fleets;
use planet_cell::Planet;
use std::alloc::{AllocError, Global};
use std::collections::BTreeMap;

/// An account at its own second, and the fleets that belong to it.
#[derive(Debug, Drop)]
pub struct AccountCell {
    pub second: u64,
    pub account: Account,
    pub fleets: Fleets,
}

/// A planet at its own second, and the fleets that belong to it.
#[derive(Debug, Drop)]
pub struct PlanetCell {
    pub second: u64,
    pub planet: Planet,
    pub fleets: Fleets,
}

impl AccountCell {
    ghost use Rattle.std.specs.Prelude.{◌≡◌, IfOk};
    ghost use Rattle.happenings.specs.Held.{account_stand};

    /// The same cell, in memory of its own.
    pub fn copy(&self) -> Result<AccountCell, AllocError>
        ensures { IfOk result (λ cell. (account_stand cell ≡ account_stand self.now) × (cell.account.player ≡ self.now.account.player)) }
    {
        Ok(AccountCell {
            second: self.second,
            account: self.account.copy()?,
            fleets: self.fleets.copy()?,
        })
    }
}

impl PlanetCell {
    ghost use Rattle.std.specs.Prelude.{◌≡◌, IfOk};
    ghost use Rattle.happenings.specs.Held.{planet_stand};
    ghost use Rattle.planet_cell.specs.Planet.{AreSame};

    /// The same cell, in memory of its own.
    pub fn copy(&self) -> Result<PlanetCell, AllocError>
        ensures { IfOk result (λ cell. (cell.second ≡ self.now.second) × AreSame self.now.planet cell.planet × (cell.fleets ≡ self.now.fleets)) }
    {
        Ok(PlanetCell {
            second: self.second,
            planet: self.planet.copy()?,
            fleets: self.fleets.copy()?,
        })
    }
}

/// Some cells of a universe, each at a second of its own and found by its name.
#[derive(Drop)]
pub struct Held {
    pub(crate) accounts: BTreeMap<Player, AccountCell>,
    pub(crate) planets: BTreeMap<Coord, PlanetCell>,
}

impl Held {
    ghost use Rattle.std.specs.Prelude.{◌≡◌, [], Some, IfOk, IfSome, OnOk, OnErr, MatchOption, None};
    ghost use Rattle.std.specs.BTreeMap.{Updates, get};
    ghost use Rattle.base_ids.specs.declared.cell_id.CellId.TheVariants.{Account as AccountId, Planet as PlanetId};
    ghost use Rattle.happenings.specs.Held.{Copies, IsEqual, IsNamed, Picks, Puts, account_stand, planet_stand};
    ghost use Rattle.happenings.specs.Orders.{player_order, place_order};

    /// No cells. It takes no memory.
    pub fn new(alloc: Global) -> Held
        ensures accounts { result.accounts.entries ≡ [] }
        ensures planets { result.planets.entries ≡ [] }
    {
        Held {
            accounts: BTreeMap::new(alloc),
            planets: BTreeMap::new(alloc),
        }
    }

    /// The account of a player, if it is held.
    pub fn account(&self, player: Player) -> Option<&AccountCell>
        ensures { MatchOption result (get player_order self.now.accounts player ≡ None)
            (λ cell. get player_order self.now.accounts player ≡ Some cell.now) }
    {
        self.accounts.get(&player)
    }

    /// The planet at a place, if it is held.
    pub fn planet(&self, at: Coord) -> Option<&PlanetCell>
        ensures { MatchOption result (get place_order self.now.planets at ≡ None)
            (λ cell. get place_order self.now.planets at ≡ Some cell.now) }
    {
        self.planets.get(&at)
    }

    /// Holds the account in place of what was held of its player. It fails only if memory runs out and no account of the player
    /// was held; then nothing is changed.
    #[tactic(auto, using(crate::proofs::Putting::puts))]
    pub fn put_account(&mut self, cell: AccountCell) -> Result<(), AllocError>
        ensures ok { OnOk result (Updates player_order self.old.accounts self.new.accounts cell.account.player (Some cell)) }
        ensures puts { OnOk result (Puts self.old self.new (AccountId cell.account.player) (account_stand cell)) }
        ensures named { OnOk result (IsNamed self.old → IsNamed self.new) }
        ensures err { OnErr result (self.new.accounts.entries ≡ self.old.accounts.entries) }
        ensures absent { OnErr result (get player_order self.old.accounts cell.account.player ≡ None) }
        ensures planets { self.new.planets ≡ self.old.planets }
    {
        self.accounts.insert(cell.account.player, cell)?;
        Ok(())
    }

    /// Holds copies of just these cells, as far as they are held here.
    pub fn pick(&self, alloc: Global, names: &[CellId]) -> Result<Held, AllocError>
        requires { IsNamed self.now }
        ensures picks { IfOk result (λ held. Picks self.now names.now held) }
        ensures named { IfOk result IsNamed }
    {
        let mut picked = Held::new(alloc);
        'names: for name in names {
            self.copy_cell(*name, &mut picked)?;
        }
        Ok(picked)
    }

    /// Holds copies of all these cells.
    pub fn copy(&self, alloc: Global) -> Result<Held, AllocError>
        requires { IsNamed self.now }
        ensures equal { IfOk result (IsEqual self.now) }
        ensures named { IfOk result IsNamed }
    {
        let names = self.names(alloc)?;
        self.pick(alloc, &names)
    }

    // Holds a copy of the cell there too, if it is held here.
    fn copy_cell(&self, name: CellId, other: &mut Held) -> Result<(), AllocError>
        requires { IsNamed self.now }
        ensures copies { OnOk result (Copies self.now name other.old other.new) }
        ensures named { OnOk result (IsNamed other.old → IsNamed other.new) }
    {
        match name {
            CellId::Account(player) => match self.account(player) {
                Some(cell) => other.put_account(cell.copy()?),
                None => Ok(()),
            },
            CellId::Planet(at) => match self.planet(at) {
                Some(cell) => other.put_planet(cell.copy()?),
                None => Ok(()),
            },
        }
    }

    /// Holds the planet in place of what was held of its place. It fails only if memory runs out and no planet was held there;
    /// then nothing is changed.
    #[tactic(auto, using(crate::proofs::Putting::puts))]
    pub fn put_planet(&mut self, cell: PlanetCell) -> Result<(), AllocError>
        ensures ok { OnOk result (Updates place_order self.old.planets self.new.planets cell.planet.at (Some cell)) }
        ensures puts { OnOk result (Puts self.old self.new (PlanetId cell.planet.at) (planet_stand cell)) }
        ensures named { OnOk result (IsNamed self.old → IsNamed self.new) }
        ensures err { OnErr result (self.new.planets.entries ≡ self.old.planets.entries) }
        ensures absent { OnErr result (get place_order self.old.planets cell.planet.at ≡ None) }
        ensures accounts { self.new.accounts ≡ self.old.accounts }
    {
        self.planets.insert(cell.planet.at, cell)?;
        Ok(())
    }
}
