ghost use Rattle.std.specs.Prelude.{◌≡◌, ◌≤◌, ◌<◌, ◌==◌, ◌∷◌, ◌++◌, [], length, map, IfOk, OnErr, OnOk, option_map, sum_by};
ghost use Rattle.catalog.specs.declared.ships.TheConstants.{UNITS};
ghost use Rattle.fleet_rec.specs.Fleet.{fleet_seen};
ghost use Rattle.tick_model.specs.Lines.{own_fleets};
ghost use Rattle.tick_model.specs.Sending.{fleet_of};
ghost use Rattle.tick_model.specs.Views.{ships_of};

use crate::fleet::Fleet;
use base_ids::Player;
use std::alloc::{AllocError, Global};
use std::marker::Model;

/// The fleets that belong to a cell, in the order in which they were sent. Contracts see them as the list of what is seen of each.
#[derive(Debug, Drop)]
pub struct Fleets {
    pub(crate) items: Vec<Fleet>,
}

impl Model for Fleets {
    ghost use Rattle.std.specs.Prelude.{List, map};
    ghost use Rattle.tick_model.specs.Universe.{Fleet as FleetInList};

    ghost Value = { List FleetInList };

    ghost use Rattle.fleet_rec.specs.Fleet.{fleet_seen};

    ghost view = { λ fleets. map fleet_seen fleets.items.items };
}

impl Fleets {
    /// No fleets. It takes no memory.
    pub fn new(alloc: Global) -> Fleets
        ensures { result ≡ [] }
    {
        Fleets {
            items: Vec::new(alloc),
        }
    }

    /// The same fleets, in memory of their own.
    pub fn copy(&self) -> Result<Fleets, AllocError>
        ensures { IfOk result (λ fleets. fleets ≡ self.now) }
    {
        let items = Vec::from_slice(*self.items.allocator(), &self.items)?;
        Ok(Fleets { items })
    }

    /// All the fleets.
    pub fn as_slice(&self) -> &[Fleet]
        ensures { map fleet_seen result.now ≡ self.now }
    {
        self.items.as_slice()
    }

    /// How many fleets there are.
    pub fn len(&self) -> usize
        ensures { result ≡ length self.now }
    {
        self.items.len()
    }

    /// Whether there is no fleet.
    pub fn is_empty(&self) -> bool
        ensures { result ≡ (length self.now == 0) }
    {
        self.items.is_empty()
    }

    /// Appends the fleet. It fails only if memory runs out, and then appends nothing.
    pub fn push(&mut self, fleet: Fleet) -> Result<(), AllocError>
        ensures ok { OnOk result (self.new ≡ self.old ++ fleet_seen fleet ∷ []) }
        ensures err { OnErr result (self.new ≡ self.old) }
    {
        self.items.push(fleet)?;
        Ok(())
    }

    /// The player's fleet that has this number.
    pub fn find(&self, player: Player, number: u64) -> Option<Fleet>
        ensures { option_map fleet_seen result ≡ fleet_of player number self.now }
    {
        find(&self.items, player, number)
    }

    /// How many of the fleets are the player's.
    #[tactic(auto, using(crate::proofs::Seen::own_count))]
    pub fn count_of(&self, player: Player) -> usize
        ensures { result ≡ length (own_fleets player self.now) }
    {
        self.items
            .iter()
            .filter(|fleet| fleet.owner.k == player.k)
            .count()
    }

    /// How many ships the player's fleets have, which are at most `catalog::UNITS`.
    pub fn ships_of(&self, player: Player) -> u32
        requires { sum_by (ships_of player) self.now ≤ UNITS }
        ensures { result ≡ sum_by (ships_of player) self.now }
    {
        ship_count(&self.items, player)
    }
}

/// The first of the fleets that is the player's and has this number.
fn find(fleets: &[Fleet], player: Player, number: u64) -> Option<Fleet>
    ensures { option_map fleet_seen result ≡ fleet_of player number (map fleet_seen fleets.now) }
{
    'fleets: for fleet in fleets {
        if fleet.number == number && fleet.owner.k == player.k {
            return Some(*fleet);
        }
    }
    None
}

/// How many ships those of the fleets have that are the player's.
fn ship_count(fleets: &[Fleet], player: Player) -> u32
    requires { sum_by (ships_of player) (map fleet_seen fleets.now) ≤ UNITS }
    ensures { result ≡ sum_by (ships_of player) (map fleet_seen fleets.now) }
{
    let mut ships = 0;
    'fleets: for fleet in fleets {
        if fleet.owner.k == player.k {
            ships += fleet.ship_total();
        }
    }
    ships
}
