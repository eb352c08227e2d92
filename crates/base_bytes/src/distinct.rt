// Whether the items of all queues bear numbers of their own.
ghost use Rattle.std.specs.Prelude.{◌↔◌, IfOk, IsTrue};
ghost use Rattle.base_bytes.specs.Base.{all_items};
ghost use Rattle.base_bytes.specs.Counting.{AreOnce};

use account_cell::Account;
use planet_cell::Planet;
use std::alloc::{AllocError, Global};
use std::collections::BTreeSet;

/// The numbers of the items that were met, by the class of their queue.
#[derive(Drop)]
pub struct Met {
    pub research: BTreeSet<u64>,
    pub buildings: BTreeSet<u64>,
    pub batches: BTreeSet<u64>,
}

/// Whether no two items of one class bear the same number, in the queues of these accounts and planets.
pub fn are_once(alloc: Global, accounts: &[Account], planets: &[Planet]) -> Result<bool, AllocError>
    ensures { IfOk result (λ once. IsTrue once ↔ AreOnce (all_items accounts.now planets.now)) }
{
    let mut met = Met {
        research: BTreeSet::new(alloc),
        buildings: BTreeSet::new(alloc),
        batches: BTreeSet::new(alloc),
    };
    let once = met.meet_all(accounts, planets)?;
    Ok(once)
}

impl Met {
    ghost use Rattle.std.specs.Prelude.{IfOk};
    ghost use Rattle.std.specs.List.{flat_map};
    ghost use Rattle.account_cell.specs.Account.{research_of};
    ghost use Rattle.base_bytes.specs.Base.{all_items, planet_items};
    ghost use Rattle.base_bytes.specs.Counting.{Meets};
    ghost use Rattle.planet_cell.specs.Planet.{batches_of, buildings_of};

    // Meets what these accounts research and these planets build.
    fn meet_all(&mut self, accounts: &[Account], planets: &[Planet]) -> Result<bool, AllocError>
        ensures { IfOk result (Meets (all_items accounts.now planets.now) self.old self.new) }
    {
        Ok(self.meet_accounts(accounts)? && self.meet_planets(planets)?)
    }

    // Meets what these accounts research.
    fn meet_accounts(&mut self, accounts: &[Account]) -> Result<bool, AllocError>
        ensures { IfOk result (Meets (flat_map research_of accounts.now) self.old self.new) }
    {
        'accounts: for account in accounts {
            if !self.meet_research(account)? {
                return Ok(false);
            }
        }
        Ok(true)
    }

    // Meets what an account researches.
    fn meet_research(&mut self, account: &Account) -> Result<bool, AllocError>
        ensures { IfOk result (Meets (research_of account.now) self.old self.new) }
    {
        'items: for item in &account.research {
            if !self.research.insert(item.number)? {
                return Ok(false);
            }
        }
        Ok(true)
    }

    // Meets what these planets build.
    fn meet_planets(&mut self, planets: &[Planet]) -> Result<bool, AllocError>
        ensures { IfOk result (Meets (flat_map planet_items planets.now) self.old self.new) }
    {
        'planets: for planet in planets {
            if !self.meet_planet(planet)? {
                return Ok(false);
            }
        }
        Ok(true)
    }

    // Meets what a planet builds.
    fn meet_planet(&mut self, planet: &Planet) -> Result<bool, AllocError>
        ensures { IfOk result (Meets (planet_items planet.now) self.old self.new) }
    {
        Ok(self.meet_buildings(planet)? && self.meet_batches(planet)?)
    }

    // Meets the buildings in a planet's queue.
    fn meet_buildings(&mut self, planet: &Planet) -> Result<bool, AllocError>
        ensures { IfOk result (Meets (buildings_of planet.now) self.old self.new) }
    {
        'items: for item in &planet.buildings {
            if !self.buildings.insert(item.number)? {
                return Ok(false);
            }
        }
        Ok(true)
    }

    // Meets the batches of a planet's yard.
    fn meet_batches(&mut self, planet: &Planet) -> Result<bool, AllocError>
        ensures { IfOk result (Meets (batches_of planet.now) self.old self.new) }
    {
        'items: for batch in &planet.yard {
            if !self.batches.insert(batch.number)? {
                return Ok(false);
            }
        }
        Ok(true)
    }
}
