ghost use Rattle.std.specs.Prelude.{◌≡◌};
ghost use Rattle.happenings.specs.Gaining.{AccountsGain, KeepNames, KeepPlaces, PlanetsGain};

use crate::held::{AccountCell, Held, PlanetCell};
use base_ids::{Coord, Player};
use std::alloc::{AllocError, Global};
use std::collections::BTreeMap;
use tick_model::Rules;

impl PlanetCell {
    ghost use Rattle.std.specs.Prelude.{◌≡◌, IfOk};
    ghost use Rattle.happenings.specs.Held.{planet_stand};
    ghost use Rattle.happenings.specs.Gaining.{gained};

    /// The planet after it gained until a moment, in memory of its own.
    pub(crate) fn gained(&self, rules: &Rules, moment: u64) -> Result<PlanetCell, AllocError>
        ensures stand { IfOk result (λ cell. planet_stand cell ≡ gained rules.now moment (planet_stand self.now)) }
        ensures at { IfOk result (λ cell. cell.planet.at ≡ self.now.planet.at) }
    {
        let mut later = self.copy()?;
        later.gain_to(rules, moment);
        Ok(later)
    }

    /// The planet gains until a second, and then stands there. From a later second on it gains nothing.
    #[tactic(auto, using(crate::proofs::Gains::planet_gained_here))]
    pub(crate) fn gain_to(&mut self, rules: &Rules, second: u64)
        ensures stand { planet_stand self.new ≡ gained rules.now second (planet_stand self.old) }
        ensures fleets { self.new.fleets ≡ self.old.fleets }
        ensures at { self.new.planet.at ≡ self.old.planet.at }
    {
        let seconds = second.saturating_sub(self.second);
        self.planet.advance(seconds, rules.speed);
        self.second = second;
    }
}

impl Held {
    ghost use Rattle.std.specs.Prelude.{IfOk};
    ghost use Rattle.happenings.specs.Gaining.{AreBehind, Gains, GainsIn};
    ghost use Rattle.happenings.specs.Held.{IsNamed};

    /// Copies of the cells, each after it gained until a moment, with no event. It fails only if memory runs out.
    pub fn gained(&self, alloc: Global, rules: &Rules, moment: u64) -> Result<Held, AllocError>
        requires named { IsNamed self.now }
        requires behind { AreBehind moment self.now }
        ensures gains { IfOk result (Gains rules.now moment self.now) }
        ensures shows { IfOk result (GainsIn rules.now moment self.now) }
        ensures named { IfOk result IsNamed }
    {
        let mut gained = self.copy(alloc)?;
        gained.gain(rules, moment);
        Ok(gained)
    }

    /// The cells gain until a moment, with no event. It takes no memory.
    pub fn gain(&mut self, rules: &Rules, moment: u64)
        requires { AreBehind moment self.old }
        ensures gains { Gains rules.now moment self.old self.new }
        ensures shows { GainsIn rules.now moment self.old self.new }
        ensures named { IsNamed self.old → IsNamed self.new }
    {
        gain_accounts(&mut self.accounts, moment);
        gain_planets(&mut self.planets, rules, moment);
    }
}

/// The accounts come to a moment. They gain nothing.
fn gain_accounts(accounts: &mut BTreeMap<Player, AccountCell>, moment: u64)
    ensures gain { AccountsGain moment accounts.old accounts.new }
    ensures named { KeepNames accounts.old accounts.new }
{
    accounts.retain(|_, cell| {
        cell.second = moment;
        true
    });
}

/// The planets gain until a moment.
fn gain_planets(planets: &mut BTreeMap<Coord, PlanetCell>, rules: &Rules, moment: u64)
    ensures gain { PlanetsGain rules.now moment planets.old planets.new }
    ensures named { KeepPlaces planets.old planets.new }
{
    planets.retain(|_, cell| {
        cell.gain_to(rules, moment);
        true
    });
}
