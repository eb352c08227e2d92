ghost use Rattle.std.specs.Prelude.{◌≤◌, ◌<◌, ◌^◌};
ghost use Rattle.base_bytes.specs.declared.base.TheConstants.{MOST_REQUESTS};
ghost use Rattle.ports.specs.declared.clock.TheConstants.{LATEST};

use account_cell::Account;
use base_bytes::Base;
use fleet_rec::Fleets;
use planet_cell::Planet;
use std::alloc::Global;
use tick_model::Rules;

/// What the line `universe SEED SPEED CAPACITY MOMENT` says: the rules of the universe, how many requests its
/// history may keep, and the second at which it begins.
#[derive(Clone, Copy, Debug)]
pub struct Heading {
    pub rules: Rules,
    pub capacity: u32,
    pub moment: u64,
    pub ghost seed_fits: { rules.seed < 2 ^ 64 },
    pub ghost capacity_from: { 1 ≤ capacity },
    pub ghost capacity_to: { capacity ≤ MOST_REQUESTS },
    pub ghost in_time: { moment ≤ LATEST },
}

impl Heading {
    ghost use Rattle.std.specs.Prelude.{◌≡◌, []};
    ghost use Rattle.base_bytes.specs.Base.{setting_of};

    /// The base with these accounts and planets. No fleet flies, and no request has come. It takes no memory.
    #[tactic(auto, using(crate::proofs::Wording::rules_is))]
    pub fn base(self, alloc: Global, accounts: Vec<Account>, planets: Vec<Planet>) -> Base
        ensures rules { (setting_of result).rules ≡ self.rules }
        ensures capacity { result.capacity ≡ self.capacity }
        ensures moment { result.moment ≡ self.moment }
        ensures number { result.number ≡ 0 }
        ensures accounts { result.accounts ≡ accounts }
        ensures planets { result.planets ≡ planets }
        ensures fleets { result.fleets ≡ [] }
    {
        Base {
            seed: self.rules.seed,
            speed: self.rules.speed,
            capacity: self.capacity,
            moment: self.moment,
            number: 0,
            accounts,
            planets,
            fleets: Fleets::new(alloc),
        }
    }
}
