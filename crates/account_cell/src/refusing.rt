use crate::account::Account;
use catalog::Technology;
use tick_model::{LEVEL_CAP, MOST_QUEUED, POOR, QUEUE_FULL, REQUIRES};

impl Account {
    ghost use Rattle.std.specs.Prelude.{◌≡◌, ◌+◌, ◌<◌, ◌≤◌, ℕ, ◌&&◌, nat_le, not};
    ghost use Rattle.account_cell.specs.Account.{account_fields, research_of};
    ghost use Rattle.account_cell.specs.Queue.{CanOrder};
    ghost use Rattle.catalog.specs.Levels.{level_cap_of};
    ghost use Rattle.catalog.specs.Technologies.{level_in};
    ghost use Rattle.tick_model.specs.Buildings.{can_pay};
    ghost use Rattle.tick_model.specs.Refusals.{are_met, is_empty, is_full, queued, research_refusal};
    ghost use Rattle.tick_model.specs.Researches.{gives_energy, research_price};
    ghost use Rattle.tick_model.specs.Universe.{PlanetFields};

    /// Why the next level of a technology can't be ordered, in the lab of a planet of the account: the code of the first reason
    /// that there is, or 0 if there is none. The planet tells whether the prerequisites are met and it gives the energy that the
    /// technology takes, and, if the technology is below its highest level, whether it can pay the next one.
    ///
    /// The reasons are, in this order: `tick_model::QUEUE_FULL`, `LEVEL_CAP`, `REQUIRES` and `POOR`.
    #[tactic(auto, using(crate::proofs::Reasons::can_order))]
    pub fn research_refusal(&self, technology: Technology, is_met: bool, pays: bool) -> u8
        ensures refusal { (speed : ℕ) (planet : PlanetFields)
            → is_met ≡ (are_met (account_fields self.now) planet technology.kind && gives_energy speed planet technology.kind)
            → (level_in self.now.techs.n technology.kind < level_cap_of technology.kind → pays ≡ can_pay planet.stock (research_price (account_fields self.now) technology.kind))
            → result ≡ research_refusal speed (account_fields self.now) planet (research_of self.now) technology.kind }
        ensures order { result ≡ 0 → CanOrder (account_fields self.now) (research_of self.now) technology.kind }
    {
        if self.is_full() {
            return QUEUE_FULL;
        }
        if self.is_capped(technology) {
            return LEVEL_CAP;
        }
        if !is_met {
            return REQUIRES;
        }
        if self.is_poor(pays) {
            return POOR;
        }
        0
    }

    /// Whether the queue has as many items as it may have.
    fn is_full(&self) -> bool
        ensures { result ≡ is_full (research_of self.now) }
    {
        self.research.len() >= MOST_QUEUED
    }

    /// Whether an order would start at once, and the planet can't pay.
    fn is_poor(&self, pays: bool) -> bool
        ensures { result ≡ (is_empty (research_of self.now) && not pays) }
    {
        self.research.is_empty() && !pays
    }

    /// Whether the level of a technology and its items in the queue reach the highest level.
    fn is_capped(&self, technology: Technology) -> bool
        ensures { result ≡ nat_le (level_cap_of technology.kind) (level_in self.now.techs.n technology.kind + queued technology.kind (research_of self.now)) }
    {
        usize::from(self.techs.level(technology)) + self.queued(technology)
            >= usize::from(technology.kind.level_cap())
    }

    /// How many items of a kind stand in the queue.
    #[tactic(auto, using(crate::proofs::Counts::queued_items))]
    fn queued(&self, technology: Technology) -> usize
        ensures value { result ≡ queued technology.kind (research_of self.now) }
        ensures within { result ≤ MOST_QUEUED }
    {
        self.research
            .iter()
            .filter(|item| item.kind.kind.number() == technology.kind.number())
            .count()
    }
}
