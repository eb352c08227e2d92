use crate::account::Account;
use crate::research_item::ResearchItem;
use catalog::{Amounts, Technology};
use prices::{Helpers, cost, seconds};

impl Account {
    ghost use Rattle.std.specs.Prelude.{◌≡◌, ◌<◌, ◌≤◌, ◌^◌, nat_lt};
    ghost use Rattle.account_cell.specs.Account.{account_fields, research_item};
    ghost use Rattle.catalog.specs.Levels.{level_cap_of};
    ghost use Rattle.catalog.specs.Technologies.{level_in};
    ghost use Rattle.catalog.specs.declared.kind.Kind.TheVariants.{Lab};
    ghost use Rattle.catalog.specs.declared.settings.TheConstants.{TOP_SPEED};
    ghost use Rattle.ports.specs.declared.clock.TheConstants.{LATEST};
    ghost use Rattle.prices.specs.Prices.{cost_in};
    ghost use Rattle.tick_model.specs.Production.{level_of};
    ghost use Rattle.tick_model.specs.Researches.{research_duration, research_price, started_research};
    ghost use Rattle.tick_model.specs.Universe.{PlanetFields};

    /// Whether a technology is below its highest level, so that its next level has a price.
    pub fn can_rise(&self, technology: Technology) -> bool
        ensures { result ≡ nat_lt (level_in self.now.techs.n technology.kind) (level_cap_of technology.kind) }
    {
        self.techs.level(technology) < technology.kind.level_cap()
    }

    /// What the next level of a technology costs, in units.
    #[tactic(auto, unfolding(tick_model::specs::Researches::research_price))]
    pub fn next_price(&self, technology: Technology) -> Amounts
        requires { level_in self.now.techs.n technology.kind < level_cap_of technology.kind }
        ensures { cost_in result ≡ research_price (account_fields self.now) technology.kind }
    {
        cost(technology.kind, self.techs.level(technology) + 1)
    }

    /// The seconds that the next level of a technology takes in a lab of this level, 0 to 14, at most 2^36, at a speed of 1 to
    /// `catalog::TOP_SPEED`.
    #[tactic(auto, using(crate::proofs::Spans::spans))]
    pub fn next_seconds(&self, technology: Technology, lab: u8, speed: u32) -> u64
        requires level { level_in self.now.techs.n technology.kind < level_cap_of technology.kind }
        requires lab { lab ≤ level_cap_of Lab }
        requires speed_from { 1 ≤ speed }
        requires speed_to { speed ≤ TOP_SPEED }
        ensures value { (planet : PlanetFields) → lab ≡ level_of planet Lab → result ≡ research_duration speed (account_fields self.now) planet technology.kind }
        ensures within { result ≤ 2 ^ 36 }
    {
        seconds(
            self.next_price(technology),
            Helpers::Research { lab },
            speed,
        )
    }

    /// An item that starts to run at a second, in a lab of this level.
    pub(crate) fn started(
        &self,
        item: ResearchItem,
        second: u64,
        lab: u8,
        speed: u32,
    ) -> ResearchItem
        requires second { second ≤ LATEST }
        requires level { level_in self.now.techs.n item.kind.kind < level_cap_of item.kind.kind }
        requires lab { lab ≤ level_cap_of Lab }
        requires speed_from { 1 ≤ speed }
        requires speed_to { speed ≤ TOP_SPEED }
        ensures item { (planet : PlanetFields) → lab ≡ level_of planet Lab
            → research_item self.now.player result ≡ started_research speed second (account_fields self.now) planet (research_item self.now.player item) }
        ensures kind { result.kind ≡ item.kind }
    {
        ResearchItem {
            number: item.number,
            kind: item.kind,
            at: item.at,
            level: self.techs.level(item.kind) + 1,
            second: second + self.next_seconds(item.kind, lab, speed),
        }
    }
}
