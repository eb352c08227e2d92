use crate::account::Account;
use crate::places::place_of;
use crate::research_item::ResearchItem;

impl Account {
    ghost use Rattle.std.specs.Prelude.{◌≡◌, ◌<◌, ◌≤◌, ◌∷◌, IfSome, drop, slice_get, vec_len};
    ghost use Rattle.account_cell.specs.Account.{KeepsHoldings, account_fields, research_of};
    ghost use Rattle.account_cell.specs.Queue.{first_started};
    ghost use Rattle.catalog.specs.Levels.{level_cap_of};
    ghost use Rattle.catalog.specs.Technologies.{level_in};
    ghost use Rattle.catalog.specs.declared.kind.Kind.TheVariants.{Lab};
    ghost use Rattle.catalog.specs.declared.settings.TheConstants.{TOP_SPEED};
    ghost use Rattle.ports.specs.declared.clock.TheConstants.{LATEST};
    ghost use Rattle.tick_model.specs.Production.{level_of};
    ghost use Rattle.tick_model.specs.Researches.{learned};
    ghost use Rattle.tick_model.specs.Universe.{PlanetFields};

    /// The first item of the queue: the technology that runs, or, once that one is done, the first that waits. It is below its
    /// highest level.
    #[tactic(auto, using(crate::proofs::Queues::first_below))]
    pub fn first_research(&self) -> Option<ResearchItem>
        ensures first { result ≡ slice_get self.now.research.items 0 }
        ensures rises { IfSome result (λ item. level_in self.now.techs.n item.kind.kind < level_cap_of item.kind.kind) }
    {
        self.research.first().copied()
    }

    /// The technology that runs is done: its level rises, and its item, which is given back, leaves the queue. The next item, if
    /// there is one, waits.
    #[tactic(auto, unfolding(tick_model::specs::Researches::learned))]
    pub fn finish_research(&mut self) -> ResearchItem
        requires { 0 < vec_len self.old.research }
        ensures item { self.old.research.items ≡ result ∷ self.new.research.items }
        ensures fields { account_fields self.new ≡ learned (account_fields self.old) result.kind.kind }
        ensures keeps { KeepsHoldings self.old self.new }
    {
        let done = self.research.remove(0);
        self.techs.n[place_of(done.kind)] += 1;
        done
    }

    /// The first item of the queue is dropped.
    pub fn drop_research(&mut self)
        requires { 0 < vec_len self.old.research }
        ensures items { self.new.research.items ≡ drop 1 self.old.research.items }
        ensures fields { account_fields self.new ≡ account_fields self.old }
        ensures keeps { KeepsHoldings self.old self.new }
    {
        self.research.remove(0);
    }

    /// The first item of the queue, which waits, starts at a second, in a lab of this level, 0 to 14. The planet pays elsewhere.
    ///
    /// The speed is 1 to `catalog::TOP_SPEED`.
    pub fn start_research(&mut self, second: u64, lab: u8, speed: u32)
        requires some { 0 < vec_len self.old.research }
        requires second { second ≤ LATEST }
        requires lab { lab ≤ level_cap_of Lab }
        requires speed_from { 1 ≤ speed }
        requires speed_to { speed ≤ TOP_SPEED }
        ensures research { (planet : PlanetFields) → lab ≡ level_of planet Lab
            → research_of self.new ≡ first_started speed second (account_fields self.old) planet (research_of self.old) }
        ensures fields { account_fields self.new ≡ account_fields self.old }
        ensures keeps { KeepsHoldings self.old self.new }
    {
        let item = self.research[0];
        self.research[0] = self.started(item, second, lab, speed);
    }
}
