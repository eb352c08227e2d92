use crate::account::Account;
use crate::research_item::ResearchItem;
use base_ids::Coord;
use catalog::Technology;
use std::alloc::AllocError;
use tick_model::Placed;

impl Account {
    ghost use Rattle.std.specs.Prelude.{◌≡◌, ◌+◌, ◌<◌, ◌≤◌, ◌++◌, ◌∷◌, [], IfOk, OnErr, OnOk, vec_len};
    ghost use Rattle.account_cell.specs.Account.{AreSame, KeepsHoldings, account_fields, research_item, research_of};
    ghost use Rattle.account_cell.specs.Queue.{CanOrder, new_research, numbered, research_ordered, research_placed};
    ghost use Rattle.catalog.specs.Levels.{level_cap_of};
    ghost use Rattle.catalog.specs.Technologies.{level_in};
    ghost use Rattle.catalog.specs.declared.kind.Kind.TheVariants.{Lab};
    ghost use Rattle.catalog.specs.declared.settings.TheConstants.{TOP_SPEED};
    ghost use Rattle.ports.specs.declared.clock.TheConstants.{LATEST};
    ghost use Rattle.tick_model.specs.Production.{level_of};
    ghost use Rattle.tick_model.specs.Universe.{PlanetFields};

    /// Orders the next level of a technology at a moment, in the lab of the planet at a place, which has this level, 0 to 14: in
    /// an empty queue it starts at once, else it waits. The number of its item is 0. The planet pays elsewhere.
    ///
    /// The speed is 1 to `catalog::TOP_SPEED`. It fails only if memory runs out, and the account then stays as it was.
    #[tactic(auto, using(crate::proofs::Queues::caps_ordered, crate::proofs::Counts::queued_items))]
    pub fn order_research(
        &mut self,
        at: Coord,
        technology: Technology,
        moment: u64,
        lab: u8,
        speed: u32,
    ) -> Result<Placed, AllocError>
        requires order { CanOrder (account_fields self.old) (research_of self.old) technology.kind }
        requires moment { moment ≤ LATEST }
        requires lab { lab ≤ level_cap_of Lab }
        requires speed_from { 1 ≤ speed }
        requires speed_to { speed ≤ TOP_SPEED }
        ensures ok { IfOk result (λ order. (planet : PlanetFields) → lab ≡ level_of planet Lab
            → order ≡ research_placed speed moment (account_fields self.old) planet (research_of self.old) technology.kind) }
        ensures research { OnOk result ((planet : PlanetFields) → lab ≡ level_of planet Lab
            → research_of self.new ≡ research_ordered speed moment (account_fields self.old) planet (research_of self.old) (new_research self.old.player at technology.kind)) }
        ensures fields { account_fields self.new ≡ account_fields self.old }
        ensures keeps { KeepsHoldings self.old self.new }
        ensures err { OnErr result (AreSame self.old self.new) }
    {
        let item = ResearchItem {
            number: 0,
            kind: technology,
            at,
            level: 0,
            second: 0,
        };
        if self.research.is_empty() {
            return self.start_order(item, moment, lab, speed);
        }
        self.research.push(item)?;
        Ok(Placed::Waits {
            place: self.research.len(),
        })
    }

    /// An order in an empty queue starts at a moment, in a lab of this level.
    #[tactic(auto, using(crate::proofs::Queues::caps_ordered))]
    fn start_order(
        &mut self,
        item: ResearchItem,
        moment: u64,
        lab: u8,
        speed: u32,
    ) -> Result<Placed, AllocError>
        requires empty { self.old.research.items ≡ [] }
        requires level { level_in self.old.techs.n item.kind.kind < level_cap_of item.kind.kind }
        requires moment { moment ≤ LATEST }
        requires lab { lab ≤ level_cap_of Lab }
        requires speed_from { 1 ≤ speed }
        requires speed_to { speed ≤ TOP_SPEED }
        ensures ok { IfOk result (λ order. (planet : PlanetFields) → lab ≡ level_of planet Lab
            → order ≡ research_placed speed moment (account_fields self.old) planet [] item.kind.kind) }
        ensures research { OnOk result ((planet : PlanetFields) → lab ≡ level_of planet Lab
            → research_of self.new ≡ research_ordered speed moment (account_fields self.old) planet [] (research_item self.old.player item)) }
        ensures fields { account_fields self.new ≡ account_fields self.old }
        ensures keeps { KeepsHoldings self.old self.new }
        ensures err { OnErr result (AreSame self.old self.new) }
    {
        let running = self.started(item, moment, lab, speed);
        self.research.push(running)?;
        Ok(Placed::Starts {
            amount: u64::from(running.level),
            second: running.second,
        })
    }

    /// The last item of the queue has this number.
    pub fn number_last_research(&mut self, number: u64)
        requires { 0 < vec_len self.old.research }
        ensures fields { account_fields self.new ≡ account_fields self.old }
        ensures research { research_of self.new ≡ numbered number (research_of self.old) }
        ensures keeps { KeepsHoldings self.old self.new }
    {
        let last = self.research.len() - 1;
        let item = self.research[last];
        self.research[last] = ResearchItem {
            number,
            kind: item.kind,
            at: item.at,
            level: item.level,
            second: item.second,
        };
    }
}
