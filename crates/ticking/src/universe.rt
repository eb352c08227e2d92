ghost use Rattle.std.specs.Prelude.{◌≡◌, ◌+◌, ◌<◌, ◌≤◌, [], IfOk, OnErr, OnOk, List};
ghost use Rattle.base_bytes.specs.Base.{universe_of};
ghost use Rattle.base_bytes.specs.Sound.{IsSound};
ghost use Rattle.base_ids.specs.declared.numbers.TheConstants.{LAST_NUMBER};
ghost use Rattle.ports.specs.declared.clock.TheConstants.{LATEST};
ghost use Rattle.request_text.specs.declared.entry.Entry.{Entry};
ghost use Rattle.tick_model.specs.Universe.{Universe};

use crate::passing::pass;
use base_bytes::Base;
use base_ids::Player;
use base_text::Bytes;
use closure::Places;
use happenings::Held;
use lazy::{LazyUniverse, prepare, text_of};
use reply_text::Reply;
use request_text::Request;
use std::alloc::{AllocError, Global};
use tick_model::Rules;

/// A universe in memory, all of whose cells stand at its moment, which is at most 2^40 − 1. The number is that of the last request.
#[derive(Drop)]
pub struct TickingUniverse {
    pub rules: Rules,
    pub places: Places,
    pub cells: Held,
    pub moment: u64,
    pub number: u64,
    pub ghost in_time: { moment ≤ LATEST },
}

impl TickingUniverse {
    ghost use Rattle.ticking.specs.Asking.{Asks, CanAsk, StandsFor, StandsForSome, TicksTo, moment_text};

    /// The universe of a base, with no request yet. It fails only if memory runs out.
    pub fn new(alloc: Global, base: &Base) -> Result<TickingUniverse, AllocError>
        requires { IsSound base.now }
        ensures stands { IfOk result (λ ticking. StandsFor (universe_of base.now) [] ticking) }
        ensures moment { IfOk result (λ ticking. ticking.moment ≡ base.now.moment) }
    {
        let first = LazyUniverse::new(alloc, base)?;
        Ok(TickingUniverse {
            rules: first.rules,
            places: first.places,
            cells: first.cells,
            moment: base.moment,
            number: base.number,
        })
    }

    /// Lets the universe tick, second by second, to a moment of at most 2^40 − 1. It fails only if memory runs out, and the universe
    /// then stays as it was.
    pub fn tick_to(&mut self, alloc: Global, moment: u64) -> Result<(), AllocError>
        requires stands { StandsForSome self.old }
        requires later { self.old.moment ≤ moment }
        requires in_time { moment ≤ LATEST }
        ensures ok { OnOk result (TicksTo self.old self.new moment) }
        ensures err { OnErr result (self.new ≡ self.old) }
    {
        self.cells = pass(alloc, &self.rules, &self.cells, self.moment, moment)?;
        self.moment = moment;
        Ok(())
    }

    /// Asks the universe at a reading of at most 2^40 − 1: it ticks to the request's moment, and there the request acts. The universe
    /// may not stand later than that. It fails only if memory runs out, and the universe then stays as it was.
    pub fn ask(
        &mut self,
        alloc: Global,
        player: Player,
        req: &Request,
        reading: u64,
    ) -> Result<Reply, AllocError>
        requires can { CanAsk self.old reading }
        requires number { self.old.number < LAST_NUMBER }
        requires reading { reading ≤ LATEST }
        ensures ok { IfOk result (λ reply. Asks self.old self.new player req.now reading reply) }
        ensures err { OnErr result (self.new ≡ self.old) }
    {
        let moment = reading.max(self.moment);
        let cells = pass(alloc, &self.rules, &self.cells, self.moment, moment)?;
        let plan = prepare(
            alloc,
            &self.rules,
            &self.places,
            &cells,
            player,
            req,
            moment,
        )?;
        let (cells, reply) = plan.finish(self.number + 1);
        self.cells = cells;
        self.moment = moment;
        self.number += 1;
        Ok(reply)
    }

    /// The text of the whole universe, as a dump shows it: each cell as it is at the universe's moment. It fails only if memory runs
    /// out.
    pub fn dump(&self, alloc: Global) -> Result<Bytes, AllocError>
        ensures { IfOk result (λ text. (base : Universe) (history : List Entry) → StandsFor base history self.now → text ≡ moment_text base history self.now.moment) }
    {
        text_of(alloc, &self.rules, &self.places, &self.cells)
    }
}
