ghost use Rattle.std.specs.Prelude.{◌≡◌, ◌≤◌, ◌<◌, ◌+◌, [], IfOk, OnErr, ℕ, List};
ghost use Rattle.base_bytes.specs.Base.{universe_of};
ghost use Rattle.base_bytes.specs.Sound.{IsSound};
ghost use Rattle.base_ids.specs.declared.numbers.TheConstants.{LAST_NUMBER};
ghost use Rattle.base_ids.specs.declared.player.Player.{Player};
ghost use Rattle.ports.specs.declared.clock.TheConstants.{LATEST};
ghost use Rattle.request_text.specs.declared.entry.Entry.{Entry};
ghost use Rattle.request_text.specs.declared.request.Request.{Request};
ghost use Rattle.tick_model.specs.Dump.{dump_text};
ghost use Rattle.tick_model.specs.Universe.{Universe};

use crate::beginning::{cells_of, places_of};
use crate::dumping::text_of;
use crate::planning::work_out;
use base_bytes::Base;
use base_ids::Player;
use base_text::Bytes;
use closure::{Ids, Needed, Places, asked, needed};
use happenings::Held;
use reply_text::Reply;
use request_text::Request;
use std::alloc::{AllocError, Global};
use tick_model::Rules;

/// A universe in memory, each of whose cells stands at the second at which a request last needed it.
///
/// The moment, at most 2^40 − 1, and the number are those of the last request.
#[derive(Drop)]
pub struct LazyUniverse {
    pub rules: Rules,
    pub places: Places,
    pub cells: Held,
    pub moment: u64,
    pub number: u64,
    pub ghost in_time: { moment ≤ LATEST },
}

/// A request that was worked out beside a universe, which it hasn't changed yet.
#[derive(Drop)]
pub struct Prepared {
    pub cells: Held,
    pub moment: u64,
    pub reply: Reply,
    pub ghost in_time: { moment ≤ LATEST },
}

impl LazyUniverse {
    ghost use Rattle.lazy.specs.Keeping.{Asks, IsPrepared, Keeps, KeepsSome};
    ghost use Rattle.happenings.specs.Sights.{sees_held};
    ghost use Rattle.lazy.specs.Touching.{AreTouched, AskedBy};

    /// The universe of a base, with no request yet. It fails only if memory runs out.
    pub fn new(alloc: Global, base: &Base) -> Result<LazyUniverse, AllocError>
        requires { IsSound base.now }
        ensures { IfOk result (λ lazy. Keeps (universe_of base.now) [] lazy) }
    {
        Ok(LazyUniverse {
            rules: Rules {
                seed: base.seed,
                speed: base.speed,
            },
            places: places_of(alloc, base)?,
            cells: cells_of(alloc, base)?,
            moment: base.moment,
            number: base.number,
        })
    }

    /// Works out a request at a reading of at most 2^40 − 1, beside the universe, which stays as it is. It fails only if memory
    /// runs out.
    pub fn prepare(
        &self,
        alloc: Global,
        player: Player,
        req: &Request,
        reading: u64,
    ) -> Result<Prepared, AllocError>
        requires keeps { KeepsSome self.now }
        requires number { self.now.number < LAST_NUMBER }
        requires reading { reading ≤ LATEST }
        ensures { IfOk result (IsPrepared self.now player req.now reading) }
    {
        let moment = reading.max(self.moment);
        let cells = self.touched(alloc, player, req, moment)?;
        let plan = work_out(alloc, &self.rules, &self.places, cells, player, req, moment)?;
        let (cells, reply) = plan.finish(self.number + 1);
        Ok(Prepared {
            cells,
            moment,
            reply,
        })
    }

    // Copies of the cells that a request touches at a moment. It fails only if memory runs out.
    fn touched(
        &self,
        alloc: Global,
        player: Player,
        req: &Request,
        moment: u64,
    ) -> Result<Held, AllocError>
        requires { KeepsSome self.now }
        ensures { IfOk result (AreTouched self.now player req.now moment) }
    {
        let wanted = self.wanted(alloc, player, req)?;
        let Needed::Closed(ids) = needed(alloc, &self.cells, &wanted, moment)? else {
            unreachable!()
        };
        self.cells.pick(alloc, ids.as_slice())
    }

    // The cells that a request asks for. A player whose account isn't held is none, and asks for nothing.
    fn wanted(&self, alloc: Global, player: Player, req: &Request) -> Result<Ids, AllocError>
        requires { KeepsSome self.now }
        ensures { IfOk result (AskedBy (sees_held self.now.cells) self.now.places player req.now) }
    {
        let found = asked(alloc, &self.places, &self.cells, player, req)?;
        match found {
            Needed::Closed(ids) => Ok(ids),
            Needed::Missing(_) => Ok(Ids::new(alloc)),
        }
    }

    /// The request acts that was worked out. It takes no memory.
    pub fn keep(&mut self, prepared: Prepared) -> Reply
        requires { (player : Player) × (req : Request) × (reading : ℕ) × IsPrepared self.old player req reading prepared }
        ensures asks { (player : Player) (req : Request) (reading : ℕ) → IsPrepared self.old player req reading prepared
            → Asks self.old self.new player req reading result }
        ensures reply { result ≡ prepared.reply }
        ensures number { self.new.number ≡ self.old.number + 1 }
    {
        self.cells.put_all(prepared.cells);
        self.moment = prepared.moment;
        self.number = prepared.reply.number;
        prepared.reply
    }

    /// Asks the universe. It fails only if memory runs out, and the universe then stays as it was.
    pub fn ask(
        &mut self,
        alloc: Global,
        player: Player,
        req: &Request,
        reading: u64,
    ) -> Result<Reply, AllocError>
        requires keeps { KeepsSome self.old }
        requires number { self.old.number < LAST_NUMBER }
        requires reading { reading ≤ LATEST }
        ensures ok { IfOk result (λ reply. Asks self.old self.new player req.now reading reply) }
        ensures err { OnErr result (self.new ≡ self.old) }
    {
        let prepared = self.prepare(alloc, player, req, reading)?;
        Ok(self.keep(prepared))
    }

    /// The text of the whole universe: each cell as it was at its last touch. It fails only if memory runs out.
    pub fn dump(&self, alloc: Global) -> Result<Bytes, AllocError>
        ensures { IfOk result (λ text. (base : Universe) (history : List Entry) → Keeps base history self.now → text ≡ dump_text base history) }
    {
        text_of(alloc, &self.rules, &self.places, &self.cells)
    }
}
