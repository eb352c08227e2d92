// The journal: the numbers of entries, and those that are not durable yet.
ghost use Rattle.std.specs.Prelude.{vec_capacity};
ghost use Rattle.journal_store.specs.Fitting.{Fits};

use crate::batch::ROOM;
use crate::drawing::{Draw, Prepared};
use crate::gate::Gate;
use crate::start::Start;
use base_ids::LAST_NUMBER;
use request_text::Entry;
use std::alloc::{AllocError, Global};
use std::collections::VecDeque;

/// The journal numbers entries, keeps those that are not durable yet, and knows how their disk stands.
#[derive(Drop)]
pub struct Journal {
    // those of the last entry
    pub(crate) last_number: u64,
    pub(crate) last_moment: u64,
    // how many entries there may be since the base, and how many of them are durable
    pub(crate) capacity: u32,
    pub(crate) durable: u64,
    // the entries that are not durable yet, in order
    pub(crate) pending: VecDeque<Entry>,
    // what stands on the disk where the durable batches end, and where that is
    pub(crate) gate: Gate,
    pub(crate) end: u64,
    // room for the bytes of one batch
    pub(crate) bytes: Vec<u8>,
    ghost fits: { Fits last_number last_moment capacity durable pending.items gate end (vec_capacity bytes) },
}

impl Journal {
    ghost use Rattle.std.specs.Prelude.{◌≡◌, ◌<◌, ◌≤◌, ◌-◌, ◌++◌, ◌∷◌, [], List, IfOk, OnOk, OnErr};
    ghost use Rattle.journal_store.specs.Ledger.{Appends, CanStart, IsNew, IsPrepared, Draws, IfTaken, Keeps, SameEntries, SamePlace, count_of, numbered, spare};
    ghost use Rattle.journal_store.specs.declared.start.Start.{Start};
    ghost use Rattle.records.specs.Ranges.{IsInRange};
    ghost use Rattle.request_text.specs.declared.entry.Entry.{Entry};
    ghost use Rattle.tick_model.specs.History.{MayFollow};

    /// A journal that goes on from what was found, with room for the bytes of one batch.
    pub fn new(alloc: Global, start: Start) -> Result<Journal, AllocError>
        requires { CanStart start }
        ensures { IfOk result (λ journal. IsNew start journal) }
    {
        let bytes = Vec::with_capacity(alloc, ROOM)?;
        let gate = if start.short {
            Gate::Missing
        } else {
            Gate::Closed
        };
        Ok(Journal {
            last_number: start.last_number,
            last_moment: start.last_moment,
            capacity: start.capacity,
            durable: start.count,
            pending: VecDeque::new(alloc),
            gate,
            end: start.end,
            bytes,
        })
    }

    /// The moment of the last entry.
    pub fn last_moment(&self) -> u64
        ensures { result ≡ self.now.last_moment }
    {
        self.last_moment
    }

    /// How many entries since the base are durable.
    pub fn durable(&self) -> u64
        ensures { result ≡ self.now.durable }
    {
        self.durable
    }

    /// How many entries may be drawn before there must be more room.
    pub fn spare(&self) -> usize
        ensures { result ≡ spare self.now }
    {
        self.pending.capacity() - self.pending.len()
    }

    /// Makes room for one entry more. If it is out of memory, nothing changes.
    pub fn reserve(&mut self) -> Result<(), AllocError>
        ensures room { OnOk result (1 ≤ spare self.new) }
        ensures place { SamePlace self.old self.new }
        ensures entries { SameEntries self.old self.new }
        ensures keeps { (start : Start) (drawn : List Entry) → Keeps start drawn self.old → Keeps start drawn self.new }
    {
        self.pending.reserve(1)
    }

    /// Gives a request the next number and appends its entry, if there may be one more and the last one doesn't act later. It
    /// takes no memory.
    #[tactic(auto, using(crate::proofs::Appending::keeps_more))]
    pub fn draw(&mut self, prepared: Prepared) -> Draw
        requires room { 1 ≤ spare self.old }
        requires prepared { IsPrepared prepared self.old.last_moment }
        ensures draws { Draws self.old prepared self.new result }
        ensures follows { IfTaken result (λ number. MayFollow self.old.last_number self.old.last_moment (numbered prepared number)) }
        ensures keeps { IfTaken result (λ number. (start : Start) (drawn : List Entry) → Keeps start drawn self.old
            → Keeps start (drawn ++ numbered prepared number ∷ []) self.new) }
    {
        let count = self.durable + self.pending.len() as u64;
        if count == u64::from(self.capacity) || self.last_number == LAST_NUMBER {
            return Draw::Full { count };
        }
        if self.last_moment > prepared.moment {
            return Draw::Late {
                last: self.last_moment,
            };
        }
        let number = self.last_number + 1;
        self.append(Entry {
            number,
            moment: prepared.moment,
            reading: prepared.reading,
            player: prepared.player,
            req: prepared.req,
        });
        Draw::Taken { number }
    }

    // Appends an entry for which there is room.
    #[tactic(auto, using(crate::proofs::Appending::fits_more))]
    fn append(&mut self, entry: Entry)
        requires room { 1 ≤ spare self.old }
        requires count { count_of self.old < self.old.capacity }
        requires spelled { IsInRange entry }
        ensures { Appends self.old entry self.new }
    {
        self.last_number = entry.number;
        self.last_moment = entry.moment;
        let _ = self.pending.push_back(entry);
    }
}
