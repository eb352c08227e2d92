// A sink that keeps its bytes in memory, some of whose calls fail.
ghost use Rattle.std.specs.Prelude.{◌≡◌, ◌+◌, ◌-◌, ◌^◌, ◌<◌, ◌⊎◌, ◌++◌, [], length, take, vec_len, vec_capacity, Contains, IsErr, IfOk, OnErr, Some};
ghost use Rattle.std.specs.Io.{WritesAtMost};
ghost use Rattle.std.specs.Io.KnownBytes.{WriteAppends};
ghost use Rattle.ports.specs.Causes.{HasCause};
ghost use Rattle.ports.specs.Counts.{next_count, faults_after, piece_of};

use super::is_listed;
use crate::failed::Failed;
use crate::sink::Sink;
use std::alloc::Global;

/// A sink that keeps its bytes in memory, for tests. It fails at the calls that it is told to fail
/// at and where memory is refused, and takes at most so many bytes a call.
#[derive(Drop)]
pub struct MemorySink<'a> {
    /// The bytes that were written.
    pub bytes: Vec<u8>,
    /// The numbers of the calls that fail, counted from 1.
    pub failing: &'a [u64],
    /// The most bytes that a call takes; 0 stands for 1.
    pub most: usize,
    /// How many calls were made, up to 2^64 - 1.
    pub calls: u64,
    /// How many calls have failed, up to 2^64 - 1.
    pub faults: u64,
}

impl<'a> MemorySink<'a> {
    /// Makes an empty sink that fails at the calls with these numbers, counted from 1. It takes
    /// memory of `alloc` as it is written to.
    pub fn new(alloc: Global, failing: &'a [u64]) -> Self
        ensures bytes { result.bytes.items ≡ [] }
        ensures failing { result.failing.now ≡ failing.now }
        ensures whole { result.most ≡ 2 ^ 64 - 1 }
        ensures fresh { result.calls ≡ 0 }
        ensures unfailed { result.faults ≡ 0 }
    {
        MemorySink {
            bytes: Vec::new(alloc),
            failing,
            most: usize::MAX,
            calls: 0,
            faults: 0,
        }
    }

    /// The same sink, taking at most so many bytes a call; 0 stands for 1.
    pub fn in_pieces(self, most: usize) -> Self
        ensures { result ≡ record self.entry { most = most } }
    {
        MemorySink { most, ..self }
    }

    /// The bytes that were written.
    pub fn written(&self) -> &[u8]
        ensures { result.now ≡ self.now.bytes.items }
    {
        self.bytes.as_slice()
    }
}

impl Sink for MemorySink<'_> {
    ghost written = { λ s. Some s.bytes.items };

    ghost faults = { λ s. s.faults };

    fn write(&mut self, from: &[u8]) -> Result<usize, Failed>
        ensures bound { WritesAtMost result from.now }
        ensures some { IfOk result (λ n. 0 < length from.now → 0 < n) }
        ensures bytes { WriteAppends (Some self.old.bytes.items) (Some self.new.bytes.items) result from.now }
        ensures cause { HasCause self.old.faults self.new.faults result }

        // It fails at the listed calls, and else only if the bytes need more memory.
        ensures fails { Contains self.old.failing.now (next_count self.old.calls) → IsErr result }
        ensures refused { OnErr result (Contains self.old.failing.now (next_count self.old.calls)
            ⊎ (vec_capacity self.old.bytes < vec_len self.old.bytes + piece_of (length from.now) self.old.most)) }
        ensures calls { self.new.calls ≡ next_count self.old.calls }
        ensures faults { self.new.faults ≡ faults_after self.old.faults result }

        // It takes as many bytes as it can, and changes nothing else.
        ensures count { IfOk result (λ n. n ≡ piece_of (length from.now) self.old.most) }
        ensures failing { self.new.failing.now ≡ self.old.failing.now }
        ensures most { self.new.most ≡ self.old.most }
    {
        self.calls = self.calls.saturating_add(1);
        let count = from.len().min(self.most.max(1));
        if is_listed(self.failing, self.calls)
            || self.bytes.extend_from_slice(&from[..count]).is_err()
        {
            self.faults = self.faults.saturating_add(1);
            return Err(Failed);
        }
        Ok(count)
    }
}
