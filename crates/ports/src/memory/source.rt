// A source over bytes in memory, some of whose calls fail.
ghost use Rattle.std.specs.Prelude.{◌≡◌, ◌+◌, ◌-◌, ◌^◌, ◌↔◌, ◌++◌, min, length, take, drop, Contains, IsErr, IfOk, OnErr, Some};
ghost use Rattle.std.specs.Io.{ReadsAtMost};
ghost use Rattle.std.specs.Io.KnownBytes.{ReadConsumes};
ghost use Rattle.ports.specs.Causes.{HasCause};
ghost use Rattle.ports.specs.Counts.{next_count, faults_after, piece_of};

use super::is_listed;
use crate::failed::Failed;
use crate::source::Source;

/// A source over bytes in memory, for tests. It fails at the calls that it is told to fail at, and
/// gives at most so many bytes a call.
#[derive(Drop)]
pub struct MemorySource<'a> {
    /// The bytes that are left to read.
    pub rest: &'a [u8],
    /// The numbers of the calls that fail, counted from 1.
    pub failing: &'a [u64],
    /// The most bytes that a call gives; 0 stands for 1.
    pub most: usize,
    /// How many calls were made, up to 2^64 - 1.
    pub calls: u64,
    /// How many calls have failed, up to 2^64 - 1.
    pub faults: u64,
}

impl<'a> MemorySource<'a> {
    /// Makes a source of these bytes that fails at the calls with these numbers, counted from 1.
    pub fn new(bytes: &'a [u8], failing: &'a [u64]) -> Self
        ensures rest { result.rest.now ≡ bytes.now }
        ensures failing { result.failing.now ≡ failing.now }
        ensures whole { result.most ≡ 2 ^ 64 - 1 }
        ensures fresh { result.calls ≡ 0 }
        ensures unfailed { result.faults ≡ 0 }
    {
        MemorySource {
            rest: bytes,
            failing,
            most: usize::MAX,
            calls: 0,
            faults: 0,
        }
    }

    /// The same source, giving at most so many bytes a call; 0 stands for 1.
    pub fn in_pieces(self, most: usize) -> Self
        ensures { result ≡ record self.entry { most = most } }
    {
        MemorySource { most, ..self }
    }
}

impl Source for MemorySource<'_> {
    ghost left = { λ s. Some s.rest.now };

    ghost faults = { λ s. s.faults };

    fn read(&mut self, into: &mut [u8]) -> Result<usize, Failed>
        ensures bound { ReadsAtMost result into.new }
        ensures bytes { ReadConsumes (Some self.old.rest.now) (Some self.new.rest.now) result into.new }
        ensures cause { HasCause self.old.faults self.new.faults result }

        // It fails at the listed calls, and at no other.
        ensures fails { IsErr result ↔ Contains self.old.failing.now (next_count self.old.calls) }
        ensures calls { self.new.calls ≡ next_count self.old.calls }
        ensures faults { self.new.faults ≡ faults_after self.old.faults result }

        // It gives as many bytes as it can, and changes nothing else.
        ensures count { IfOk result (λ n. n ≡ piece_of (min (length self.old.rest.now) (length into.old)) self.old.most) }
        ensures given { IfOk result (λ n. into.new ≡ take n self.old.rest.now ++ drop n into.old) }
        ensures rest { IfOk result (λ n. self.new.rest.now ≡ drop n self.old.rest.now) }
        ensures unread { OnErr result (self.new.rest.now ≡ self.old.rest.now) }
        ensures untouched { OnErr result (into.new ≡ into.old) }
        ensures failing { self.new.failing.now ≡ self.old.failing.now }
        ensures most { self.new.most ≡ self.old.most }
    {
        self.calls = self.calls.saturating_add(1);
        if is_listed(self.failing, self.calls) {
            self.faults = self.faults.saturating_add(1);
            return Err(Failed);
        }
        let count = self.rest.len().min(into.len()).min(self.most.max(1));
        let (given, rest) = self.rest.split_at(count);
        into[..count].copy_from_slice(given);
        self.rest = rest;
        Ok(count)
    }
}
