// The buffer of a line reader: the bytes from `start` to `end`, and room after them.
ghost use Rattle.std.specs.Prelude.{◌≡◌, ℕ, ◌+◌, ◌<◌, ◌≤◌, List, [], ◌++◌, ◌-◌, length, take, drop, vec_len, slice_range, IfOk, MatchResult};
ghost use Rattle.std.specs.Io.KnownBytes.{Consumes, Keeps, IsAtEnd};
ghost use Rattle.ports.specs.Causes.{HasCause};

use ports::{Failed, Source};
use std::alloc::{AllocError, Global};

pub(crate) const SIZE: usize = 65536;

#[derive(Drop)]
pub(crate) struct Window {
    bytes: Vec<u8>,
    start: usize,
    end: usize,
    ghost ordered: { start ≤ end },
    ghost within: { end ≤ 65536 },
    ghost sized: { vec_len bytes ≡ 65536 },
}

impl Window {
    ghost use Rattle.request_text.specs.Windows.{items};

    pub(crate) fn new(alloc: Global) -> Result<Window, AllocError>
        ensures { IfOk result (λ window. items window ≡ []) }
    {
        let bytes = vec![in alloc; 0; SIZE]?;
        Ok(Window {
            bytes,
            start: 0,
            end: 0,
        })
    }

    pub(crate) fn as_slice(&self) -> &[u8]
        ensures value { result.now ≡ items self.now }
        ensures fits { length result.now ≤ 65536 }
    {
        &self.bytes[self.start..self.end]
    }

    pub(crate) fn pass(&mut self, count: usize)
        requires { count ≤ length (items self.old) }
        ensures { items self.new ≡ drop count (items self.old) }
    {
        self.start += count;
    }

    // Moves its bytes to the front, and reads at most `most` bytes behind them.
    pub(crate) fn read<S: Source>(&mut self, src: &mut S, most: usize) -> Result<usize, Failed>
        requires room { length (items self.old) < 65536 }
        requires some { 0 < most }
        ensures bytes { MatchResult result
            (λ n. (got : List ℕ) × (length got ≡ n) × (items self.new ≡ items self.old ++ got)
            × Consumes (S.left src.old) (S.left src.new) got)
            (λ _. (items self.new ≡ items self.old) × Keeps (S.left src.old) (S.left src.new)) }
        ensures most { IfOk result (λ n. n ≤ most) }
        ensures end { IfOk result (λ n. n ≡ 0 → IsAtEnd (S.left src.new)) }
        ensures cause { HasCause (S.faults src.old) (S.faults src.new) result }
    {
        let got = read_behind(src, &mut self.bytes, self.start, self.end, most);
        self.end -= self.start;
        self.start = 0;
        if let Ok(count) = got {
            self.end += count;
        }
        got
    }
}

fn move_to_front(bytes: &mut [u8], start: usize, end: usize)
    requires ordered { start ≤ end }
    requires within { end ≤ length bytes.old }
    ensures { take (end - start) bytes.new ≡ slice_range bytes.old start end }
{
    if start > 0 {
        bytes.copy_within(start..end, 0);
    }
}

// Moves the bytes from `start` to `end` to the front, and reads at most `most` bytes behind them.
fn read_behind<S: Source>(
    src: &mut S,
    bytes: &mut [u8],
    start: usize,
    end: usize,
    most: usize,
) -> Result<usize, Failed>
    requires ordered { start ≤ end }
    requires within { end ≤ length bytes.old }
    requires room { end - start < length bytes.old }
    requires some { 0 < most }
    ensures bytes { MatchResult result
        (λ n. (got : List ℕ) × (length got ≡ n) × (take (end - start + n) bytes.new ≡ slice_range bytes.old start end ++ got)
        × Consumes (S.left src.old) (S.left src.new) got)
        (λ _. (take (end - start) bytes.new ≡ slice_range bytes.old start end) × Keeps (S.left src.old) (S.left src.new)) }
    ensures bound { IfOk result (λ n. (n ≤ most) × (end - start + n ≤ length bytes.new)) }
    ensures end { IfOk result (λ n. n ≡ 0 → IsAtEnd (S.left src.new)) }
    ensures cause { HasCause (S.faults src.old) (S.faults src.new) result }
{
    move_to_front(bytes, start, end);
    let at = end - start;
    let room = (bytes.len() - at).min(most);
    src.read(&mut bytes[at..at + room])
}
