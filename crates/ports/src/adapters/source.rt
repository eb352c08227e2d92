// A source over a reader of std.
ghost use Rattle.std.specs.Prelude.{◌≡◌};
ghost use Rattle.std.specs.Io.{ReadsAtMost};
ghost use Rattle.std.specs.Io.KnownBytes.{ReadConsumes};
ghost use Rattle.ports.specs.Causes.{HasCause};
ghost use Rattle.ports.specs.Counts.{faults_after};

use super::count_moved;
use crate::failed::Failed;
use crate::source::Source;
use std::io::Read;

/// A source over a reader of std. It has as many bytes left as the reader has, if that is
/// known; of standard input, a file or a socket nothing is known.
#[derive(Drop)]
pub struct ReadSource<R> {
    reader: R,
    faults: u64,
}

impl<R: Read> ReadSource<R> {
    /// Makes a source that reads this reader.
    pub fn new(reader: R) -> Self
        ensures left { ⟦<ReadSource<R> as Source>⟧.left result ≡ R.remaining reader }
        ensures faults { ⟦<ReadSource<R> as Source>⟧.faults result ≡ 0 }
    {
        ReadSource { reader, faults: 0 }
    }

    /// How many calls have failed, up to 2^64 - 1.
    pub fn fault_count(&self) -> u64
        ensures { result ≡ ⟦<ReadSource<R> as Source>⟧.faults self.now }
    {
        self.faults
    }
}

impl<R: Read> Source for ReadSource<R> {
    ghost left = { λ s. R.remaining s.reader };

    ghost faults = { λ s. s.faults };

    fn read(&mut self, into: &mut [u8]) -> Result<usize, Failed>
        ensures bound { ReadsAtMost result into.new }
        ensures bytes { ReadConsumes (⟦<ReadSource<R> as Source>⟧.left self.old)
            (⟦<ReadSource<R> as Source>⟧.left self.new) result into.new }
        ensures cause { HasCause (⟦<ReadSource<R> as Source>⟧.faults self.old)
            (⟦<ReadSource<R> as Source>⟧.faults self.new) result }
        ensures faults { ⟦<ReadSource<R> as Source>⟧.faults self.new
            ≡ faults_after (⟦<ReadSource<R> as Source>⟧.faults self.old) result }
    {
        count_moved(self.reader.read(into), 0, &mut self.faults)
    }
}
