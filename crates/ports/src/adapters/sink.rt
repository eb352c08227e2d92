// A sink over a writer of std.
ghost use Rattle.std.specs.Prelude.{◌≡◌, ◌<◌, length, IfOk};
ghost use Rattle.std.specs.Io.{WritesAtMost};
ghost use Rattle.std.specs.Io.KnownBytes.{WriteAppends};
ghost use Rattle.ports.specs.Causes.{HasCause};
ghost use Rattle.ports.specs.Counts.{faults_after};

use super::count_moved;
use crate::failed::Failed;
use crate::sink::Sink;
use std::io::Write;

/// A sink over a writer of std. It has written what the writer holds, if that is known; of
/// standard output, a file or a socket nothing is known. It holds no byte back itself, so give it
/// a writer that holds none back either, as the runtime's `stdout()`.
#[derive(Drop)]
pub struct WriteSink<W> {
    writer: W,
    faults: u64,
}

impl<W: Write> WriteSink<W> {
    /// Makes a sink that writes to this writer.
    pub fn new(writer: W) -> Self
        ensures written { ⟦<WriteSink<W> as Sink>⟧.written result ≡ W.contents writer }
        ensures faults { ⟦<WriteSink<W> as Sink>⟧.faults result ≡ 0 }
    {
        WriteSink { writer, faults: 0 }
    }

    /// How many calls have failed, up to 2^64 - 1.
    pub fn fault_count(&self) -> u64
        ensures { result ≡ ⟦<WriteSink<W> as Sink>⟧.faults self.now }
    {
        self.faults
    }
}

impl<W: Write> Sink for WriteSink<W> {
    ghost written = { λ s. W.contents s.writer };

    ghost faults = { λ s. s.faults };

    fn write(&mut self, from: &[u8]) -> Result<usize, Failed>
        ensures bound { WritesAtMost result from.now }
        ensures some { IfOk result (λ n. 0 < length from.now → 0 < n) }
        ensures bytes { WriteAppends (⟦<WriteSink<W> as Sink>⟧.written self.old)
            (⟦<WriteSink<W> as Sink>⟧.written self.new) result from.now }
        ensures cause { HasCause (⟦<WriteSink<W> as Sink>⟧.faults self.old)
            (⟦<WriteSink<W> as Sink>⟧.faults self.new) result }
        ensures faults { ⟦<WriteSink<W> as Sink>⟧.faults self.new
            ≡ faults_after (⟦<WriteSink<W> as Sink>⟧.faults self.old) result }
    {
        let least = from.len().min(1);
        count_moved(self.writer.write(from), least, &mut self.faults)
    }
}
