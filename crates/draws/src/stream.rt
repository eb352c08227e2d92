ghost use Rattle.std.specs.Prelude.{◌≡◌, ◌*◌, ◌<◌, ◌≤◌, ◌^◌};
ghost use Rattle.base_num.specs.Division.{IsFloor};
ghost use Rattle.draws.specs.Draws.{draw, stream_start, word_at};
ghost use Rattle.rand_pcg.specs.Lcg.{Lcg};
ghost use Rattle.rand_pcg.specs.Pcg.{pcg32};

use rand_core::utils::NextWord;
use rand_pcg::Pcg32;
use std::marker::Model;

/// A stream of random words of 32 bits, from which whole numbers are drawn.
#[derive(Drop)]
pub struct Draws {
    words: Pcg32,
}

impl Model for Draws {
    ghost Value = { Lcg };

    ghost view = { λ draws. draws.words };
}

impl Draws {
    /// The stream of this number from this seed, before its first word.
    pub fn new(seed: u64, number: u64) -> Draws
        ensures { result ≡ stream_start seed number }
    {
        Draws {
            words: Pcg32::new(seed, number),
        }
    }

    /// A number from 0 to `n` − 1, by the stream's next word; `n` is 1 or more.
    pub fn below(&mut self, n: u32) -> u32
        requires { 1 ≤ n }
        ensures value { result ≡ draw (pcg32 self.old).0 n }
        ensures bounds { IsFloor ((pcg32 self.old).0 * n) (2 ^ 32) result }
        ensures within { result < n }
        ensures moves { self.new ≡ (pcg32 self.old).1 }
    {
        let word = u64::from(self.words.next_word());
        (word * u64::from(n) >> 32) as u32
    }
}
