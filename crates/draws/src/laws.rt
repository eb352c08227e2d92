ghost use Rattle.std.specs.Prelude.{◌≡◌, ℕ, ◌+◌, ◌<◌, ◌≤◌, ◌^◌};
ghost use Rattle.draws.specs.Draws.{after, draw, word_at};
ghost use Rattle.rand_pcg.specs.Lcg.{Lcg};
ghost use Rattle.rand_pcg.specs.Pcg.{pcg32};

/// Each word of a stream has 32 bits, so each number that is drawn is below its bound. It does nothing: the laws are
/// its contract.
#[tactic(auto, using(crate::proofs::Words::words))]
pub fn draws_are_below()
    ensures words { (stream : Lcg) (count : ℕ) → word_at stream count < 2 ^ 32 }
    ensures draws { (stream : Lcg) (count n : ℕ) → 1 ≤ n → draw (word_at stream count) n < n }
{}

/// The words of a stream come one after the other: each leads to the place of the next. It does nothing: the laws are
/// its contract.
#[tactic(auto, using(crate::proofs::Words::places))]
pub fn words_come_in_turn()
    ensures start { (stream : Lcg) → after 0 stream ≡ stream }
    ensures next { (stream : Lcg) (count : ℕ) → (pcg32 (after count stream)).1 ≡ after (count + 1) stream }
    ensures first { (stream : Lcg) (count : ℕ) → after count (pcg32 stream).1 ≡ after (count + 1) stream }
{}
