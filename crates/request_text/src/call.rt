ghost use Rattle.std.specs.Prelude.{◌≡◌, ◌≤◌, ◌∷◌, IsSomeAnd, MatchOption, ℕ};
ghost use Rattle.std.specs.Option.{ForSome};
ghost use Rattle.std.specs.Fmt.{decimal};
ghost use Rattle.base_ids.specs.Text.{player_text};
ghost use Rattle.base_ids.specs.declared.player.Player.{Player};
ghost use Rattle.ports.specs.declared.clock.TheConstants.{LATEST};
ghost use Rattle.request_text.specs.Timing.{is_timed};
ghost use Rattle.request_text.specs.Words.{request_words};
ghost use Rattle.request_text.specs.declared.request.Request.{Request};

use crate::coordinates::player;
use crate::request::{Request, next_request};
use base_ids::Player;
use base_text::{Parts, number};
use ports::LATEST;

/// A line that asks for something: a request of a player, and the reading of the clock that the line names, if it names one, in
/// seconds up to `LATEST`.
#[derive(Clone, Copy, Debug, PartialEq, Eq)]
pub struct Call {
    pub reading: Option<u64>,
    pub player: Player,
    pub req: Request,
    pub ghost in_range: { ForSome reading (λ r. r ≤ LATEST) },
}

impl Call {
    ghost use Rattle.request_text.specs.Grammar.{IsOutside, Spells};

    /// The call that a line spells: `K REQUEST`, or in a script also `@R K REQUEST`. `None` exactly if it spells none.
    ///
    /// It takes no memory, and reads each byte a bounded number of times.
    pub fn read(line: &[u8], script: bool) -> Option<Call>
        ensures { MatchOption result (IsOutside script line.now) (Spells script line.now) }
    {
        let mut words = Parts::new(line, b' ');
        if script && names_reading(&words) {
            next_timed(&mut words)
        } else {
            next_untimed(&mut words)
        }
    }
}

/// Whether the next word begins with `@`.
fn names_reading(words: &Parts) -> bool
    ensures { result ≡ is_timed words.now }
{
    match words.peek() {
        Some([b'@', ..]) => true,
        _ => false,
    }
}

/// Takes all words as those of a call that names no reading. `None` exactly if they spell none.
#[tactic(auto, using(crate::proofs::Calls::untimed))]
fn next_untimed(words: &mut Parts) -> Option<Call>
    ensures { MatchOption result
        ((player : Player) (req : Request) → words.old ≡ player_text player ∷ request_words req → ⊥)
        (λ call. (call.reading ≡ None) × (words.old ≡ player_text call.player ∷ request_words call.req)) }
{
    let word = words.next()?;
    let player = player(word)?;
    let req = next_request(words)?;
    Some(Call {
        reading: None,
        player,
        req,
    })
}

/// Takes all words as those of a call that names a reading. `None` exactly if they spell none.
#[tactic(auto, using(crate::proofs::Calls::timed))]
fn next_timed(words: &mut Parts) -> Option<Call>
    ensures { MatchOption result
        ((reading : ℕ) (player : Player) (req : Request) → reading ≤ LATEST
        → words.old ≡ (64 ∷ decimal reading) ∷ player_text player ∷ request_words req → ⊥)
        (λ call. IsSomeAnd call.reading (λ reading.
        words.old ≡ (64 ∷ decimal reading) ∷ player_text call.player ∷ request_words call.req)) }
{
    let word = words.next()?;
    let reading = told_reading(word)?;
    let call = next_untimed(words)?;
    Some(Call {
        reading: Some(reading),
        player: call.player,
        req: call.req,
    })
}

/// The reading that a word `@R` tells.
fn told_reading(word: &[u8]) -> Option<u64>
    ensures { MatchOption result
        ((n : ℕ) → n ≤ LATEST → word.now ≡ 64 ∷ decimal n → ⊥)
        (λ n. (n ≤ LATEST) × (word.now ≡ 64 ∷ decimal n)) }
{
    match word {
        [b'@', digits @ ..] => number(digits, LATEST),
        _ => None,
    }
}
