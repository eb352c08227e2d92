ghost use Rattle.std.specs.Prelude.{◌≡◌, ◌++◌, OnOk};
ghost use Rattle.generate.specs.Calls.{AreCalls};
ghost use Rattle.generate.specs.Generated.{script};
ghost use Rattle.reply_text.specs.Words.{line};
ghost use Rattle.request_text.specs.Grammar.{call_words};

use crate::errand::ERRANDS;
use crate::home::Home;
use base_text::Bytes;
use draws::Draws;
use request_text::Call;
use std::alloc::{AllocError, Global};

/// Where the generator stands between two lines: the reading of the last line, and its draws.
#[derive(Drop)]
pub struct Turn {
    pub reading: u64,
    pub draws: Draws,
}

impl Turn {
    ghost use Rattle.std.specs.Prelude.{◌≡◌, ◌≤◌, ◌+◌, zero};
    ghost use Rattle.generate.specs.Turns.{next_turn, turn_after, turn_words};
    ghost use Rattle.ports.specs.declared.clock.TheConstants.{LATEST};
    ghost use Rattle.request_text.specs.Grammar.{call_words};

    /// The start.
    #[tactic(auto, unfolding(crate::specs::Turns::turn_after))]
    fn new(seed: u64) -> Turn
        ensures start { result ≡ turn_after seed 0 }
        ensures reading { result.reading ≡ 0 }
    {
        Turn {
            reading: 0,
            draws: Draws::new(seed, 0),
        }
    }

    /// The call of the next line, which has this number.
    #[tactic(auto, unfolding(draws::specs::Draws::after))]
    fn next(&mut self, number: u32) -> Call
        requires from { 1 ≤ number }
        requires room { self.old.reading + 120 ≤ LATEST }
        ensures words { call_words result ≡ turn_words number self.old }
        ensures moves { self.new ≡ next_turn self.old }
        ensures late { self.new.reading ≤ self.old.reading + 119 }
    {
        self.reading += u64::from(self.draws.below(120));
        let home = Home::next(&mut self.draws);
        let errand = ERRANDS[self.draws.below(10) as usize];
        let req = errand.request(number, home, &mut self.draws);
        Call {
            reading: Some(self.reading),
            player: home.owner(),
            req,
        }
    }
}

/// Appends the line of a call.
#[tactic(auto, unfolding(reply_text::specs::Words::line))]
fn push_call(alloc: Global, out: &mut Bytes, call: Call) -> Result<(), AllocError>
    ensures { OnOk result (out.new ≡ out.old ++ line (call_words call)) }
{
    let Call {
        reading,
        player,
        req,
    } = call;
    let line = match reading {
        Some(reading) => format!(in alloc; "@{reading} {player} {req}")?,
        None => format!(in alloc; "{player} {req}")?,
    };
    out.push_line(line.as_bytes())
}

/// Appends the lines of requests. It fails only if memory runs out.
pub fn push_script(alloc: Global, out: &mut Bytes, seed: u64, lines: u32) -> Result<(), AllocError>
    ensures text { OnOk result (out.new ≡ out.old ++ script seed lines) }
    ensures calls { OnOk result (AreCalls seed lines) }
{
    let mut turn = Turn::new(seed);
    'lines: for before in 0..lines {
        let call = turn.next(before + 1);
        push_call(alloc, out, call)?;
    }
    Ok(())
}
