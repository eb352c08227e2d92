//! The end of a shared history.
ghost use Rattle.std.specs.Prelude.{◌≡◌, ◌≤◌, length, Contains};
ghost use Rattle.fronts.specs.declared.claim.Claim.TheVariants.{Pen, Flush};
ghost use Rattle.fronts.specs.Ends.{HasAllCalls, HasAllNumbers};

use crate::fronts::Fronts;
use crate::naming::{Naming, Origin};
use crate::tokens::{Pass, Token};

/// How many entries the history had at its end, and how many of them are durable.
#[derive(Clone, Copy, Debug, PartialEq, Eq)]
pub struct Ended {
    pub entries: u64,
    pub durable: u64,
}

impl<O: Origin, J: Naming> Fronts<O, J> {
    /// Ends the history, once all passes were joined into the last one, which has the pen and the right to flush.
    pub fn close(self, last: Pass<O, J>) -> Ended
        requires rights { Contains last.claims Pen × Contains last.claims Flush }
        requires joined { HasAllNumbers last }
        ensures entries { result.entries ≡ length last.front }
        ensures durable { result.durable ≡ last.durable }
        ensures within { result.durable ≤ result.entries }
        ensures calls { HasAllCalls O.start last }
        ensures marks { last.marks ≤ last.given }
    {
        let Fronts { table, of: _ } = self;
        let Pass { token } = last;
        let Token { seat, of: _ } = token;
        let closed = table.close_with(seat);
        let entries = closed.word(0);
        let durable = closed.word(1);
        closed.free();
        Ended { entries, durable }
    }
}
