//! What a pass may do.
ghost use Rattle.std.specs.Prelude.{◌≡◌, ◌≢◌, ◌+◌, ◌<◌, ◌≤◌, ◌++◌, ◌∷◌, [], length, true, Contains};
ghost use Rattle.base_ids.specs.declared.cell_id.CellId.{CellId};
ghost use Rattle.fronts.specs.declared.claim.Claim.TheVariants.{Pen, Flush, Number, Cell};
ghost use Rattle.fronts.specs.Calls.{KeepsCalls};
ghost use Rattle.fronts.specs.Claims.{Follows};
ghost use Rattle.fronts.specs.History.{IsBounded, IsHistory, calls_by, entries_of};
ghost use Rattle.fronts.specs.Tokens.{Unites};
ghost use Rattle.fronts.specs.Views.{appended, marked, met, new_pass, note_with, note_with_mark, own_calls, united, with_claim_given, with_durable, with_front, with_mark_given, with_pass_given};

use crate::claim::Claim;
use crate::fronts::Fronts;
use crate::naming::{Naming, Origin};
use crate::tokens::{Note, Pass};
use request_text::Entry;

impl<O: Origin, J: Naming> Fronts<O, J> {
    /// Sees the history as it is now, and answers how many entries it has.
    pub fn look(&self, pass: &mut Pass<O, J>) -> u64
        ensures view { pass.new ≡ with_front pass.old pass.new.front }
        ensures count { result ≡ length pass.new.front }
        ensures history { IsHistory O.start pass.new.front }
        ensures follows { Follows O.start pass.old.claims pass.old.front pass.new.front }
        ensures calls { KeepsCalls pass.old pass.new }
        ensures own { own_calls pass.new ≡ own_calls pass.old }
    {
        self.look_as(&mut pass.token)
    }

    /// Learns how many entries are durable at least.
    pub fn read(&self, pass: &mut Pass<O, J>) -> u64
        ensures view { pass.new ≡ with_durable pass.old result }
        ensures least { pass.old.durable ≤ result }
    {
        self.read_as(&mut pass.token)
    }

    /// Appends an entry under the pass's number, and answers how many entries came before it.
    pub fn append(&self, pass: &mut Pass<O, J>, entry: &Entry) -> u64
        requires pen { Contains pass.old.claims Pen }
        requires cells { (cell : CellId) → O.start.touches (entries_of pass.old.front) entry.now cell ≡ true → Contains pass.old.claims (Cell cell) }
        requires legal { IsBounded O.start (entries_of pass.old.front ++ entry.now ∷ []) }
        ensures view { pass.new ≡ appended pass.old entry.now }
        ensures count { result ≡ length pass.old.front }
        ensures history { IsHistory O.start pass.new.front }
        ensures own { own_calls pass.new ≡ own_calls pass.old ++ entry.now ∷ [] }
    {
        self.append_as(&mut pass.token, entry)
    }

    /// Counts so many more entries as durable.
    pub fn settle(&self, pass: &mut Pass<O, J>, more: u64)
        requires rights { Contains pass.old.claims Pen × Contains pass.old.claims Flush }
        requires within { pass.old.durable + more ≤ length pass.old.front }
        ensures { pass.new ≡ with_durable pass.old (pass.old.durable + more) }
    {
        self.settle_as(&mut pass.token, more);
    }

    /// Gives a mark, and keeps it.
    pub fn mark(&self, pass: &mut Pass<O, J>)
        requires right { Contains pass.old.claims Flush }
        ensures { pass.new ≡ marked pass.old }
    {
        self.mark_as(&mut pass.token);
    }

    /// A new pass, which has seen as much and has called nothing.
    pub fn split(&self, pass: &mut Pass<O, J>) -> Pass<O, J>
        requires may { pass.old.next ≢ 0 }
        ensures kept { pass.new ≡ with_pass_given pass.old }
        ensures given { result ≡ new_pass pass.old }
        ensures none { own_calls result ≡ [] }
    {
        let token = self.split_as(&mut pass.token);
        Pass { token }
    }

    /// A note of what the pass has seen.
    pub fn note(&self, pass: &mut Pass<O, J>) -> Note<O, J>
        ensures kept { pass.new ≡ pass.old }
        ensures given { result ≡ note_with pass.old [] }
    {
        let token = self.note_as(&mut pass.token);
        Note { token }
    }

    /// A note that takes a claim over from the pass. Its own number the pass keeps.
    pub fn give(&self, pass: &mut Pass<O, J>, claim: Claim) -> Note<O, J>
        requires has { Contains pass.old.claims claim }
        requires other { claim ≢ Number pass.old.number }
        ensures kept { pass.new ≡ with_claim_given claim pass.old }
        ensures given { result ≡ note_with pass.old (claim ∷ []) }
    {
        let token = self.give_as(&mut pass.token, claim);
        Note { token }
    }

    /// A note that takes one of the pass's marks over.
    pub fn give_mark(&self, pass: &mut Pass<O, J>) -> Note<O, J>
        requires some { 0 < pass.old.marks }
        ensures kept { pass.new ≡ with_mark_given pass.old }
        ensures given { result ≡ note_with_mark pass.old }
    {
        let token = self.give_mark_as(&mut pass.token);
        Note { token }
    }

    /// Takes in a note: all that it has seen and may do.
    pub fn take(&self, pass: &mut Pass<O, J>, note: Note<O, J>)
        ensures view { pass.new ≡ united pass.old note }
        ensures history { IsHistory O.start pass.new.front }
        ensures follows { Unites O.start pass.old note pass.new }
        ensures calls { KeepsCalls pass.old pass.new × KeepsCalls note pass.new }
        ensures own { own_calls pass.new ≡ own_calls pass.old }
        ensures next { pass.new.next ≡ pass.old.next }
    {
        let Note { token } = note;
        self.take_as(&mut pass.token, token);
    }

    /// Ends the other pass: this one has all that both have seen and may do, and keeps the other's calls as those of a number
    /// that has ended.
    pub fn join(&self, pass: &mut Pass<O, J>, other: Pass<O, J>)
        ensures view { pass.new ≡ united pass.old other }
        ensures history { IsHistory O.start pass.new.front }
        ensures follows { Unites O.start pass.old other pass.new }
        ensures calls { KeepsCalls pass.old pass.new × KeepsCalls other pass.new }
        ensures own { own_calls pass.new ≡ own_calls pass.old }
        ensures ended { calls_by other.number pass.new.front ≡ own_calls other }
        ensures numbers { Contains pass.new.claims (Number pass.old.number) × Contains pass.new.claims (Number other.number) }
    {
        let Pass { token } = other;
        self.take_as(&mut pass.token, token);
    }

    /// Lets two passes see what the other has seen: both have the longer of the two fronts afterwards.
    pub fn meet(&self, pass: &mut Pass<O, J>, other: &mut Pass<O, J>)
        ensures pass { pass.new ≡ met pass.old other.old }
        ensures other { other.new ≡ met other.old pass.old }
        ensures one { other.new.front ≡ pass.new.front }
        ensures history { IsHistory O.start pass.new.front }
        ensures first { Follows O.start pass.old.claims pass.old.front pass.new.front }
        ensures second { Follows O.start other.old.claims other.old.front pass.new.front }
        ensures calls { KeepsCalls pass.old pass.new × KeepsCalls other.old other.new }
        ensures own { (own_calls pass.new ≡ own_calls pass.old) × (own_calls other.new ≡ own_calls other.old) }
    {
        let seen = self.note_as(&mut pass.token);
        self.take_as(&mut other.token, seen);
        let longer = self.note_as(&mut other.token);
        self.take_as(&mut pass.token, longer);
    }
}
