//! The steps on the two words, each of one view under its name.
ghost use Rattle.std.specs.Prelude.{◌≡◌, ◌≢◌, ◌+◌, ◌<◌, ◌≤◌, ◌++◌, ◌∷◌, [], length, true, Contains};
ghost use Rattle.base_ids.specs.declared.cell_id.CellId.{CellId};
ghost use Rattle.fronts.specs.declared.claim.Claim.TheVariants.{Pen, Flush, Number, Cell};
ghost use Rattle.fronts.specs.History.{IsBounded, IsHistory, calls_by, entries_of};
ghost use Rattle.fronts.specs.Tokens.{Unites};
ghost use Rattle.fronts.specs.Claims.{Follows};
ghost use Rattle.fronts.specs.Views.{appended, marked, new_pass, note_with, note_with_mark, united, with_claim_given, with_durable, with_front, with_mark_given, with_pass_given};

use crate::claim::Claim;
use crate::fronts::Fronts;
use crate::law::{Append, Aside, Give, GiveMark, Hear, Look, Mark, NewPass, Read, Settle, TakeIn};
use crate::naming::{Adding, Giving, Naming, Origin};
use crate::tokens::Token;
use request_text::Entry;
use std::marker::{Brand, PhantomData};

impl<O: Origin, J: Naming> Fronts<O, J> {
    pub(crate) fn look_as(&self, token: &mut Token<O, J>) -> u64
        ensures view { token.new ≡ with_front token.old token.new.front }
        ensures count { result ≡ length token.new.front }
        ensures history { IsHistory O.start token.new.front }
        ensures follows { Follows O.start token.old.claims token.old.front token.new.front }
    {
        self.table.shared.load::<Look<O>>(&mut token.seat, 0)
    }

    pub(crate) fn read_as(&self, token: &mut Token<O, J>) -> u64
        ensures view { token.new ≡ with_durable token.old result }
        ensures least { token.old.durable ≤ result }
    {
        self.table.shared.load::<Read>(&mut token.seat, 1)
    }

    pub(crate) fn append_as(&self, token: &mut Token<O, J>, entry: &Entry) -> u64
        requires pen { Contains token.old.claims Pen }
        requires pass { (token.old.number ≢ 0) × Contains token.old.claims (Number token.old.number) }
        requires cells { (cell : CellId) → O.start.touches (entries_of token.old.front) entry.now cell ≡ true → Contains token.old.claims (Cell cell) }
        requires legal { IsBounded O.start (entries_of token.old.front ++ entry.now ∷ []) }
        ensures view { token.new ≡ appended token.old entry.now }
        ensures count { result ≡ length token.old.front }
        ensures history { IsHistory O.start token.new.front }
    {
        self.append_named::<Brand>(token, entry)
    }

    fn append_named<E: Adding>(&self, token: &mut Token<O, J>, entry: &Entry) -> u64
        requires is { E.entry ≡ entry.now }
        requires pen { Contains token.old.claims Pen }
        requires pass { (token.old.number ≢ 0) × Contains token.old.claims (Number token.old.number) }
        requires cells { (cell : CellId) → O.start.touches (entries_of token.old.front) entry.now cell ≡ true → Contains token.old.claims (Cell cell) }
        requires legal { IsBounded O.start (entries_of token.old.front ++ entry.now ∷ []) }
        ensures view { token.new ≡ appended token.old entry.now }
        ensures count { result ≡ length token.old.front }
        ensures history { IsHistory O.start token.new.front }
    {
        self.table
            .shared
            .fetch_add::<Append<E>>(&mut token.seat, 0, 1)
    }

    pub(crate) fn settle_as(&self, token: &mut Token<O, J>, more: u64)
        requires rights { Contains token.old.claims Pen × Contains token.old.claims Flush }
        requires within { token.old.durable + more ≤ length token.old.front }
        ensures { token.new ≡ with_durable token.old (token.old.durable + more) }
    {
        self.table
            .shared
            .fetch_add::<Settle>(&mut token.seat, 1, more);
    }

    pub(crate) fn mark_as(&self, token: &mut Token<O, J>)
        requires right { Contains token.old.claims Flush }
        ensures { token.new ≡ marked token.old }
    {
        self.table.shared.load::<Mark>(&mut token.seat, 0);
    }

    pub(crate) fn note_as(&self, token: &mut Token<O, J>) -> Token<O, J>
        ensures kept { token.new ≡ token.old }
        ensures given { result ≡ note_with token.old [] }
    {
        let seat = self.table.shared.split_seat::<Aside>(&mut token.seat);
        Token {
            seat,
            of: PhantomData,
        }
    }

    pub(crate) fn split_as(&self, token: &mut Token<O, J>) -> Token<O, J>
        requires may { token.old.next ≢ 0 }
        ensures kept { token.new ≡ with_pass_given token.old }
        ensures given { result ≡ new_pass token.old }
        ensures unused { calls_by token.old.next token.old.front ≡ [] }
    {
        self.table.shared.load::<Hear<O>>(&mut token.seat, 0);
        let seat = self.table.shared.split_seat::<NewPass>(&mut token.seat);
        Token {
            seat,
            of: PhantomData,
        }
    }

    pub(crate) fn give_as(&self, token: &mut Token<O, J>, claim: Claim) -> Token<O, J>
        requires has { Contains token.old.claims claim }
        ensures kept { token.new ≡ with_claim_given claim token.old }
        ensures given { result ≡ note_with token.old (claim ∷ []) }
    {
        self.give_named::<Brand>(token, claim)
    }

    fn give_named<C: Giving>(&self, token: &mut Token<O, J>, claim: Claim) -> Token<O, J>
        requires is { C.claim ≡ claim }
        requires has { Contains token.old.claims claim }
        ensures kept { token.new ≡ with_claim_given claim token.old }
        ensures given { result ≡ note_with token.old (claim ∷ []) }
    {
        let seat = self.table.shared.split_seat::<Give<C>>(&mut token.seat);
        Token {
            seat,
            of: PhantomData,
        }
    }

    pub(crate) fn give_mark_as(&self, token: &mut Token<O, J>) -> Token<O, J>
        requires some { 0 < token.old.marks }
        ensures kept { token.new ≡ with_mark_given token.old }
        ensures given { result ≡ note_with_mark token.old }
    {
        let seat = self.table.shared.split_seat::<GiveMark>(&mut token.seat);
        Token {
            seat,
            of: PhantomData,
        }
    }

    pub(crate) fn take_as(&self, token: &mut Token<O, J>, other: Token<O, J>)
        ensures view { token.new ≡ united token.old other }
        ensures follows { Unites O.start token.old other token.new }
    {
        let Token { seat, of: _ } = other;
        self.table.shared.join_seat::<TakeIn>(&mut token.seat, seat);
        self.table.shared.load::<Hear<O>>(&mut token.seat, 0);
    }
}
