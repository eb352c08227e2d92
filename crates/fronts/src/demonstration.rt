//! Two threads that share one history. Each appends entries that touch the cells of both, under their locks.
ghost use Rattle.std.specs.Prelude.{◌≡◌, ◌≢◌, ◌+◌, ◌<◌, ◌++◌, ◌∷◌, [], length, max, Contains, IfSome, IsTrue, MatchBool, ◌↔◌};
ghost use Rattle.base_ids.specs.declared.cell_id.CellId.TheVariants.{Account};
ghost use Rattle.fronts.specs.declared.claim.Claim.TheVariants.{Pen, Flush, Number, Cell};
ghost use Rattle.fronts.specs.Calls.{KeepsCalls};
ghost use Rattle.fronts.specs.Ends.{HasAllCalls};
ghost use Rattle.fronts.specs.History.{IsHistory, calls_by, entries_of};
ghost use Rattle.fronts.specs.Pair.{HasCalled, IsSamePass, hits, last_moment, pair};
ghost use Rattle.fronts.specs.Views.{first_view, own_calls, with_claim_given};

use crate::{Claim, Ended, Fronts, Naming, Note, Opened, Origin, Pass};
use base_ids::{CellId, Player};
use request_text::{Entry, Request};
use std::sync::{Mutex, Wait};
use std::thread::{self, Threads};

/// A cell: how many entries touched it, and the note that names it.
#[derive(Drop)]
pub struct Counter<O: Origin, J: Naming> {
    cell: CellId,
    hits: u64,
    note: Note<O, J>,
    ghost named: { note.claims ≡ Cell cell ∷ [] },
    ghost stands: { hits ≡ Rattle.fronts.specs.Pair.hits O.start cell [] (entries_of note.front) },
}

/// How many entries there are, the moment of the last one, and the note that has the pen.
#[derive(Drop)]
pub struct Journal<O: Origin, J: Naming> {
    count: u64,
    last: u64,
    note: Note<O, J>,
    ghost pen: { note.claims ≡ Pen ∷ [] },
    ghost counted: { count ≡ length note.front },
    ghost last_is: { last ≡ last_moment 0 (entries_of note.front) },
}

// The pass has the pen: it has seen the whole history.
fn take_pen<O: Origin, J: Naming>(
    fronts: &Fronts<O, J>,
    pass: &mut Pass<O, J>,
    journal: Journal<O, J>,
) -> (u64, u64)
    ensures claims { pass.new.claims ≡ pass.old.claims ++ Pen ∷ [] }
    ensures same { IsSamePass pass.old pass.new }
    ensures own { own_calls pass.new ≡ own_calls pass.old }
    ensures calls { KeepsCalls pass.old pass.new }
    ensures history { IsHistory O.start pass.new.front }
    ensures line { (result.0 ≡ journal.count) × (result.1 ≡ journal.last) }
    ensures count { result.0 ≡ length pass.new.front }
    ensures last { result.1 ≡ last_moment 0 (entries_of pass.new.front) }
{
    let Journal { count, last, note } = journal;
    fronts.take(pass, note);
    (count, last)
}

// The pass names the cell, which stands for the whole history.
fn take_cell<O: Origin, J: Naming>(
    fronts: &Fronts<O, J>,
    pass: &mut Pass<O, J>,
    counter: Counter<O, J>,
) -> (CellId, u64)
    requires pen { Contains pass.old.claims Pen }
    ensures cell { result.0 ≡ counter.cell }
    ensures claims { pass.new.claims ≡ pass.old.claims ++ Cell counter.cell ∷ [] }
    ensures same { IsSamePass pass.old pass.new }
    ensures front { pass.new.front ≡ pass.old.front }
    ensures hits { result.1 ≡ hits O.start counter.cell [] (entries_of pass.new.front) }
{
    let Counter { cell, hits, note } = counter;
    fronts.take(pass, note);
    (cell, hits)
}

fn give_cell<O: Origin, J: Naming>(
    fronts: &Fronts<O, J>,
    pass: &mut Pass<O, J>,
    cell: CellId,
    hits: u64,
) -> Counter<O, J>
    requires has { Contains pass.old.claims (Cell cell) }
    requires stands { hits ≡ Rattle.fronts.specs.Pair.hits O.start cell [] (entries_of pass.old.front) }
    ensures cell { result.cell ≡ cell }
    ensures pass { pass.new ≡ with_claim_given (Cell cell) pass.old }
{
    let note = fronts.give(pass, Claim::Cell(cell));
    Counter { cell, hits, note }
}

fn give_pen<O: Origin, J: Naming>(
    fronts: &Fronts<O, J>,
    pass: &mut Pass<O, J>,
    count: u64,
    last: u64,
) -> Journal<O, J>
    requires has { Contains pass.old.claims Pen }
    requires count { count ≡ length pass.old.front }
    requires last { last ≡ last_moment 0 (entries_of pass.old.front) }
    ensures pass { pass.new ≡ with_claim_given Pen pass.old }
{
    let note = fronts.give(pass, Claim::Pen);
    Journal { count, last, note }
}

// Appends an entry of the caller, which touches the accounts of both players.
fn send<O: Origin, J: Naming>(
    fronts: &Fronts<O, J>,
    pass: &mut Pass<O, J>,
    players: (Player, Player),
    counters: (Counter<O, J>, Counter<O, J>),
    journal: Journal<O, J>,
    entry: Entry,
) -> (Counter<O, J>, Counter<O, J>, Journal<O, J>)
    requires start { O.start ≡ pair players.0 players.1 }
    requires cells { (counters.0.cell ≡ Account players.0) × (counters.1.cell ≡ Account players.1) }
    requires apart { players.0.k ≢ players.1.k }
    requires room { journal.count < 1000 }
    requires number { entry.number ≡ journal.count + 1 }
    requires moment { entry.moment ≡ max entry.reading journal.last }
    ensures called { HasCalled 1 pass.old pass.new }
{
    let (one, other) = counters;
    let (count, _last) = take_pen(fronts, pass, journal);
    let (first, hits) = take_cell(fronts, pass, one);
    let (second, others) = take_cell(fronts, pass, other);
    fronts.append(pass, &entry);
    let one = give_cell(fronts, pass, first, hits + 1);
    let other = give_cell(fronts, pass, second, others + 1);
    let journal = give_pen(fronts, pass, count + 1, entry.moment);
    (one, other, journal)
}

/// The locks, in the order in which they are taken.
#[derive(Drop)]
pub struct Locks<O: Origin, J: Naming> {
    first: Mutex<Option<Counter<O, J>>>,
    second: Mutex<Option<Counter<O, J>>>,
    journal: Mutex<Option<Journal<O, J>>>,
}

fn is_account(cell: CellId, player: Player) -> bool
    ensures { IsTrue result ↔ (cell ≡ Account player) }
{
    match cell {
        CellId::Account(other) => other.k == player.k,
        CellId::Planet(_) => false,
    }
}

fn next_entry<O: Origin, J: Naming>(journal: &Journal<O, J>, caller: Player, reading: u64) -> Entry
    requires room { journal.now.count < 1000 }
    ensures number { result.number ≡ journal.now.count + 1 }
    ensures moment { result.moment ≡ max result.reading journal.now.last }
{
    Entry {
        number: journal.count + 1,
        moment: reading.max(journal.last),
        reading,
        player: caller,
        req: Request::Account,
    }
}

// Appends one entry under all locks, if there is room.
fn send_locked<O: Origin, J: Naming, R: Wait>(
    rt: &R,
    fronts: &Fronts<O, J>,
    locks: &Locks<O, J>,
    pass: &mut Pass<O, J>,
    players: (Player, Player),
    caller: Player,
    reading: u64,
) -> bool
    requires start { O.start ≡ pair players.0 players.1 }
    requires apart { players.0.k ≢ players.1.k }
    ensures { MatchBool result (HasCalled 1 pass.old pass.new) (pass.new ≡ pass.old) }
{
    let mut first = locks.first.lock(rt);
    let mut second = locks.second.lock(rt);
    let mut journal = locks.journal.lock(rt);
    let Some(one) = first.take() else {
        return false;
    };
    let Some(other) = second.take() else {
        return false;
    };
    let Some(line) = journal.take() else {
        return false;
    };
    if line.count >= 1000
        || !is_account(one.cell, players.0)
        || !is_account(other.cell, players.1)
    {
        return false;
    }
    let entry = next_entry(&line, caller, reading);
    let (one, other, line) = send(fronts, pass, players, (one, other), line, entry);
    *first = Some(one);
    *second = Some(other);
    *journal = Some(line);
    true
}

// What one thread does: it appends so many entries, and tells how many there was room for.
fn rounds<O: Origin, J: Naming, R: Wait>(
    rt: &R,
    fronts: &Fronts<O, J>,
    locks: &Locks<O, J>,
    mut pass: Pass<O, J>,
    players: (Player, Player),
    caller: Player,
    times: u64,
) -> (Pass<O, J>, u64)
    requires start { O.start ≡ pair players.0 players.1 }
    requires apart { players.0.k ≢ players.1.k }
    ensures { HasCalled result.1 pass result.0 }
{
    let mut sent = 0;
    'rounds: for reading in 0..times {
        if send_locked(rt, fronts, locks, &mut pass, players, caller, reading) {
            sent += 1;
        }
    }
    (pass, sent)
}

// Two passes meet and become one, which takes in both rights.
fn unite<O: Origin, J: Naming>(
    fronts: &Fronts<O, J>,
    first: &mut Pass<O, J>,
    mut second: Pass<O, J>,
    journal: Journal<O, J>,
    flush: Note<O, J>,
) -> u64
    requires flush { flush.claims ≡ Flush ∷ [] }
    requires numbers { (first.old.number ≡ 1) × (second.number ≡ 2) }
    requires next { (first.old.next ≡ 3) × (second.next ≡ 0) }
    ensures rights { Contains first.new.claims Pen × Contains first.new.claims Flush }
    ensures numbers { Contains first.new.claims (Number 1) × Contains first.new.claims (Number 2) }
    ensures next { first.new.next ≡ 3 }
    ensures count { result ≡ length first.new.front }
    ensures calls { (calls_by 1 first.new.front ≡ own_calls first.old) × (calls_by 2 first.new.front ≡ own_calls second) }
{
    fronts.meet(first, &mut second);
    fronts.join(first, second);
    fronts.take(first, flush);
    let (count, _last) = take_pen(fronts, first, journal);
    count
}

// Counts every entry as durable, and ends the history.
fn finish<O: Origin, J: Naming>(
    fronts: Fronts<O, J>,
    mut last: Pass<O, J>,
    count: u64,
) -> Option<Ended>
    requires rights { Contains last.claims Pen × Contains last.claims Flush }
    requires numbers { Contains last.claims (Number 1) × Contains last.claims (Number 2) }
    requires next { last.next ≡ 3 }
    requires count { count ≡ length last.front }
    ensures durable { IfSome result (λ e. e.durable ≡ e.entries) }
    ensures entries { IfSome result (λ e. e.entries ≡ count) }
    ensures calls { IfSome result (λ e. HasAllCalls O.start last) }
{
    let durable = fronts.read(&mut last);
    fronts.settle(&mut last, count.checked_sub(durable)?);
    Some(fronts.close(last))
}

// A second pass, a note with the right to flush, and the cells and the pen under their locks.
fn set_out<O: Origin, J: Naming>(
    fronts: &Fronts<O, J>,
    first: &mut Pass<O, J>,
    players: (Player, Player),
) -> (Pass<O, J>, Note<O, J>, Locks<O, J>)
    requires start { O.start ≡ pair players.0 players.1 }
    requires apart { players.0.k ≢ players.1.k }
    requires first { first.old ≡ first_view O.start }
    ensures numbers { (first.new.number ≡ 1) × (result.0.number ≡ 2) }
    ensures next { (first.new.next ≡ 3) × (result.0.next ≡ 0) }
    ensures none { (own_calls first.new ≡ []) × (own_calls result.0 ≡ []) }
    ensures flush { result.1.claims ≡ Flush ∷ [] }
{
    let second = fronts.split(first);
    let flush = fronts.give(first, Claim::Flush);
    let one = give_cell(fronts, first, CellId::Account(players.0), 0);
    let other = give_cell(fronts, first, CellId::Account(players.1), 0);
    let journal = give_pen(fronts, first, 0, 0);
    let locks = Locks {
        first: Mutex::new(Some(one)),
        second: Mutex::new(Some(other)),
        journal: Mutex::new(Some(journal)),
    };
    (second, flush, locks)
}

// Both threads.
fn side_by_side<O: Origin + Send + Sync, J: Naming + Send + Sync, R: Threads + Wait + Sync>(
    rt: &R,
    fronts: &Fronts<O, J>,
    locks: &Locks<O, J>,
    passes: (Pass<O, J>, Pass<O, J>),
    players: (Player, Player),
    times: u64,
) -> ((Pass<O, J>, u64), (Pass<O, J>, u64))
    requires start { O.start ≡ pair players.0 players.1 }
    requires apart { players.0.k ≢ players.1.k }
    ensures first { HasCalled result.0.1 passes.0 result.0.0 }
    ensures second { HasCalled result.1.1 passes.1 result.1.0 }
{
    let (first, second) = passes;
    thread::join(
        rt,
        || -> (Pass<O, J>, u64)
            requires start { O.start ≡ pair players.0 players.1 }
            requires apart { players.0.k ≢ players.1.k }
            ensures { HasCalled result.1 first result.0 }
        { rounds(rt, fronts, locks, first, players, players.0, times) },
        || -> (Pass<O, J>, u64)
            requires start { O.start ≡ pair players.0 players.1 }
            requires apart { players.0.k ≢ players.1.k }
            ensures { HasCalled result.1 second result.0 }
        { rounds(rt, fronts, locks, second, players, players.1, times) },
    )
}

/// Two threads append so many entries each, as far as there is room. They meet, become one, and the history ends with just the
/// entries that each was told it appended.
pub fn share<O: Origin + Send + Sync, J: Naming + Send + Sync, R: Threads + Wait + Sync>(
    rt: &R,
    opened: Opened<O>,
    players: (Player, Player),
    times: u64,
) -> Option<(Ended, u64, u64)>
    requires start { O.start ≡ pair players.0 players.1 }
    requires apart { players.0.k ≢ players.1.k }
    requires named { opened ≡ J.table }
    ensures durable { IfSome result (λ r. r.0.durable ≡ r.0.entries) }
    ensures entries { IfSome result (λ r. r.0.entries ≡ r.1 + r.2) }
{
    let (fronts, mut first) = opened.named::<J>();
    let (second, flush, locks) = set_out(&fronts, &mut first, players);
    let (here, there) = side_by_side(rt, &fronts, &locks, (first, second), players, times);
    let (mut first, sent) = here;
    let (second, sent_there) = there;
    let journal = locks.journal.into_inner()?;
    let count = unite(&fronts, &mut first, second, journal, flush);
    let ended = finish(fronts, first, count)?;
    Some((ended, sent, sent_there))
}
