ghost use Rattle.std.specs.Prelude.{◌≡◌, ◌+◌, ◌*◌, ◌≤◌, ◌<◌, ◌⊎◌, ℕ, List, [], length, MatchOption, OnOk, OnErr, IsErrOf};
ghost use Rattle.std.specs.Str.Lines.{lines as text_lines};
ghost use Rattle.base_ids.specs.declared.numbers.TheConstants.{LAST_NUMBER};
ghost use Rattle.ports.specs.Readings.{TellsReadings};
ghost use Rattle.ports.specs.declared.clock.TheConstants.{LATEST};
ghost use Rattle.reply_text.specs.Heads.{text};
ghost use Rattle.request_text.specs.LineReading.{Known, Sees, advance, ahead, answered_line, line_of, taken};
ghost use Rattle.request_text.specs.declared.line_reader.TheConstants.{LONGEST_LINE, MOST_TAKEN};
ghost use Rattle.request_text.specs.declared.call.Call.{Call};
ghost use Rattle.reply_text.specs.declared.reply.Reply.{Reply};
ghost use Rattle.lazy.specs.Keeping.{Asks, Keeps, KeepsSome};
ghost use Rattle.tick_model.specs.Talk.{AsksFor, AsksNothing, CameAt};
ghost use Rattle.tick_model.specs.Universe.{Universe};
ghost use Rattle.command.specs.Answers.{AnsweredAll, AnsweredPart, BrokeOff, IsTold, KeepsOne, Turns, answer_text};
ghost use Rattle.command.specs.Statuses.{HasReason, status_of};

use crate::status::Stopped;
use crate::streams::write_all;
use base_text::Bytes;
use lazy::LazyUniverse;
use ports::{Clock, Sink, Source};
use reply_text::write_reply;
use request_text::{Call, LineReader, Told};
use std::alloc::{AllocError, Global};

/// What a line asks for. `None` exactly if it asks for nothing.
fn asked_for(line: &[u8]) -> Option<Call>
    ensures { MatchOption result (AsksNothing line.now) (AsksFor line.now) }
{
    Call::read(line, true)
}

/// The reading at which a call came: the one that it names, else the clock's.
#[tactic(auto, using(crate::proofs::Progress::readings))]
fn reading_of<C: Clock>(call: &Call, clock: &mut C) -> u64
    ensures range { result ≤ LATEST }
    ensures came { (taken : List ℕ) × CameAt call.now.reading result taken × TellsReadings (C.told clock.old) (C.told clock.new) taken }
{
    match call.reading {
        Some(reading) => reading,
        None => clock.now(),
    }
}

/// What a line is answered.
#[derive(Clone, Copy)]
pub enum Answer {
    /// It asks for nothing.
    Bad,
    /// It is too long.
    Long,
    /// Its request found no memory.
    Memory,
    /// It has a reply.
    Reply,
}

/// The bytes of an answer, if `reply` has the text of the reply. They take no memory.
#[tactic(auto, unfolding(reply_text::specs::Words::line))]
fn bytes_of(answer: Answer, reply: &Bytes) -> &[u8]
    ensures { result.now ≡ answer_text answer reply.now }
{
    match answer {
        Answer::Bad => b"bad 1\n",
        Answer::Long => b"bad 2\n",
        Answer::Memory => b"memory\n",
        Answer::Reply => reply.as_slice(),
    }
}

/// Asks the universe what a call asks for, which came at a reading of at most 2^40 − 1. `reply` becomes the text of the reply.
///
/// It fails only if memory runs out, and the universe then stays as it was: all that wants memory is done before anything is
/// changed.
fn ask(
    alloc: Global,
    universe: &mut LazyUniverse,
    call: &Call,
    reading: u64,
    reply: &mut Bytes,
) -> Result<(), AllocError>
    requires keeps { KeepsSome universe.old }
    requires number { universe.old.number < LAST_NUMBER }
    requires reading { reading ≤ LATEST }
    ensures ok { OnOk result ((answer : Reply)
        × Asks universe.old universe.new call.now.player call.now.req reading answer × (reply.new ≡ text answer)) }
    ensures number { OnOk result (universe.new.number ≡ universe.old.number + 1) }
    ensures err { OnErr result (universe.new ≡ universe.old) }
{
    let prepared = universe.prepare(alloc, call.player, &call.req, reading)?;
    reply.clear();
    write_reply(reply, &prepared.reply)?;
    let _ = universe.keep(prepared);
    Ok(())
}

/// Answers a line of at most 400 bytes. If it has a reply, `reply` becomes the text of that.
fn answer_line<C: Clock>(
    alloc: Global,
    universe: &mut LazyUniverse,
    clock: &mut C,
    line: &[u8],
    reply: &mut Bytes,
) -> Answer
    requires short { length line.now ≤ LONGEST_LINE }
    requires keeps { KeepsSome universe.old }
    requires number { universe.old.number < LAST_NUMBER }
    ensures keeps { KeepsSome universe.new }
    ensures turns { Turns universe.old universe.new (C.told clock.old) (C.told clock.new)
        line.now (answer_text result reply.new) }
    ensures number { 2 * universe.new.number ≤ 2 * universe.old.number + length line.now }
{
    let Some(call) = asked_for(line) else {
        return Answer::Bad;
    };
    let reading = reading_of(&call, clock);
    match ask(alloc, universe, &call, reading, reply) {
        Ok(()) => Answer::Reply,
        Err(_) => Answer::Memory,
    }
}

/// Answers the line that a reader told.
fn answer_told<C: Clock>(
    alloc: Global,
    universe: &mut LazyUniverse,
    clock: &mut C,
    lines: &LineReader,
    told: Told,
    reply: &mut Bytes,
) -> Answer
    requires short { length (answered_line lines.now) ≤ LONGEST_LINE }
    requires keeps { KeepsSome universe.old }
    requires number { universe.old.number < LAST_NUMBER }
    ensures keeps { KeepsSome universe.new }
    ensures turns { (line : List ℕ) → IsTold lines.now told line → Turns universe.old universe.new
        (C.told clock.old) (C.told clock.new) line (answer_text result reply.new) }
    ensures number { 2 * universe.new.number ≤ 2 * universe.old.number + length (answered_line lines.now) }
{
    match told {
        Told::Text(_) => answer_line(alloc, universe, clock, lines.line(), reply),
        Told::Long => Answer::Long,
    }
}

/// Answers each line of a script, and hands each answer to the sink in one piece.
///
/// It ends well if the source was read to its end and all lines were answered. If the source failed, or as many bytes were taken as
/// a reader may take, all whole lines that were taken are answered. Else the sink failed. A line whose request finds no memory is
/// answered `memory`, and changes nothing.
pub fn answer_lines<S: Source, K: Sink, C: Clock>(
    alloc: Global,
    universe: &mut LazyUniverse,
    lines: &mut LineReader,
    source: &mut S,
    clock: &mut C,
    sink: &mut K,
) -> Result<(), Stopped>
    requires keeps { KeepsSome universe.old }
    requires room { 2 * universe.old.number + ahead lines.old ≤ MOST_TAKEN }
    ensures keeps { KeepsSome universe.new }
    ensures ends { OnErr result (IsErrOf result Stopped.SourceFault ⊎ IsErrOf result Stopped.TooLong ⊎ IsErrOf result Stopped.SinkFault) }
    ensures reason { HasReason (status_of result) (S.faults source.old) (S.faults source.new) (K.faults sink.old) (K.faults sink.new) }
    ensures done { OnOk result (Known (S.left source.old) (S.left source.new) (λ left more. (text : List ℕ) (base : Universe)
        → Sees lines.old left text → Keeps base [] universe.old
        → (more ≡ []) × KeepsOne base universe.new (λ history. AnsweredAll base history (text_lines text)
        (C.told clock.old) (C.told clock.new) (K.written sink.old) (K.written sink.new)))) }
    ensures partly { IsErrOf result Stopped.SourceFault ⊎ IsErrOf result Stopped.TooLong → Known (S.left source.old) (S.left source.new)
        (λ left more. (text : List ℕ) (base : Universe) → Sees lines.old left text → Keeps base [] universe.old
        → KeepsOne base universe.new (λ history. AnsweredPart base history
        text more (C.told clock.old) (C.told clock.new) (K.written sink.old) (K.written sink.new))) }
    ensures broke_off { IsErrOf result Stopped.SinkFault → Known (S.left source.old) (S.left source.new)
        (λ left more. (text : List ℕ) (base : Universe) → Sees lines.old left text → Keeps base [] universe.old
        → KeepsOne base universe.new (λ history. BrokeOff base history
        (text_lines text) (C.told clock.old) (C.told clock.new) (K.written sink.old) (K.written sink.new))) }
    ensures within { OnOk result (taken lines.new < MOST_TAKEN) }
    ensures too_long { IsErrOf result Stopped.TooLong → taken lines.new ≡ MOST_TAKEN }
    ensures most { taken lines.new ≤ MOST_TAKEN }
    ensures counts { Known (S.left source.old) (S.left source.new)
        (λ left more. taken lines.new + length more ≡ taken lines.old + length left) }
{
    let mut reply = Bytes::new(alloc);
    'script: loop {
        let Some(told) = lines.next(source).told()? else {
            return Ok(());
        };
        let answer = answer_told(alloc, universe, clock, lines, told, &mut reply);
        write_all(sink, bytes_of(answer, &reply))?;
    }
}
