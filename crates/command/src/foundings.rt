// How the founding text of a source is read.
ghost use Rattle.std.specs.Prelude.{◌≡◌, ◌≤◌, ◌<◌, ◌+◌, ◌⊎◌, ℕ, List, [], length, take, string_bytes, IfOk, IsErrOf, OnErr, OnOk};
ghost use Rattle.std.specs.Io.KnownBytes.{Appends};
ghost use Rattle.base_bytes.specs.Sound.{IsSound};
ghost use Rattle.founding.specs.Founding.{IsUnfinished};
ghost use Rattle.ports.specs.Causes.{Rose};
ghost use Rattle.request_text.specs.LineReading.{Known, Sees, ahead, taken};
ghost use Rattle.request_text.specs.declared.line_reader.TheConstants.{MOST_TAKEN};
ghost use Rattle.command.specs.FoundingText.{IsFoundedBy, IsReadPart, IsReadTo, LacksBase};
ghost use Rattle.command.specs.Statuses.{HasReason, IsBounded, status_of};
ghost use Rattle.command.specs.Trial.{bad_founding};

use crate::status::Stopped;
use crate::streams::write_all;
use base_bytes::Base;
use founding::FoundingFault;
use ports::{Sink, Source};
use request_text::{LineReader, Stop};
use std::alloc::{AllocError, Global};

/// The line that names the first bad line of a founding text.
#[tactic(auto, unfolding(reply_text::specs::Words::line))]
fn bad_founding_line(alloc: Global, number: u64) -> Result<String, AllocError>
    ensures { IfOk result (λ text. string_bytes text ≡ bad_founding number) }
{
    format!(in alloc; "bad founding {number}\n")
}

/// Names the first bad line of a founding text.
fn name_bad_line<K: Sink>(alloc: Global, number: u64, sink: &mut K) -> Result<(), Stopped>
    ensures ends { OnErr result (IsErrOf result Stopped.SinkFault ⊎ IsErrOf result Stopped.NoMemory) }
    ensures named { OnOk result (Appends (K.written sink.old) (K.written sink.new) (bad_founding number)) }
    ensures broken { IsErrOf result Stopped.SinkFault → (count : ℕ)
        × Appends (K.written sink.old) (K.written sink.new) (take count (bad_founding number)) }
    ensures sink_fault { IsErrOf result Stopped.SinkFault → Rose (K.faults sink.old) (K.faults sink.new) }
    ensures kept { (IsErrOf result Stopped.SinkFault → ⊥) → K.faults sink.new ≡ K.faults sink.old }
    ensures unwritten { IsErrOf result Stopped.NoMemory → sink.new ≡ sink.old }
{
    let text = bad_founding_line(alloc, number)?;
    write_all(sink, text.as_bytes())?;
    Ok(())
}

/// Reads a founding text up to its `.`. If a line is bad, it names the first bad one.
pub fn read_founding<S: Source, K: Sink>(
    alloc: Global,
    lines: &mut LineReader,
    source: &mut S,
    sink: &mut K,
) -> Result<Base, Stopped>
    requires fresh { (left : List ℕ) → Sees lines.old left left }
    requires untaken { taken lines.old ≡ 0 }
    ensures reads { IfOk result (λ base. Known (S.left source.old) (S.left source.new) (λ text more. IsReadTo text lines.new more base)) }
    ensures sound { IfOk result IsSound }
    ensures number { IfOk result (λ base. base.number ≡ 0) }
    ensures silent { OnOk result (sink.new ≡ sink.old) }
    ensures command { IsErrOf result Stopped.NotACommand → ⊥ }
    ensures disks { IsErrOf result Stopped.DiskFault ⊎ IsErrOf result Stopped.AlreadyFounded → ⊥ }
    ensures lacks { OnErr result (LacksBase IsUnfinished (status_of result) (S.left source.old) (S.left source.new)
        (K.written sink.old) (K.written sink.new)) }
    ensures unwritten { IsErrOf result Stopped.NoMemory → sink.new ≡ sink.old }
    ensures stopped { IsErrOf result Stopped.SourceFault ⊎ IsErrOf result Stopped.TooLong → sink.new ≡ sink.old }
    ensures reason { HasReason (status_of result) (S.faults source.old) (S.faults source.new) (K.faults sink.old) (K.faults sink.new) }
    ensures bounded { OnErr result (Known (S.left source.old) (S.left source.new) (IsBounded (status_of result))) }
    ensures ahead { ahead lines.new ≤ ahead lines.old }
    ensures counts { Known (S.left source.old) (S.left source.new)
        (λ left more. taken lines.new + length more ≡ taken lines.old + length left) }
{
    match founding::read(alloc, lines, source) {
        Ok(base) => Ok(base),
        Err(FoundingFault::Bad { line }) => {
            name_bad_line(alloc, line, sink)?;
            Err(Stopped::NotFounded)
        }
        Err(FoundingFault::ReadFault) => Err(Stopped::SourceFault),
        Err(FoundingFault::Spent) => Err(Stopped::TooLong),
        Err(FoundingFault::Memory) => Err(Stopped::NoMemory),
    }
}

/// Reads the rest of a source to its end, and drops it.
fn drop_rest<S: Source>(lines: &mut LineReader, source: &mut S) -> Result<(), Stop>
    ensures ended { OnOk result (Known (S.left source.old) (S.left source.new)
        (λ left more. (text : List ℕ) → Sees lines.old left text → more ≡ [])) }
    ensures within { OnOk result (taken lines.new < MOST_TAKEN) }
    ensures spent { IsErrOf result Stop.Spent → taken lines.new ≡ MOST_TAKEN }
    ensures most { taken lines.new ≤ MOST_TAKEN }
    ensures counts { Known (S.left source.old) (S.left source.new)
        (λ left more. taken lines.new + length more ≡ taken lines.old + length left) }
    ensures cause { IsErrOf result Stop.Fault → Rose (S.faults source.old) (S.faults source.new) }
    ensures stands { (IsErrOf result Stop.Fault → ⊥) → S.faults source.new ≡ S.faults source.old }
{
    'rest: loop {
        let Some(_dropped) = lines.next(source).told()? else {
            return Ok(());
        };
    }
}

/// Reads a founding text and what stands behind it, to the end of the source. What stands behind it is dropped. If a line of
/// the founding text is bad, it names the first bad one.
pub fn read_base<S: Source, K: Sink>(
    alloc: Global,
    source: &mut S,
    sink: &mut K,
) -> Result<Base, Stopped>
    ensures whole { IfOk result (λ base. Known (S.left source.old) (S.left source.new)
        (λ text more. (more ≡ []) × IsFoundedBy text base)) }
    ensures silent { OnOk result (sink.new ≡ sink.old) }
    ensures command { IsErrOf result Stopped.NotACommand → ⊥ }
    ensures disks { IsErrOf result Stopped.DiskFault ⊎ IsErrOf result Stopped.AlreadyFounded → ⊥ }
    ensures lacks { OnErr result (LacksBase IsReadPart (status_of result) (S.left source.old) (S.left source.new)
        (K.written sink.old) (K.written sink.new)) }
    ensures unwritten { IsErrOf result Stopped.NoMemory → sink.new ≡ sink.old }
    ensures stopped { IsErrOf result Stopped.SourceFault ⊎ IsErrOf result Stopped.TooLong → sink.new ≡ sink.old }
    ensures reason { HasReason (status_of result) (S.faults source.old) (S.faults source.new) (K.faults sink.old) (K.faults sink.new) }
    ensures bounded { Known (S.left source.old) (S.left source.new) (IsBounded (status_of result)) }
{
    let mut lines = LineReader::new(alloc)?;
    let base = read_founding(alloc, &mut lines, source, sink)?;
    drop_rest(&mut lines, source)?;
    Ok(base)
}
