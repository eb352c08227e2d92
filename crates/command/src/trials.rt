ghost use Rattle.std.specs.Prelude.{◌≡◌, ◌≤◌, ◌+◌, ◌⊎◌, ℕ, List, length, IfOk, IsErrOf, OnErr, OnOk, Option};
ghost use Rattle.lazy.specs.Keeping.{KeepsSome};
ghost use Rattle.request_text.specs.LineReading.{Known, Sees, ahead, taken};
ghost use Rattle.command.specs.Beginning.{Begins, Leaves};
ghost use Rattle.command.specs.Statuses.{HasReason, IsBounded, status_of};
ghost use Rattle.command.specs.Trial.{Trial, Tried};
ghost use Rattle.command.specs.TrialDump.{TrialDump};

use crate::answering::answer_lines;
use crate::foundings::read_founding;
use crate::status::Stopped;
use crate::streams::write_all;
use lazy::LazyUniverse;
use ports::{Clock, Sink, Source};
use request_text::LineReader;
use std::alloc::Global;

/// Reads a founding text, and makes the universe that it founds. If a line is bad, it names the first bad one.
fn begin<S: Source, K: Sink>(
    alloc: Global,
    lines: &mut LineReader,
    source: &mut S,
    sink: &mut K,
) -> Result<LazyUniverse, Stopped>
    requires fresh { (left : List ℕ) → Sees lines.old left left }
    requires untaken { taken lines.old ≡ 0 }
    ensures begins { IfOk result (λ universe. Known (S.left source.old) (S.left source.new) (λ text more. Begins text lines.new more universe)) }
    ensures keeps { IfOk result KeepsSome }
    ensures number { IfOk result (λ universe. universe.number ≡ 0) }
    ensures silent { OnOk result (sink.new ≡ sink.old) }
    ensures command { IsErrOf result Stopped.NotACommand → ⊥ }
    ensures disks { IsErrOf result Stopped.DiskFault ⊎ IsErrOf result Stopped.AlreadyFounded → ⊥ }
    ensures trial { OnErr result ((told : Option (List ℕ)) → Trial (status_of result) (S.left source.old) (S.left source.new) told told
        (K.written sink.old) (K.written sink.new)) }
    ensures unwritten { IsErrOf result Stopped.NoMemory → sink.new ≡ sink.old }
    ensures reason { HasReason (status_of result) (S.faults source.old) (S.faults source.new) (K.faults sink.old) (K.faults sink.new) }
    ensures bounded { OnErr result (Known (S.left source.old) (S.left source.new) (IsBounded (status_of result))) }
    ensures ahead { ahead lines.new ≤ ahead lines.old }
    ensures counts { Known (S.left source.old) (S.left source.new)
        (λ left more. taken lines.new + length more ≡ taken lines.old + length left) }
{
    let base = read_founding(alloc, lines, source, sink)?;
    Ok(LazyUniverse::new(alloc, &base)?)
}

/// Reads a founding text, and answers the lines that follow it. The result is the universe as they leave it.
fn answer_input<S: Source, K: Sink, C: Clock>(
    alloc: Global,
    source: &mut S,
    sink: &mut K,
    clock: &mut C,
) -> Result<LazyUniverse, Stopped>
    ensures leaves { IfOk result (λ universe. Known (S.left source.old) (S.left source.new) (λ text more.
        Leaves text more (C.told clock.old) (C.told clock.new) (K.written sink.old) (K.written sink.new) universe)) }
    ensures command { IsErrOf result Stopped.NotACommand → ⊥ }
    ensures disks { IsErrOf result Stopped.DiskFault ⊎ IsErrOf result Stopped.AlreadyFounded → ⊥ }
    ensures trial { Trial (status_of result) (S.left source.old) (S.left source.new) (C.told clock.old) (C.told clock.new)
        (K.written sink.old) (K.written sink.new) }
    ensures unwritten { IsErrOf result Stopped.NoMemory → sink.new ≡ sink.old }
    ensures untold { IsErrOf result Stopped.NoMemory ⊎ IsErrOf result Stopped.NotFounded → clock.new ≡ clock.old }
    ensures reason { HasReason (status_of result) (S.faults source.old) (S.faults source.new) (K.faults sink.old) (K.faults sink.new) }
    ensures bounded { Known (S.left source.old) (S.left source.new) (IsBounded (status_of result)) }
{
    let mut lines = LineReader::new(alloc)?;
    let mut universe = begin(alloc, &mut lines, source, sink)?;
    answer_lines(alloc, &mut universe, &mut lines, source, clock, sink)?;
    Ok(universe)
}

/// The command `trial`: answers an input.
pub fn trial<S: Source, K: Sink, C: Clock>(
    alloc: Global,
    source: &mut S,
    sink: &mut K,
    clock: &mut C,
) -> Result<(), Stopped>
    ensures command { IsErrOf result Stopped.NotACommand → ⊥ }
    ensures disks { IsErrOf result Stopped.DiskFault ⊎ IsErrOf result Stopped.AlreadyFounded → ⊥ }
    ensures trial { Trial (status_of result) (S.left source.old) (S.left source.new) (C.told clock.old) (C.told clock.new)
        (K.written sink.old) (K.written sink.new) }
    ensures unwritten { IsErrOf result Stopped.NoMemory → sink.new ≡ sink.old }
    ensures untold { IsErrOf result Stopped.NoMemory ⊎ IsErrOf result Stopped.NotFounded → clock.new ≡ clock.old }
    ensures reason { HasReason (status_of result) (S.faults source.old) (S.faults source.new) (K.faults sink.old) (K.faults sink.new) }
    ensures bounded { Known (S.left source.old) (S.left source.new) (IsBounded (status_of result)) }
{
    answer_input(alloc, source, sink, clock)?;
    Ok(())
}

/// The command `trial dump`: answers an input, and then writes the text of the whole universe.
pub fn trial_dump<S: Source, K: Sink, C: Clock>(
    alloc: Global,
    source: &mut S,
    sink: &mut K,
    clock: &mut C,
) -> Result<(), Stopped>
    ensures command { IsErrOf result Stopped.NotACommand → ⊥ }
    ensures disks { IsErrOf result Stopped.DiskFault ⊎ IsErrOf result Stopped.AlreadyFounded → ⊥ }
    ensures dump { TrialDump (status_of result) (S.left source.old) (S.left source.new) (C.told clock.old) (C.told clock.new)
        (K.written sink.old) (K.written sink.new) }
    ensures memory { IsErrOf result Stopped.NoMemory → ((sink.new ≡ sink.old) × (clock.new ≡ clock.old))
        ⊎ Known (S.left source.old) (S.left source.new) (λ text more.
        Tried text more (C.told clock.old) (C.told clock.new) (K.written sink.old) (K.written sink.new)) }
    ensures untold { IsErrOf result Stopped.NotFounded → clock.new ≡ clock.old }
    ensures reason { HasReason (status_of result) (S.faults source.old) (S.faults source.new) (K.faults sink.old) (K.faults sink.new) }
    ensures bounded { Known (S.left source.old) (S.left source.new) (IsBounded (status_of result)) }
{
    let universe = answer_input(alloc, source, sink, clock)?;
    let text = universe.dump(alloc)?;
    write_all(sink, text.as_slice())?;
    Ok(())
}
