// The command `found`.
ghost use Rattle.std.specs.Prelude.{◌≡◌, ◌≢◌, ◌↔◌, ◌⊎◌, length, string_bytes, IfOk, IsErr, IsErrOf, IsTrue, OnErr, OnOk};
ghost use Rattle.base_bytes.specs.declared.base.Base.{Base as BaseOf};
ghost use Rattle.ports.specs.Causes.{Rose};
ghost use Rattle.request_text.specs.LineReading.{Known};
ghost use Rattle.command.specs.Found.{Found, HoldOpen, IsAsBefore, MayHold, counts_line, founded_line};
ghost use Rattle.command.specs.Statuses.{HasDiskReason, HasReason, IsBounded, status_of};

use crate::foundings::read_base;
use crate::status::Stopped;
use crate::streams::write_all;
use base_bytes::Base;
use disk_port::Disk;
use ports::{Failed, Sink, Source};
use recovery::{look, rebase};
use std::alloc::{AllocError, Global};

/// The generation of the area of a universe that is founded.
const FIRST_GENERATION: u64 = 1;

/// Looks at the left disk and then at the right one, and tells whether one of them holds an open area.
fn is_founded<D: Disk>(left: &mut D, right: &mut D) -> Result<bool, Failed>
    ensures left { IsAsBefore D.story left.old left.new }
    ensures right { IsAsBefore D.story right.old right.new }
    ensures open { D.story.tells left.new → D.story.tells right.new
        → IfOk result (λ answer. IsTrue answer ↔ HoldOpen D.story left.old right.old) }
    ensures failed { OnErr result (Rose (D.faults left.old) (D.faults left.new) ⊎ Rose (D.faults right.old) (D.faults right.new)) }
    ensures left_kept { OnOk result (D.faults left.new ≡ D.faults left.old) }
    ensures right_kept { OnOk result (D.faults right.new ≡ D.faults right.old) }
{
    let left_is_open = look(left)?;
    let right_is_open = look(right)?;
    Ok(left_is_open || right_is_open)
}

/// The line `founded PLAYERS PLANETS`.
fn counts_text(alloc: Global, players: usize, planets: usize) -> Result<String, AllocError>
    ensures { IfOk result (λ text. string_bytes text ≡ counts_line players planets) }
{
    format!(in alloc; "founded {players} {planets}\n")
}

/// That line for the universe of a base.
fn founded_text(alloc: Global, base: &Base) -> Result<String, AllocError>
    ensures { IfOk result (λ text. string_bytes text ≡ founded_line base.now) }
{
    counts_text(alloc, base.accounts.len(), base.planets.len())
}

/// Reads a source, lays the base that its text founds as the first area of a disk, and then tells so.
fn lay_first<S: Source, K: Sink, D: Disk>(
    alloc: Global,
    source: &mut S,
    sink: &mut K,
    left: &mut D,
) -> Result<(), Stopped>
    ensures command { IsErrOf result Stopped.NotACommand ⊎ IsErrOf result Stopped.AlreadyFounded → ⊥ }
    ensures found { Found D.story (status_of result) left.old left.new (S.left source.old) (S.left source.new)
        (K.written sink.old) (K.written sink.new) }
    ensures torn { IsErrOf result Stopped.DiskFault → (base : BaseOf)
        × MayHold D.story base left.old left.new (S.left source.old) (S.left source.new) }
    ensures told { D.story.tells left.new → D.story.tells left.old }
    ensures unwritten { (IsErrOf result Stopped.SourceFault ⊎ IsErrOf result Stopped.DiskFault ⊎ IsErrOf result Stopped.NoMemory
        ⊎ IsErrOf result Stopped.TooLong) → sink.new ≡ sink.old }
    ensures reason { HasReason (status_of result) (S.faults source.old) (S.faults source.new) (K.faults sink.old) (K.faults sink.new) }
    ensures failed { IsErrOf result Stopped.DiskFault → Rose (D.faults left.old) (D.faults left.new) }
    ensures kept { (IsErrOf result Stopped.DiskFault → ⊥) → D.faults left.new ≡ D.faults left.old }
    ensures bounded { Known (S.left source.old) (S.left source.new) (IsBounded (status_of result)) }
{
    let base = read_base(alloc, source, sink)?;
    let text = founded_text(alloc, &base)?;
    rebase(alloc, &base, FIRST_GENERATION, left)?;
    write_all(sink, text.as_bytes())?;
    Ok(())
}

/// The command `found`: founds a universe on two disks that hold no open area.
pub fn found<S: Source, K: Sink, D: Disk>(
    alloc: Global,
    source: &mut S,
    sink: &mut K,
    left: &mut D,
    right: &mut D,
) -> Result<(), Stopped>
    ensures command { IsErrOf result Stopped.NotACommand → ⊥ }
    ensures found { Found D.story (status_of result) left.old left.new (S.left source.old) (S.left source.new)
        (K.written sink.old) (K.written sink.new) }
    ensures right { IsAsBefore D.story right.old right.new }
    ensures already { D.story.tells left.new → D.story.tells right.new → (IsErrOf result Stopped.DiskFault → ⊥)
        → (IsErrOf result Stopped.AlreadyFounded ↔ HoldOpen D.story left.old right.old) }
    ensures unread { IsErrOf result Stopped.AlreadyFounded → source.new ≡ source.old }
    ensures torn { IsErrOf result Stopped.DiskFault
        → ((source.new ≡ source.old) × IsAsBefore D.story left.old left.new)
        ⊎ ((base : BaseOf) × MayHold D.story base left.old left.new (S.left source.old) (S.left source.new)
        × (D.story.tells left.new → D.story.tells right.new → HoldOpen D.story left.old right.old → ⊥)) }
    ensures unwritten { (IsErrOf result Stopped.SourceFault ⊎ IsErrOf result Stopped.DiskFault ⊎ IsErrOf result Stopped.NoMemory
        ⊎ IsErrOf result Stopped.TooLong ⊎ IsErrOf result Stopped.AlreadyFounded) → sink.new ≡ sink.old }
    ensures reason { HasReason (status_of result) (S.faults source.old) (S.faults source.new) (K.faults sink.old) (K.faults sink.new) }
    ensures disks { HasDiskReason (status_of result) (D.faults left.old) (D.faults left.new) (D.faults right.old) (D.faults right.new) }
    ensures bounded { Known (S.left source.old) (S.left source.new) (IsBounded (status_of result)) }
{
    let Ok(is_founded) = is_founded(left, right) else {
        return Err(Stopped::DiskFault);
    };
    if is_founded {
        return Err(Stopped::AlreadyFounded);
    }
    lay_first(alloc, source, sink, left)
}
