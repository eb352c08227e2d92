ghost use Rattle.std.specs.Prelude.{◌≡◌, ◌≢◌, ◌↔◌, ◌⊎◌, map, string_bytes, IsTrue};
ghost use Rattle.request_text.specs.LineReading.{Known};
ghost use Rattle.base_bytes.specs.declared.base.Base.{Base};
ghost use Rattle.command.specs.Found.{Found, HoldOpen, IsAsBefore, IsFound, MayHold};
ghost use Rattle.command.specs.Statuses.{HasDiskReason, HasReason, IsBounded, IsStatus};
ghost use Rattle.command.specs.Trial.{IsTrial, Trial, Tried};
ghost use Rattle.command.specs.TrialDump.{IsTrialDump, TrialDump};
ghost use Rattle.command.specs.declared.status.TheConstants.{NOT_A_COMMAND, SOURCE_FAULT, DISK_FAULT, NO_MEMORY, TOO_LONG, ALREADY_FOUNDED, NOT_FOUNDED};

use crate::finding::found;
use crate::status::{NOT_A_COMMAND, exit_status};
use crate::trials::{trial, trial_dump};
use base_text::is_same;
use disk_port::{Disk, Served};
use ports::{Clock, Sink, Source};
use std::alloc::Global;

/// Whether the words are those of the command `trial`.
fn is_trial(words: &[String]) -> bool
    ensures { IsTrue result ↔ IsTrial (map string_bytes words.now) }
{
    match words {
        [word] => is_same(word.as_bytes(), b"trial"),
        _ => false,
    }
}

/// Whether the words are those of the command `trial dump`.
fn is_trial_dump(words: &[String]) -> bool
    ensures { IsTrue result ↔ IsTrialDump (map string_bytes words.now) }
{
    match words {
        [first, second] => {
            is_same(first.as_bytes(), b"trial") && is_same(second.as_bytes(), b"dump")
        }
        _ => false,
    }
}

/// Whether the words are those of the command `found`.
fn is_found(words: &[String]) -> bool
    ensures { IsTrue result ↔ IsFound (map string_bytes words.now) }
{
    match words {
        [word] => is_same(word.as_bytes(), b"found"),
        _ => false,
    }
}

/// Does the command that the words spell. It returns its status, and hands both disks back.
///
/// `trial` reads a founding text from the source, and then answers each line that follows. `trial dump` does the same, and then
/// writes the text of the whole universe. The clock is read once for each line that asks for something and names no reading.
///
/// `found` looks at both disks. If none of them holds an open area, it reads the source to its end and makes the universe that its
/// founding text founds the first area of the left disk.
#[tactic(auto, using(crate::proofs::Wordings::one_command))]
pub fn run<S: Source, K: Sink, D: Disk, C: Clock>(
    alloc: Global,
    words: &[String],
    source: &mut S,
    sink: &mut K,
    left: D,
    right: D,
    clock: &mut C,
) -> Served<D>
    ensures statuses { IsStatus result.status }

    // The words decide whether there is a command; without one nothing is read or written.
    ensures not_a_command { (result.status ≡ NOT_A_COMMAND)
        ↔ (IsTrial (map string_bytes words.now) ⊎ IsTrialDump (map string_bytes words.now) ⊎ IsFound (map string_bytes words.now) → ⊥) }
    ensures untouched { result.status ≡ NOT_A_COMMAND
        → (source.new ≡ source.old) × (sink.new ≡ sink.old) × (clock.new ≡ clock.old) }

    // `trial`: what was read and written with each status, if the source tells its text and what is left of it.
    ensures trial { IsTrial (map string_bytes words.now) → Trial result.status (S.left source.old) (S.left source.new)
        (C.told clock.old) (C.told clock.new) (K.written sink.old) (K.written sink.new) }
    ensures trial_unwritten { IsTrial (map string_bytes words.now) → result.status ≡ NO_MEMORY → sink.new ≡ sink.old }
    ensures trial_untold { IsTrial (map string_bytes words.now)
        → (result.status ≡ NO_MEMORY) ⊎ (result.status ≡ NOT_FOUNDED) → clock.new ≡ clock.old }

    // `trial dump`: the same, and after the answers the text of the universe. Out of memory, nothing was written, or all answers
    // and no more.
    ensures dump { IsTrialDump (map string_bytes words.now) → TrialDump result.status (S.left source.old) (S.left source.new)
        (C.told clock.old) (C.told clock.new) (K.written sink.old) (K.written sink.new) }
    ensures dump_memory { IsTrialDump (map string_bytes words.now) → result.status ≡ NO_MEMORY
        → ((sink.new ≡ sink.old) × (clock.new ≡ clock.old))
        ⊎ Known (S.left source.old) (S.left source.new) (λ text more.
        Tried text more (C.told clock.old) (C.told clock.new) (K.written sink.old) (K.written sink.new)) }
    ensures dump_untold { IsTrialDump (map string_bytes words.now) → result.status ≡ NOT_FOUNDED → clock.new ≡ clock.old }

    // `found`: what was read, written and laid on the left disk with each status. The right disk is only looked at.
    ensures found { IsFound (map string_bytes words.now) → Found D.story result.status left result.left
        (S.left source.old) (S.left source.new) (K.written sink.old) (K.written sink.new) }
    ensures found_right { IsFound (map string_bytes words.now) → IsAsBefore D.story right result.right }
    ensures found_untold { IsFound (map string_bytes words.now) → clock.new ≡ clock.old }

    // It ends with the status of a universe that was founded before exactly if a disk holds an open area, but for a disk fault.
    // It has then read nothing. After a disk fault it has read nothing too, or no disk held an open area.
    ensures found_already { IsFound (map string_bytes words.now) → D.story.tells result.left → D.story.tells result.right
        → result.status ≢ DISK_FAULT → ((result.status ≡ ALREADY_FOUNDED) ↔ HoldOpen D.story left right) }
    ensures found_unread { IsFound (map string_bytes words.now) → result.status ≡ ALREADY_FOUNDED → source.new ≡ source.old }
    ensures found_torn { IsFound (map string_bytes words.now) → result.status ≡ DISK_FAULT
        → ((source.new ≡ source.old) × IsAsBefore D.story left result.left)
        ⊎ ((base : Base) × MayHold D.story base left result.left (S.left source.old) (S.left source.new)
        × (D.story.tells result.left → D.story.tells result.right → HoldOpen D.story left right → ⊥)) }
    ensures found_unwritten { IsFound (map string_bytes words.now)
        → (result.status ≡ SOURCE_FAULT) ⊎ (result.status ≡ DISK_FAULT) ⊎ (result.status ≡ NO_MEMORY) ⊎ (result.status ≡ TOO_LONG)
        ⊎ (result.status ≡ ALREADY_FOUNDED) → sink.new ≡ sink.old }

    // Every other command leaves the disks alone.
    ensures undisturbed { (IsFound (map string_bytes words.now) → ⊥) → (result.left ≡ left) × (result.right ≡ right) }
    ensures found_only { (result.status ≡ DISK_FAULT) ⊎ (result.status ≡ ALREADY_FOUNDED) → IsFound (map string_bytes words.now) }

    // Any command: what causes each status, and how much is taken of the source.
    ensures reason { HasReason result.status (S.faults source.old) (S.faults source.new) (K.faults sink.old) (K.faults sink.new) }
    ensures disks { HasDiskReason result.status (D.faults left) (D.faults result.left) (D.faults right) (D.faults result.right) }
    ensures bounded { Known (S.left source.old) (S.left source.new) (IsBounded result.status) }
{
    if is_found(words) {
        let mut left = left;
        let mut right = right;
        let status = exit_status(found(alloc, source, sink, &mut left, &mut right));
        return Served {
            status,
            left,
            right,
        };
    }
    if is_trial(words) {
        let status = exit_status(trial(alloc, source, sink, clock));
        return Served {
            status,
            left,
            right,
        };
    }
    if is_trial_dump(words) {
        let status = exit_status(trial_dump(alloc, source, sink, clock));
        return Served {
            status,
            left,
            right,
        };
    }
    Served {
        status: NOT_A_COMMAND,
        left,
        right,
    }
}
