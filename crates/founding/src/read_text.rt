ghost use Rattle.std.specs.Prelude.{◌≡◌, ◌≢◌, ◌+◌, ◌≤◌, ◌<◌, List, ℕ, length, Err, IfOk, OnOk, MatchResult, Option};
ghost use Rattle.base_bytes.specs.Sound.{IsSound};
ghost use Rattle.ports.specs.Causes.{Rose};
ghost use Rattle.ports.specs.declared.clock.TheConstants.{LATEST};
ghost use Rattle.request_text.specs.LineReading.{ahead, taken, answered_line, Follows, IsSpent, Known, Sees};
ghost use Rattle.request_text.specs.declared.line_reader.TheConstants.{LONGEST_LINE};
ghost use Rattle.founding.specs.Drafts.{Drafted};
ghost use Rattle.founding.specs.Reading.{Reads, Stops};

use crate::draft::Draft;
use crate::fault::FoundingFault;
use crate::read_lines::read_heading;
use base_bytes::Base;
use base_text::is_same;
use ports::Source;
use request_text::{LineReader, Told};
use std::alloc::Global;

/// Reads a founding text up to its `.`, and no line after it. The reader then tells the lines of the script.
///
/// It stops at the first bad line, if a read fails, and if the reader may take no more. It stops for memory only at a
/// line that adds something to what the lines before it have said. No fault founds anything.
pub fn read<S: Source>(
    alloc: Global,
    lines: &mut LineReader,
    source: &mut S,
) -> Result<Base, FoundingFault>
    ensures reads { Known (S.left source.old) (S.left source.new) (λ left more. (text : List ℕ)
        → Sees lines.old left text → Reads text lines.new more result) }
    ensures begins { IfOk result (λ base. (base.number ≡ 0) × (base.moment ≤ LATEST)) }
    ensures sound { IfOk result IsSound }
    ensures ahead { ahead lines.new ≤ ahead lines.old }
    ensures counts { Known (S.left source.old) (S.left source.new)
        (λ left more. taken lines.new + length more ≡ taken lines.old + length left) }
    ensures faults { S.faults source.old ≤ S.faults source.new }
    ensures stands { result ≢ Err FoundingFault.ReadFault → S.faults source.new ≡ S.faults source.old }
    ensures cause { result ≡ Err FoundingFault.ReadFault → Rose (S.faults source.old) (S.faults source.new) }
    ensures spent { result ≡ Err FoundingFault.Spent → IsSpent lines.new }
{
    next_text(1, lines, source)?;
    let heading = read_heading(lines.line()).ok_or(FoundingFault::Bad { line: 1 })?;
    let mut draft = Draft::new(alloc, heading);
    let mut number = 2;
    'lines: loop {
        next_text(number, lines, source)?;
        if is_same(lines.line(), b".") {
            return Ok(draft.found());
        }
        if let Err(fault) = draft.add_line(lines.line()) {
            return Err(fault.at(number));
        }
        number += 1;
    }
}

// Reads the next line, which has this number. The reader then tells it. The line is bad if it is too long, or if there
// is none.
fn next_text<S: Source>(
    number: u64,
    lines: &mut LineReader,
    source: &mut S,
) -> Result<(), FoundingFault>
    ensures tells { Known (S.left source.old) (S.left source.new) (λ left more. (text : List ℕ)
        → Sees lines.old left text → MatchResult result
        (λ done. Follows lines.new more text (answered_line lines.new))
        (λ fault. (said : Option Drafted) → Stops said number text lines.new more fault)) }
    ensures short { OnOk result (length (answered_line lines.new) ≤ LONGEST_LINE) }
    ensures nears { OnOk result (ahead lines.new < ahead lines.old) }
    ensures ahead { ahead lines.new ≤ ahead lines.old }
    ensures counts { Known (S.left source.old) (S.left source.new)
        (λ left more. taken lines.new + length more ≡ taken lines.old + length left) }
    ensures faults { S.faults source.old ≤ S.faults source.new }
    ensures stands { result ≢ Err FoundingFault.ReadFault → S.faults source.new ≡ S.faults source.old }
    ensures cause { result ≡ Err FoundingFault.ReadFault → Rose (S.faults source.old) (S.faults source.new) }
    ensures spent { result ≡ Err FoundingFault.Spent → IsSpent lines.new }
{
    match lines.next(source).told()? {
        Some(Told::Text(_)) => Ok(()),
        Some(Told::Long) | None => Err(FoundingFault::Bad { line: number }),
    }
}
