ghost use Rattle.std.specs.Prelude.{◌≡◌, ◌<◌, ◌++◌, IfOk, OnErr, OnOk, length, slice_index, string_bytes};
ghost use Rattle.reply_text.specs.Words.{kind_line, kind_lines};
ghost use Rattle.reply_text.specs.Numbers.{numbers_of};

use base_text::Bytes;
use catalog::Kind;
use std::alloc::{AllocError, Global};

/// A number for each of some kinds.
#[derive(Clone, Copy)]
pub(crate) enum Numbers<'a> {
    /// Levels, or settings.
    Levels(&'a [u8]),
    /// Counts of units.
    Counts(&'a [u32]),
}

/// The number at a place.
fn number_at(numbers: Numbers, place: usize) -> u64
    requires { place < length (numbers_of numbers) }
    ensures { result ≡ slice_index (numbers_of numbers.entry) place }
{
    match numbers {
        Numbers::Levels(levels) => u64::from(levels[place]),
        Numbers::Counts(counts) => u64::from(counts[place]),
    }
}

/// Appends the line `LABEL KIND NUMBER`, or nothing if the number is the usual one.
#[tactic(auto, unfolding(crate::specs::Words::line))]
fn push_kind(
    text: &mut String,
    label: &str,
    usual: u64,
    kind: Kind,
    number: u64,
) -> Result<(), AllocError>
    ensures { OnOk result (string_bytes text.new
        ≡ string_bytes text.old ++ kind_line label.now usual kind number) }
{
    if number == usual {
        return Ok(());
    }
    writeln!(text, "{label} {kind} {number}")
}

/// A line `LABEL KIND NUMBER` for each kind whose number isn't the usual one.
fn kinds_text(
    alloc: Global,
    label: &str,
    usual: u64,
    kinds: &[Kind],
    numbers: Numbers,
) -> Result<String, AllocError>
    requires { length kinds.now ≡ length (numbers_of numbers) }
    ensures { IfOk result (λ text. string_bytes text
        ≡ kind_lines label.now usual kinds.now (numbers_of numbers.entry)) }
{
    let mut text = String::new(alloc);
    'kinds: for (i, kind) in kinds.iter().enumerate() {
        push_kind(&mut text, label, usual, *kind, number_at(numbers, i))?;
    }
    Ok(text)
}

/// Appends those lines. It fails only if memory runs out, and then appends nothing.
pub(crate) fn push_kinds(
    alloc: Global,
    body: &mut Bytes,
    label: &str,
    usual: u64,
    kinds: &[Kind],
    numbers: Numbers,
) -> Result<(), AllocError>
    requires { length kinds.now ≡ length (numbers_of numbers) }
    ensures ok { OnOk result (body.new ≡ body.old ++ kind_lines label.now usual kinds.now (numbers_of numbers.entry)) }
    ensures err { OnErr result (body.new ≡ body.old) }
{
    let text = kinds_text(alloc, label, usual, kinds, numbers)?;
    body.push(text.as_bytes())
}
