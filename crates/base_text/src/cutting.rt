ghost use Rattle.std.specs.Prelude.{◌≡◌, ◌↔◌, ℕ, ◌<◌, [], ◌∷◌, length, IsTrue, MatchOption, IfSome, option_copied, slice_get};
ghost use Rattle.std.specs.Str.Lines.{lines, strip_carriage_return};
ghost use Rattle.base_text.specs.Parts.{parts, words};

/// What stands before the first `separator` of the text, and what stands after it. `None` exactly if
/// the text has no `separator`.
#[tactic(auto, using(crate::proofs::Splitting::cut_none))]
pub fn cut(text: &[u8], separator: u8) -> Option<(&[u8], &[u8])>
    ensures split { MatchOption result
        (parts separator text.now ≡ text.now ∷ [])
        (λ f. parts separator text.now ≡ f.0.now ∷ parts separator f.1.now) }
    ensures shorter { IfSome result (λ f. length f.1.now < length text.now) }
{
    let at = text.iter().position(|byte| *byte == separator)?;
    Some((&text[..at], &text[at + 1..]))
}

/// The word of the line at place `k`, counted from 0. Words stand between spaces, so two spaces
/// side by side have an empty word between them. `None` exactly if the line has at most `k` words.
pub fn word(line: &[u8], k: usize) -> Option<&[u8]>
    ensures { option_copied result ≡ slice_get (words line.now) k }
{
    line.split(|byte| *byte == b' ').nth(k)
}

/// Whether two texts have the same bytes.
pub fn is_same(text: &[u8], other: &[u8]) -> bool
    ensures { IsTrue result ↔ (text.now ≡ other.now) }
{
    text == other
}
