ghost use Rattle.std.specs.Prelude.{◌≡◌, ◌↔◌, List, ℕ, [], ◌∷◌, IsTrue, MatchOption, option_copied};
ghost use Rattle.base_text.specs.Parts.{parts, parts_of};

use crate::cutting::cut;
use std::marker::Model;

/// A part of a text, and the text after the separator behind it, if there is one.
#[derive(Clone, Copy)]
struct Piece<'a> {
    part: &'a [u8],
    rest: Option<&'a [u8]>,
}

/// The first part of the text.
fn first_piece(text: &[u8], separator: u8) -> Piece<'_>
    ensures { parts separator text.now ≡ result.part.now ∷ parts_of separator (option_copied result.rest) }
{
    match cut(text, separator) {
        Some((part, rest)) => Piece {
            part,
            rest: Some(rest),
        },
        None => Piece {
            part: text,
            rest: None,
        },
    }
}

/// Goes through the parts of a text between its separators, each byte once. Contracts see it as the list of the parts
/// that are left.
#[derive(Drop)]
pub struct Parts<'a> {
    piece: Option<Piece<'a>>,
    separator: u8,
}

impl<'a> Model for Parts<'a> {
    ghost use Rattle.std.specs.Prelude.{List, ℕ};
    ghost use Rattle.base_text.specs.Pieces.{pieces};

    ghost Value = { List (List ℕ) };

    ghost view = { λ p. pieces p.separator p.piece };
}

impl<'a> Parts<'a> {
    /// All parts of the text. A text without the separator is one part.
    pub fn new(text: &'a [u8], separator: u8) -> Parts<'a>
        ensures { result ≡ parts separator text.now }
    {
        Parts {
            piece: Some(first_piece(text, separator)),
            separator,
        }
    }

    /// The next part, which stays. `None` exactly if none is left.
    pub fn peek(&self) -> Option<&'a [u8]>
        ensures { MatchOption result
            (self.now ≡ [])
            (λ part. (rest : List (List ℕ)) × (self.now ≡ part.now ∷ rest)) }
    {
        Some(self.piece?.part)
    }

    /// Takes the next part. `None` exactly if none is left.
    pub fn next(&mut self) -> Option<&'a [u8]>
        ensures { MatchOption result
            ((self.old ≡ []) × (self.new ≡ []))
            (λ part. self.old ≡ part.now ∷ self.new) }
    {
        let piece = self.piece?;
        let separator = self.separator;
        self.piece = piece.rest.map(|text| first_piece(text, separator));
        Some(piece.part)
    }

    /// Whether no part is left.
    pub fn is_at_end(&self) -> bool
        ensures { IsTrue result ↔ (self.now ≡ []) }
    {
        self.piece.is_none()
    }
}
