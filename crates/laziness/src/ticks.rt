ghost use Rattle.laziness.specs.Laws.{ModelLaws};
ghost use Rattle.laziness.specs.Model.{Model};

use std::marker::Brand;

/// A ticking model that meets the laws, for each setting.
///
/// Whoever has such a model calls the laws of this crate with `Brand`, and picks the three members in the proof of the call.
pub trait Ticking {
    /// What never changes, as rules and the names of the cells.
    ghost Setting: { Type 0 };

    /// The model for a setting.
    ghost model: { Setting → Model };

    /// It meets the laws.
    ghost laws: { (setting : Setting) → ModelLaws (model setting) };
}

/// There is no setting until a call picks one.
impl Ticking for Brand {
    ghost Setting = { ⊥ };

    ghost model = { λ none. absurd none };

    ghost laws = { λ none. absurd none };
}
