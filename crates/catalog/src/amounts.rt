ghost use Rattle.std.specs.Prelude.{◌≤◌};
ghost use Rattle.catalog.specs.declared.amounts.TheConstants.{CAP};

use std::fmt;

/// The most units of a resource that a stock, a cargo or a cost can have.
pub const CAP: u64 = 4_000_000_000_000;

/// Units of metal, crystal and deuterium, each at most `CAP`. The text is `METAL CRYSTAL DEUTERIUM`.
#[derive(Clone, Copy, Debug, PartialEq, Eq)]
pub struct Amounts {
    pub m: u64,
    pub c: u64,
    pub d: u64,
    pub ghost metal: { m ≤ CAP },
    pub ghost crystal: { c ≤ CAP },
    pub ghost deuterium: { d ≤ CAP },
}

impl fmt::Display for Amounts {
    ghost use Rattle.std.specs.Prelude.{Some};
    ghost use Rattle.catalog.specs.Texts.{amounts_text};

    ghost output = { λ amounts. Some (amounts_text amounts) };

    fn fmt<W: fmt::Write>(&self, f: &mut fmt::Formatter<W>) -> fmt::Result {
        write!(f, "{} {} {}", self.m, self.c, self.d)
    }
}
