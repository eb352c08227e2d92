use std::fmt;

/// Whole units of metal, crystal and deuterium, without a bound. The text is `METAL CRYSTAL DEUTERIUM`.
#[derive(Clone, Copy, Debug, PartialEq, Eq)]
pub struct Units {
    pub metal: u64,
    pub crystal: u64,
    pub deuterium: u64,
}

impl fmt::Display for Units {
    ghost use Rattle.std.specs.Prelude.{Some};
    ghost use Rattle.reply_text.specs.Units.{units_text};

    ghost output = { λ units. Some (units_text units) };

    fn fmt<W: fmt::Write>(&self, f: &mut fmt::Formatter<W>) -> fmt::Result {
        write!(f, "{} {} {}", self.metal, self.crystal, self.deuterium)
    }
}
