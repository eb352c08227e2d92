ghost use Rattle.std.specs.Prelude.{◌≤◌};
ghost use Rattle.catalog.specs.declared.ships.TheConstants.{UNITS};

use std::fmt;

/// The highest speed of a universe. The lowest is 1.
pub const TOP_SPEED: u32 = 100;

/// The speed setting of a fleet, 1 to 10: tenths of the full speed. Its text is the number.
#[derive(Clone, Copy, Debug, PartialEq, Eq)]
pub struct SpeedSetting {
    pub p: u8,
    pub ghost from: { 1 ≤ p },
    pub ghost to: { p ≤ 10 },
}

/// The tenths at which a work runs, 0 to 10. Its text is the number.
#[derive(Clone, Copy, Debug, PartialEq, Eq)]
pub struct Tenths {
    pub n: u8,
    pub ghost to: { n ≤ 10 },
}

/// How many units a yard is to build, 1 to 100000. Its text is the number.
#[derive(Clone, Copy, Debug, PartialEq, Eq)]
pub struct Count {
    pub n: u32,
    pub ghost from: { 1 ≤ n },
    pub ghost to: { n ≤ UNITS },
}

impl fmt::Display for SpeedSetting {
    ghost use Rattle.std.specs.Prelude.{Some};
    ghost use Rattle.std.specs.Fmt.{decimal};

    ghost output = { λ setting. Some (decimal setting.p) };

    fn fmt<W: fmt::Write>(&self, f: &mut fmt::Formatter<W>) -> fmt::Result {
        write!(f, "{}", self.p)
    }
}

impl fmt::Display for Tenths {
    ghost use Rattle.std.specs.Prelude.{Some};
    ghost use Rattle.std.specs.Fmt.{decimal};

    ghost output = { λ tenths. Some (decimal tenths.n) };

    fn fmt<W: fmt::Write>(&self, f: &mut fmt::Formatter<W>) -> fmt::Result {
        write!(f, "{}", self.n)
    }
}

impl fmt::Display for Count {
    ghost use Rattle.std.specs.Prelude.{Some};
    ghost use Rattle.std.specs.Fmt.{decimal};

    ghost output = { λ count. Some (decimal count.n) };

    fn fmt<W: fmt::Write>(&self, f: &mut fmt::Formatter<W>) -> fmt::Result {
        write!(f, "{}", self.n)
    }
}
