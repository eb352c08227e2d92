ghost use Rattle.std.specs.Prelude.{◌≤◌};
ghost use Rattle.base_ids.specs.declared.numbers.TheConstants.{LAST_NUMBER};

use std::fmt;

/// The number of a fleet, which is that of the request that sent it: 1 to `LAST_NUMBER`. Its text is the number.
#[derive(Clone, Copy, Debug, PartialEq, Eq, PartialOrd, Ord)]
pub struct FleetNumber {
    pub f: u64,
    pub ghost from: { 1 ≤ f },
    pub ghost to: { f ≤ LAST_NUMBER },
}

impl fmt::Display for FleetNumber {
    ghost use Rattle.std.specs.Prelude.{Some};
    ghost use Rattle.std.specs.Fmt.{decimal};

    ghost output = { λ fleet. Some (decimal fleet.f) };

    fn fmt<W: fmt::Write>(&self, f: &mut fmt::Formatter<W>) -> fmt::Result {
        write!(f, "{}", self.f)
    }
}
