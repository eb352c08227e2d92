ghost use Rattle.std.specs.Prelude.{◌≡◌};
ghost use Rattle.catalog.specs.Technologies.{level_in};

use crate::classes::Technology;
use crate::kind::Kind;

/// The levels of an account's technologies, 0 to 20 each, in the order of `TECHNOLOGIES`.
#[derive(Clone, Copy, Debug, PartialEq, Eq)]
pub struct Techs {
    pub n: [u8; 14],
}

impl Techs {
    /// The level of this technology.
    pub fn level(&self, technology: Technology) -> u8
        ensures { result ≡ level_in self.now.n technology.kind }
    {
        self.n[usize::from(technology.kind.number() - Kind::Energy.number())]
    }
}
