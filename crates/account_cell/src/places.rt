ghost use Rattle.std.specs.Prelude.{◌≡◌, ◌<◌};
ghost use Rattle.catalog.specs.Kinds.{place_in};
ghost use Rattle.catalog.specs.declared.classes.TheConstants.{TECHNOLOGIES};

use catalog::{Kind, Technology};

/// The place of a technology in the order of `catalog::TECHNOLOGIES`, counted from 0.
pub fn place_of(technology: Technology) -> usize
    ensures value { result ≡ place_in TECHNOLOGIES technology.kind }
    ensures within { result < 14 }
{
    usize::from(technology.kind.number() - Kind::Energy.number())
}
