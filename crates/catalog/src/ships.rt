ghost use Rattle.std.specs.Prelude.{◌≡◌, IsTrue, length, nat_le, nat_lt};
ghost use Rattle.std.specs.List.{list_all, list_any};
ghost use Rattle.catalog.specs.declared.ships.TheConstants.{SHIPS, UNITS};
ghost use Rattle.std.specs.Prelude.{◌∷◌, if◌then◌else◌};
ghost use Rattle.std.specs.Fmt.{WritesOnOk};
ghost use Rattle.catalog.specs.Texts.{ship_part};

use crate::kind::Kind;
use std::fmt;

/// The most units of one kind that a request names, and of all kinds that an account has.
pub const UNITS: u32 = 100_000;

/// The kinds of ships that fly, by number.
pub const SHIPS: [Kind; 13] = [
    Kind::SmallCargo,
    Kind::LargeCargo,
    Kind::LightFighter,
    Kind::HeavyFighter,
    Kind::Cruiser,
    Kind::Battleship,
    Kind::Battlecruiser,
    Kind::Bomber,
    Kind::Destroyer,
    Kind::Deathstar,
    Kind::Recycler,
    Kind::ColonyShip,
    Kind::Probe,
];

/// The ships of a fleet: a count for each kind of `SHIPS`, in that order. There is at least one ship, and at most
/// `UNITS` of a kind. The text names the kinds that are there, as `smallcargo=2,cruiser=1`.
#[derive(Clone, Copy, Debug, PartialEq, Eq)]
pub struct Ships {
    pub n: [u32; 13],
    pub ghost kinds: { length n ≡ length SHIPS },
    pub ghost within: { IsTrue (list_all (λ count. nat_le count UNITS) n) },
    pub ghost some: { IsTrue (list_any (λ count. nat_lt 0 count) n) },
}

impl fmt::Display for Ships {
    ghost use Rattle.std.specs.Prelude.{Some};
    ghost use Rattle.catalog.specs.Texts.{ships_text};

    ghost output = { λ ships. Some (ships_text ships.n) };

    fn fmt<W: fmt::Write>(&self, f: &mut fmt::Formatter<W>) -> fmt::Result {
        let mut is_first = true;
        'ships: for (i, count) in self.n.iter().enumerate() {
            if *count == 0 {
                continue;
            }
            write_ship(f, is_first, SHIPS[i], *count)?;
            is_first = false;
        }
        Ok(())
    }
}

/// Writes one kind with its count, and a comma before it if it isn't the first.
fn write_ship<W: fmt::Write>(
    f: &mut fmt::Formatter<W>,
    is_first: bool,
    kind: Kind,
    count: u32,
) -> fmt::Result
    ensures { WritesOnOk W.write_str_gives f.old result
        (if is_first then ship_part kind count else 44 ∷ ship_part kind count) f.new }
{
    if is_first {
        write!(f, "{kind}={count}")
    } else {
        write!(f, ",{kind}={count}")
    }
}
