// The words of a request after the first, read one by one.
ghost use Rattle.std.specs.Prelude.{◌≡◌, ◌≤◌, ◌∷◌, ℕ, List, MatchOption};
ghost use Rattle.std.specs.Fmt.{decimal};
ghost use Rattle.base_ids.specs.Text.{coord_text};
ghost use Rattle.base_ids.specs.declared.coord.Coord.{Coord};
ghost use Rattle.catalog.specs.declared.amounts.Amounts.{Amounts};
ghost use Rattle.catalog.specs.declared.amounts.TheConstants.{CAP};
ghost use Rattle.catalog.specs.declared.settings.SpeedSetting.{SpeedSetting};
ghost use Rattle.catalog.specs.declared.ships.Ships.{Ships};
ghost use Rattle.request_text.specs.Flights.{flight_words};

use crate::coordinates::{coord, system};
use crate::ship_counts::ships;
use base_ids::{Coord, FleetNumber, LAST_NUMBER, System};
use base_text::{Parts, number, positive_number};
use catalog::{
    Amounts, Building, CAP, Class, Count, Mission, Ships, SpeedSetting, Technology, Tenths, UNITS,
    Unit, Work,
};

/// What one word spells.
pub trait OneWord: Sized {
    // the word of a value
    ghost spelling: { Self → List ℕ };

    /// The value that a word spells. `None` exactly if it spells none.
    fn of_word(word: &[u8]) -> Option<Self>
        ensures { MatchOption result
            ((value : Self) → word.now ≡ spelling value → ⊥)
            (λ value. word.now ≡ spelling value) };
}

/// Takes the next word as a value. `None` exactly if it spells none.
pub fn next<T: OneWord>(words: &mut Parts) -> Option<T>
    ensures { MatchOption result
        ((value : T) (more : List (List ℕ)) → words.old ≡ T.spelling value ∷ more → ⊥)
        (λ value. words.old ≡ T.spelling value ∷ words.new) }
{
    let word = words.next()?;
    T::of_word(word)
}

impl OneWord for Coord {
    ghost use Rattle.base_ids.specs.Text.{coord_text};

    ghost spelling = { coord_text };

    fn of_word(word: &[u8]) -> Option<Coord> {
        coord(word)
    }
}

impl OneWord for System {
    ghost use Rattle.base_ids.specs.Text.{system_text};

    ghost spelling = { system_text };

    fn of_word(word: &[u8]) -> Option<System> {
        system(word)
    }
}

impl OneWord for FleetNumber {
    ghost use Rattle.std.specs.Fmt.{decimal};

    ghost spelling = { λ fleet. decimal fleet.f };

    fn of_word(word: &[u8]) -> Option<FleetNumber> {
        let f = positive_number(word, LAST_NUMBER)?;
        Some(FleetNumber { f })
    }
}

impl OneWord for Building {
    ghost use Rattle.catalog.specs.Kinds.{kind_word};

    ghost spelling = { λ building. kind_word building.kind };

    fn of_word(word: &[u8]) -> Option<Building> {
        Building::read(word)
    }
}

impl OneWord for Technology {
    ghost use Rattle.catalog.specs.Kinds.{kind_word};

    ghost spelling = { λ technology. kind_word technology.kind };

    fn of_word(word: &[u8]) -> Option<Technology> {
        Technology::read(word)
    }
}

impl OneWord for Unit {
    ghost use Rattle.catalog.specs.Kinds.{kind_word};

    ghost spelling = { λ unit. kind_word unit.kind };

    fn of_word(word: &[u8]) -> Option<Unit> {
        Unit::read(word)
    }
}

impl OneWord for Work {
    ghost use Rattle.catalog.specs.Kinds.{kind_word};

    ghost spelling = { λ work. kind_word work.kind };

    fn of_word(word: &[u8]) -> Option<Work> {
        Work::read(word)
    }
}

impl OneWord for Mission {
    ghost use Rattle.catalog.specs.Missions.{mission_word};

    ghost spelling = { mission_word };

    fn of_word(word: &[u8]) -> Option<Mission> {
        Mission::read(word)
    }
}

impl OneWord for Count {
    ghost use Rattle.std.specs.Fmt.{decimal};

    ghost spelling = { λ count. decimal count.n };

    fn of_word(word: &[u8]) -> Option<Count> {
        let n = positive_number(word, u64::from(UNITS))?;
        Some(Count { n: n as u32 })
    }
}

impl OneWord for Tenths {
    ghost use Rattle.std.specs.Fmt.{decimal};

    ghost spelling = { λ tenths. decimal tenths.n };

    fn of_word(word: &[u8]) -> Option<Tenths> {
        let n = number(word, 10)?;
        Some(Tenths { n: n as u8 })
    }
}

impl OneWord for SpeedSetting {
    ghost use Rattle.std.specs.Fmt.{decimal};

    ghost spelling = { λ setting. decimal setting.p };

    fn of_word(word: &[u8]) -> Option<SpeedSetting> {
        let p = positive_number(word, 10)?;
        Some(SpeedSetting { p: p as u8 })
    }
}

impl OneWord for Ships {
    ghost use Rattle.catalog.specs.Texts.{ships_text};

    ghost spelling = { λ ships. ships_text ships.n };

    fn of_word(word: &[u8]) -> Option<Ships> {
        ships(word)
    }
}

/// Takes an amount of one resource. `None` exactly if the next word spells none up to `CAP`.
fn next_amount(words: &mut Parts) -> Option<u64>
    ensures { MatchOption result
        ((n : ℕ) (more : List (List ℕ)) → n ≤ CAP → words.old ≡ decimal n ∷ more → ⊥)
        (λ n. (n ≤ CAP) × (words.old ≡ decimal n ∷ words.new)) }
{
    let word = words.next()?;
    let n = number(word, CAP)?;
    Some(n)
}

/// Takes amounts of metal, crystal and deuterium, which are three words. `None` exactly if the next words spell none.
pub fn next_amounts(words: &mut Parts) -> Option<Amounts>
    ensures { MatchOption result
        ((cargo : Amounts) (more : List (List ℕ)) → words.old ≡ decimal cargo.m ∷ decimal cargo.c ∷ decimal cargo.d ∷ more → ⊥)
        (λ cargo. words.old ≡ decimal cargo.m ∷ decimal cargo.c ∷ decimal cargo.d ∷ words.new) }
{
    let m = next_amount(words)?;
    let c = next_amount(words)?;
    let d = next_amount(words)?;
    Some(Amounts { m, c, d })
}

/// Takes where a fleet leaves and where it flies. `None` exactly if the next two words are not two coordinates.
pub fn next_route(words: &mut Parts) -> Option<(Coord, Coord)>
    ensures { MatchOption result
        ((from to : Coord) (more : List (List ℕ)) → words.old ≡ coord_text from ∷ coord_text to ∷ more → ⊥)
        (λ route. words.old ≡ coord_text route.0 ∷ coord_text route.1 ∷ words.new) }
{
    let from = next(words)?;
    let to = next(words)?;
    Some((from, to))
}

/// Takes the speed setting, the ships and the cargo of a fleet, which are five words. `None` exactly if the next words
/// spell none.
pub fn next_flight(words: &mut Parts) -> Option<(SpeedSetting, Ships, Amounts)>
    ensures { MatchOption result
        ((setting : SpeedSetting) (ships : Ships) (cargo : Amounts) (more : List (List ℕ))
        → words.old ≡ flight_words setting ships cargo more → ⊥)
        (λ flight. words.old ≡ flight_words flight.0 flight.1 flight.2 words.new) }
{
    let setting = next(words)?;
    let ships = next(words)?;
    let cargo = next_amounts(words)?;
    Some((setting, ships, cargo))
}
