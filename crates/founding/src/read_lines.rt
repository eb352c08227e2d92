ghost use Rattle.std.specs.Prelude.{◌≡◌, List, ℕ, [], ◌∷◌, ◌≤◌, MatchOption};
ghost use Rattle.base_text.specs.Parts.{words};
ghost use Rattle.base_ids.specs.declared.player.Player.{Player};
ghost use Rattle.founding.specs.Lines.{heading_words, level_words, planet_words, player_words, stock_words, technology_words, units_words};
ghost use Rattle.founding.specs.Bounds.{most_units};
ghost use Rattle.catalog.specs.declared.ships.TheConstants.{UNITS};
ghost use Rattle.founding.specs.declared.heading.Heading.{Heading};
ghost use Rattle.founding.specs.declared.named.NewLevel.{NewLevel};
ghost use Rattle.founding.specs.declared.named.NewPlanet.{NewPlanet};
ghost use Rattle.founding.specs.declared.named.NewStock.{NewStock};
ghost use Rattle.founding.specs.declared.named.NewTechnology.{NewTechnology};
ghost use Rattle.founding.specs.declared.named.NewUnits.{NewUnits};

use crate::heading::Heading;
use crate::named::{MOST_FIELDS, NewLevel, NewPlanet, NewStock, NewTechnology, NewUnits};
use base_bytes::MOST_REQUESTS;
use base_ids::Player;
use base_text::{cut, is_same, number, positive_number, signed_number};
use catalog::{Amounts, Building, CAP, Class, Kind, TOP_SPEED, Technology, UNITS, Unit};
use ports::LATEST;
use rates::{COLDEST, HOTTEST};
use request_text::{coord, player};
use tick_model::Rules;

// The five words of a line that has five.
fn five_words(line: &[u8]) -> Option<(&[u8], &[u8], &[u8], &[u8], &[u8])>
    ensures { MatchOption result
        ((a b c d e : List ℕ) → words line.now ≡ a ∷ b ∷ c ∷ d ∷ e ∷ [] → ⊥)
        (λ w. words line.now ≡ w.0.now ∷ w.1.now ∷ w.2.now ∷ w.3.now ∷ w.4.now ∷ []) }
{
    let (first, rest) = cut(line, b' ')?;
    let (second, rest) = cut(rest, b' ')?;
    let (third, rest) = cut(rest, b' ')?;
    let (fourth, fifth) = cut(rest, b' ')?;
    match cut(fifth, b' ') {
        Some(_) => None,
        None => Some((first, second, third, fourth, fifth)),
    }
}

// The four words of a line that has four.
fn four_words(line: &[u8]) -> Option<(&[u8], &[u8], &[u8], &[u8])>
    ensures { MatchOption result
        ((a b c d : List ℕ) → words line.now ≡ a ∷ b ∷ c ∷ d ∷ [] → ⊥)
        (λ w. words line.now ≡ w.0.now ∷ w.1.now ∷ w.2.now ∷ w.3.now ∷ []) }
{
    let (first, rest) = cut(line, b' ')?;
    let (second, rest) = cut(rest, b' ')?;
    let (third, fourth) = cut(rest, b' ')?;
    match cut(fourth, b' ') {
        Some(_) => None,
        None => Some((first, second, third, fourth)),
    }
}

/// What a line `universe SEED SPEED CAPACITY MOMENT` says. `None` exactly if the line is no such line.
pub fn read_heading(line: &[u8]) -> Option<Heading>
    ensures { MatchOption result
        ((h : Heading) → words line.now ≡ heading_words h → ⊥)
        (λ h. words line.now ≡ heading_words h) }
{
    let (form, seed, speed, capacity, moment) = five_words(line)?;
    if !is_same(form, b"universe") {
        return None;
    }
    let seed = number(seed, u64::MAX)?;
    let speed = positive_number(speed, u64::from(TOP_SPEED))?;
    let capacity = positive_number(capacity, u64::from(MOST_REQUESTS))?;
    let moment = number(moment, LATEST)?;
    Some(Heading {
        rules: Rules {
            seed,
            speed: speed as u32,
        },
        capacity: capacity as u32,
        moment,
    })
}

/// The player that a line `player K` names. `None` exactly if the line is no such line.
pub fn read_player(line: &[u8]) -> Option<Player>
    ensures { MatchOption result
        ((k : Player) → words line.now ≡ player_words k → ⊥)
        (λ k. words line.now ≡ player_words k) }
{
    let (form, number) = cut(line, b' ')?;
    if !is_same(form, b"player") {
        return None;
    }
    player(number)
}

/// What a line `planet C K TEMPERATURE FIELDS` says. `None` exactly if the line is no such line.
pub fn read_planet(line: &[u8]) -> Option<NewPlanet>
    ensures { MatchOption result
        ((p : NewPlanet) → words line.now ≡ planet_words p → ⊥)
        (λ p. words line.now ≡ planet_words p) }
{
    let (form, place, number, temperature, fields) = five_words(line)?;
    if !is_same(form, b"planet") {
        return None;
    }
    let at = coord(place)?;
    let owner = player(number)?;
    let temperature = signed_number(temperature, COLDEST, HOTTEST)?;
    let fields = positive_number(fields, u64::from(MOST_FIELDS))?;
    Some(NewPlanet {
        at,
        owner,
        temperature,
        fields: fields as u16,
    })
}

/// What a line `stock C METAL CRYSTAL DEUTERIUM` says. `None` exactly if the line is no such line.
pub fn read_stock(line: &[u8]) -> Option<NewStock>
    ensures { MatchOption result
        ((s : NewStock) → words line.now ≡ stock_words s → ⊥)
        (λ s. words line.now ≡ stock_words s) }
{
    let (form, place, metal, crystal, deuterium) = five_words(line)?;
    if !is_same(form, b"stock") {
        return None;
    }
    let at = coord(place)?;
    let m = number(metal, CAP)?;
    let c = number(crystal, CAP)?;
    let d = number(deuterium, CAP)?;
    Some(NewStock {
        at,
        amounts: Amounts { m, c, d },
    })
}

/// What a line `level C BUILDING L` says. `None` exactly if the line is no such line.
pub fn read_level(line: &[u8]) -> Option<NewLevel>
    ensures { MatchOption result
        ((l : NewLevel) → words line.now ≡ level_words l → ⊥)
        (λ l. words line.now ≡ level_words l) }
{
    let (form, place, word, level) = four_words(line)?;
    if !is_same(form, b"level") {
        return None;
    }
    let at = coord(place)?;
    let building = Building::read(word)?;
    let level = positive_number(level, u64::from(building.kind.level_cap()))?;
    Some(NewLevel {
        at,
        building,
        level: level as u8,
    })
}

/// What a line `tech K TECH L` says. `None` exactly if the line is no such line.
pub fn read_technology(line: &[u8]) -> Option<NewTechnology>
    ensures { MatchOption result
        ((t : NewTechnology) → words line.now ≡ technology_words t → ⊥)
        (λ t. words line.now ≡ technology_words t) }
{
    let (form, number, word, level) = four_words(line)?;
    if !is_same(form, b"tech") {
        return None;
    }
    let player = player(number)?;
    let technology = Technology::read(word)?;
    let level = positive_number(level, u64::from(technology.kind.level_cap()))?;
    Some(NewTechnology {
        player,
        technology,
        level: level as u8,
    })
}

/// What a line `units C UNIT N` says. `None` exactly if the line is no such line.
pub fn read_units(line: &[u8]) -> Option<NewUnits>
    ensures { MatchOption result
        ((u : NewUnits) → words line.now ≡ units_words u → ⊥)
        (λ u. words line.now ≡ units_words u) }
{
    let (form, place, word, count) = four_words(line)?;
    if !is_same(form, b"units") {
        return None;
    }
    let at = coord(place)?;
    let unit = Unit::read(word)?;
    let count = positive_number(count, u64::from(most_units(unit)))?;
    Some(NewUnits {
        at,
        unit,
        count: count as u32,
    })
}

// How many units of a kind a line may say at most: one dome, or as many of any other kind as an account may have.
fn most_units(unit: Unit) -> u32
    ensures value { result ≡ most_units unit.kind }
    ensures within { result ≤ UNITS }
{
    match unit.kind {
        Kind::SmallDome | Kind::LargeDome => 1,
        _ => UNITS,
    }
}
