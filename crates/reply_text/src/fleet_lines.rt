ghost use Rattle.std.specs.Prelude.{◌≡◌, ◌∷◌, ◌++◌, IfOk, OnErr, OnOk, if◌then◌else◌, string_bytes};
ghost use Rattle.std.specs.List.{join_with_byte};
ghost use Rattle.catalog.specs.Texts.{ship_part, ships_text};
ghost use Rattle.reply_text.specs.FleetLines.{at_line, course_words, fleet_line, state_words};

use crate::lines::push_line;
use crate::units::Units;
use base_ids::{Coord, Player};
use base_text::Bytes;
use catalog::{Kind, Mission, SHIPS};
use std::alloc::{AllocError, Global};
use std::fmt;

/// Whether a fleet flies out or back.
#[derive(Clone, Copy, Debug, PartialEq, Eq)]
pub enum Stage {
    /// It flies to its target.
    Out,
    /// It is on its way back.
    Back,
}

impl fmt::Display for Stage {
    ghost use Rattle.std.specs.Prelude.{Some};
    ghost use Rattle.reply_text.specs.FleetLines.{stage_word};

    ghost output = { λ stage. Some (stage_word stage) };

    fn fmt<W: fmt::Write>(&self, f: &mut fmt::Formatter<W>) -> fmt::Result {
        match self {
            Stage::Out => write!(f, "out"),
            Stage::Back => write!(f, "back"),
        }
    }
}

/// What the line of a fleet shows: its number; its group, which is its own number if it joined nobody; its mission; its
/// origin and its target; its stage; the second at which it arrives or is back; its cargo; and its ships, a count for
/// each kind of `SHIPS`.
#[derive(Clone, Copy, Debug, PartialEq, Eq)]
pub struct FleetLine {
    pub number: u64,
    pub group: u64,
    pub mission: Mission,
    pub from: Coord,
    pub to: Coord,
    pub stage: Stage,
    pub second: u64,
    pub cargo: Units,
    pub ships: [u32; 13],
}

/// The text of ships: `UNIT=COUNT` for each kind that is there, joined by commas.
fn ships_text(alloc: Global, counts: &[u32; 13]) -> Result<String, AllocError>
    ensures { IfOk result (λ text. string_bytes text ≡ ships_text counts.now) }
{
    let mut text = String::new(alloc);
    let mut is_first = true;
    'ships: for (i, count) in counts.iter().enumerate() {
        if *count == 0 {
            continue;
        }
        push_ship(&mut text, is_first, SHIPS[i], *count)?;
        is_first = false;
    }
    Ok(text)
}

/// Appends one kind of ships with its count, and a comma before it if it isn't the first.
fn push_ship(text: &mut String, is_first: bool, kind: Kind, count: u32) -> Result<(), AllocError>
    ensures { OnOk result (string_bytes text.new ≡ string_bytes text.old
        ++ (if is_first then ship_part kind count else 44 ∷ ship_part kind count)) }
{
    if is_first {
        write!(text, "{kind}={count}")
    } else {
        write!(text, ",{kind}={count}")
    }
}

/// `F GROUP MISSION A B`.
fn course_text(alloc: Global, fleet: &FleetLine) -> Result<String, AllocError>
    ensures { IfOk result (λ text. string_bytes text ≡ join_with_byte 32 (course_words fleet.now)) }
{
    let FleetLine {
        number,
        group,
        mission,
        from,
        to,
        ..
    } = *fleet;
    format!(in alloc; "{number} {group} {mission} {from} {to}")
}

/// `STAGE SECOND METAL CRYSTAL DEUTERIUM SHIPS`.
fn state_text(alloc: Global, fleet: &FleetLine) -> Result<String, AllocError>
    ensures { IfOk result (λ text. string_bytes text ≡ join_with_byte 32 (state_words fleet.now)) }
{
    let FleetLine {
        stage,
        second,
        cargo,
        ..
    } = *fleet;
    let ships = ships_text(alloc, &fleet.ships)?;
    format!(in alloc; "{stage} {second} {cargo} {ships}")
}

/// Appends `fleet F GROUP MISSION A B STAGE SECOND METAL CRYSTAL DEUTERIUM SHIPS`: a fleet.
///
/// It fails only if memory runs out, and then appends nothing.
pub fn push_fleet(alloc: Global, body: &mut Bytes, fleet: &FleetLine) -> Result<(), AllocError>
    ensures ok { OnOk result (body.new ≡ body.old ++ fleet_line fleet.now) }
    ensures err { OnErr result (body.new ≡ body.old) }
{
    let course = course_text(alloc, fleet)?;
    let state = state_text(alloc, fleet)?;
    push_line(alloc, body, format_args!("fleet {course} {state}"))
}

/// Appends `at C K METAL CRYSTAL`: a planet of a system, and the metal and crystal in its orbit, in whole units. A system lists
/// its planets in the order of their coordinates.
///
/// It fails only if memory runs out, and then appends nothing.
#[tactic(auto, unfolding(crate::specs::Words::line))]
pub fn push_at(
    alloc: Global,
    body: &mut Bytes,
    at: Coord,
    owner: Player,
    metal: u64,
    crystal: u64,
) -> Result<(), AllocError>
    ensures ok { OnOk result (body.new ≡ body.old ++ at_line at owner metal crystal) }
    ensures err { OnErr result (body.new ≡ body.old) }
{
    push_line(
        alloc,
        body,
        format_args!("at {at} {owner} {metal} {crystal}"),
    )
}
