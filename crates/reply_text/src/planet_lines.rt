ghost use Rattle.std.specs.Prelude.{◌≡◌, ◌++◌, OnErr, OnOk};
ghost use Rattle.reply_text.specs.PlanetLines.{amounts_line, debris_line, energy_line, hourly_line, level_lines, limit_line, planet_line, set_lines, stock_line, unit_lines};

use crate::kind_lines::{Numbers, push_kinds};
use crate::lines::push_line;
use crate::units::Units;
use base_ids::{Coord, Player};
use base_text::Bytes;
use catalog::{BUILDINGS, UNIT_KINDS, WORKS};
use std::alloc::{AllocError, Global};

/// What the first line of a planet shows: its place, its owner, its maximum temperature in degrees, its fields, and how
/// many of them are used.
#[derive(Clone, Copy, Debug, PartialEq, Eq)]
pub struct PlanetHead {
    pub at: Coord,
    pub owner: Player,
    pub temperature: i16,
    pub fields: u16,
    pub used: u16,
}

/// Appends `planet C K TEMPERATURE FIELDS USED`: a planet, with its maximum temperature in degrees.
///
/// It fails only if memory runs out, and then appends nothing.
#[tactic(auto, unfolding(crate::specs::Words::line))]
pub fn push_planet(alloc: Global, body: &mut Bytes, planet: PlanetHead) -> Result<(), AllocError>
    ensures ok { OnOk result (body.new ≡ body.old ++ planet_line planet) }
    ensures err { OnErr result (body.new ≡ body.old) }
{
    let PlanetHead {
        at,
        owner,
        temperature,
        fields,
        used,
    } = planet;
    push_line(
        alloc,
        body,
        format_args!("planet {at} {owner} {temperature} {fields} {used}"),
    )
}

/// Appends `NAME METAL CRYSTAL DEUTERIUM`. It fails only if memory runs out, and then appends nothing.
#[tactic(auto, unfolding(crate::specs::Words::line))]
fn push_amounts(alloc: Global, body: &mut Bytes, name: &str, units: Units) -> Result<(), AllocError>
    ensures ok { OnOk result (body.new ≡ body.old ++ amounts_line name.now units) }
    ensures err { OnErr result (body.new ≡ body.old) }
{
    push_line(alloc, body, format_args!("{name} {units}"))
}

/// Appends `stock METAL CRYSTAL DEUTERIUM`: what a planet has, in whole units.
///
/// It fails only if memory runs out, and then appends nothing.
pub fn push_stock(alloc: Global, body: &mut Bytes, units: Units) -> Result<(), AllocError>
    ensures ok { OnOk result (body.new ≡ body.old ++ stock_line units) }
    ensures err { OnErr result (body.new ≡ body.old) }
{
    push_amounts(alloc, body, "stock", units)
}

/// Appends `hourly METAL CRYSTAL DEUTERIUM`: what a planet yields, in units an hour.
///
/// It fails only if memory runs out, and then appends nothing.
pub fn push_hourly(alloc: Global, body: &mut Bytes, units: Units) -> Result<(), AllocError>
    ensures ok { OnOk result (body.new ≡ body.old ++ hourly_line units) }
    ensures err { OnErr result (body.new ≡ body.old) }
{
    push_amounts(alloc, body, "hourly", units)
}

/// Appends `limit METAL CRYSTAL DEUTERIUM`: the units up to which its production fills the stocks of a planet.
///
/// It fails only if memory runs out, and then appends nothing.
pub fn push_limit(alloc: Global, body: &mut Bytes, units: Units) -> Result<(), AllocError>
    ensures ok { OnOk result (body.new ≡ body.old ++ limit_line units) }
    ensures err { OnErr result (body.new ≡ body.old) }
{
    push_amounts(alloc, body, "limit", units)
}

/// Appends `energy GIVEN NEED`: the energy that is given and the energy that is needed on a planet.
///
/// It fails only if memory runs out, and then appends nothing.
#[tactic(auto, unfolding(crate::specs::Words::line))]
pub fn push_energy(alloc: Global, body: &mut Bytes, given: u64, need: u64) -> Result<(), AllocError>
    ensures ok { OnOk result (body.new ≡ body.old ++ energy_line given need) }
    ensures err { OnErr result (body.new ≡ body.old) }
{
    push_line(alloc, body, format_args!("energy {given} {need}"))
}

/// Appends `debris METAL CRYSTAL`: the metal and crystal in orbit, in whole units.
///
/// It fails only if memory runs out, and then appends nothing.
#[tactic(auto, unfolding(crate::specs::Words::line))]
pub fn push_debris(
    alloc: Global,
    body: &mut Bytes,
    metal: u64,
    crystal: u64,
) -> Result<(), AllocError>
    ensures ok { OnOk result (body.new ≡ body.old ++ debris_line metal crystal) }
    ensures err { OnErr result (body.new ≡ body.old) }
{
    push_line(alloc, body, format_args!("debris {metal} {crystal}"))
}

/// Appends `level BUILDING LEVEL` for each building whose level is above 0. The levels stand in the order of `BUILDINGS`,
/// and the lines come in this order.
///
/// It fails only if memory runs out, and then appends nothing.
pub fn push_levels(alloc: Global, body: &mut Bytes, levels: &[u8; 11]) -> Result<(), AllocError>
    ensures ok { OnOk result (body.new ≡ body.old ++ level_lines levels.now) }
    ensures err { OnErr result (body.new ≡ body.old) }
{
    push_kinds(alloc, body, "level", 0, &BUILDINGS, Numbers::Levels(levels))
}

/// Appends `set WORK TENTHS` for each setting other than 10. The settings, 0 to 10 tenths each, stand in the order of
/// `WORKS`, and the lines come in this order.
///
/// It fails only if memory runs out, and then appends nothing.
pub fn push_settings(alloc: Global, body: &mut Bytes, settings: &[u8; 5]) -> Result<(), AllocError>
    ensures ok { OnOk result (body.new ≡ body.old ++ set_lines settings.now) }
    ensures err { OnErr result (body.new ≡ body.old) }
{
    push_kinds(alloc, body, "set", 10, &WORKS, Numbers::Levels(settings))
}

/// Appends `units UNIT COUNT` for each kind of ship or defence of which there are any. The counts stand in the order of
/// `UNIT_KINDS`, and the lines come in this order.
///
/// It fails only if memory runs out, and then appends nothing.
pub fn push_units(alloc: Global, body: &mut Bytes, counts: &[u32; 22]) -> Result<(), AllocError>
    ensures ok { OnOk result (body.new ≡ body.old ++ unit_lines counts.now) }
    ensures err { OnErr result (body.new ≡ body.old) }
{
    push_kinds(
        alloc,
        body,
        "units",
        0,
        &UNIT_KINDS,
        Numbers::Counts(counts),
    )
}
