ghost use Rattle.std.specs.Prelude.{◌≡◌, ◌≤◌, ◌++◌, ◌∷◌, [], OnOk};
ghost use Rattle.std.specs.Fmt.{decimal};
ghost use Rattle.catalog.specs.Kinds.{kind_word};
ghost use Rattle.generate.specs.Counting.{each};
ghost use Rattle.generate.specs.Founded.{founded, home_lines, homes_lines, kind_lines, planet_line, player_line, stock_line, tech_lines, universe_line};
ghost use Rattle.generate.specs.declared.home.TheConstants.{PLAYERS};
ghost use Rattle.generate.specs.Homes.{home_text};
ghost use Rattle.reply_text.specs.Words.{line};

use crate::home::{Home, PLAYERS, POSITIONS};
use base_text::Bytes;
use catalog::Kind;
use std::alloc::{AllocError, Global};

/// The technologies of each player, with their levels.
const TECHS: [(Kind, u32); 3] = [
    (Kind::Combustion, 6),
    (Kind::Computer, 5),
    (Kind::Weapons, 3),
];

/// The buildings of each planet, with their levels.
const LEVELS: [(Kind, u32); 7] = [
    (Kind::MetalMine, 10),
    (Kind::CrystalMine, 8),
    (Kind::DeuteriumSynth, 5),
    (Kind::SolarPlant, 14),
    (Kind::Robotics, 4),
    (Kind::Shipyard, 6),
    (Kind::Lab, 5),
];

/// The units of each planet, with their counts.
const UNITS: [(Kind, u32); 4] = [
    (Kind::SmallCargo, 20),
    (Kind::LightFighter, 50),
    (Kind::Recycler, 5),
    (Kind::Launcher, 30),
];

/// Appends the founding part of a text. It fails only if memory runs out.
pub fn push_founding(
    alloc: Global,
    out: &mut Bytes,
    seed: u64,
    lines: u32,
) -> Result<(), AllocError>
    ensures { OnOk result (out.new ≡ out.old ++ founded seed lines) }
{
    push_universe(alloc, out, seed, lines)?;
    push_players(alloc, out)?;
    push_all_techs(alloc, out)?;
    push_all_homes(alloc, out)?;
    out.push(b".\n")
}

/// Appends `universe SEED SPEED CAPACITY MOMENT`.
#[tactic(auto, unfolding(reply_text::specs::Words::line))]
fn push_universe(alloc: Global, out: &mut Bytes, seed: u64, lines: u32) -> Result<(), AllocError>
    ensures { OnOk result (out.new ≡ out.old ++ universe_line seed lines) }
{
    let line = format!(in alloc; "universe {seed} 10 {lines} 0")?;
    out.push_line(line.as_bytes())
}

/// Appends a line for each player.
#[tactic(auto, using(crate::proofs::Continuing::counting))]
fn push_players(alloc: Global, out: &mut Bytes) -> Result<(), AllocError>
    ensures { OnOk result (out.new ≡ out.old ++ each player_line 50) }
{
    'players: for before in 0..PLAYERS {
        push_player(alloc, out, before + 1)?;
    }
    Ok(())
}

/// Appends `player K`.
#[tactic(auto, unfolding(reply_text::specs::Words::line))]
fn push_player(alloc: Global, out: &mut Bytes, player: u32) -> Result<(), AllocError>
    ensures { OnOk result (out.new ≡ out.old ++ player_line player) }
{
    let line = format!(in alloc; "player {player}")?;
    out.push_line(line.as_bytes())
}

/// Appends the technologies of each player.
#[tactic(auto, using(crate::proofs::Continuing::counting))]
fn push_all_techs(alloc: Global, out: &mut Bytes) -> Result<(), AllocError>
    ensures { OnOk result (out.new ≡ out.old ++ each tech_lines 50) }
{
    'players: for before in 0..PLAYERS {
        push_techs(alloc, out, before + 1)?;
    }
    Ok(())
}

/// Appends the technologies of a player.
fn push_techs(alloc: Global, out: &mut Bytes, player: u32) -> Result<(), AllocError>
    ensures { OnOk result (out.new ≡ out.old ++ tech_lines player) }
{
    let start = format!(in alloc; "tech {player}")?;
    push_kinds(alloc, out, &start, &TECHS)
}

/// Appends the planets of each player, with all that they have.
#[tactic(auto, using(crate::proofs::Continuing::counting))]
fn push_all_homes(alloc: Global, out: &mut Bytes) -> Result<(), AllocError>
    ensures { OnOk result (out.new ≡ out.old ++ each homes_lines 50) }
{
    'players: for before in 0..PLAYERS {
        push_homes(alloc, out, before + 1)?;
    }
    Ok(())
}

/// Appends the two planets of a player, with all that they have.
fn push_homes(alloc: Global, out: &mut Bytes, player: u32) -> Result<(), AllocError>
    requires from { 1 ≤ player }
    requires to { player ≤ PLAYERS }
    ensures { OnOk result (out.new ≡ out.old ++ homes_lines player) }
{
    let [warm, cold] = POSITIONS;
    push_home(
        alloc,
        out,
        Home {
            player,
            position: warm,
        },
        20,
    )?;
    push_home(
        alloc,
        out,
        Home {
            player,
            position: cold,
        },
        0,
    )
}

/// Appends a planet with all that it has.
fn push_home(alloc: Global, out: &mut Bytes, home: Home, temperature: u32) -> Result<(), AllocError>
    ensures { OnOk result (out.new ≡ out.old ++ home_lines (home_text home.player home.position) home.player temperature) }
{
    let at = format!(in alloc; "{}", home.coord())?;
    push_planet(alloc, out, &at, home.player, temperature)?;
    push_stock(alloc, out, &at)?;
    let start = format!(in alloc; "level {at}")?;
    push_kinds(alloc, out, &start, &LEVELS)?;
    let start = format!(in alloc; "units {at}")?;
    push_kinds(alloc, out, &start, &UNITS)
}

/// Appends `planet C K TEMPERATURE FIELDS`.
#[tactic(auto, unfolding(reply_text::specs::Words::line))]
fn push_planet(
    alloc: Global,
    out: &mut Bytes,
    at: &str,
    player: u32,
    temperature: u32,
) -> Result<(), AllocError>
    ensures { OnOk result (out.new ≡ out.old ++ planet_line at.now player temperature) }
{
    let line = format!(in alloc; "planet {at} {player} {temperature} 200")?;
    out.push_line(line.as_bytes())
}

/// Appends `stock C METAL CRYSTAL DEUTERIUM`.
#[tactic(auto, unfolding(reply_text::specs::Words::line))]
fn push_stock(alloc: Global, out: &mut Bytes, at: &str) -> Result<(), AllocError>
    ensures { OnOk result (out.new ≡ out.old ++ stock_line at.now) }
{
    let line = format!(in alloc; "stock {at} 1000000 1000000 1000000")?;
    out.push_line(line.as_bytes())
}

/// Appends `START KIND NUMBER` for each kind with its number.
fn push_kinds(
    alloc: Global,
    out: &mut Bytes,
    start: &str,
    kinds: &[(Kind, u32)],
) -> Result<(), AllocError>
    ensures { OnOk result (out.new ≡ out.old ++ kind_lines start.now kinds.now) }
{
    'kinds: for (kind, number) in kinds {
        push_kind(alloc, out, start, *kind, *number)?;
    }
    Ok(())
}

/// Appends `START KIND NUMBER`.
#[tactic(auto, unfolding(reply_text::specs::Words::line))]
fn push_kind(
    alloc: Global,
    out: &mut Bytes,
    start: &str,
    kind: Kind,
    number: u32,
) -> Result<(), AllocError>
    ensures { OnOk result (out.new ≡ out.old ++ line (start.now ∷ kind_word kind ∷ decimal number ∷ [])) }
{
    let line = format!(in alloc; "{start} {kind} {number}")?;
    out.push_line(line.as_bytes())
}
