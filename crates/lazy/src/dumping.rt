ghost use Rattle.std.specs.Prelude.{◌≡◌, [], ◌∷◌, ◌++◌, Some, IfOk, OnOk, codes, map};
ghost use Rattle.base_ids.specs.declared.cell_id.CellId.TheVariants.{Account as AccountId, Planet as PlanetId};
ghost use Rattle.closure.specs.Directory.{cells_of};
ghost use Rattle.happenings.specs.Held.{IsNamed, account_stand, planet_stand};
ghost use Rattle.fleet_rec.specs.Fleet.{fleet_seen};
ghost use Rattle.lazy.specs.Dumping.{held_text, place_of, stand_text};
ghost use Rattle.reply_text.specs.Words.{line};
ghost use Rattle.tick_model.specs.Dump.{cell_line, link_line, link_lines, other_fleets};
ghost use Rattle.tick_model.specs.Universe.{Setting};

use base_ids::{Coord, Player};
use base_text::Bytes;
use closure::{Places, Spot};
use fleet_rec::Fleet;
use happenings::{AccountCell, Held, PlanetCell};
use orders::{account_lines, own_fleet_lines, planet_lines};
use std::alloc::{AllocError, Global};
use tick_model::Rules;

/// The text of the cells of these places, as they are held, and a line `.`. It fails only if memory runs out.
#[tactic(auto, unfolding(reply_text::specs::Words::line))]
pub fn text_of(
    alloc: Global,
    rules: &Rules,
    places: &Places,
    cells: &Held,
) -> Result<Bytes, AllocError>
    ensures { IfOk result (λ text. (setting : Setting) → setting.rules ≡ rules.now → IsNamed cells.now
        → text ≡ held_text setting cells.now (cells_of places.now) ++ line (codes "." ∷ [])) }
{
    let mut text = Bytes::new(alloc);
    push_accounts(alloc, &mut text, &places.players, cells)?;
    push_planets(alloc, &mut text, rules, &places.planets, cells)?;
    text.push_line(b".")?;
    Ok(text)
}

// Appends the lines of these players' accounts, as far as they are held.
fn push_accounts(
    alloc: Global,
    text: &mut Bytes,
    players: &[Player],
    cells: &Held,
) -> Result<(), AllocError>
    ensures { OnOk result ((setting : Setting) → IsNamed cells.now → text.new ≡ text.old ++ held_text setting cells.now (map AccountId players.now)) }
{
    'players: for player in players {
        if let Some(cell) = cells.account(*player) {
            push_account(alloc, text, cell)?;
        }
    }
    Ok(())
}

// Appends the lines of the planets at these places, as far as they are held.
fn push_planets(
    alloc: Global,
    text: &mut Bytes,
    rules: &Rules,
    spots: &[Spot],
    cells: &Held,
) -> Result<(), AllocError>
    ensures { OnOk result ((setting : Setting) → setting.rules ≡ rules.now → IsNamed cells.now
        → text.new ≡ text.old ++ held_text setting cells.now (map place_of spots.now)) }
{
    'spots: for spot in spots {
        if let Some(cell) = cells.planet(spot.at) {
            push_planet(alloc, text, rules, cell)?;
        }
    }
    Ok(())
}

// Appends the lines of an account that is held.
fn push_account(alloc: Global, text: &mut Bytes, cell: &AccountCell) -> Result<(), AllocError>
    ensures { OnOk result ((setting : Setting)
        → text.new ≡ text.old ++ stand_text setting (AccountId cell.now.account.player) (Some (account_stand cell.now))) }
{
    push_account_name(alloc, text, cell.account.player, cell.second)?;
    let player = cell.account.player;
    let lines = account_lines(alloc, &cell.account, &cell.fleets)?;
    text.push(lines.as_slice())?;
    let own = own_fleet_lines(alloc, &cell.fleets, player)?;
    text.push(own.as_slice())?;
    push_other_links(alloc, text, cell.fleets.as_slice(), player)
}

// Appends the lines of a planet that is held.
fn push_planet(
    alloc: Global,
    text: &mut Bytes,
    rules: &Rules,
    cell: &PlanetCell,
) -> Result<(), AllocError>
    ensures { OnOk result ((setting : Setting) → setting.rules ≡ rules.now
        → text.new ≡ text.old ++ stand_text setting (PlanetId cell.now.planet.at) (Some (planet_stand cell.now))) }
{
    push_planet_name(alloc, text, cell.planet.at, cell.second)?;
    let lines = planet_lines(alloc, rules.speed, &cell.planet)?;
    text.push(lines.as_slice())?;
    push_links(alloc, text, cell.fleets.as_slice())
}

// Appends the line of an account's name and second.
fn push_account_name(
    alloc: Global,
    text: &mut Bytes,
    player: Player,
    second: u64,
) -> Result<(), AllocError>
    ensures { OnOk result (text.new ≡ text.old ++ cell_line (AccountId player) second) }
{
    let line = format!(in alloc; "cell account {player} at {second}")?;
    text.push_line(line.as_bytes())?;
    Ok(())
}

// Appends the line of a planet's name and second.
fn push_planet_name(
    alloc: Global,
    text: &mut Bytes,
    at: Coord,
    second: u64,
) -> Result<(), AllocError>
    ensures { OnOk result (text.new ≡ text.old ++ cell_line (PlanetId at) second) }
{
    let line = format!(in alloc; "cell planet {at} at {second}")?;
    text.push_line(line.as_bytes())?;
    Ok(())
}

// Appends a link for each of the fleets.
#[tactic(auto, using(crate::proofs::Links::next_link))]
fn push_links(alloc: Global, text: &mut Bytes, fleets: &[Fleet]) -> Result<(), AllocError>
    ensures { OnOk result (text.new ≡ text.old ++ link_lines (map fleet_seen fleets.now)) }
{
    'fleets: for fleet in fleets {
        push_link(alloc, text, fleet)?;
    }
    Ok(())
}

// Appends a link for each of the fleets that isn't the player's.
#[tactic(auto, using(crate::proofs::Links::next_other))]
fn push_other_links(
    alloc: Global,
    text: &mut Bytes,
    fleets: &[Fleet],
    player: Player,
) -> Result<(), AllocError>
    ensures { OnOk result (text.new ≡ text.old ++ link_lines (other_fleets player (map fleet_seen fleets.now))) }
{
    'fleets: for fleet in fleets {
        push_other_link(alloc, text, fleet, player)?;
    }
    Ok(())
}

// Appends the link of a fleet, if it isn't the player's.
fn push_other_link(
    alloc: Global,
    text: &mut Bytes,
    fleet: &Fleet,
    player: Player,
) -> Result<(), AllocError>
    ensures { OnOk result (text.new ≡ text.old ++ link_lines (other_fleets player (fleet_seen fleet.now ∷ []))) }
{
    if fleet.owner.k == player.k {
        return Ok(());
    }
    push_link(alloc, text, fleet)
}

// Appends the link of a fleet.
fn push_link(alloc: Global, text: &mut Bytes, fleet: &Fleet) -> Result<(), AllocError>
    ensures { OnOk result (text.new ≡ text.old ++ link_line (fleet_seen fleet.now)) }
{
    let line = format!(in alloc; "link {} {}", fleet.number, fleet.second)?;
    text.push_line(line.as_bytes())?;
    Ok(())
}
