ghost use Rattle.std.specs.Prelude.{◌≡◌, ◌++◌, map, OnOk};
ghost use Rattle.account_cell.specs.Account.{research_item};
ghost use Rattle.base_ids.specs.declared.coord.Coord.{Coord};
ghost use Rattle.base_ids.specs.declared.player.Player.{Player};
ghost use Rattle.planet_cell.specs.Planet.{batch_item_of, item_of};
ghost use Rattle.tick_model.specs.Lines.{queue_lines, waiting_lines};
ghost use Rattle.tick_model.specs.Universe.{Buildings, Researches, Yard};

use account_cell::ResearchItem;
use base_text::Bytes;
use planet_cell::{Batch, BuildingItem};
use reply_text::{
    RunningBatch, RunningBuilding, RunningResearch, push_building, push_research,
    push_waiting_building, push_waiting_research, push_yard, push_yard_waiting,
};
use std::alloc::{AllocError, Global};

/// Appends the lines of a building queue: of the building that runs, and of those that wait.
pub fn push_buildings(
    alloc: Global,
    body: &mut Bytes,
    items: &[BuildingItem],
) -> Result<(), AllocError>
    ensures { OnOk result ((at : Coord) → body.new ≡ body.old ++ queue_lines Buildings (map (item_of at) items.now)) }
{
    let Some((first, later)) = items.split_first() else {
        return Ok(());
    };
    let running = RunningBuilding {
        number: first.number,
        kind: first.kind.kind,
        level: first.level,
        second: first.second,
    };
    push_building(alloc, body, running)?;
    push_waiting_buildings(alloc, body, later)
}

/// Appends a line for each building that waits.
#[tactic(auto, using(crate::proofs::Listing::next_building))]
fn push_waiting_buildings(
    alloc: Global,
    body: &mut Bytes,
    items: &[BuildingItem],
) -> Result<(), AllocError>
    ensures { OnOk result ((at : Coord) → body.new ≡ body.old ++ waiting_lines Buildings (map (item_of at) items.now)) }
{
    'items: for item in items {
        push_waiting_building(alloc, body, item.number, item.kind.kind)?;
    }
    Ok(())
}

/// Appends the lines of a yard: of the batch whose units are built, and of those that wait.
pub fn push_batches(alloc: Global, body: &mut Bytes, batches: &[Batch]) -> Result<(), AllocError>
    ensures { OnOk result ((at : Coord) → body.new ≡ body.old ++ queue_lines Yard (map (batch_item_of at) batches.now)) }
{
    let Some((first, later)) = batches.split_first() else {
        return Ok(());
    };
    let running = RunningBatch {
        number: first.number,
        kind: first.kind.kind,
        left: first.left,
        second: first.second,
    };
    push_yard(alloc, body, running)?;
    push_waiting_batches(alloc, body, later)
}

/// Appends a line for each batch that waits.
#[tactic(auto, using(crate::proofs::Listing::next_batch))]
fn push_waiting_batches(
    alloc: Global,
    body: &mut Bytes,
    batches: &[Batch],
) -> Result<(), AllocError>
    ensures { OnOk result ((at : Coord) → body.new ≡ body.old ++ waiting_lines Yard (map (batch_item_of at) batches.now)) }
{
    'batches: for batch in batches {
        push_yard_waiting(alloc, body, batch.number, batch.kind.kind, batch.left)?;
    }
    Ok(())
}

/// Appends the lines of a research queue: of the technology that is researched, and of those that wait.
pub fn push_researches(
    alloc: Global,
    body: &mut Bytes,
    items: &[ResearchItem],
) -> Result<(), AllocError>
    ensures { OnOk result ((player : Player) → body.new ≡ body.old ++ queue_lines Researches (map (research_item player) items.now)) }
{
    let Some((first, later)) = items.split_first() else {
        return Ok(());
    };
    let running = RunningResearch {
        number: first.number,
        kind: first.kind.kind,
        level: first.level,
        second: first.second,
        at: first.at,
    };
    push_research(alloc, body, running)?;
    push_waiting_researches(alloc, body, later)
}

/// Appends a line for each technology that waits.
#[tactic(auto, using(crate::proofs::Listing::next_research))]
fn push_waiting_researches(
    alloc: Global,
    body: &mut Bytes,
    items: &[ResearchItem],
) -> Result<(), AllocError>
    ensures { OnOk result ((player : Player) → body.new ≡ body.old ++ waiting_lines Researches (map (research_item player) items.now)) }
{
    'items: for item in items {
        push_waiting_research(alloc, body, item.number, item.kind.kind, item.at)?;
    }
    Ok(())
}
