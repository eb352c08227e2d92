ghost use Rattle.std.specs.Prelude.{◌≡◌, ◌≤◌, ◌∷◌, [], true, IfOk, OnOk};
ghost use Rattle.base_ids.specs.declared.numbers.TheConstants.{LAST_POSITION};
ghost use Rattle.std.specs.List.{list_any};
ghost use Rattle.base_ids.specs.Cells.{same_cell, same_player};
ghost use Rattle.base_ids.specs.declared.cell_id.CellId.TheVariants.{Account, Planet};
ghost use Rattle.request_text.specs.declared.request.Request.TheVariants.{Recall};
ghost use Rattle.tick_model.specs.Requests.{in_system};
ghost use Rattle.closure.specs.Directory.{IsAsked};
ghost use Rattle.closure.specs.Lists.{has};
ghost use Rattle.closure.specs.Naming.{AddsListed, AddsNamed};

use crate::ids::Ids;
use crate::look::CellLook;
use crate::outcome::Needed;
use crate::places::Places;
use base_ids::{CellId, Coord, FleetNumber, LAST_POSITION, Player, System};
use request_text::Request;
use std::alloc::{AllocError, Global};

/// The cells that a request asks for: the caller's account, and the cells that the request names, each if it is in the
/// directory; none if the caller is no player. A recall names the cells of the caller's fleet that flies out. The answer
/// is `Missing` exactly if the request is a recall by a player whose account isn't held, and names that account.
///
/// It fails only if memory runs out.
pub fn asked<L: CellLook>(
    alloc: Global,
    places: &Places,
    look: &L,
    player: Player,
    req: &Request,
) -> Result<Needed, AllocError>
    ensures { IfOk result (IsAsked (L.sees look.now) places.now player req.now) }
{
    let mut ids = Ids::new(alloc);
    if !places.has_player(player) {
        return Ok(Needed::Closed(ids));
    }
    ids.push(CellId::Account(player))?;
    if let Request::Recall(number) = req {
        return asked_back(alloc, places, look, player, *number, ids);
    }
    add_named(places, req, &mut ids)?;
    Ok(Needed::Closed(ids))
}

/// The cells that a player's recall asks for, of which the account is one already.
fn asked_back<L: CellLook>(
    alloc: Global,
    places: &Places,
    look: &L,
    player: Player,
    number: FleetNumber,
    mut ids: Ids,
) -> Result<Needed, AllocError>
    requires plays { list_any (same_player player) places.now.players.items ≡ true }
    requires caller { ids ≡ Account player ∷ [] }
    ensures { IfOk result (IsAsked (L.sees look.now) places.now player (Recall number)) }
{
    if !look.holds(CellId::Account(player)) {
        return Ok(Needed::Missing(ids));
    }
    let Some(flown) = look.flown(alloc, player, number)? else {
        return Ok(Needed::Closed(ids));
    };
    add_all(places, flown.as_slice(), &mut ids)?;
    Ok(Needed::Closed(ids))
}

/// Adds the cells that a request names, if it is no recall.
fn add_named(places: &Places, req: &Request, ids: &mut Ids) -> Result<(), AllocError>
    ensures { OnOk result (AddsNamed places.now req.now ids.old ids.new) }
{
    match req {
        Request::Planet(at)
        | Request::Build(at, _)
        | Request::Research(at, _)
        | Request::Yard(at, _, _)
        | Request::Set(at, _, _) => add_listed(places, CellId::Planet(*at), ids),
        Request::Send(from, to, _, _, _, _) | Request::Join(_, from, to, _, _, _) => {
            add_listed(places, CellId::Planet(*from), ids)?;
            add_listed(places, CellId::Planet(*to), ids)
        }
        Request::System(system) => add_system(places, *system, ids),
        Request::Account | Request::Fleets | Request::Recall(_) => Ok(()),
    }
}

/// Adds the planets of a system.
fn add_system(places: &Places, system: System, ids: &mut Ids) -> Result<(), AllocError>
    ensures { OnOk result (AddsListed places.now (in_system system) ids.old ids.new) }
{
    'positions: for p in 1..=LAST_POSITION {
        add_listed(places, CellId::Planet(place_in(system, p)), ids)?;
    }
    Ok(())
}

/// The place at a position of a system.
fn place_in(system: System, p: u8) -> Coord
    requires from { 1 ≤ p }
    requires to { p ≤ LAST_POSITION }
    ensures galaxy { result.g ≡ system.g }
    ensures system { result.s ≡ system.s }
    ensures position { result.p ≡ p }
{
    Coord {
        g: system.g,
        s: system.s,
        p,
    }
}

/// Adds those of some cells that are in the directory.
fn add_all(places: &Places, some: &[CellId], ids: &mut Ids) -> Result<(), AllocError>
    ensures { OnOk result (AddsListed places.now (has some.now) ids.old ids.new) }
{
    'some: for id in some {
        add_listed(places, *id, ids)?;
    }
    Ok(())
}

/// Adds a cell if it is in the directory.
#[tactic(auto, using(crate::proofs::Naming::adds))]
fn add_listed(places: &Places, id: CellId, ids: &mut Ids) -> Result<(), AllocError>
    ensures { OnOk result (AddsListed places.now (same_cell id) ids.old ids.new) }
{
    if places.has(id) {
        ids.add(id)?;
    }
    Ok(())
}
