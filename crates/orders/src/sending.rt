ghost use Rattle.std.specs.Prelude.{◌≡◌, ℕ, ◌<◌, ◌≤◌, IfOk, IsTrue, OnErr};
ghost use Rattle.account_cell.specs.Account.{account_fields};
ghost use Rattle.orders.specs.Acting.{Acts, AreKept};
ghost use Rattle.orders.specs.Sending.{company_seen, errand_seen, own_of, refusal_in, sends_for};
ghost use Rattle.planet_cell.specs.Freight.{load_cost};
ghost use Rattle.ports.specs.declared.clock.TheConstants.{LATEST};
ghost use Rattle.reply_text.specs.OrderLines.{arrives_line};
ghost use Rattle.tick_model.specs.Requests.{owner_there};
ghost use Rattle.tick_model.specs.Sending.{load_of};

use crate::company::Company;
use crate::errand::Errand;
use crate::joining::company_of;
use crate::links::joined;
use crate::ordering::refused;
use crate::parts::{Acted, Parts};
use crate::writing::slots;
use account_cell::Account;
use base_ids::Player;
use base_text::Bytes;
use fleet_rec::Fleets;
use planet_cell::Planet;
use reply_text::push_arrives;
use std::alloc::{AllocError, Global};
use tick_model::{
    BAD_MISSION, GROUP_FULL, MOST_IN_GROUP, NO_FLEET, NO_PLANET, NO_PLAYER, NO_ROOM, NO_SHIPS,
    NO_SLOT, NOT_YOURS, POOR, Rules, TOO_LATE,
};

/// Why a fleet can't leave in this company, by an account with these fleets, from its planet to another, if it would arrive at a
/// second if it joined nobody: the code of the first reason that there is, or 0 if there is none.
///
/// The reasons are, in this order: `tick_model::NO_FLEET`, `GROUP_FULL`, `NO_SHIPS`, `BAD_MISSION`, `NO_SLOT`, `TOO_LATE`, `NO_ROOM`
/// and `POOR`.
#[tactic(auto, unfolding(crate::specs::Sending::refusal_in, tick_model::specs::Sending::has_room))]
fn refusal_in(
    company: &Company,
    second: u64,
    account: &Account,
    fleets: &Fleets,
    planet: &Planet,
    to: &Option<Planet>,
    errand: &Errand,
) -> u8
    ensures { result ≡ refusal_in (company_seen company.now) second account.now fleets.now planet.now to.now errand.now }
{
    if company.is_missing {
        return NO_FLEET;
    }
    if company.others >= MOST_IN_GROUP {
        return GROUP_FULL;
    }
    let load = errand.load(account);
    if !planet.has_ships(&errand.ships) {
        return NO_SHIPS;
    }
    if !errand.can_go(account.player, to) {
        return BAD_MISSION;
    }
    if fleets.count_of(account.player) >= slots(account) as usize {
        return NO_SLOT;
    }
    if company.second < second {
        return TOO_LATE;
    }
    if !errand.has_room(load) {
        return NO_ROOM;
    }
    if !planet.can_pay_load(load) {
        return POOR;
    }
    0
}

/// Whose the target is: the player's, if no planet stands there.
fn owner_there(player: Player, to: &Option<Planet>) -> Player
    ensures { result ≡ owner_there player (own_of to.now) }
{
    match to {
        Some(planet) => planet.owner,
        None => player,
    }
}

/// The line that tells when a fleet arrives, and what it burns.
fn arrival(alloc: Global, second: u64, fuel: u64) -> Result<Bytes, AllocError>
    ensures { IfOk result (λ body. body ≡ arrives_line second fuel) }
{
    let mut body = Bytes::new(alloc);
    push_arrives(alloc, &mut body, second, fuel)?;
    Ok(body)
}

/// `send A B MISSION SETTING SHIPS CARGO` and `join GROUP A B SETTING SHIPS CARGO`: a fleet leaves the caller's own planet.
///
/// It fails only if memory runs out, and the parts then stay as they were: the fleet joins copies of their fleets.
pub fn send(
    alloc: Global,
    parts: &mut Parts,
    rules: &Rules,
    errand: &Errand,
    moment: u64,
) -> Result<Acted, AllocError>
    requires { moment ≤ LATEST }
    ensures ok { IfOk result (Acts rules.now moment (sends_for errand.now) parts.old parts.new) }
    ensures refused { IfOk result (λ acted. 0 < acted.code → AreKept parts.old parts.new) }
    ensures err { OnErr result (AreKept parts.old parts.new) }
{
    let Some(account) = &parts.caller else {
        return Ok(refused(alloc, NO_PLAYER));
    };
    let Some(planet) = &mut parts.from else {
        return Ok(refused(alloc, NO_PLANET));
    };
    if planet.owner.k != account.player.k {
        return Ok(refused(alloc, NOT_YOURS));
    }
    let (to, fleets) = (&parts.to, &parts.fleets);
    let second = errand.arrival(account, rules, moment);
    let company = company_of(errand, to, fleets, second);
    let code = refusal_in(
        &company,
        second,
        account,
        &fleets.caller,
        planet,
        to,
        errand,
    );
    if code > 0 {
        return Ok(refused(alloc, code));
    }
    let owner = owner_there(account.player, to);
    let fleet = errand.launched(account.player, owner, moment, &company);
    let body = arrival(alloc, company.second, errand.fuel(account))?;
    let linked = joined(alloc, account, &parts.to_owner, fleets, errand, fleet)?;
    planet.depart(errand.load(account), &errand.ships);
    parts.fleets = linked;
    Ok(Acted { code: 0, body })
}
