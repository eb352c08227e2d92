ghost use Rattle.std.specs.Prelude.{◌≡◌, ℕ, ◌<◌, ◌≤◌, IfOk, MatchBool, OnErr};
ghost use Rattle.orders.specs.Acting.{Acts, AreKept};
ghost use Rattle.orders.specs.Granting.{AreCounted, AreHeld, CountsUnits, Follows, IsAtPlace, on_planet};
ghost use Rattle.orders.specs.Acting.{units_ordered};
ghost use Rattle.ports.specs.declared.clock.TheConstants.{LATEST};

use crate::errand::{Errand, Purpose};
use crate::ordering::{build, order_units, refused, research, set, show};
use crate::parts::{Acted, Parts};
use crate::recalling::recall;
use crate::sending::send;
use crate::telling::{tell_account, tell_fleets, tell_system};
use account_cell::Account;
use planet_cell::Planet;
use request_text::Request;
use std::alloc::{AllocError, Global};
use tick_model::{NO_PLANET, NO_PLAYER, NOT_YOURS, Rules};

/// Acts on a request at a moment of at most 2^40 − 1, by the parts that it asks for, and changes them.
///
/// A request that is refused changes nothing, and the number of an item or a fleet that it makes is 0. It fails only if memory
/// runs out, and then changes nothing.
pub fn act(
    alloc: Global,
    parts: &mut Parts,
    rules: &Rules,
    req: &Request,
    moment: u64,
) -> Result<Acted, AllocError>
    requires moment { moment ≤ LATEST }
    requires counted { AreCounted parts.old.caller parts.old.from }
    ensures ok { IfOk result (Acts rules.now moment req.now parts.old parts.new) }
    ensures refused { IfOk result (λ acted. 0 < acted.code → AreKept parts.old parts.new) }
    ensures err { OnErr result (AreKept parts.old parts.new) }
{
    if is_at_place(req) {
        return act_at_place(alloc, parts, rules, req, moment);
    }
    match req {
        Request::Account => tell_account(alloc, parts),
        Request::Fleets => tell_fleets(alloc, parts),
        Request::System(system) => tell_system(alloc, parts, *system),
        Request::Recall(number) => recall(alloc, parts, *number, moment),
        Request::Send(from, to, mission, setting, ships, cargo) => {
            let errand = Errand {
                from: *from,
                to: *to,
                purpose: Purpose::Flies(*mission),
                setting: *setting,
                ships: *ships,
                cargo: *cargo,
            };
            send(alloc, parts, rules, &errand, moment)
        }
        Request::Join(group, from, to, setting, ships, cargo) => {
            let errand = Errand {
                from: *from,
                to: *to,
                purpose: Purpose::Joins(*group),
                setting: *setting,
                ships: *ships,
                cargo: *cargo,
            };
            send(alloc, parts, rules, &errand, moment)
        }
        _ => unreachable!(),
    }
}

/// Whether a request is about a planet of the caller's.
fn is_at_place(req: &Request) -> bool
    ensures { MatchBool result (IsAtPlace req.now) (IsAtPlace req.now → ⊥) }
{
    matches!(
        req,
        Request::Planet(_)
            | Request::Build(_, _)
            | Request::Research(_, _)
            | Request::Yard(_, _, _)
            | Request::Set(_, _, _)
    )
}

/// Acts on a request about a planet of the caller's.
fn act_at_place(
    alloc: Global,
    parts: &mut Parts,
    rules: &Rules,
    req: &Request,
    moment: u64,
) -> Result<Acted, AllocError>
    requires place { IsAtPlace req.now }
    requires moment { moment ≤ LATEST }
    requires counted { AreCounted parts.old.caller parts.old.from }
    ensures ok { IfOk result (Acts rules.now moment req.now parts.old parts.new) }
    ensures refused { IfOk result (λ acted. 0 < acted.code → AreKept parts.old parts.new) }
    ensures err { OnErr result (AreKept parts.old parts.new) }
{
    let Some(account) = &mut parts.caller else {
        return Ok(refused(alloc, NO_PLAYER));
    };
    let Some(planet) = &mut parts.from else {
        return Ok(refused(alloc, NO_PLANET));
    };
    if planet.owner.k != account.player.k {
        return Ok(refused(alloc, NOT_YOURS));
    }
    act_on_own(alloc, account, planet, rules, req, moment)
}

/// Acts on a request about the caller's own planet.
fn act_on_own(
    alloc: Global,
    account: &mut Account,
    planet: &mut Planet,
    rules: &Rules,
    req: &Request,
    moment: u64,
) -> Result<Acted, AllocError>
    requires place { IsAtPlace req.now }
    requires own { planet.old.owner.k ≡ account.old.player.k }
    requires counted { CountsUnits account.old planet.old }
    requires moment { moment ≤ LATEST }
    ensures ok { IfOk result (Follows rules.now moment (units_ordered req.now) (on_planet req.now account.old planet.old) account.old planet.old account.new planet.new) }
    ensures refused { IfOk result (λ acted. 0 < acted.code → AreHeld account.old planet.old account.new planet.new) }
    ensures err { OnErr result (AreHeld account.old planet.old account.new planet.new) }
    ensures player { account.new.player ≡ account.old.player }
    ensures at { planet.new.at ≡ planet.old.at }
{
    match req {
        Request::Planet(_) => show(alloc, planet, rules),
        Request::Build(_, building) => build(alloc, account, planet, rules, *building, moment),
        Request::Research(_, technology) => {
            research(alloc, account, planet, rules, *technology, moment)
        }
        Request::Yard(_, unit, count) => {
            order_units(alloc, account, planet, rules, *unit, *count, moment)
        }
        Request::Set(_, work, tenths) => Ok(set(alloc, planet, *work, *tenths)),
        _ => unreachable!(),
    }
}
