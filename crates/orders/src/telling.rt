ghost use Rattle.std.specs.Prelude.{◌≡◌, ℕ, ◌≤◌, IfOk, IfSome};
ghost use Rattle.orders.specs.Acting.{Acts};
ghost use Rattle.request_text.specs.declared.request.Request.TheVariants.{Account as AccountOf, Fleets as FleetsOf, System as SystemOf};
ghost use Rattle.tick_model.specs.declared.rules.Rules.{Rules as RulesOf};

use crate::ordering::refused;
use crate::parts::{Acted, Parts};
use crate::writing::{account_lines, own_fleet_lines, system_lines};
use base_ids::System;
use std::alloc::{AllocError, Global};
use tick_model::NO_PLAYER;

/// `account`: the caller's account is shown.
pub fn tell_account(alloc: Global, parts: &Parts) -> Result<Acted, AllocError>
    ensures { IfOk result (λ acted. (rules : RulesOf) (moment : ℕ) → Acts rules moment AccountOf parts.now parts.now acted) }
{
    let Some(account) = &parts.caller else {
        return Ok(refused(alloc, NO_PLAYER));
    };
    let body = account_lines(alloc, account, &parts.fleets.caller)?;
    Ok(Acted { code: 0, body })
}

/// `fleets`: the caller's fleets are shown.
pub fn tell_fleets(alloc: Global, parts: &Parts) -> Result<Acted, AllocError>
    ensures { IfOk result (λ acted. (rules : RulesOf) (moment : ℕ) → Acts rules moment FleetsOf parts.now parts.now acted) }
{
    let Some(account) = &parts.caller else {
        return Ok(refused(alloc, NO_PLAYER));
    };
    let body = own_fleet_lines(alloc, &parts.fleets.caller, account.player)?;
    Ok(Acted { code: 0, body })
}

/// `system G:S`: the planets of the system are shown.
pub fn tell_system(alloc: Global, parts: &Parts, system: System) -> Result<Acted, AllocError>
    ensures { IfOk result (λ acted. (rules : RulesOf) (moment : ℕ) → Acts rules moment (SystemOf system) parts.now parts.now acted) }
{
    let Some(_account) = &parts.caller else {
        return Ok(refused(alloc, NO_PLAYER));
    };
    let body = system_lines(alloc, parts.seen.as_slice())?;
    Ok(Acted { code: 0, body })
}
