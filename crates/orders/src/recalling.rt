ghost use Rattle.std.specs.Prelude.{◌≡◌, ◌<◌, ◌≤◌, IfOk, OnErr};
ghost use Rattle.orders.specs.Acting.{Acts, AreKept};
ghost use Rattle.ports.specs.declared.clock.TheConstants.{LATEST};
ghost use Rattle.reply_text.specs.OrderLines.{back_line};
ghost use Rattle.request_text.specs.declared.request.Request.TheVariants.{Recall};
ghost use Rattle.tick_model.specs.declared.rules.Rules.{Rules as RulesOf};

use crate::links::call_back;
use crate::ordering::refused;
use crate::parts::{Acted, Parts};
use base_ids::FleetNumber;
use base_text::Bytes;
use reply_text::push_back;
use std::alloc::{AllocError, Global};
use tick_model::{NO_FLEET, NO_PLAYER, NOT_OUTBOUND};

/// The line that tells when a fleet is back.
fn return_line(alloc: Global, second: u64) -> Result<Bytes, AllocError>
    ensures { IfOk result (λ body. body ≡ back_line second) }
{
    let mut body = Bytes::new(alloc);
    push_back(alloc, &mut body, second)?;
    Ok(body)
}

/// `recall F`: the caller's fleet turns back, with what it has.
///
/// It fails only if memory runs out, and the parts then stay as they were.
pub fn recall(
    alloc: Global,
    parts: &mut Parts,
    number: FleetNumber,
    moment: u64,
) -> Result<Acted, AllocError>
    requires { moment ≤ LATEST }
    ensures ok { IfOk result (λ acted. (rules : RulesOf) → Acts rules moment (Recall number) parts.old parts.new acted) }
    ensures refused { IfOk result (λ acted. 0 < acted.code → AreKept parts.old parts.new) }
    ensures err { OnErr result (AreKept parts.old parts.new) }
{
    let Some(account) = &parts.caller else {
        return Ok(refused(alloc, NO_PLAYER));
    };
    let Some(fleet) = parts.fleets.caller.find(account.player, number.f) else {
        return Ok(refused(alloc, NO_FLEET));
    };
    if !fleet.outbound {
        return Ok(refused(alloc, NOT_OUTBOUND));
    }
    let body = return_line(alloc, fleet.recalled(moment).second)?;
    call_back(account, &parts.to_owner, &mut parts.fleets, fleet, moment);
    Ok(Acted { code: 0, body })
}
