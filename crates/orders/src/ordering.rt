ghost use Rattle.std.specs.Prelude.{◌≡◌, ℕ, ◌+◌, ◌<◌, ◌≤◌, [], IfOk, OnErr, sum};
ghost use Rattle.account_cell.specs.Account.{account_fields};
ghost use Rattle.account_cell.specs.declared.account.Account.{Account as AccountOf};
ghost use Rattle.orders.specs.Granting.{AreHeld, Follows, order_line};
ghost use Rattle.planet_cell.specs.Planet.{batches_of, fields_of};
ghost use Rattle.ports.specs.declared.clock.TheConstants.{LATEST};
ghost use Rattle.tick_model.specs.Refusals.{yard_refusal};
ghost use Rattle.tick_model.specs.Requests.{builds, researches, sets, shows, yards};
ghost use Rattle.tick_model.specs.Views.{units_left};
ghost use Rattle.tick_model.specs.declared.rules.Rules.{Rules as RulesOf};

use crate::parts::Acted;
use crate::researching::{pay_research, research_refusal};
use crate::writing::planet_lines;
use account_cell::Account;
use base_text::Bytes;
use catalog::{Building, Count, Technology, Tenths, Unit, Work};
use planet_cell::Planet;
use reply_text::{push_starts, push_waits};
use std::alloc::{AllocError, Global};
use tick_model::{Placed, Rules};

/// A refusal with this code.
pub fn refused(alloc: Global, code: u8) -> Acted
    ensures { result ≡ record { code = code; body = [] } }
{
    Acted {
        code,
        body: Bytes::new(alloc),
    }
}

/// `planet C`: the planet is shown.
pub fn show(alloc: Global, planet: &Planet, rules: &Rules) -> Result<Acted, AllocError>
    ensures shown { IfOk result (λ acted. (moment : ℕ) (account : AccountOf) → Follows rules.now moment 0
        (λ sight. shows sight planet.now.at (account_fields account) (fields_of planet.now)) account planet.now account planet.now acted) }
    ensures granted { IfOk result (λ acted. acted.code ≡ 0) }
{
    let body = planet_lines(alloc, rules.speed, planet)?;
    Ok(Acted { code: 0, body })
}

/// `set C WORK TENTHS`: the work runs at so many tenths.
#[tactic(auto, using(crate::proofs::Granted::set))]
pub fn set(alloc: Global, planet: &mut Planet, work: Work, tenths: Tenths) -> Acted
    ensures set { (rules : RulesOf) (moment : ℕ) (account : AccountOf) → Follows rules moment 0
        (λ sight. sets sight planet.old.at work.kind tenths.n (account_fields account) (fields_of planet.old)) account planet.old account planet.new result }
    ensures granted { result.code ≡ 0 }
    ensures at { planet.new.at ≡ planet.old.at }
{
    planet.set_tenths(work, tenths);
    Acted {
        code: 0,
        body: Bytes::new(alloc),
    }
}

/// `build C BUILDING`: the next level of a building is ordered.
///
/// It fails only if memory runs out, and the planet then stays as it was: the order is made on a copy.
#[tactic(auto, using(planet_cell::proofs::Granting::can_take))]
pub fn build(
    alloc: Global,
    account: &Account,
    planet: &mut Planet,
    rules: &Rules,
    building: Building,
    moment: u64,
) -> Result<Acted, AllocError>
    requires { moment ≤ LATEST }
    ensures built { IfOk result (Follows rules.now moment 0
        (λ sight. builds sight planet.old.at building.kind (account_fields account.now) (fields_of planet.old)) account.now planet.old account.now planet.new) }
    ensures refused { IfOk result (λ acted. 0 < acted.code → AreHeld account.now planet.old account.now planet.new) }
    ensures err { OnErr result (AreHeld account.now planet.old account.now planet.new) }
    ensures at { planet.new.at ≡ planet.old.at }
{
    let code = planet.build_refusal(&account.techs, building);
    if code > 0 {
        return Ok(refused(alloc, code));
    }
    let mut next = planet.copy()?;
    let placed = next.order_building(building, moment, rules.speed)?;
    let body = order_line(alloc, placed)?;
    *planet = next;
    Ok(Acted { code, body })
}

/// `yard C UNIT COUNT`: so many units are ordered, and the account has so many more.
///
/// It fails only if memory runs out, and the planet and the account then stay as they were: the order is made on a copy.
pub fn order_units(
    alloc: Global,
    account: &mut Account,
    planet: &mut Planet,
    rules: &Rules,
    unit: Unit,
    count: Count,
    moment: u64,
) -> Result<Acted, AllocError>
    requires counted { sum planet.old.units + units_left (batches_of planet.old) ≤ account.old.units }
    requires moment { moment ≤ LATEST }
    ensures ordered { IfOk result (Follows rules.now moment count.n
        (λ sight. yards sight account.old.player planet.old.at unit.kind count.n (account_fields account.old) (fields_of planet.old)) account.old planet.old account.new planet.new) }
    ensures refused { IfOk result (λ acted. 0 < acted.code → AreHeld account.old planet.old account.new planet.new) }
    ensures err { OnErr result (AreHeld account.old planet.old account.new planet.new) }
    ensures player { account.new.player ≡ account.old.player }
    ensures at { planet.new.at ≡ planet.old.at }
{
    let code = yard_refusal(account, planet, unit, count);
    if code > 0 {
        return Ok(refused(alloc, code));
    }
    let mut next = planet.copy()?;
    let placed = next.order_batch(unit, count, moment, rules.speed)?;
    let body = order_line(alloc, placed)?;
    *planet = next;
    account.add_units(count.n);
    Ok(Acted { code, body })
}

/// Why so many units can't be ordered by an account on its planet: the code of the first reason that there is, or 0 if there is
/// none.
fn yard_refusal(account: &Account, planet: &Planet, unit: Unit, count: Count) -> u8
    ensures { result ≡ yard_refusal (account_fields account.now) account.now.units (fields_of planet.now) (batches_of planet.now) unit.kind count.n }
{
    planet.yard_refusal(&account.techs, account.units, unit, count)
}

/// `research C TECH`: the next level of a technology is ordered, and if it starts at once the planet pays it.
///
/// It fails only if memory runs out, and the planet and the account then stay as they were: the order is made on a copy.
pub fn research(
    alloc: Global,
    account: &mut Account,
    planet: &mut Planet,
    rules: &Rules,
    technology: Technology,
    moment: u64,
) -> Result<Acted, AllocError>
    requires { moment ≤ LATEST }
    ensures ordered { IfOk result (Follows rules.now moment 0
        (λ sight. researches sight account.old.player planet.old.at technology.kind (account_fields account.old) (fields_of planet.old)) account.old planet.old account.new planet.new) }
    ensures refused { IfOk result (λ acted. 0 < acted.code → AreHeld account.old planet.old account.new planet.new) }
    ensures err { OnErr result (AreHeld account.old planet.old account.new planet.new) }
    ensures player { account.new.player ≡ account.old.player }
    ensures at { planet.new.at ≡ planet.old.at }
{
    let code = research_refusal(account, planet, technology, rules.speed);
    if code > 0 {
        return Ok(refused(alloc, code));
    }
    let mut next = account.copy()?;
    let placed = next.order_research(planet.at, technology, moment, planet.lab(), rules.speed)?;
    let body = order_line(alloc, placed)?;
    pay_research(account, planet, technology);
    *account = next;
    Ok(Acted { code, body })
}

/// The line that answers an order.
fn order_line(alloc: Global, placed: Placed) -> Result<Bytes, AllocError>
    ensures { IfOk result (λ body. body ≡ order_line placed) }
{
    let mut body = Bytes::new(alloc);
    match placed {
        Placed::Starts { amount, second } => push_starts(alloc, &mut body, amount, second)?,
        Placed::Waits { place } => push_waits(alloc, &mut body, place as u64)?,
    }
    Ok(body)
}
