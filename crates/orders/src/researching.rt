ghost use Rattle.std.specs.Prelude.{◌≡◌, ◌<◌, ◌≤◌, ◌&&◌, IsTrue};
ghost use Rattle.account_cell.specs.Account.{account_fields, research_of};
ghost use Rattle.account_cell.specs.Queue.{CanOrder};
ghost use Rattle.catalog.specs.Levels.{level_cap_of};
ghost use Rattle.catalog.specs.Technologies.{level_in};
ghost use Rattle.catalog.specs.declared.settings.TheConstants.{TOP_SPEED};
ghost use Rattle.orders.specs.Granting.{research_paid};
ghost use Rattle.planet_cell.specs.Planet.{batches_of, buildings_of, fields_of};
ghost use Rattle.tick_model.specs.Buildings.{can_pay};
ghost use Rattle.tick_model.specs.Refusals.{are_met, is_empty, research_refusal};
ghost use Rattle.tick_model.specs.Researches.{gives_energy, research_price};

use account_cell::Account;
use catalog::Technology;
use planet_cell::Planet;

/// Why the next level of a technology can't be ordered by an account in the lab of its planet, at a speed of 1 to
/// `catalog::TOP_SPEED`: the code of the first reason that there is, or 0 if there is none.
pub fn research_refusal(
    account: &Account,
    planet: &Planet,
    technology: Technology,
    speed: u32,
) -> u8
    requires { speed ≤ TOP_SPEED }
    ensures value { result ≡ research_refusal speed (account_fields account.now) (fields_of planet.now) (research_of account.now) technology.kind }
    ensures order { result ≡ 0 → CanOrder (account_fields account.now) (research_of account.now) technology.kind }
{
    let is_met = is_met(account, planet, technology, speed);
    let pays = can_pay_next(account, planet, technology);
    account.research_refusal(technology, is_met, pays)
}

/// Whether the prerequisites of a technology are met, and the planet gives the energy that it takes.
fn is_met(account: &Account, planet: &Planet, technology: Technology, speed: u32) -> bool
    requires { speed ≤ TOP_SPEED }
    ensures { result ≡ (are_met (account_fields account.now) (fields_of planet.now) technology.kind && gives_energy speed (fields_of planet.now) technology.kind) }
{
    planet.meets_needs(&account.techs, technology.kind) && planet.gives_energy(speed, technology)
}

/// Whether a technology is below its highest level, and the planet can pay the next one.
fn can_pay_next(account: &Account, planet: &Planet, technology: Technology) -> bool
    ensures { level_in account.now.techs.n technology.kind < level_cap_of technology.kind
        → result ≡ can_pay (fields_of planet.now).stock (research_price (account_fields account.now) technology.kind) }
{
    account.can_rise(technology) && planet.can_pay(account.next_price(technology))
}

/// The planet pays the next level of a technology, if it starts at once.
pub fn pay_research(account: &Account, planet: &mut Planet, technology: Technology)
    requires order { CanOrder (account_fields account.now) (research_of account.now) technology.kind }
    requires payable { IsTrue (is_empty (research_of account.now)) → IsTrue (can_pay (fields_of planet.old).stock (research_price (account_fields account.now) technology.kind)) }
    ensures fields { fields_of planet.new ≡ research_paid (account_fields account.now) (fields_of planet.old) (research_of account.now) technology.kind }
    ensures buildings { buildings_of planet.new ≡ buildings_of planet.old }
    ensures yard { batches_of planet.new ≡ batches_of planet.old }
    ensures at { planet.new.at ≡ planet.old.at }
{
    if account.research.is_empty() {
        planet.pay(account.next_price(technology));
    }
}
