// Whether a base that was read is as the rules say.
ghost use Rattle.std.specs.Prelude.{◌↔◌, IfOk, IsTrue};
ghost use Rattle.base_bytes.specs.Kept.{CountsFit, EachKeeps, ListsRise};
ghost use Rattle.base_bytes.specs.Rules.{IsBase};
ghost use Rattle.base_bytes.specs.Told.{DoRise, IsRead};

use crate::account_rules::all_accounts_keep;
use crate::base::Base;
use crate::distinct::are_once;
use crate::fleet_rules::{all_fleets_sound, fleets_rise};
use crate::group_rules::groups_fit;
use crate::planet_rules::all_planets_keep;
use crate::rising::{accounts_rise, are_owned, planets_rise};
use crate::slot_rules::fleets_fit_slots;
use crate::tallies::count_their_units;
use std::alloc::{AllocError, Global};

/// Whether a base that was read is as the rules say. It looks at each account, planet and fleet a few times, and sorts them by their
/// names and numbers.
#[tactic(auto, using(crate::proofs::Assembling::assembled, crate::proofs::Assembling::lists_of, crate::proofs::Assembling::counts_of, crate::proofs::Assembling::each_keeps_of))]
pub fn keeps_rules(alloc: Global, base: &Base) -> Result<bool, AllocError>
    requires { IsRead base.now }
    ensures { IfOk result (λ keeps. IsTrue keeps ↔ IsBase base.now) }
{
    if !lists_rise(base) {
        return Ok(false);
    }
    if !each_keeps(base) {
        return Ok(false);
    }
    counts_fit(alloc, base)
}

fn lists_rise(base: &Base) -> bool
    ensures { IsTrue result ↔ ListsRise base.now }
{
    if !accounts_rise(&base.accounts) {
        return false;
    }
    if !planets_rise(&base.planets) {
        return false;
    }
    fleets_rise(&base.fleets) && are_owned(&base.accounts, &base.planets)
}

fn each_keeps(base: &Base) -> bool
    requires { DoRise base.now.planets.items }
    ensures { IsTrue result ↔ EachKeeps base.now }
{
    if !all_accounts_keep(base.moment, base.number, &base.accounts) {
        return false;
    }
    all_planets_keep(base.moment, base.number, &base.planets) && all_fleets_sound(base)
}

fn counts_fit(alloc: Global, base: &Base) -> Result<bool, AllocError>
    ensures { IfOk result (λ fit. IsTrue fit ↔ CountsFit base.now) }
{
    let fleets = base.fleets.as_slice();
    Ok(
        are_once(alloc, &base.accounts, &base.planets)?
            && count_their_units(alloc, &base.accounts, &base.planets, fleets)?
            && groups_fit(alloc, &base.fleets)?
            && fleets_fit_slots(alloc, &base.accounts, &base.fleets)?,
    )
}
