ghost use Rattle.std.specs.Prelude.{◌≡◌, ◌*◌, ◌-◌, ◌/◌, ◌^◌, ◌≤◌};
ghost use Rattle.catalog.specs.Costs.{cost_of};
ghost use Rattle.catalog.specs.Levels.{growth_of, level_cap_of};
ghost use Rattle.catalog.specs.declared.amounts.TheConstants.{CAP};
ghost use Rattle.prices.specs.Prices.{IsGrown, cost_in, price_of};

use base_num::floor;
use catalog::{Amounts, Kind};

/// What the level `level` of a building or a technology costs, from 1 to the cap of the kind, or one ship or defence,
/// which counts as level 1. In units: the first cost, grown by `level - 1` steps, each resource floored once.
#[tactic(auto, using(crate::proofs::Levels::prices))]
pub fn cost(kind: Kind, level: u8) -> Amounts
    requires from { 1 ≤ level }
    requires to { level ≤ level_cap_of kind }
    ensures value { cost_in result ≡ price_of kind level }
    ensures metal { result.m ≡ (price_of kind level).metal }
    ensures crystal { result.c ≡ (price_of kind level).crystal }
    ensures deuterium { result.d ≡ (price_of kind level).deuterium }
    ensures metal_bounds { IsGrown (cost_of kind).metal (growth_of kind) (level - 1) result.m }
    ensures crystal_bounds { IsGrown (cost_of kind).crystal (growth_of kind) (level - 1) result.c }
    ensures deuterium_bounds { IsGrown (cost_of kind).deuterium (growth_of kind) (level - 1) result.d }
{
    let first = kind.first_cost();
    let (numerator, denominator) = growth_to(kind, level);
    Amounts {
        m: grown(first.m, numerator, denominator),
        c: grown(first.c, numerator, denominator),
        d: grown(first.d, numerator, denominator),
    }
}

/// By what the first cost of a kind has grown at a level: the numerator and the denominator of an exact fraction.
#[tactic(auto, using(crate::proofs::Levels::powers))]
fn growth_to(kind: Kind, level: u8) -> (u128, u128)
    requires from { 1 ≤ level }
    requires to { level ≤ level_cap_of kind }
    ensures numerator { result.0 ≡ (growth_of kind).numerator ^ (level - 1) }
    ensures denominator { result.1 ≡ (growth_of kind).denominator ^ (level - 1) }
    ensures some { 1 ≤ result.1 }
    ensures small { result.1 ≤ 2 ^ 68 }
{
    let growth = kind.growth();
    let steps = u32::from(level - 1);
    let numerator = u128::from(growth.numerator).pow(steps);
    let denominator = u128::from(growth.denominator).pow(steps);
    (numerator, denominator)
}

/// `first` times a fraction, floored.
fn grown(first: u64, numerator: u128, denominator: u128) -> u64
    requires divisor { 1 ≤ denominator }
    requires small { denominator ≤ 2 ^ 68 }
    requires within { first * numerator ≤ CAP * denominator }
    ensures value { result ≡ first * numerator / denominator }
    ensures within { result ≤ CAP }
{
    floor(u128::from(first) * numerator, denominator) as u64
}
