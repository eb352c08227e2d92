ghost use Rattle.std.specs.Prelude.{◌≡◌, ◌≤◌};
ghost use Rattle.catalog.specs.declared.settings.TheConstants.{TOP_SPEED};
ghost use Rattle.rates.specs.Energy.{IsGiven, IsInRange, IsNeeded, given_of, need_of};
ghost use Rattle.rates.specs.Yields.{AreMines, AreSmall, AreYields, IsScaled, hourly_of, mines_of, scaled};

use crate::growth::{intake, output};
use crate::resources::Resources;
use crate::stock::basic_income;
use crate::temperature::{collected, synthesized};
use crate::works::{Hourly, Works};

/// What a planet with these works yields an hour, in units, at a speed of 1 to `TOP_SPEED`, and the energy that its works give
/// and need.
///
/// The mines share the energy: if less is given than needed, each yields its part. The basic income stays whole.
#[tactic(auto, using(crate::proofs::Shares::are_yields), unfolding(crate::specs::Yields::hourly_of))]
pub fn hourly(w: &Works, speed: u32) -> Hourly
    requires works { IsInRange w.now }
    requires speed { speed ≤ TOP_SPEED }
    ensures value { result ≡ hourly_of w.now speed }
    ensures bounds { AreYields w.now speed result }
    ensures within { AreSmall result }
{
    let given = given(w);
    let need = need(w);
    let mines = mines(w);
    let basic = basic_income(speed);
    Hourly {
        metal: basic.metal + scaled(mines.metal, speed, given, need),
        crystal: basic.crystal + scaled(mines.crystal, speed, given, need),
        deuterium: basic.deuterium + scaled(mines.deuterium, speed, given, need),
        given,
        need,
    }
}

/// The energy that the solar plant and the satellites give.
#[tactic(auto, using(crate::proofs::Shares::is_given, std::proofs::lemmas::Int::ints), unfolding(crate::specs::Energy::given_of))]
fn given(works: &Works) -> u64
    requires { IsInRange works.now }
    ensures bounds { IsGiven works.now result }
    ensures value { result ≡ given_of works.now }
    ensures within { result ≤ 6610800 }
{
    let [_, _, _, solar, satellites] = works.sets;
    output(20, works.solar, solar) + collected(works.satellites, works.t, satellites)
}

/// The energy that the mines and the synthesizer need.
#[tactic(auto, using(crate::proofs::Shares::is_needed), unfolding(crate::specs::Energy::need_of))]
fn need(works: &Works) -> u64
    requires { IsInRange works.now }
    ensures bounds { IsNeeded works.now result }
    ensures value { result ≡ need_of works.now }
    ensures within { result ≤ 21600 }
{
    let [metal, crystal, deuterium, _, _] = works.sets;
    intake(10, works.metal, metal)
        + intake(10, works.crystal, crystal)
        + intake(20, works.deuterium, deuterium)
}

/// What the mines and the synthesizer make at speed 1 if all the energy that they need is given.
#[tactic(auto, using(crate::proofs::Shares::are_mines, std::proofs::lemmas::Int::ints), unfolding(crate::specs::Yields::mines_of))]
fn mines(works: &Works) -> Resources
    requires { IsInRange works.now }
    ensures bounds { AreMines works.now result.metal result.crystal result.deuterium }
    ensures value { result ≡ mines_of works.now }
    ensures metal { result.metal ≤ 16200 }
    ensures crystal { result.crystal ≤ 10800 }
    ensures deuterium { result.deuterium ≤ 8316 }
{
    let [metal, crystal, deuterium, _, _] = works.sets;
    Resources {
        metal: output(30, works.metal, metal),
        crystal: output(20, works.crystal, crystal),
        deuterium: synthesized(works.deuterium, works.t, deuterium),
    }
}

/// What a mine adds at a speed: its share of the energy that is needed, rounded down once. Nothing if none is needed.
#[tactic(auto, using(crate::proofs::Shares::shares, base_num::proofs::Quotients::quotients))]
fn scaled(mine: u64, speed: u32, given: u64, need: u64) -> u64
    requires mine { mine ≤ 16200 }
    requires speed { speed ≤ TOP_SPEED }
    requires need { need ≤ 21600 }
    ensures bounds { IsScaled mine speed given need result }
    ensures value { result ≡ scaled mine speed given need }
    ensures within { result ≤ 1620000 }
{
    if need == 0 {
        return 0;
    }
    let whole = mine * u64::from(speed);
    whole * given.min(need) / need
}
