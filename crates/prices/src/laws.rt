ghost use Rattle.std.specs.Prelude.{ℕ, ◌^◌, ◌≤◌, IsTrue};
ghost use Rattle.catalog.specs.Classes.{is_building, is_technology, is_unit};
ghost use Rattle.catalog.specs.Levels.{level_cap_of};
ghost use Rattle.catalog.specs.declared.amounts.TheConstants.{CAP};
ghost use Rattle.catalog.specs.declared.kind.Kind.{Kind};
ghost use Rattle.prices.specs.Durations.{seconds_of};
ghost use Rattle.prices.specs.Prices.{price_of};
ghost use Rattle.prices.specs.declared.duration.Helpers.{Helpers};
ghost use Rattle.prices.specs.declared.duration.Helpers.TheVariants.{Building, Research, Yard};

/// No level of a kind, and no unit, costs more than a stock holds. It does nothing: the laws are its contract.
pub fn prices_are_capped()
    ensures metal { (kind : Kind) (level : ℕ) → level ≤ level_cap_of kind → (price_of kind level).metal ≤ CAP }
    ensures crystal { (kind : Kind) (level : ℕ) → level ≤ level_cap_of kind → (price_of kind level).crystal ≤ CAP }
    ensures deuterium { (kind : Kind) (level : ℕ) → level ≤ level_cap_of kind → (price_of kind level).deuterium ≤ CAP }
{}

/// Each piece of work takes at least a second. At any speed from 1 on and with any helpers, no level of a building takes
/// longer than 2^29 seconds, no level of a technology longer than 2^36, and no unit longer than 2^24. It does nothing:
/// the laws are its contract.
#[tactic(auto, using(crate::proofs::Longest::longest))]
pub fn durations_are_bounded()
    ensures from { (metal crystal : ℕ) (helpers : Helpers) (speed : ℕ) → 1 ≤ seconds_of metal crystal helpers speed }
    ensures buildings { (kind : Kind) (level robotics nanite speed : ℕ)
        → IsTrue (is_building kind) → level ≤ level_cap_of kind → 1 ≤ speed
        → seconds_of (price_of kind level).metal (price_of kind level).crystal (Building robotics nanite) speed ≤ 2 ^ 29 }
    ensures technologies { (kind : Kind) (level lab speed : ℕ)
        → IsTrue (is_technology kind) → level ≤ level_cap_of kind → 1 ≤ speed
        → seconds_of (price_of kind level).metal (price_of kind level).crystal (Research lab) speed ≤ 2 ^ 36 }
    ensures units { (kind : Kind) (level shipyard nanite speed : ℕ)
        → IsTrue (is_unit kind) → level ≤ level_cap_of kind → 1 ≤ speed
        → seconds_of (price_of kind level).metal (price_of kind level).crystal (Yard shipyard nanite) speed ≤ 2 ^ 24 }
{}
