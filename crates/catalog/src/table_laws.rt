ghost use Rattle.std.specs.Prelude.{◌≡◌, ℕ, ◌+◌, ◌<◌, ◌≤◌, ◌⊎◌, ◌↔◌, ◌||◌, All, IfSome, IsSome, IsTrue, filter, length, map, ◌++◌};
ghost use Rattle.std.specs.List.{range_with_len};
ghost use Rattle.std.specs.List.Sorted.{IsStrictlyIncreasing};
ghost use Rattle.catalog.specs.Classes.{is_building, is_ship, is_technology, is_unit, is_work};
ghost use Rattle.catalog.specs.Combat.{attack_of, shield_of};
ghost use Rattle.catalog.specs.Costs.{cost_of};
ghost use Rattle.catalog.specs.Flight.{cargo_of, engine_of};
ghost use Rattle.catalog.specs.Kinds.{kind_number};
ghost use Rattle.catalog.specs.Levels.{growth_of, level_cap_of};
ghost use Rattle.catalog.specs.Needs.{needs_of};
ghost use Rattle.catalog.specs.RapidFire.{rapid_of};
ghost use Rattle.catalog.specs.Storage.{storage_limits};
ghost use Rattle.catalog.specs.declared.amounts.TheConstants.{CAP};
ghost use Rattle.catalog.specs.declared.classes.TheConstants.{BUILDINGS, TECHNOLOGIES, UNIT_KINDS, WORKS};
ghost use Rattle.catalog.specs.declared.kind.Kind.{Kind};
ghost use Rattle.catalog.specs.declared.kind.Kind.TheVariants.{CrystalStore, DeuteriumTank, MetalStore};
ghost use Rattle.catalog.specs.declared.kind.TheConstants.{KINDS};
ghost use Rattle.catalog.specs.declared.ships.TheConstants.{SHIPS};

/// The kinds are listed by number: 11 buildings from 1 on, 14 technologies from 21 on, 14 ships from 41 on and 8
/// defences from 61 on. Each class is listed in the same order. It does nothing: the laws are its contract.
pub fn kinds_are_listed()
    ensures numbers { map kind_number KINDS
        ≡ range_with_len 1 11 ++ range_with_len 21 14 ++ range_with_len 41 14 ++ range_with_len 61 8 }
    ensures buildings { BUILDINGS ≡ filter is_building KINDS }
    ensures technologies { TECHNOLOGIES ≡ filter is_technology KINDS }
    ensures ships { SHIPS ≡ filter is_ship KINDS }
    ensures units { UNIT_KINDS ≡ filter is_unit KINDS }
    ensures works { WORKS ≡ filter is_work KINDS }
{}

/// No first cost is above the cap. It does nothing: the laws are its contract.
pub fn costs_are_capped()
    ensures metal { (kind : Kind) → (cost_of kind).metal ≤ CAP }
    ensures crystal { (kind : Kind) → (cost_of kind).crystal ≤ CAP }
    ensures deuterium { (kind : Kind) → (cost_of kind).deuterium ≤ CAP }
{}

/// The cap of each kind is from 1 to 30, a unit's is 1, and no cost falls with the level. It does nothing: the laws
/// are its contract.
pub fn levels_are_in_range()
    ensures from { (kind : Kind) → 1 ≤ level_cap_of kind }
    ensures to { (kind : Kind) → level_cap_of kind ≤ 30 }
    ensures units { (kind : Kind) → IsTrue (is_unit kind) → level_cap_of kind ≡ 1 }
    ensures fractions { (kind : Kind) → 1 ≤ (growth_of kind).denominator }
    ensures growing { (kind : Kind) → (growth_of kind).denominator ≤ (growth_of kind).numerator }
{}

/// Each prerequisite is a building or a technology at a level that it can have, and no kind needs itself, not even by
/// way of others. It does nothing: the laws are its contract.
pub fn needs_can_be_met()
    ensures with_levels { (kind : Kind)
        → All (λ need. IsTrue (is_building need.kind || is_technology need.kind)) (needs_of kind) }
    ensures from { (kind : Kind) → All (λ need. 1 ≤ need.level) (needs_of kind) }
    ensures to { (kind : Kind) → All (λ need. need.level ≤ level_cap_of need.kind) (needs_of kind) }

    // The kinds can be put in an order in which each comes after all that it needs.
    ensures in_order { (place : Kind → ℕ)
        × ((kind : Kind) → All (λ need. place need.kind < place kind) (needs_of kind)) }
{}

/// Only units shoot or are shielded. It does nothing: the laws are its contract.
pub fn units_fight()
    ensures attack { (kind : Kind) → 0 < attack_of kind → IsTrue (is_unit kind) }
    ensures shield { (kind : Kind) → 0 < shield_of kind → IsTrue (is_unit kind) }
{}

/// A rapid fire is none or at least 2, only ships that fly have one, and only against units. It does nothing: the laws
/// are its contract.
pub fn ships_fire_rapidly()
    ensures none_or_two { (from to : Kind) → (rapid_of from to ≡ 0) ⊎ (2 ≤ rapid_of from to) }
    ensures shooters { (from to : Kind) → 0 < rapid_of from to → IsTrue (is_ship from) }
    ensures targets { (from to : Kind) → 0 < rapid_of from to → IsTrue (is_unit to) }
{}

/// The ships that fly have an engine that moves them, and nothing else has one or carries cargo. It does nothing: the
/// laws are its contract.
pub fn ships_fly()
    ensures flying { (kind : Kind) (impulse : ℕ) → IsSome (engine_of kind impulse) ↔ IsTrue (is_ship kind) }
    ensures speed { (kind : Kind) (impulse : ℕ) → IfSome (engine_of kind impulse) (λ engine. 1 ≤ engine.speed) }
    ensures fuel { (kind : Kind) (impulse : ℕ) → IfSome (engine_of kind impulse) (λ engine. 1 ≤ engine.fuel) }
    ensures cargo { (kind : Kind) → 0 < cargo_of kind → IsTrue (is_ship kind) }
{}

/// There is a storage limit for each level that a store can have. The limits rise with the level, and none is above the
/// cap. It does nothing: the laws are its contract.
pub fn stores_grow()
    ensures metal { length storage_limits ≡ level_cap_of MetalStore + 1 }
    ensures crystal { length storage_limits ≡ level_cap_of CrystalStore + 1 }
    ensures deuterium { length storage_limits ≡ level_cap_of DeuteriumTank + 1 }
    ensures rising { IsStrictlyIncreasing storage_limits }
    ensures capped { All (λ limit. limit ≤ CAP) storage_limits }
{}
