ghost use Rattle.std.specs.Prelude.{◌≡◌, ◌≤◌, ℕ, List, length};
ghost use Rattle.std.specs.List.{AllByRecursion};
ghost use Rattle.catalog.specs.declared.kind.Kind.{Kind};
ghost use Rattle.battle.specs.declared.outcome.Outcome.{Outcome};
ghost use Rattle.battle.specs.declared.part.Part.{Part};
ghost use Rattle.battle.specs.Course.{combatants, course, course_outcome, fighters_of};
ghost use Rattle.battle.specs.Ending.{battle_end};
ghost use Rattle.battle.specs.Outcomes.{IsFought, count_of, left, outcome, survivors};
ghost use Rattle.battle.specs.Shots.{Shot};
ghost use Rattle.battle.specs.Sides.{Battle, Party, fighters, units};
ghost use Rattle.battle.specs.Trace.{IsTrace};

/// A battle has one trace and no other, whatever its sides and its stream are. It does nothing: the laws are its
/// contract.
#[tactic(auto, using(crate::proofs::OneTrace::traces))]
pub fn battles_have_one_trace()
    ensures some { (b : Battle) → (shots : List Shot) × IsTrace b shots }
    ensures one { (b : Battle) (xs ys : List Shot) → IsTrace b xs → IsTrace b ys → xs ≡ ys }
{}

/// A battle ends as its course ends: its trace leads to the outcome of its course, and on each side to the units that
/// are left in its course. So the function `battle_end` gives the one end of each battle. It does nothing: the laws are
/// its contract.
pub fn battles_end_as_their_course()
    ensures outcome { (b : Battle) (shots : List Shot) → IsTrace b shots
        → outcome b shots ≡ course_outcome (course b) }
    ensures left { (b : Battle) (shots : List Shot) (party : Party) → IsTrace b shots
        → left b shots party ≡ fighters_of (combatants (course b) party) }
    ensures is_end { (attacking defending : List Part) (seed number : ℕ)
        → let ending = battle_end attacking defending seed number in
        IsFought attacking defending seed number ending.outcome ending.attackers ending.planet }
    ensures one_end { (attacking defending attackers_left planet_left : List Part) (seed number : ℕ) (result : Outcome)
        → IsFought attacking defending seed number result attackers_left planet_left
        → let ending = battle_end attacking defending seed number in
        (result ≡ ending.outcome) × (attackers_left ≡ ending.attackers) × (planet_left ≡ ending.planet) }
{}

/// A side that loses no unit is left as it was, and of no part and no kind more is left than there was. It does
/// nothing: the laws are its contract.
pub fn no_unit_is_gained()
    ensures all { (parts : List Part) → AllByRecursion (λ part. length part.n ≡ 22) parts
        → survivors (fighters parts) parts ≡ parts }
    ensures fewer { (b : Battle) (shots : List Shot) (party : Party) (part : ℕ) (kind : Kind)
        → count_of (left b shots party) part kind ≤ count_of (units b party) part kind }
{}
