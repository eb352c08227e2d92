ghost use Rattle.std.specs.Prelude.{◌≡◌, ℕ, ◌+◌, ◌≤◌, ◌&&◌, filter, length, nat_lt, not};
ghost use Rattle.battle.specs.Arrays.{IsReady, shown};
ghost use Rattle.battle.specs.Course.{after_round, after_rounds, after_volley, standing};
ghost use Rattle.battle.specs.declared.limits.TheConstants.{MOST_ROUNDS};

use crate::army::Army;
use crate::firing::volley;
use crate::limits::MOST_ROUNDS;
use crate::unit_state::UnitState;
use draws::Draws;

/// Fights the rounds of a battle, six at most and each only if both sides have units. It answers how many were fought.
/// Rounds are counted from 0.
pub(crate) fn fight_rounds(attackers: &mut Army, planet: &mut Army, draws: &mut Draws) -> u8
    requires attackers { IsReady 0 attackers.old }
    requires planet { IsReady 0 planet.old }
    ensures course { record { attackers = shown result attackers.new; planet = shown result planet.new; stream = draws.new; rounds = result }
        ≡ after_rounds MOST_ROUNDS (record { attackers = shown 0 attackers.old; planet = shown 0 planet.old; stream = draws.old; rounds = 0 }) }
    ensures attackers { IsReady result attackers.new }
    ensures planet { IsReady result planet.new }
{
    'rounds: for round in 0..MOST_ROUNDS {
        if !both_stand(attackers, planet) {
            return round;
        }
        fight_round(attackers, planet, round, draws);
    }
    MOST_ROUNDS
}

/// Whether both sides have units.
fn both_stand(attackers: &Army, planet: &Army) -> bool
    ensures { result ≡ (nat_lt 0 (length attackers.now.units.items) && nat_lt 0 (length planet.now.units.items)) }
{
    !attackers.units.is_empty() && !planet.units.is_empty()
}

/// One round: first the attackers fire, then the planet, and then the destroyed units are gone.
fn fight_round(attackers: &mut Army, planet: &mut Army, round: u8, draws: &mut Draws)
    requires attackers_some { 1 ≤ length attackers.old.units.items }
    requires planet_some { 1 ≤ length planet.old.units.items }
    requires attackers { IsReady round attackers.old }
    requires planet { IsReady round planet.old }
    ensures round { record { attackers = shown (round + 1) attackers.new; planet = shown (round + 1) planet.new; stream = draws.new; rounds = round + 1 }
        ≡ after_round (record { attackers = shown round attackers.old; planet = shown round planet.old; stream = draws.old; rounds = round }) }
    ensures attackers { IsReady (round + 1) attackers.new }
    ensures planet { IsReady (round + 1) planet.new }
{
    fight_half(attackers, planet, round, draws);
    fight_half(planet, attackers, round, draws);
    keep_standing(attackers);
    keep_standing(planet);
}

/// A half of a round: these units fire at those.
fn fight_half(shooters: &Army, targets: &mut Army, round: u8, draws: &mut Draws)
    requires some { 1 ≤ length targets.old.units.items }
    requires shooters { IsReady round shooters.now }
    requires ready { IsReady round targets.old }
    ensures targets { shown round targets.new ≡ (after_volley (shown round shooters.now) (shown round targets.old) draws.old).targets }
    ensures words { draws.new ≡ (after_volley (shown round shooters.now) (shown round targets.old) draws.old).stream }
    ensures ready { IsReady round targets.new }
{
    volley(
        &shooters.table,
        &shooters.units,
        round,
        &targets.table,
        &mut targets.units,
        draws,
    );
}

/// Keeps the units that still stand. In the next round their shields are full.
fn keep_standing(army: &mut Army)
    ensures standing { (round : ℕ) → IsReady round army.old → shown (round + 1) army.new ≡ standing (shown round army.old) }
    ensures ready { (round : ℕ) → IsReady round army.old → IsReady (round + 1) army.new }
{
    remove_destroyed(&mut army.units);
}

/// Removes the destroyed units.
fn remove_destroyed(units: &mut Vec<UnitState>)
    ensures kept { units.new.items ≡ filter (λ unit. not unit.is_destroyed) units.old.items }
    ensures fewer { length units.new.items ≤ length units.old.items }
{
    units.retain(|unit| !unit.is_destroyed);
}
