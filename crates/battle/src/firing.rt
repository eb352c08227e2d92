ghost use Rattle.std.specs.Prelude.{◌≡◌, ◌+◌, ◌*◌, ◌≤◌, length, nat_le, nat_lt};
ghost use Rattle.battle.specs.Arrays.{AreSound, all_seen, seen_as};
ghost use Rattle.battle.specs.Course.{after_salvo, after_shot, after_turn, after_volley, goes_on, struck};
ghost use Rattle.battle.specs.Rules.{fires_again, is_rapid, is_weak};
ghost use Rattle.battle.specs.declared.limits.TheConstants.{MOST_SHOTS, MOST_UNITS};
ghost use Rattle.battle.specs.Trace.{one_if};
ghost use Rattle.draws.specs.Draws.{after, word_at};

use crate::fighter::Fighter;
use crate::limits::MOST_SHOTS;
use crate::rapid_fire::rapid_fire;
use crate::unit_state::UnitState;
use catalog::Kind;
use draws::Draws;

/// All turns of a half of a round: these units fire at those, one after the other. Each side has its table of strengths.
pub(crate) fn volley(
    strengths: &[Fighter],
    shooters: &[UnitState],
    round: u8,
    table: &[Fighter],
    targets: &mut [UnitState],
    draws: &mut Draws,
)
    requires some { 1 ≤ length targets.old }
    requires most { length targets.old ≤ MOST_UNITS }
    requires shooters { AreSound (length strengths.now) round shooters.now }
    requires sound { AreSound (length table.now) round targets.old }
    ensures targets { all_seen table.now round targets.new ≡ (after_volley (all_seen strengths.now round shooters.now) (all_seen table.now round targets.old) draws.old).targets }
    ensures words { draws.new ≡ (after_volley (all_seen strengths.now round shooters.now) (all_seen table.now round targets.old) draws.old).stream }
    ensures sound { AreSound (length table.now) round targets.new }
{
    'shooters: for shooter in shooters {
        let fighter = &strengths[shooter.strength as usize];
        take_turn(fighter, round, table, targets, draws);
    }
}

/// A unit's turn. A unit of attack 0 does not fire.
fn take_turn(
    shooter: &Fighter,
    round: u8,
    table: &[Fighter],
    targets: &mut [UnitState],
    draws: &mut Draws,
)
    requires some { 1 ≤ length targets.old }
    requires most { length targets.old ≤ MOST_UNITS }
    requires sound { AreSound (length table.now) round targets.old }
    ensures targets { all_seen table.now round targets.new ≡ (after_turn shooter.now (all_seen table.now round targets.old) draws.old).targets }
    ensures words { draws.new ≡ (after_turn shooter.now (all_seen table.now round targets.old) draws.old).stream }
    ensures sound { AreSound (length table.now) round targets.new }
{
    if shooter.attack > 0 {
        salvo(shooter, round, table, targets, draws);
    }
}

/// The shots of a unit in a round.
fn salvo(
    shooter: &Fighter,
    round: u8,
    table: &[Fighter],
    targets: &mut [UnitState],
    draws: &mut Draws,
)
    requires some { 1 ≤ length targets.old }
    requires most { length targets.old ≤ MOST_UNITS }
    requires sound { AreSound (length table.now) round targets.old }
    ensures targets { all_seen table.now round targets.new ≡ (after_salvo MOST_SHOTS 1 shooter.now (all_seen table.now round targets.old) draws.old).targets }
    ensures words { draws.new ≡ (after_salvo MOST_SHOTS 1 shooter.now (all_seen table.now round targets.old) draws.old).stream }
    ensures sound { AreSound (length table.now) round targets.new }
{
    'shots: for count in 1..MOST_SHOTS + 1 {
        if !fire(shooter, count, round, table, targets, draws) {
            return;
        }
    }
}

/// Fires one shot, this unit's `count`th of the round. It answers whether the unit fires again. The table has the
/// strengths of the targets.
fn fire(
    shooter: &Fighter,
    count: u32,
    round: u8,
    table: &[Fighter],
    targets: &mut [UnitState],
    draws: &mut Draws,
) -> bool
    requires some { 1 ≤ length targets.old }
    requires most { length targets.old ≤ MOST_UNITS }
    requires sound { AreSound (length table.now) round targets.old }
    ensures again { result ≡ goes_on count shooter.now (all_seen table.now round targets.old) draws.old }
    ensures targets { all_seen table.now round targets.new ≡ (after_shot count shooter.now (all_seen table.now round targets.old) draws.old).targets }
    ensures words { draws.new ≡ (after_shot count shooter.now (all_seen table.now round targets.old) draws.old).stream }
    ensures sound { AreSound (length table.now) round targets.new }
{
    let place = draws.below(targets.len() as u32) as usize;
    let target = &table[targets[place].strength as usize];
    strike(shooter.attack, round, target, &mut targets[place], draws);
    fires_again(shooter.kind, target.kind, count, draws)
}

/// Whether a unit fires again after its `count`th shot of the round, by the kinds of the unit and its target.
#[tactic(auto, unfolding(draws::specs::Draws::after))]
fn fires_again(shooter: Kind, target: Kind, count: u32, draws: &mut Draws) -> bool
    ensures again { result ≡ fires_again shooter target count (word_at draws.old 0) }
    ensures words { draws.new ≡ after (one_if (is_rapid shooter target count)) draws.old }
{
    let rapid = rapid_fire(shooter, target);
    rapid >= 2 && count < MOST_SHOTS && draws.below(rapid) >= 1
}

/// What a shot of this attack does in this round to a unit of these strengths.
#[tactic(auto, unfolding(draws::specs::Draws::after))]
fn strike(attack: u32, round: u8, fighter: &Fighter, target: &mut UnitState, draws: &mut Draws)
    ensures target { seen_as round fighter.now target.new ≡ struck attack (word_at draws.old 0) (seen_as round fighter.now target.old) }
    ensures words { draws.new ≡ after (one_if (is_weak attack (seen_as round fighter.now target.old))) draws.old }
    ensures strength { target.new.strength ≡ target.old.strength }
    ensures written { target.old.shield_round ≤ round → target.new.shield_round ≤ round }
{
    if target.is_destroyed || bounces(attack, fighter) {
        return;
    }
    let shield = target.shield_in(round, fighter);
    let on_shield = attack.min(shield);
    let on_hull = (attack - on_shield).min(target.hull);
    target.shield = shield - on_shield;
    target.shield_round = round;
    target.hull -= on_hull;
    if target.hull == 0 {
        target.is_destroyed = true;
    } else if is_weak_hull(target.hull, fighter.hull) {
        target.is_destroyed = draws.below(fighter.hull) >= target.hull;
    }
}

/// Whether a shot of this attack bounces off: it is below a hundredth of the full shield.
fn bounces(attack: u32, fighter: &Fighter) -> bool
    ensures { result ≡ nat_lt (100 * attack) fighter.now.shield }
{
    100 * u64::from(attack) < u64::from(fighter.shield)
}

/// Whether a hull is at most seven tenths of the full hull.
fn is_weak_hull(hull: u32, full: u32) -> bool
    ensures { result ≡ nat_le (10 * hull) (7 * full) }
{
    10 * u64::from(hull) <= 7 * u64::from(full)
}
