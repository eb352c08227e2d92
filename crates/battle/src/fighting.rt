ghost use Rattle.std.specs.Prelude.{◌≡◌, nat_lt, IfOk, OnErr, OnOk};
ghost use Rattle.battle.specs.Outcomes.{IsFought, verdict_of};
ghost use Rattle.battle.specs.Sides.{IsSide};

use crate::muster::muster;
use crate::outcome::{Outcome, Verdict};
use crate::part::Side;
use crate::rounds::fight_rounds;
use draws::Draws;
use std::alloc::{AllocError, Global};

/// Fights the battle of this number between attackers (`att`) and a planet (`def`). Its random words come from the stream
/// of this number, and the stream from the universe's seed.
///
/// Both sides keep all their parts. Each part has the units that are left of it, which may be none. So both sides can
/// fight again. It fails only if memory runs out, and then both sides are as they were.
pub fn fight(
    alloc: Global,
    att: &mut Side,
    def: &mut Side,
    seed: u64,
    number: u64,
) -> Result<Outcome, AllocError>
    requires attackers { IsSide att.old }
    requires planet { IsSide def.old }
    ensures ok { IfOk result (λ outcome. IsFought att.old def.old seed number outcome att.new def.new) }
    ensures again { OnOk result (IsSide att.new × IsSide def.new) }
    ensures err { OnErr result ((att.new ≡ att.old) × (def.new ≡ def.old)) }
{
    let mut attackers = muster(alloc, att.as_slice())?;
    let mut planet = muster(alloc, def.as_slice())?;
    let mut draws = Draws::new(seed, number);
    let rounds = fight_rounds(&mut attackers, &mut planet, &mut draws);
    att.keep(&attackers);
    def.keep(&planet);
    let verdict = verdict(attackers.units.len(), planet.units.len());
    Ok(Outcome { verdict, rounds })
}

/// Who has won, by how many units both sides have left.
fn verdict(attackers: usize, planet: usize) -> Verdict
    ensures { result ≡ verdict_of (nat_lt 0 attackers) (nat_lt 0 planet) }
{
    match (attackers > 0, planet > 0) {
        (true, false) => Verdict::Attackers,
        (false, true) => Verdict::Planet,
        _ => Verdict::Draw,
    }
}
