ghost use Rattle.std.specs.Prelude.{◌≡◌};
ghost use Rattle.battle.specs.Arrays.{shield_in};

use crate::fighter::Fighter;
use std::mem::size_of;

/// What a battle has done to a unit so far. All strengths are in tenths. A side has an array of these, and a table of
/// the strengths that its units share.
#[derive(Clone, Copy)]
pub(crate) struct UnitState {
    /// What is left of its hull.
    pub(crate) hull: u32,
    /// What the last round that wrote it has left of its shield.
    pub(crate) shield: u32,
    /// The place of its strengths in the table of its side.
    pub(crate) strength: u32,
    /// The last round that wrote its shield, counted from 0. In every other round its shield is full.
    pub(crate) shield_round: u8,
    pub(crate) is_destroyed: bool,
}

// As many units as a side may have take 12.8 MB.
const _: () = prove!(size_of::<UnitState>() == 16);

impl UnitState {
    ghost use Rattle.battle.specs.Arrays.{seen_as};
    ghost use Rattle.battle.specs.Course.{unhurt};

    /// The unit at the start of a battle, with the strengths at this place of the table.
    pub(crate) fn new(strength: u32, fighter: &Fighter) -> UnitState
        ensures shown { seen_as 0 fighter.now result ≡ unhurt fighter.now }
        ensures strength { result.strength ≡ strength }
        ensures written { result.shield_round ≡ 0 }
    {
        UnitState {
            hull: fighter.hull,
            shield: fighter.shield,
            strength,
            shield_round: 0,
            is_destroyed: false,
        }
    }

    /// What is left of its shield in this round.
    pub(crate) fn shield_in(&self, round: u8, fighter: &Fighter) -> u32
        ensures { result ≡ shield_in round fighter.now self.now }
    {
        if self.shield_round == round {
            self.shield
        } else {
            fighter.shield
        }
    }
}
