use crate::fighter::Fighter;
use crate::unit_state::UnitState;

/// The units of a side in a battle.
#[derive(Drop)]
pub(crate) struct Army {
    /// The strengths of its units: those of each kind in each part once.
    pub(crate) table: Vec<Fighter>,
    /// The state of each unit, in the order of the rules.
    pub(crate) units: Vec<UnitState>,
}
