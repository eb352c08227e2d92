use crate::fighter::Fighter;

/// A unit in a battle, as the next shot finds it. All strengths are in tenths. Contracts speak of combatants; the code
/// keeps a `UnitState` of each unit.
#[derive(Clone, Copy)]
pub(crate) struct Combatant {
    pub(crate) fighter: Fighter,
    /// What is left of its shield in this round.
    pub(crate) shield: u32,
    /// What is left of its hull.
    pub(crate) hull: u32,
    pub(crate) is_destroyed: bool,
}
