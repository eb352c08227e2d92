use catalog::{Amounts, Techs};
use fleet_rec::{Fleet, Fleets};
use tick_model::Debris;

/// A fleet that fights, with the technologies of its owner at the moment of the battle.
#[derive(Clone, Copy, Debug, PartialEq, Eq)]
pub struct Raider {
    pub fleet: Fleet,
    pub techs: Techs,
}

/// What a battle leaves: the fleets that have ships left, with these ships and their cargo; what they take of the planet's stocks, in
/// units; the debris around the planet; and its units, in the order of `catalog::UNIT_KINDS`.
#[derive(Debug, Drop)]
pub struct Aftermath {
    pub fleets: Fleets,
    pub taken: Amounts,
    pub debris: Debris,
    pub units: [u32; 22],
}
