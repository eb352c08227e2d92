ghost use Rattle.std.specs.Prelude.{◌≡◌, ◌+◌, ◌/◌, ◌≤◌, IsTrue};
ghost use Rattle.battle.specs.Sides.{tenths};
ghost use Rattle.catalog.specs.Classes.{is_technology};
ghost use Rattle.catalog.specs.Costs.{cost_of};

use catalog::{Kind, Technology, Techs};

/// A unit with its full strength, in tenths. Units of one kind in one part share one.
#[derive(Clone, Copy)]
pub(crate) struct Fighter {
    /// The place of its part in the side.
    pub(crate) part: usize,
    pub(crate) kind: Kind,
    pub(crate) attack: u32,
    pub(crate) shield: u32,
    pub(crate) hull: u32,
}

impl Fighter {
    ghost use Rattle.battle.specs.Sides.{fighter};

    /// A unit of a kind in the part at this place, by the technologies of its owner.
    #[tactic(auto, using(crate::proofs::Strengths::strengths))]
    pub(crate) fn new(part: usize, kind: Kind, techs: &Techs) -> Fighter
        ensures { result ≡ fighter part techs.now.n kind }
    {
        Fighter {
            part,
            kind,
            attack: kind.attack() * tenths(techs, Kind::Weapons),
            shield: kind.shield() * tenths(techs, Kind::Shielding),
            hull: hull(kind) * tenths(techs, Kind::Armour),
        }
    }
}

/// Ten tenths, and one more for each level of a technology.
fn tenths(techs: &Techs, technology: Kind) -> u32
    requires { IsTrue (is_technology technology) }
    ensures value { result ≡ tenths techs.now.n technology }
    ensures within { result ≤ 265 }
{
    10 + u32::from(techs.level(Technology { kind: technology }))
}

/// The hull of a kind without armour.
#[tactic(auto, using(crate::proofs::Strengths::costs))]
fn hull(kind: Kind) -> u32
    ensures value { result ≡ ((cost_of kind).metal + (cost_of kind).crystal) / 10 }
    ensures within { result ≤ 900000 }
{
    let cost = kind.first_cost();
    ((cost.m + cost.c) / 10) as u32
}
