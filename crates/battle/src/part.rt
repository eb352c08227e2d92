ghost use Rattle.std.specs.Prelude.{◌≡◌, List, [], ◌∷◌, ◌++◌, ◌==◌, ◌≤◌, ◌↔◌, length, map, IsTrue, OnOk, OnErr};
ghost use Rattle.battle.specs.declared.part.Part.{Part};

use crate::army::Army;
use crate::ready::{is_in_order, is_within_limit};
use crate::survivors::keep;
use catalog::Techs;
use std::alloc::{AllocError, Global};
use std::marker::Model;

/// A part of a side: a fleet, or what stands on a planet.
#[derive(Clone, Copy, Debug, PartialEq, Eq)]
pub struct Part {
    /// The number of the fleet; 0 for a planet.
    pub number: u64,
    /// The technologies of its owner at the moment of the battle.
    pub techs: Techs,
    /// How many units it has of each kind of `UNIT_KINDS`, in that order.
    pub n: [u32; 22],
}

/// A side of a battle: its parts, by number. Contracts see it as the list of them. A battle asks that their numbers rise and
/// that they have at most 800000 units together (`can_fight`).
#[derive(Debug, Drop)]
pub struct Side {
    parts: Vec<Part>,
}

impl Model for Side {
    ghost Value = { List Part };

    ghost view = { λ side. side.parts.items };
}

impl Side {
    ghost use Rattle.battle.specs.Arrays.{AreKnown, fighter_of};
    ghost use Rattle.battle.specs.Outcomes.{survivors};
    ghost use Rattle.battle.specs.Sides.{IsSide};
    ghost use Rattle.battle.specs.declared.limits.TheConstants.{MOST_UNITS};

    /// A side without parts. It takes no memory.
    pub fn new(alloc: Global) -> Side
        ensures { result ≡ [] }
    {
        Side {
            parts: Vec::new(alloc),
        }
    }

    /// Adds a part at the end. It fails only if memory runs out, and then adds nothing.
    pub fn push(&mut self, part: Part) -> Result<(), AllocError>
        ensures ok { OnOk result (self.new ≡ self.old ++ part ∷ []) }
        ensures err { OnErr result (self.new ≡ self.old) }
    {
        self.parts.push(part)?;
        Ok(())
    }

    /// How many parts there are.
    pub fn len(&self) -> usize
        ensures { result ≡ length self.now }
    {
        self.parts.len()
    }

    /// Whether there is no part.
    pub fn is_empty(&self) -> bool
        ensures { result ≡ (length self.now == 0) }
    {
        self.parts.is_empty()
    }

    /// The parts.
    pub fn as_slice(&self) -> &[Part]
        ensures { result.now ≡ self.now }
    {
        &self.parts
    }

    /// Whether the numbers of the parts rise, and the parts have at most 800000 units together: what a battle asks of a side.
    pub fn can_fight(&self) -> bool
        ensures { IsTrue result ↔ IsSide self.now }
    {
        is_in_order(&self.parts) && is_within_limit(&self.parts)
    }

    /// Gives each part the units that are left of it.
    pub(crate) fn keep(&mut self, living: &Army)
        requires most { length living.now.units.items ≤ MOST_UNITS }
        requires known { AreKnown (length living.now.table.items) living.now.units.items }
        ensures { self.new ≡ survivors (map (fighter_of living.now.table.items) living.now.units.items) self.old }
    {
        keep(&mut self.parts, &living.table, &living.units);
    }
}
