ghost use Rattle.std.specs.Prelude.{◌≡◌, [], ◌∷◌, IfOk, length};
ghost use Rattle.raids.specs.Parts.{home_part, raider_parts};
ghost use Rattle.tick_model.specs.Battles.{fleet_units};

use crate::aftermath::Raider;
use battle::{Part, Side};
use catalog::{Ships, Techs};
use std::alloc::{AllocError, Global};

/// The ships of a fleet as units of all kinds: a fleet has no satellites and no defences.
pub(crate) fn fleet_units(ships: &Ships) -> [u32; 22]
    ensures { result ≡ fleet_units ships.now.n }
{
    let mut units = [0; 22];
    units[..13].copy_from_slice(&ships.n);
    units
}

/// The side of the attackers: each fleet is a part of it.
pub(crate) fn attackers(alloc: Global, raiders: &[Raider]) -> Result<Side, AllocError>
    ensures { IfOk result (λ side. side ≡ raider_parts raiders.now) }
{
    let mut side = Side::new(alloc);
    'raiders: for raider in raiders {
        side.push(Part {
            number: raider.fleet.number,
            techs: raider.techs,
            n: fleet_units(&raider.fleet.ships),
        })?;
    }
    Ok(side)
}

/// The part of the planet: its units, with the technologies of its owner.
pub(crate) fn home_part(units: &[u32; 22], techs: Techs) -> Part
    ensures value { result ≡ home_part units.now techs }
    ensures kinds { length result.n ≡ 22 }
{
    Part {
        number: 0,
        techs,
        n: *units,
    }
}

/// A side of one part.
pub(crate) fn side_of(alloc: Global, part: Part) -> Result<Side, AllocError>
    ensures { IfOk result (λ side. side ≡ part ∷ []) }
{
    let mut side = Side::new(alloc);
    side.push(part)?;
    Ok(side)
}
