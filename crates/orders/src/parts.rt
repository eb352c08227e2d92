use account_cell::Account;
use base_ids::{Coord, Player};
use base_text::Bytes;
use fleet_rec::Fleets;
use planet_cell::Planet;
use tick_model::Debris;

/// What a system shows of a planet.
#[derive(Clone, Copy, Debug, PartialEq, Eq)]
pub struct SystemPlanet {
    pub at: Coord,
    pub owner: Player,
    pub debris: Debris,
}

/// The fleets that belong to each of the parts, in the order in which they were sent. A fleet that belongs to several parts has a
/// copy for each.
#[derive(Debug, Drop)]
pub struct PartFleets {
    pub caller: Fleets,
    pub from: Fleets,
    pub to: Fleets,
    pub to_owner: Fleets,
}

/// The parts of a universe that a request asks for, and the fleets that belong to them. None of them need be there.
///
/// They are the caller's account; the planet at the place that the request names, or at the origin of the fleet that it calls
/// back; the planet to which it sends a fleet, or at the target of the one that it calls back, if that is another planet; the
/// account of that planet's owner, if that isn't the caller; and the planets of the system that it names, in the order of the
/// directory.
#[derive(Debug, Drop)]
pub struct Parts {
    pub caller: Option<Account>,
    pub from: Option<Planet>,
    pub to: Option<Planet>,
    pub to_owner: Option<Account>,
    pub fleets: PartFleets,
    pub seen: Vec<SystemPlanet>,
}

/// What a request comes to: 0 and the lines of its reply, or the code of a refusal and no line.
#[derive(Debug, Drop)]
pub struct Acted {
    pub code: u8,
    pub body: Bytes,
}
