ghost use Rattle.std.specs.Prelude.{◌≡◌};
ghost use Rattle.base_ids.specs.Order.{key_before};
ghost use Rattle.fleet_rec.specs.Fleet.{fleet_seen};
ghost use Rattle.fleet_rec.specs.Fleets.{coming_key};
ghost use Rattle.happenings.specs.Due.{key_at};

use crate::due::Due;
use fleet_rec::Fleet;

/// What happens next among cells: the first item of a queue is due, or a fleet comes, to land or to fight with its group.
#[derive(Clone, Copy, Debug, PartialEq, Eq)]
pub enum Happening {
    Item(Due),
    Coming(Fleet),
}

/// Whether a fleet comes before an item is due.
pub(crate) fn comes_before(fleet: &Fleet, due: Due) -> bool
    ensures { result ≡ key_before (coming_key (fleet_seen fleet.now)) (key_at due) }
{
    if fleet.second != due.second {
        return fleet.second < due.second;
    }
    if fleet.event_number() != due.number {
        return fleet.event_number() < due.number;
    }
    fleet.step() < due.queue.step()
}
