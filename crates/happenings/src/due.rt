ghost use Rattle.std.specs.Prelude.{◌≡◌};
ghost use Rattle.happenings.specs.Due.{key_at, sooner_of};
ghost use Rattle.happenings.specs.Happening.{first_of_two, coming_key_of};

use crate::happening::{Happening, comes_before};
use crate::held::{AccountCell, Held, PlanetCell};
use crate::queue::Queue;
use base_ids::{Coord, Player};
use fleet_rec::Fleet;

/// An item that is due: at which second, by which order, and in which queue.
#[derive(Clone, Copy, Debug, PartialEq, Eq)]
pub struct Due {
    pub second: u64,
    pub number: u64,
    pub queue: Queue,
}

impl Due {
    ghost use Rattle.std.specs.Prelude.{◌≡◌};
    ghost use Rattle.base_ids.specs.Order.{key_before};
    ghost use Rattle.happenings.specs.Due.{key_at};

    /// Whether it comes before the other.
    pub fn is_before(self, other: Due) -> bool
        ensures { result ≡ key_before (key_at self) (key_at other) }
    {
        if self.second != other.second {
            return self.second < other.second;
        }
        if self.number != other.number {
            return self.number < other.number;
        }
        self.queue.step() < other.queue.step()
    }
}

/// The first of two items, each of which may be missing.
fn sooner(first: Option<Due>, other: Option<Due>) -> Option<Due>
    ensures { result ≡ sooner_of key_at first other }
{
    match (first, other) {
        (Some(due), Some(event)) if event.is_before(due) => other,
        (None, _) => other,
        _ => first,
    }
}

/// The one that comes first of two fleets, each of which may be missing.
fn sooner_coming(first: Option<Fleet>, other: Option<Fleet>) -> Option<Fleet>
    ensures { result ≡ sooner_of coming_key_of first other }
{
    let Some(fleet) = first else {
        return other;
    };
    let Some(next) = other else {
        return first;
    };
    if next.is_before(&fleet) { other } else { first }
}

/// What comes first of an item and a fleet, each of which may be missing.
fn first_of_two(item: Option<Due>, coming: Option<Fleet>) -> Option<Happening>
    ensures { result ≡ first_of_two item coming }
{
    let Some(due) = item else {
        let Some(fleet) = coming else {
            return None;
        };
        return Some(Happening::Coming(fleet));
    };
    let Some(fleet) = coming else {
        return Some(Happening::Item(due));
    };
    if comes_before(&fleet, due) {
        Some(Happening::Coming(fleet))
    } else {
        Some(Happening::Item(due))
    }
}

impl AccountCell {
    ghost use Rattle.std.specs.Prelude.{◌≡◌};
    ghost use Rattle.happenings.specs.Due.{owed_by_account};

    /// What the account of this player owes by a moment: the research that runs, if it is done by then.
    pub fn owed(&self, player: Player, moment: u64) -> Option<Due>
        ensures { result ≡ owed_by_account moment player self.now }
    {
        let item = self.account.research.first()?;
        if item.second > moment {
            return None;
        }
        Some(Due {
            second: item.second,
            number: item.number,
            queue: Queue::Research(player),
        })
    }
}

impl PlanetCell {
    ghost use Rattle.std.specs.Prelude.{◌≡◌};
    ghost use Rattle.happenings.specs.Due.{first_of, owed_by_planet};
    ghost use Rattle.happenings.specs.declared.queue.Queue.TheVariants.{Buildings, Yard};
    ghost use Rattle.planet_cell.specs.Planet.{batches_of, buildings_of};

    /// What the planet, which stands at this place, owes by a moment: the building that runs, or the next unit of its yard, if it is
    /// done by then.
    pub fn owed(&self, at: Coord, moment: u64) -> Option<Due>
        ensures { result ≡ owed_by_planet moment at self.now }
    {
        sooner(self.building_due(at, moment), self.unit_due(at, moment))
    }

    // The building that runs, if it is done by a moment.
    fn building_due(&self, at: Coord, moment: u64) -> Option<Due>
        ensures { result ≡ first_of moment (Buildings at) (buildings_of self.now.planet) }
    {
        let item = self.planet.buildings.first()?;
        if item.second > moment {
            return None;
        }
        Some(Due {
            second: item.second,
            number: item.number,
            queue: Queue::Buildings(at),
        })
    }

    // The next unit of the yard, if it is done by a moment.
    fn unit_due(&self, at: Coord, moment: u64) -> Option<Due>
        ensures { result ≡ first_of moment (Yard at) (batches_of self.now.planet) }
    {
        let batch = self.planet.yard.first()?;
        if batch.second > moment {
            return None;
        }
        Some(Due {
            second: batch.second,
            number: batch.number,
            queue: Queue::Yard(at),
        })
    }
}

impl Held {
    ghost use Rattle.std.specs.Prelude.{MatchOption};
    ghost use Rattle.happenings.specs.Coming.{FindsFirst};
    ghost use Rattle.happenings.specs.Due.{IsFirstOfQueues, IsFirstOfThese, IsNoneOfQueues, IsNoneOfThese, is_of_planet, is_research};
    ghost use Rattle.happenings.specs.Happening.{IsFirstComing, IsFirstDue, IsNoneComing, IsNothingDue};

    /// What happens first of all that a cell of these owes by a moment.
    pub fn first_due(&self, moment: u64) -> Option<Happening>
        ensures due { MatchOption result (IsNothingDue self.now moment) (IsFirstDue self.now moment) }
        ensures shown { FindsFirst self.now moment result }
    {
        first_of_two(self.item_due(moment), self.coming_due(moment))
    }

    // The first item that is due by a moment.
    fn item_due(&self, moment: u64) -> Option<Due>
        ensures { MatchOption result (IsNoneOfQueues self.now moment) (IsFirstOfQueues self.now moment) }
    {
        sooner(self.research_due(moment), self.planet_due(moment))
    }

    // The fleet that comes first by a moment.
    fn coming_due(&self, moment: u64) -> Option<Fleet>
        ensures { MatchOption result (IsNoneComing self.now moment) (IsFirstComing self.now moment) }
    {
        let mut first = None;
        'planets: for (at, cell) in self.planets.iter() {
            first = sooner_coming(first, cell.fleets.first_coming(*at, moment));
        }
        first
    }

    // The first item of an account that is due by a moment.
    fn research_due(&self, moment: u64) -> Option<Due>
        ensures { MatchOption result (IsNoneOfThese is_research self.now moment) (IsFirstOfThese is_research self.now moment) }
    {
        let mut first = None;
        'accounts: for (player, cell) in self.accounts.iter() {
            first = sooner(first, cell.owed(*player, moment));
        }
        first
    }

    // The first item of a planet that is due by a moment.
    fn planet_due(&self, moment: u64) -> Option<Due>
        ensures { MatchOption result (IsNoneOfThese is_of_planet self.now moment) (IsFirstOfThese is_of_planet self.now moment) }
    {
        let mut first = None;
        'planets: for (at, cell) in self.planets.iter() {
            first = sooner(first, cell.owed(*at, moment));
        }
        first
    }
}
