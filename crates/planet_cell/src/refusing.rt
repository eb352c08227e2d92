use crate::paying::can_pay;
use crate::places::place_in;
use crate::planet::Planet;
use catalog::{Building, Class, Kind, TECHNOLOGIES, Techs};
use tick_model::{LEVEL_CAP, MOST_QUEUED, NO_FIELDS, POOR, QUEUE_FULL, REQUIRES};

impl Planet {
    ghost use Rattle.std.specs.Prelude.{◌≡◌, ◌+◌, ◌<◌, ◌≤◌, ◌&&◌, not, if◌then◌else◌, nat_le, length};
    ghost use Rattle.catalog.specs.Classes.{is_building};
    ghost use Rattle.catalog.specs.Levels.{level_cap_of};
    ghost use Rattle.catalog.specs.Technologies.{level_in};
    ghost use Rattle.planet_cell.specs.Planet.{batches_of, buildings_of, fields_of};
    ghost use Rattle.tick_model.specs.Buildings.{can_pay, next_price};
    ghost use Rattle.tick_model.specs.Production.{level_of};
    ghost use Rattle.tick_model.specs.Refusals.{are_met, build_refusal, is_empty, queued, used_fields};

    /// Why the next level of a building can't be ordered on the planet by an account with these technologies: the code of the
    /// first reason that there is, or 0 if there is none.
    ///
    /// The reasons are, in this order: `tick_model::QUEUE_FULL`, `LEVEL_CAP`, `REQUIRES`, `NO_FIELDS` and `POOR`.
    #[tactic(auto, unfolding(tick_model::specs::Refusals::build_refusal))]
    pub fn build_refusal(&self, techs: &Techs, building: Building) -> u8
        ensures { result ≡ build_refusal (record { techs = techs.now }) (fields_of self.now) (buildings_of self.now) building.kind }
    {
        if self.is_full() {
            return QUEUE_FULL;
        }
        if self.is_capped(building) {
            return LEVEL_CAP;
        }
        if !self.meets_needs(techs, building.kind) {
            return REQUIRES;
        }
        if self.has_no_field() {
            return NO_FIELDS;
        }
        if self.is_poor(building) {
            return POOR;
        }
        0
    }

    /// Whether the queue has as many items as it may have.
    fn is_full(&self) -> bool
        ensures { result ≡ nat_le MOST_QUEUED (length (buildings_of self.now)) }
    {
        self.buildings.len() >= MOST_QUEUED
    }

    /// Whether the levels and the items of the queue reach the fields.
    fn has_no_field(&self) -> bool
        ensures { result ≡ nat_le self.now.fields (used_fields (fields_of self.now) + length (buildings_of self.now)) }
    {
        usize::from(self.used_fields()) + self.buildings.len() >= usize::from(self.fields)
    }

    /// Whether the next level of a building would start at once, and can't be paid.
    fn is_poor(&self, building: Building) -> bool
        requires { level_of (fields_of self.now) building.kind < level_cap_of building.kind }
        ensures { result ≡ (is_empty (buildings_of self.now) && not (can_pay (fields_of self.now).stock (next_price (fields_of self.now) building.kind))) }
    {
        self.buildings.is_empty() && !can_pay(self.stock, self.next_price(building))
    }

    /// Whether the level of a building and its items in the queue reach the highest level.
    fn is_capped(&self, building: Building) -> bool
        ensures { result ≡ nat_le (level_cap_of building.kind) (level_of (fields_of self.now) building.kind + queued building.kind (buildings_of self.now)) }
    {
        usize::from(self.level(building)) + self.queued(building)
            >= usize::from(building.kind.level_cap())
    }

    /// How many items of a kind stand in the queue.
    #[tactic(auto, using(crate::proofs::Counts::queued_items))]
    fn queued(&self, building: Building) -> usize
        ensures value { result ≡ queued building.kind (buildings_of self.now) }
        ensures within { result ≤ MOST_QUEUED }
    {
        self.buildings
            .iter()
            .filter(|item| item.kind.kind.number() == building.kind.number())
            .count()
    }

    /// Whether all prerequisites of a kind are met, buildings by the planet and technologies by the account.
    #[tactic(auto, unfolding(tick_model::specs::Refusals::are_met))]
    pub fn meets_needs(&self, techs: &Techs, kind: Kind) -> bool
        ensures { result ≡ are_met (record { techs = techs.now }) (fields_of self.now) kind }
    {
        kind.needs()
            .iter()
            .all(|need| need.level <= self.level_for(techs, need.kind))
    }

    /// The level of a building on the planet, or of a technology in the account. It is 0 for any other kind.
    fn level_for(&self, techs: &Techs, kind: Kind) -> u8
        ensures { result ≡ (if is_building kind then level_of (fields_of self.now) kind else level_in techs.now.n kind) }
    {
        if let Some(building) = Building::of(kind) {
            return self.level(building);
        }
        techs
            .n
            .get(place_in(&TECHNOLOGIES, kind))
            .copied()
            .unwrap_or(0)
    }
}
