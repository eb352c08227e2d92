ghost use Rattle.std.specs.Prelude.{[], ◌≤◌};
ghost use Rattle.account_cell.specs.Bounds.{AreWithinCaps};
ghost use Rattle.catalog.specs.declared.ships.TheConstants.{UNITS};

use crate::filing::insert_place;
use crate::named::NewTechnology;
use account_cell::place_of;
use base_ids::Coord;
use catalog::Techs;

/// An account as lines have made it so far: the levels of its technologies, the places of its planets in their order, and how many
/// units these have, at most `catalog::UNITS`. A technology whose level no line has said has level 0.
#[derive(Debug, Drop)]
pub struct AccountSketch {
    pub techs: Techs,
    pub planets: Vec<Coord>,
    pub units: u32,
    pub ghost within_units: { units ≤ UNITS },
    pub ghost within_levels: { AreWithinCaps techs.n [] },
}

impl AccountSketch {
    ghost use Rattle.std.specs.Prelude.{◌≡◌, ◌+◌, ◌<◌, ◌≤◌, [], Some, length, vec_capacity};
    ghost use Rattle.base_ids.specs.Order.{coord_before};
    ghost use Rattle.catalog.specs.declared.ships.TheConstants.{UNITS};
    ghost use Rattle.founding.specs.DraftMaps.{own_in};
    ghost use Rattle.founding.specs.Drafts.{learned_to, put};
    ghost use Rattle.founding.specs.Firsts.{first_account};

    /// The account as it is founded, with no technologies, and these places of its planets, which have no units.
    #[tactic(auto, using(account_cell::proofs::Queues::caps_fresh))]
    pub fn new(planets: Vec<Coord>) -> AccountSketch
        ensures planets { result.planets ≡ planets }
        ensures own { own_in (Some result) ≡ first_account }
        ensures units { result.units ≡ 0 }
    {
        AccountSketch {
            techs: Techs { n: [0; 14] },
            planets,
            units: 0,
        }
    }

    /// The account has one more place, where it belongs in their order. It has room for the place.
    pub fn add_place(&mut self, at: Coord)
        requires { length self.old.planets.items < vec_capacity self.old.planets }
        ensures planets { self.new.planets.items ≡ put coord_before at self.old.planets.items }
        ensures capacity { vec_capacity self.old.planets ≤ vec_capacity self.new.planets }
        ensures own { own_in (Some self.new) ≡ own_in (Some self.old) }
        ensures units { self.new.units ≡ self.old.units }
    {
        insert_place(&mut self.planets, at);
    }

    /// The account has the level of a technology that a line says.
    pub fn learn(&mut self, new: NewTechnology)
        ensures own { own_in (Some self.new) ≡ learned_to new (own_in (Some self.old)) }
        ensures planets { self.new.planets ≡ self.old.planets }
        ensures units { self.new.units ≡ self.old.units }
    {
        self.techs.n[place_of(new.technology)] = new.level;
    }

    /// The planets of the account have so many more units.
    pub fn count_units(&mut self, count: u32)
        requires { self.old.units + count ≤ UNITS }
        ensures own { own_in (Some self.new) ≡ own_in (Some self.old) }
        ensures planets { self.new.planets ≡ self.old.planets }
        ensures units { self.new.units ≡ self.old.units + count }
    {
        self.units += count;
    }
}
