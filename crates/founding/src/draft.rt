ghost use Rattle.std.specs.Prelude.{◌≡◌, ◌+◌, ◌≤◌, length, IsTrue, ◌↔◌, MatchOption, None, Some};
ghost use Rattle.catalog.specs.declared.ships.TheConstants.{UNITS};
ghost use Rattle.base_bytes.specs.Base.{universe_of};
ghost use Rattle.base_bytes.specs.Sound.{IsSound};
ghost use Rattle.founding.specs.DraftMaps.{draft_of, planet_of, IsKept};
ghost use Rattle.founding.specs.Drafts.{begun, planet_at, units_of, Adds, Gives, Mans, MayName, MayStand, MayTeach, Names, Raises, Stocks, Teaches};
ghost use Rattle.tick_model.specs.Yards.{count_of};
ghost use Rattle.founding.specs.Founded.{founded};
ghost use Rattle.founding.specs.Steps.{Steps};
ghost use Rattle.request_text.specs.declared.line_reader.TheConstants.{LONGEST_LINE};

use crate::account_sketch::AccountSketch;
use crate::fault::LineFault;
use crate::filing::{add_place, count_units, list_accounts, list_planets, put_back, teach};
use crate::heading::Heading;
use crate::named::{NewLevel, NewPlanet, NewStock, NewTechnology, NewUnits};
use crate::read_lines::{
    read_level, read_planet, read_player, read_stock, read_technology, read_units,
};
use crate::sketch::Sketch;
use account_cell::Account;
use base_bytes::Base;
use base_ids::{Coord, Player};
use catalog::UNITS;
use planet_cell::Planet;
use std::alloc::Global;
use std::collections::BTreeMap;

/// The most players of a universe.
pub const MOST_PLAYERS: usize = 10000;

/// The most planets of a universe.
pub const MOST_PLANETS: usize = 20000;

/// The most planets of one player.
pub const MOST_OWNED: usize = 9;

/// What the lines of a founding text have said so far. What a rule asks for is looked up in a map, so that no list is
/// searched. There is room for the lists of the universe, so that founding it takes no memory.
#[derive(Drop)]
pub struct Draft {
    alloc: Global,
    heading: Heading,
    players: BTreeMap<Player, AccountSketch>,
    planets: BTreeMap<Coord, Sketch>,
    account_room: Vec<Account>,
    planet_room: Vec<Planet>,
}

impl Draft {
    /// A draft that says no more than its heading. It takes no memory.
    pub fn new(alloc: Global, heading: Heading) -> Draft
        ensures begun { draft_of result ≡ begun heading }
        ensures kept { IsKept result }
    {
        Draft {
            alloc,
            heading,
            players: BTreeMap::new(alloc),
            planets: BTreeMap::new(alloc),
            account_room: Vec::new(alloc),
            planet_room: Vec::new(alloc),
        }
    }

    /// Adds what the line says.
    pub fn add_line(&mut self, line: &[u8]) -> Result<(), LineFault>
        requires kept { IsKept self.old }
        requires short { length line.now ≤ LONGEST_LINE }
        ensures steps { Steps (λ old new. Adds (Some old) line.now new) self.old self.new result }
        ensures kept { IsKept self.new }
    {
        if let Some(player) = read_player(line) {
            return self.name_player(player);
        }
        if let Some(planet) = read_planet(line) {
            return self.give_planet(planet);
        }
        if let Some(stock) = read_stock(line) {
            return self.say_stock(stock);
        }
        if let Some(level) = read_level(line) {
            return self.say_level(level);
        }
        if let Some(technology) = read_technology(line) {
            return self.say_technology(technology);
        }
        if let Some(units) = read_units(line) {
            return self.say_units(units);
        }
        Err(LineFault::Bad)
    }

    /// The universe that the lines found. It takes no memory.
    pub fn found(self) -> Base
        requires { IsKept self }
        ensures universe { universe_of result ≡ founded (draft_of self) }
        ensures capacity { result.capacity ≡ (draft_of self).heading.capacity }
        ensures sound { IsSound result }
    {
        let Draft {
            alloc,
            heading,
            players,
            planets,
            account_room,
            planet_room,
        } = self;
        let accounts = list_accounts(alloc, players, account_room);
        let planets = list_planets(alloc, &planets, planet_room);
        heading.base(alloc, accounts, planets)
    }

    // Names the player.
    fn name_player(&mut self, player: Player) -> Result<(), LineFault>
        requires { IsKept self.old }
        ensures steps { Steps (λ old new. Names old player new) self.old self.new result }
        ensures kept { IsKept self.new }
    {
        if !self.may_name(player) {
            return Err(LineFault::Bad);
        }
        self.account_room.reserve(self.players.len() + 1)?;
        let places = Vec::with_capacity(self.alloc, MOST_OWNED)?;
        self.players.insert(player, AccountSketch::new(places))?;
        Ok(())
    }

    // Whether the player may be named.
    fn may_name(&self, player: Player) -> bool
        requires { IsKept self.now }
        ensures { IsTrue result ↔ MayName (draft_of self.now) player }
    {
        self.players.len() < MOST_PLAYERS && !self.players.contains_key(&player)
    }

    // Gives the planet to its owner. The owner's places are changed last, which takes no memory.
    fn give_planet(&mut self, planet: NewPlanet) -> Result<(), LineFault>
        requires { IsKept self.old }
        ensures steps { Steps (λ old new. Gives old planet new) self.old self.new result }
        ensures kept { IsKept self.new }
    {
        if !self.may_stand(planet) {
            return Err(LineFault::Bad);
        }
        self.planet_room.reserve(self.planets.len() + 1)?;
        self.planets.insert(planet.at, Sketch::new(planet))?;
        add_place(&mut self.players, planet.owner, planet.at);
        Ok(())
    }

    // Whether the planet may stand.
    fn may_stand(&self, planet: NewPlanet) -> bool
        requires { IsKept self.now }
        ensures { IsTrue result ↔ MayStand (draft_of self.now) planet }
    {
        if self.planets.len() >= MOST_PLANETS || self.planets.contains_key(&planet.at) {
            return false;
        }
        match self.players.get(&planet.owner) {
            Some(account) => account.planets.len() < MOST_OWNED,
            None => false,
        }
    }

    // The planet that stands there, as lines have made it.
    fn sketch_at(&self, at: Coord) -> Option<Sketch>
        requires { IsKept self.now }
        ensures { MatchOption result
            (planet_at at (draft_of self.now).planets ≡ None)
            (λ sketch. (planet_at at (draft_of self.now).planets ≡ Some (planet_of sketch)) × (sketch.at ≡ at)) }
    {
        self.planets.get(&at).copied()
    }

    // Gives a planet the stock that a line says.
    fn say_stock(&mut self, stock: NewStock) -> Result<(), LineFault>
        requires { IsKept self.old }
        ensures steps { Steps (λ old new. Stocks old stock new) self.old self.new result }
        ensures kept { IsKept self.new }
    {
        let Some(sketch) = self.sketch_at(stock.at) else {
            return Err(LineFault::Bad);
        };
        if sketch.stocked {
            return Err(LineFault::Bad);
        }
        put_back(&mut self.planets, sketch.stocked_with(stock));
        Ok(())
    }

    // Gives a building of a planet the level that a line says.
    fn say_level(&mut self, level: NewLevel) -> Result<(), LineFault>
        requires { IsKept self.old }
        ensures steps { Steps (λ old new. Raises old level new) self.old self.new result }
        ensures kept { IsKept self.new }
    {
        let Some(sketch) = self.sketch_at(level.at) else {
            return Err(LineFault::Bad);
        };
        if !sketch.may_raise(level) {
            return Err(LineFault::Bad);
        }
        put_back(&mut self.planets, sketch.raised_to(level));
        Ok(())
    }

    // Gives a technology of a player the level that a line says.
    fn say_technology(&mut self, new: NewTechnology) -> Result<(), LineFault>
        requires { IsKept self.old }
        ensures steps { Steps (λ old after. Teaches old new after) self.old self.new result }
        ensures kept { IsKept self.new }
    {
        if !self.may_teach(new) {
            return Err(LineFault::Bad);
        }
        teach(&mut self.players, new);
        Ok(())
    }

    // Whether a line may say the level: the player is named, and no line has said one of the technology.
    fn may_teach(&self, new: NewTechnology) -> bool
        requires { IsKept self.now }
        ensures { IsTrue result ↔ MayTeach (draft_of self.now) new }
    {
        match self.players.get(&new.player) {
            Some(account) => account.techs.level(new.technology) == 0,
            None => false,
        }
    }

    // Gives a planet the units that a line says, and counts them for its owner, which takes no memory.
    fn say_units(&mut self, new: NewUnits) -> Result<(), LineFault>
        requires { IsKept self.old }
        ensures steps { Steps (λ old after. Mans old new after) self.old self.new result }
        ensures kept { IsKept self.new }
    {
        let Some(sketch) = self.sketch_at(new.at) else {
            return Err(LineFault::Bad);
        };
        if !self.may_man(&sketch, new) {
            return Err(LineFault::Bad);
        }
        put_back(&mut self.planets, sketch.manned_with(new));
        count_units(&mut self.players, sketch.owner, new.count);
        Ok(())
    }

    // Whether a line may say the units: none has said units of the kind, and all units of the owner are few enough.
    fn may_man(&self, sketch: &Sketch, new: NewUnits) -> bool
        requires { IsKept self.now }
        ensures { IsTrue result ↔ (count_of (planet_of sketch.now).own new.unit.kind ≡ 0)
            × (units_of sketch.now.owner (draft_of self.now).planets + new.count ≤ UNITS) }
    {
        sketch.has_none(new.unit) && self.units_of(sketch.owner) + new.count <= UNITS
    }

    // How many units the planets of a player have.
    fn units_of(&self, owner: Player) -> u32
        requires { IsKept self.now }
        ensures value { result ≡ units_of owner (draft_of self.now).planets }
        ensures within { result ≤ UNITS }
    {
        match self.players.get(&owner) {
            Some(account) => account.units,
            None => 0,
        }
    }
}
