ghost use Rattle.std.specs.Prelude.{◌<◌, ◌≤◌, ◌≡◌, ◌^◌, IsTrue};
ghost use Rattle.base_ids.specs.declared.numbers.TheConstants.{LAST_NUMBER};
ghost use Rattle.base_ids.specs.Cells.{same_cell};
ghost use Rattle.ports.specs.declared.clock.TheConstants.{LATEST};

use base_ids::{CellId, Coord, Key, Player};
use catalog::{Amounts, Mission, Ships, SpeedSetting};
use reply_text::{FleetLine, Stage, Units};

/// A fleet: the number of the request that sent it; its group, which is the same number if it joined nobody; its owner; its mission;
/// its origin and its target, and who owned the target when it was sent; whether it flies out or back; its speed setting; the
/// second at which it was sent, at most `ports::LATEST`, and the one at which it arrives, below 2^42, or is back, below 2^43; its
/// cargo and its ships.
///
/// The number is 0 until it is drawn, and so is then the group of a fleet that joined nobody.
#[derive(Clone, Copy, Debug, PartialEq, Eq)]
pub struct Fleet {
    pub number: u64,
    pub group: u64,
    pub owner: Player,
    pub mission: Mission,
    pub origin: Coord,
    pub target: Coord,
    pub target_owner: Player,
    pub outbound: bool,
    pub setting: SpeedSetting,
    pub launch: u64,
    pub second: u64,
    pub cargo: Amounts,
    pub ships: Ships,
    pub ghost drawn: { number ≤ LAST_NUMBER },
    pub ghost grouped: { group ≤ LAST_NUMBER },
    pub ghost launched: { launch ≤ LATEST },
    pub ghost arrives: { IsTrue outbound → second < 2 ^ 42 },
    pub ghost in_time: { second < 2 ^ 43 },
}

impl Fleet {
    ghost use Rattle.std.specs.Prelude.{◌<◌, ◌≤◌, ◌≡◌, ◌^◌, IsTrue, sum};
    ghost use Rattle.base_ids.specs.Order.{event_key, key_before};
    ghost use Rattle.base_ids.specs.declared.numbers.TheConstants.{LAST_NUMBER};
    ghost use Rattle.fleet_rec.specs.Fleet.{cargo_seen, fleet_seen, numbered};
    ghost use Rattle.ports.specs.declared.clock.TheConstants.{LATEST};
    ghost use Rattle.fleet_rec.specs.Fleets.{coming_key};
    ghost use Rattle.tick_model.specs.Battles.{back_with};
    ghost use Rattle.tick_model.specs.Flights.{back_at, landing, recalled_at, turned};
    ghost use Rattle.tick_model.specs.Lines.{flight_of};
    ghost use Rattle.tick_model.specs.Raids.{attacks};
    ghost use Rattle.tick_model.specs.Views.{belongs};

    /// Where it lands: at its target, or on its way back at its origin.
    pub fn landing(&self) -> Coord
        ensures { result ≡ landing (fleet_seen self.now) }
    {
        if self.outbound {
            self.target
        } else {
            self.origin
        }
    }

    /// Whether it belongs to a cell: to its origin and its owner's account, and on its way out also to its target and the account
    /// of its target's owner.
    pub fn belongs(&self, cell: CellId) -> bool
        ensures { result ≡ belongs cell (fleet_seen self.now) }
    {
        is_same(CellId::Planet(self.origin), cell)
            || is_same(CellId::Account(self.owner), cell)
            || self.outbound
                && (is_same(CellId::Planet(self.target), cell)
                    || is_same(CellId::Account(self.target_owner), cell))
    }

    /// The fleet after it has landed at its target and turned back with a cargo. The way back takes as long as the way out.
    pub fn turned(self, cargo: Amounts) -> Fleet
        requires { IsTrue self.outbound }
        ensures { fleet_seen result ≡ turned (fleet_seen self) (back_at (fleet_seen self)) (cargo_seen cargo) }
    {
        let way = self.second.saturating_sub(self.launch);
        self.heading_back(self.second + way, cargo)
    }

    /// The fleet after it was recalled at a moment. It is back after as long as it flew, and no sooner than a second later.
    pub fn recalled(self, moment: u64) -> Fleet
        requires { moment ≤ LATEST }
        ensures { fleet_seen result ≡ turned (fleet_seen self) (recalled_at (fleet_seen self) moment) (cargo_seen self.cargo) }
    {
        let flown = moment.saturating_sub(self.launch);
        self.heading_back(moment + flown.max(1), self.cargo)
    }

    /// The fleet on its way back, to be there at a second.
    fn heading_back(self, second: u64, cargo: Amounts) -> Fleet
        requires { second < 2 ^ 43 }
        ensures { fleet_seen result ≡ turned (fleet_seen self) second (cargo_seen cargo) }
    {
        Fleet {
            number: self.number,
            group: self.group,
            owner: self.owner,
            mission: self.mission,
            origin: self.origin,
            target: self.target,
            target_owner: self.target_owner,
            outbound: false,
            setting: self.setting,
            launch: self.launch,
            second,
            cargo,
            ships: self.ships,
        }
    }

    /// The fleet with the number that was drawn for it. If it joined nobody, its group has that number too.
    pub fn numbered(self, number: u64) -> Fleet
        requires { number ≤ LAST_NUMBER }
        ensures { fleet_seen result ≡ numbered number (fleet_seen self) }
    {
        Fleet {
            number,
            group: if self.group == 0 { number } else { self.group },
            owner: self.owner,
            mission: self.mission,
            origin: self.origin,
            target: self.target,
            target_owner: self.target_owner,
            outbound: self.outbound,
            setting: self.setting,
            launch: self.launch,
            second: self.second,
            cargo: self.cargo,
            ships: self.ships,
        }
    }

    /// Whether it flies out to attack.
    pub fn attacks(&self) -> bool
        ensures { result ≡ attacks (fleet_seen self.now) }
    {
        self.outbound && matches!(self.mission, Mission::Attack)
    }

    /// The number of that to which it comes: the battle of its group, or its own landing.
    pub fn event_number(&self) -> u64
        ensures { result ≡ (coming_key (fleet_seen self.now)).number }
    {
        if self.attacks() {
            self.group
        } else {
            self.number
        }
    }

    /// The step of that to which it comes: a fleet that arrives comes before a battle, and that before one that is back.
    pub fn step(&self) -> u8
        ensures { result ≡ (coming_key (fleet_seen self.now)).step }
    {
        if self.attacks() {
            5
        } else if self.outbound {
            4
        } else {
            6
        }
    }

    /// The key of that to which it comes, which orders it among all events.
    pub fn key(&self) -> Key
        requires drawn { 1 ≤ self.now.number }
        requires grouped { 1 ≤ self.now.group }
        requires in_time { self.now.second < 2 ^ 42 }
        ensures { event_key result ≡ coming_key (fleet_seen self.now) }
    {
        Key {
            second: self.second,
            number: self.event_number(),
            step: self.step(),
        }
    }

    /// Whether it comes before the other: by second, then number, then step.
    pub fn is_before(&self, other: &Fleet) -> bool
        ensures { result ≡ key_before (coming_key (fleet_seen self.now)) (coming_key (fleet_seen other.now)) }
    {
        if self.second != other.second {
            return self.second < other.second;
        }
        if self.event_number() != other.event_number() {
            return self.event_number() < other.event_number();
        }
        self.step() < other.step()
    }

    /// The fleet after a battle of which this is left of it: it turns back with these ships and this cargo.
    pub fn back_with(self, left: &Fleet) -> Fleet
        requires { IsTrue self.outbound }
        ensures { fleet_seen result ≡ back_with (fleet_seen self) (fleet_seen left.now) }
    {
        let back = self.turned(left.cargo);
        back.manned_by(left.ships)
    }

    /// The fleet with other ships.
    fn manned_by(self, ships: Ships) -> Fleet
        ensures { fleet_seen result ≡ record (fleet_seen self) { ships = ships.n } }
    {
        Fleet {
            number: self.number,
            group: self.group,
            owner: self.owner,
            mission: self.mission,
            origin: self.origin,
            target: self.target,
            target_owner: self.target_owner,
            outbound: self.outbound,
            setting: self.setting,
            launch: self.launch,
            second: self.second,
            cargo: self.cargo,
            ships,
        }
    }

    /// What its line shows.
    pub fn line(&self) -> FleetLine
        ensures { result ≡ flight_of (fleet_seen self.now) }
    {
        FleetLine {
            number: self.number,
            group: self.group,
            mission: self.mission,
            from: self.origin,
            to: self.target,
            stage: if self.outbound {
                Stage::Out
            } else {
                Stage::Back
            },
            second: self.second,
            cargo: Units {
                metal: self.cargo.m,
                crystal: self.cargo.c,
                deuterium: self.cargo.d,
            },
            ships: self.ships.n,
        }
    }

    /// How many ships it has.
    #[tactic(auto, using(crate::proofs::Ships::ships))]
    pub fn ship_total(&self) -> u32
        ensures value { result ≡ sum (fleet_seen self.now).ships }
        ensures within { result ≤ 1300000 }
    {
        self.ships.n.iter().sum()
    }
}

/// Whether both are the same cell.
fn is_same(one: CellId, other: CellId) -> bool
    ensures { result ≡ same_cell one other }
{
    one == other
}
