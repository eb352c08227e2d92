// The requests that numbers in an entry's bytes stand for. Each answers `None` if its numbers stand for nothing.
ghost use Rattle.std.specs.Prelude.{◌≡◌, Some};
ghost use Rattle.base_ids.specs.declared.coord.Coord.{Coord};
ghost use Rattle.base_ids.specs.declared.fleet_number.FleetNumber.{FleetNumber};
ghost use Rattle.base_ids.specs.declared.system.System.{System as SystemId};
ghost use Rattle.catalog.specs.declared.amounts.Amounts.{Amounts};
ghost use Rattle.catalog.specs.declared.classes.Building.{Building};
ghost use Rattle.catalog.specs.declared.classes.Technology.{Technology};
ghost use Rattle.catalog.specs.declared.classes.Unit.{Unit as UnitKind};
ghost use Rattle.catalog.specs.declared.classes.Work.{Work};
ghost use Rattle.catalog.specs.declared.mission.Mission.{Mission};
ghost use Rattle.catalog.specs.declared.settings.Count.{Count};
ghost use Rattle.catalog.specs.declared.settings.SpeedSetting.{SpeedSetting};
ghost use Rattle.catalog.specs.declared.settings.Tenths.{Tenths};
ghost use Rattle.catalog.specs.declared.ships.Ships.{Ships};
ghost use Rattle.records.specs.Columns.{order_of, load_of};
ghost use Rattle.request_text.specs.Forms.{form_number};
ghost use Rattle.request_text.specs.Words.{form_of};
ghost use Rattle.request_text.specs.declared.request.Request.{Request};

use crate::fields::{Load, Order};
use crate::values::{
    cargo, coord, count, fleet_number, member, mission, ships, speed_setting, system, tenths,
};
use request_text::Request;

pub fn request_of(form: u8, order: &Order, load: &Load) -> Option<Request>
    ensures { (req : Request) → form ≡ form_number (form_of req) → order.now ≡ order_of req → load.now ≡ load_of req
        → result ≡ Some req }
{
    match form {
        1 => planet(order),
        2 => Some(Request::Account),
        3 => Some(Request::Fleets),
        4 => system_of(order),
        5 => build(order),
        6 => research(order),
        7 => yard(order),
        8 => set(order),
        9 => send(order, load),
        10 => join(order, load),
        11 => recall(order),
        _ => None,
    }
}

fn planet(order: &Order) -> Option<Request>
    ensures { (at : Coord) → order.now ≡ order_of (Request.Planet at) → result ≡ Some (Request.Planet at) }
{
    let at = coord(order.from)?;
    Some(Request::Planet(at))
}

fn system_of(order: &Order) -> Option<Request>
    ensures { (at : SystemId) → order.now ≡ order_of (Request.System at) → result ≡ Some (Request.System at) }
{
    let at = system(order.from)?;
    Some(Request::System(at))
}

fn build(order: &Order) -> Option<Request>
    ensures { (at : Coord) (building : Building) → order.now ≡ order_of (Request.Build at building)
        → result ≡ Some (Request.Build at building) }
{
    let at = coord(order.from)?;
    let building = member(order.kind)?;
    Some(Request::Build(at, building))
}

fn research(order: &Order) -> Option<Request>
    ensures { (at : Coord) (technology : Technology) → order.now ≡ order_of (Request.Research at technology)
        → result ≡ Some (Request.Research at technology) }
{
    let at = coord(order.from)?;
    let technology = member(order.kind)?;
    Some(Request::Research(at, technology))
}

fn yard(order: &Order) -> Option<Request>
    ensures { (at : Coord) (unit : UnitKind) (count : Count) → order.now ≡ order_of (Request.Yard at unit count)
        → result ≡ Some (Request.Yard at unit count) }
{
    let at = coord(order.from)?;
    let unit = member(order.kind)?;
    let count = count(order.count)?;
    Some(Request::Yard(at, unit, count))
}

fn set(order: &Order) -> Option<Request>
    ensures { (at : Coord) (work : Work) (tenths : Tenths) → order.now ≡ order_of (Request.Set at work tenths)
        → result ≡ Some (Request.Set at work tenths) }
{
    let at = coord(order.from)?;
    let work = member(order.kind)?;
    let tenths = tenths(order.setting)?;
    Some(Request::Set(at, work, tenths))
}

fn send(order: &Order, load: &Load) -> Option<Request>
    ensures { (from to : Coord) (mission : Mission) (setting : SpeedSetting) (ships : Ships) (cargo : Amounts)
        → order.now ≡ order_of (Request.Send from to mission setting ships cargo)
        → load.now ≡ load_of (Request.Send from to mission setting ships cargo)
        → result ≡ Some (Request.Send from to mission setting ships cargo) }
{
    let from = coord(order.from)?;
    let to = coord(order.to)?;
    let mission = mission(order.mission)?;
    let setting = speed_setting(order.setting)?;
    let ships = ships(load)?;
    let cargo = cargo(load)?;
    Some(Request::Send(from, to, mission, setting, ships, cargo))
}

fn join(order: &Order, load: &Load) -> Option<Request>
    ensures { (fleet : FleetNumber) (from to : Coord) (setting : SpeedSetting) (ships : Ships) (cargo : Amounts)
        → order.now ≡ order_of (Request.Join fleet from to setting ships cargo)
        → load.now ≡ load_of (Request.Join fleet from to setting ships cargo)
        → result ≡ Some (Request.Join fleet from to setting ships cargo) }
{
    let fleet = fleet_number(order.fleet)?;
    let from = coord(order.from)?;
    let to = coord(order.to)?;
    let setting = speed_setting(order.setting)?;
    let ships = ships(load)?;
    let cargo = cargo(load)?;
    Some(Request::Join(fleet, from, to, setting, ships, cargo))
}

fn recall(order: &Order) -> Option<Request>
    ensures { (fleet : FleetNumber) → order.now ≡ order_of (Request.Recall fleet) → result ≡ Some (Request.Recall fleet) }
{
    let fleet = fleet_number(order.fleet)?;
    Some(Request::Recall(fleet))
}
