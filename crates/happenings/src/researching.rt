ghost use Rattle.std.specs.Prelude.{◌≡◌, ◌≤◌, ◌<◌, true, drop, vec_len, IfSome, Some};
ghost use Rattle.std.specs.BTreeMap.{get};
ghost use Rattle.account_cell.specs.Account.{KeepsHoldings, account_fields, research_item, research_of};
ghost use Rattle.base_ids.specs.declared.cell_id.CellId.{CellId};
ghost use Rattle.base_ids.specs.declared.player.Player.{Player};
ghost use Rattle.catalog.specs.Levels.{level_cap_of};
ghost use Rattle.catalog.specs.declared.kind.Kind.TheVariants.{Lab};
ghost use Rattle.catalog.specs.declared.settings.TheConstants.{TOP_SPEED};
ghost use Rattle.happenings.specs.Orders.{place_order};
ghost use Rattle.happenings.specs.Researching.{AreOwns, ArePlaced, FinishesResearch, GainsAt, HasPayer, HaveOwns, PayersBehind, PayersGain, Pays, came_first, own_held};
ghost use Rattle.happenings.specs.declared.held.PlanetCell.{PlanetCell as PlanetCellOf};
ghost use Rattle.planet_cell.specs.Planet.{fields_of};
ghost use Rattle.ports.specs.declared.clock.TheConstants.{LATEST};
ghost use Rattle.prices.specs.Prices.{cost_in};
ghost use Rattle.tick_model.specs.Production.{level_of};
ghost use Rattle.tick_model.specs.Researches.{can_start, research_price};
ghost use Rattle.tick_model.specs.Universe.{AccountFields, Own};

use crate::held::{AccountCell, PlanetCell};
use account_cell::{Account, ResearchItem};
use base_ids::Coord;
use catalog::Amounts;
use std::collections::BTreeMap;
use tick_model::Rules;

/// The research that runs in an account is done at a second: the level of its technology rises, the planets that are to pay what
/// waits gain until then, and the first item that can start is paid and starts; those before it are dropped.
pub fn finish_research(
    cell: &mut AccountCell,
    planets: &mut BTreeMap<Coord, PlanetCell>,
    rules: &Rules,
    second: u64,
)
    requires some { 0 < vec_len cell.old.account.research }
    requires in_time { second ≤ LATEST }
    requires behind { PayersBehind (drop 1 cell.old.account.research.items) second planets.old }
    ensures second { cell.new.second ≡ second }
    ensures keeps { KeepsHoldings cell.old.account cell.new.account }
    ensures fleets { cell.new.fleets ≡ cell.old.fleets }
    ensures done { FinishesResearch rules.now second cell.old.account cell.new.account planets.old planets.new }
    ensures placed { ArePlaced planets.old → ArePlaced planets.new }
{
    cell.second = second;
    cell.account.finish_research();
    gain_payers(cell.account.research.as_slice(), planets, rules, second);
    start_first(&mut cell.account, planets, rules, second);
}

/// The planets that are to pay these items gain until a second.
fn gain_payers(
    items: &[ResearchItem],
    planets: &mut BTreeMap<Coord, PlanetCell>,
    rules: &Rules,
    second: u64,
)
    requires { PayersBehind items.now second planets.old }
    ensures gains { PayersGain rules.now second items.now planets.old planets.new }
    ensures placed { ArePlaced planets.old → ArePlaced planets.new }
{
    'items: for item in items {
        gain_payer(planets, item.at, rules, second);
    }
}

/// The planet at a place, if it is there, gains until a second.
fn gain_payer(planets: &mut BTreeMap<Coord, PlanetCell>, at: Coord, rules: &Rules, second: u64)
    requires { IfSome (get place_order planets.old at) (λ cell. cell.second ≤ second) }
    ensures gains { GainsAt rules.now second at planets.old planets.new }
    ensures placed { ArePlaced planets.old → ArePlaced planets.new }
{
    if let Some(cell) = planets.get_mut(&at) {
        cell.gain_to(rules, second);
    }
}

/// The first of the items of an account, which all wait, that can start is paid by its planet and starts at a second. Those before it
/// are dropped.
fn start_first(
    account: &mut Account,
    planets: &mut BTreeMap<Coord, PlanetCell>,
    rules: &Rules,
    second: u64,
)
    requires { second ≤ LATEST }
    ensures research { (own : CellId → Own) → AreOwns account.old.research.items own planets.old
        → research_of account.new ≡ (came_first rules.now.speed second account.old own).queue }
    ensures planets { (own : CellId → Own) → AreOwns account.old.research.items own planets.old
        → HaveOwns account.old.research.items (came_first rules.now.speed second account.old own).own planets.old planets.new }
    ensures fields { account_fields account.new ≡ account_fields account.old }
    ensures keeps { KeepsHoldings account.old account.new }
    ensures placed { ArePlaced planets.old → ArePlaced planets.new }
{
    'waiting: while let Some(item) = account.first_research() {
        let price = account.next_price(item.kind);
        if can_start(planets, item, price, rules.speed) {
            let lab = pay(planets, item.at, price);
            account.start_research(second, lab, rules.speed);
            return;
        }
        account.drop_research();
    }
}

/// Whether the planet at the place of an item is there, can pay a price, and gives the energy that the technology takes. The speed is 1
/// to `catalog::TOP_SPEED`.
fn can_start(
    planets: &BTreeMap<Coord, PlanetCell>,
    item: ResearchItem,
    price: Amounts,
    speed: u32,
) -> bool
    requires { speed ≤ TOP_SPEED }
    ensures can { (account : AccountFields) (player : Player) → cost_in price ≡ research_price account item.kind.kind
        → result ≡ can_start speed account (own_held (get place_order planets.now item.at)) (research_item player item) }
    ensures payer { result ≡ true → HasPayer (cost_in price) (get place_order planets.now item.at) }
{
    match planets.get(&item.at) {
        Some(cell) => cell.planet.can_pay(price) && cell.planet.gives_energy(speed, item.kind),
        None => false,
    }
}

/// The planet at a place pays a price. The level of its lab.
fn pay(planets: &mut BTreeMap<Coord, PlanetCell>, at: Coord, price: Amounts) -> u8
    requires { HasPayer (cost_in price) (get place_order planets.old at) }
    ensures pays { Pays (cost_in price) at planets.old planets.new }
    ensures placed { ArePlaced planets.old → ArePlaced planets.new }
    ensures lab { (cell : PlanetCellOf) → get place_order planets.old at ≡ Some cell → result ≡ level_of (fields_of cell.planet) Lab }
    ensures within { result ≤ level_cap_of Lab }
{
    let Some(cell) = planets.get_mut(&at) else {
        unreachable!()
    };
    cell.planet.pay(price);
    cell.planet.lab()
}
