ghost use Rattle.std.specs.Prelude.{◌≡◌, ◌≤◌, IfOk};
ghost use Rattle.base_ids.specs.declared.cell_id.CellId.{CellId};
ghost use Rattle.base_ids.specs.declared.numbers.TheConstants.{LAST_NUMBER};
ghost use Rattle.fleet_rec.specs.Fleet.{fleet_seen};
ghost use Rattle.happenings.specs.Held.{IsNamed, held_at};
ghost use Rattle.laziness.specs.Stamps.{Stamps};
ghost use Rattle.lazy.specs.Planning.{CanAnswer};
ghost use Rattle.lazy.specs.Plans.{IsOrdered, IsPlan, fleet_ordered, last_fleet, ordered_at, queue_ordered};
ghost use Rattle.ports.specs.declared.clock.TheConstants.{LATEST};
ghost use Rattle.std.specs.Prelude.{option_map};
ghost use Rattle.tick_model.specs.Game.{game};
ghost use Rattle.tick_model.specs.Universe.{Setting};

use crate::advancing::bring;
use crate::ordered::Ordered;
use crate::taking::{from_place, put_parts, take_parts, to_place};
use base_ids::Player;
use base_text::Bytes;
use closure::Places;
use fleet_rec::{Fleet, Fleets};
use happenings::{Held, Queue};
use orders::act;
use reply_text::Reply;
use request_text::Request;
use std::alloc::{AllocError, Global};
use tick_model::Rules;

/// A request that has acted on copies of its cells and only lacks its number.
#[derive(Drop)]
pub struct Plan {
    cells: Held,
    moment: u64,
    code: u8,
    body: Bytes,
    // What bears the number.
    ordered: Option<Ordered>,
}

impl Plan {
    ghost use Rattle.std.specs.Prelude.{ℕ, ◌≤◌};
    ghost use Rattle.base_ids.specs.declared.numbers.TheConstants.{LAST_NUMBER};
    ghost use Rattle.base_ids.specs.declared.player.Player.{Player};
    ghost use Rattle.happenings.specs.declared.held.Held.{Held};
    ghost use Rattle.lazy.specs.Planning.{IsAnswered};
    ghost use Rattle.request_text.specs.declared.request.Request.{Request};

    /// Gives the request its number: the cells as it leaves them, and its reply. It takes no memory.
    pub fn finish(mut self, number: u64) -> (Held, Reply)
        requires { number ≤ LAST_NUMBER }
        ensures { (setting : Setting) (f : Stamps (game setting)) (held : Held) (player : Player) (req : Request) (moment : ℕ)
            → IsPlan setting held player req moment f self → IsAnswered setting held player req moment number f result.0 result.1 }
    {
        number_ordered(&mut self.cells, self.ordered, number);
        (
            self.cells,
            Reply {
                number,
                moment: self.moment,
                code: self.code,
                body: self.body,
            },
        )
    }
}

/// Works out a request at a moment of at most 2^40 − 1 seconds on copies of the cells that it needs, among those of a directory. It
/// fails only if memory runs out.
///
/// What it orders bears the number 0 until the plan is finished.
pub fn prepare(
    alloc: Global,
    rules: &Rules,
    places: &Places,
    cells: &Held,
    player: Player,
    req: &Request,
    moment: u64,
) -> Result<Plan, AllocError>
    requires can { (setting : Setting) × (f : Stamps (game setting)) × CanAnswer setting rules.now places.now cells.now player req.now moment f }
    requires named { IsNamed cells.now }
    requires in_time { moment ≤ LATEST }
    ensures { IfOk result (λ plan. (setting : Setting) (f : Stamps (game setting))
        → CanAnswer setting rules.now places.now cells.now player req.now moment f → IsPlan setting cells.now player req.now moment f plan) }
{
    let copies = cells.copy(alloc)?;
    work_out(alloc, rules, places, copies, player, req, moment)
}

/// Works out a request as `prepare` does, on the cells themselves. It fails only if memory runs out.
pub(crate) fn work_out(
    alloc: Global,
    rules: &Rules,
    places: &Places,
    cells: Held,
    player: Player,
    req: &Request,
    moment: u64,
) -> Result<Plan, AllocError>
    requires can { (setting : Setting) × (f : Stamps (game setting)) × CanAnswer setting rules.now places.now cells player req.now moment f }
    requires named { IsNamed cells }
    requires in_time { moment ≤ LATEST }
    ensures { IfOk result (λ plan. (setting : Setting) (f : Stamps (game setting))
        → CanAnswer setting rules.now places.now cells player req.now moment f → IsPlan setting cells player req.now moment f plan) }
{
    let mut cells = bring(alloc, rules, cells, moment)?;
    let mut parts = take_parts(alloc, places, &cells, player, req)?;
    let from = from_place(player, &parts.fleets.caller, req);
    let to = to_place(player, &parts.fleets.caller, req);
    let acted = act(alloc, &mut parts, rules, req, moment)?;
    if acted.code > 0 {
        return Ok(Plan {
            cells,
            moment,
            code: acted.code,
            body: acted.body,
            ordered: None,
        });
    }
    let ordered = ordered(player, req, &parts.fleets.caller);
    put_parts(&mut cells, parts, from, to, moment)?;
    Ok(Plan {
        cells,
        moment,
        code: acted.code,
        body: acted.body,
        ordered,
    })
}

/// Gives a number to what a request ordered, if it ordered anything.
fn number_ordered(cells: &mut Held, ordered: Option<Ordered>, number: u64)
    requires { number ≤ LAST_NUMBER }
    ensures numbers { (cell : CellId) → held_at cells.new cell ≡ ordered_at number ordered cells.old cell }
    ensures named { IsNamed cells.old → IsNamed cells.new }
{
    match ordered {
        Some(Ordered::Item(queue)) => cells.number_last(queue, number),
        Some(Ordered::Fleet(fleet)) => cells.number_fleet(&fleet, number),
        None => {}
    }
}

/// What a player's request orders, if it is granted; the caller has these fleets then.
fn ordered(player: Player, req: &Request, fleets: &Fleets) -> Option<Ordered>
    ensures { IsOrdered (queue_ordered player req.now) (fleet_ordered req.now fleets.now) result }
{
    match req {
        Request::Build(at, _) => Some(Ordered::Item(Queue::Buildings(*at))),
        Request::Research(_, _) => Some(Ordered::Item(Queue::Research(player))),
        Request::Yard(at, _, _) => Some(Ordered::Item(Queue::Yard(*at))),
        Request::Send(_, _, _, _, _, _) | Request::Join(_, _, _, _, _, _) => {
            Some(Ordered::Fleet(last_fleet(fleets)?))
        }
        _ => None,
    }
}

/// The last of the fleets.
fn last_fleet(fleets: &Fleets) -> Option<Fleet>
    ensures { option_map fleet_seen result ≡ last_fleet fleets.now }
{
    fleets.as_slice().last().copied()
}
