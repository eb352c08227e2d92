ghost use Rattle.std.specs.Prelude.{◌≡◌, ◌≤◌, IfOk, IfSome};
ghost use Rattle.base_ids.specs.declared.cell_id.CellId.TheVariants.{Account as AccountId};
ghost use Rattle.fleet_rec.specs.Fleet.{fleet_seen};
ghost use Rattle.orders.specs.Sending.{AreCalledBack, AreJoined, called_back_in, joined_in};
ghost use Rattle.ports.specs.declared.clock.TheConstants.{LATEST};

use crate::errand::Errand;
use crate::parts::PartFleets;
use account_cell::Account;
use base_ids::CellId;
use fleet_rec::{Fleet, Fleets};
use std::alloc::{AllocError, Global};

/// The fleets of a cell with one that is sent, if it belongs to the cell. It fails only if memory runs out.
fn joined_in(cell: CellId, fleets: &Fleets, fleet: Fleet) -> Result<Fleets, AllocError>
    ensures { IfOk result (λ all. all ≡ joined_in cell (fleet_seen fleet) fleets.now) }
{
    let mut all = fleets.copy()?;
    if fleet.belongs(cell) {
        all.push(fleet)?;
    }
    Ok(all)
}

/// The same for an account, if there is one.
fn joined_by(
    alloc: Global,
    account: &Option<Account>,
    fleets: &Fleets,
    fleet: Fleet,
) -> Result<Fleets, AllocError>
    ensures { IfOk result (λ all. IfSome account.now (λ owner. all ≡ joined_in (AccountId owner.player) (fleet_seen fleet) fleets.now)) }
{
    match account {
        Some(owner) => joined_in(CellId::Account(owner.player), fleets, fleet),
        None => Ok(Fleets::new(alloc)),
    }
}

/// The fleets of all parts with one that is sent. It fails only if memory runs out.
pub fn joined(
    alloc: Global,
    account: &Account,
    to_owner: &Option<Account>,
    fleets: &PartFleets,
    errand: &Errand,
    fleet: Fleet,
) -> Result<PartFleets, AllocError>
    ensures { IfOk result (λ all. AreJoined account.now to_owner.now errand.now (fleet_seen fleet) fleets.now all) }
{
    Ok(PartFleets {
        caller: joined_in(CellId::Account(account.player), &fleets.caller, fleet)?,
        from: joined_in(CellId::Planet(errand.from), &fleets.from, fleet)?,
        to: joined_in(CellId::Planet(errand.to), &fleets.to, fleet)?,
        to_owner: joined_by(alloc, to_owner, &fleets.to_owner, fleet)?,
    })
}

/// A fleet of a cell is called back at a moment. It takes no memory.
fn call_back_in(cell: CellId, fleets: &mut Fleets, number: u64, moment: u64)
    requires { moment ≤ LATEST }
    ensures { fleets.new ≡ called_back_in cell number moment fleets.old }
{
    fleets.recall(number, moment);
    fleets.keep(cell);
}

/// A fleet of an account is called back in all parts at a moment. It takes no memory.
pub fn call_back(
    account: &Account,
    to_owner: &Option<Account>,
    fleets: &mut PartFleets,
    fleet: Fleet,
    moment: u64,
)
    requires { moment ≤ LATEST }
    ensures { AreCalledBack account.now to_owner.now (fleet_seen fleet) fleet.number moment fleets.old fleets.new }
{
    let number = fleet.number;
    call_back_in(
        CellId::Account(account.player),
        &mut fleets.caller,
        number,
        moment,
    );
    call_back_in(
        CellId::Planet(fleet.origin),
        &mut fleets.from,
        number,
        moment,
    );
    call_back_in(CellId::Planet(fleet.target), &mut fleets.to, number, moment);
    if let Some(owner) = to_owner {
        call_back_in(
            CellId::Account(owner.player),
            &mut fleets.to_owner,
            number,
            moment,
        );
    }
}
