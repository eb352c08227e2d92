// Whether the accounts of a base have no more fleets than they may have.
ghost use Rattle.std.specs.Prelude.{◌≡◌, ◌↔◌, All, IfOk, IsTrue, length, map, unwrap_or};
ghost use Rattle.std.specs.BTreeMap.{get};
ghost use Rattle.account_cell.specs.Account.{account_fields};
ghost use Rattle.base_bytes.specs.Sound.{HasSlots};
ghost use Rattle.base_bytes.specs.Tallies.{AreCounted, player_order};
ghost use Rattle.base_ids.specs.declared.player.Player.{Player};
ghost use Rattle.fleet_rec.specs.Fleet.{fleet_seen};
ghost use Rattle.tick_model.specs.Lines.{slots_of};

use account_cell::Account;
use base_ids::Player;
use catalog::{Kind, Technology};
use fleet_rec::{Fleet, Fleets};
use std::alloc::{AllocError, Global};
use std::collections::BTreeMap;

/// Whether no account has more fleets than its computers allow. It looks at each fleet and at each account once.
pub fn fleets_fit_slots(
    alloc: Global,
    accounts: &[Account],
    fleets: &Fleets,
) -> Result<bool, AllocError>
    ensures { IfOk result (λ fit. IsTrue fit ↔ All (HasSlots fleets.now) accounts.now) }
{
    let counts = count_fleets(alloc, fleets.as_slice())?;
    'accounts: for account in accounts {
        if fleet_count(&counts, account.player) > slots(account) {
            return Ok(false);
        }
    }
    Ok(true)
}

// How many of the fleets each player has, for those who have some.
fn count_fleets(alloc: Global, fleets: &[Fleet]) -> Result<BTreeMap<Player, usize>, AllocError>
    ensures { IfOk result (λ counts. AreCounted counts (map fleet_seen fleets.now)) }
{
    let mut counts = BTreeMap::new(alloc);
    'fleets: for fleet in fleets {
        let count = fleet_count(&counts, fleet.owner);
        counts.insert(fleet.owner, count + 1)?;
    }
    Ok(counts)
}

fn fleet_count(counts: &BTreeMap<Player, usize>, player: Player) -> usize
    ensures { result ≡ unwrap_or (get player_order counts.now player) 0 }
{
    match counts.get(&player) {
        Some(count) => *count,
        None => 0,
    }
}

// How many fleets an account may have.
fn slots(account: &Account) -> usize
    ensures { result ≡ slots_of (account_fields account.now) }
{
    let computer = Technology {
        kind: Kind::Computer,
    };
    1 + usize::from(account.techs.level(computer))
}
