// Accounts, read from bytes.
ghost use Rattle.std.specs.Prelude.{◌≡◌, ◌++◌, IfOk, IsSomeAnd, List, ℕ};
ghost use Rattle.account_cell.specs.declared.account.Account.{Account};
ghost use Rattle.base_bytes.specs.Spelling.{account_bytes};
ghost use Rattle.base_bytes.specs.Told.{AccountFits, AreAlike};

use crate::caps::are_techs_within;
use crate::fields::{next_levels, next_player};
use crate::queues::next_queue;
use account_cell::Account;
use catalog::{Techs, UNITS};
use records::numbers::Numbers;
use std::alloc::{AllocError, Global};

/// The next account, without the places of its planets, which the bytes of the planets tell.
pub fn next_account(alloc: Global, numbers: &mut Numbers) -> Result<Option<Account>, AllocError>
    ensures { IfOk result (λ found. (account : Account) (more : List ℕ) → AccountFits account → numbers.old.rest.now ≡ account_bytes account ++ more
        → IsSomeAnd found (AreAlike account) × (numbers.new.rest.now ≡ more)) }
{
    let player = next_player(numbers);
    let mut n = [0; 14];
    next_levels(numbers, &mut n);
    let techs = Techs { n };
    let units = numbers.next_u32();
    let queue = next_queue(alloc, numbers)?;
    let (Some(player), Some(research)) = (player, queue) else {
        return Ok(None);
    };
    if units > UNITS || !are_techs_within(&techs, &research) {
        return Ok(None);
    }
    Ok(Some(Account {
        player,
        techs,
        planets: Vec::new(alloc),
        units,
        research,
    }))
}
