ghost use Rattle.std.specs.Prelude.{◌≡◌, ◌++◌, OnErr, OnOk};
ghost use Rattle.reply_text.specs.AccountLines.{account_line, own_planet_line, tech_lines};

use crate::kind_lines::{Numbers, push_kinds};
use crate::lines::push_line;
use base_ids::{Coord, Player};
use base_text::Bytes;
use catalog::TECHNOLOGIES;
use std::alloc::{AllocError, Global};

/// What the first line of an account shows: the player, how many units the account has, how many fleets, and how many
/// fleets it may have.
#[derive(Clone, Copy, Debug, PartialEq, Eq)]
pub struct AccountHead {
    pub player: Player,
    pub units: u32,
    pub fleets: usize,
    pub slots: u32,
}

/// Appends `account K UNITS FLEETS SLOTS`: an account.
///
/// It fails only if memory runs out, and then appends nothing.
#[tactic(auto, unfolding(crate::specs::Words::line))]
pub fn push_account(alloc: Global, body: &mut Bytes, account: AccountHead) -> Result<(), AllocError>
    ensures ok { OnOk result (body.new ≡ body.old ++ account_line account) }
    ensures err { OnErr result (body.new ≡ body.old) }
{
    let AccountHead {
        player,
        units,
        fleets,
        slots,
    } = account;
    push_line(
        alloc,
        body,
        format_args!("account {player} {units} {fleets} {slots}"),
    )
}

/// Appends `tech TECH LEVEL` for each technology whose level is above 0. The levels stand in the order of `TECHNOLOGIES`,
/// and the lines come in this order.
///
/// It fails only if memory runs out, and then appends nothing.
pub fn push_technologies(
    alloc: Global,
    body: &mut Bytes,
    levels: &[u8; 14],
) -> Result<(), AllocError>
    ensures ok { OnOk result (body.new ≡ body.old ++ tech_lines levels.now) }
    ensures err { OnErr result (body.new ≡ body.old) }
{
    push_kinds(
        alloc,
        body,
        "tech",
        0,
        &TECHNOLOGIES,
        Numbers::Levels(levels),
    )
}

/// Appends `planet C`: a planet of the account. An account lists its planets in the order of their coordinates.
///
/// It fails only if memory runs out, and then appends nothing.
#[tactic(auto, unfolding(crate::specs::Words::line))]
pub fn push_own_planet(alloc: Global, body: &mut Bytes, at: Coord) -> Result<(), AllocError>
    ensures ok { OnOk result (body.new ≡ body.old ++ own_planet_line at) }
    ensures err { OnErr result (body.new ≡ body.old) }
{
    push_line(alloc, body, format_args!("planet {at}"))
}
