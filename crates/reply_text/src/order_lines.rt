ghost use Rattle.std.specs.Prelude.{◌≡◌, ◌++◌, OnErr, OnOk};
ghost use Rattle.reply_text.specs.OrderLines.{arrives_line, back_line, starts_line, waits_line};

use crate::lines::push_line;
use base_text::Bytes;
use std::alloc::{AllocError, Global};

/// Appends `starts AMOUNT SECOND`: what was ordered starts at once.
///
/// For a building or a technology these are the level and the second at which it is reached. For a batch of a yard they
/// are its count and the second of its first unit. It fails only if memory runs out, and then appends nothing.
#[tactic(auto, unfolding(crate::specs::Words::line))]
pub fn push_starts(
    alloc: Global,
    body: &mut Bytes,
    amount: u64,
    second: u64,
) -> Result<(), AllocError>
    ensures ok { OnOk result (body.new ≡ body.old ++ starts_line amount second) }
    ensures err { OnErr result (body.new ≡ body.old) }
{
    push_line(alloc, body, format_args!("starts {amount} {second}"))
}

/// Appends `waits PLACE`: what was ordered waits at this place of its queue, counted from 1.
///
/// It fails only if memory runs out, and then appends nothing.
#[tactic(auto, unfolding(crate::specs::Words::line))]
pub fn push_waits(alloc: Global, body: &mut Bytes, place: u64) -> Result<(), AllocError>
    ensures ok { OnOk result (body.new ≡ body.old ++ waits_line place) }
    ensures err { OnErr result (body.new ≡ body.old) }
{
    push_line(alloc, body, format_args!("waits {place}"))
}

/// Appends `arrives SECOND fuel FUEL`: the second at which a fleet arrives, and the units of deuterium that it burns.
///
/// It fails only if memory runs out, and then appends nothing.
#[tactic(auto, unfolding(crate::specs::Words::line))]
pub fn push_arrives(
    alloc: Global,
    body: &mut Bytes,
    second: u64,
    fuel: u64,
) -> Result<(), AllocError>
    ensures ok { OnOk result (body.new ≡ body.old ++ arrives_line second fuel) }
    ensures err { OnErr result (body.new ≡ body.old) }
{
    push_line(alloc, body, format_args!("arrives {second} fuel {fuel}"))
}

/// Appends `back SECOND`: the second at which a fleet that was called back is back.
///
/// It fails only if memory runs out, and then appends nothing.
#[tactic(auto, unfolding(crate::specs::Words::line))]
pub fn push_back(alloc: Global, body: &mut Bytes, second: u64) -> Result<(), AllocError>
    ensures ok { OnOk result (body.new ≡ body.old ++ back_line second) }
    ensures err { OnErr result (body.new ≡ body.old) }
{
    push_line(alloc, body, format_args!("back {second}"))
}
