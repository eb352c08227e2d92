ghost use Rattle.std.specs.Prelude.{◌≡◌, ◌++◌, OnErr, OnOk};
ghost use Rattle.reply_text.specs.QueueLines.{building_line, research_line, waiting_building_line, waiting_research_line, yard_line, yard_waiting_line};

use crate::lines::push_line;
use base_ids::Coord;
use base_text::Bytes;
use catalog::Kind;
use std::alloc::{AllocError, Global};

/// A building that is built: the number of its order, its kind, the level that it reaches, and the second at which it
/// does.
#[derive(Clone, Copy, Debug, PartialEq, Eq)]
pub struct RunningBuilding {
    pub number: u64,
    pub kind: Kind,
    pub level: u8,
    pub second: u64,
}

/// A batch that a yard builds: the number of its order, the kind of its units, how many of them are left, and the second
/// of the next.
#[derive(Clone, Copy, Debug, PartialEq, Eq)]
pub struct RunningBatch {
    pub number: u64,
    pub kind: Kind,
    pub left: u32,
    pub second: u64,
}

/// A technology that is researched: the number of its order, its kind, the level that it reaches, the second at which
/// it does, and the place of the planet whose lab does it.
#[derive(Clone, Copy, Debug, PartialEq, Eq)]
pub struct RunningResearch {
    pub number: u64,
    pub kind: Kind,
    pub level: u8,
    pub second: u64,
    pub at: Coord,
}

/// Appends `building N BUILDING LEVEL SECOND`: the building that is built.
///
/// It fails only if memory runs out, and then appends nothing.
#[tactic(auto, unfolding(crate::specs::Words::line))]
pub fn push_building(
    alloc: Global,
    body: &mut Bytes,
    item: RunningBuilding,
) -> Result<(), AllocError>
    ensures ok { OnOk result (body.new ≡ body.old ++ building_line item) }
    ensures err { OnErr result (body.new ≡ body.old) }
{
    let RunningBuilding {
        number,
        kind,
        level,
        second,
    } = item;
    push_line(
        alloc,
        body,
        format_args!("building {number} {kind} {level} {second}"),
    )
}

/// Appends `waiting N BUILDING`: a building that waits, after the number of its order.
///
/// It fails only if memory runs out, and then appends nothing.
#[tactic(auto, unfolding(crate::specs::Words::line))]
pub fn push_waiting_building(
    alloc: Global,
    body: &mut Bytes,
    number: u64,
    kind: Kind,
) -> Result<(), AllocError>
    ensures ok { OnOk result (body.new ≡ body.old ++ waiting_building_line number kind) }
    ensures err { OnErr result (body.new ≡ body.old) }
{
    push_line(alloc, body, format_args!("waiting {number} {kind}"))
}

/// Appends `yard N UNIT LEFT SECOND`: the batch that a yard builds.
///
/// It fails only if memory runs out, and then appends nothing.
#[tactic(auto, unfolding(crate::specs::Words::line))]
pub fn push_yard(alloc: Global, body: &mut Bytes, batch: RunningBatch) -> Result<(), AllocError>
    ensures ok { OnOk result (body.new ≡ body.old ++ yard_line batch) }
    ensures err { OnErr result (body.new ≡ body.old) }
{
    let RunningBatch {
        number,
        kind,
        left,
        second,
    } = batch;
    push_line(
        alloc,
        body,
        format_args!("yard {number} {kind} {left} {second}"),
    )
}

/// Appends `yardwaiting N UNIT LEFT`: a batch that waits, after the number of its order, and how many units it has.
///
/// It fails only if memory runs out, and then appends nothing.
#[tactic(auto, unfolding(crate::specs::Words::line))]
pub fn push_yard_waiting(
    alloc: Global,
    body: &mut Bytes,
    number: u64,
    kind: Kind,
    left: u32,
) -> Result<(), AllocError>
    ensures ok { OnOk result (body.new ≡ body.old ++ yard_waiting_line number kind left) }
    ensures err { OnErr result (body.new ≡ body.old) }
{
    push_line(
        alloc,
        body,
        format_args!("yardwaiting {number} {kind} {left}"),
    )
}

/// Appends `research N TECH LEVEL SECOND C`: the technology that is researched.
///
/// It fails only if memory runs out, and then appends nothing.
#[tactic(auto, unfolding(crate::specs::Words::line))]
pub fn push_research(
    alloc: Global,
    body: &mut Bytes,
    item: RunningResearch,
) -> Result<(), AllocError>
    ensures ok { OnOk result (body.new ≡ body.old ++ research_line item) }
    ensures err { OnErr result (body.new ≡ body.old) }
{
    let RunningResearch {
        number,
        kind,
        level,
        second,
        at,
    } = item;
    push_line(
        alloc,
        body,
        format_args!("research {number} {kind} {level} {second} {at}"),
    )
}

/// Appends `waiting N TECH C`: a technology that waits, after the number of its order, and the place of the planet whose
/// lab will do it.
///
/// It fails only if memory runs out, and then appends nothing.
#[tactic(auto, unfolding(crate::specs::Words::line))]
pub fn push_waiting_research(
    alloc: Global,
    body: &mut Bytes,
    number: u64,
    kind: Kind,
    at: Coord,
) -> Result<(), AllocError>
    ensures ok { OnOk result (body.new ≡ body.old ++ waiting_research_line number kind at) }
    ensures err { OnErr result (body.new ≡ body.old) }
{
    push_line(alloc, body, format_args!("waiting {number} {kind} {at}"))
}
