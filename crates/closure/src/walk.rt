ghost use Rattle.std.specs.Prelude.{IfOk};
ghost use Rattle.closure.specs.Answers.{IsAnswered};

use crate::ids::Ids;
use crate::look::CellLook;
use crate::outcome::Needed;
use std::alloc::{AllocError, Global};

/// The cells that a request needs to act at a moment, by those that it asks for: the least set that has these and, with
/// each cell, all without which that one can't be brought to the moment. `Missing` exactly if one of them isn't held.
///
/// It fails only if memory runs out. It asks `look` for each cell once, and after each it goes over the cells that it has
/// found.
pub fn needed<L: CellLook>(
    alloc: Global,
    look: &L,
    asked: &Ids,
    moment: u64,
) -> Result<Needed, AllocError>
    ensures { IfOk result (IsAnswered (L.sees look.now) asked.now moment) }
{
    let mut found = Ids::new(alloc).joined(asked.as_slice())?;
    let mut place = 0;
    'walk: while place < found.len() {
        let id = found.as_slice()[place];
        let brought = look.next(alloc, id, moment)?;
        let Some(brought) = brought else {
            let mut missing = Ids::new(alloc);
            missing.push(id)?;
            return Ok(Needed::Missing(missing));
        };
        found = found.joined(brought.as_slice())?;
        place += 1;
    }
    Ok(Needed::Closed(found))
}
