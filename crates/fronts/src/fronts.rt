ghost use Rattle.std.specs.Prelude.{◌≡◌};

use crate::law::Law;
use crate::naming::{Naming, Origin};
use crate::view::View;
use atomic_table::Table;
use std::alloc::Global;
use std::marker::PhantomData;

/// The two words that all callers share: how many entries the history has, and how many of them are durable.
#[derive(Drop)]
pub struct Fronts<O: Origin, J: Naming> {
    pub(crate) table: Table<(), View, (), Law<O>, Global>,
    pub(crate) of: PhantomData<J>,
    ghost is: { table.shared.table_id ≡ J.table },
    ghost two_words: { table.shared.table_id.words ≡ 2 },
    ghost no_slots: { table.shared.table_id.slots ≡ 0 },
}
