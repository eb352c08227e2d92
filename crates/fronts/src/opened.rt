use crate::fronts::Fronts;
use crate::law::Law;
use crate::naming::{Naming, Origin};
use crate::tokens::{Pass, Token};
use crate::view::View;
use atomic_table::{Seat, Table};
use std::alloc::{AllocError, Global};
use std::marker::{Model, PhantomData};

/// A shared history that has no name yet, and its first view. Contracts see it as the id of its table.
pub struct Opened<O: Origin> {
    table: Table<(), View, (), Law<O>, Global>,
    seat: Seat<(), View>,
}

impl<O: Origin> Model for Opened<O> {
    ghost use Rattle.atomic_table.specs.Seated.{TableId, table_id_coded};

    ghost Value = { TableId };

    ghost coded = { table_id_coded };

    ghost use Rattle.std.specs.Prelude.{◌≡◌, []};
    ghost use Rattle.fronts.specs.History.{IsBounded};
    ghost use Rattle.fronts.specs.Views.{first_view};

    ghost view = { λ o. o.table.shared.table_id };

    ghost invariant = { λ o. (o.seat.table_id ≡ o.table.shared.table_id) × (o.seat.me ≡ (first_view O.start, [])) × (o.table.shared.table_id.words ≡ 2) × (o.table.shared.table_id.slots ≡ 0) × IsBounded O.start O.start.found };
}

impl<O: Origin> Opened<O> {
    ghost use Rattle.std.specs.Prelude.{◌≡◌, length};
    ghost use Rattle.fronts.specs.History.{IsBounded};
    ghost use Rattle.fronts.specs.Views.{first_view};

    /// A shared history that has as many entries as were found, all of them durable.
    pub fn new(alloc: Global, found: u64) -> Result<Opened<O>, AllocError>
        requires count { found ≡ length O.start.found }
        requires legal { IsBounded O.start O.start.found }
    {
        let (table, seat) = Table::of_words(alloc, &[found, found], &())?;
        Ok(Opened { table, seat })
    }

    /// The history under a name, and its first pass.
    pub fn named<J: Naming>(self) -> (Fronts<O, J>, Pass<O, J>)
        requires { self ≡ J.table }
        ensures { result.1 ≡ first_view O.start }
    {
        let Opened { table, seat } = self;
        let token = Token {
            seat,
            of: PhantomData,
        };
        (
            Fronts {
                table,
                of: PhantomData,
            },
            Pass { token },
        )
    }
}
