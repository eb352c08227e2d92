use crate::naming::{Naming, Origin};
use crate::view::View;
use atomic_table::Seat;
use std::marker::{Model, PhantomData};

/// A view of the history under its name. It has no bytes. Contracts see it as its view.
#[derive(Drop)]
pub struct Token<O: Origin, J: Naming> {
    pub(crate) seat: Seat<(), View>,
    pub(crate) of: PhantomData<(O, J)>,
}

impl<O: Origin, J: Naming> Model for Token<O, J> {
    ghost use Rattle.std.specs.Prelude.{◌≡◌, []};
    ghost use Rattle.fronts.specs.declared.view.View.{View};
    ghost use Rattle.fronts.specs.Tokens.{IsToken};

    ghost Value = { View };

    ghost view = { λ t. t.seat.me.0 };

    ghost invariant = { λ t. (t.seat.table_id ≡ J.table) × (t.seat.me.1 ≡ []) × IsToken O.start t.seat.me.0 };
}

/// What a caller has seen of the history, what it may do, and the number under which it appends. It takes no bytes.
#[derive(Drop)]
pub struct Pass<O: Origin, J: Naming> {
    pub(crate) token: Token<O, J>,
}

impl<O: Origin, J: Naming> Model for Pass<O, J> {
    ghost use Rattle.fronts.specs.declared.view.View.{View};
    ghost use Rattle.fronts.specs.Tokens.{IsPass};

    ghost Value = { View };

    ghost view = { λ p. p.token };

    ghost invariant = { λ p. IsPass O.start p.token };
}

/// What was seen of the history, and perhaps claims, with no number to append under. It takes no bytes.
#[derive(Drop)]
pub struct Note<O: Origin, J: Naming> {
    pub(crate) token: Token<O, J>,
}

impl<O: Origin, J: Naming> Model for Note<O, J> {
    ghost use Rattle.fronts.specs.declared.view.View.{View};
    ghost use Rattle.fronts.specs.Tokens.{IsNote};

    ghost Value = { View };

    ghost view = { λ n. n.token };

    ghost invariant = { λ n. IsNote O.start n.token };
}
