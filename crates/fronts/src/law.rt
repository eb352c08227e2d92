//! The rule of the table, and what each step on it tells or does.
use crate::naming::{Adding, Giving, Origin};
use crate::view::View;
use atomic_table::{Join, Play, Split, TableRule};
use std::marker::PhantomData;

pub struct Law<O> {
    origin: PhantomData<O>,
}

impl<O: Origin> TableRule<(), View, ()> for Law<O> {
    ghost use Rattle.fronts.specs.Rule.{Holds};
    ghost use Rattle.fronts.specs.Views.{first_view};

    ghost holds = { λ about state. Holds O.start state };

    ghost first = { λ about. first_view O.start };
}

// The history is seen.
pub struct Look<O> {
    origin: PhantomData<O>,
}

impl<O: Origin> Play<(), View> for Look<O> {
    ghost use Rattle.fronts.specs.Steps.{Looks};

    ghost then = { Looks O.start };
}

// What two views remember of one another is compared.
pub struct Hear<O> {
    origin: PhantomData<O>,
}

impl<O: Origin> Play<(), View> for Hear<O> {
    ghost use Rattle.fronts.specs.Steps.{Hears};

    ghost then = { Hears O.start };
}

pub struct Append<E> {
    entry: PhantomData<E>,
}

impl<E: Adding> Play<(), View> for Append<E> {
    ghost use Rattle.fronts.specs.Steps.{Appends};

    ghost then = { Appends E.entry };
}

// The durable count is read.
pub struct Read;

impl Play<(), View> for Read {
    ghost use Rattle.fronts.specs.Steps.{Reads};

    ghost then = { Reads };
}

pub struct Settle;

impl Play<(), View> for Settle {
    ghost use Rattle.fronts.specs.Steps.{Settles};

    ghost then = { Settles };
}

pub struct Mark;

impl Play<(), View> for Mark {
    ghost use Rattle.fronts.specs.Steps.{Marks};

    ghost then = { Marks };
}

// A view with the same front and nothing else.
pub struct Aside;

impl Split<View> for Aside {
    ghost use Rattle.std.specs.Prelude.{[]};
    ghost use Rattle.fronts.specs.Views.{note_with};

    ghost left = { λ v. v };

    ghost right = { λ v. note_with v [] };
}

pub struct NewPass;

impl Split<View> for NewPass {
    ghost use Rattle.fronts.specs.Views.{new_pass, with_pass_given};

    ghost left = { with_pass_given };

    ghost right = { new_pass };
}

pub struct Give<C> {
    claim: PhantomData<C>,
}

impl<C: Giving> Split<View> for Give<C> {
    ghost use Rattle.std.specs.Prelude.{[], ◌∷◌};
    ghost use Rattle.fronts.specs.Views.{note_with, with_claim_given};

    ghost left = { with_claim_given C.claim };

    ghost right = { λ v. note_with v (C.claim ∷ []) };
}

pub struct GiveMark;

impl Split<View> for GiveMark {
    ghost use Rattle.fronts.specs.Views.{note_with_mark, with_mark_given};

    ghost left = { with_mark_given };

    ghost right = { note_with_mark };
}

// One view takes in another one.
pub struct TakeIn;

impl Join<View> for TakeIn {
    ghost use Rattle.fronts.specs.Views.{both, spent};

    ghost both = { both };

    ghost spent = { spent };
}
