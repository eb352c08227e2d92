use std::marker::Brand;

/// What a shared history starts from. A program picks it when it opens the history.
pub trait Origin {
    ghost use Rattle.fronts.specs.Start.{Start};

    ghost start: { Start };
}

impl Origin for Brand {
    ghost use Rattle.fronts.specs.Start.{no_start};

    ghost start = { no_start };
}

/// Which shared history it is. A program picks it when it gives the history a name.
pub trait Naming {
    ghost use Rattle.atomic_table.specs.Seated.{TableId};

    ghost table: { TableId };
}

impl Naming for Brand {
    ghost use Rattle.fronts.specs.Start.{no_table};

    ghost table = { no_table };
}

// The entry of one step.
pub trait Adding {
    ghost use Rattle.request_text.specs.declared.entry.Entry.{Entry};

    ghost entry: { Entry };
}

impl Adding for Brand {
    ghost use Rattle.fronts.specs.Samples.{some_entry};

    ghost entry = { some_entry };
}

// The claim that a step gives to another view.
pub trait Giving {
    ghost use Rattle.fronts.specs.declared.claim.Claim.{Claim};

    ghost claim: { Claim };
}

impl Giving for Brand {
    ghost use Rattle.fronts.specs.declared.claim.Claim.TheVariants.{Pen};

    ghost claim = { Pen };
}
