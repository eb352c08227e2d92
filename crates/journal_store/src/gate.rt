// How a disk stands at the end of its durable batches.
ghost use Rattle.std.specs.Prelude.{◌≡◌};

/// What stands on the disk where the durable batches end, and so how the next flush begins.
#[derive(Clone, Copy, Debug, PartialEq, Eq)]
pub enum Gate {
    /// Perhaps nothing: the disk may end there. The next flush writes the gate with its batch.
    Missing,
    /// A closed gate. The next flush writes its batch behind it.
    Closed,
    /// A gate that may be open, and behind it the batch of so many of the first pending entries. The next flush opens the
    /// gate.
    Staged { count: usize },
}

impl Gate {
    ghost use Rattle.journal_store.specs.Gates.{standing};

    /// How many bytes of the gate stand already.
    pub fn standing(self) -> usize
        ensures { result ≡ standing self }
    {
        match self {
            Gate::Missing => 0,
            Gate::Closed | Gate::Staged { .. } => 1,
        }
    }
}
