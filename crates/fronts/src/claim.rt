use base_ids::CellId;

/// A right that one caller at most has at a time.
#[derive(Clone, Copy)]
pub enum Claim {
    /// To append entries to the history.
    Pen,
    /// To count entries as durable, and to give marks.
    Flush,
    /// To append entries under this pass number.
    Number(u64),
    /// To append entries that touch this cell.
    Cell(CellId),
}
