use crate::ids::Ids;

/// Which cells are needed, as far as those that are held tell.
#[derive(Debug, Drop)]
pub enum Needed {
    /// All that are needed.
    Closed(Ids),
    /// Some that are needed and aren't held, at least one. Others may be needed too.
    Missing(Ids),
}
