/// What comes of an order. It starts at once: of a building or a technology the level that will be reached, of a batch how many
/// units it has, and the second at which the level, or the first unit, is done. Or it waits at this place of the queue, counted
/// from 1.
#[derive(Clone, Copy, Debug, PartialEq, Eq)]
pub enum Placed {
    Starts { amount: u64, second: u64 },
    Waits { place: usize },
}
