use fleet_rec::Fleet;
use happenings::Queue;

/// What a request orders, which bears the request's number: the last item of a queue, or a fleet that is the last of each of
/// its cells.
#[derive(Clone, Copy, Debug, PartialEq, Eq)]
pub enum Ordered {
    Item(Queue),
    Fleet(Fleet),
}
