// Which of two areas is that of the universe.
ghost use Rattle.std.specs.Prelude.{List, ℕ};
ghost use Rattle.recovery.specs.Reopening.{Chooses, Shows};

use crate::head::Head;

/// The area that is chosen: whether it is the right one, and its head.
#[derive(Clone, Copy, Debug, PartialEq, Eq)]
pub struct Choice {
    pub right: bool,
    pub head: Head,
}

/// Chooses the open area with the greater generation, and the left one at a tie. An area that isn't open has no head.
pub fn choose(left: Option<Head>, right: Option<Head>) -> Option<Choice>
    ensures { (on_left on_right : List ℕ) → Shows on_left left → Shows on_right right → Chooses on_left on_right result }
{
    match (left, right) {
        (Some(first), Some(second)) if first.generation < second.generation => Some(Choice {
            right: true,
            head: second,
        }),
        (Some(head), _) => Some(Choice { right: false, head }),
        (None, Some(head)) => Some(Choice { right: true, head }),
        (None, None) => None,
    }
}
