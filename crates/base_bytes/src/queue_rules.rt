// Whether the items of one queue are as the rules say.
ghost use Rattle.std.specs.Prelude.{◌≡◌, ◌↔◌, ◌<◌, ◌≤◌, ℕ, All, IsTrue, Some, drop, slice_get};

use account_cell::ResearchItem;
use planet_cell::{Batch, BuildingItem};

/// An item of a queue.
pub trait Queued {
    ghost number_of: { Self → ℕ };

    ghost second_of: { Self → ℕ };

    // whether it has no level and no seconds yet
    ghost IsIdle: { Self → Type 0 };

    /// The number of the request that ordered it.
    fn number(&self) -> u64
        ensures { result ≡ number_of self.now };

    /// The second at which it comes due.
    fn second(&self) -> u64
        ensures { result ≡ second_of self.now };

    /// Whether it waits.
    fn is_idle(&self) -> bool
        ensures { IsTrue result ↔ IsIdle self.now };
}

impl Queued for BuildingItem {
    ghost number_of = { λ item. item.number };

    ghost second_of = { λ item. item.second };

    ghost IsIdle = { λ item. (item.level ≡ 0) × (item.second ≡ 0) };

    fn number(&self) -> u64 {
        self.number
    }

    fn second(&self) -> u64 {
        self.second
    }

    fn is_idle(&self) -> bool {
        self.level == 0 && self.second == 0
    }
}

impl Queued for ResearchItem {
    ghost number_of = { λ item. item.number };

    ghost second_of = { λ item. item.second };

    ghost IsIdle = { λ item. (item.level ≡ 0) × (item.second ≡ 0) };

    fn number(&self) -> u64 {
        self.number
    }

    fn second(&self) -> u64 {
        self.second
    }

    fn is_idle(&self) -> bool {
        self.level == 0 && self.second == 0
    }
}

impl Queued for Batch {
    ghost number_of = { λ batch. batch.number };

    ghost second_of = { λ batch. batch.second };

    ghost IsIdle = { λ batch. (batch.unit_seconds ≡ 0) × (batch.second ≡ 0) };

    fn number(&self) -> u64 {
        self.number
    }

    fn second(&self) -> u64 {
        self.second
    }

    fn is_idle(&self) -> bool {
        self.unit_seconds == 0 && self.second == 0
    }
}

/// Whether each item has the number of one of the first so many requests.
#[tactic(auto, using(crate::proofs::Checks::one_more, crate::proofs::Checks::not_all))]
pub fn are_drawn<T: Queued>(number: u64, items: &[T]) -> bool
    ensures { IsTrue result ↔ All (λ item. (1 ≤ T.number_of item) × (T.number_of item ≤ number)) items.now }
{
    'items: for item in items {
        if !is_drawn(number, item.number()) {
            return false;
        }
    }
    true
}

fn is_drawn(last: u64, number: u64) -> bool
    ensures { IsTrue result ↔ ((1 ≤ number) × (number ≤ last)) }
{
    1 <= number && number <= last
}

/// Whether the first item comes due past a moment.
pub fn runs_after<T: Queued>(moment: u64, items: &[T]) -> bool
    ensures { IsTrue result ↔ ((item : T) → Some item ≡ slice_get items.now 0 → moment < T.second_of item) }
{
    match items.first() {
        Some(item) => moment < item.second(),
        None => true,
    }
}

/// Whether all items but the first wait.
pub fn others_wait<T: Queued>(items: &[T]) -> bool
    ensures { IsTrue result ↔ All T.IsIdle (drop 1 items.now) }
{
    match items.split_first() {
        Some((_, waiting)) => are_idle(waiting),
        None => true,
    }
}

#[tactic(auto, using(crate::proofs::Checks::one_more, crate::proofs::Checks::not_all))]
fn are_idle<T: Queued>(items: &[T]) -> bool
    ensures { IsTrue result ↔ All T.IsIdle items.now }
{
    'items: for item in items {
        if !item.is_idle() {
            return false;
        }
    }
    true
}
