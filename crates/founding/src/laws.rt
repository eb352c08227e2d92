ghost use Rattle.std.specs.Prelude.{◌≡◌, ◌+◌, ◌<◌, ℕ, List, length, true, AllPairs};
ghost use Rattle.base_ids.specs.Order.{cell_before};
ghost use Rattle.tick_model.specs.Universe.{Universe};
ghost use Rattle.founding.specs.Founding.{Founds, IsBadAt, NeedsMemory};

/// Lines found at most one universe with one capacity, and leave one script; they have at most one first bad line; and lines that found
/// a universe have none. Memory runs out only before the first bad line. The cells of a universe that is founded rise:
/// the accounts by number, and then the planets by coordinates. It does nothing: the laws are its contract.
pub fn found_once()
    ensures universes { (lines : List (List ℕ)) (a b : Universe) (m n : ℕ) (script other : List (List ℕ))
        → Founds lines a m script → Founds lines b n other → (a ≡ b) × (m ≡ n) × (script ≡ other) }
    ensures places { (lines : List (List ℕ)) (m n : ℕ) → IsBadAt lines m → IsBadAt lines n → m ≡ n }
    ensures apart { (lines : List (List ℕ)) (universe : Universe) (capacity : ℕ) (script : List (List ℕ)) (n : ℕ)
        → Founds lines universe capacity script → IsBadAt lines n → ⊥ }
    ensures memory { (lines later : List (List ℕ)) (n : ℕ) (needs : NeedsMemory lines later)
        → IsBadAt lines n → length needs.good + 1 < n }
    ensures rising { (lines : List (List ℕ)) (universe : Universe) (capacity : ℕ) (script : List (List ℕ))
        → Founds lines universe capacity script → AllPairs (λ a b. cell_before a b ≡ true) universe.setting.cells }
{}
