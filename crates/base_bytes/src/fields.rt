// What accounts and planets have of their own, read from bytes.
ghost use Rattle.std.specs.Prelude.{◌≡◌, ◌++◌, List, ℕ, Some, length};
ghost use Rattle.base_ids.specs.declared.player.Player.{Player};
ghost use Rattle.records.specs.Entries.{u32};

use base_ids::Player;
use records::numbers::Numbers;
use records::values::player;

/// Fills `into` with the next bytes, if there are so many.
#[tactic(auto, using(crate::proofs::Fronts::front_split))]
pub fn next_levels(numbers: &mut Numbers, into: &mut [u8])
    ensures { (levels more : List ℕ) → length levels ≡ length into.old → numbers.old.rest.now ≡ levels ++ more
        → (into.new ≡ levels) × (numbers.new.rest.now ≡ more) }
{
    if into.len() > numbers.rest.len() {
        return;
    }
    let (front, rest) = numbers.rest.split_at(into.len());
    into.copy_from_slice(front);
    numbers.rest = rest;
}

pub fn next_player(numbers: &mut Numbers) -> Option<Player>
    ensures { (player : Player) (more : List ℕ) → numbers.old.rest.now ≡ u32 player.k ++ more
        → (result ≡ Some player) × (numbers.new.rest.now ≡ more) }
{
    player(numbers.next_u32())
}
