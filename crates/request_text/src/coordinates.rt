ghost use Rattle.std.specs.Prelude.{◌≡◌, MatchOption};
ghost use Rattle.base_ids.specs.Text.{coord_text, player_text, system_text};
ghost use Rattle.base_ids.specs.declared.coord.Coord.{Coord};
ghost use Rattle.base_ids.specs.declared.player.Player.{Player};
ghost use Rattle.base_ids.specs.declared.system.System.{System};

use base_ids::{Coord, LAST_GALAXY, LAST_PLAYER, LAST_POSITION, LAST_SYSTEM, Player, System};
use base_text::{cut, positive_number};

/// The coordinate that a word spells, as `1:499:15`. `None` exactly if it spells none.
#[tactic(auto, using(base_text::proofs::Joining::colon_numbers))]
pub fn coord(word: &[u8]) -> Option<Coord>
    ensures { MatchOption result
        ((at : Coord) → word.now ≡ coord_text at → ⊥)
        (λ at. word.now ≡ coord_text at) }
{
    let (galaxy, rest) = cut(word, b':')?;
    let (system, position) = cut(rest, b':')?;
    let g = positive_number(galaxy, u64::from(LAST_GALAXY))?;
    let s = positive_number(system, u64::from(LAST_SYSTEM))?;
    let p = positive_number(position, u64::from(LAST_POSITION))?;
    Some(Coord {
        g: g as u8,
        s: s as u16,
        p: p as u8,
    })
}

/// The player whose number a word spells. `None` exactly if it spells none from 1 to `LAST_PLAYER`.
pub fn player(word: &[u8]) -> Option<Player>
    ensures { MatchOption result
        ((found : Player) → word.now ≡ player_text found → ⊥)
        (λ found. word.now ≡ player_text found) }
{
    let k = positive_number(word, u64::from(LAST_PLAYER))?;
    Some(Player { k: k as u32 })
}

/// The system that a word spells, as `1:499`. `None` exactly if it spells none.
#[tactic(auto, using(crate::proofs::Colons::systems))]
pub fn system(word: &[u8]) -> Option<System>
    ensures { MatchOption result
        ((at : System) → word.now ≡ system_text at → ⊥)
        (λ at. word.now ≡ system_text at) }
{
    let (galaxy, number) = cut(word, b':')?;
    let g = positive_number(galaxy, u64::from(LAST_GALAXY))?;
    let s = positive_number(number, u64::from(LAST_SYSTEM))?;
    Some(System {
        g: g as u8,
        s: s as u16,
    })
}
