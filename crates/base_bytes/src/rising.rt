// Whether the lists of a base rise by their names, and whether its planets are its accounts'.
ghost use Rattle.std.specs.Prelude.{◌≡◌, ◌↔◌, All, AllPairs, IsTrue, map, true};
ghost use Rattle.std.specs.List.{Contains};
ghost use Rattle.base_bytes.specs.Told.{DoRise};
ghost use Rattle.base_ids.specs.Order.{player_before};

use account_cell::Account;
use base_ids::Player;
use planet_cell::Planet;

/// Whether accounts rise strictly by their players.
pub fn accounts_rise(accounts: &[Account]) -> bool
    ensures { IsTrue result ↔ AllPairs (λ first second. player_before first.player second.player ≡ true) accounts.now }
{
    accounts.is_sorted_by(|first, second| first.player < second.player)
}

/// Whether planets rise strictly by their places.
pub fn planets_rise(planets: &[Planet]) -> bool
    ensures { IsTrue result ↔ DoRise planets.now }
{
    planets.is_sorted_by(|first, second| first.at < second.at)
}

/// Whether each planet is one of these accounts', which rise.
pub fn are_owned(accounts: &[Account], planets: &[Planet]) -> bool
    requires { AllPairs (λ first second. player_before first.player second.player ≡ true) accounts.now }
    ensures { IsTrue result ↔ All (λ planet. Contains (map (λ account. account.player) accounts.now) planet.owner) planets.now }
{
    planets
        .iter()
        .all(|planet| is_player(accounts, planet.owner))
}

// Whether one of these accounts, which rise, is the player's.
fn is_player(accounts: &[Account], player: Player) -> bool
    requires { AllPairs (λ first second. player_before first.player second.player ≡ true) accounts.now }
    ensures { IsTrue result ↔ Contains (map (λ account. account.player) accounts.now) player }
{
    accounts
        .binary_search_by_key(&player, |account| account.player)
        .is_ok()
}
