// Whether an account by itself is as the rules say.
ghost use Rattle.std.specs.Prelude.{◌≡◌, ◌↔◌, ◌≤◌, All, IsTrue, length};
ghost use Rattle.std.specs.List.{Contains};
ghost use Rattle.account_cell.specs.Account.{account_fields, research_of};
ghost use Rattle.base_bytes.specs.Kept.{AccountKeeps, IsAtHome, IsDrawn};
ghost use Rattle.base_bytes.specs.Sound.{RunsAfter};
ghost use Rattle.base_bytes.specs.declared.limits.TheConstants.{MOST_OWNED};
ghost use Rattle.tick_model.specs.Limits.{KeepsTechs};

use crate::limits::MOST_OWNED;
use crate::queue_rules::{are_drawn, others_wait, runs_after};
use crate::ranges::are_so_many;
use account_cell::Account;
use base_ids::Coord;
use catalog::TECHNOLOGIES;

/// Whether each account is as the rules say, at a moment and after so many requests.
#[tactic(auto, using(crate::proofs::Checks::one_more, crate::proofs::Checks::not_all))]
pub fn all_accounts_keep(moment: u64, number: u64, accounts: &[Account]) -> bool
    ensures { IsTrue result ↔ All (AccountKeeps moment number) accounts.now }
{
    'accounts: for account in accounts {
        if !account_keeps(moment, number, account) {
            return false;
        }
    }
    true
}

/// Whether an account is as the rules say, at a moment and after so many requests.
#[tactic(auto, using(crate::proofs::AccountChecks::research_timed))]
pub fn account_keeps(moment: u64, number: u64, account: &Account) -> bool
    ensures { IsTrue result ↔ AccountKeeps moment number account.now }
{
    are_so_many(&account.techs.n, TECHNOLOGIES.len())
        && keeps_techs(account)
        && has_few_planets(account)
        && is_at_home(account)
        && account_runs_after(moment, account)
        && account_is_drawn(number, account)
}

/// Whether the technologies of an account keep their caps, and its queue waits in turn.
#[tactic(auto, using(crate::proofs::AccountChecks::techs_kept, crate::proofs::AccountChecks::kept_techs, crate::proofs::AccountChecks::idle_kept))]
pub fn keeps_techs(account: &Account) -> bool
    ensures { IsTrue result ↔ KeepsTechs (account_fields account.now) (research_of account.now) }
{
    let Some(first) = account.first_research() else {
        return true;
    };
    u16::from(first.level) == u16::from(account.techs.level(first.kind)) + 1
        && others_wait(&account.research)
}

fn has_few_planets(account: &Account) -> bool
    ensures { IsTrue result ↔ (length account.now.planets.items ≤ MOST_OWNED) }
{
    account.planets.len() <= MOST_OWNED
}

/// Whether an account researches on its own planets alone.
#[tactic(auto, using(crate::proofs::Checks::one_more, crate::proofs::Checks::not_all))]
pub fn is_at_home(account: &Account) -> bool
    ensures { IsTrue result ↔ IsAtHome account.now }
{
    'items: for item in &account.research {
        if !has_place(&account.planets, item.at) {
            return false;
        }
    }
    true
}

fn has_place(places: &[Coord], at: Coord) -> bool
    ensures { IsTrue result ↔ Contains places.now at }
{
    places.contains(&at)
}

/// Whether the research of an account comes due past a moment.
pub fn account_runs_after(moment: u64, account: &Account) -> bool
    ensures { IsTrue result ↔ RunsAfter moment (research_of account.now) }
{
    runs_after(moment, &account.research)
}

/// Whether each item of an account's queue has the number of one of the first so many requests.
#[tactic(auto, using(crate::proofs::AccountChecks::research_drawn, crate::proofs::AccountChecks::drawn_research))]
pub fn account_is_drawn(number: u64, account: &Account) -> bool
    ensures { IsTrue result ↔ All (IsDrawn number) (research_of account.now) }
{
    are_drawn(number, &account.research)
}
