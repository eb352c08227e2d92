ghost use Rattle.std.specs.Prelude.{◌≡◌, ℕ};
ghost use Rattle.spoils.specs.Harvest.{IsScraping, Scraping, scraping};
ghost use Rattle.spoils.specs.Loot.{IsLoading, Loading, loading};

/// The steps of loading and of scraping are shares of the room that is left for them, and only these steps are. So the
/// steps may be taken as functions. It does nothing: the laws are its contract.
pub fn steps_are_shares()
    ensures loading { (room metal crystal deuterium : ℕ)
        → IsLoading room metal crystal deuterium (loading room metal crystal deuterium) }
    ensures one_loading { (room metal crystal deuterium : ℕ) (steps : Loading)
        → IsLoading room metal crystal deuterium steps → steps ≡ loading room metal crystal deuterium }
    ensures scraping { (room metal crystal : ℕ) → IsScraping room metal crystal (scraping room metal crystal) }
    ensures one_scraping { (room metal crystal : ℕ) (steps : Scraping)
        → IsScraping room metal crystal steps → steps ≡ scraping room metal crystal }
{}
