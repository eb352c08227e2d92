ghost use Rattle.std.specs.Prelude.{◌≡◌, ◌+◌, ◌≤◌, min};
ghost use Rattle.spoils.specs.Harvest.{Scrapes, scraping};

use crate::share::share;
use catalog::Amounts;

/// What a harvest takes of a debris field, in units, into `room` units of free room: metal up to half of the room, then
/// crystal up to the rest, then metal again up to the rest. It takes no deuterium.
#[tactic(auto, unfolding(crate::specs::Harvest::scraping))]
pub fn scrape(room: u64, debris: Amounts) -> Amounts
    ensures metal { let steps = scraping room debris.m debris.c in
        result.m ≡ steps.first_metal + steps.second_metal }
    ensures crystal { result.c ≡ (scraping room debris.m debris.c).first_crystal }
    ensures deuterium { result.d ≡ 0 }
    ensures steps { Scrapes room debris result }

    // Nothing is taken that is not there.
    ensures metal_within { result.m ≤ debris.m }
    ensures crystal_within { result.c ≤ debris.c }

    // Metal and crystal fill the room, or all is taken.
    ensures filled { result.m + result.c ≡ min room (debris.m + debris.c) }
{
    let first_metal = share(room, 2, debris.m);
    let left = room - first_metal;
    let crystal = left.min(debris.c);
    let left = left - crystal;
    let second_metal = left.min(debris.m - first_metal);
    Amounts {
        m: first_metal + second_metal,
        c: crystal,
        d: 0,
    }
}
