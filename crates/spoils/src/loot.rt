ghost use Rattle.std.specs.Prelude.{◌≡◌, ◌+◌, ◌-◌, ◌*◌, ◌/◌, ◌<◌, ◌≤◌};
ghost use Rattle.spoils.specs.Loot.{Loads, loading};

use crate::share::share;
use catalog::Amounts;

/// What winners load, in units: into `room` units of free room, of the amounts that they may take.
///
/// First metal up to a third of the room, then crystal up to half of the rest, deuterium up to the rest, metal again
/// up to half of the rest, and crystal again up to the rest. Each is what fits into the room that is left then.
#[tactic(auto, unfolding(crate::specs::Loot::loading))]
pub fn load(room: u64, may: Amounts) -> Amounts
    ensures metal { let steps = loading room may.m may.c may.d in
        result.m ≡ steps.first_metal + steps.second_metal }
    ensures crystal { let steps = loading room may.m may.c may.d in
        result.c ≡ steps.first_crystal + steps.second_crystal }
    ensures deuterium { result.d ≡ (loading room may.m may.c may.d).first_deuterium }
    ensures steps { Loads room may result }

    // Nothing is taken that may not be, and no more than there is room.
    ensures metal_within { result.m ≤ may.m }
    ensures crystal_within { result.c ≤ may.c }
    ensures deuterium_within { result.d ≤ may.d }
    ensures room { result.m + result.c + result.d ≤ room }

    // If room stays free, all crystal and all deuterium are taken.
    ensures all_crystal { result.m + result.c + result.d < room → result.c ≡ may.c }
    ensures all_deuterium { result.m + result.c + result.d < room → result.d ≡ may.d }

    // If metal stays behind, the metal that is taken fills at least two thirds, floored, of the room that crystal and
    // deuterium leave.
    ensures most_metal { result.m < may.m → 2 * (room - (result.c + result.d)) / 3 ≤ result.m }
{
    let first_metal = share(room, 3, may.m);
    let left = room - first_metal;
    let first_crystal = share(left, 2, may.c);
    let left = left - first_crystal;
    let deuterium = left.min(may.d);
    let left = left - deuterium;
    let second_metal = share(left, 2, may.m - first_metal);
    let left = left - second_metal;
    let second_crystal = left.min(may.c - first_crystal);
    Amounts {
        m: first_metal + second_metal,
        c: first_crystal + second_crystal,
        d: deuterium,
    }
}
