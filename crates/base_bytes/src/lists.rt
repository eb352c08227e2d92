// The lists of a base, each of so many records, read from its bytes.
ghost use Rattle.std.specs.Prelude.{◌≡◌, ◌++◌, All, IfOk, IfSome, IsSomeAnd, List, ℕ, length, map, vec_len};
ghost use Rattle.std.specs.List.{AllZip, flat_map};
ghost use Rattle.base_bytes.specs.Spelling.{account_bytes, fleet_bytes, planet_bytes};
ghost use Rattle.base_bytes.specs.Told.{AccountFits, AreAlike, AreSame, DoRise, FleetFits, IsOwnAt, PlanetFits};
ghost use Rattle.fleet_rec.specs.Fleet.{fleet_seen};
ghost use Rattle.fleet_rec.specs.declared.fleet.Fleet.{Fleet};

use crate::accounts::next_account;
use crate::fleets::next_fleet;
use crate::planets::next_planet;
use account_cell::Account;
use fleet_rec::Fleets;
use planet_cell::Planet;
use records::numbers::Numbers;
use std::alloc::{AllocError, Global};

/// How many bytes a fleet has.
const FLEET_SIZE: usize = 123;

/// A record of a list, which bytes spell.
pub trait Listed: Sized {
    ghost bytes: { Self → List ℕ };

    // whether its numbers fit in the bytes that they have
    ghost Fits: { Self → Type 0 };

    // whether another has the same of all that the bytes tell
    ghost Alike: { Self → Self → Type 0 };

    /// The next record.
    fn next(alloc: Global, numbers: &mut Numbers) -> Result<Option<Self>, AllocError>
        ensures { IfOk result (λ found. (item : Self) (more : List ℕ) → Fits item → numbers.old.rest.now ≡ bytes item ++ more
            → IsSomeAnd found (Alike item) × (numbers.new.rest.now ≡ more)) };
}

impl Listed for Account {
    ghost bytes = { account_bytes };

    ghost Fits = { AccountFits };

    ghost Alike = { AreAlike };

    fn next(alloc: Global, numbers: &mut Numbers) -> Result<Option<Account>, AllocError> {
        next_account(alloc, numbers)
    }
}

impl Listed for Planet {
    ghost bytes = { planet_bytes };

    ghost Fits = { PlanetFits };

    ghost Alike = { AreSame };

    fn next(alloc: Global, numbers: &mut Numbers) -> Result<Option<Planet>, AllocError> {
        next_planet(alloc, numbers)
    }
}

/// The next records, as many as `count` says. It takes memory for those alone that it has read.
pub fn next_list<T: Listed + Drop>(
    alloc: Global,
    numbers: &mut Numbers,
    count: usize,
) -> Result<Option<Vec<T>>, AllocError>
    ensures list { IfOk result (λ found. (items : List T) (more : List ℕ) → length items ≡ count → All T.Fits items
        → numbers.old.rest.now ≡ flat_map T.bytes items ++ more
        → IsSomeAnd found (λ list. AllZip T.Alike items list.items) × (numbers.new.rest.now ≡ more)) }
    ensures size { IfOk result (λ found. IfSome found (λ list. vec_len list ≡ count)) }
{
    let mut list = Vec::new(alloc);
    'items: for _ in 0..count {
        let next = T::next(alloc, numbers)?;
        let Some(item) = next else {
            return Ok(None);
        };
        list.push(item)?;
    }
    Ok(Some(list))
}

/// The next fleets, as many as `count` says, if there are bytes for so many. The target of each is one of the planets.
pub fn next_fleets(
    alloc: Global,
    numbers: &mut Numbers,
    planets: &[Planet],
    count: usize,
) -> Result<Option<Fleets>, AllocError>
    ensures fleets { IfOk result (λ found. (held : List Fleet) (more : List ℕ) → DoRise planets.now → length held ≡ count → All (FleetFits planets.now) held
        → numbers.old.rest.now ≡ flat_map fleet_bytes (map fleet_seen held) ++ more
        → IsSomeAnd found (λ fleets. fleets ≡ map fleet_seen held) × (numbers.new.rest.now ≡ more)) }
    ensures owners { IfOk result (λ found. IfSome found (λ fleets. All (λ fleet. IsOwnAt planets.now fleet.target_owner fleet.target) fleets)) }
{
    if count > numbers.rest.len() / FLEET_SIZE {
        return Ok(None);
    }
    let mut fleets = Fleets::new(alloc);
    'fleets: for _ in 0..count {
        let Some(fleet) = next_fleet(numbers, planets) else {
            return Ok(None);
        };
        fleets.push(fleet)?;
    }
    Ok(Some(fleets))
}
