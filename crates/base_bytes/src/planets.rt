// Planets, read from bytes.
ghost use Rattle.std.specs.Prelude.{◌≡◌, ◌++◌, IfOk, IsSomeAnd, List, ℕ};
ghost use Rattle.base_bytes.specs.Spelling.{goods_bytes, ground_bytes, planet_bytes, works_bytes};
ghost use Rattle.base_bytes.specs.Told.{AreSame, GoodsFit, GroundFits, IsWorks, PlanetFits, WorksFit, goods_of, ground_of};
ghost use Rattle.planet_cell.specs.declared.planet.Planet.{Planet};

use crate::caps::are_levels_within;
use crate::fields::{next_levels, next_player};
use crate::parts::{Goods, Ground, Works};
use crate::queues::{next_coord, next_queue};
use crate::ranges::{are_tenths, are_units_within, has_begun, is_warm, is_within_cap};
use planet_cell::Planet;
use rates::Resources;
use records::numbers::Numbers;
use std::alloc::{AllocError, Global};
use tick_model::Debris;

pub fn next_ground(numbers: &mut Numbers) -> Ground
    ensures { (planet : Planet) (more : List ℕ) → GroundFits planet → numbers.old.rest.now ≡ ground_bytes planet ++ more
        → (result ≡ ground_of planet) × (numbers.new.rest.now ≡ more) }
{
    let at = next_coord(numbers);
    let owner = next_player(numbers);
    let temperature = numbers.next_u16().cast_signed();
    let fields = numbers.next_u16();
    let mut levels = [0; 11];
    next_levels(numbers, &mut levels);
    let mut tenths = [0; 5];
    next_levels(numbers, &mut tenths);
    Ground {
        at,
        owner,
        temperature,
        fields,
        levels,
        tenths,
    }
}

pub fn next_goods(numbers: &mut Numbers) -> Goods
    ensures { (planet : Planet) (more : List ℕ) → GoodsFit planet → numbers.old.rest.now ≡ goods_bytes planet ++ more
        → (result ≡ goods_of planet) × (numbers.new.rest.now ≡ more) }
{
    let metal = numbers.next_u64();
    let crystal = numbers.next_u64();
    let deuterium = numbers.next_u64();
    let stock = Resources {
        metal,
        crystal,
        deuterium,
    };
    let metal = numbers.next_u64();
    let crystal = numbers.next_u64();
    let debris = Debris { metal, crystal };
    let mut units = [0; 22];
    numbers.next_counts(&mut units);
    Goods {
        stock,
        debris,
        units,
    }
}

pub fn next_works(alloc: Global, numbers: &mut Numbers) -> Result<Works, AllocError>
    ensures { IfOk result (λ works. (planet : Planet) (more : List ℕ) → WorksFit planet → numbers.old.rest.now ≡ works_bytes planet ++ more
        → IsWorks planet works × (numbers.new.rest.now ≡ more)) }
{
    let buildings = next_queue(alloc, numbers)?;
    let yard = next_queue(alloc, numbers)?;
    Ok(Works { buildings, yard })
}

/// The next planet.
pub fn next_planet(alloc: Global, numbers: &mut Numbers) -> Result<Option<Planet>, AllocError>
    ensures { IfOk result (λ found. (planet : Planet) (more : List ℕ) → PlanetFits planet → numbers.old.rest.now ≡ planet_bytes planet ++ more
        → IsSomeAnd found (AreSame planet) × (numbers.new.rest.now ≡ more)) }
{
    let ground = next_ground(numbers);
    let goods = next_goods(numbers);
    let works = next_works(alloc, numbers)?;
    Ok(planet_of(ground, goods, works))
}

// The planet that is and has and builds this, if a planet can.
fn planet_of(ground: Ground, goods: Goods, works: Works) -> Option<Planet>
    ensures { (planet : Planet) → ground ≡ ground_of planet → goods ≡ goods_of planet → IsWorks planet works → IsSomeAnd result (AreSame planet) }
{
    let (Some(at), Some(owner)) = (ground.at, ground.owner) else {
        return None;
    };
    let (Some(buildings), Some(yard)) = (works.buildings, works.yard) else {
        return None;
    };
    if !is_warm(ground.temperature) || !are_tenths(&ground.tenths) || !is_within_cap(goods.stock) {
        return None;
    }
    if !are_units_within(&goods.units, &yard) || !has_begun(&yard) {
        return None;
    }
    if !are_levels_within(&ground.levels, &buildings) {
        return None;
    }
    Some(Planet {
        at,
        owner,
        temperature: ground.temperature,
        fields: ground.fields,
        levels: ground.levels,
        tenths: ground.tenths,
        stock: goods.stock,
        debris: goods.debris,
        units: goods.units,
        buildings,
        yard,
    })
}
