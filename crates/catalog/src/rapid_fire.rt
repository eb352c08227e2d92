ghost use Rattle.std.specs.Prelude.{◌≡◌};
ghost use Rattle.catalog.specs.RapidFire.{battlecruiser_fire, bomber_fire, common_fire, cruiser_fire, deathstar_fire, destroyer_fire, heavy_fighter_fire, rapid_of};

use crate::kind::Kind;

/// The rapid fire of one kind against another: 0 for none, else 2 to 1250. After a shot at a target against which it has
/// rapid fire r, a ship fires again with r − 1 chances in r.
pub fn rapid(from: Kind, to: Kind) -> u32
    ensures { result ≡ rapid_of from to }
{
    match from {
        Kind::SmallCargo
        | Kind::LargeCargo
        | Kind::LightFighter
        | Kind::Battleship
        | Kind::Recycler
        | Kind::ColonyShip => common_fire(to),
        Kind::HeavyFighter => heavy_fighter_fire(to),
        Kind::Cruiser => cruiser_fire(to),
        Kind::Battlecruiser => battlecruiser_fire(to),
        Kind::Bomber => bomber_fire(to),
        Kind::Destroyer => destroyer_fire(to),
        Kind::Deathstar => deathstar_fire(to),
        _ => 0,
    }
}

/// The rapid fire of most ships.
fn common_fire(to: Kind) -> u32
    ensures { result ≡ common_fire to }
{
    match to {
        Kind::Probe | Kind::Satellite => 5,
        _ => 0,
    }
}

/// The rapid fire of a heavy fighter.
fn heavy_fighter_fire(to: Kind) -> u32
    ensures { result ≡ heavy_fighter_fire to }
{
    match to {
        Kind::SmallCargo => 3,
        Kind::Probe | Kind::Satellite => 5,
        _ => 0,
    }
}

/// The rapid fire of a cruiser.
fn cruiser_fire(to: Kind) -> u32
    ensures { result ≡ cruiser_fire to }
{
    match to {
        Kind::LightFighter => 6,
        Kind::Probe | Kind::Satellite => 5,
        Kind::Launcher => 10,
        _ => 0,
    }
}

/// The rapid fire of a battlecruiser.
fn battlecruiser_fire(to: Kind) -> u32
    ensures { result ≡ battlecruiser_fire to }
{
    match to {
        Kind::SmallCargo | Kind::LargeCargo => 3,
        Kind::HeavyFighter | Kind::Cruiser => 4,
        Kind::Battleship => 7,
        Kind::Probe | Kind::Satellite => 5,
        _ => 0,
    }
}

/// The rapid fire of a bomber.
fn bomber_fire(to: Kind) -> u32
    ensures { result ≡ bomber_fire to }
{
    match to {
        Kind::Probe | Kind::Satellite => 5,
        Kind::Launcher | Kind::LightLaser => 20,
        Kind::HeavyLaser | Kind::IonCannon => 10,
        _ => 0,
    }
}

/// The rapid fire of a destroyer.
fn destroyer_fire(to: Kind) -> u32
    ensures { result ≡ destroyer_fire to }
{
    match to {
        Kind::Battlecruiser => 2,
        Kind::Probe | Kind::Satellite => 5,
        Kind::LightLaser => 10,
        _ => 0,
    }
}

/// The rapid fire of a deathstar.
fn deathstar_fire(to: Kind) -> u32
    ensures { result ≡ deathstar_fire to }
{
    match to {
        Kind::SmallCargo | Kind::LargeCargo | Kind::Recycler | Kind::ColonyShip => 250,
        Kind::LightFighter | Kind::Launcher | Kind::LightLaser => 200,
        Kind::HeavyFighter | Kind::HeavyLaser | Kind::IonCannon => 100,
        Kind::Cruiser => 33,
        Kind::Battleship => 30,
        Kind::Battlecruiser => 15,
        Kind::Bomber => 25,
        Kind::Destroyer => 5,
        Kind::Probe | Kind::Satellite => 1250,
        Kind::Gauss => 50,
        _ => 0,
    }
}
