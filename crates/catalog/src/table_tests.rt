use crate::{GRAVITON_ENERGY, KINDS, Kind, rapid, storage_limit};
use std::alloc::{AllocError, Global};
use std::fmt::Write;
use std::test::Fail;

/// For each kind its number and word, the cost of its first level, its growth and highest level, attack, shield and
/// cargo, the drive, speed and fuel of its engine at levels 4 and 5 of the impulse technology, what it needs, and its
/// rapid fire.
const ROWS: [&str; 47] = [
    "1 metalmine; 60 15 0; 3/2 30; 0 0 0; none; none;;",
    "2 crystalmine; 48 24 0; 8/5 30; 0 0 0; none; none;;",
    "3 deuteriumsynth; 225 75 0; 3/2 30; 0 0 0; none; none;;",
    "4 solarplant; 75 30 0; 3/2 30; 0 0 0; none; none;;",
    "5 metalstore; 1000 0 0; 2/1 16; 0 0 0; none; none;;",
    "6 crystalstore; 1000 500 0; 2/1 16; 0 0 0; none; none;;",
    "7 deuteriumtank; 1000 1000 0; 2/1 16; 0 0 0; none; none;;",
    "8 robotics; 400 120 200; 2/1 12; 0 0 0; none; none;;",
    "9 shipyard; 400 200 100; 2/1 14; 0 0 0; none; none; robotics 2;",
    "10 lab; 200 400 200; 2/1 14; 0 0 0; none; none;;",
    "11 nanite; 1000000 500000 100000; 2/1 8; 0 0 0; none; none; robotics 10 computer 10;",
    "21 energy; 0 800 400; 2/1 20; 0 0 0; none; none; lab 1;",
    "22 laser; 200 100 0; 2/1 20; 0 0 0; none; none; lab 1 energy 2;",
    "23 ion; 1000 300 100; 2/1 20; 0 0 0; none; none; lab 4 energy 4 laser 5;",
    "24 hyperspace; 0 4000 2000; 2/1 20; 0 0 0; none; none; lab 7 energy 5 shielding 5;",
    "25 plasma; 2000 4000 1000; 2/1 20; 0 0 0; none; none; lab 4 energy 8 laser 10 ion 5;",
    "26 combustion; 400 0 600; 2/1 20; 0 0 0; none; none; lab 1 energy 1;",
    "27 impulse; 2000 4000 600; 2/1 20; 0 0 0; none; none; lab 2 energy 1;",
    "28 hyperdrive; 10000 20000 6000; 2/1 20; 0 0 0; none; none; lab 7 hyperspace 3;",
    "29 espionage; 200 1000 200; 2/1 20; 0 0 0; none; none; lab 3;",
    "30 computer; 0 400 600; 2/1 20; 0 0 0; none; none; lab 1;",
    "31 weapons; 800 200 0; 2/1 20; 0 0 0; none; none; lab 4;",
    "32 shielding; 200 600 0; 2/1 20; 0 0 0; none; none; lab 6 energy 3;",
    "33 armour; 1000 0 0; 2/1 20; 0 0 0; none; none; lab 2;",
    "34 graviton; 0 0 0; 2/1 1; 0 0 0; none; none; lab 12;",
    "41 smallcargo; 2000 2000 0; 1/1 1; 5 10 5000; Combustion 5000 10; Impulse 10000 20; shipyard 2 combustion 2; probe 5 satellite 5",
    "42 largecargo; 6000 6000 0; 1/1 1; 5 25 25000; Combustion 7500 50; Combustion 7500 50; shipyard 4 combustion 6; probe 5 satellite 5",
    "43 lightfighter; 3000 1000 0; 1/1 1; 50 10 50; Combustion 12500 20; Combustion 12500 20; shipyard 1 combustion 1; probe 5 satellite 5",
    "44 heavyfighter; 6000 4000 0; 1/1 1; 150 25 100; Impulse 10000 75; Impulse 10000 75; shipyard 3 armour 2 impulse 2; smallcargo 3 probe 5 satellite 5",
    "45 cruiser; 20000 7000 2000; 1/1 1; 400 50 800; Impulse 15000 300; Impulse 15000 300; shipyard 5 impulse 4 ion 2; lightfighter 6 probe 5 satellite 5 launcher 10",
    "46 battleship; 45000 15000 0; 1/1 1; 1000 200 1500; Hyperspace 10000 500; Hyperspace 10000 500; shipyard 7 hyperdrive 4; probe 5 satellite 5",
    "47 battlecruiser; 30000 40000 15000; 1/1 1; 700 400 750; Hyperspace 10000 250; Hyperspace 10000 250; shipyard 8 hyperspace 5 hyperdrive 5 laser 12; smallcargo 3 largecargo 3 heavyfighter 4 cruiser 4 battleship 7 probe 5 satellite 5",
    "48 bomber; 50000 25000 15000; 1/1 1; 1000 500 500; Impulse 4000 1000; Impulse 4000 1000; shipyard 8 impulse 6 plasma 5; probe 5 satellite 5 launcher 20 lightlaser 20 heavylaser 10 ioncannon 10",
    "49 destroyer; 60000 50000 15000; 1/1 1; 2000 500 2000; Hyperspace 5000 1000; Hyperspace 5000 1000; shipyard 9 hyperspace 5 hyperdrive 6; battlecruiser 2 probe 5 satellite 5 lightlaser 10",
    "50 deathstar; 5000000 4000000 1000000; 1/1 1; 200000 50000 1000000; Hyperspace 100 1; Hyperspace 100 1; shipyard 12 hyperspace 6 hyperdrive 7 graviton 1; smallcargo 250 largecargo 250 lightfighter 200 heavyfighter 100 cruiser 33 battleship 30 battlecruiser 15 bomber 25 destroyer 5 recycler 250 colonyship 250 probe 1250 satellite 1250 launcher 200 lightlaser 200 heavylaser 100 gauss 50 ioncannon 100",
    "51 recycler; 10000 6000 2000; 1/1 1; 1 10 20000; Combustion 2000 300; Combustion 2000 300; shipyard 4 combustion 6 shielding 2; probe 5 satellite 5",
    "52 colonyship; 10000 20000 10000; 1/1 1; 50 100 7500; Impulse 2500 1000; Impulse 2500 1000; shipyard 4 impulse 3; probe 5 satellite 5",
    "53 probe; 0 1000 0; 1/1 1; 0 0 5; Combustion 100000000 1; Combustion 100000000 1; shipyard 3 combustion 3 espionage 2;",
    "54 satellite; 0 2000 500; 1/1 1; 1 1 0; none; none; shipyard 1;",
    "61 launcher; 2000 0 0; 1/1 1; 80 20 0; none; none; shipyard 1;",
    "62 lightlaser; 1500 500 0; 1/1 1; 100 25 0; none; none; shipyard 2 energy 1 laser 3;",
    "63 heavylaser; 6000 2000 0; 1/1 1; 250 100 0; none; none; shipyard 4 energy 3 laser 6;",
    "64 gauss; 20000 15000 2000; 1/1 1; 1100 200 0; none; none; shipyard 6 energy 6 weapons 3 shielding 1;",
    "65 ioncannon; 2000 6000 0; 1/1 1; 150 500 0; none; none; shipyard 4 ion 4;",
    "66 plasmaturret; 50000 50000 30000; 1/1 1; 3000 300 0; none; none; shipyard 8 plasma 7;",
    "67 smalldome; 10000 10000 0; 1/1 1; 1 2000 0; none; none; shipyard 1 shielding 2;",
    "68 largedome; 50000 50000 0; 1/1 1; 1 10000 0; none; none; shipyard 1 shielding 6;",
];

#[test]
fn each_kind_is_as_in_its_row(rt: HostRuntime) -> Result<(), Fail> {
    for (i, kind) in KINDS.iter().enumerate() {
        let row = row(rt.alloc(), *kind)?;
        assert_eq!(rt; row.as_str(), ROWS[i]);
        assert_eq!(rt; Kind::read(kind.word().as_bytes()), Some(*kind));
    }
    assert_eq!(rt; GRAVITON_ENERGY, 300_000);
    Ok(())
}

/// What the tables say of a kind.
fn row(alloc: Global, kind: Kind) -> Result<String, AllocError> {
    let mut row = String::new(alloc);
    let number = kind.number();
    let cost = kind.first_cost();
    let growth = kind.growth();
    let cap = kind.level_cap();
    write!(
        row,
        "{number} {kind}; {cost}; {}/{} {cap}; ",
        growth.numerator, growth.denominator
    )?;
    write!(row, "{} {} {};", kind.attack(), kind.shield(), kind.cargo())?;
    push_engine(&mut row, kind, 4)?;
    push_engine(&mut row, kind, 5)?;
    for need in kind.needs() {
        write!(row, " {} {}", need.kind, need.level)?;
    }
    row.push(';')?;
    for target in KINDS {
        let fire = rapid(kind, target);
        if fire > 0 {
            write!(row, " {target} {fire}")?;
        }
    }
    Ok(row)
}

/// Appends the engine of a kind.
fn push_engine(row: &mut String, kind: Kind, impulse: u8) -> Result<(), AllocError> {
    match kind.engine(impulse) {
        Some(engine) => {
            let drive = engine.drive;
            write!(row, " {drive:?} {} {};", engine.speed, engine.fuel)
        }
        None => row.push_str(" none;"),
    }
}

#[test]
fn storage_limits_are_as_in_their_table(rt: HostRuntime) -> Result<(), Fail> {
    let mut limits = String::new(rt.alloc());
    for level in 0..17 {
        write!(limits, "{} ", storage_limit(level))?;
    }
    assert_eq!(rt;
        limits.as_str(),
        "10000 20000 40000 75000 140000 255000 470000 865000 1590000 2920000 5355000 9820000 18005000 33005000 60510000 110925000 203350000 "
    );
    Ok(())
}
