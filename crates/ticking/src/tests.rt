// What no clause says: that requests find memory, and that the slow program and the lazy one, run on scripts that are drawn, give one
// reply to each line and end with the same cells.
ghost use Rattle.std.specs.Prelude.{IfOk, OnOk};
ghost use Rattle.base_bytes.specs.Sound.{IsSound};
ghost use Rattle.lazy.specs.Keeping.{KeepsSome};
ghost use Rattle.ticking.specs.Asking.{StandsAtLast};

use crate::TickingUniverse;
use base_bytes::Base;
use base_ids::LAST_NUMBER;
use catalog::{BUILDINGS, TECHNOLOGIES, UNIT_KINDS, WORKS};
use draws::Draws;
use founding::read;
use lazy::LazyUniverse;
use ports::{LATEST, MemorySource};
use request_text::{Call, LineReader};
use std::alloc::{AllocError, Global};
use std::process::Abort;
use std::test::Fail;

/// Three players with six planets and some ships, at a speed at which buildings, technologies, units and flights take seconds and
/// minutes.
const FOUNDING: &[u8] = b"universe 7 60 10000 100
player 1
player 2
player 3
tech 1 energy 3
tech 1 laser 6
tech 1 combustion 6
tech 1 espionage 2
tech 1 computer 3
tech 2 combustion 1
tech 2 impulse 3
tech 2 computer 10
tech 2 shielding 2
tech 2 armour 2
tech 3 energy 1
planet 1:1:1 1 40 163
planet 1:1:2 1 20 30
planet 1:1:3 1 0 12
planet 1:1:4 2 60 90
planet 1:1:5 2 -40 200
planet 1:1:6 3 100 163
level 1:1:1 metalmine 4
level 1:1:1 solarplant 5
level 1:1:1 robotics 2
level 1:1:1 shipyard 4
level 1:1:1 lab 3
level 1:1:2 robotics 2
level 1:1:2 shipyard 3
level 1:1:2 lab 1
level 1:1:4 crystalmine 3
level 1:1:4 solarplant 3
level 1:1:4 lab 2
level 1:1:5 robotics 10
level 1:1:5 shipyard 4
level 1:1:6 shipyard 1
level 1:1:6 lab 1
units 1:1:1 smallcargo 30
units 1:1:1 lightfighter 90
units 1:1:1 recycler 6
units 1:1:2 largecargo 4
units 1:1:4 smallcargo 20
units 1:1:4 lightfighter 60
units 1:1:4 launcher 9
units 1:1:5 largecargo 10
units 1:1:6 smallcargo 5
units 1:1:6 lightfighter 30
units 1:1:6 launcher 3
units 1:1:5 smalldome 1
stock 1:1:1 400000 300000 90000
stock 1:1:2 90000 60000 20000
stock 1:1:3 3000 2000 500
stock 1:1:4 9990 9995 4000
stock 1:1:5 4000000 2000000 900000
stock 1:1:6 6000 6000 6000
.
";

/// Each planet's position and owner.
const PLANETS: [(u32, u32); 6] = [(1, 1), (2, 1), (3, 1), (4, 2), (5, 2), (6, 3)];

/// The base that the founding text founds.
fn base_of(alloc: Global) -> Result<Base, Fail>
    ensures { IfOk result IsSound }
{
    let mut source = MemorySource::new(FOUNDING, &[]);
    let mut reader = LineReader::new(alloc)?;
    match read(alloc, &mut reader, &mut source) {
        Ok(base) => Ok(base),
        Err(_) => Err(Fail::from("not founded")),
    }
}

/// The second after this one at which the next line comes: often the same, mostly soon, at times after a quiet time.
fn later(draws: &mut Draws, second: u64) -> u64 {
    let most = match draws.below(16) {
        0..=5 => 1,
        6..=11 => 8,
        12..=14 => 60,
        _ => 400,
    };
    second.saturating_add(u64::from(draws.below(most)))
}

/// The form of a request.
#[derive(Clone, Copy)]
enum Form {
    Planet,
    Account,
    Set,
    Build,
    Research,
    Yard,
    Fleets,
    System,
    Send,
    Join,
    Recall,
}

/// How many requests were granted of six forms.
#[derive(Clone, Copy, Debug)]
struct Granted {
    builds: u32,
    research: u32,
    batches: u32,
    flights: u32,
    joins: u32,
    recalls: u32,
}

impl Granted {
    fn count(&mut self, form: Form) {
        match form {
            Form::Build => self.builds = self.builds.saturating_add(1),
            Form::Research => self.research = self.research.saturating_add(1),
            Form::Yard => self.batches = self.batches.saturating_add(1),
            Form::Send => self.flights = self.flights.saturating_add(1),
            Form::Join => self.joins = self.joins.saturating_add(1),
            Form::Recall => self.recalls = self.recalls.saturating_add(1),
            _ => {}
        }
    }
}

/// The form of the next request: mostly an order.
fn form_of(draws: &mut Draws) -> Form {
    match draws.below(27) {
        0 => Form::Planet,
        1 => Form::Account,
        2 => Form::Set,
        3..=5 => Form::Build,
        6..=8 => Form::Research,
        9..=11 => Form::Yard,
        12 => Form::Fleets,
        13 => Form::System,
        14..=19 => Form::Send,
        20..=24 => Form::Join,
        _ => Form::Recall,
    }
}

/// A planet's position and who asks, mostly the owner. One of four players isn't there, and nor is a planet at one of seven positions.
fn asker_of(draws: &mut Draws) -> (u32, u32) {
    let (position, owner) = match PLANETS.get(draws.below(7) as usize) {
        Some(&planet) => planet,
        None => (7, 1),
    };
    match draws.below(4) {
        0 => (position, draws.below(4) + 1),
        _ => (position, owner),
    }
}

/// The position to which a fleet flies: mostly the one of which many fleets want something.
fn target_of(draws: &mut Draws) -> u32 {
    match draws.below(2) {
        0 => 4,
        _ => draws.below(7) + 1,
    }
}

/// A fleet is sent, mostly with enough ships, and at times farther than it can go: to nowhere, to where it starts, or with a cargo that
/// is too large.
fn send_of(
    alloc: Global,
    draws: &mut Draws,
    position: u32,
    player: u32,
    reading: u64,
) -> Result<String, AllocError> {
    let target = target_of(draws);
    let mission = [
        "transport",
        "deploy",
        "harvest",
        "attack",
        "attack",
        "attack",
    ][draws.below(6) as usize];
    let setting = draws.below(10) + 1;
    let ship = [
        "smallcargo",
        "largecargo",
        "recycler",
        "lightfighter",
        "lightfighter",
    ][draws.below(5) as usize];
    let count = draws.below(3) + 1;
    let cargo = draws.below(100);
    format!(in alloc;
        "@{reading} {player} send 1:1:{position} 1:1:{target} {mission} {setting} {ship}={count} {cargo} {cargo} 0"
    )
}

/// A fleet joins the last one that was sent, which at times doesn't attack, or flies elsewhere, or is too near to its target.
fn join_of(
    alloc: Global,
    draws: &mut Draws,
    position: u32,
    player: u32,
    reading: u64,
    sent: u64,
) -> Result<String, AllocError> {
    let target = target_of(draws);
    let group = sent.max(1);
    let count = draws.below(3) + 1;
    format!(in alloc;
        "@{reading} {player} join {group} 1:1:{position} 1:1:{target} 10 lightfighter={count} 0 0 0"
    )
}

/// A line of this form at a reading, where the last fleet that was sent has this number.
fn line_of(
    alloc: Global,
    draws: &mut Draws,
    form: Form,
    reading: u64,
    sent: u64,
) -> Result<String, AllocError> {
    let (position, player) = asker_of(draws);
    match form {
        Form::Planet => format!(in alloc; "@{reading} {player} planet 1:1:{position}"),
        Form::Account => format!(in alloc; "@{reading} {player} account"),
        Form::Set => {
            let work = WORKS[draws.below(5) as usize].word();
            let tenths = draws.below(11);
            format!(in alloc; "@{reading} {player} set 1:1:{position} {work} {tenths}")
        }
        Form::Build => {
            let building = BUILDINGS[draws.below(11) as usize].word();
            format!(in alloc; "@{reading} {player} build 1:1:{position} {building}")
        }
        Form::Research => {
            let technology = TECHNOLOGIES[draws.below(14) as usize].word();
            format!(in alloc; "@{reading} {player} research 1:1:{position} {technology}")
        }
        Form::Yard => {
            let unit = UNIT_KINDS[draws.below(22) as usize].word();
            let count = draws.below(9) + 1;
            format!(in alloc; "@{reading} {player} yard 1:1:{position} {unit} {count}")
        }
        Form::Fleets => format!(in alloc; "@{reading} {player} fleets"),
        Form::System => format!(in alloc; "@{reading} {player} system 1:1"),
        Form::Send => send_of(alloc, draws, position, player, reading),
        Form::Join => join_of(alloc, draws, position, player, reading, sent),
        Form::Recall => {
            let fleet = sent.saturating_sub(u64::from(draws.below(2))).max(1);
            format!(in alloc; "@{reading} {player} recall {fleet}")
        }
    }
}

/// What a line asks for, and the reading that it names.
fn call_of(line: &str) -> Result<(Call, u64), Fail> {
    let Some(call) = Call::read(line.as_bytes(), true) else {
        return Err(Fail::from("no call"));
    };
    match call.reading {
        Some(reading) => Ok((call, reading)),
        None => Err(Fail::from("no reading")),
    }
}

/// Asks both universes for the same, and compares their replies. It gives their code.
fn ask_both(
    rt: &impl Abort,
    alloc: Global,
    slow: &mut TickingUniverse,
    lazy: &mut LazyUniverse,
    line: &str,
) -> Result<u8, Fail>
    requires slow { StandsAtLast slow.old }
    requires lazy { KeepsSome lazy.old }
    ensures slow { OnOk result (StandsAtLast slow.new) }
    ensures lazy { OnOk result (KeepsSome lazy.new) }
{
    let (call, reading) = call_of(line)?;
    assert!(rt; reading <= LATEST && slow.number < LAST_NUMBER && lazy.number < LAST_NUMBER);
    let ticked = slow.ask(alloc, call.player, &call.req, reading)?;
    let told = lazy.ask(alloc, call.player, &call.req, reading)?;
    assert_eq!(rt;
        (ticked.number, ticked.moment, ticked.code),
        (told.number, told.moment, told.code),
        "{line}"
    );
    assert_eq!(rt; ticked.body.as_slice(), told.body.as_slice(), "{line}");
    Ok(ticked.code)
}

/// The lazy universe is asked for a planet by its owner, and so brings both to this second.
fn ask_lazy(
    rt: &impl Abort,
    alloc: Global,
    lazy: &mut LazyUniverse,
    planet: (u32, u32),
    second: u64,
) -> Result<(), Fail>
    requires { KeepsSome lazy.old }
    ensures { OnOk result (KeepsSome lazy.new) }
{
    let (position, owner) = planet;
    let line = format!(in alloc; "@{second} {owner} planet 1:1:{position}")?;
    let (call, reading) = call_of(&line)?;
    assert!(rt; reading <= LATEST && lazy.number < LAST_NUMBER);
    lazy.ask(alloc, call.player, &call.req, reading)?;
    Ok(())
}

/// The number of the last fleet that was sent, after a request of this form and number was granted.
fn last_sent(form: Form, number: u64, sent: u64) -> u64 {
    match form {
        Form::Send => number,
        _ => sent,
    }
}

/// Plays a script of so many lines that is drawn from a seed, and compares all cells some time after it. It tells what was
/// granted.
fn play(rt: &impl Abort, alloc: Global, seed: u64, lines: u32) -> Result<Granted, Fail> {
    let base = base_of(alloc)?;
    let mut slow = TickingUniverse::new(alloc, &base)?;
    let mut lazy = LazyUniverse::new(alloc, &base)?;
    let mut draws = Draws::new(seed, 1);
    let mut second = 0;
    let mut sent = 0;
    let mut granted = Granted {
        builds: 0,
        research: 0,
        batches: 0,
        flights: 0,
        joins: 0,
        recalls: 0,
    };
    'lines: for _ in 0..lines {
        second = later(&mut draws, second);
        let form = form_of(&mut draws);
        let line = line_of(alloc, &mut draws, form, second, sent)?;
        if ask_both(rt, alloc, &mut slow, &mut lazy, &line)? == 0 {
            granted.count(form);
            sent = last_sent(form, slow.number, sent);
        }
    }
    let end = second.saturating_add(100);
    assert!(rt; slow.moment <= end && end <= LATEST);
    slow.tick_to(alloc, end)?;
    'planets: for planet in PLANETS {
        ask_lazy(rt, alloc, &mut lazy, planet, end)?;
    }
    assert_eq!(rt;
        slow.dump(alloc)?.as_slice(),
        lazy.dump(alloc)?.as_slice(),
        "seed {seed}"
    );
    Ok(granted)
}

#[test]
fn the_slow_program_and_the_lazy_one_agree(rt: HostRuntime) -> Result<(), Fail> {
    let mut flights = 0u32;
    let mut joins = 0u32;
    let mut recalls = 0u32;
    'seeds: for seed in 0..6 {
        let granted = play(&rt, rt.alloc(), seed, 500)?;
        assert!(rt;
            granted.builds > 20 && granted.research > 2 && granted.batches > 0,
            "seed {seed}: {granted:?}"
        );
        flights = flights.saturating_add(granted.flights);
        joins = joins.saturating_add(granted.joins);
        recalls = recalls.saturating_add(granted.recalls);
    }
    assert!(rt; flights > 60, "{flights} sent");
    assert!(rt;
        joins > 2 && recalls > 3,
        "{joins} joined, {recalls} called back"
    );
    Ok(())
}
