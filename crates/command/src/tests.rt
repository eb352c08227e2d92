ghost use Rattle.std.specs.Prelude.{None};

mod attacks;
mod buildings;
mod dumps;
mod flights;
mod founds;
mod researches;
mod yards;

use crate::{DONE, NOT_A_COMMAND, NOT_FOUNDED, SINK_FAULT, SOURCE_FAULT, run};
use disk_port::MemoryDisk;
use ports::{Clock, Failed, MemoryClock, MemorySink, MemorySource, Sink, Source};
use std::alloc::{AllocError, Global};
use std::cell::Cell;
use std::test::Fail;

/// A universe at speed 1 and second 0, with player 1 and a planet at 1:1:1.
const FOUNDING: &[u8] = b"universe 7 1 1000 0\nplayer 1\nplanet 1:1:1 1 40 163\n.\n";

/// The founding text with lines after it.
fn text_of(alloc: Global, script: &[u8]) -> Result<Vec<u8>, AllocError> {
    let mut text = Vec::from_slice(alloc, FOUNDING)?;
    text.extend_from_slice(script)?;
    Ok(text)
}

/// The words of a line that are not empty.
fn words_of(alloc: Global, line: &str) -> Result<Vec<String>, AllocError> {
    let mut words = Vec::new(alloc);
    for word in line.split(' ') {
        if !word.is_empty() {
            words.push(String::from_str(alloc, word)?)?;
        }
    }
    Ok(words)
}

/// Runs a command that leaves its disks alone, and returns its status.
fn run_undisturbed<S: Source, K: Sink, C: Clock>(
    alloc: Global,
    words: &[String],
    source: &mut S,
    sink: &mut K,
    clock: &mut C,
) -> Result<u8, AllocError> {
    let left = MemoryDisk::new(alloc, b"", &[])?;
    let right = MemoryDisk::new(alloc, b"", &[])?;
    Ok(run(alloc, words, source, sink, left, right, clock).status)
}

/// Runs `trial` over an input that comes in pieces of at most `most` bytes.
fn tried<'a>(
    alloc: Global,
    input: &[u8],
    most: usize,
    failing_reads: &[u64],
    failing_writes: &'a [u64],
) -> Result<(u8, MemorySink<'a>), AllocError> {
    let words = words_of(alloc, "trial")?;
    let mut source = MemorySource::new(input, failing_reads).in_pieces(most);
    let mut sink = MemorySink::new(alloc, failing_writes);
    let mut clock = MemoryClock::new(&[]);
    let status = run_undisturbed(alloc, &words, &mut source, &mut sink, &mut clock)?;
    Ok((status, sink))
}

/// Runs `trial` over the founding text and these lines.
fn answers_to(alloc: Global, script: &[u8]) -> Result<(u8, MemorySink<'static>), AllocError> {
    let input = text_of(alloc, script)?;
    tried(alloc, &input, usize::MAX, &[], &[])
}

#[test]
fn a_planet_after_an_hour(rt: HostRuntime) -> Result<(), Fail> {
    let (status, sink) = answers_to(rt.alloc(), b"@3600 1 planet 1:1:1\n")?;
    assert_eq!(rt; status, DONE);
    let wanted =
        b"ok 1 3600\nplanet 1:1:1 1 40 163 0\nstock 520 510 0\nhourly 20 10 0\nlimit 10000 10000 10000\nenergy 0 0\ndebris 0 0\n.\n";
    assert_eq!(rt; sink.written(), wanted.as_slice());
    Ok(())
}

#[test]
fn asking_at_every_second_is_asking_once(rt: HostRuntime) -> Result<(), Fail> {
    let mut script = Vec::new(rt.alloc());
    for second in 1..1001 {
        let line = format!(in rt.alloc(); "@{second} 1 planet 1:1:1\n")?;
        script.extend_from_slice(line.as_bytes())?;
    }
    script.extend_from_slice(b"@3600 1 planet 1:1:1\n")?;
    let (status, sink) = answers_to(rt.alloc(), &script)?;
    assert_eq!(rt; status, DONE);
    let wanted =
        b"\n.\nok 1001 3600\nplanet 1:1:1 1 40 163 0\nstock 520 510 0\nhourly 20 10 0\nlimit 10000 10000 10000\nenergy 0 0\ndebris 0 0\n.\n";
    assert!(rt; sink.written().ends_with(wanted.as_slice()));
    Ok(())
}

/// A script, and the answers to it.
type Answers<'a> = (&'a [u8], &'a [u8]);

/// Refusals and bad lines, of which only the first take a number.
const SHORT_ANSWERS: [Answers; 13] = [
    (b"", b""),
    (
        b"@0 2 planet 1:1:1\n@5 1 planet 1:1:2\n@5 2 planet 1:1:2",
        b"no 1 0 1\nno 2 5 2\nno 3 5 1\n",
    ),
    (
        b"@100 2 planet 1:1:1\n@50 2 planet 1:1:1\n",
        b"no 1 100 1\nno 2 100 1\n",
    ),
    (
        b"@100 1 account\n@50 1 account\n",
        b"ok 1 100\naccount 1 0 0 1\nplanet 1:1:1\n.\nok 2 100\naccount 1 0 0 1\nplanet 1:1:1\n.\n",
    ),
    (
        b"hello\n@7 2 planet 1:1:1\n\n@7 2 planet 1:1:1\n",
        b"bad 1\nno 1 7 1\nbad 1\nno 2 7 1\n",
    ),
    (
        b"1 plant 1:1:1\n\n1 planet 01:1:1\n",
        b"bad 1\nbad 1\nbad 1\n",
    ),
    (
        b"@1 1 planet 01:1:1\n@01 1 planet 1:1:1\n@1 01 planet 1:1:1\n",
        b"bad 1\nbad 1\nbad 1\n",
    ),
    (
        b"@1  1 planet 1:1:1\n @1 1 planet 1:1:1\n@1 1 planet 1:1:1 \n",
        b"bad 1\nbad 1\nbad 1\n",
    ),
    (
        b"@1 1 join 1 1:1:1 1:1:2 10 smallcargo=1 0 0 0\n@1 1 send 1:1:1 1:1:2 attack 10 smallcargo=1 0 0 0\n\
@1 1 send 1:1:1 1:1:2 raid 10 recycler=1 0 0 0\n@1 2 planet 1:1:1\n",
        b"no 1 1 13\nno 2 1 8\nbad 1\nno 3 1 1\n",
    ),
    (
        b"@1099511627775 2 planet 1:1:1\n@1099511627776 2 planet 1:1:1\n",
        b"no 1 1099511627775 1\nbad 1\n",
    ),
    (
        b"@1 65535 planet 9:499:15\n@1 65536 planet 9:499:15\n@1 0 planet 1:1:1\n",
        b"no 1 1 1\nbad 1\nbad 1\n",
    ),
    (
        b"@1 2 planet 1:1:1\r\n@1 2 planet 1:1:1\r\r\n@1 2 planet 1:1:1\r",
        b"no 1 1 1\nbad 1\nbad 1\n",
    ),
    (b"\n", b"bad 1\n"),
];

#[test]
fn refusals_take_a_number_and_bad_lines_take_none(rt: HostRuntime) -> Result<(), Fail> {
    for (script, wanted) in SHORT_ANSWERS {
        let (status, sink) = answers_to(rt.alloc(), script)?;
        assert_eq!(rt; status, DONE);
        assert_eq!(rt; sink.written(), wanted);
    }
    Ok(())
}

#[test]
fn a_reading_that_goes_back_keeps_the_moment(rt: HostRuntime) -> Result<(), Fail> {
    let (status, sink) = answers_to(rt.alloc(), b"@100 1 planet 1:1:1\n@50 1 planet 1:1:1\n")?;
    assert_eq!(rt; status, DONE);
    assert!(rt; sink.written().starts_with(b"ok 1 100\n"));
    let planet =
        b".\nok 2 100\nplanet 1:1:1 1 40 163 0\nstock 500 500 0\nhourly 20 10 0\nlimit 10000 10000 10000\nenergy 0 0\ndebris 0 0\n.\n";
    assert!(rt; sink.written().ends_with(planet.as_slice()));
    Ok(())
}

#[test]
fn the_last_second_of_all_is_answered_at_once(rt: HostRuntime) -> Result<(), Fail> {
    let (status, sink) = answers_to(rt.alloc(), b"@1099511627775 1 planet 1:1:1\n")?;
    assert_eq!(rt; status, DONE);
    let wanted =
        b"ok 1 1099511627775\nplanet 1:1:1 1 40 163 0\nstock 10000 10000 0\nhourly 20 10 0\nlimit 10000 10000 10000\nenergy 0 0\ndebris 0 0\n.\n";
    assert_eq!(rt; sink.written(), wanted.as_slice());
    Ok(())
}

/// Founding texts, and the line that names the first bad one.
const UNFOUNDED: [Answers; 8] = [
    (b"", b"bad founding 1\n"),
    (b"\n", b"bad founding 1\n"),
    (b"universe 7 1 1000 0", b"bad founding 2\n"),
    (
        b"universe 7 1 1000 0\nplayer 1\nplanet 1:1:1 1 40 163\n",
        b"bad founding 4\n",
    ),
    (
        b"universe 7 1 1000 0\nplayer 1\nplanet 1:1:1 2 40 163\n.\n@0 1 planet 1:1:1\n",
        b"bad founding 3\n",
    ),
    (
        b"universe 7 1 1000 0\nplayer 1\nplayer 1\n.\n",
        b"bad founding 3\n",
    ),
    (
        b"universe 7 1 1000 0\nplayer 1\nlevel 1:1:1 metalmine 1\n.\n",
        b"bad founding 3\n",
    ),
    (b".\n", b"bad founding 1\n"),
];

#[test]
fn the_first_bad_founding_line_is_named(rt: HostRuntime) -> Result<(), Fail> {
    for (input, wanted) in UNFOUNDED {
        let (status, sink) = tried(rt.alloc(), input, usize::MAX, &[], &[])?;
        assert_eq!(rt; status, NOT_FOUNDED);
        assert_eq!(rt; sink.written(), wanted);
    }
    let (status, sink) = tried(rt.alloc(), b"", usize::MAX, &[], &[1])?;
    assert_eq!(rt; status, SINK_FAULT);
    assert!(rt; sink.written().is_empty());
    Ok(())
}

/// Founding texts at the ends of their ranges, the request that is asked, and its whole answer.
const FOUNDED: [Answers; 4] = [
    (
        b"universe 18446744073709551615 100 262144 1099511627775\nplayer 65535\nplanet 9:499:15 65535 -130 400\n.\n@0 65535 planet 9:499:15",
        b"ok 1 1099511627775\nplanet 9:499:15 65535 -130 400 0\nstock 500 500 0\nhourly 2000 1000 0\nlimit 10000 10000 10000\nenergy 0 0\ndebris 0 0\n.\n",
    ),
    (
        b"universe 0 1 1 0\r\nplayer 1\r\nplanet 1:1:1 1 260 1\r\n.\r\n@1 1 planet 1:1:1\r\n",
        b"ok 1 1\nplanet 1:1:1 1 260 1 0\nstock 500 500 0\nhourly 20 10 0\nlimit 10000 10000 10000\nenergy 0 0\ndebris 0 0\n.\n",
    ),
    (
        b"universe 1 2 5 10\nplayer 3\nplanet 2:3:4 3 0 163\n.\n@3610 3 planet 2:3:4\n",
        b"ok 1 3610\nplanet 2:3:4 3 0 163 0\nstock 540 520 0\nhourly 40 20 0\nlimit 10000 10000 10000\nenergy 0 0\ndebris 0 0\n.\n",
    ),
    (
        b"universe 7 1 1000 0\nplayer 1\nplanet 1:1:1 1 40 163\n.",
        b"",
    ),
];

#[test]
fn founding_texts_at_the_ends_of_their_ranges(rt: HostRuntime) -> Result<(), Fail> {
    for (input, wanted) in FOUNDED {
        let (status, sink) = tried(rt.alloc(), input, usize::MAX, &[], &[])?;
        assert_eq!(rt; status, DONE);
        assert_eq!(rt; sink.written(), wanted);
    }
    Ok(())
}

#[test]
fn other_words_than_a_command_have_2_and_read_nothing(rt: HostRuntime) -> Result<(), Fail> {
    let alloc = rt.alloc();
    for line in [
        "",
        "play",
        "dump",
        "dump trial",
        "trial trial",
        "trial Dump",
        "trial dump dump",
        "Trial",
    ] {
        let words = words_of(alloc, line)?;
        let mut source = MemorySource::new(FOUNDING, &[]);
        let mut sink = MemorySink::new(alloc, &[]);
        let mut clock = MemoryClock::new(&[]);
        let status = run_undisturbed(alloc, &words, &mut source, &mut sink, &mut clock)?;
        assert_eq!(rt; status, NOT_A_COMMAND);
        assert_eq!(rt; source.calls, 0);
        assert!(rt; sink.written().is_empty());
    }
    Ok(())
}

#[test]
fn a_source_that_fails_at_any_read_has_4_and_the_answers_so_far(
    rt: HostRuntime,
) -> Result<(), Fail> {
    let input = text_of(rt.alloc(), b"one\ntwo\nthree\n@9 1 planet 1:1:1")?;
    for (k, wanted) in [(1, 0), (2, 0), (3, 0), (4, 0), (5, 2), (6, 3)] {
        let (status, sink) = tried(rt.alloc(), &input, 16, &[k], &[])?;
        assert_eq!(rt; status, SOURCE_FAULT, "at read {k}");
        assert_eq!(rt; sink.written().len(), wanted * 6, "at read {k}");
    }
    Ok(())
}

#[test]
fn a_whole_line_before_a_fault_is_answered(rt: HostRuntime) -> Result<(), Fail> {
    let input = text_of(rt.alloc(), b"@7 2 planet 1:1:1\n@8 2 plan")?;
    let (status, sink) = tried(rt.alloc(), &input, usize::MAX, &[2], &[])?;
    assert_eq!(rt; status, SOURCE_FAULT);
    assert_eq!(rt; sink.written(), b"no 1 7 1\n".as_slice());
    Ok(())
}

/// Runs `trial` over the founding text and these lines, with a clock that tells these readings.
fn answers_at<'a>(
    alloc: Global,
    script: &[u8],
    readings: &'a [u64],
) -> Result<(u8, MemorySink<'static>, MemoryClock<'a>), AllocError> {
    let input = text_of(alloc, script)?;
    let words = words_of(alloc, "trial")?;
    let mut source = MemorySource::new(&input, &[]);
    let mut sink = MemorySink::new(alloc, &[]);
    let mut clock = MemoryClock::new(readings);
    let status = run_undisturbed(alloc, &words, &mut source, &mut sink, &mut clock)?;
    Ok((status, sink, clock))
}

#[test]
fn a_line_without_a_reading_reads_the_clock_once(rt: HostRuntime) -> Result<(), Fail> {
    let script =
        b"2 planet 1:1:1\nplant\n@5 2 planet 1:1:1\n1 joins 1 1:1:1 1:1:2 10 smallcargo=1 0 0 0\n3 planet 1:1:1\r\n2 planet 9:9:9\n";
    let (status, sink, clock) = answers_at(rt.alloc(), script, &[3600, 3500, 3700])?;
    assert_eq!(rt; status, DONE);
    let wanted = b"no 1 3600 1\nbad 1\nno 2 3600 1\nbad 1\nno 3 3600 1\nno 4 3700 1\n";
    assert_eq!(rt; sink.written(), wanted.as_slice());
    assert_eq!(rt; clock.count, 3);
    Ok(())
}

#[test]
fn an_account_is_told_at_the_reading_of_the_clock(rt: HostRuntime) -> Result<(), Fail> {
    let (status, sink, clock) = answers_at(rt.alloc(), b"1 account\r\n", &[3600])?;
    assert_eq!(rt; status, DONE);
    assert_eq!(rt;
        sink.written(),
        b"ok 1 3600\naccount 1 0 0 1\nplanet 1:1:1\n.\n".as_slice()
    );
    assert_eq!(rt; clock.count, 1);
    Ok(())
}

#[test]
fn a_line_of_401_bytes_is_bad_2(rt: HostRuntime) -> Result<(), Fail> {
    let cases: [(usize, &[u8], &[u8]); 6] = [
        (400, b"\n", b"bad 1\n"),
        (401, b"\n", b"bad 2\n"),
        (400, b"\r\n", b"bad 1\n"),
        (401, b"\r\n", b"bad 2\n"),
        (401, b"", b"bad 2\n"),
        (70_000, b"\n@7 2 planet 1:1:1\n", b"bad 2\nno 1 7 1\n"),
    ];
    for (count, ending, wanted) in cases {
        let mut script = vec![in rt.alloc(); b'a'; count]?;
        script.extend_from_slice(ending)?;
        let (status, sink) = answers_to(rt.alloc(), &script)?;
        assert_eq!(rt; status, DONE);
        assert_eq!(rt; sink.written(), wanted);
    }
    Ok(())
}

/// The text of a founding with 10000 players and 20000 planets, and a dot behind it.
fn full_founding(alloc: Global) -> Result<Vec<u8>, Fail> {
    let mut text = Vec::from_slice(alloc, b"universe 7 1 1000 0\n")?;
    for k in 1..10_001u32 {
        let line = format!(in alloc; "player {k}\n")?;
        text.extend_from_slice(line.as_bytes())?;
    }
    for k in 0..20_000u32 {
        let owner = k / 2 + 1;
        let system = k / 15 % 499 + 1;
        let galaxy = k / 15 / 499 + 1;
        let position = k % 15 + 1;
        let line = format!(in alloc; "planet {galaxy}:{system}:{position} {owner} 40 163\n")?;
        text.extend_from_slice(line.as_bytes())?;
    }
    text.extend_from_slice(b".\n")?;
    Ok(text)
}

#[test]
fn one_planet_of_twenty_thousand_is_asked(rt: HostRuntime) -> Result<(), Fail> {
    let alloc = rt.alloc();
    let mut input = full_founding(alloc)?;
    input.extend_from_slice(b"@3600 10000 planet 3:336:5\n@3600 9999 planet 3:336:5\n")?;
    let (status, sink) = tried(alloc, &input, usize::MAX, &[], &[])?;
    assert_eq!(rt; status, DONE);
    let wanted =
        b"ok 1 3600\nplanet 3:336:5 10000 40 163 0\nstock 520 510 0\nhourly 20 10 0\nlimit 10000 10000 10000\nenergy 0 0\ndebris 0 0\n.\nno 2 3600 3\n";
    assert_eq!(rt; sink.written(), wanted.as_slice());
    Ok(())
}

#[test]
fn one_planet_of_twenty_thousand_is_asked_200000_times(rt: HostRuntime) -> Result<(), Fail> {
    let alloc = rt.alloc();
    let mut input = full_founding(alloc)?;
    for second in 1..200_001u32 {
        let line = format!(in alloc; "@{second} 1 planet 1:1:1\n")?;
        input.extend_from_slice(line.as_bytes())?;
    }
    let (status, sink) = tried(alloc, &input, usize::MAX, &[], &[])?;
    assert_eq!(rt; status, DONE);
    let last =
        b"ok 200000 200000\nplanet 1:1:1 1 40 163 0\nstock 1611 1055 0\nhourly 20 10 0\nlimit 10000 10000 10000\nenergy 0 0\ndebris 0 0\n.\n";
    assert!(rt; sink.written().ends_with(last.as_slice()));
    Ok(())
}

#[test]
fn a_sink_that_fails_at_any_write_has_5(rt: HostRuntime) -> Result<(), Fail> {
    let input = text_of(rt.alloc(), b"one\ntwo\nthree\nfour\nfive\nsix\n")?;
    let answers = b"bad 1\nbad 1\nbad 1\nbad 1\nbad 1\nbad 1\n";
    for k in 1..7 {
        let failing = [k];
        let (status, sink) = tried(rt.alloc(), &input, usize::MAX, &[], &failing)?;
        assert_eq!(rt; status, SINK_FAULT, "at write {k}");
        assert_eq!(rt; sink.written().len() as u64, (k - 1) * 6);
        assert!(rt; answers.starts_with(sink.written()));
    }
    Ok(())
}

#[test]
fn bytes_come_and_go_in_pieces_of_any_size(rt: HostRuntime) -> Result<(), Fail> {
    let alloc = rt.alloc();
    let input = text_of(alloc, b"@1 1 planet 1:1:1\nx\n@2 2 planet 1:1:1\n")?;
    let (status, whole) = tried(alloc, &input, usize::MAX, &[], &[])?;
    assert_eq!(rt; status, DONE);
    for most in 1..20 {
        let words = words_of(alloc, "trial")?;
        let mut source = MemorySource::new(&input, &[]).in_pieces(most);
        let mut sink = MemorySink::new(alloc, &[]).in_pieces(most);
        let mut clock = MemoryClock::new(&[]);
        let status = run_undisturbed(alloc, &words, &mut source, &mut sink, &mut clock)?;
        assert_eq!(rt; status, DONE);
        assert_eq!(rt; sink.written(), whole.written());
    }
    Ok(())
}

/// An input in pieces. It gives one piece a read, and only after as many answers as the piece names; else the read fails.
#[derive(Drop)]
struct InTurn<'a> {
    pieces: &'a [(&'a [u8], u64)],
    answers: &'a Cell<u64>,
    faults: u64,
}

impl Source for InTurn<'_> {
    ghost left = { λ _. None };

    ghost faults = { λ s. s.faults };

    fn read(&mut self, into: &mut [u8]) -> Result<usize, Failed> {
        let [(piece, due), rest @ ..] = self.pieces else {
            return Ok(0);
        };
        if self.answers.get() < *due || into.len() < piece.len() {
            self.faults = self.faults.saturating_add(1);
            return Err(Failed);
        }
        into[..piece.len()].copy_from_slice(piece);
        self.pieces = rest;
        Ok(piece.len())
    }
}

/// It counts the pieces that it is handed.
#[derive(Drop)]
struct Counting<'a> {
    answers: &'a Cell<u64>,
}

impl Sink for Counting<'_> {
    ghost written = { λ _. None };

    ghost faults = { λ _. 0 };

    fn write(&mut self, from: &[u8]) -> Result<usize, Failed> {
        self.answers.set(self.answers.get().saturating_add(1));
        Ok(from.len())
    }
}

#[test]
fn each_line_is_answered_before_the_next_is_read(rt: HostRuntime) -> Result<(), Fail> {
    let alloc = rt.alloc();
    let answers = Cell::new(0);
    let pieces: [(&[u8], u64); 5] = [
        (FOUNDING, 0),
        (b"@1 2 planet 1:1:1\n", 0),
        (b"x\n", 1),
        (b"@2 1 planet 1:1:1\n", 2),
        (b"", 3),
    ];
    let mut source = InTurn {
        pieces: &pieces,
        answers: &answers,
        faults: 0,
    };
    let mut sink = Counting { answers: &answers };
    let mut clock = MemoryClock::new(&[]);
    let words = words_of(alloc, "trial")?;
    let status = run_undisturbed(alloc, &words, &mut source, &mut sink, &mut clock)?;
    assert_eq!(rt; (status, answers.get()), (DONE, 3));
    Ok(())
}
