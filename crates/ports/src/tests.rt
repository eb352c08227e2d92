// What no clause says: the forms in memory and the adapters, run.
use crate::{
    Clock, Failed, LATEST, MemoryClock, MemorySink, MemorySource, ReadSource, Sink, Source,
    SystemClock, WriteSink,
};
use std::cell::Cell;
use std::io::{ErrorKind, Read, Write};
use std::test::Fail;
use std::time::Duration;
use std::{format, io, rt};

// The first second of the year 2020.
const START_OF_2020: u64 = 1_577_836_800;

// The bytes that one read into eight bytes of room gives.
fn read_piece<S: Source>(rt: &HostRuntime, source: &mut S) -> Result<Vec<u8>, Fail> {
    let mut room = [0; 8];
    let count = source.read(&mut room)?;
    Ok(Vec::from_slice(rt.alloc(), &room[..count])?)
}

// How many bytes one write takes.
fn write_piece<K: Sink>(sink: &mut K, from: &[u8]) -> Result<usize, Failed> {
    sink.write(from)
}

// The next reading.
fn next_reading<C: Clock>(clock: &mut C) -> u64 {
    clock.now()
}

// The first reading of the clock's twin.
fn first_of_twin<C: Clock + Drop>(clock: &C) -> u64 {
    clock.twin().now()
}

#[derive(Drop)]
struct Broken;

impl Read for Broken {
    fn read(&mut self, _into: &mut [u8]) -> io::Result<usize> {
        Err(io::Error::from(ErrorKind::BrokenPipe))
    }
}

impl Write for Broken {
    fn write(&mut self, _from: &[u8]) -> io::Result<usize> {
        Ok(0)
    }

    fn flush(&mut self) -> io::Result<()> {
        Ok(())
    }
}

#[test]
fn a_source_read_in_pieces_gives_all_its_bytes_and_then_none(rt: HostRuntime) -> Result<(), Fail> {
    let mut source = MemorySource::new(b"seven b", &[]).in_pieces(3);
    for want in ["sev", "en ", "b", "", ""] {
        let piece = read_piece(&rt, &mut source)?;
        assert_eq!(rt; piece.as_slice(), want.as_bytes());
    }
    assert_eq!(rt; source.faults, 0);
    Ok(())
}

#[test]
fn pieces_of_no_bytes_are_pieces_of_one(rt: HostRuntime) -> Result<(), Fail> {
    let mut source = MemorySource::new(b"two", &[]).in_pieces(0);
    let piece = read_piece(&rt, &mut source)?;
    assert_eq!(rt; piece.as_slice(), b"t".as_slice());
    let mut sink = MemorySink::new(rt.alloc(), &[]).in_pieces(0);
    assert_eq!(rt; write_piece(&mut sink, b"two"), Ok(1));
    Ok(())
}

#[test]
fn a_source_fails_at_the_listed_calls_and_goes_on(rt: HostRuntime) -> Result<(), Fail> {
    let mut source = MemorySource::new(b"four", &[1, 3]).in_pieces(2);
    assert_eq!(rt; source.read(&mut [0; 8]), Err(Failed));
    let first = read_piece(&rt, &mut source)?;
    assert_eq!(rt; first.as_slice(), b"fo".as_slice());
    assert_eq!(rt; source.read(&mut [0; 8]), Err(Failed));
    let second = read_piece(&rt, &mut source)?;
    assert_eq!(rt; second.as_slice(), b"ur".as_slice());
    assert_eq!(rt; source.faults, 2);
    Ok(())
}

#[test]
fn a_sink_fails_at_the_listed_calls_and_goes_on(rt: HostRuntime) {
    let mut sink = MemorySink::new(rt.alloc(), &[2]).in_pieces(2);
    assert_eq!(rt; write_piece(&mut sink, b"abc"), Ok(2));
    assert_eq!(rt; write_piece(&mut sink, b"cde"), Err(Failed));
    assert_eq!(rt; write_piece(&mut sink, b"c"), Ok(1));
    assert_eq!(rt; write_piece(&mut sink, b""), Ok(0));
    assert_eq!(rt; sink.written(), b"abc".as_slice());
    assert_eq!(rt; sink.faults, 1);
}

#[test]
fn the_last_reading_repeats_and_a_twin_starts_anew(rt: HostRuntime) {
    let mut clock = MemoryClock::new(&[5, LATEST + 9, 3]);
    for want in [5, LATEST, 3, 3, 3] {
        assert_eq!(rt; next_reading(&mut clock), want);
    }
    assert_eq!(rt; first_of_twin(&clock), 5);
    let mut empty = MemoryClock::new(&[]);
    assert_eq!(rt; next_reading(&mut empty), 0);
}

#[test]
fn the_adapters_move_bytes(rt: HostRuntime) -> Result<(), Fail> {
    let mut source = ReadSource::new(b"four".as_slice());
    let piece = read_piece(&rt, &mut source)?;
    assert_eq!(rt; piece.as_slice(), b"four".as_slice());
    assert_eq!(rt; source.fault_count(), 0);
    let mut bytes = Vec::new(rt.alloc());
    let mut sink = WriteSink::new(&mut bytes);
    assert_eq!(rt; write_piece(&mut sink, b"four"), Ok(4));
    assert_eq!(rt; write_piece(&mut sink, b""), Ok(0));
    assert_eq!(rt; sink.fault_count(), 0);
    assert_eq!(rt; bytes.as_slice(), b"four".as_slice());
    Ok(())
}

#[test]
fn the_adapters_count_the_faults_of_std(rt: HostRuntime) {
    let mut source = ReadSource::new(Broken);
    assert_eq!(rt; source.read(&mut [0; 8]), Err(Failed));
    assert_eq!(rt; source.read(&mut [0; 8]), Err(Failed));
    assert_eq!(rt; source.fault_count(), 2);
    let mut sink = WriteSink::new(Broken);
    assert_eq!(rt; write_piece(&mut sink, b""), Ok(0));
    assert_eq!(rt; write_piece(&mut sink, b"a"), Err(Failed));
    assert_eq!(rt; sink.fault_count(), 1);
}

// What standard input gives is not known, so it is read into no room.
#[test]
fn the_adapters_move_the_bytes_of_the_runtime(rt: HostRuntime) {
    let mut source = ReadSource::new(rt.stdin());
    assert_eq!(rt; source.read(&mut []), Ok(0));
    assert_eq!(rt; source.fault_count(), 0);
    let mut sink = WriteSink::new(rt.stdout());
    assert_eq!(rt; write_piece(&mut sink, b"one line\n"), Ok(9));
    assert_eq!(rt; write_piece(&mut sink, b""), Ok(0));
    assert_eq!(rt; sink.fault_count(), 0);
}

#[test]
fn the_system_clock_tells_a_second_after_2020(rt: HostRuntime) {
    let mut clock = SystemClock::new(&rt);
    let reading = next_reading(&mut clock);
    assert!(rt; reading > START_OF_2020);
    assert!(rt; first_of_twin(&clock) >= reading);
}

// A system whose time in seconds is set. It gives none if none is set.
#[derive(Drop)]
struct SetTime {
    seconds: Cell<Option<u64>>,
}

impl rt::Clock for SetTime {
    fn monotonic(&self) -> io::Result<Duration> {
        self.since_1970()
    }

    fn since_1970(&self) -> io::Result<Duration> {
        match self.seconds.get() {
            Some(seconds) => Ok(Duration::from_secs(seconds)),
            None => Err(io::Error::from(ErrorKind::Unsupported)),
        }
    }
}

#[test]
fn the_system_clock_repeats_its_last_reading_if_the_system_gives_no_time(rt: HostRuntime) {
    let system = SetTime {
        seconds: Cell::new(None),
    };
    let mut clock = SystemClock::new(&system);
    for (time, want) in [
        (None, 0),
        (Some(7), 7),
        (None, 7),
        (Some(5), 5),
        (Some(LATEST + 1), LATEST),
        (None, LATEST),
    ] {
        system.seconds.set(time);
        assert_eq!(rt; next_reading(&mut clock), want);
    }
    assert_eq!(rt; first_of_twin(&clock), 0);
}

#[test]
fn a_failure_has_a_text(rt: HostRuntime) -> Result<(), Fail> {
    let text = format!(in rt.alloc(); "{Failed}")?;
    assert_eq!(rt; text.as_str(), "the call failed");
    Ok(())
}
