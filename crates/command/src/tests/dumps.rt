// The command `trial dump`.
use super::{run_undisturbed, words_of};
use crate::{DONE, NOT_FOUNDED, SINK_FAULT, SOURCE_FAULT};
use ports::{MemoryClock, MemorySink, MemorySource};
use std::alloc::{AllocError, Global};
use std::test::Fail;

/// Two planets, of which one is asked for at second 50.
const ONE_ASKED: &[u8] =
    b"universe 7 1 1000 0\nplayer 1\nplanet 1:1:2 1 40 163\nplanet 1:1:1 1 40 163\n.\n@50 1 planet 1:1:1\n";

/// The answer to it.
const ANSWER: &[u8] =
    b"ok 1 50\nplanet 1:1:1 1 40 163 0\nstock 500 500 0\nhourly 20 10 0\nlimit 10000 10000 10000\n\
energy 0 0\ndebris 0 0\n.\n";

/// All cells after it: those that the request touched stand at second 50.
const CELLS: &[u8] = b"cell account 1 at 50\naccount 1 0 0 1\nplanet 1:1:1\nplanet 1:1:2\n\
cell planet 1:1:1 at 50\nplanet 1:1:1 1 40 163 0\nstock 500 500 0\nhourly 20 10 0\nlimit 10000 10000 10000\n\
energy 0 0\ndebris 0 0\n\
cell planet 1:1:2 at 0\nplanet 1:1:2 1 40 163 0\nstock 500 500 0\nhourly 20 10 0\nlimit 10000 10000 10000\n\
energy 0 0\ndebris 0 0\n.\n";

/// Runs `trial dump` over an input, and hands the sink at most `most` bytes at once.
fn dumped<'a>(
    alloc: Global,
    input: &[u8],
    most: usize,
    failing_reads: &[u64],
    failing_writes: &'a [u64],
) -> Result<(u8, MemorySink<'a>), AllocError> {
    let words = words_of(alloc, "trial dump")?;
    let mut source = MemorySource::new(input, failing_reads);
    let mut sink = MemorySink::new(alloc, failing_writes).in_pieces(most);
    let mut clock = MemoryClock::new(&[]);
    let status = run_undisturbed(alloc, &words, &mut source, &mut sink, &mut clock)?;
    Ok((status, sink))
}

#[test]
fn all_cells_stand_in_order_behind_the_answers(rt: HostRuntime) -> Result<(), Fail> {
    for most in [1, 7, usize::MAX] {
        let (status, sink) = dumped(rt.alloc(), ONE_ASKED, most, &[], &[])?;
        assert_eq!(rt; status, DONE);
        assert!(rt; sink.written().starts_with(ANSWER));
        assert!(rt; sink.written().ends_with(CELLS));
        assert_eq!(rt; sink.written().len(), ANSWER.len() + CELLS.len());
    }
    Ok(())
}

#[test]
fn a_universe_without_players_has_no_cells(rt: HostRuntime) -> Result<(), Fail> {
    let (status, sink) = dumped(
        rt.alloc(),
        b"universe 7 1 1000 9\n.\n",
        usize::MAX,
        &[],
        &[],
    )?;
    assert_eq!(rt; status, DONE);
    assert_eq!(rt; sink.written(), b".\n".as_slice());
    Ok(())
}

#[test]
fn no_cells_are_written_if_the_input_breaks_off(rt: HostRuntime) -> Result<(), Fail> {
    let (status, sink) = dumped(rt.alloc(), ONE_ASKED, usize::MAX, &[2], &[])?;
    assert_eq!(rt; status, SOURCE_FAULT);
    assert_eq!(rt; sink.written(), ANSWER);
    let (status, sink) = dumped(rt.alloc(), b"universe 7 1 1000 0\n", usize::MAX, &[], &[])?;
    assert_eq!(rt; status, NOT_FOUNDED);
    assert_eq!(rt; sink.written(), b"bad founding 2\n".as_slice());
    Ok(())
}

#[test]
fn a_sink_that_fails_among_the_cells_has_the_answers(rt: HostRuntime) -> Result<(), Fail> {
    let (status, sink) = dumped(rt.alloc(), ONE_ASKED, usize::MAX, &[], &[2])?;
    assert_eq!(rt; status, SINK_FAULT);
    assert_eq!(rt; sink.written(), ANSWER);
    Ok(())
}
