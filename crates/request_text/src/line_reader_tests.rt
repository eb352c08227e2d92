// What no clause says: a reader over sources in memory, run; and a caller, proved.
ghost use Rattle.std.specs.Prelude.{◌≡◌, ◌≤◌, ◌++◌, ℕ, List, [], length, MatchResult};
ghost use Rattle.std.specs.Str.Lines.{lines};
ghost use Rattle.base_text.specs.Parts.{Lacks};
ghost use Rattle.request_text.specs.LineReading.{ahead, Known, Sees};
ghost use Rattle.request_text.specs.declared.line_reader.TheConstants.{MOST_TAKEN};

use crate::{Line, LineReader, MOST_TAKEN, Stop, Told};
use ports::{MemorySource, Source};
use std::process::Abort;
use std::test::Fail;

// How many lines a reader answers: all that it sees, or those that are whole if a read fails or the reader may
// take no more.
fn count_lines<S: Source>(reader: &mut LineReader, src: &mut S) -> Result<u64, u64>
    requires { ahead reader.old ≤ MOST_TAKEN }
    ensures { Known (S.left src.old) (S.left src.new) (λ left more. (text : List ℕ) → Sees reader.old left text → MatchResult result
        (λ n. (more ≡ []) × (n ≡ length (lines text)))
        (λ n. (said pending : List ℕ) × (text ≡ said ++ (pending ++ more)) × Lacks 10 pending × (n ≡ length (lines said)))) }
{
    let mut count = 0;
    'lines: loop {
        match reader.next(src) {
            Line::Text(_) => count += 1,
            Line::Long => count += 1,
            Line::End => return Ok(count),
            Line::Fault => return Err(count),
            Line::Spent => return Err(count),
        }
    }
}

// The reader gives these answers, with these lines.
fn expect_answers<S: Source>(
    rt: &impl Abort,
    reader: &mut LineReader,
    src: &mut S,
    want: &[(Line, &[u8])],
) {
    for (answer, line) in want {
        assert_eq!(rt; reader.next(src), *answer);
        assert_eq!(rt; reader.line(), *line);
    }
}

#[test]
fn every_cut_of_a_script_gives_the_same_lines(rt: HostRuntime) -> Result<(), Fail> {
    let script = b"one\ntwo\r\n\r\n\nthree\rfour\r\r\n\0five\nlast\r";
    let want: [(Line, &[u8]); 9] = [
        (Line::Text(3), b"one"),
        (Line::Text(3), b"two"),
        (Line::Text(0), b""),
        (Line::Text(0), b""),
        (Line::Text(11), b"three\rfour\r"),
        (Line::Text(5), b"\0five"),
        (Line::Text(5), b"last\r"),
        (Line::End, b""),
        (Line::End, b""),
    ];
    for most in 1..=19 {
        let mut source = MemorySource::new(script, &[]).in_pieces(most);
        let mut reader = LineReader::new(rt.alloc())?;
        expect_answers(&rt, &mut reader, &mut source, &want);
    }
    Ok(())
}

// So many bytes `a`, and then the ending.
fn long_text(rt: &HostRuntime, count: usize, ending: &[u8]) -> Result<Vec<u8>, Fail> {
    let mut text = vec![in rt.alloc(); b'a'; count]?;
    text.extend_from_slice(ending)?;
    Ok(text)
}

#[test]
fn a_line_of_401_bytes_is_long(rt: HostRuntime) -> Result<(), Fail> {
    let cases: [(usize, &[u8], Line); 10] = [
        (400, b"\nb", Line::Text(400)),
        (401, b"\nb", Line::Long),
        (400, b"\r\nb", Line::Text(400)),
        (401, b"\r\nb", Line::Long),
        (399, b"\r\r\nb", Line::Text(400)),
        (400, b"\r\r\nb", Line::Long),
        (400, b"", Line::Text(400)),
        (401, b"", Line::Long),
        (399, b"\r", Line::Text(400)),
        (400, b"\r", Line::Long),
    ];
    for (count, ending, want) in cases {
        let text = long_text(&rt, count, ending)?;
        let mut source = MemorySource::new(text.as_slice(), &[]).in_pieces(100);
        let mut reader = LineReader::new(rt.alloc())?;
        assert_eq!(rt; reader.next(&mut source), want);
        if ending.contains(&b'\n') {
            assert_eq!(rt; reader.next(&mut source), Line::Text(1));
        }
        assert_eq!(rt; reader.next(&mut source), Line::End);
    }
    Ok(())
}

#[test]
fn a_line_longer_than_the_buffer_is_passed_over(rt: HostRuntime) -> Result<(), Fail> {
    let text = long_text(&rt, 200_000, b"\nshort\n")?;
    let want: [(Line, &[u8]); 3] = [
        (Line::Long, b""),
        (Line::Text(5), b"short"),
        (Line::End, b""),
    ];
    for most in [4999, 65536, 200_000] {
        let mut source = MemorySource::new(text.as_slice(), &[]).in_pieces(most);
        let mut reader = LineReader::new(rt.alloc())?;
        expect_answers(&rt, &mut reader, &mut source, &want);
    }
    Ok(())
}

#[test]
fn a_reader_reads_on_after_a_fault(rt: HostRuntime) -> Result<(), Fail> {
    let text = long_text(&rt, 500, b"\nfirst\nsecond")?;
    let want: [(Line, &[u8]); 7] = [
        (Line::Fault, b""),
        (Line::Fault, b""),
        (Line::Long, b""),
        (Line::Text(5), b"first"),
        (Line::Fault, b""),
        (Line::Text(6), b"second"),
        (Line::End, b""),
    ];
    let mut source = MemorySource::new(text.as_slice(), &[1, 3, 5]).in_pieces(450);
    let mut reader = LineReader::new(rt.alloc())?;
    expect_answers(&rt, &mut reader, &mut source, &want);
    assert_eq!(rt; source.faults, 3);
    Ok(())
}

#[test]
fn an_answer_is_a_line_the_end_or_a_stop(rt: HostRuntime) {
    let cases: [(Line, Result<Option<Told>, Stop>); 5] = [
        (Line::Text(7), Ok(Some(Told::Text(7)))),
        (Line::Long, Ok(Some(Told::Long))),
        (Line::End, Ok(None)),
        (Line::Fault, Err(Stop::Fault)),
        (Line::Spent, Err(Stop::Spent)),
    ];
    for (line, want) in cases {
        assert_eq!(rt; line.told(), want);
    }
    assert_eq!(rt; MOST_TAKEN, 1_099_511_627_776);
}

#[test]
fn lines_that_are_kept_are_told_without_a_read(rt: HostRuntime) -> Result<(), Fail> {
    let mut source = MemorySource::new(b"first\nsecond\nlast", &[2]);
    let mut reader = LineReader::new(rt.alloc())?;
    let want: [(Line, u64); 5] = [
        (Line::Text(5), 1),
        (Line::Text(6), 1),
        (Line::Fault, 2),
        (Line::Text(4), 3),
        (Line::End, 3),
    ];
    for (line, calls) in want {
        assert_eq!(rt; (reader.next(&mut source), source.calls), (line, calls));
    }
    Ok(())
}

#[test]
fn lines_are_counted_to_the_end_or_to_a_fault(rt: HostRuntime) -> Result<(), Fail> {
    let cases: [(&[u8], &[u64], Result<u64, u64>); 4] = [
        (b"", &[], Ok(0)),
        (b"\n", &[], Ok(1)),
        (b"a\nb\nc", &[], Ok(3)),
        (b"a\nb\nc", &[2], Err(2)),
    ];
    for (text, failing, want) in cases {
        let mut source = MemorySource::new(text, failing);
        let mut reader = LineReader::new(rt.alloc())?;
        assert_eq!(rt; count_lines(&mut reader, &mut source), want);
    }
    Ok(())
}
