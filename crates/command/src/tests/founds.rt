// The command `found`, on disks in memory.
use super::{FOUNDING, text_of, words_of};
use crate::{ALREADY_FOUNDED, DISK_FAULT, DONE, NOT_FOUNDED, run};
use disk_port::{MemoryDisk, Served};
use ports::{Failed, MemoryClock, MemorySink, MemorySource};
use recovery::look;
use std::alloc::{AllocError, Global};
use std::process::Abort;
use std::test::Fail;

/// What a run of `found` came to: its status, what it wrote, and its disks.
#[derive(Drop)]
struct Came<'a> {
    status: u8,
    written: Vec<u8>,
    left: MemoryDisk<'a>,
    right: MemoryDisk<'a>,
}

/// Runs `found` over an input.
fn founded<'a>(
    alloc: Global,
    input: &[u8],
    left: MemoryDisk<'a>,
    right: MemoryDisk<'a>,
) -> Result<Came<'a>, AllocError> {
    let words = words_of(alloc, "found")?;
    let mut source = MemorySource::new(input, &[]);
    let mut sink = MemorySink::new(alloc, &[]);
    let mut clock = MemoryClock::new(&[]);
    let Served {
        status,
        left,
        right,
    } = run(
        alloc,
        &words,
        &mut source,
        &mut sink,
        left,
        right,
        &mut clock,
    );
    Ok(Came {
        status,
        written: sink.bytes,
        left,
        right,
    })
}

/// Runs `found` over an input, on disks that hold nothing and of which these calls fail.
fn founded_anew<'a>(
    alloc: Global,
    input: &[u8],
    failing_left: &'a [u64],
    failing_right: &'a [u64],
) -> Result<Came<'a>, AllocError> {
    let left = MemoryDisk::new(alloc, b"", failing_left)?;
    let right = MemoryDisk::new(alloc, b"", failing_right)?;
    founded(alloc, input, left, right)
}

fn opens(disk: &mut MemoryDisk) -> Result<bool, Failed> {
    look(disk)
}

/// Whether an image isn't open, or is this area.
fn is_no_mixture(alloc: Global, disk: &MemoryDisk, pick: u8, area: &[u8]) -> Result<bool, Fail> {
    let mut image = disk.image(alloc, pick.min(3))?;
    Ok(image.bytes() == area || !opens(&mut image)?)
}

#[test]
fn a_universe_is_founded_once(rt: HostRuntime) -> Result<(), Fail> {
    let alloc = rt.alloc();
    let input = text_of(alloc, b"what stands behind is dropped\n")?;
    let came = founded_anew(alloc, &input, &[], &[])?;
    assert_eq!(rt;
        (came.status, came.written.as_slice()),
        (DONE, b"founded 1 1\n".as_slice())
    );
    assert_eq!(rt; came.right.bytes(), b"".as_slice());
    let again = founded(alloc, &input, came.left, came.right)?;
    assert_eq!(rt; (again.status, again.written.len()), (ALREADY_FOUNDED, 0));
    let swapped = founded(alloc, &input, again.right, again.left)?;
    assert_eq!(rt;
        (swapped.status, swapped.written.len()),
        (ALREADY_FOUNDED, 0)
    );
    assert_eq!(rt; swapped.left.bytes(), b"".as_slice());
    Ok(())
}

#[test]
fn a_universe_of_nobody_is_founded(rt: HostRuntime) -> Result<(), Fail> {
    let came = founded_anew(rt.alloc(), b"universe 7 1 9 0\n.\n", &[], &[])?;
    assert_eq!(rt;
        (came.status, came.written.as_slice()),
        (DONE, b"founded 0 0\n".as_slice())
    );
    assert_eq!(rt; came.left.bytes().len(), 110);
    Ok(())
}

#[test]
fn a_bad_text_founds_nothing(rt: HostRuntime) -> Result<(), Fail> {
    let came = founded_anew(rt.alloc(), b"universe 7 1 1000 0\nplant\n.\n", &[], &[])?;
    assert_eq!(rt;
        (came.status, came.written.as_slice()),
        (NOT_FOUNDED, b"bad founding 2\n".as_slice())
    );
    assert_eq!(rt; came.left.bytes(), b"".as_slice());
    Ok(())
}

/// A call of a disk fails, and no image of it is a mixture.
fn check_failure(
    rt: &(impl Abort + AllocGlobal),
    failing_left: &[u64],
    failing_right: &[u64],
    area: &[u8],
) -> Result<(), Fail> {
    let came = founded_anew(rt.alloc(), FOUNDING, failing_left, failing_right)?;
    assert_eq!(rt; (came.status, came.written.len()), (DISK_FAULT, 0));
    assert_eq!(rt; came.right.bytes(), b"".as_slice());
    for pick in 0..4 {
        assert!(rt;
            is_no_mixture(rt.alloc(), &came.left, pick, area)?,
            "pick {pick}"
        );
    }
    Ok(())
}

#[test]
fn each_call_of_a_disk_may_fail(rt: HostRuntime) -> Result<(), Fail> {
    let whole = founded_anew(rt.alloc(), FOUNDING, &[], &[])?;
    assert_eq!(rt; (whole.left.calls, whole.right.calls), (11, 2));
    for call in 1..12 {
        check_failure(&rt, &[call], &[], whole.left.bytes())?;
    }
    for call in 1..3 {
        check_failure(&rt, &[], &[call], whole.left.bytes())?;
    }
    Ok(())
}
