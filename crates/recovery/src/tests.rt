// What no clause says: areas on disks in memory, laid and torn.
use crate::{Head, RebaseFault, lay, look, rebase};
use base_bytes::Base;
use disk_port::{Disk, MemoryDisk};
use fleet_rec::Fleets;
use ports::Failed;
use std::alloc::{AllocError, Global};
use std::process::Abort;
use std::test::Fail;

// The SHA-256 of the mark, generation 3, size 4 and `base`.
const DIGEST: [u8; 32] = [
    123, 39, 231, 108, 139, 144, 202, 3, 119, 91, 63, 148, 189, 242, 117, 42, 226, 29, 139, 45,
    125, 198, 137, 102, 193, 146, 172, 22, 229, 16, 160, 220,
];

// That of the area of generation 1 with the smallest base.
const SMALLEST: [u8; 32] = [
    142, 145, 189, 239, 79, 248, 185, 67, 217, 77, 239, 96, 27, 219, 194, 170, 198, 25, 49, 210,
    251, 119, 122, 151, 231, 203, 224, 178, 9, 119, 72, 112,
];

// What stands behind the gate of an area of generation 3 with these bytes as its base.
fn behind(alloc: Global, base: &[u8]) -> Result<Vec<u8>, AllocError> {
    let mut bytes = Vec::new(alloc);
    bytes.extend_from_slice(&Head::of(3, base).bytes())?;
    bytes.extend_from_slice(base)?;
    bytes.push(0)?;
    Ok(bytes)
}

fn whole(alloc: Global, behind: &[u8]) -> Result<Vec<u8>, AllocError> {
    let mut bytes = Vec::new(alloc);
    bytes.push(1)?;
    bytes.extend_from_slice(behind)?;
    Ok(bytes)
}

fn laid(disk: &mut MemoryDisk, behind: &[u8]) -> Result<(), Failed> {
    lay(disk, behind)
}

// Writes over bytes that stand there.
fn write(disk: &mut MemoryDisk, at: u64, from: &[u8]) -> Result<(), Failed> {
    if at > disk.len()? {
        return Err(Failed);
    }
    disk.write_at(at, from)
}

fn opens(disk: &mut MemoryDisk) -> Result<bool, Failed> {
    look(disk)
}

#[test]
fn a_head_has_the_digest_of_what_stands_before_it_and_of_the_base(
    rt: HostRuntime,
) -> Result<(), Fail> {
    let head = Head::of(3, b"base");
    assert_eq!(rt; (head.generation, head.size), (3, 4));
    assert_eq!(rt; head.digest, DIGEST);
    let bytes = head.bytes();
    let sized = b"OGAREA01\0\0\0\0\0\0\0\x03\0\0\0\0\0\0\0\x04";
    assert_eq!(rt; bytes.len(), 56);
    assert!(rt; bytes.as_slice().starts_with(sized));
    assert!(rt; bytes.as_slice().ends_with(&DIGEST));
    Ok(())
}

// An area is laid on a disk with these bytes.
fn check_laid(rt: &(impl Abort + AllocGlobal), before: &[u8], behind: &[u8]) -> Result<(), Fail> {
    let whole = whole(rt.alloc(), behind)?;
    let mut disk = MemoryDisk::new(rt.alloc(), before, &[])?;
    laid(&mut disk, behind)?;
    for pick in 0..4 {
        assert_eq!(rt; disk.image(rt.alloc(), pick)?.bytes(), whole.as_slice());
    }
    assert!(rt; opens(&mut disk)?);
    Ok(())
}

#[test]
fn an_area_is_laid_on_any_disk(rt: HostRuntime) -> Result<(), Fail> {
    let behind = behind(rt.alloc(), b"base")?;
    for before in [b"".as_slice(), b"\0", b"\x01", b"some other file"] {
        check_laid(&rt, before, &behind)?;
    }
    let old = whole(rt.alloc(), &behind)?;
    check_laid(&rt, &old, &behind)
}

#[test]
fn an_area_is_open_from_its_gate_to_that_of_its_first_batch(rt: HostRuntime) -> Result<(), Fail> {
    let behind = behind(rt.alloc(), b"")?;
    let whole = whole(rt.alloc(), &behind)?;
    assert_eq!(rt; whole.len(), 58);
    for (count, gate, is_whole) in [
        (58, 1, true),
        (57, 1, false),
        (58, 0, false),
        (58, 2, false),
    ] {
        let mut disk = MemoryDisk::new(rt.alloc(), &whole[..count], &[])?;
        write(&mut disk, 0, &[gate])?;
        assert_eq!(rt; opens(&mut disk)?, is_whole, "{count} bytes, gate {gate}");
    }
    for place in 1..9 {
        let mut disk = MemoryDisk::new(rt.alloc(), &whole, &[])?;
        write(&mut disk, place, b"X")?;
        assert!(rt; !opens(&mut disk)?);
    }
    Ok(())
}

// Whether an image is one from before, isn't open, or is the whole area.
fn is_no_mixture(
    alloc: Global,
    disk: &MemoryDisk,
    pick: u8,
    before: &[u8],
    whole: &[u8],
) -> Result<bool, Fail> {
    let mut image = disk.image(alloc, pick.min(3))?;
    Ok(image.bytes() == before || image.bytes() == whole || !opens(&mut image)?)
}

// Each of the nine calls by which an area is laid fails in turn.
fn check_failures(
    rt: &(impl Abort + AllocGlobal),
    before: &[u8],
    behind: &[u8],
) -> Result<(), Fail> {
    let new = whole(rt.alloc(), behind)?;
    for call in 1..=9 {
        let failing = [call];
        let mut disk = MemoryDisk::new(rt.alloc(), before, &failing)?;
        assert!(rt; laid(&mut disk, behind).is_err(), "call {call}");
        for pick in 0..4 {
            assert!(rt;
                is_no_mixture(rt.alloc(), &disk, pick, before, &new)?,
                "call {call}, pick {pick}"
            );
        }
    }
    Ok(())
}

#[test]
fn no_call_that_fails_leaves_a_mixture(rt: HostRuntime) -> Result<(), Fail> {
    let newer = behind(rt.alloc(), b"a newer base")?;
    check_failures(&rt, b"", &newer)?;
    let older = behind(rt.alloc(), b"base")?;
    let old = whole(rt.alloc(), &older)?;
    check_failures(&rt, &old, &newer)
}

// A base of nobody at second 0, with seed 7, speed 1 and a history of at most 9 requests.
fn smallest(alloc: Global) -> Base {
    Base {
        seed: 7,
        speed: 1,
        capacity: 9,
        moment: 0,
        number: 0,
        accounts: Vec::new(alloc),
        planets: Vec::new(alloc),
        fleets: Fleets::new(alloc),
    }
}

fn rebased(alloc: Global, base: &Base, disk: &mut MemoryDisk) -> Result<(), RebaseFault> {
    rebase(alloc, base, 1, disk)
}

#[test]
fn the_smallest_base_has_this_area(rt: HostRuntime) -> Result<(), Fail> {
    let base = smallest(rt.alloc());
    let mut disk = MemoryDisk::new(rt.alloc(), b"", &[])?;
    assert_eq!(rt; rebased(rt.alloc(), &base, &mut disk), Ok(()));
    let bytes = disk.bytes();
    assert_eq!(rt; bytes.len(), 110);
    assert_eq!(rt;
        bytes.get(..25),
        Some(b"\x01OGAREA01\0\0\0\0\0\0\0\x01\0\0\0\0\0\0\0\x34".as_slice())
    );
    assert_eq!(rt; bytes.get(25..57), Some(SMALLEST.as_slice()));
    assert_eq!(rt;
        bytes.get(57..73),
        Some(b"OGBASE01\0\0\0\0\0\0\0\x07".as_slice())
    );
    assert_eq!(rt; bytes.last(), Some(&0));
    Ok(())
}

#[test]
fn a_disk_that_fails_is_told(rt: HostRuntime) -> Result<(), Fail> {
    let base = smallest(rt.alloc());
    for call in 1..=9 {
        let failing = [call];
        let mut disk = MemoryDisk::new(rt.alloc(), b"", &failing)?;
        assert_eq!(rt;
            rebased(rt.alloc(), &base, &mut disk),
            Err(RebaseFault::DeviceFault)
        );
        assert_eq!(rt; disk.faults, 1);
    }
    Ok(())
}
