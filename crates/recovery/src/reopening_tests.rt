// What no clause says: areas on disks in memory, opened.
use crate::head::{Head, digest};
use crate::{OpenFault, RebaseFault, rebase, reopen};
use base_bytes::Base;
use disk_port::MemoryDisk;
use fleet_rec::Fleets;
use std::alloc::{AllocError, Global};
use std::test::Fail;

// The smallest base: seed 7, speed 1, and a history of at most 9 requests.
const BASE: [u8; 52] =
    *b"OGBASE01\0\0\0\0\0\0\0\x07\0\0\0\x01\0\0\0\x09\0\0\0\0\0\0\0\0\0\0\0\0\0\0\0\0\0\0\0\0\0\0\0\0\0\0\0\0";

// What was found, with the seed in place of the base.
#[derive(Clone, Copy, Debug, PartialEq, Eq)]
struct Outline {
    right: bool,
    generation: u64,
    seed: u64,
    end: u64,
    short: bool,
}

const LEFT: Outline = Outline {
    right: false,
    generation: 1,
    seed: 7,
    end: 109,
    short: false,
};

fn opened<'a>(
    alloc: Global,
    left: &mut MemoryDisk<'a>,
    right: &mut MemoryDisk<'a>,
) -> Result<Outline, OpenFault> {
    let found = reopen(alloc, left, right)?;
    Ok(Outline {
        right: found.right,
        generation: found.generation,
        seed: found.base.seed,
        end: found.end,
        short: found.short,
    })
}

// How two areas of these bytes open, whose disks fail at these calls.
fn failing<'a>(
    alloc: Global,
    (left, on_left): (&[u8], &'a [u64]),
    (right, on_right): (&[u8], &'a [u64]),
) -> Result<Result<Outline, OpenFault>, AllocError> {
    let mut left = MemoryDisk::new(alloc, left, on_left)?;
    let mut right = MemoryDisk::new(alloc, right, on_right)?;
    Ok(opened(alloc, &mut left, &mut right))
}

fn opening(
    alloc: Global,
    left: &[u8],
    right: &[u8],
) -> Result<Result<Outline, OpenFault>, AllocError> {
    failing(alloc, (left, &[]), (right, &[]))
}

// An area with this head, these bytes behind it, and this gate or none.
fn area(alloc: Global, head: &Head, base: &[u8], gate: &[u8]) -> Result<Vec<u8>, AllocError> {
    let mut bytes = Vec::new(alloc);
    bytes.push(1)?;
    bytes.extend_from_slice(&head.bytes())?;
    bytes.extend_from_slice(base)?;
    bytes.extend_from_slice(gate)?;
    Ok(bytes)
}

fn rebased(alloc: Global, base: &Base, disk: &mut MemoryDisk) -> Result<(), RebaseFault> {
    rebase(alloc, base, 1, disk)
}

#[test]
fn an_area_that_was_laid_opens_on_either_side(rt: HostRuntime) -> Result<(), Fail> {
    let base = Base {
        seed: 7,
        speed: 1,
        capacity: 9,
        moment: 0,
        number: 0,
        accounts: Vec::new(rt.alloc()),
        planets: Vec::new(rt.alloc()),
        fleets: Fleets::new(rt.alloc()),
    };
    let mut laid = MemoryDisk::new(rt.alloc(), b"", &[])?;
    let mut empty = MemoryDisk::new(rt.alloc(), b"", &[])?;
    assert_eq!(rt; rebased(rt.alloc(), &base, &mut laid), Ok(()));
    assert_eq!(rt; opened(rt.alloc(), &mut laid, &mut empty), Ok(LEFT));
    let right = Outline {
        right: true,
        ..LEFT
    };
    assert_eq!(rt; opened(rt.alloc(), &mut empty, &mut laid), Ok(right));
    assert_eq!(rt; opening(rt.alloc(), b"", b"")?, Err(OpenFault::NotFounded));
    Ok(())
}

#[test]
fn the_greater_generation_is_chosen_and_the_left_area_at_a_tie(
    rt: HostRuntime,
) -> Result<(), Fail> {
    let one = area(rt.alloc(), &Head::of(1, &BASE), &BASE, b"\0")?;
    let two = area(rt.alloc(), &Head::of(2, &BASE), &BASE, b"\0")?;
    let newer = Outline {
        generation: 2,
        ..LEFT
    };
    let on_right = Outline {
        right: true,
        ..newer
    };
    assert_eq!(rt; opening(rt.alloc(), &one, &one)?, Ok(LEFT));
    assert_eq!(rt; opening(rt.alloc(), &two, &one)?, Ok(newer));
    assert_eq!(rt; opening(rt.alloc(), &one, &two)?, Ok(on_right));
    Ok(())
}

#[test]
fn a_bit_of_the_base_that_was_changed_is_damage(rt: HostRuntime) -> Result<(), Fail> {
    let mut base = BASE;
    base[51] = 1;
    let head = Head::of(1, &BASE);
    let bytes = area(rt.alloc(), &head, &base, b"\0")?;
    let damaged = OpenFault::Damaged {
        kept: head.digest,
        computed: digest(1, 52, &base),
    };
    assert_eq!(rt; opening(rt.alloc(), &bytes, b"")?, Err(damaged));
    Ok(())
}

// Whether the smallest area may open so if a bit of the byte at a place was changed: without its gate and its mark it isn't open, its
// digest tells of the head and of the base, and the last byte is the gate of a batch.
fn tells_the_change(place: usize, bit: u32, opened: &Result<Outline, OpenFault>) -> bool {
    match opened {
        Err(OpenFault::NotFounded) => place < 9,
        Err(OpenFault::Damaged { .. }) => 9 <= place && place < 109,
        Err(OpenFault::BadEntry { at }) => place == 109 && bit == 0 && *at == 109,
        Ok(found) => place == 109 && bit > 0 && *found == LEFT,
        _ => false,
    }
}

fn opening_changed(
    alloc: Global,
    area: &[u8],
    place: usize,
    change: u8,
) -> Result<Result<Outline, OpenFault>, AllocError> {
    let mut bytes = Vec::from_slice(alloc, area)?;
    if let Some(byte) = bytes.get_mut(place) {
        *byte ^= change;
    }
    opening(alloc, &bytes, b"")
}

#[test]
fn no_changed_bit_opens_another_universe(rt: HostRuntime) -> Result<(), Fail> {
    let area = area(rt.alloc(), &Head::of(1, &BASE), &BASE, b"\0")?;
    assert_eq!(rt; area.len(), 110);
    'places: for place in 0..110 {
        'bits: for bit in 0..8 {
            let opened = opening_changed(rt.alloc(), &area, place, 1 << bit)?;
            assert!(rt;
                tells_the_change(place, bit, &opened),
                "bit {bit} of byte {place}"
            );
        }
    }
    Ok(())
}

#[test]
fn an_area_that_ends_within_its_base_has_none(rt: HostRuntime) -> Result<(), Fail> {
    let ended = area(rt.alloc(), &Head::of(1, &BASE), &BASE, b"")?;
    let short = Outline {
        short: true,
        ..LEFT
    };
    assert_eq!(rt; opening(rt.alloc(), &ended, b"")?, Ok(short));
    let size = u64::MAX;
    let head = Head {
        generation: 1,
        size,
        digest: digest(1, size, &BASE),
    };
    let bytes = area(rt.alloc(), &head, &BASE, b"")?;
    let early = opening(rt.alloc(), &bytes, b"")?;
    assert_eq!(rt; early, Err(OpenFault::BadBase));
    Ok(())
}

#[test]
fn a_batch_is_told_with_its_place(rt: HostRuntime) -> Result<(), Fail> {
    let bytes = area(rt.alloc(), &Head::of(1, &BASE), &BASE, b"\x01")?;
    let batch = opening(rt.alloc(), &bytes, b"")?;
    assert_eq!(rt; batch, Err(OpenFault::BadEntry { at: 109 }));
    Ok(())
}

#[test]
fn each_call_that_fails_is_told(rt: HostRuntime) -> Result<(), Fail> {
    let bytes = area(rt.alloc(), &Head::of(1, &BASE), &BASE, b"\0")?;
    for call in 1..=5 {
        let told = failing(rt.alloc(), (&bytes, &[call]), (b"", &[]))?;
        assert_eq!(rt; told, Err(OpenFault::DeviceFault), "call {call}");
    }
    for call in 1..=2 {
        let told = failing(rt.alloc(), (&bytes, &[]), (b"", &[call]))?;
        assert_eq!(rt; told, Err(OpenFault::DeviceFault), "call {call}");
    }
    Ok(())
}
