// What no clause says: the disks, run.
use crate::{
    Disk, Disks, FileDisk, MemoryDisk, OpenRefused, Served, cuts_tear, moments_chain, pairs_chain,
    writes_hold, writes_tear,
};
use ports::Failed;
use std::process::Abort;
use std::test::Fail;
use std::{format, fs};

// Writes from this place on if it lies within the disk, and fails else.
fn write<D: Disk>(disk: &mut D, at: u64, from: &[u8]) -> Result<(), Failed> {
    if at > disk.len()? {
        return Err(Failed);
    }
    disk.write_at(at, from)
}

fn len<D: Disk>(disk: &mut D) -> Result<u64, Failed> {
    disk.len()
}

fn cut<D: Disk>(disk: &mut D, len: u64) -> Result<(), Failed> {
    disk.cut(len)
}

fn sync<D: Disk>(disk: &mut D) -> Result<(), Failed> {
    disk.sync()
}

fn read<D: Disk>(disk: &mut D, at: u64, into: &mut [u8]) -> Result<usize, Failed> {
    disk.read_at(at, into)
}

// Each image that a crash now may leave.
fn check_images<R: Abort + AllocGlobal>(
    rt: &R,
    disk: &MemoryDisk,
    wants: [&[u8]; 4],
) -> Result<(), Fail> {
    for (pick, want) in wants.iter().enumerate() {
        let image = disk.image(rt.alloc(), pick as u8)?;
        assert_eq!(rt; image.bytes(), *want, "pick {pick}");
    }
    Ok(())
}

#[test]
fn a_disk_reads_what_was_written_and_cut(rt: HostRuntime) -> Result<(), Fail> {
    let mut disk = MemoryDisk::new(rt.alloc(), b"abcdef", &[])?;
    let mut room = [9; 8];
    write(&mut disk, 4, b"XYZ")?;
    cut(&mut disk, 6)?;
    cut(&mut disk, 9)?;
    sync(&mut disk)?;
    assert_eq!(rt; len(&mut disk)?, 6);
    for (at, want) in [(0, "abcdXY"), (5, "Y"), (6, ""), (7, "")] {
        let count = read(&mut disk, at, &mut room)?;
        assert_eq!(rt; room.get(..count), Some(want.as_bytes()));
    }
    write(&mut disk, 6, b"12345")?;
    assert_eq!(rt; read(&mut disk, 2, &mut room), Ok(8));
    assert_eq!(rt; room.as_slice(), b"cdXY1234".as_slice());
    assert_eq!(rt; disk.faults, 0);
    Ok(())
}

#[test]
fn a_disk_fails_at_the_listed_calls_and_goes_on(rt: HostRuntime) -> Result<(), Fail> {
    let mut disk = MemoryDisk::new(rt.alloc(), b"ab", &[1, 2, 4, 5, 7])?;
    let mut room = [9; 8];
    assert_eq!(rt; len(&mut disk), Err(Failed));
    assert_eq!(rt; read(&mut disk, 0, &mut room), Err(Failed));
    assert_eq!(rt; len(&mut disk), Ok(2));
    assert_eq!(rt; cut(&mut disk, 0), Err(Failed));
    assert_eq!(rt; sync(&mut disk), Err(Failed));
    assert_eq!(rt; write(&mut disk, 0, b"x"), Err(Failed));
    assert_eq!(rt; disk.bytes(), b"ab".as_slice());
    assert_eq!(rt; write(&mut disk, 1, b"xy"), Ok(()));
    assert_eq!(rt; disk.bytes(), b"axy".as_slice());
    assert_eq!(rt; disk.calls, 9);
    assert_eq!(rt; disk.faults, 5);
    Ok(())
}

#[test]
fn a_crash_leaves_four_images(rt: HostRuntime) -> Result<(), Fail> {
    let mut disk = MemoryDisk::new(rt.alloc(), b"abcdef", &[6, 8])?;
    check_images(&rt, &disk, [b"abcdef"; 4])?;
    write(&mut disk, 4, b"XYZ")?;
    check_images(
        &rt,
        &disk,
        [b"abcdef", b"abcdXYZ", b"abcd\0\0\0", b"abcd\x01\x01\x01"],
    )?;
    cut(&mut disk, 5)?;
    check_images(&rt, &disk, [b"abcdef", b"abcdX", b"abcd\0", b"abcd\x01"])?;
    sync(&mut disk)?;
    check_images(&rt, &disk, [b"abcdX"; 4])?;
    // A write that fails may have changed its range, and a sync that fails settles nothing.
    assert_eq!(rt; write(&mut disk, 1, b"uv"), Err(Failed));
    check_images(&rt, &disk, [b"abcdX", b"abcdX", b"a\0\0dX", b"a\x01\x01dX"])?;
    cut(&mut disk, 4)?;
    assert_eq!(rt; sync(&mut disk), Err(Failed));
    check_images(&rt, &disk, [b"abcdX", b"abcd", b"a\0\0d", b"a\x01\x01d"])?;
    sync(&mut disk)?;
    check_images(&rt, &disk, [b"abcd"; 4])
}

#[test]
fn a_file_is_created_written_synced_cut_and_read_again(rt: HostRuntime) -> Result<(), Fail> {
    let mut disk = FileDisk::new(&rt, "left.area");
    assert_eq!(rt; len(&mut disk)?, 0);
    write(&mut disk, 0, b"abcdef")?;
    write(&mut disk, 4, b"XYZ")?;
    sync(&mut disk)?;
    cut(&mut disk, 6)?;
    cut(&mut disk, 9)?;
    sync(&mut disk)?;
    assert_eq!(rt; disk.fault_count(), 0);
    assert!(rt; disk.last_error().is_none());
    let stored = fs::read(&rt, "left.area")?;
    assert_eq!(rt; stored.as_slice(), b"abcdXY".as_slice());
    let mut room = [9; 8];
    let mut again = FileDisk::new(&rt, "left.area");
    assert_eq!(rt; len(&mut again)?, 6);
    for (at, want) in [(0, "abcdXY"), (5, "Y"), (6, ""), (7, "")] {
        let count = read(&mut again, at, &mut room)?;
        assert_eq!(rt; room.get(..count), Some(want.as_bytes()));
    }
    Ok(())
}

#[test]
fn a_file_in_no_folder_fails_and_says_why(rt: HostRuntime) -> Result<(), Fail> {
    let mut disk = FileDisk::new(&rt, "none/left.area");
    assert_eq!(rt; len(&mut disk), Err(Failed));
    assert_eq!(rt; sync(&mut disk), Err(Failed));
    assert_eq!(rt; disk.fault_count(), 2);
    let text = match disk.last_error() {
        Some(error) => format!(in rt.alloc(); "{error}")?,
        None => format!(in rt.alloc(); "")?,
    };
    assert!(rt;
        text.as_str().starts_with("No such file or directory"),
        "{text}"
    );
    Ok(())
}

// The system can't sync this device.
#[test]
fn after_a_sync_that_failed_each_later_one_fails(rt: HostRuntime) -> Result<(), Fail> {
    let mut disk = FileDisk::new(&rt, "/dev/null");
    assert_eq!(rt; len(&mut disk)?, 0);
    assert_eq!(rt; sync(&mut disk), Err(Failed));
    assert_eq!(rt; sync(&mut disk), Err(Failed));
    assert_eq!(rt; disk.fault_count(), 2);
    let text = match disk.last_error() {
        Some(error) => format!(in rt.alloc(); "{error}")?,
        None => format!(in rt.alloc(); "")?,
    };
    assert_eq!(rt; text.as_str(), "an earlier sync failed");
    Ok(())
}

fn is_shared<T: Send + Sync>(_value: &T) -> bool {
    true
}

#[test]
fn disks_can_be_handed_to_threads(rt: HostRuntime) -> Result<(), Fail> {
    let disk = MemoryDisk::new(rt.alloc(), b"", &[])?;
    assert!(rt; is_shared(&disk));
    let file = FileDisk::new(&rt, "right.area");
    assert!(rt; is_shared(&file));
    writes_tear();
    cuts_tear();
    writes_hold();
    moments_chain::<MemoryDisk>();
    pairs_chain::<MemoryDisk>();
    Ok(())
}

#[test]
fn two_disks_come_back_as_they_were(rt: HostRuntime) {
    let disks = Disks { left: 1, right: 2 };
    let refused = OpenRefused {
        left: disks.left,
        right: disks.right,
    };
    let served = Served {
        status: 7,
        left: refused.left,
        right: refused.right,
    };
    assert_eq!(rt; (served.status, served.left, served.right), (7, 1, 2));
}
