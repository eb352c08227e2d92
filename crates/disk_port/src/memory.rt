// A disk in memory, which keeps what a crash may leave.
ghost use Rattle.std.specs.Prelude.{◌≡◌, ◌≤◌, ◌+◌, ◌↔◌, ◌⊎◌, ℕ, ◌++◌, [], ◌∷◌, length, take, drop, replicate, Contains, IfOk, IsErr, OnOk, OnErr, IsTrue, Vec};
ghost use Rattle.std.specs.declared.alloc.Global.{Global};
ghost use Rattle.std.specs.Io.{ReadsAtMost};
ghost use Rattle.ports.specs.Causes.{HasCause};
ghost use Rattle.ports.specs.Counts.{next_count, faults_after};
ghost use Rattle.disk_port.specs.Contents.{written, given, Torn, Shortened};
ghost use Rattle.disk_port.specs.Disk.{Rests, Tears, Settles, Elapses};
ghost use Rattle.disk_port.specs.History.{marked_by, marked_after, Fits};
ghost use Rattle.disk_port.specs.Story.{Told};

use crate::change::Change;
use crate::disk::Disk;
use ports::Failed;
use std::alloc::{AllocError, Global};

/// A disk in memory, for tests. It fails at the calls that it is told to fail at and where memory is refused, and makes each
/// image that a crash may leave.
#[derive(Drop)]
pub struct MemoryDisk<'a> {
    alloc: Global,
    // what it held at first
    first: Vec<u8>,
    // what was done to it since, oldest first
    changes: Vec<Change>,
    // what a read gives
    bytes: Vec<u8>,
    // what a read gave at the last sync, and how many changes there were with that sync
    kept: Vec<u8>,
    synced: usize,
    /// The numbers of the calls that fail, counted from 1.
    pub failing: &'a [u64],
    /// How many calls were made, up to 2^64 - 1.
    pub calls: u64,
    /// How many calls have failed, up to 2^64 - 1.
    pub faults: u64,
    ghost fits: { Fits first.items changes.items bytes.items kept.items synced },
}

impl<'a> MemoryDisk<'a> {
    ghost use Rattle.disk_port.specs.Memory.{memory_story, picked, IsFresh};

    /// Makes a disk that holds these bytes, all of them after a crash too, and fails at the calls with these numbers, counted
    /// from 1.
    pub fn new(
        alloc: Global,
        bytes: &[u8],
        failing: &'a [u64],
    ) -> Result<MemoryDisk<'a>, AllocError>
        ensures fresh { IfOk result (λ disk. IsFresh disk bytes.now) }
        ensures failing { IfOk result (λ disk. disk.failing.now ≡ failing.now) }
    {
        let first = Vec::from_slice(alloc, bytes)?;
        let read = Vec::from_slice(alloc, bytes)?;
        let kept = Vec::from_slice(alloc, bytes)?;
        Ok(MemoryDisk {
            alloc,
            first,
            changes: Vec::new(alloc),
            bytes: read,
            kept,
            synced: 0,
            failing,
            calls: 0,
            faults: 0,
        })
    }

    /// What a read gives.
    pub fn bytes(&self) -> &[u8]
        ensures { result.now ≡ memory_story.seen self.now }
    {
        self.bytes.as_slice()
    }

    /// A disk that holds one of the images that a crash now may leave, and that never fails but for memory: 0 is as after the
    /// last sync, 1 as a read gives, and 2 and 3 are as a read gives, but with each byte that was written since the last sync,
    /// also by a write that failed, set to 0 and to 1.
    pub fn image(&self, alloc: Global, pick: u8) -> Result<MemoryDisk<'static>, AllocError>
        requires { pick ≤ 3 }
        ensures picked { IfOk result (λ disk. IsFresh disk (picked self.now pick)) }
        ensures left { memory_story.leaves self.now (picked self.now pick) }
        ensures unfailing { IfOk result (λ disk. disk.failing.now ≡ []) }
    {
        match pick {
            0 => MemoryDisk::new(alloc, &self.kept, &[]),
            1 => MemoryDisk::new(alloc, &self.bytes, &[]),
            _ => {
                let marked = marked(alloc, &self.kept, &self.changes[self.synced..], pick - 2)?;
                MemoryDisk::new(alloc, &marked, &[])
            }
        }
    }
}

impl Disk for MemoryDisk<'_> {
    ghost use Rattle.disk_port.specs.Memory.{memory_story, memory_is_lawful};

    ghost story = { memory_story };

    ghost calls = { λ disk. disk.calls };

    ghost faults = { λ disk. disk.faults };

    ghost laws = { memory_is_lawful };

    fn len(&mut self) -> Result<u64, Failed>
        ensures length { Told memory_story self.old self.new (IfOk result (λ n. n ≡ length (memory_story.seen self.old))) }
        ensures images { Told memory_story self.old self.new (Rests memory_story self.old self.new) }
        ensures time { Told memory_story self.old self.new (Elapses memory_story self.old self.new) }
        ensures counted { self.new.calls ≡ next_count self.old.calls }
        ensures cause { HasCause self.old.faults self.new.faults result }

        // It fails at the listed calls, and at no other.
        ensures fails { IsErr result ↔ Contains self.old.failing.now (next_count self.old.calls) }
        ensures faults { self.new.faults ≡ faults_after self.old.faults result }
        ensures failing { self.new.failing.now ≡ self.old.failing.now }
    {
        if next_fails(self.failing, &mut self.calls) {
            self.faults = self.faults.saturating_add(1);
            return Err(Failed);
        }
        Ok(self.bytes.len() as u64)
    }

    fn read_at(&mut self, at: u64, into: &mut [u8]) -> Result<usize, Failed>
        ensures bound { ReadsAtMost result into.new }
        ensures count { Told memory_story self.old self.new (IfOk result (λ n.
            n ≡ given (memory_story.seen self.old) at (length into.old))) }
        ensures bytes { Told memory_story self.old self.new (IfOk result (λ n.
            into.new ≡ take n (drop at (memory_story.seen self.old)) ++ drop n into.old)) }
        ensures images { Told memory_story self.old self.new (Rests memory_story self.old self.new) }
        ensures time { Told memory_story self.old self.new (Elapses memory_story self.old self.new) }
        ensures counted { self.new.calls ≡ next_count self.old.calls }
        ensures cause { HasCause self.old.faults self.new.faults result }

        // It fails at the listed calls, and at no other.
        ensures fails { IsErr result ↔ Contains self.old.failing.now (next_count self.old.calls) }
        ensures faults { self.new.faults ≡ faults_after self.old.faults result }
        ensures failing { self.new.failing.now ≡ self.old.failing.now }
    {
        if next_fails(self.failing, &mut self.calls) {
            self.faults = self.faults.saturating_add(1);
            return Err(Failed);
        }
        Ok(get(&self.bytes, at as usize, into))
    }

    fn write_at(&mut self, at: u64, from: &[u8]) -> Result<(), Failed>
        requires { memory_story.tells self.old → at ≤ length (memory_story.seen self.old) }
        ensures written { Told memory_story self.old self.new (OnOk result (
            memory_story.seen self.new ≡ written (memory_story.seen self.old) at from.now)) }
        ensures images { Told memory_story self.old self.new (Tears memory_story (Torn at (length from.now)) self.old self.new result) }
        ensures time { Told memory_story self.old self.new (Elapses memory_story self.old self.new) }
        ensures counted { self.new.calls ≡ next_count self.old.calls }
        ensures cause { HasCause self.old.faults self.new.faults result }

        // It fails at the listed calls, and else only if memory is refused. What a read gives then stays.
        ensures fails { Contains self.old.failing.now (next_count self.old.calls) → IsErr result }
        ensures stays { OnErr result (memory_story.seen self.new ≡ memory_story.seen self.old) }
        ensures faults { self.new.faults ≡ faults_after self.old.faults result }
        ensures failing { self.new.failing.now ≡ self.old.failing.now }
    {
        if next_fails(self.failing, &mut self.calls) {
            let count = from.len();
            note(&mut self.changes, Change::WroteNothing { at, count });
            self.faults = self.faults.saturating_add(1);
            return Err(Failed);
        }
        if write_now(self.alloc, &mut self.changes, &mut self.bytes, at, from).is_err() {
            self.faults = self.faults.saturating_add(1);
            return Err(Failed);
        }
        Ok(())
    }

    fn cut(&mut self, len: u64) -> Result<(), Failed>
        ensures cut { Told memory_story self.old self.new (OnOk result (
            memory_story.seen self.new ≡ take len (memory_story.seen self.old))) }
        ensures images { Told memory_story self.old self.new (Tears memory_story (Shortened len) self.old self.new result) }
        ensures time { Told memory_story self.old self.new (Elapses memory_story self.old self.new) }
        ensures counted { self.new.calls ≡ next_count self.old.calls }
        ensures cause { HasCause self.old.faults self.new.faults result }

        // It fails at the listed calls, and else only if memory is refused. What a read gives then stays.
        ensures fails { Contains self.old.failing.now (next_count self.old.calls) → IsErr result }
        ensures stays { OnErr result (memory_story.seen self.new ≡ memory_story.seen self.old) }
        ensures faults { self.new.faults ≡ faults_after self.old.faults result }
        ensures failing { self.new.failing.now ≡ self.old.failing.now }
    {
        if next_fails(self.failing, &mut self.calls) {
            note(&mut self.changes, Change::CutNothing { len });
            self.faults = self.faults.saturating_add(1);
            return Err(Failed);
        }
        if self.changes.push(Change::Cut { len }).is_err() {
            self.faults = self.faults.saturating_add(1);
            return Err(Failed);
        }
        self.bytes.truncate(len as usize);
        Ok(())
    }

    fn sync(&mut self) -> Result<(), Failed>
        ensures images { Told memory_story self.old self.new (Settles memory_story self.old self.new result) }
        ensures time { Told memory_story self.old self.new (Elapses memory_story self.old self.new) }
        ensures counted { self.new.calls ≡ next_count self.old.calls }
        ensures cause { HasCause self.old.faults self.new.faults result }

        // It fails at the listed calls, and else only if memory is refused.
        ensures fails { Contains self.old.failing.now (next_count self.old.calls) → IsErr result }
        ensures faults { self.new.faults ≡ faults_after self.old.faults result }
        ensures failing { self.new.failing.now ≡ self.old.failing.now }
    {
        if next_fails(self.failing, &mut self.calls) {
            self.faults = self.faults.saturating_add(1);
            return Err(Failed);
        }
        if sync_now(self.alloc, &mut self.changes, &self.bytes, &mut self.kept).is_err() {
            self.faults = self.faults.saturating_add(1);
            return Err(Failed);
        }
        self.synced = self.changes.len();
        Ok(())
    }
}

// Whether the next call is one of those that fail. It is counted.
fn next_fails(failing: &[u64], calls: &mut u64) -> bool
    ensures fails { IsTrue result ↔ Contains failing.now (next_count calls.old) }
    ensures counted { calls.new ≡ next_count calls.old }
{
    *calls = calls.saturating_add(1);
    failing.contains(calls)
}

// Notes a change, if there is memory for it.
fn note(changes: &mut Vec<Change>, change: Change)
    ensures { (changes.new.items ≡ changes.old.items ++ change ∷ []) ⊎ (changes.new.items ≡ changes.old.items) }
{
    let _ = changes.push(change);
}

// Writes over what is there and past the end.
fn put(bytes: &mut Vec<u8>, at: usize, from: &[u8]) -> Result<(), AllocError>
    ensures ok { OnOk result (bytes.new.items ≡ written bytes.old.items at from.now) }
    ensures err { OnErr result (bytes.new.items ≡ bytes.old.items) }
{
    let at = at.min(bytes.len());
    let over = from.len().min(bytes.len() - at);
    let (front, back) = from.split_at(over);
    bytes.extend_from_slice(back)?;
    overwrite(bytes, at, front);
    Ok(())
}

fn overwrite(bytes: &mut [u8], at: usize, from: &[u8])
    requires { at + length from.now ≤ length bytes.old }
    ensures { bytes.new ≡ written bytes.old at from.now }
{
    bytes[at..at + from.len()].copy_from_slice(from);
}

// Writes, and notes it.
fn write_now(
    alloc: Global,
    changes: &mut Vec<Change>,
    bytes: &mut Vec<u8>,
    at: u64,
    from: &[u8],
) -> Result<(), AllocError>
    ensures noted { OnOk result ((copy : Vec ℕ Global) × (copy.items ≡ from.now)
        × (changes.new.items ≡ changes.old.items ++ Change.Wrote at copy ∷ [])) }
    ensures ok { OnOk result (bytes.new.items ≡ written bytes.old.items at from.now) }
    ensures unnoted { OnErr result (changes.new.items ≡ changes.old.items) }
    ensures err { OnErr result (bytes.new.items ≡ bytes.old.items) }
{
    let copy = Vec::from_slice(alloc, from)?;
    changes.reserve(1)?;
    put(bytes, at as usize, from)?;
    changes.push(Change::Wrote { at, bytes: copy })?;
    Ok(())
}

// Notes a sync, and keeps what a read gives.
fn sync_now(
    alloc: Global,
    changes: &mut Vec<Change>,
    bytes: &[u8],
    kept: &mut Vec<u8>,
) -> Result<(), AllocError>
    ensures noted { OnOk result (changes.new.items ≡ changes.old.items ++ Change.Synced ∷ []) }
    ensures kept { OnOk result (kept.new.items ≡ bytes.now) }
    ensures unnoted { OnErr result (changes.new.items ≡ changes.old.items) }
    ensures err { OnErr result (kept.new.items ≡ kept.old.items) }
{
    let copy = Vec::from_slice(alloc, bytes)?;
    changes.push(Change::Synced)?;
    *kept = copy;
    Ok(())
}

// Reads the bytes from this place on into the front of `into`, and returns how many.
fn get(bytes: &[u8], at: usize, into: &mut [u8]) -> usize
    ensures count { result ≡ given bytes.now at (length into.old) }
    ensures within { result ≤ length into.old }
    ensures bytes { into.new ≡ take result (drop at bytes.now) ++ drop result into.old }
{
    let rest = bytes.get(at..).unwrap_or(&[]);
    let count = rest.len().min(into.len());
    into[..count].copy_from_slice(&rest[..count]);
    count
}

// A content after these changes, of which each wrote nothing but this byte.
fn marked(
    alloc: Global,
    content: &[u8],
    changes: &[Change],
    byte: u8,
) -> Result<Vec<u8>, AllocError>
    ensures { IfOk result (λ marked. marked.items ≡ marked_after byte content.now changes.now) }
{
    let mut marked = Vec::from_slice(alloc, content)?;
    'changes: for change in changes {
        mark(alloc, &mut marked, change, byte)?;
    }
    Ok(marked)
}

// One more change, of which nothing but this byte was written.
fn mark(alloc: Global, content: &mut Vec<u8>, change: &Change, byte: u8) -> Result<(), AllocError>
    ensures { OnOk result (content.new.items ≡ marked_by byte change.now content.old.items) }
{
    match change {
        Change::Wrote { at, bytes } => fill(alloc, content, *at as usize, bytes.len(), byte),
        Change::WroteNothing { at, count } => {
            let room = content.len().saturating_sub(*at as usize);
            fill(alloc, content, *at as usize, room.min(*count), byte)
        }
        Change::Cut { len } => {
            content.truncate(*len as usize);
            Ok(())
        }
        Change::CutNothing { .. } | Change::Synced => Ok(()),
    }
}

// Writes this byte so many times from this place on.
fn fill(
    alloc: Global,
    content: &mut Vec<u8>,
    at: usize,
    count: usize,
    byte: u8,
) -> Result<(), AllocError>
    ensures { OnOk result (content.new.items ≡ written content.old.items at (replicate count byte)) }
{
    let bytes = vec![in alloc; byte; count]?;
    put(content, at, &bytes)
}
