// What was done to a disk in memory.

/// A call that changed a disk in memory, or may have.
#[derive(Drop)]
pub enum Change {
    /// These bytes were written from this place on.
    Wrote { at: u64, bytes: Vec<u8> },
    /// A write of so many bytes from this place on failed.
    WroteNothing { at: u64, count: usize },
    /// The disk was cut to this length.
    Cut { len: u64 },
    /// A cut to this length failed.
    CutNothing { len: u64 },
    /// What was read then is on the disk.
    Synced,
}
