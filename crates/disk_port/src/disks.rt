// Two disks, and what hands them back.

/// Two disks of one host.
#[derive(Drop)]
pub struct Disks<D> {
    pub left: D,
    pub right: D,
}

/// How a call ended that was handed two disks, and these disks.
#[derive(Drop)]
pub struct Served<D> {
    /// The status of the program.
    pub status: u8,
    pub left: D,
    pub right: D,
}

/// There was no memory to open two disks: they are handed back.
#[derive(Drop)]
pub struct OpenRefused<D> {
    pub left: D,
    pub right: D,
}
