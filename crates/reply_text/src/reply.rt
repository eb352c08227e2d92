use base_text::Bytes;

/// The reply to a request: the request's number, and the second at which it acted.
///
/// If the request was granted, `code` is 0 and `body` has the lines that answer it. Else `code` is that of the first
/// refusal that holds, and there is no line.
#[derive(Debug, Drop)]
pub struct Reply {
    pub number: u64,
    pub moment: u64,
    pub code: u8,
    pub body: Bytes,
}

/// Why a request has no reply.
#[derive(Clone, Copy, Debug, PartialEq, Eq)]
pub enum Refused {
    /// The history takes no more entries: it has `count` of them. Nothing has changed.
    Full { count: u64 },
    /// The request has this number and acts, but a device failed before the request was kept.
    DeviceFault { number: u64 },
    /// Memory ran out. Nothing has changed.
    Memory,
}
