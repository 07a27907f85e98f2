// What the commands of a session answered.

/// What a command answered.
#[derive(Debug, Drop)]
pub enum Outcome {
    /// The number of the write's segment, and how many pages it changed.
    Written { segment: u32, pages: u32 },
    /// The same of pages that were erased.
    Erased { segment: u32, pages: u32 },
    /// The flash has the image's bytes.
    Verified,
    /// The bytes that were read.
    Read(Vec<u8>),
}

/// What a session answered.
#[derive(Debug, Drop)]
pub struct Report {
    /// One outcome a command, in their order.
    pub outcomes: Vec<Outcome>,
}

/// What a write answered that was verified.
#[derive(Debug, Drop, Clone, Copy)]
pub struct VerifiedWrite {
    /// The number of its segment.
    pub segment: u32,
    /// How many pages it changed.
    pub pages: u32,
    /// How many bytes of its image were read again.
    pub again: usize,
}
