// What an undo answers that reads each page again.

/// What was undone.
#[derive(Clone, Copy, Debug, PartialEq, Eq)]
pub struct Returned {
    /// How many segments.
    pub segments: u32,
    /// How many bytes their pages have: each of these was read again, and held what was written.
    pub bytes: u64,
}
