// What a call of a Rig in memory did: public, since the definitions of its moments go over these
// steps.

/// What a call of a Rig in memory did to its device or its journal.
#[derive(Clone, Copy, Debug, PartialEq, Eq)]
pub enum PastStep {
    /// This byte was fed to the device.
    Fed(u8),
    /// The first byte owed was taken.
    Taken,
    /// So many bytes were added to the journal.
    Added(u64),
    /// Nothing changed.
    Nothing,
}
