// The line that names the device of a journal.
use stm_wire::UniqueId;

/// The header of a journal.
#[derive(Clone, Copy, Debug)]
pub struct JournalHeader {
    /// The version of the journal's format: 1, 2 or 3.
    pub version: u8,
    /// The product id of the device.
    pub id: u16,
    /// The unique id of the device, in version 3.
    pub unique: UniqueId,
    /// The number of the header's line; void lines may stand before it.
    pub line: u64,
}
