// What a line of the journal says: public, since the definitions of journals are in these words.
use crate::PageBytes;
use stm_wire::UniqueId;

/// What a line of the journal says.
#[derive(Drop)]
pub enum Entry {
    /// `stmjournal V ID`, or `stmjournal 3 ID UNIQUE`: the journal has this version, and is of the
    /// device with this product id and, in version 3, with this unique id.
    Names(u8, u16, UniqueId),
    /// `open K`: segment K begins.
    Opens(u16),
    /// `page N HEX`: page N held these bytes; in memory only their number is known.
    Keeps(u16, PageBytes),
    /// `erase N`: page N is about to be erased.
    Erases(u16),
    /// `program N`: page N is about to be written.
    Programs(u16),
    /// `end K`: the command of segment K is done.
    Ends(u16),
    /// `undone K`: segment K was undone.
    Undoes(u16),
}
