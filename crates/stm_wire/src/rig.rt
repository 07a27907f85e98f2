// A device on a line, and the journal beside it.
ghost use Rattle.std.specs.Prelude.{◌≡◌, ◌≤◌, ℕ};
ghost use Rattle.stm_wire.specs.Call.{Put, Fetch};
ghost use Rattle.stm_wire.specs.Rig.{RigState, HasCause, Records, RecordsAppend};
ghost use Rattle.stm_wire.specs.Rig.{Enters, EntersAppend, entry_of_get};
ghost use Rattle.stm_wire.specs.Rig.{PutsAside, GetsAside, FetchesAside};
ghost use Rattle.stm_wire.specs.Rig.{PutsHonestly, GetsHonestly, AppendsHonestly};
ghost use Rattle.stm_wire.specs.Rig.{FetchesHonestly, FetchesWithin, IsModel, IsPlace};

use crate::RigFault;

/// How long a get waits before it is quiet.
#[derive(Clone, Copy, Debug, PartialEq, Eq)]
pub enum Patience {
    /// As long as a device needs that has its answer ready.
    Brief,
    /// As long as the slowest command takes, an erase of the whole flash.
    Long,
}

/// A call of a Rig, as its record keeps it.
#[derive(Clone, Copy, Debug, PartialEq, Eq)]
pub enum RigCall {
    /// This byte was handed in to be sent.
    Put(u8),
    /// This byte came; None: quiet, or failed.
    Get(Option<u8>),
    /// So many bytes were added to the journal.
    Append(u64),
    /// Journal bytes were asked for.
    Fetch,
}

/// A line to a bootloader, and a journal that only grows. Contracts see a Rig through its view.
///
/// A Rig that follows the model, called honest, keeps these rules, and every theorem on devices has
/// that as its premise: a put that answers Ok feeds the byte to the device, and one that fails has
/// fed it or not; a get gives the first byte owed, and none only where nothing is owed; an append
/// that answers Ok has added all bytes, and one that fails a beginning of them; a stop may lose
/// owed bytes from the front; a fetch changes nothing and tells the journal's bytes.
pub trait Rig {
    /// What it is now: whether it follows the model, its device, its journal, its counts of
    /// failures, the moment, what a stop since a moment may have left, its record and whether that
    /// has room, how many gets waited long, and what fetches brought.
    ghost view: { Self → RigState };

    /// Sends a byte.
    fn put(&mut self, byte: u8) -> Result<(), RigFault>
        ensures cause { HasCause
            (view self.old).line_failures (view self.new).line_failures result }
        ensures journal_count { (view self.new).journal_failures
            ≡ (view self.old).journal_failures }
        ensures recorded { Records (Put byte) result
            (view self.old).calls (view self.new).calls }
        ensures entered { Enters (Put byte) (view self.old) (view self.new) }
        ensures aside { PutsAside (view self.old) (view self.new) }
        ensures honest { (view self.old).is_honest
            → PutsHonestly byte result (view self.old) (view self.new) };

    /// Takes a byte, or answers None where it stayed quiet.
    fn get(&mut self, patience: Patience) -> Result<Option<u8>, RigFault>
        ensures cause { HasCause
            (view self.old).line_failures (view self.new).line_failures result }
        ensures journal_count { (view self.new).journal_failures
            ≡ (view self.old).journal_failures }
        ensures recorded { Records (entry_of_get result) result
            (view self.old).calls (view self.new).calls }
        ensures entered { Enters (entry_of_get result) (view self.old) (view self.new) }
        ensures aside { GetsAside patience (view self.old) (view self.new) }
        ensures honest { (view self.old).is_honest
            → GetsHonestly result (view self.old) (view self.new) };

    /// Adds the bytes to the journal.
    fn append(&mut self, bytes: &[u8]) -> Result<(), RigFault>
        ensures cause { HasCause
            (view self.old).journal_failures (view self.new).journal_failures result }
        ensures line_count { (view self.new).line_failures ≡ (view self.old).line_failures }
        ensures recorded { RecordsAppend bytes.now result
            (view self.old).calls (view self.new).calls }
        ensures entered { EntersAppend bytes.now (view self.old) (view self.new) }
        ensures aside { PutsAside (view self.old) (view self.new) }
        ensures honest { (view self.old).is_honest
            → AppendsHonestly bytes.now result (view self.old) (view self.new) };

    /// Reads journal bytes from a place on, and answers how many; 0 at or past the end. Any Rig
    /// answers at most the buffer's length, and 0 from the place 2^63 - 1 on.
    fn fetch(&mut self, at: u64, buf: &mut [u8]) -> Result<usize, RigFault>
        ensures within { FetchesWithin at buf.old buf.new result }
        ensures cause { HasCause
            (view self.old).journal_failures (view self.new).journal_failures result }
        ensures line_count { (view self.new).line_failures ≡ (view self.old).line_failures }
        ensures recorded { Records Fetch result
            (view self.old).calls (view self.new).calls }
        ensures entered { Enters Fetch (view self.old) (view self.new) }
        ensures aside { FetchesAside buf.new result (view self.old) (view self.new) }
        ensures honest { (view self.old).is_honest
            → FetchesHonestly at buf.old buf.new result (view self.old) (view self.new) };

    // What is so of an honest Rig at each moment.
    ghost model: { (rig : Self) → (view rig).is_honest → IsModel (view rig) };

    // Where a record is kept, a moment is a place in it.
    ghost places: { (rig : Self) → IsPlace (view rig).moment (view rig).calls };
}
