// The calls of a Rig so far. Proofs alone read them: the record takes no memory, and its methods do
// nothing.
ghost use Rattle.std.specs.Prelude.{◌≡◌};
ghost use Rattle.std.specs.Borrow.{ftrue};
ghost use Rattle.stm_files.specs.CallRecord.{Past, no_calls, past_code};

use std::marker::Model;
use stm_wire::{Patience, RigFault};

/// A call of a Rig, with what it answered.
#[derive(Clone, Copy, Drop)]
pub enum Called<'a> {
    /// This byte was handed in to be sent.
    Put(u8),
    /// This byte came, if any did.
    Get(Patience, Result<Option<u8>, RigFault>),
    /// These bytes were handed in for the journal.
    Append(&'a [u8]),
    /// So many of these bytes are the journal's.
    Fetch(&'a [u8], Result<usize, RigFault>),
}

/// The calls of a Rig so far.
#[derive(Drop)]
pub struct CallRecord {
    pub ghost past: { Past } by { past_code },
}

impl Model for CallRecord {
    ghost also_owns = { λ _. ftrue };
}

impl CallRecord {
    ghost use Rattle.stm_files.specs.Called.{past_with};

    /// No calls.
    pub fn new() -> CallRecord
        ensures { result.past ≡ no_calls }
    {
        CallRecord {}
    }

    /// The record with a call more.
    #[inline(always)]
    pub fn then(&self, _call: &Called<'_>) -> CallRecord
        ensures { result.past ≡ past_with self.now.past _call.now }
    {
        CallRecord {}
    }
}
