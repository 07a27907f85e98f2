// The calls of a Rig in memory, with their stops and failures.
ghost use Rattle.std.specs.Prelude.{length};
ghost use Rattle.stm_wire.specs.Rig.{HasCause, FetchesWithin};
ghost use Rattle.stm_sim.specs.Memory.{PutsInMemory, GetsInMemory};
ghost use Rattle.stm_sim.specs.Memory.{AppendsInMemory, FetchesInMemory, StaysWithin};

use crate::memory_rig::MemoryRig;
use std::alloc::AllocError;
use stm_wire::{RigCall, RigFault, copy_from, part};

impl MemoryRig {
    /// Puts a byte.
    pub(super) fn put_byte(&mut self, byte: u8) -> Result<(), RigFault>
        ensures cause { HasCause self.old.line_failures self.new.line_failures result }
        ensures simulated { PutsInMemory byte result self.old self.new }
    {
        if self.runs_into(1) {
            self.stop();
            self.fail_line(RigCall::Put(byte));
            return Err(RigFault::Stopped);
        }
        if !self.count_put() && self.try_put(byte).is_ok() {
            self.take_steps(1);
            return Ok(());
        }
        self.fail_line(RigCall::Put(byte));
        Err(RigFault::Line)
    }

    /// Gets a byte.
    pub(super) fn get_byte(&mut self) -> Result<Option<u8>, RigFault>
        ensures cause { HasCause self.old.line_failures self.new.line_failures result }
        ensures simulated { GetsInMemory result self.old self.new }
    {
        if self.runs_into(self.steps_of_get()) {
            self.stop();
            self.fail_line(RigCall::Get(None));
            return Err(RigFault::Stopped);
        }
        if !self.count_get() {
            match self.try_get() {
                Ok(Some(byte)) => {
                    self.take_steps(1);
                    return Ok(Some(byte));
                }
                Ok(None) => return Ok(None),
                Err(AllocError) => {}
            }
        }
        self.fail_line(RigCall::Get(None));
        Err(RigFault::Line)
    }

    /// Adds bytes to the journal.
    pub(super) fn append_bytes(&mut self, bytes: &[u8]) -> Result<(), RigFault>
        ensures cause { HasCause self.old.journal_failures self.new.journal_failures result }
        ensures simulated { AppendsInMemory bytes.now result self.old self.new }
        ensures limit { StaysWithin result self.new.journal }
    {
        let size = bytes.len() as u64;
        if self.runs_into(size) {
            let done = part(bytes, 0, self.left() as usize);
            self.stop();
            self.count_journal();
            if self.try_append(done).is_err() {
                self.add_failed(RigCall::Append(0));
            }
            return Err(RigFault::Stopped);
        }
        if !self.count_append() && self.try_append(bytes).is_ok() {
            self.take_steps(size);
            return Ok(());
        }
        self.fail_journal(RigCall::Append(0));
        Err(RigFault::File)
    }

    /// Reads journal bytes.
    pub(super) fn fetch_bytes(&mut self, at: u64, buf: &mut [u8]) -> Result<usize, RigFault>
        ensures cause { HasCause self.old.journal_failures self.new.journal_failures result }
        ensures simulated { FetchesInMemory at buf.old buf.new result self.old self.new }
        ensures within { FetchesWithin at buf.old buf.new result }
    {
        if self.runs_into(0) {
            self.stop();
            self.fail_journal(RigCall::Fetch);
            return Err(RigFault::Stopped);
        }
        if self.try_enter(RigCall::Fetch).is_ok() {
            return Ok(copy_from(self.journal(), at, buf));
        }
        self.fail_journal(RigCall::Fetch);
        Err(RigFault::File)
    }
}
