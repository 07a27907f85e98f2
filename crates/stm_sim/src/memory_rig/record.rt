// What a call of a Rig in memory does, where it isn't stopped and doesn't fail, with its entry in
// the record.
ghost use Rattle.std.specs.Prelude.{◌≡◌, ◌⊎◌, ℕ, ◌+◌, ◌-◌, ◌^◌, ◌<◌, ◌≤◌, ◌++◌, ◌∷◌};
ghost use Rattle.std.specs.Prelude.{[], Some, length, OnOk, OnErr, IfOk, vec_len};
ghost use Rattle.std.specs.Vec.{vec_capacity};
ghost use Rattle.std.specs.Option.{option_map};
ghost use Rattle.stm_sim.specs.Simulator.{simulated_device};
ghost use Rattle.stm_sim.specs.Memory.{first_flash, with_call, with_append, Fails, GetsFrom};

use crate::PastStep;
use crate::memory_rig::MemoryRig;
use std::alloc::{AllocError, Global};
use stm_wire::RigCall;

/// Makes room for one entry.
fn reserve_entry(calls: &mut Vec<RigCall>, past: &mut Vec<PastStep>) -> Result<(), AllocError>
    ensures calls { calls.new.items ≡ calls.old.items }
    ensures past { past.new.items ≡ past.old.items }
    ensures room { OnOk result ((vec_len calls.new < vec_capacity calls.new)
        × (vec_len past.new < vec_capacity past.new)) }
    ensures length { (vec_len calls.new ≡ vec_len calls.old)
        × (vec_len past.new ≡ vec_len past.old) }
    ensures kept { (vec_capacity calls.old ≤ vec_capacity calls.new)
        × (vec_capacity past.old ≤ vec_capacity past.new) }
    ensures full { OnErr result ((vec_capacity calls.old ≤ vec_len calls.old)
        ⊎ (vec_capacity past.old ≤ vec_len past.old)) }
{
    calls.reserve(1)?;
    past.reserve(1)
}

/// Keeps the flash as it was at first.
fn keep_first(alloc: Global, first: &mut Option<Vec<u8>>, flash: &[u8]) -> Result<(), AllocError>
    ensures ok { OnOk result
        (option_map (λ v. v.items) first.new
        ≡ Some (first_flash (option_map (λ v. v.items) first.old) flash.now)) }
    ensures err { OnErr result (first.new ≡ first.old) }
{
    if first.is_none() {
        *first = Some(Vec::from_slice(alloc, flash)?);
    }
    Ok(())
}

impl MemoryRig {
    /// Adds the entry of a call that did nothing, or changes nothing where
    /// there is no memory for it.
    pub(super) fn try_enter(&mut self, call: RigCall) -> Result<(), AllocError>
        ensures ok { OnOk result
            (self.new ≡ with_call call PastStep.Nothing self.old.device self.old) }
        ensures err { OnErr result ((self.new ≡ self.old) × (self.old.room ≡ 0)) }
    {
        reserve_entry(&mut self.calls, &mut self.past)?;
        self.calls.push_reserved(call);
        self.past.push_reserved(PastStep::Nothing);
        self.room = self.room.saturating_sub(1);
        Ok(())
    }

    /// Adds the entry of a call that failed and did nothing: left out is none for which there is
    /// room.
    pub(super) fn add_failed(&mut self, call: RigCall)
        ensures { Fails call self.old self.new }
    {
        let _ = self.try_enter(call);
    }

    /// Feeds a byte to the device, or changes nothing.
    pub(super) fn try_put(&mut self, byte: u8) -> Result<(), AllocError>
        ensures ok { OnOk result (self.new
            ≡ with_call (RigCall.Put byte) (PastStep.Fed byte)
            (simulated_device byte self.old.device) self.old) }
        ensures err { OnErr result (self.new ≡ self.old) }
    {
        reserve_entry(&mut self.calls, &mut self.past)?;
        keep_first(self.alloc, &mut self.first, self.simulator.flash())?;
        self.simulator.feed(byte)?;
        self.calls.push_reserved(RigCall::Put(byte));
        self.past.push_reserved(PastStep::Fed(byte));
        self.room = self.room.saturating_sub(1);
        Ok(())
    }

    /// Takes the first byte owed, or changes nothing.
    pub(super) fn try_get(&mut self) -> Result<Option<u8>, AllocError>
        ensures ok { IfOk result (λ answer. GetsFrom answer self.old self.new) }
        ensures err { OnErr result (self.new ≡ self.old) }
    {
        reserve_entry(&mut self.calls, &mut self.past)?;
        self.room = self.room.saturating_sub(1);
        match self.simulator.take() {
            Some(byte) => {
                self.calls.push_reserved(RigCall::Get(Some(byte)));
                self.past.push_reserved(PastStep::Taken);
                Ok(Some(byte))
            }
            None => {
                self.calls.push_reserved(RigCall::Get(None));
                self.past.push_reserved(PastStep::Nothing);
                Ok(None)
            }
        }
    }

    /// Adds bytes to the journal, or changes nothing.
    pub(super) fn try_append(&mut self, bytes: &[u8]) -> Result<(), AllocError>
        ensures ok { OnOk result (self.new ≡ with_append bytes.now self.old) }
        ensures err { OnErr result (self.new ≡ self.old) }
        ensures limit { length self.new.journal ≤ 2 ^ 63 - 1 }
    {
        reserve_entry(&mut self.calls, &mut self.past)?;
        self.journal.extend_from_slice(bytes)?;
        let size = bytes.len() as u64;
        self.calls.push_reserved(RigCall::Append(size));
        self.past.push_reserved(PastStep::Added(size));
        self.room = self.room.saturating_sub(1);
        Ok(())
    }
}
