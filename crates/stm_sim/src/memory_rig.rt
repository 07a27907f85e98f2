// A Rig in memory: a simulator, a journal, and a record of all calls.
ghost use Rattle.std.specs.Prelude.{◌≡◌, ◌↔◌, ℕ, ◌+◌, ◌-◌, ◌^◌, ◌<◌, ◌≤◌, [], ◌∷◌, List};
ghost use Rattle.std.specs.Prelude.{length, vec_len, IsSome, IfSome, IsTrue, MatchOption};
ghost use Rattle.std.specs.Prelude.{OnOk, OnErr};
ghost use Rattle.std.specs.Vec.{vec_capacity};
ghost use Rattle.std.specs.Option.{option_map};
ghost use Rattle.stm_wire.specs.Chip.{flash_size, page_count, page_size};
ghost use Rattle.stm_wire.specs.Device.{Connected, Gone, reset};
ghost use Rattle.stm_wire.specs.Harmless.{SameOutside};
ghost use Rattle.stm_wire.specs.PowerLoss.{powered_again};
ghost use Rattle.stm_sim.specs.Simulator.{device_of};
ghost use Rattle.stm_sim.specs.Memory.{MemoryData, IsMemory, rig_state};
ghost use Rattle.stm_sim.specs.Memory.{memory_of, fresh_memory, begins_anew};

mod call;
mod fault;
mod record;
mod rig;

use crate::simulator::{Simulator, Stage};
use crate::{PastStep, Plan, Stop};
use std::alloc::{AllocError, Global};
use std::marker::Model;
use stm_wire::{Chip, RigCall};

/// A simulator and a journal in memory, which follow the model. It keeps a record of all calls, and
/// what each of them did, so that it can tell what a stop at any moment may have left. Stops and
/// failures can be planned.
///
/// A step is one byte put, one byte got, or one journal byte appended; a quiet get is none. A call
/// that finds no memory fails; where there is no memory for its entry in the record either, it
/// isn't there, unless room for it was asked for.
#[derive(Drop)]
pub struct MemoryRig {
    alloc: Global,
    simulator: Simulator,
    journal: Vec<u8>,
    line_failures: u64,
    journal_failures: u64,
    calls: Vec<RigCall>,
    /// For so many calls more there is room in the record, since it was asked for.
    room: usize,
    plan: Plan,
    /// The flash at first, where a put may have changed it since.
    first: Option<Vec<u8>>,
    begun: usize,
    start: usize,
    past: Vec<PastStep>,
}

impl Model for MemoryRig {
    ghost Value = { MemoryData };

    ghost view = { λ m. memory_of m.simulator m.journal.items m.line_failures m.journal_failures
        m.calls.items m.room m.plan (option_map (λ v. v.items) m.first) m.begun m.start
        m.past.items };

    ghost invariant = { λ m.
        IsMemory (memory_of m.simulator m.journal.items m.line_failures m.journal_failures
        m.calls.items m.room m.plan (option_map (λ v. v.items) m.first) m.begun m.start
        m.past.items)
        × (m.room + vec_len m.calls ≤ vec_capacity m.calls)
        × (m.room + vec_len m.past ≤ vec_capacity m.past) };
}

impl MemoryRig {
    /// A fresh device with this flash, owing nothing, and this journal; None where the flash has
    /// not the chip's length.
    pub fn new(alloc: Global, chip: Chip, flash: Vec<u8>, journal: Vec<u8>) -> Option<MemoryRig>
        ensures fits { IsSome result ↔ (length flash.items ≡ flash_size chip) }
        ensures starts { IfSome result
            (λ rig. rig ≡ fresh_memory chip flash.items journal.items) }
        ensures honest { IfSome result (λ rig. (rig_state rig).is_honest) }
    {
        if flash.len() != chip.flash_size() as usize {
            return None;
        }
        let begun = journal.len();
        Some(MemoryRig {
            alloc,
            simulator: Simulator::new(alloc, chip, flash),
            journal,
            line_failures: 0,
            journal_failures: 0,
            calls: Vec::new(alloc),
            room: 0,
            plan: Plan {
                stop: Stop::Never,
                put_fails: 0,
                get_fails: 0,
                append_fails: 0,
            },
            first: None,
            begun,
            start: 0,
            past: Vec::new(alloc),
        })
    }

    /// The device's chip.
    pub fn chip(&self) -> &Chip
        ensures { result.now ≡ self.now.device.chip }
    {
        self.simulator.chip()
    }

    /// The flash's bytes, from the chip's base on.
    pub fn flash(&self) -> &[u8]
        ensures { result.now ≡ self.now.device.flash }
    {
        self.simulator.flash()
    }

    /// The journal's bytes, never more than 2^63 - 1.
    pub fn journal(&self) -> &[u8]
        ensures bytes { result.now ≡ self.now.journal }
        ensures limit { length result.now ≤ 2 ^ 63 - 1 }
    {
        &self.journal
    }

    /// The bytes that came since the last verdict; None where the device is not connected.
    pub fn rest(&self) -> Option<&[u8]>
        ensures { MatchOption result
            ((rest : List ℕ) → self.now.device.phase ≡ Connected rest → ⊥)
            (λ rest. self.now.device.phase ≡ Connected rest.now) }
    {
        self.simulator.rest()
    }

    /// Whether the device left the bootloader.
    pub fn is_gone(&self) -> bool
        ensures { IsTrue result ↔ (self.now.device.phase ≡ Gone) }
    {
        self.simulator.is_gone()
    }

    /// Whether a planned stop has come.
    pub fn has_stopped(&self) -> bool
        ensures { IsTrue result ↔ (self.now.plan.stop ≡ Stop.Fallen) }
    {
        matches!(self.plan.stop, Stop::Fallen)
    }

    /// The device, as it stands, without the record.
    pub fn into_simulator(self) -> Simulator
        ensures { result ≡ self.device }
    {
        self.simulator
    }

    /// All calls so far, in order.
    pub fn calls(&self) -> &[RigCall]
        ensures { result.now ≡ self.now.calls }
    {
        &self.calls
    }

    /// Makes room in the record for so many calls from now on: each of them stands there, also one
    /// that fails for want of memory.
    pub fn reserve_calls(&mut self, count: usize) -> Result<(), AllocError>
        ensures ok { OnOk result (self.new ≡ record self.old { room = count }) }
        ensures err { OnErr result (self.new ≡ self.old) }
        ensures honest { (rig_state self.old).is_honest → (rig_state self.new).is_honest }
    {
        self.calls.reserve(count)?;
        self.past.reserve(count)?;
        self.room = count;
        Ok(())
    }

    /// Resets the device: it is fresh, with the same flash, and owes nothing.
    pub fn reset(&mut self)
        ensures reset { self.new ≡ begins_anew (reset self.old.device) self.old }
        ensures honest { (rig_state self.old).is_honest → (rig_state self.new).is_honest }
    {
        self.simulator.reset();
        self.first = None;
        self.begun = self.journal.len();
        self.start = self.calls.len();
        self.past.clear();
    }

    /// Takes the device's power away and gives it back, inside an erase or a write of page `n`: it
    /// is fresh, owes nothing, and holds these bytes as that page.
    pub fn lose_power(&mut self, n: u16, page: &[u8])
        requires exists { n < page_count self.old.device.chip }
        requires size { length page.now ≡ page_size self.old.device.chip n }
        ensures lost { self.new ≡ begins_anew (powered_again n page.now self.old.device) self.old }
        ensures outside { let old = self.old.device in let new = self.new.device in
            SameOutside old.chip (n ∷ []) old.flash new.flash }
        ensures honest { (rig_state self.old).is_honest → (rig_state self.new).is_honest }
    {
        self.simulator.lose_power(n, page);
        self.first = None;
        self.begun = self.journal.len();
        self.start = self.calls.len();
        self.past.clear();
    }

    /// Stops after so many steps from now: the next one isn't done, and it and all later calls
    /// answer `Stopped`. An earlier stop is lifted.
    pub fn stop_after(&mut self, steps: u64)
        ensures plan { self.new
            ≡ record self.old { plan = record self.old.plan { stop = Stop.After steps } } }
        ensures honest { (rig_state self.old).is_honest → (rig_state self.new).is_honest }
    {
        self.plan.stop = Stop::After(steps);
    }

    /// Makes the `k`th put from now fail once, with its byte not fed; 0: none. A stopped put isn't
    /// counted.
    pub fn fail_put(&mut self, k: u64)
        ensures plan { self.new
            ≡ record self.old { plan = record self.old.plan { put_fails = k } } }
        ensures honest { (rig_state self.old).is_honest → (rig_state self.new).is_honest }
    {
        self.plan.put_fails = k;
    }

    /// Makes the `k`th get from now fail once, quiet ones counted, with no byte lost; 0: none. A
    /// stopped get isn't counted.
    pub fn fail_get(&mut self, k: u64)
        ensures plan { self.new
            ≡ record self.old { plan = record self.old.plan { get_fails = k } } }
        ensures honest { (rig_state self.old).is_honest → (rig_state self.new).is_honest }
    {
        self.plan.get_fails = k;
    }

    /// Makes the `k`th append from now fail once, with nothing added; 0: none. A stopped append
    /// isn't counted.
    pub fn fail_append(&mut self, k: u64)
        ensures plan { self.new
            ≡ record self.old { plan = record self.old.plan { append_fails = k } } }
        ensures honest { (rig_state self.old).is_honest → (rig_state self.new).is_honest }
    {
        self.plan.append_fails = k;
    }
}
