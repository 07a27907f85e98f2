// A line in memory whose device may have a weak page.
ghost use Rattle.std.specs.Prelude.{◌≡◌, ◌++◌, ◌∷◌, [], ◌<◌, ◌≤◌, ◌+◌, ℕ, List, length, IsTrue};
ghost use Rattle.std.specs.Prelude.{None, OnOk, Some};
ghost use Rattle.std.proofs.Common.{sym};
ghost use Rattle.stm_wire.specs.Call.{Put};
ghost use Rattle.stm_wire.specs.declared.verdict.Verdict.TheVariants.{Done};
ghost use Rattle.stm_wire.specs.Chip.{page_count, page_offset, page_size};
ghost use Rattle.stm_wire.specs.Exchange.{verdict};
ghost use Rattle.stm_wire.specs.Frames.{erase_frame};
ghost use Rattle.stm_wire.specs.PowerLoss.{powered_again};
ghost use Rattle.stm_wire.specs.Rig.{Enters, HasCause, PutsAside, PutsHonestly, Records};
ghost use Rattle.stm_sim.specs.Memory.{begins_anew, rig_state};
ghost use Rattle.stm_sim.specs.lemmas.Past.{model};
ghost use Rattle.stm_sim.specs.lemmas.Recorded.{length_told};
ghost use Rattle.stm_weak.specs.WeakDevice.{Heals, ReadsPlace, ReadsWeak, WeakFeeds};
ghost use Rattle.stm_weak.specs.WeakLine.{weakly};

use stm_sim::{MemoryRig, Stop};
use stm_wire::{Chip, EraseKind, Patience, Rig, RigFault};

/// A Rig in memory whose device may have a weak page, since a loss of power. The put that would
/// complete a read of that page fails, and its byte isn't fed: no other line can follow the model,
/// since such reads may be answered by other bytes each time. An erase of that page heals it.
#[derive(Drop)]
pub struct WeakRig {
    memory: MemoryRig,
    weak: Option<u16>,
}

/// Whether these are the same bytes.
fn are_same(one: &[u8], other: &[u8]) -> bool
    ensures { IsTrue result → one.now ≡ other.now }
{
    one == other
}

/// Whether the byte ends a frame that erases page `n`, of which this was sent.
fn ends_erase(kind: EraseKind, n: u16, rest: &[u8], byte: u8) -> bool
    ensures { IsTrue result → rest.now ++ byte ∷ [] ≡ erase_frame kind n }
{
    let (high, low) = ((n / 256) as u8, (n % 256) as u8);
    match kind {
        EraseKind::Page => high == 0 && byte == 0 ^ low && are_same(rest, &[0x43, 0xBC, 0, low]),
        EraseKind::Extended => {
            byte == 0 ^ high ^ low && are_same(rest, &[0x44, 0xBB, 0, 0, high, low])
        }
    }
}

/// Whether a frame of which this was sent reads bytes of page `n`, or may.
fn reads_page(chip: &Chip, n: u16, rest: &[u8]) -> bool
    ensures { (codes : List ℕ) (byte place : ℕ)
        → verdict chip.now codes (rest.now ++ byte ∷ []) ≡ Some Done
        → ReadsPlace chip.now (rest.now ++ byte ∷ []) place → page_offset chip.now n ≤ place
        → place < page_offset chip.now n + page_size chip.now n → IsTrue result }
{
    match rest {
        [code, _, a, b, c, d, _, size, ..] => {
            if n >= chip.pages() {
                return true;
            }
            let from = u64::from(u32::from_be_bytes([*a, *b, *c, *d]));
            let start = u64::from(chip.page_start(n));
            let end = start + u64::from(chip.page_size(n));
            *code == 0x11 && from < end && start <= from + u64::from(*size)
        }
        _ => false,
    }
}

/// Whether the byte ends an erase of page `n` of the device in memory.
#[tactic(auto, using(crate::proofs::Meaning::erase_heals))]
fn heals(memory: &MemoryRig, n: u16, byte: u8) -> bool
    ensures { (rig_state memory.now).is_honest → IsTrue result
        → Heals byte memory.now.device n }
{
    let Some(rest) = memory.rest() else {
        return false;
    };
    n < memory.chip().pages() && ends_erase(memory.chip().kind(), n, rest, byte)
}

impl WeakRig {
    /// This Rig, of whose device no page is weak.
    pub fn new(memory: MemoryRig) -> WeakRig
        ensures memory { result.memory ≡ memory }
        ensures sound { result.weak ≡ None }
        ensures honest { (rig_state memory).is_honest → (rig_state result.memory).is_honest }
    {
        WeakRig { memory, weak: None }
    }

    /// The Rig in memory.
    pub fn memory(&self) -> &MemoryRig
        ensures { result.now ≡ self.now.memory }
    {
        &self.memory
    }

    /// The page that is weak, if any is.
    pub fn weak(&self) -> Option<u16>
        ensures { result ≡ self.now.weak }
    {
        self.weak
    }

    /// Stops after so many steps from now, as a Rig in memory does. An earlier stop is lifted.
    pub fn stop_after(&mut self, steps: u64)
        ensures plan { let old = self.old.memory in
            self.new.memory ≡ record old { plan = record old.plan { stop = Stop.After steps } } }
        ensures weak { self.new.weak ≡ self.old.weak }
        ensures honest { (rig_state self.old.memory).is_honest
            → (rig_state self.new.memory).is_honest }
    {
        self.memory.stop_after(steps);
    }

    /// Takes the device's power away and gives it back, inside an erase or a write of page `n`: it
    /// is fresh, owes nothing, and holds these bytes as that page, which is weak. Where one is weak
    /// already, that one alone stays so.
    pub fn lose_power(&mut self, n: u16, page: &[u8])
        requires exists { n < page_count self.old.memory.device.chip }
        requires size { length page.now ≡ page_size self.old.memory.device.chip n }
        ensures lost { self.new.memory
            ≡ begins_anew (powered_again n page.now self.old.memory.device) self.old.memory }
        ensures weak { self.old.weak ≡ None → self.new.weak ≡ Some n }
        ensures stays { (m : ℕ) → self.old.weak ≡ Some m → self.new.weak ≡ Some m }
        ensures honest { (rig_state self.old.memory).is_honest
            → (rig_state self.new.memory).is_honest }
    {
        self.memory.lose_power(n, page);
        if self.weak.is_none() {
            self.weak = Some(n);
        }
    }

    /// Whether the frame of which the device has a part reads bytes of its weak page.
    fn is_reading_weak(&self) -> bool
        ensures { (byte : ℕ) → ReadsWeak byte (weakly self.now.memory self.now.weak)
            → IsTrue result }
    {
        match (self.weak, self.memory.rest()) {
            (Some(n), Some(rest)) => reads_page(self.memory.chip(), n, rest),
            _ => false,
        }
    }

    /// Whether the byte ends an erase of the weak page.
    fn is_healed_by(&self, byte: u8) -> bool
        ensures { let old = self.now.memory in (rig_state old).is_honest → IsTrue result
            → (n : ℕ) → self.now.weak ≡ Some n → Heals byte old.device n }
    {
        match self.weak {
            Some(n) => heals(&self.memory, n, byte),
            None => false,
        }
    }
}

impl Rig for WeakRig {
    ghost view = { λ rig. rig_state rig.memory };

    ghost model = { λ rig honest. model rig.memory honest };

    ghost places = { λ rig. sym (length_told rig.memory.journal rig.memory.calls) };

    fn put(&mut self, byte: u8) -> Result<(), RigFault>
        ensures cause { HasCause (rig_state self.old.memory).line_failures
            (rig_state self.new.memory).line_failures result }
        ensures journal_count { (rig_state self.new.memory).journal_failures
            ≡ (rig_state self.old.memory).journal_failures }
        ensures recorded { Records (Put byte) result
            (rig_state self.old.memory).calls (rig_state self.new.memory).calls }
        ensures entered { Enters (Put byte) (rig_state self.old.memory)
            (rig_state self.new.memory) }
        ensures aside { PutsAside (rig_state self.old.memory) (rig_state self.new.memory) }
        ensures honest { (rig_state self.old.memory).is_honest
            → PutsHonestly byte result (rig_state self.old.memory) (rig_state self.new.memory) }
        ensures unread { OnOk result
            (ReadsWeak byte (weakly self.old.memory self.old.weak) → ⊥) }
        ensures weakly { let old = self.old in let new = self.new in
            (rig_state old.memory).is_honest → OnOk result
            (WeakFeeds byte (weakly old.memory old.weak) (weakly new.memory new.weak)) }
    {
        let heals = self.is_healed_by(byte);
        if self.is_reading_weak() {
            self.memory.fail_put(1);
        }
        self.memory.put(byte)?;
        if heals {
            self.weak = None;
        }
        Ok(())
    }

    fn get(&mut self, patience: Patience) -> Result<Option<u8>, RigFault> {
        self.memory.get(patience)
    }

    fn append(&mut self, bytes: &[u8]) -> Result<(), RigFault> {
        self.memory.append(bytes)
    }

    fn fetch(&mut self, at: u64, buf: &mut [u8]) -> Result<usize, RigFault> {
        self.memory.fetch(at, buf)
    }
}
