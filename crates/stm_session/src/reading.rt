// Reads any part of the flash, in calls that the bootloader takes.
ghost use Rattle.std.specs.Prelude.{◌≡◌, ℕ, Bool, ◌+◌, ◌-◌, ◌/◌, ◌%◌, ◌<◌, ◌≤◌, ◌||◌, ◌==◌, ◌++◌};
ghost use Rattle.std.specs.Prelude.{IsTrue, IfErr, IfOk, OnOk, length, vec_len, List};
ghost use Rattle.std.specs.List.{AllByRecursion};
ghost use Rattle.stm_wire.specs.Chip.{fits_inside, is_inside};
ghost use Rattle.stm_wire.specs.Device.{IsSettled};
ghost use Rattle.stm_wire.specs.Dialogue.{GoesOn};
ghost use Rattle.stm_wire.specs.Intents.{InPage};
ghost use Rattle.stm_session.specs.Fault.{HasSessionCause, IsRefusal};
ghost use Rattle.stm_session.specs.Asking.{Asks};
ghost use Rattle.stm_session.specs.Came.{ComeInBlocks};
ghost use Rattle.stm_session.specs.Reading.{HoldsAddress, IsBlock, IsNotBehind};
ghost use Rattle.stm_session.specs.Order.{AreReadsOf, Begin, IsInOrder, IsReadOf, ReadsBlock};
ghost use Rattle.stm_session.specs.Order.{FaultEnds, read_steps};
ghost use Rattle.stm_session.specs.RunOrder.{IsReading, OnlyReads};
ghost use Rattle.stm_session.specs.Sending.{PutsAtMost, most_of_command};
ghost use Rattle.stm_session.specs.Running.{bytes_at};

use crate::Fault;
use std::alloc::Global;
use stm_wire::{Chip, Rig, sending_is_harmless};

/// The most bytes that one call reads (AN3155, section 3.4).
const BLOCK: u32 = 256;

/// Whether so many bytes from this address lie inside the flash. No bytes lie anywhere.
pub fn is_within(chip: &Chip, start: u32, size: u32) -> bool
    ensures { result ≡ (size == 0 || fits_inside chip.now start size) }
{
    size == 0 || (chip.base() <= start && u64::from(start) + u64::from(size) <= chip.end())
}

/// A page, and how many bytes of the flash lie before it.
#[derive(Clone, Copy)]
pub struct Place {
    pub page: u16,
    pub before: u32,
}

/// Bytes of one page, that one call reads.
#[derive(Clone, Copy)]
pub struct Block {
    pub address: u32,
    pub place: Place,
    pub size: u32,
}

/// The page that holds an address, looked for from one on that doesn't lie behind it.
pub fn page_at(chip: &Chip, address: u32, from: Place) -> Place
    requires inside { IsTrue (is_inside chip.now address) }
    requires from { IsNotBehind chip.now address from }
    ensures { HoldsAddress chip.now address result }
{
    chip.keeps_limits();
    let offset = address - chip.base();
    let mut before = from.before;
    for page in from.page..chip.pages() {
        let end = before + chip.page_size(page);
        if offset < end {
            return Place { page, before };
        }
        before = end;
    }
    unreachable!()
}

/// How many bytes the next call reads, where so many are left to read from this address on,
/// which lies in this page.
pub fn block_size(chip: &Chip, address: u32, place: Place, left: u32) -> u32
    requires { HoldsAddress chip.now address place }
    ensures { IsBlock chip.now address left result }
{
    chip.keeps_limits();
    let end = place.before + chip.page_size(place.page);
    let rest = end - (address - chip.base());
    BLOCK.min(rest).min(left)
}

/// Reads 1 to 256 bytes of flash into the buffer.
pub fn read_part<R: Rig>(
    rig: &mut R,
    chip: &Chip,
    address: u32,
    buf: &mut [u8],
) -> Result<(), Fault>
    requires some { 1 ≤ length buf.old }
    requires limit { length buf.old ≤ 256 }
    ensures size { length buf.new ≡ length buf.old }
    ensures cause { let old = R.view rig.old in let new = R.view rig.new in
        HasSessionCause old new result }
    ensures puts { let old = R.view rig.old in let new = R.view rig.new in
        (page : ℕ) → InPage chip.now page address (length buf.old)
        → PutsAtMost chip.now (12 + length buf.old) old new result }
    ensures order { let old = R.view rig.old in let new = R.view rig.new in
        OnOk result (ReadsBlock address (length buf.old) buf.new old new) }
    ensures stops { let old = R.view rig.old in let new = R.view rig.new in
        (torn : Bool) → FaultEnds (Begin (IsReadOf address (length buf.old))) torn old new result }
    ensures sent { IfErr result (λ fault. IsRefusal fault → ⊥) }
    ensures honest { let old = R.view rig.old in let new = R.view rig.new in
        old.is_honest → IsSettled old.device → old.device.chip ≡ chip.now
        → IsTrue (fits_inside chip.now address (length buf.old))
        → Asks old new result
        (λ _. buf.new ≡ bytes_at chip.now old.device.flash address (length buf.old)) }
{
    sending_is_harmless();
    stm_wire::read(rig, address, buf)?;
    Ok(())
}

/// Reads a block, and adds it to the bytes.
fn read_block<R: Rig>(
    rig: &mut R,
    chip: &Chip,
    address: u32,
    size: u32,
    bytes: &mut Vec<u8>,
) -> Result<(), Fault>
    requires some { 1 ≤ size }
    requires limit { size ≤ 256 }
    ensures size { OnOk result (vec_len bytes.new ≡ vec_len bytes.old + size) }
    ensures cause { let old = R.view rig.old in let new = R.view rig.new in
        HasSessionCause old new result }
    ensures puts { let old = R.view rig.old in let new = R.view rig.new in
        (page : ℕ) → InPage chip.now page address size
        → PutsAtMost chip.now (12 + size) old new result }
    ensures order { let old = R.view rig.old in let new = R.view rig.new in
        OnOk result ((answer : List ℕ) × (bytes.new.items ≡ bytes.old.items ++ answer)
        × ReadsBlock address size answer old new) }
    ensures stops { let old = R.view rig.old in let new = R.view rig.new in
        (torn : Bool) → FaultEnds (Begin (IsReadOf address size)) torn old new result }
    ensures sent { IfErr result (λ fault. IsRefusal fault → ⊥) }
    ensures honest { let old = R.view rig.old in let new = R.view rig.new in
        old.is_honest → IsSettled old.device → old.device.chip ≡ chip.now
        → IsTrue (fits_inside chip.now address size)
        → Asks old new result
        (λ _. bytes.new.items
        ≡ bytes.old.items ++ bytes_at chip.now old.device.flash address size) }
{
    let mut block = [0; 256];
    let part = &mut block[..size as usize];
    read_part(rig, chip, address, part)?;
    bytes.extend_from_slice(part)?;
    Ok(())
}

/// Reads these bytes of the flash.
pub fn read_range<R: Rig>(
    alloc: Global,
    rig: &mut R,
    chip: &Chip,
    start: u32,
    size: u32,
) -> Result<Vec<u8>, Fault>
    requires { IsTrue (size == 0 || fits_inside chip.now start size) }
    ensures size { IfOk result (λ bytes. vec_len bytes ≡ size) }
    ensures puts { PutsAtMost chip.now most_of_command (R.view rig.old) (R.view rig.new) result }
    ensures order { let old = R.view rig.old in let new = R.view rig.new in
        (page : ℕ) → InPage chip.now page start size → size % 256 ≡ 0 → (torn : Bool)
        → IfOk result (λ bytes. let steps = read_steps start (size / 256) bytes.items in
        GoesOn (IsInOrder torn steps) old.calls new.calls) }
    ensures order_stops { let old = R.view rig.old in let new = R.view rig.new in
        (page : ℕ) → InPage chip.now page start size → size % 256 ≡ 0 → (torn : Bool)
        → FaultEnds (Begin (AreReadsOf start size)) torn old new result }
    // They are what came, in blocks of which none is read twice.
    ensures reads { let old = R.view rig.old in let new = R.view rig.new in
        IfOk result (λ bytes. OnlyReads chip.now (ComeInBlocks start bytes.items) old new) }
    ensures reads_stop { let old = R.view rig.old in let new = R.view rig.new in
        (torn : Bool) → FaultEnds (AllByRecursion (IsReading chip.now)) torn old new result }
    ensures cause { let old = R.view rig.old in let new = R.view rig.new in
        HasSessionCause old new result }
    ensures sent { IfErr result (λ fault. IsRefusal fault → ⊥) }
    ensures honest { let old = R.view rig.old in let new = R.view rig.new in
        old.is_honest → IsSettled old.device → old.device.chip ≡ chip.now
        → Asks old new result
        (λ bytes. bytes.items ≡ bytes_at chip.now old.device.flash start size) }
{
    chip.keeps_limits();
    sending_is_harmless();
    let mut bytes = Vec::with_capacity(alloc, size as usize)?;
    let mut place = Place { page: 0, before: 0 };
    let mut done = 0;
    while done < size {
        let address = start + done;
        place = page_at(chip, address, place);
        let block = block_size(chip, address, place, size - done);
        read_block(rig, chip, address, block, &mut bytes)?;
        done += block;
    }
    Ok(bytes)
}
