// Comparing an image with the flash.
ghost use Rattle.std.specs.Prelude.{◌≡◌, ℕ, Bool, List, ◌+◌, ◌≤◌, true, length};
ghost use Rattle.std.specs.Prelude.{IsTrue, IfErr, IfOk, Some, None, MatchOption};
ghost use Rattle.std.specs.List.{AllByRecursion};
ghost use Rattle.stm_image.specs.Pairs.{Pairs, HasNone, IsNext};
ghost use Rattle.stm_wire.specs.Chip.{fits_inside, flash_size};
ghost use Rattle.stm_wire.specs.Device.{IsSettled};
ghost use Rattle.stm_wire.specs.Intents.{InPage};
ghost use Rattle.stm_session.specs.Answers.{first_difference};
ghost use Rattle.stm_session.specs.Asking.{Asks};
ghost use Rattle.stm_session.specs.Came.{CameFor};
ghost use Rattle.stm_session.specs.Fault.{HasSessionCause, IsRefusal};
ghost use Rattle.stm_session.specs.Reading.{IsNextBlock, IsNotBehind};
ghost use Rattle.stm_session.specs.Refusals.{image_fits};
ghost use Rattle.stm_session.specs.Running.{bytes_at};
ghost use Rattle.stm_session.specs.Order.{Begin, IsReadOf, ReadsBlock, FaultEnds};
ghost use Rattle.stm_session.specs.RunOrder.{IsReading, OnlyReads};
ghost use Rattle.stm_session.specs.Sending.{PutsAtMost, most_of_command};

use crate::Fault;
use crate::reading::{Block, Place, block_size, page_at, read_part};
use stm_image::{Image, laying_keeps_places, laying_nothing_new};
use stm_wire::{Chip, Rig, sending_is_harmless};

/// A law: an image that names no place among bytes doesn't differ from them.
fn unnamed_places_agree()
    ensures before { (image : Pairs) (address : ℕ) (bytes : List ℕ) (next : ℕ × ℕ)
        → IsNext image address next → address + length bytes ≤ next.0
        → first_difference image address bytes ≡ None }
    ensures past { (image : Pairs) (address : ℕ) (bytes : List ℕ)
        → HasNone image address → first_difference image address bytes ≡ None }
{
    laying_keeps_places();
    laying_nothing_new();
}

/// The least place where the image has another byte than these, which stand from an address on.
fn find_in(image: &Image, address: u32, bytes: &[u8]) -> Option<u32>
    ensures { result ≡ first_difference image.now address bytes.now }
{
    image.first_difference(address, bytes)
}

/// Compares the image with 1 to 256 bytes of the flash.
fn compare_block<R: Rig>(
    rig: &mut R,
    chip: &Chip,
    image: &Image,
    address: u32,
    size: u32,
) -> Result<Option<u32>, Fault>
    requires some { 1 ≤ size }
    requires limit { size ≤ 256 }
    ensures cause { HasSessionCause (R.view rig.old) (R.view rig.new) result }
    ensures puts { let old = R.view rig.old in let new = R.view rig.new in
        (page : ℕ) → InPage chip.now page address size
        → PutsAtMost chip.now (12 + size) old new result }
    ensures order { let old = R.view rig.old in let new = R.view rig.new in
        IfOk result (λ found. (answer : List ℕ)
        × (found ≡ first_difference image.now address answer)
        × ReadsBlock address size answer old new) }
    ensures stops { let old = R.view rig.old in let new = R.view rig.new in
        (torn : Bool) → FaultEnds (Begin (IsReadOf address size)) torn old new result }
    ensures sent { IfErr result (λ fault. IsRefusal fault → ⊥) }
    ensures honest { let old = R.view rig.old in let new = R.view rig.new in
        old.is_honest → IsSettled old.device → old.device.chip ≡ chip.now
        → IsTrue (fits_inside chip.now address size)
        → let bytes = bytes_at chip.now old.device.flash address size in
        Asks old new result (λ found. found ≡ first_difference image.now address bytes) }
{
    let mut block = [0; 256];
    let part = &mut block[..size as usize];
    read_part(rig, chip, address, part)?;
    Ok(find_in(image, address, part))
}

/// The next block in which the image names a place, where the bytes before
/// this offset were compared.
fn next_block(chip: &Chip, image: &Image, done: u32, from: Place) -> Option<Block>
    requires inside { image_fits chip.now image.now ≡ true }
    requires within { done ≤ flash_size chip.now }
    requires from { IsNotBehind chip.now (chip.now.base + done) from }
    ensures { MatchOption result (HasNone image.now (chip.now.base + done))
        (IsNextBlock chip.now image.now done) }
{
    chip.keeps_limits();
    let size = chip.flash_size();
    if done == size {
        return None;
    }
    let Some((address, _byte)) = image.next_from(chip.base() + done) else {
        return None;
    };
    let place = page_at(chip, address, from);
    let left = size - (address - chip.base());
    let size = block_size(chip, address, place, left);
    Some(Block {
        address,
        place,
        size,
    })
}

/// The least place where the image has another byte than the flash. The image's places
/// lie inside the flash; from the first of them on, blocks are read in which it names a
/// place, until one differs.
pub fn find_difference<R: Rig>(
    rig: &mut R,
    chip: &Chip,
    image: &Image,
) -> Result<Option<u32>, Fault>
    requires { image_fits chip.now image.now ≡ true }
    ensures puts { PutsAtMost chip.now most_of_command (R.view rig.old) (R.view rig.new) result }
    // What is found is what came, in blocks of which none is read twice.
    ensures reads { let old = R.view rig.old in let new = R.view rig.new in
        IfOk result (λ found. OnlyReads chip.now
        (CameFor image.now chip.now.base found) old new) }
    ensures reads_stop { let old = R.view rig.old in let new = R.view rig.new in
        (torn : Bool) → FaultEnds (AllByRecursion (IsReading chip.now)) torn old new result }
    ensures cause { HasSessionCause (R.view rig.old) (R.view rig.new) result }
    ensures sent { IfErr result (λ fault. IsRefusal fault → ⊥) }
    ensures honest { let old = R.view rig.old in let new = R.view rig.new in
        old.is_honest → IsSettled old.device → old.device.chip ≡ chip.now
        → let flash = old.device.flash in
        Asks old new result (λ found. found ≡ first_difference image.now chip.now.base flash) }
{
    chip.keeps_limits();
    sending_is_harmless();
    unnamed_places_agree();
    let mut place = Place { page: 0, before: 0 };
    let mut done = 0;
    while let Some(block) = next_block(chip, image, done, place) {
        let found = compare_block(rig, chip, image, block.address, block.size)?;
        if found.is_some() {
            return Ok(found);
        }
        place = block.place;
        done = block.address - chip.base() + block.size;
    }
    Ok(None)
}
