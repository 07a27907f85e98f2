// What a device owes after a done list.
ghost use Rattle.std.specs.Prelude.{◌≡◌, ◌+◌, ◌≤◌, ◌∷◌, [], ◌++◌, if◌then◌else◌, OnOk, length};
ghost use Rattle.stm_wire.specs.Chip.{flash_size};
ghost use Rattle.stm_wire.specs.Reply.{ack, step_reply, commands_answer, id_answer};
ghost use Rattle.stm_watch.specs.Known.{told, told_of_read, count_read, count_of_read};
ghost use Rattle.stm_watch.specs.Known.{place_read, place_of_read, sight_after};

use crate::sight::Sight;
use std::alloc::AllocError;
use stm_wire::{Chip, asks_unique, fits_inside, kib_bytes};

/// Whether an open list ends a step that is acknowledged.
pub fn step_ends(bytes: &[u8]) -> bool
    ensures { step_reply bytes.now ≡ (if result then ack ∷ [] else []) }
{
    match bytes {
        [_, _] => true,
        [code, _, _, _, _, _, _] => *code == 0x11 || *code == 0x31,
        _ => false,
    }
}

/// Where a done list leaves the device.
pub fn sight_after(bytes: &[u8]) -> Sight
    ensures { result ≡ sight_after bytes.now }
{
    match bytes {
        [0x21, ..] => Sight::Left,
        _ => Sight::Follows,
    }
}

fn count_of_read(chip: &Chip, bytes: &[u8]) -> usize
    ensures { result ≡ count_of_read chip.now bytes.now }
{
    if let [a, b, c, d, _, n, ..] = bytes {
        let address = u32::from_be_bytes([*a, *b, *c, *d]);
        let n = u16::from(*n) + 1;
        if fits_inside(chip, address, n) {
            return usize::from(n);
        }
    }
    0
}

/// How many bytes of the flash a done list brings.
#[tactic(auto, using(crate::proofs::Keeping::inside_read))]
pub fn count_read(chip: &Chip, bytes: &[u8]) -> usize
    ensures count { result ≡ count_read chip.now bytes.now }
    ensures inside { 1 ≤ result → place_read chip.now bytes.now + result ≤ flash_size chip.now }
{
    match bytes {
        [0x11, _, rest @ ..] => count_of_read(chip, rest),
        _ => 0,
    }
}

fn place_of_read(chip: &Chip, bytes: &[u8]) -> usize
    ensures { result ≡ place_of_read chip.now bytes.now }
{
    match bytes {
        [a, b, c, d, ..] => {
            let address = u32::from_be_bytes([*a, *b, *c, *d]);
            address.saturating_sub(chip.base()) as usize
        }
        _ => 0,
    }
}

/// From which place on.
pub fn place_read(chip: &Chip, bytes: &[u8]) -> usize
    ensures { result ≡ place_read chip.now bytes.now }
{
    match bytes {
        [_, _, rest @ ..] => place_of_read(chip, rest),
        _ => 0,
    }
}

/// Adds the answer to a Get: how many codes, the version, the codes.
fn tell_codes(due: &mut Vec<u8>, version: u8, codes: &[u8]) -> Result<(), AllocError>
    requires { length codes.now ≤ 255 }
    ensures { OnOk result (due.new.items ≡ due.old.items ++ commands_answer version codes.now) }
{
    due.extend_from_slice(&[codes.len() as u8, version])?;
    due.extend_from_slice(codes)?;
    due.extend_from_slice(&[0x79])
}

/// Adds the answer to a Get ID: one less than how many bytes, and the two bytes.
fn tell_id(due: &mut Vec<u8>, chip: &Chip) -> Result<(), AllocError>
    ensures { OnOk result (due.new.items ≡ due.old.items ++ id_answer chip.now) }
{
    let [high, low] = chip.id().to_be_bytes();
    due.extend_from_slice(&[1, high, low, 0x79])
}

/// Adds what a Read Memory brings that is no byte of the flash.
fn tell_read(due: &mut Vec<u8>, chip: &Chip, bytes: &[u8]) -> Result<(), AllocError>
    ensures { OnOk result (due.new.items ≡ due.old.items ++ told_of_read chip.now bytes.now) }
{
    if let [a, b, c, d, _, n, ..] = bytes {
        let address = u32::from_be_bytes([*a, *b, *c, *d]);
        let n = u16::from(*n) + 1;
        if fits_inside(chip, address, n) {
            return Ok(());
        }
        if asks_unique(chip, address, n) {
            return due.extend_from_slice(chip.unique().as_bytes());
        }
        return due.extend_from_slice(&kib_bytes(chip));
    }
    Ok(())
}

/// Adds what is owed after a done list, but for the bytes of the flash that it brings.
pub fn tell(
    due: &mut Vec<u8>,
    chip: &Chip,
    version: u8,
    codes: &[u8],
    bytes: &[u8],
) -> Result<(), AllocError>
    requires { length codes.now ≤ 255 }
    ensures { OnOk result
        (due.new.items ≡ due.old.items ++ ack ∷ told chip.now version codes.now bytes.now) }
{
    due.push(0x79)?;
    match bytes {
        [0x00, _, ..] => tell_codes(due, version, codes),
        [0x02, _, ..] => tell_id(due, chip),
        [0x11, _, rest @ ..] => tell_read(due, chip, rest),
        _ => Ok(()),
    }
}
