// Bringing a simulator to where it stood, by the bytes that a host would send.
ghost use Rattle.std.specs.Prelude.{◌≡◌, ℕ, [], List, IfOk, IsTrue, OnOk, length};
ghost use Rattle.stm_wire.specs.Device.{Connected, Fresh, Gone, IsSettled};
ghost use Rattle.stm_files.specs.SimulatorFile.{Becomes, fed_byte, standing_at};
ghost use Rattle.stm_files.specs.Standing.{standing_phase};

use crate::standing::Standing;
use std::alloc::AllocError;
use stm_sim::MemoryRig;
use stm_wire::{Patience, Rig};

/// The byte that connects a device.
const CONNECT: u8 = 0x7F;

/// The code of Go (AN3155, section 3.5).
const GO: u8 = 0x21;

/// Takes the bytes that the simulator owes.
fn take_replies(rig: &mut MemoryRig) -> Result<(), AllocError>
    ensures { OnOk result (Becomes (record rig.old.device { owed = [] }) rig.old rig.new) }
{
    for _ in 0..u64::MAX {
        match rig.get(Patience::Brief) {
            Ok(Some(_)) => {}
            Ok(None) => return Ok(()),
            Err(_) => return Err(AllocError),
        }
    }
    Err(AllocError)
}

/// Feeds a byte to the simulator, and takes its replies.
fn feed(rig: &mut MemoryRig, byte: u8) -> Result<(), AllocError>
    ensures { OnOk result (Becomes (fed_byte byte rig.old.device) rig.old rig.new) }
{
    match rig.put(byte) {
        Ok(()) => take_replies(rig),
        Err(_) => Err(AllocError),
    }
}

/// Whether the simulator is connected, with a rest of this many bytes.
fn has_rest(rig: &MemoryRig, size: usize) -> bool
    ensures { IsTrue result
        → (rest : List ℕ) × (rig.now.device.phase ≡ Connected rest) × (length rest ≡ size) }
{
    match rig.rest() {
        Some(rest) => rest.len() == size,
        None => false,
    }
}

/// Feeds bytes to a simulator that waits for a command. They have to stay in its rest: false where
/// one of them ended a list.
fn lengthen(rig: &mut MemoryRig, bytes: &[u8]) -> Result<bool, AllocError>
    requires { IsSettled rig.old.device }
    ensures { IfOk result (λ stays. IsTrue stays
        → Becomes (standing_at (Connected bytes.now) rig.old.device) rig.old rig.new) }
{
    let mut size = 0;
    for byte in bytes {
        feed(rig, *byte)?;
        size += 1;
        if !has_rest(rig, size) {
            return Ok(false);
        }
    }
    Ok(true)
}

/// Lets a simulator that waits for a command leave the bootloader, for its flash's first byte.
fn leave(rig: &mut MemoryRig, base: u32) -> Result<bool, AllocError>
    requires { IsSettled rig.old.device }
    ensures { IfOk result
        (λ left. IsTrue left → Becomes (standing_at Gone rig.old.device) rig.old rig.new) }
{
    let [a, b, c, d] = base.to_be_bytes();
    if !lengthen(rig, &[GO, !GO, a, b, c, d])? {
        return Ok(false);
    }
    feed(rig, a ^ b ^ c ^ d)?;
    Ok(rig.is_gone())
}

/// Brings a fresh simulator, whose flash begins at this base, to where it stood. False where the
/// bytes of its rest don't all stay there, so that no device stands so.
pub fn stand(rig: &mut MemoryRig, standing: &Standing, base: u32) -> Result<bool, AllocError>
    requires fresh { rig.old.device.phase ≡ Fresh }
    requires owes_nothing { rig.old.device.owed ≡ [] }
    ensures { IfOk result (λ stands. IsTrue stands
        → Becomes (standing_at (standing_phase standing.now) rig.old.device) rig.old rig.new) }
{
    match standing {
        Standing::Fresh => Ok(true),
        Standing::Connected(rest) => {
            feed(rig, CONNECT)?;
            lengthen(rig, rest)
        }
        Standing::Gone => {
            feed(rig, CONNECT)?;
            leave(rig, base)
        }
    }
}
