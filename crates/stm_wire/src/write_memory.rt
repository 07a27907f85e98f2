// Write Memory (AN3155, section 3.6): code 0x31, an address, a count, the bytes and their checksum.
ghost use Rattle.std.specs.Prelude.{◌≡◌, ◌≤◌, ◌+◌, ◌-◌, ◌%◌, ◌++◌, ◌∷◌, []};
ghost use Rattle.std.specs.Prelude.{ℕ, length, OnOk, IfErr, fold, bit_xor};
ghost use Rattle.stm_wire.specs.Exchange.{xor};
ghost use Rattle.stm_wire.specs.Device.{Fed};
ghost use Rattle.stm_wire.specs.Dialogue.{step_turns};
ghost use Rattle.stm_wire.specs.Sending.{IsHeldToEnd, BreaksOff};
ghost use Rattle.stm_wire.specs.Frames.{write_frame, write_turns, with_checksum};
ghost use Rattle.stm_wire.specs.Reply.{ack};
ghost use Rattle.stm_wire.specs.Command.{CanWrite, HasWritten, Does};
ghost use Rattle.stm_wire.specs.Command.{IsOkOrLine, LeavesFirst, owing};

use crate::dialogue::{put_all, send_address, send_step};
use crate::{Rig, WireFault};

/// The code of the command.
const WRITE_MEMORY: u8 = 0x31;

/// Writes 4 to 256 bytes, a multiple of 4, to flash from an address on.
///
/// On an honest Rig whose device is settled, and where the bytes lie inside the flash, each byte
/// over an erased one is stored as it was sent, a byte over another may become any, the rest of the
/// flash is the same, and no fault but `Line` is answered.
pub fn program<R: Rig>(rig: &mut R, address: u32, bytes: &[u8]) -> Result<(), WireFault>
    requires some { 4 ≤ length bytes.now }
    requires limit { length bytes.now ≤ 256 }
    requires words { length bytes.now % 4 ≡ 0 }
    ensures held { OnOk result
        (IsHeldToEnd (write_frame address bytes.now) (write_turns address bytes.now)
        (R.view rig.old) (R.view rig.new)) }
    ensures broken { IfErr result
        (λ fault. BreaksOff fault (write_frame address bytes.now) (write_turns address bytes.now)
        (R.view rig.old) (R.view rig.new)) }
    ensures honest { (R.view rig.old).is_honest
        → CanWrite address (length bytes.now) (R.view rig.old).device
        → Does result
        (λ _. HasWritten address bytes.now (R.view rig.old).device (R.view rig.new).device) }
{
    send_address(rig, WRITE_MEMORY, address)?;
    send_data(rig, bytes)
}

/// The exclusive-or of the count and the bytes.
fn data_checksum(count: u8, bytes: &[u8]) -> u8
    ensures { result ≡ xor (count ∷ bytes.now) }
{
    bytes.iter().fold(count, |check, byte| check ^ *byte)
}

/// Sends the count, the bytes and their checksum, and takes the acknowledgement.
fn send_data<R: Rig>(rig: &mut R, bytes: &[u8]) -> Result<(), WireFault>
    requires some { 1 ≤ length bytes.now }
    requires limit { length bytes.now ≤ 256 }
    ensures held { OnOk result
        (IsHeldToEnd (with_checksum ((length bytes.now - 1) ∷ bytes.now))
        (step_turns (with_checksum ((length bytes.now - 1) ∷ bytes.now)))
        (R.view rig.old) (R.view rig.new)) }
    ensures broken { IfErr result
        (λ fault. BreaksOff fault (with_checksum ((length bytes.now - 1) ∷ bytes.now))
        (step_turns (with_checksum ((length bytes.now - 1) ∷ bytes.now)))
        (R.view rig.old) (R.view rig.new)) }
    ensures acknowledged { (R.view rig.old).is_honest
        → OnOk result
        (Fed (with_checksum ((length bytes.now - 1) ∷ bytes.now)) (R.view rig.old).device
        (owing (ack ∷ []) (R.view rig.new).device)) }
    ensures line { (R.view rig.old).is_honest
        → LeavesFirst ack (with_checksum ((length bytes.now - 1) ∷ bytes.now))
        (R.view rig.old).device → IsOkOrLine result }
{
    let count = (bytes.len() - 1) as u8;
    put_all(rig, &[count])?;
    put_all(rig, bytes)?;
    send_step(rig, &[data_checksum(count, bytes)])
}
