// Read Memory (AN3155, section 3.4) at a place that the device may refuse: not each bootloader
// reads what lies outside the flash.
ghost use Rattle.std.specs.Prelude.{◌≡◌, ◌≢◌, ◌≤◌, ◌∷◌, [], ℕ, List, length, IfOk, IfErr};
ghost use Rattle.stm_wire.specs.declared.fault.WireFault.TheVariants.{Nack};
ghost use Rattle.stm_wire.specs.Command.{IsOkOrLine, owing};
ghost use Rattle.stm_wire.specs.Device.{Fed, IsSettled};
ghost use Rattle.stm_wire.specs.Dialogue.{step_turns};
ghost use Rattle.stm_wire.specs.Frames.{read_frame, read_turns};
ghost use Rattle.stm_wire.specs.Refused.{AsksSafely, LeavesAnswer, ReadsOrIsRefused};
ghost use Rattle.stm_wire.specs.Refused.{RefusableReadsChangeNothing, answer_byte, answered_turns};
ghost use Rattle.stm_wire.specs.Sending.{IsHeldToEnd, BreaksOff};

use crate::dialogue::{ACK, NACK, address_step, fill, put_all, receive};
use crate::read_memory::READ_MEMORY;
use crate::{Rig, WireFault};

/// Sends a step of a command that may be refused, and takes the answer: whether it was
/// acknowledged.
fn send_refusable<R: Rig>(rig: &mut R, bytes: &[u8]) -> Result<bool, WireFault>
    ensures held { IfOk result (λ told.
        IsHeldToEnd bytes.now (answered_turns told bytes.now) (R.view rig.old) (R.view rig.new)) }
    ensures broken { IfErr result
        (λ fault. BreaksOff fault bytes.now (step_turns bytes.now)
        (R.view rig.old) (R.view rig.new)) }
    ensures unrefused { IfErr result (λ fault. fault ≢ Nack) }
    ensures answered { (R.view rig.old).is_honest → IfOk result (λ told.
        Fed bytes.now (R.view rig.old).device
        (owing (answer_byte told ∷ []) (R.view rig.new).device)) }
    ensures line { (R.view rig.old).is_honest → LeavesAnswer bytes.now (R.view rig.old).device
        → IsOkOrLine result }
{
    put_all(rig, bytes)?;
    match receive(rig)? {
        ACK => Ok(true),
        NACK => Ok(false),
        _ => Err(WireFault::Garbled),
    }
}

/// Reads 1 to 256 bytes from an address on into the buffer, unless the device refuses that:
/// whether it told them. Behind a refusal no more of the frame is sent, and the device waits for a
/// command.
///
/// On an honest Rig whose device is settled, the device is as it was, and no fault but `Line` is
/// answered; what it told is what its flash holds there, or, at a place that its chip has for that,
/// its unique id or the size of its flash, and it refuses to tell anything else. Where no bytes were
/// told the buffer may hold anything.
pub fn read_unless_refused<R: Rig>(
    rig: &mut R,
    address: u32,
    buf: &mut [u8],
) -> Result<bool, WireFault>
    requires some { 1 ≤ length buf.old }
    requires limit { length buf.old ≤ 256 }
    ensures held { IfOk result (ReadsOrIsRefused address (length buf.old) buf.new
        (R.view rig.old) (R.view rig.new)) }
    ensures broken { IfErr result
        (λ fault. (answer : List ℕ) × (length answer ≡ length buf.old)
        × BreaksOff fault (read_frame address (length buf.old)) (read_turns address answer)
        (R.view rig.old) (R.view rig.new)) }
    ensures unrefused { IfErr result (λ fault. fault ≢ Nack) }
    ensures size { length buf.new ≡ length buf.old }
    ensures honest { (R.view rig.old).is_honest → IsSettled (R.view rig.old).device
        → AsksSafely address (length buf.old) buf.new (R.view rig.old) (R.view rig.new) result }
{
    if !send_refusable(rig, &[READ_MEMORY, !READ_MEMORY])? {
        return Ok(false);
    }
    if !send_refusable(rig, &address_step(address))? {
        return Ok(false);
    }
    let count = (buf.len() - 1) as u8;
    if !send_refusable(rig, &[count, !count])? {
        return Ok(false);
    }
    fill(rig, buf)?;
    Ok(true)
}

/// A device that is sent a read which it may refuse may be stopped at any byte of it: its flash is
/// the same, and no byte is harmful.
pub fn refusable_reads_are_harmless()
    ensures { RefusableReadsChangeNothing }
{}
