// Read Memory (AN3155, section 3.4): code 0x11, an address, a count.
ghost use Rattle.std.specs.Prelude.{◌≡◌, ◌≤◌, ℕ, List, length, OnOk, IfErr};
ghost use Rattle.stm_wire.specs.Sending.{IsHeldToEnd, BreaksOff};
ghost use Rattle.stm_wire.specs.Frames.{read_frame, read_turns};
ghost use Rattle.stm_wire.specs.Command.{CanRead, HasRead, Does};

use crate::dialogue::{fill, send_address, send_step};
use crate::{Rig, WireFault};

/// The code of the command.
pub(crate) const READ_MEMORY: u8 = 0x11;

/// Reads 1 to 256 bytes of flash from an address into the buffer.
///
/// On an honest Rig whose device is settled, and where the bytes lie inside the flash, the buffer
/// holds them, the device is as it was, and no fault but `Line` is answered. After a fault the
/// buffer may hold anything.
pub fn read<R: Rig>(rig: &mut R, address: u32, buf: &mut [u8]) -> Result<(), WireFault>
    requires some { 1 ≤ length buf.old }
    requires limit { length buf.old ≤ 256 }
    ensures held { OnOk result
        (IsHeldToEnd (read_frame address (length buf.old)) (read_turns address buf.new)
        (R.view rig.old) (R.view rig.new)) }
    ensures broken { IfErr result
        (λ fault. (answer : List ℕ) × (length answer ≡ length buf.old)
        × BreaksOff fault (read_frame address (length buf.old)) (read_turns address answer)
        (R.view rig.old) (R.view rig.new)) }
    ensures honest { (R.view rig.old).is_honest
        → CanRead address (length buf.old) (R.view rig.old).device
        → Does result
        (λ _. HasRead address buf.new (R.view rig.old).device (R.view rig.new).device) }
{
    send_address(rig, READ_MEMORY, address)?;
    let count = (buf.len() - 1) as u8;
    send_step(rig, &[count, !count])?;
    fill(rig, buf)
}
