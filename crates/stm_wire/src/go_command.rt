// Go (AN3155, section 3.5): code 0x21 and an address, where the device leaves the bootloader.
ghost use Rattle.std.specs.Prelude.{◌≡◌, OnOk, IfErr};
ghost use Rattle.stm_wire.specs.Device.{Gone};
ghost use Rattle.stm_wire.specs.Sending.{IsHeldToEnd, BreaksOff};
ghost use Rattle.stm_wire.specs.Frames.{go_frame, go_turns};
ghost use Rattle.stm_wire.specs.Command.{CanGo, Does};

use crate::dialogue::{address_step, send_step};
use crate::{Rig, WireFault};

/// The code of the command.
const GO: u8 = 0x21;

/// Lets the device run what stands at an address.
///
/// On an honest Rig whose device is settled, lists the code and has the address inside its flash,
/// the device is gone from the bootloader, and no fault but `Line` is answered. Nothing is promised
/// of the flash afterwards.
pub fn go<R: Rig>(rig: &mut R, address: u32) -> Result<(), WireFault>
    ensures held { OnOk result
        (IsHeldToEnd (go_frame address) (go_turns address) (R.view rig.old) (R.view rig.new)) }
    ensures broken { IfErr result
        (λ fault. BreaksOff fault (go_frame address) (go_turns address)
        (R.view rig.old) (R.view rig.new)) }
    ensures honest { (R.view rig.old).is_honest → CanGo address (R.view rig.old).device
        → Does result (λ _. (R.view rig.new).device.phase ≡ Gone) }
{
    send_step(rig, &[GO, !GO])?;
    send_step(rig, &address_step(address))
}
