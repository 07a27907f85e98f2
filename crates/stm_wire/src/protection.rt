// Write Unprotect, Readout Protect and Readout Unprotect (AN3155, sections 3.10 to 3.12): codes
// 0x73, 0x82 and 0x92.
ghost use Rattle.std.specs.Prelude.{◌≡◌, OnOk, IfErr};
ghost use Rattle.stm_wire.specs.Sending.{IsHeldToEnd, BreaksOff};
ghost use Rattle.stm_wire.specs.Frames.{command, protect_turns};
ghost use Rattle.stm_wire.specs.Command.{CanProtect, IsOkOrLine};
ghost use Rattle.stm_wire.specs.Protection.{protection_code};

use crate::dialogue::{ACK, expect_byte, send_step};
use crate::{Rig, WireFault};

/// A change of a chip's protection. Each resets the device, and the end of the readout protection
/// erases its flash.
#[derive(Clone, Copy, Debug, PartialEq, Eq)]
pub enum Protection {
    /// Every page may be written again (0x73).
    WriteUnprotect,
    /// The flash can no longer be read (0x82).
    ReadoutProtect,
    /// The flash can be read again, and is erased (0x92).
    ReadoutUnprotect,
}

impl Protection {
    /// The code of the command.
    fn code(self) -> u8
        ensures { result ≡ protection_code self }
    {
        match self {
            Protection::WriteUnprotect => 0x73,
            Protection::ReadoutProtect => 0x82,
            Protection::ReadoutUnprotect => 0x92,
        }
    }
}

/// Changes a protection. The device acknowledges the code, and once more when it is done.
///
/// On an honest Rig whose device is settled and lists the code, no fault but `Line` is answered.
/// Nothing is promised of the flash and of the device's state afterwards.
pub fn protect<R: Rig>(rig: &mut R, kind: Protection) -> Result<(), WireFault>
    ensures held { OnOk result
        (IsHeldToEnd (command (protection_code kind)) (protect_turns (protection_code kind))
        (R.view rig.old) (R.view rig.new)) }
    ensures broken { IfErr result
        (λ fault. BreaksOff fault (command (protection_code kind))
        (protect_turns (protection_code kind)) (R.view rig.old) (R.view rig.new)) }
    ensures honest { (R.view rig.old).is_honest
        → CanProtect (protection_code kind) (R.view rig.old).device → IsOkOrLine result }
{
    let code = kind.code();
    send_step(rig, &[code, !code])?;
    expect_byte(rig, ACK)
}
