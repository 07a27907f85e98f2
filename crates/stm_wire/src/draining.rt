// Taking what a device still owes.
ghost use Rattle.std.specs.Prelude.{◌≡◌, ◌≤◌, ℕ, List, length, OnOk, IfOk, IfErr, []};
ghost use Rattle.stm_wire.specs.Command.{IsOkOrLine};
ghost use Rattle.stm_wire.specs.Device.{Device};
ghost use Rattle.stm_wire.specs.Dialogue.{GoesOn};
ghost use Rattle.stm_wire.specs.Settling.{IsSettling, with_nothing_owed, KeepsSettling, Speaks};
ghost use Rattle.stm_wire.specs.SettlingCalls.{IsDrained, Floods, Never, FailsAs};

use crate::dialogue::NACK;
use crate::{Patience, Rig, WireFault};

/// Takes bytes until it is quiet, and answers whether one of them was NACK.
pub fn drain<R: Rig>(rig: &mut R) -> Result<bool, WireFault>
    ensures speaks { Speaks [] 4097 result (R.view rig.old) (R.view rig.new) }
    ensures brief { (R.view rig.new).long_gets ≡ (R.view rig.old).long_gets }
    ensures drained { IfOk result
        (λ seen. GoesOn (IsDrained seen) (R.view rig.old).calls (R.view rig.new).calls) }
    ensures fails { IfErr result
        (FailsAs Never Floods (R.view rig.old).calls (R.view rig.new).calls) }
    ensures keeps { (R.view rig.old).is_honest → (byte : ℕ) (pages : List ℕ) (start : Device)
        → IsSettling byte pages start (R.view rig.old).device
        → KeepsSettling byte pages start (R.view rig.old) (R.view rig.new) }
    ensures empty { (R.view rig.old).is_honest
        → OnOk result ((R.view rig.new).device ≡ with_nothing_owed (R.view rig.old).device) }
    ensures line { (R.view rig.old).is_honest
        → length (R.view rig.old).device.owed ≤ 4096 → IsOkOrLine result }
{
    let mut seen = false;
    for _taken in 0..4097_u32 {
        match rig.get(Patience::Brief)? {
            None => return Ok(seen),
            Some(byte) => seen = seen || byte == NACK,
        }
    }
    Err(WireFault::Garbled)
}
