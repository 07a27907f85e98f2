// A greeting: 7F once, ahead of the settling bytes of a stopped host's device.
ghost use Rattle.std.specs.Prelude.{◌≡◌, ◌≤◌, List, [], ◌∷◌, ℕ, Option, length, OnOk, IfErr};
ghost use Rattle.stm_wire.specs.declared.intent.Intent.{Intent};
ghost use Rattle.stm_wire.specs.Command.{with_rest};
ghost use Rattle.stm_wire.specs.Device.{Fresh};
ghost use Rattle.stm_wire.specs.Greeting.{Greets, MayBeGreeted};
ghost use Rattle.stm_wire.specs.Settling.{Speaks};
ghost use Rattle.stm_wire.specs.SettlingCalls.{FailsAs, Floods, Never};

use crate::draining::drain;
use crate::settling::CONNECT;
use crate::{Patience, Rig, WireFault};

/// Sends 7F once, between two drainings. What comes for it comes at once, or not at all: a device that
/// was stopped elsewhere owes it nothing, so that no get waits long.
///
/// A device that is fresh from reset is connected by it. One that a stopped host left, and that may
/// be greeted, stays harmless for the intent's byte, at each moment; but it may await more of them.
///
/// # Errors
/// `Line` where a call of the Rig failed, `Garbled` where more bytes are owed than are taken.
pub fn greet<R: Rig>(rig: &mut R) -> Result<(), WireFault>
    ensures speaks { Speaks (0x7F ∷ []) 8196 result (R.view rig.old) (R.view rig.new) }
    ensures brief { (R.view rig.new).long_gets ≡ (R.view rig.old).long_gets }
    ensures fails { IfErr result
        (FailsAs Never Floods (R.view rig.old).calls (R.view rig.new).calls) }
    ensures honest { let old = R.view rig.old in let new = R.view rig.new in
        old.is_honest → (intent : Option Intent) (pages : List ℕ)
        → MayBeGreeted old.device intent pages → length old.device.owed ≤ 4096
        → Greets intent pages result old new }
    ensures fresh { let old = R.view rig.old in let new = R.view rig.new in
        old.is_honest → old.device.phase ≡ Fresh
        → OnOk result (new.device ≡ with_rest [] old.device) }
{
    drain(rig)?;
    rig.put(CONNECT)?;
    rig.get(Patience::Brief)?;
    drain(rig)?;
    Ok(())
}
