// How a session reaches a device: whatever it was sent before is ended, and it is asked who it is.
ghost use Rattle.std.specs.Prelude.{◌≡◌, ◌<◌, ⊤, Bool, ℕ, List, ◌∷◌, [], IfErr, IfOk, OnOk, length};
ghost use Rattle.stm_wire.specs.Device.{IsSettled};
ghost use Rattle.stm_wire.specs.Dialogue.{GoesOn};
ghost use Rattle.stm_wire.specs.Frames.{get_turns};
ghost use Rattle.stm_wire.specs.Settling.{PutsPart, SettlesWithin};
ghost use Rattle.stm_wire.specs.SettlingCalls.{EndsSettled, IsConnected};
ghost use Rattle.stm_session.specs.Unwritten.{AppendsNothing};
ghost use Rattle.stm_session.specs.Fault.{HasSessionCause, IsOfLine};
ghost use Rattle.stm_session.specs.Fresh.{IsReset};
ghost use Rattle.stm_session.specs.Asking.{Asks};
ghost use Rattle.stm_session.specs.Moments.{BeginsNothing, IsSafe};
ghost use Rattle.stm_session.specs.Opening.{AreCommandsOf, TellsItself};
ghost use Rattle.stm_session.specs.Order.{Begin, IsInOrder, Sends, FaultEnds};
ghost use Rattle.stm_session.specs.Reaching.{AsksInOrder, IsAsking, IsGet, IsGetId, id_turns};

use crate::Fault;
use crate::laws::a_ready_device_can_begin;
use stm_wire::{
    Commands, Rig, connect, get_commands, get_id, pages_are_the_flash, sending_is_harmless, settle,
};

/// The byte that connects a fresh device (AN3155, section 2), and that ends what was begun where no
/// page is to be erased or written.
const CONNECT: u8 = 0x7F;

/// How often it is sent at most: more often than any list of bytes is long that a device waits for.
const SETTLING_LIMIT: u32 = 131_072;

/// Settles a device with 7F, which is known to do it no harm.
pub fn settle_safe<R: Rig>(rig: &mut R) -> Result<(), Fault>
    ensures cause { let old = R.view rig.old in let new = R.view rig.new in
        HasSessionCause old new result }
    ensures calls { let old = R.view rig.old in let new = R.view rig.new in
        GoesOn (SettlesWithin 0x7F 131072) old.calls new.calls }
    ensures settled { let old = R.view rig.old in let new = R.view rig.new in
        OnOk result (GoesOn (EndsSettled 0x7F 131072) old.calls new.calls) }
    ensures sent { IfErr result IsOfLine }
    ensures kept { let old = R.view rig.old in let new = R.view rig.new in
        old.is_honest → new.journal ≡ old.journal }
    ensures honest { let old = R.view rig.old in let new = R.view rig.new in
        old.is_honest → IsSafe old.device → BeginsNothing old new result (λ _. ⊤) }
{
    pages_are_the_flash();
    settle(rig, CONNECT, SETTLING_LIMIT)?;
    Ok(())
}

/// Connects a device that was reset, with one 7F.
pub fn connect_fresh<R: Rig>(rig: &mut R) -> Result<(), Fault>
    ensures cause { let old = R.view rig.old in let new = R.view rig.new in
        HasSessionCause old new result }
    ensures calls { let old = R.view rig.old in let new = R.view rig.new in
        GoesOn (PutsPart (0x7F ∷ []) 4099) old.calls new.calls }
    ensures connected { let old = R.view rig.old in let new = R.view rig.new in
        OnOk result (GoesOn IsConnected old.calls new.calls) }
    ensures sent { IfErr result IsOfLine }
    ensures kept { let old = R.view rig.old in let new = R.view rig.new in
        old.is_honest → new.journal ≡ old.journal }
    ensures honest { let old = R.view rig.old in let new = R.view rig.new in
        old.is_honest → IsReset old.device → BeginsNothing old new result (λ _. ⊤) }
{
    pages_are_the_flash();
    a_ready_device_can_begin();
    connect(rig)?;
    Ok(())
}

/// Asks a settled device for its commands.
pub fn ask_commands<R: Rig>(rig: &mut R) -> Result<Commands, Fault>
    ensures unwritten { let old = R.view rig.old in let new = R.view rig.new in
        GoesOn AppendsNothing old.calls new.calls }
    ensures cause { let old = R.view rig.old in let new = R.view rig.new in
        HasSessionCause old new result }
    ensures order { let old = R.view rig.old in let new = R.view rig.new in
        (torn : Bool) → OnOk result ((version : ℕ) × (codes : List ℕ)
        × GoesOn (IsInOrder torn (Sends (get_turns version codes) ∷ [])) old.calls new.calls
        × (length codes < 256)) }
    ensures stops { let old = R.view rig.old in let new = R.view rig.new in
        (torn : Bool) → FaultEnds (Begin IsGet) torn old new result }
    ensures sent { IfErr result IsOfLine }
    ensures kept { let old = R.view rig.old in let new = R.view rig.new in
        old.is_honest → new.journal ≡ old.journal }
    ensures honest { let old = R.view rig.old in let new = R.view rig.new in
        old.is_honest → IsSettled old.device → Asks old new result (AreCommandsOf old.device) }
{
    sending_is_harmless();
    let commands = get_commands(rig)?;
    Ok(commands)
}

/// Asks a settled device for its product id.
pub fn ask_id<R: Rig>(rig: &mut R) -> Result<u16, Fault>
    ensures unwritten { let old = R.view rig.old in let new = R.view rig.new in
        GoesOn AppendsNothing old.calls new.calls }
    ensures cause { let old = R.view rig.old in let new = R.view rig.new in
        HasSessionCause old new result }
    ensures order { let old = R.view rig.old in let new = R.view rig.new in
        (torn : Bool) → IfOk result (λ id. let steps = Sends (id_turns id) ∷ [] in
        GoesOn (IsInOrder torn steps) old.calls new.calls) }
    ensures stops { let old = R.view rig.old in let new = R.view rig.new in
        (torn : Bool) → FaultEnds (Begin IsGetId) torn old new result }
    ensures sent { IfErr result IsOfLine }
    ensures kept { let old = R.view rig.old in let new = R.view rig.new in
        old.is_honest → new.journal ≡ old.journal }
    ensures honest { let old = R.view rig.old in let new = R.view rig.new in
        old.is_honest → IsSettled old.device
        → Asks old new result (λ id. id ≡ old.device.chip.id) }
{
    sending_is_harmless();
    let id = get_id(rig)?;
    Ok(id)
}

/// What a device tells of itself.
#[derive(Clone, Copy)]
pub struct Told {
    pub commands: Commands,
    pub id: u16,
}

/// Asks a settled device for its commands, and for its product id.
pub fn ask<R: Rig>(rig: &mut R) -> Result<Told, Fault>
    ensures unwritten { let old = R.view rig.old in let new = R.view rig.new in
        GoesOn AppendsNothing old.calls new.calls }
    ensures cause { let old = R.view rig.old in let new = R.view rig.new in
        HasSessionCause old new result }
    ensures order { let old = R.view rig.old in let new = R.view rig.new in
        (torn : Bool) → IfOk result (λ told. AsksInOrder told.id torn old new) }
    ensures stops { let old = R.view rig.old in let new = R.view rig.new in
        (torn : Bool) → FaultEnds (Begin IsAsking) torn old new result }
    ensures sent { IfErr result IsOfLine }
    ensures kept { let old = R.view rig.old in let new = R.view rig.new in
        old.is_honest → new.journal ≡ old.journal }
    ensures honest { let old = R.view rig.old in let new = R.view rig.new in
        old.is_honest → IsSettled old.device → Asks old new result (TellsItself old.device) }
{
    let commands = ask_commands(rig)?;
    let id = ask_id(rig)?;
    Ok(Told { commands, id })
}
