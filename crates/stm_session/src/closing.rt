// Asking a settled device behind the last frame whether it is still the board that was asked first.
ghost use Rattle.std.specs.Prelude.{◌≡◌, ◌⊎◌, ⊤, Bool, IfErr, OnOk, is_some};
ghost use Rattle.stm_wire.specs.Device.{IsSettled};
ghost use Rattle.stm_wire.specs.Dialogue.{GoesOn};
ghost use Rattle.stm_session.specs.Asking.{Asks};
ghost use Rattle.stm_session.specs.Closing.{IsLookedAgain, closing};
ghost use Rattle.stm_session.specs.Fault.{HasSessionCause, IsOfLine};
ghost use Rattle.stm_session.specs.Order.{Begin, IsInOrder, FaultEnds};
ghost use Rattle.stm_session.specs.Reaching.{confirmed_at};

use crate::Fault;
use crate::confirming::{confirm, confirmed_at};
use crate::contact::ask_id;
use stm_wire::{Chip, Rig, sending_is_harmless};

/// Whether a device of this chip is asked: where it told its unique id before.
fn is_asked(chip: &Chip) -> bool
    ensures { result ≡ is_some (confirmed_at chip.now) }
{
    confirmed_at(chip).is_some()
}

/// Asks a settled device for its number and its unique id once more, where the chip has one: a device
/// that tells another, or refuses to, isn't the one that was asked first.
pub fn look_again<R: Rig>(rig: &mut R, chip: &Chip) -> Result<(), Fault>
    ensures cause { HasSessionCause (R.view rig.old) (R.view rig.new) result }
    ensures order { let old = R.view rig.old in let new = R.view rig.new in
        (torn : Bool) → OnOk result
        (GoesOn (IsInOrder torn (closing chip.now)) old.calls new.calls) }
    ensures stops { let old = R.view rig.old in let new = R.view rig.new in
        (torn : Bool)
        → FaultEnds (Begin (IsLookedAgain (confirmed_at chip.now))) torn old new result }
    ensures named { IfErr result (λ fault. IsOfLine fault ⊎ (fault ≡ Fault.BoardChanged)) }
    ensures honest { let old = R.view rig.old in let new = R.view rig.new in
        old.is_honest → IsSettled old.device → old.device.chip ≡ chip.now
        → Asks old new result (λ _. ⊤) }
{
    sending_is_harmless();
    if !is_asked(chip) {
        return Ok(());
    }
    let id = ask_id(rig)?;
    if id != chip.id() {
        return Err(Fault::BoardChanged);
    }
    confirm(rig, chip)
}
