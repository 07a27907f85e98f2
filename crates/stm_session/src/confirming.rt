// Asking a settled device once more for its unique id, where it told one before its session.
ghost use Rattle.std.specs.Prelude.{◌≡◌, ◌⊎◌, ⊤, Bool, ◌&&◌, true, Some, IfErr, IfOk, IfSome};
ghost use Rattle.std.specs.Prelude.{IsTrue, OnOk, bytes_eq};
ghost use Rattle.stm_wire.specs.Device.{IsSettled};
ghost use Rattle.stm_wire.specs.Dialogue.{GoesOn};
ghost use Rattle.stm_wire.specs.UniqueId.{is_unique_length};
ghost use Rattle.stm_session.specs.Asking.{Asks};
ghost use Rattle.stm_session.specs.Confirming.{HasAgain, TellsAgain};
ghost use Rattle.stm_session.specs.Fault.{HasSessionCause, IsOfLine};
ghost use Rattle.stm_session.specs.Order.{Begin, IsInOrder, FaultEnds};
ghost use Rattle.stm_session.specs.Reaching.{IsConfirming, confirmed_at, confirming};
ghost use Rattle.stm_session.specs.Sending.{PutsAtMost, most_of_confirming};

use crate::Fault;
use crate::asking_board::ask_place;
use stm_wire::{Chip, Rig, UniquePlace, sending_is_harmless};

/// Where a device of this chip is asked once more for its unique id: where it told one before.
pub fn confirmed_at(chip: &Chip) -> Option<UniquePlace>
    ensures place { result ≡ confirmed_at chip.now }
    ensures length { IfSome result (λ place. IsTrue (is_unique_length place.length)) }
{
    chip.keeps_limits();
    let Some(place) = chip.places().unique else {
        return None;
    };
    let unique = chip.unique();
    if unique.as_bytes().len() == usize::from(place.length) {
        Some(place)
    } else {
        None
    }
}

/// Whether these bytes came, and are those of the chip's unique id.
fn are_of(is_told: bool, bytes: &[u8], chip: &Chip) -> bool
    ensures { result ≡ (is_told && bytes_eq bytes.now chip.now.unique) }
{
    let unique = chip.unique();
    is_told && bytes == unique.as_bytes()
}

/// Whether a settled device tells just the chip's unique id at this place. A device that refuses to
/// be read there doesn't.
fn is_told_again<R: Rig>(rig: &mut R, place: UniquePlace, chip: &Chip) -> Result<bool, Fault>
    requires { IsTrue (is_unique_length place.length) }
    ensures cause { let old = R.view rig.old in let new = R.view rig.new in
        HasSessionCause old new result }
    ensures puts { let old = R.view rig.old in let new = R.view rig.new in
        chip.now.places.unique ≡ Some place
        → PutsAtMost chip.now most_of_confirming old new result }
    ensures order { let old = R.view rig.old in let new = R.view rig.new in
        (torn : Bool) → IfOk result
        (λ same. TellsAgain same place chip.now.unique torn old new) }
    ensures stops { let old = R.view rig.old in let new = R.view rig.new in
        (torn : Bool) → FaultEnds (Begin (IsConfirming (Some place))) torn old new result }
    ensures sent { IfErr result IsOfLine }
    ensures honest { let old = R.view rig.old in let new = R.view rig.new in
        old.is_honest → IsSettled old.device → Asks old new result
        (λ same. HasAgain place chip.now.unique old.device.chip → same ≡ true) }
{
    let mut held = [0u8; 32];
    let bytes = &mut held[..usize::from(place.length)];
    let is_told = ask_place(rig, place.address, bytes)?;
    Ok(are_of(is_told, bytes, chip))
}

/// Asks a settled device once more for its unique id, where the chip has one: a device that tells
/// another one, or refuses to, isn't the one that was asked before.
pub fn confirm<R: Rig>(rig: &mut R, chip: &Chip) -> Result<(), Fault>
    ensures cause { let old = R.view rig.old in let new = R.view rig.new in
        HasSessionCause old new result }
    ensures puts { PutsAtMost chip.now most_of_confirming (R.view rig.old) (R.view rig.new) result }
    ensures order { let old = R.view rig.old in let new = R.view rig.new in
        (torn : Bool) → OnOk result
        (GoesOn (IsInOrder torn (confirming chip.now)) old.calls new.calls) }
    ensures stops { let old = R.view rig.old in let new = R.view rig.new in
        (torn : Bool) → FaultEnds (Begin (IsConfirming (confirmed_at chip.now))) torn old new result }
    ensures named { IfErr result (λ fault. IsOfLine fault ⊎ (fault ≡ Fault.BoardChanged)) }
    ensures honest { let old = R.view rig.old in let new = R.view rig.new in
        old.is_honest → IsSettled old.device → old.device.chip ≡ chip.now
        → Asks old new result (λ _. ⊤) }
{
    sending_is_harmless();
    let Some(place) = confirmed_at(chip) else {
        return Ok(());
    };
    let is_same = is_told_again(rig, place, chip)?;
    if is_same {
        Ok(())
    } else {
        Err(Fault::BoardChanged)
    }
}
