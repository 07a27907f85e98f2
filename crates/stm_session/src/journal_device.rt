// How an undo reaches its device: whatever it was sent before is ended, and it is asked
// whether it is the journal's.
ghost use Rattle.std.specs.Prelude.{◌≡◌, ◌<◌, ◌≤◌, [], List, ℕ, ⊤, Bool, ◌∷◌, length, None, OnOk, IfOk};
ghost use Rattle.std.specs.Prelude.{IfSome};
ghost use Rattle.stm_wire.specs.Device.{IsSettled};
ghost use Rattle.stm_wire.specs.Dialogue.{GoesOn};
ghost use Rattle.stm_wire.specs.Frames.{get_turns};
ghost use Rattle.stm_wire.specs.Harmless.{Harmless};
ghost use Rattle.stm_wire.specs.Parts.{IsSession};
ghost use Rattle.stm_journal.specs.Journals.{IsLoaded};
ghost use Rattle.stm_journal.specs.States.{intent_of};
ghost use Rattle.stm_session.specs.Asking.{Asks};
ghost use Rattle.stm_session.specs.Fault.{HasSessionCause, IsLaterRefusal, cause_of};
ghost use Rattle.stm_session.specs.Fresh.{byte_of, limit_of, settling_way};
ghost use Rattle.stm_session.specs.JournalDevice.{Meets};
ghost use Rattle.stm_session.specs.Refusals.{can_erase, undo_misfit};
ghost use Rattle.stm_session.specs.Order.{Begin, IsInOrder, Sends, FaultEnds, StopsBy};
ghost use Rattle.stm_session.specs.Reaching.{AsksInOrder, IsAsking, IsGet, ReachesInOrder};
ghost use Rattle.stm_session.specs.Reaching.{StopsShort};
ghost use Rattle.stm_session.specs.Sending.{is_whole, most_of_reaching};
ghost use Rattle.stm_session.specs.Steps.{Goes};
ghost use Rattle.stm_session.specs.Undoable.{Undoable};
ghost use Rattle.stm_session.specs.Undoes.{IsWithinLimit, byte_at_journal, risked_at};

use crate::Fault;
use crate::contact::{ask_commands, ask_id};
use crate::laws_of_steps::step_laws;
use crate::listing::lists_erase;
use crate::settling::settle_intended;
use stm_journal::Journal;
use stm_wire::{Chip, Rig};

/// Asks a settled device whether it lists the command by which the chip's pages are erased.
fn ask_erase<R: Rig>(rig: &mut R, chip: &Chip) -> Result<bool, Fault>
    ensures cause { HasSessionCause (R.view rig.old) (R.view rig.new) result }
    ensures order { let old = R.view rig.old in let new = R.view rig.new in
        (torn : Bool) → OnOk result ((version : ℕ) × (codes : List ℕ)
        × GoesOn (IsInOrder torn (Sends (get_turns version codes) ∷ [])) old.calls new.calls
        × (length codes < 256)) }
    ensures stops { let old = R.view rig.old in let new = R.view rig.new in
        (torn : Bool) → FaultEnds (Begin IsGet) torn old new result }
    ensures honest { let old = R.view rig.old in let new = R.view rig.new in
        old.is_honest → IsSettled old.device
        → Asks old new result (λ can. can ≡ can_erase chip.now old.device) }
{
    let commands = ask_commands(rig)?;
    Ok(lists_erase(chip, &commands))
}

/// Asks a settled device whether it is this chip, and what is refused where it isn't.
fn ask_misfit<R: Rig>(rig: &mut R, chip: &Chip) -> Result<Option<Fault>, Fault>
    ensures cause { HasSessionCause (R.view rig.old) (R.view rig.new) result }
    ensures named { IfOk result (λ misfit. IfSome misfit IsLaterRefusal) }
    ensures order { let old = R.view rig.old in let new = R.view rig.new in
        (torn : Bool) → IfOk result (λ misfit. misfit ≡ None
        → AsksInOrder chip.now.id torn old new) }
    ensures stops { let old = R.view rig.old in let new = R.view rig.new in
        (torn : Bool) → FaultEnds (Begin IsAsking) torn old new result }
    ensures refuses { let old = R.view rig.old in let new = R.view rig.new in
        (torn : Bool) → IfOk result (λ misfit. IfSome misfit
        (λ fault. StopsBy (Begin IsAsking) (cause_of fault) torn old new)) }
    ensures honest { let old = R.view rig.old in let new = R.view rig.new in
        old.is_honest → IsSettled old.device
        → Asks old new result (λ misfit. misfit ≡ undo_misfit chip.now chip.now.id old.device) }
{
    let can_erase = ask_erase(rig, chip)?;
    if !can_erase {
        return Ok(Some(Fault::NoErase));
    }
    let id = ask_id(rig)?;
    if id != chip.id() {
        return Ok(Some(Fault::OtherDevice));
    }
    Ok(None)
}

/// Settles the device by the journal's intent, and asks whether it is the journal's chip.
pub fn meet<R: Rig>(rig: &mut R, journal: &Journal, chip: &Chip) -> Result<(), Fault>
    ensures cause { HasSessionCause (R.view rig.old) (R.view rig.new) result }
    ensures puts { let old = R.view rig.old in let new = R.view rig.new in
        let way = settling_way chip.now.kind journal.now.is_greeted (intent_of journal.now.state) in
        GoesOn (IsSession None (byte_of way) (limit_of way) (is_whole result)
        (most_of_reaching (limit_of way))) old.calls new.calls }
    ensures order { let old = R.view rig.old in let new = R.view rig.new in
        let way = settling_way chip.now.kind journal.now.is_greeted (intent_of journal.now.state) in
        (torn : Bool) → OnOk result (ReachesInOrder way chip.now.id torn old new) }
    ensures stops { let old = R.view rig.old in let new = R.view rig.new in
        let way = settling_way chip.now.kind journal.now.is_greeted (intent_of journal.now.state) in
        (torn : Bool) → StopsShort way torn old new result }
    ensures honest { let old = R.view rig.old in let new = R.view rig.new in
        old.is_honest → (flashes : List (List ℕ))
        → IsLoaded journal.now old.journal
        → Undoable flashes old.device old.journal → old.device.chip ≡ chip.now
        → Goes flashes [] journal.now old new result (λ _. ⊤) }
    ensures elsewhere { let old = R.view rig.old in let new = R.view rig.new in
        old.is_honest → IsLoaded journal.now old.journal
        → Harmless old.device (byte_at_journal old.journal) (risked_at old.journal)
        → length old.device.owed ≤ 4096 → IsWithinLimit chip.now old
        → Meets chip.now old new result }
{
    step_laws();
    settle_intended(rig, journal, chip)?;
    let misfit = ask_misfit(rig, chip)?;
    match misfit {
        Some(fault) => Err(fault),
        None => Ok(()),
    }
}
