// Ending the segment of a command, behind the question whether the board is still the chip's.
ghost use Rattle.std.specs.Prelude.{◌≡◌, ◌≢◌, ◌++◌, ◌∷◌, [], List, ℕ, length, OnOk, IsTrue, IfErr};
ghost use Rattle.stm_journal.specs.declared.entry.Entry.TheVariants.{Ends};
ghost use Rattle.stm_journal.specs.States.{newest_is_open};
ghost use Rattle.stm_journal.specs.Newest.{HasEnded};
ghost use Rattle.stm_session.specs.Closing.{IsClosedInPart, closing};
ghost use Rattle.stm_session.specs.Fault.{HasSessionCause};
ghost use Rattle.stm_session.specs.Lines.{depth_at};
ghost use Rattle.stm_session.specs.Order.{Adds, Are, Begin, DoesSteps, FaultEnds};
ghost use Rattle.stm_session.specs.Segments.{Closes};
ghost use Rattle.stm_session.specs.Steps.{IsSteady};

use crate::Fault;
use crate::closing::look_again;
use crate::laws_of_steps::step_laws;
use stm_journal::Journal;
use stm_wire::{Chip, Rig};

/// Ends the newest segment, which is open, where the device is still the chip's board.
pub fn end_segment<R: Rig>(rig: &mut R, journal: &mut Journal, chip: &Chip) -> Result<(), Fault>
    requires { IsTrue (newest_is_open journal.old.state) }
    ensures ended { OnOk result (HasEnded journal.old.state journal.new.state) }
    ensures cause { HasSessionCause (R.view rig.old) (R.view rig.new) result }
    ensures named { IfErr result (λ fault. fault ≢ Fault.Unfinished) }
    ensures order { let old = R.view rig.old in let new = R.view rig.new in
        let line = Adds (Ends (length journal.old.state.stack) ∷ []) ∷ [] in
        OnOk result (DoesSteps (closing chip.now ++ line) journal.old journal.new old new) }
    ensures stops { let old = R.view rig.old in let new = R.view rig.new in
        let line = Adds (Ends (length journal.old.state.stack) ∷ []) ∷ [] in
        FaultEnds (IsClosedInPart chip.now (Begin (Are line))) journal.old.is_torn old new result }
    ensures honest { let old = R.view rig.old in let new = R.view rig.new in
        (flashes : List (List ℕ)) → IsSteady flashes journal.old old
        → old.device.chip ≡ chip.now
        → Closes flashes (Ends (depth_at old.journal) ∷ []) journal.new old new result }
{
    step_laws();
    look_again(rig, chip)?;
    journal.end(rig)?;
    Ok(())
}
