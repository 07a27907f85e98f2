// Beginning the segment of a command.
ghost use Rattle.std.specs.Prelude.{◌≡◌, ◌≢◌, ◌<◌, ◌+◌, ◌∷◌, [], false, List, ℕ, length};
ghost use Rattle.std.specs.Prelude.{IfOk, OnOk, IfErr};
ghost use Rattle.stm_journal.specs.Journals.{begin_entries};
ghost use Rattle.stm_journal.specs.States.{is_unfinished};
ghost use Rattle.stm_journal.specs.Newest.{HasBegun};
ghost use Rattle.stm_session.specs.Fault.{HasSessionCause};
ghost use Rattle.stm_session.specs.Lines.{depth_at, is_named_at, opening_entries};
ghost use Rattle.stm_session.specs.Order.{Adds, Are, Begin, DoesSteps, FaultEnds};
ghost use Rattle.stm_session.specs.Segments.{Changes};
ghost use Rattle.stm_session.specs.Steps.{IsSteady};

use crate::Fault;
use crate::laws_of_steps::step_laws;
use stm_journal::{Journal, a_stopped_append_is_good};
use stm_wire::{Chip, Rig};

/// Begins a segment, above finished ones, and answers its number. A journal that names no
/// device gets a header first, which names the board too where its device told its unique id.
pub fn begin_segment<R: Rig>(rig: &mut R, journal: &mut Journal, chip: &Chip) -> Result<u32, Fault>
    requires room { length journal.old.state.stack < 65535 }
    requires finished { is_unfinished journal.old.state ≡ false }
    ensures begun { OnOk result
        (HasBegun chip.now.id chip.now.unique journal.old.state journal.new.state) }
    ensures number { IfOk result (λ k. k ≡ length journal.old.state.stack + 1) }
    ensures cause { HasSessionCause (R.view rig.old) (R.view rig.new) result }
    ensures named { IfErr result (λ fault. fault ≢ Fault.Unfinished) }
    ensures order { let old = R.view rig.old in let new = R.view rig.new in
        let steps = Adds (begin_entries chip.now.id chip.now.unique journal.old.state) ∷ [] in
        OnOk result (DoesSteps steps journal.old journal.new old new) }
    ensures stops { let old = R.view rig.old in let new = R.view rig.new in
        let steps = Adds (begin_entries chip.now.id chip.now.unique journal.old.state) ∷ [] in
        FaultEnds (Begin (Are steps)) journal.old.is_torn old new result }
    ensures honest { let old = R.view rig.old in let new = R.view rig.new in
        (flashes : List (List ℕ)) (after : List ℕ) → IsSteady flashes journal.old old
        → old.device.chip ≡ chip.now
        → let k = depth_at old.journal + 1 in
        let named = is_named_at old.journal in
        let lines = opening_entries named chip.now.id chip.now.unique k in
        Changes flashes lines after journal.new old new result (λ _. new.device ≡ old.device) }
{
    step_laws();
    a_stopped_append_is_good();
    let segment = journal.begin(rig, chip.id(), &chip.unique())?;
    Ok(segment)
}
