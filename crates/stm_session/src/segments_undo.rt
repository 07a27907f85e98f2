// Undoing the newest segments, one after another, and before them the pages at work.
ghost use Rattle.std.specs.Prelude.{◌≡◌, ◌≤◌, ◌+◌, List, ℕ, length, OnOk};
ghost use Rattle.stm_journal.specs.Fits.{AllFit};
ghost use Rattle.stm_journal.specs.Newest.{pages_of_segments};
ghost use Rattle.stm_session.specs.Fault.{HasSessionCause};
ghost use Rattle.stm_session.specs.SegmentsUndo.{UndoesNewest, UndoesBy, undo_lines};
ghost use Rattle.stm_session.specs.Order.{BeginTold, Follows, IsAfter, FaultEnds};
ghost use Rattle.stm_session.specs.UndoOrder.{AreAllUndone, AreSegmentsUndone, OrMisread};
ghost use Rattle.stm_session.specs.Reaching.{IsConfirmedInPart, confirming};
ghost use Rattle.stm_session.specs.Told.{ToldIn, behind_confirming};
ghost use Rattle.stm_session.specs.Sending.{PutsAtMost, most_of_confirming, most_of_undo};
ghost use Rattle.stm_session.specs.Steps.{IsSteady};
ghost use Rattle.stm_session.specs.Work.{pages_at_work};

use crate::Fault;
use crate::confirming::confirm;
use crate::laws_of_steps::step_laws;
use crate::page_at_work::rewrite_at_work;
use crate::segment_undo::undo_segment;
use std::alloc::Global;
use stm_journal::Journal;
use stm_wire::{Chip, Rig};

/// Undoes so many segments, the newest first.
pub fn undo_newest<R: Rig>(
    alloc: Global,
    rig: &mut R,
    journal: &mut Journal,
    chip: &Chip,
    taken: u32,
    again: bool,
) -> Result<(), Fault>
    requires some { taken ≤ length journal.old.state.stack }
    requires fits { AllFit chip.now journal.old.state.stack }
    ensures cause { HasSessionCause (R.view rig.old) (R.view rig.new) result }
    ensures order { let old = R.view rig.old in let new = R.view rig.new in
        let segments = pages_of_segments journal.old.state.stack in
        let Told = ToldIn R.view journal.old.is_torn old new in
        let Taken = AreSegmentsUndone again chip.now Told taken segments in
        OnOk result (Follows Taken journal.old journal.new old new) }
    ensures stops { let old = R.view rig.old in let new = R.view rig.new in
        let segments = pages_of_segments journal.old.state.stack in
        let Told = ToldIn R.view journal.old.is_torn old new in
        let Begun = BeginTold (λ T. AreSegmentsUndone again chip.now T taken segments) Told in
        FaultEnds (OrMisread again chip.now Begun) journal.old.is_torn old new result }
    ensures honest { let old = R.view rig.old in let new = R.view rig.new in
        (flashes : List (List ℕ)) → IsSteady flashes journal.old old → old.device.chip ≡ chip.now
        → UndoesNewest taken flashes journal.new old new result }
{
    step_laws();
    for i in 0..taken {
        undo_segment(alloc, rig, journal, chip, again)?;
    }
    Ok(())
}

/// Undoes so many segments, the newest first, behind a journal that was loaded: the pages at
/// work are written before.
pub fn undo_settled<R: Rig>(
    alloc: Global,
    rig: &mut R,
    journal: &mut Journal,
    chip: &Chip,
    taken: u32,
    again: bool,
) -> Result<(), Fault>
    requires one { 1 ≤ taken }
    requires some { taken ≤ length journal.old.state.stack }
    requires fits { AllFit chip.now journal.old.state.stack }
    ensures cause { HasSessionCause (R.view rig.old) (R.view rig.new) result }
    ensures order { let old = R.view rig.old in let new = R.view rig.new in
        let work = pages_at_work journal.old.state.stack in
        let segments = pages_of_segments journal.old.state.stack in
        let Told = ToldIn R.view journal.old.is_torn old new in
        let Taken = AreAllUndone again chip.now Told work taken segments in
        OnOk result (Follows Taken journal.old journal.new old new) }
    ensures stops { let old = R.view rig.old in let new = R.view rig.new in
        let work = pages_at_work journal.old.state.stack in
        let segments = pages_of_segments journal.old.state.stack in
        let Told = ToldIn R.view journal.old.is_torn old new in
        let Begun = BeginTold (λ T. AreAllUndone again chip.now T work taken segments) Told in
        FaultEnds (OrMisread again chip.now Begun) journal.old.is_torn old new result }
    ensures honest { let old = R.view rig.old in let new = R.view rig.new in
        (flashes : List (List ℕ)) → IsSteady flashes journal.old old → old.device.chip ≡ chip.now
        → UndoesBy (undo_lines taken old) taken flashes journal.new old new result }
{
    step_laws();
    rewrite_at_work(alloc, rig, journal, chip)?;
    undo_newest(alloc, rig, journal, chip, taken, again)?;
    Ok(())
}

/// The same, once a settled device has told that it is still the chip's board.
pub fn undo_confirmed<R: Rig>(
    alloc: Global,
    rig: &mut R,
    journal: &mut Journal,
    chip: &Chip,
    taken: u32,
    again: bool,
) -> Result<(), Fault>
    requires one { 1 ≤ taken }
    requires some { taken ≤ length journal.old.state.stack }
    requires fits { AllFit chip.now journal.old.state.stack }
    ensures cause { HasSessionCause (R.view rig.old) (R.view rig.new) result }
    ensures puts { let old = R.view rig.old in let new = R.view rig.new in
        let most = most_of_confirming + most_of_undo taken in
        PutsAtMost chip.now most old new result }
    ensures order { let old = R.view rig.old in let new = R.view rig.new in
        let work = pages_at_work journal.old.state.stack in
        let segments = pages_of_segments journal.old.state.stack in
        let Told = behind_confirming chip.now (ToldIn R.view journal.old.is_torn old new) in
        let Taken = AreAllUndone again chip.now Told work taken segments in
        OnOk result (Follows (IsAfter (confirming chip.now) Taken) journal.old journal.new
        old new) }
    ensures stops { let old = R.view rig.old in let new = R.view rig.new in
        let work = pages_at_work journal.old.state.stack in
        let segments = pages_of_segments journal.old.state.stack in
        let Told = behind_confirming chip.now (ToldIn R.view journal.old.is_torn old new) in
        let Begun = BeginTold (λ T. AreAllUndone again chip.now T work taken segments) Told in
        let Back = OrMisread again chip.now Begun in
        FaultEnds (IsConfirmedInPart chip.now Back) journal.old.is_torn old new result }
    ensures honest { let old = R.view rig.old in let new = R.view rig.new in
        (flashes : List (List ℕ)) → IsSteady flashes journal.old old → old.device.chip ≡ chip.now
        → UndoesBy (undo_lines taken old) taken flashes journal.new old new result }
{
    step_laws();
    chip.keeps_limits();
    let _depth = journal.depth();
    confirm(rig, chip)?;
    undo_settled(alloc, rig, journal, chip, taken, again)?;
    Ok(())
}
