// Undoing the newest segment.
ghost use Rattle.std.specs.Prelude.{◌≡◌, ◌<◌, ◌∷◌, List, ℕ, drop, length, Some, OnOk};
ghost use Rattle.stm_journal.specs.Fits.{AllFit};
ghost use Rattle.stm_journal.specs.Newest.{KeepsSame, pages_of_segments};
ghost use Rattle.stm_session.specs.Fault.{HasSessionCause};
ghost use Rattle.stm_session.specs.Order.{BeginTold, Follows, AreGivenBack, FaultEnds};
ghost use Rattle.stm_session.specs.UndoOrder.{IsSegmentUndone, OrMisread};
ghost use Rattle.stm_session.specs.Told.{ToldIn};
ghost use Rattle.stm_session.specs.Undoable.{newest_kept};
ghost use Rattle.stm_session.specs.Steps.{IsSteady, Goes};
ghost use Rattle.stm_session.specs.SegmentUndo.{UndoesSegment, newest_at, give_back_lines, taking_lines};
ghost use Rattle.stm_session.specs.SegmentUndo.{with_pages};

use crate::Fault;
use crate::closing::look_again;
use crate::laws_of_steps::step_laws;
use crate::returning::give_back_line;
use std::alloc::Global;
use stm_journal::Journal;
use stm_wire::{Chip, Rig};

/// Gives each page of the newest segment what that keeps of it, in the order of their lines; and
/// reads it again behind that, where that is asked for.
pub fn give_back_segment<R: Rig>(
    alloc: Global,
    rig: &mut R,
    journal: &mut Journal,
    chip: &Chip,
    again: bool,
) -> Result<(), Fault>
    requires fits { AllFit chip.now journal.old.state.stack }
    ensures same { OnOk result (KeepsSame journal.old.state journal.new.state) }
    ensures cause { HasSessionCause (R.view rig.old) (R.view rig.new) result }
    ensures order { let old = R.view rig.old in let new = R.view rig.new in
        let pages = newest_kept journal.old.state.stack in
        let Told = ToldIn R.view journal.old.is_torn old new in
        let Returned = AreGivenBack again chip.now Told pages in
        OnOk result (Follows Returned journal.old journal.new old new) }
    ensures stops { let old = R.view rig.old in let new = R.view rig.new in
        let pages = newest_kept journal.old.state.stack in
        let Told = ToldIn R.view journal.old.is_torn old new in
        let Begun = BeginTold (λ T. AreGivenBack again chip.now T pages) Told in
        FaultEnds (OrMisread again chip.now Begun) journal.old.is_torn old new result }
    ensures honest { let old = R.view rig.old in let new = R.view rig.new in
        (flashes : List (List ℕ)) → IsSteady flashes journal.old old → old.device.chip ≡ chip.now
        → let pages = newest_at old.journal in
        Goes flashes (give_back_lines chip.now old.device.flash pages) journal.new old new result
        (λ _. new.device.flash ≡ with_pages chip.now pages old.device.flash) }
{
    step_laws();
    let newest = journal.depth();
    let count = journal.kept_count(newest);
    for i in 0..count {
        let Some(place) = journal.kept_place(newest, i) else {
            unreachable!()
        };
        let Some((n, _)) = journal.kept(newest, i) else {
            unreachable!()
        };
        give_back_line(alloc, rig, journal, chip, n, place, again)?;
    }
    Ok(())
}

/// Undoes the newest segment, once the board has told that it is still the one that was asked first.
pub fn undo_segment<R: Rig>(
    alloc: Global,
    rig: &mut R,
    journal: &mut Journal,
    chip: &Chip,
    again: bool,
) -> Result<(), Fault>
    requires some { 0 < length journal.old.state.stack }
    requires fits { AllFit chip.now journal.old.state.stack }
    ensures rest { let pages = pages_of_segments journal.old.state.stack in
        OnOk result (pages_of_segments journal.new.state.stack ≡ drop 1 pages) }
    ensures cause { HasSessionCause (R.view rig.old) (R.view rig.new) result }
    ensures order { let old = R.view rig.old in let new = R.view rig.new in
        let stack = journal.old.state.stack in
        let Told = ToldIn R.view journal.old.is_torn old new in
        let Taken = IsSegmentUndone again chip.now Told (newest_kept stack) (length stack) in
        OnOk result (Follows Taken journal.old journal.new old new) }
    ensures stops { let old = R.view rig.old in let new = R.view rig.new in
        let pages = newest_kept journal.old.state.stack in
        let number = length journal.old.state.stack in
        let Told = ToldIn R.view journal.old.is_torn old new in
        let Begun = BeginTold (λ T. IsSegmentUndone again chip.now T pages number) Told in
        FaultEnds (OrMisread again chip.now Begun) journal.old.is_torn old new result }
    ensures honest { let old = R.view rig.old in let new = R.view rig.new in
        (flash : List ℕ) (flashes : List (List ℕ))
        → IsSteady (flash ∷ flashes) journal.old old → old.device.chip ≡ chip.now
        → let lines = taking_lines chip.now old.device.flash old.journal in
        UndoesSegment lines flash flashes journal.new old new result }
{
    step_laws();
    give_back_segment(alloc, rig, journal, chip, again)?;
    look_again(rig, chip)?;
    let _depth = journal.depth();
    journal.undone(rig)?;
    Ok(())
}
