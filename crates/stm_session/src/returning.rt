// Giving back what the newest segment keeps.
ghost use Rattle.std.specs.Prelude.{◌≡◌, ◌<◌, List, ℕ, Some, OnOk, IsTrue};
ghost use Rattle.stm_wire.specs.Chip.{page_count, page_size, with_page};
ghost use Rattle.stm_journal.specs.declared.kept.Kept.{Kept};
ghost use Rattle.stm_journal.specs.States.{newest_keeps};
ghost use Rattle.stm_journal.specs.KeptPlaces.{IsPlaceIn, kept_entry, place_of};
ghost use Rattle.stm_journal.specs.Newest.{KeepsSame};
ghost use Rattle.stm_session.specs.Fault.{HasSessionCause};
ghost use Rattle.stm_session.specs.Lines.{return_entries};
ghost use Rattle.stm_session.specs.Order.{BeginTold, Follows, IsGivenBack, FaultEnds};
ghost use Rattle.stm_session.specs.UndoOrder.{OrMisread};
ghost use Rattle.stm_session.specs.Steps.{IsSteady, Goes};
ghost use Rattle.stm_session.specs.Told.{ToldIn};
ghost use Rattle.stm_session.specs.Undoable.{state_at};

use crate::Fault;
use crate::laws_of_steps::step_laws;
use crate::reading::read_range;
use crate::reading_again::return_page;
use std::alloc::Global;
use stm_journal::{Journal, PagePlace};
use stm_wire::{Chip, Rig};

/// Gives page `n` what the newest segment keeps of it, whose digits stand at
/// this place of the journal; and reads it again behind that, where that is asked for.
pub fn give_back_line<R: Rig>(
    alloc: Global,
    rig: &mut R,
    journal: &mut Journal,
    chip: &Chip,
    n: u16,
    place: PagePlace,
    again: bool,
) -> Result<(), Fault>
    requires exists { n < page_count chip.now }
    requires kept { IsTrue (newest_keeps n journal.old.state) }
    requires placed { IsPlaceIn journal.old.state place }
    requires size { place.length ≡ page_size chip.now n }
    ensures same { OnOk result (KeepsSame journal.old.state journal.new.state) }
    ensures cause { HasSessionCause (R.view rig.old) (R.view rig.new) result }
    ensures order { let old = R.view rig.old in let new = R.view rig.new in
        let Told = ToldIn R.view journal.old.is_torn old new in
        OnOk result (Follows (IsGivenBack again chip.now Told n) journal.old journal.new old new) }
    ensures stops { let old = R.view rig.old in let new = R.view rig.new in
        let Told = ToldIn R.view journal.old.is_torn old new in
        let Begun = BeginTold (λ T. IsGivenBack again chip.now T n) Told in
        FaultEnds (OrMisread again chip.now Begun) journal.old.is_torn old new result }
    ensures honest { let old = R.view rig.old in let new = R.view rig.new in
        (flashes : List (List ℕ)) (k i : ℕ) (kept : Kept) → IsSteady flashes journal.old old
        → old.device.chip ≡ chip.now → kept_entry (state_at old.journal) k i ≡ Some kept
        → place_of kept ≡ place → kept.page ≡ n
        → Goes flashes (return_entries chip.now old.device.flash kept) journal.new old new result
        (λ _. new.device.flash ≡ with_page chip.now n kept.bytes old.device.flash) }
{
    step_laws();
    chip.keeps_limits();
    let start = chip.page_start(n);
    let size = chip.page_size(n);
    let held = read_range(alloc, rig, chip, start, size)?;
    let mut page = Vec::from_elem(alloc, 0, size as usize)?;
    journal.fetch_page(rig, place, &mut page)?;
    return_page(alloc, rig, journal, chip, n, &held, &page, again)?;
    Ok(())
}
