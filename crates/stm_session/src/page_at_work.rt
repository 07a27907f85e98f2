// The pages at work, which aren't believed: they are written before any other.
ghost use Rattle.std.specs.Prelude.{◌≡◌, ◌<◌, [], ◌∷◌, List, ℕ, Some, OnOk, IsTrue, if◌then◌else◌};
ghost use Rattle.stm_wire.specs.Chip.{page_count, page_size, with_page};
ghost use Rattle.stm_journal.specs.declared.kept.Kept.{Kept};
ghost use Rattle.stm_journal.specs.Fits.{AllFit};
ghost use Rattle.stm_journal.specs.States.{intent_page, newest_keeps};
ghost use Rattle.stm_journal.specs.KeptPlaces.{IsPlaceIn, kept_entry, place_of};
ghost use Rattle.stm_journal.specs.Newest.{KeepsSame};
ghost use Rattle.stm_session.specs.Fault.{HasSessionCause};
ghost use Rattle.stm_session.specs.Lines.{rewrite_entries, work_entries};
ghost use Rattle.stm_session.specs.Order.{AreRewritten, BeginTold, Follows, IsRewritten, FaultEnds};
ghost use Rattle.stm_session.specs.Steps.{IsSteady, Goes};
ghost use Rattle.stm_session.specs.Told.{ToldIn};
ghost use Rattle.stm_session.specs.Undoable.{state_at};
ghost use Rattle.stm_session.specs.Work.{beside, kept_at_work, kept_of, pages_at_work, with_work};

use crate::Fault;
use crate::deed::Deed;
use crate::laws_of_steps::step_laws;
use crate::rewriting::rewrite_kept;
use std::alloc::Global;
use stm_chip::page_frames;
use stm_journal::{Journal, PagePlace};
use stm_wire::{Chip, Intent, Rig};

/// The page that an intent is about.
fn intent_page(intent: Intent) -> u16
    ensures { result ≡ intent_page intent }
{
    match intent {
        Intent::Erase(n) => n,
        Intent::Program(n) => n,
    }
}

/// Gives page `n` what the newest segment keeps of it, whose digits stand at this place of the
/// journal. It isn't read: what it holds now isn't asked.
fn rewrite_line<R: Rig>(
    alloc: Global,
    rig: &mut R,
    journal: &mut Journal,
    chip: &Chip,
    n: u16,
    place: PagePlace,
) -> Result<(), Fault>
    requires exists { n < page_count chip.now }
    requires kept { IsTrue (newest_keeps n journal.old.state) }
    requires placed { IsPlaceIn journal.old.state place }
    requires size { place.length ≡ page_size chip.now n }
    ensures same { OnOk result (KeepsSame journal.old.state journal.new.state) }
    ensures cause { HasSessionCause (R.view rig.old) (R.view rig.new) result }
    ensures order { let old = R.view rig.old in let new = R.view rig.new in
        let Told = ToldIn R.view journal.old.is_torn old new in
        OnOk result (Follows (IsRewritten chip.now Told n) journal.old journal.new old new) }
    ensures stops { let old = R.view rig.old in let new = R.view rig.new in
        let Told = ToldIn R.view journal.old.is_torn old new in
        FaultEnds (BeginTold (λ T. IsRewritten chip.now T n) Told) journal.old.is_torn old new result }
    ensures honest { let old = R.view rig.old in let new = R.view rig.new in
        (flashes : List (List ℕ)) (k i : ℕ) (kept : Kept) → IsSteady flashes journal.old old
        → old.device.chip ≡ chip.now → kept_entry (state_at old.journal) k i ≡ Some kept
        → place_of kept ≡ place → kept.page ≡ n
        → Goes flashes (rewrite_entries chip.now kept.page kept.bytes) journal.new old new result
        (λ _. new.device.flash ≡ with_page chip.now kept.page kept.bytes old.device.flash) }
{
    step_laws();
    chip.keeps_limits();
    let size = chip.page_size(n);
    let mut page = Vec::from_elem(alloc, 0, size as usize)?;
    journal.fetch_page(rig, place, &mut page)?;
    let frames = page_frames(alloc, &page, chip.erased())?;
    let kept = [Deed::Keep(n, &page)];
    rewrite_kept(alloc, rig, journal, chip, &kept[1..], n, &page, &frames)?;
    Ok(())
}

/// Gives page `n` what the newest segment keeps of it, whatever it holds.
fn rewrite_newest<R: Rig>(
    alloc: Global,
    rig: &mut R,
    journal: &mut Journal,
    chip: &Chip,
    n: u16,
) -> Result<(), Fault>
    requires fits { AllFit chip.now journal.old.state.stack }
    requires kept { IsTrue (newest_keeps n journal.old.state) }
    ensures same { OnOk result (KeepsSame journal.old.state journal.new.state) }
    ensures cause { HasSessionCause (R.view rig.old) (R.view rig.new) result }
    ensures order { let old = R.view rig.old in let new = R.view rig.new in
        let Told = ToldIn R.view journal.old.is_torn old new in
        OnOk result (Follows (IsRewritten chip.now Told n) journal.old journal.new old new) }
    ensures stops { let old = R.view rig.old in let new = R.view rig.new in
        let Told = ToldIn R.view journal.old.is_torn old new in
        FaultEnds (BeginTold (λ T. IsRewritten chip.now T n) Told) journal.old.is_torn old new result }
    ensures honest { let old = R.view rig.old in let new = R.view rig.new in
        (flashes : List (List ℕ)) → IsSteady flashes journal.old old → old.device.chip ≡ chip.now
        → let kept = kept_of (state_at old.journal).stack (n ∷ []) in
        Goes flashes (work_entries chip.now kept) journal.new old new result
        (λ _. new.device.flash ≡ with_work chip.now kept old.device.flash) }
{
    step_laws();
    let newest = journal.depth();
    let Some(place) = journal.page(newest, n) else {
        unreachable!()
    };
    rewrite_line(alloc, rig, journal, chip, n, place)?;
    Ok(())
}

/// Where `n` is page 1, and the newest segment keeps page 257, gives that what is kept of it: the
/// byte that settles a stopped erase of page 1 may have begun to erase it.
fn rewrite_beside<R: Rig>(
    alloc: Global,
    rig: &mut R,
    journal: &mut Journal,
    chip: &Chip,
    n: u16,
) -> Result<(), Fault>
    requires fits { AllFit chip.now journal.old.state.stack }
    ensures same { OnOk result (KeepsSame journal.old.state journal.new.state) }
    ensures cause { HasSessionCause (R.view rig.old) (R.view rig.new) result }
    ensures order { let old = R.view rig.old in let new = R.view rig.new in
        let Told = ToldIn R.view journal.old.is_torn old new in
        let pages = beside n (newest_keeps 257 journal.old.state) in
        OnOk result (Follows (AreRewritten chip.now Told pages) journal.old journal.new old new) }
    ensures stops { let old = R.view rig.old in let new = R.view rig.new in
        let Told = ToldIn R.view journal.old.is_torn old new in
        let pages = beside n (newest_keeps 257 journal.old.state) in
        let Begun = BeginTold (λ T. AreRewritten chip.now T pages) Told in
        FaultEnds Begun journal.old.is_torn old new result }
    ensures honest { let old = R.view rig.old in let new = R.view rig.new in
        (flashes : List (List ℕ)) → IsSteady flashes journal.old old → old.device.chip ≡ chip.now
        → let pages = beside n (newest_keeps 257 journal.old.state) in
        let kept = kept_of (state_at old.journal).stack pages in
        Goes flashes (work_entries chip.now kept) journal.new old new result
        (λ _. new.device.flash ≡ with_work chip.now kept old.device.flash) }
{
    step_laws();
    if n != 1 {
        return Ok(());
    }
    let newest = journal.depth();
    let Some(_place) = journal.page(newest, 257) else {
        return Ok(());
    };
    rewrite_newest(alloc, rig, journal, chip, 257)?;
    Ok(())
}

/// Gives the page of the journal's intent what the newest segment keeps of it, whatever it holds:
/// its erase or its frames may have been cut, and such a page can read right once and wrong later.
/// Behind page 1 so does page 257, where the segment keeps it. Without an intent nothing is done.
pub fn rewrite_at_work<R: Rig>(
    alloc: Global,
    rig: &mut R,
    journal: &mut Journal,
    chip: &Chip,
) -> Result<(), Fault>
    requires fits { AllFit chip.now journal.old.state.stack }
    ensures same { OnOk result (KeepsSame journal.old.state journal.new.state) }
    ensures cause { HasSessionCause (R.view rig.old) (R.view rig.new) result }
    ensures order { let old = R.view rig.old in let new = R.view rig.new in
        let Told = ToldIn R.view journal.old.is_torn old new in
        let Rewritten = AreRewritten chip.now Told (pages_at_work journal.old.state.stack) in
        OnOk result (Follows Rewritten journal.old journal.new old new) }
    ensures stops { let old = R.view rig.old in let new = R.view rig.new in
        let Told = ToldIn R.view journal.old.is_torn old new in
        let work = pages_at_work journal.old.state.stack in
        let Begun = BeginTold (λ T. AreRewritten chip.now T work) Told in
        FaultEnds Begun journal.old.is_torn old new result }
    ensures honest { let old = R.view rig.old in let new = R.view rig.new in
        (flashes : List (List ℕ)) → IsSteady flashes journal.old old → old.device.chip ≡ chip.now
        → let kept = kept_at_work (state_at old.journal).stack in
        Goes flashes (work_entries chip.now kept) journal.new old new result
        (λ _. new.device.flash ≡ with_work chip.now kept old.device.flash) }
{
    step_laws();
    let _depth = journal.depth();
    let Some(intent) = journal.last_intent() else {
        return Ok(());
    };
    let n = intent_page(intent);
    rewrite_newest(alloc, rig, journal, chip, n)?;
    rewrite_beside(alloc, rig, journal, chip, n)?;
    Ok(())
}
