// Giving a page that the journal keeps new bytes.
ghost use Rattle.std.specs.Prelude.{◌≡◌, ◌≢◌, ◌<◌, ◌∷◌, ◌++◌, length, map, flat_map, fold, OnOk};
ghost use Rattle.std.specs.Prelude.{IfOk, IsTrue, IfErr};
ghost use Rattle.stm_wire.specs.Chip.{page_count, page_size, with_page, erased_page};
ghost use Rattle.stm_chip.specs.Plan.{AreFrames, written};
ghost use Rattle.stm_journal.specs.declared.entry.Entry.TheVariants.{Erases};
ghost use Rattle.stm_journal.specs.States.{StateData, newest_keeps};
ghost use Rattle.stm_session.specs.Deeds.{AllSuit, HasDoneAll, IsRewrittenBehind, MayDoAll};
ghost use Rattle.stm_session.specs.Deeds.{flash_with, lines_of_deed, rewrite_deeds, step_of_deed};
ghost use Rattle.stm_session.specs.Fault.{HasSessionCause};
ghost use Rattle.stm_session.specs.Lines.{program_entries};
ghost use Rattle.stm_session.specs.Order.{Are, rewrite_steps};
ghost use Rattle.stm_session.specs.Performs.{Performs};

use crate::Fault;
use crate::deed::Deed;
use crate::deeds::perform;
use crate::laws_of_steps::step_laws;
use std::alloc::{AllocError, Global};
use stm_chip::Frame;
use stm_journal::Journal;
use stm_wire::{Chip, Rig};

/// A page that is to hold these bytes.
#[derive(Drop)]
struct NewPage<'a> {
    n: u16,
    bytes: &'a [u8],
}

/// These deeds, and then those that erase a page and write these frames of its new bytes.
fn plan_rewrite<'a>(
    alloc: Global,
    first: &[Deed<'a>],
    new: &NewPage<'a>,
    frames: &[Frame],
) -> Result<Vec<Deed<'a>>, AllocError>
    ensures { IfOk result (λ deeds. deeds.items
        ≡ first.now ++ rewrite_deeds new.now.n new.now.bytes frames.now) }
{
    let mut deeds = Vec::from_slice(alloc, first)?;
    deeds.push(Deed::IntendErase(new.n))?;
    deeds.push(Deed::Erase(new.n))?;
    if frames.is_empty() {
        return Ok(deeds);
    }
    deeds.push(Deed::IntendProgram(new.n))?;
    for frame in frames {
        deeds.push(Deed::Write(new.n, *frame, new.bytes))?;
    }
    Ok(deeds)
}

/// Does these deeds, which leave the flash, and after which the newest segment keeps page `n`; erases that page, and writes
/// these frames of its new bytes.
pub fn rewrite_kept<'a, R: Rig>(
    alloc: Global,
    rig: &mut R,
    journal: &mut Journal,
    chip: &Chip,
    first: &[Deed<'a>],
    n: u16,
    page: &'a [u8],
    frames: &[Frame],
) -> Result<(), Fault>
    requires exists { n < page_count chip.now }
    requires may { MayDoAll chip.now first.now journal.old.state }
    requires kept { (s : StateData) → HasDoneAll first.now journal.old.state s
        → IsTrue (newest_keeps n s) }
    requires size { length page.now ≡ page_size chip.now n }
    requires frames { AreFrames 0 (length page.now) frames.now }
    requires gives { written page.now frames.now (erased_page chip.now n) ≡ page.now }
    ensures done { OnOk result (IsRewrittenBehind first.now journal.old.state journal.new.state) }
    ensures cause { HasSessionCause (R.view rig.old) (R.view rig.new) result }
    ensures named { IfErr result (λ fault. fault ≢ Fault.Unfinished) }
    ensures performs { let old = R.view rig.old in let new = R.view rig.new in
        let steps = map (step_of_deed chip.now) first.now in
        let flash = old.device.flash in
        Performs (Are (steps ++ rewrite_steps chip.now n page.now frames.now))
        (flat_map lines_of_deed first.now ++ Erases n ∷ program_entries n frames.now)
        ((old.device.chip ≡ chip.now) × AllSuit chip.now flash first.now
        × (fold (flash_with chip.now) flash first.now ≡ flash))
        (λ _. new.device.flash ≡ with_page chip.now n page.now flash)
        journal.old journal.new old new result }
{
    step_laws();
    let deeds = plan_rewrite(alloc, first, &NewPage { n, bytes: page }, frames)?;
    perform(rig, journal, chip, &deeds)
}
