// The pages of a command, one after another.
ghost use Rattle.std.specs.Prelude.{◌≡◌, ◌≢◌, ◌<◌, ◌==◌, ◌&&◌, if◌then◌else◌, List, ℕ, length};
ghost use Rattle.std.specs.Prelude.{true, false, IfOk, OnOk, IsTrue, IfErr};
ghost use Rattle.stm_wire.specs.Chip.{page_count, page_of};
ghost use Rattle.stm_journal.specs.States.{newest_is_open, newest_keeps, newest_may_keep};
ghost use Rattle.stm_journal.specs.Newest.{next_page};
ghost use Rattle.stm_session.specs.Fault.{HasSessionCause};
ghost use Rattle.stm_session.specs.ChangeOrder.{AreAllTurned, AreBegunTurns, IsPageTurn, IsTurnOf, Keeping};
ghost use Rattle.stm_session.specs.Order.{Begin, Follows, FaultEnds};
ghost use Rattle.stm_session.specs.Undoable.{has_companion};
ghost use Rattle.stm_session.specs.Steps.{IsSteady, Goes};
ghost use Rattle.stm_session.specs.Changing.{HasTurned, change_entries};
ghost use Rattle.stm_session.specs.Contents.{IsGiven, IsMade, command_of, content};
ghost use Rattle.stm_session.specs.Lines.{page_entries_below};
ghost use Rattle.stm_session.specs.Meaning.{flash_after};

use crate::Fault;
use crate::change::Change;
use crate::changing::change_page;
use crate::content::{content, touches};
use crate::laws_of_steps::step_laws;
use crate::reading::read_range;
use std::alloc::Global;
use stm_image::laying_by_parts;
use stm_journal::Journal;
use stm_wire::{Chip, Rig};

/// Gives page `n` of the flash what the command makes of it: it is read, and kept before it
/// changes, unless it was kept. A page that the command leaves isn't read. Whether it was changed.
fn turn_page<R: Rig>(
    alloc: Global,
    rig: &mut R,
    journal: &mut Journal,
    chip: &Chip,
    change: &Change<'_>,
    n: u16,
    kept: bool,
) -> Result<bool, Fault>
    requires exists { n < page_count chip.now }
    requires kept { kept ≡ true → IsTrue (newest_keeps n journal.old.state) }
    requires may { kept ≡ false → IsTrue (newest_may_keep n journal.old.state) }
    requires companion { kept ≡ false → n ≡ 1 → IsTrue (has_companion chip.now)
        → IsTrue (newest_may_keep 257 journal.old.state) }
    ensures turned { IfOk result
        (λ changed. HasTurned kept changed chip.now n journal.old.state journal.new.state) }
    ensures cause { HasSessionCause (R.view rig.old) (R.view rig.new) result }
    ensures named { IfErr result (λ fault. fault ≢ Fault.Unfinished) }
    ensures order { let old = R.view rig.old in let new = R.view rig.new in
        IfOk result (λ changed. let Turned = IsTurnOf kept chip.now change.now n changed in
        Follows (Keeping journal.new.state Turned) journal.old journal.new old new) }
    ensures stops { let old = R.view rig.old in let new = R.view rig.new in
        let Turned = IsPageTurn kept chip.now change.now n in
        FaultEnds (Begin Turned) journal.old.is_torn old new result }
    ensures honest { let old = R.view rig.old in let new = R.view rig.new in
        (flashes : List (List ℕ)) → IsSteady flashes journal.old old → old.device.chip ≡ chip.now
        → let made = content chip.now change.now n (page_of chip.now old.device.flash n) in
        let lines = change_entries kept chip.now old.device.flash n made in
        Goes flashes lines journal.new old new result
        (IsGiven chip.now n made old.device.flash new.device.flash) }
{
    step_laws();
    chip.keeps_limits();
    if !touches(change, chip, n) {
        return Ok(false);
    }
    let start = chip.page_start(n);
    let size = chip.page_size(n);
    let held = read_range(alloc, rig, chip, start, size)?;
    let page = content(alloc, change, chip, n, &held)?;
    let changed = change_page(alloc, rig, journal, chip, n, &held, &page, kept)?;
    Ok(changed)
}

/// Whether page `n` was kept before its turn: page 257 is kept with page 1.
fn is_kept(n: u16, first: bool) -> bool
    ensures { result ≡ (n == 257 && first) }
{
    n == 257 && first
}

/// Whether page 1 was changed, after page `n` was or wasn't.
fn after_page(n: u16, changed: bool, first: bool) -> bool
    ensures { result ≡ (if n == 1 then changed else first) }
{
    if n == 1 { changed } else { first }
}

/// Makes of the flash what the command makes of it, page by page, rising; the newest segment is an
/// open one that keeps none yet. How many pages were changed.
pub fn turn_pages<R: Rig>(
    alloc: Global,
    rig: &mut R,
    journal: &mut Journal,
    chip: &Chip,
    change: &Change<'_>,
) -> Result<u32, Fault>
    requires open { IsTrue (newest_is_open journal.old.state) }
    requires next { next_page journal.old.state ≡ 0 }
    ensures open { OnOk result (IsTrue (newest_is_open journal.new.state)) }
    ensures depth { OnOk result (length journal.new.state.stack ≡ length journal.old.state.stack) }
    ensures cause { HasSessionCause (R.view rig.old) (R.view rig.new) result }
    ensures named { IfErr result (λ fault. fault ≢ Fault.Unfinished) }
    ensures order { let old = R.view rig.old in let new = R.view rig.new in
        let Turned = AreAllTurned chip.now change.now in
        OnOk result (Follows (Keeping journal.new.state Turned) journal.old journal.new old new) }
    ensures stops { let old = R.view rig.old in let new = R.view rig.new in
        let Turned = AreBegunTurns chip.now change.now in
        FaultEnds Turned journal.old.is_torn old new result }
    ensures honest { let old = R.view rig.old in let new = R.view rig.new in
        (flashes : List (List ℕ)) → IsSteady flashes journal.old old → old.device.chip ≡ chip.now
        → let other = flash_after chip.now old.device.flash (command_of change.now) in
        let lines = page_entries_below (page_count chip.now) chip.now old.device.flash other in
        Goes flashes lines journal.new old new result
        (IsMade chip.now change.now old.device.flash new.device.flash) }
{
    step_laws();
    laying_by_parts();
    chip.keeps_limits();
    let mut count = 0;
    let mut first = false;
    for n in 0..chip.pages() {
        let kept = is_kept(n, first);
        let changed = turn_page(alloc, rig, journal, chip, change, n, kept)?;
        first = after_page(n, changed, first);
        count += u32::from(changed);
    }
    Ok(count)
}
