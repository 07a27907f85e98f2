// A command that changes the flash, as one segment of the journal.
ghost use Rattle.std.specs.Prelude.{◌≡◌, ◌≢◌, ◌<◌, ◌+◌, false, List, ℕ, length, IfOk, OnOk, IfErr};
ghost use Rattle.stm_journal.specs.States.{is_unfinished};
ghost use Rattle.stm_session.specs.Contents.{IsMade, command_of};
ghost use Rattle.stm_session.specs.Fault.{HasSessionCause};
ghost use Rattle.stm_session.specs.Lines.{depth_at, is_named_at, segment_entries};
ghost use Rattle.stm_session.specs.Meaning.{flash_after};
ghost use Rattle.stm_session.specs.ChangeOrder.{IsOneSegment, IsSegmentBegun, Keeping};
ghost use Rattle.stm_session.specs.Order.{Follows, FaultEnds};
ghost use Rattle.stm_session.specs.Segments.{Changes};
ghost use Rattle.stm_session.specs.Steps.{IsSteady};

use crate::Fault;
use crate::change::Change;
use crate::page_changes::turn_pages;
use crate::segment_begin::begin_segment;
use crate::segment_end::end_segment;
use std::alloc::Global;
use stm_journal::Journal;
use stm_wire::{Chip, Rig};

/// Makes of the flash what the command makes of it, in a segment of its own. The segment's number,
/// and how many pages were changed.
pub fn change_flash<R: Rig>(
    alloc: Global,
    rig: &mut R,
    journal: &mut Journal,
    chip: &Chip,
    change: &Change<'_>,
) -> Result<(u32, u32), Fault>
    requires room { length journal.old.state.stack < 65535 }
    requires finished { is_unfinished journal.old.state ≡ false }
    ensures finished { OnOk result (is_unfinished journal.new.state ≡ false) }
    ensures depth { OnOk result
        (length journal.new.state.stack ≡ length journal.old.state.stack + 1) }
    ensures number { IfOk result (λ answer. answer.0 ≡ length journal.old.state.stack + 1) }
    ensures cause { HasSessionCause (R.view rig.old) (R.view rig.new) result }
    ensures named { IfErr result (λ fault. fault ≢ Fault.Unfinished) }
    ensures order { let old = R.view rig.old in let new = R.view rig.new in
        let Done = IsOneSegment chip.now change.now journal.old.state in
        OnOk result (Follows (Keeping journal.new.state Done) journal.old journal.new old new) }
    ensures stops { let old = R.view rig.old in let new = R.view rig.new in
        let Begun = IsSegmentBegun chip.now change.now journal.old.state in
        FaultEnds Begun journal.old.is_torn old new result }
    ensures honest { let old = R.view rig.old in let new = R.view rig.new in
        (flashes : List (List ℕ)) → IsSteady flashes journal.old old → old.device.chip ≡ chip.now
        → let flash = old.device.flash in
        let after = flash_after chip.now flash (command_of change.now) in
        let k = depth_at old.journal + 1 in
        let lines = segment_entries (is_named_at old.journal) chip.now k flash after in
        Changes flashes lines after journal.new old new result
        (λ answer. IsMade chip.now change.now flash new.device.flash answer.1) }
{
    let segment = begin_segment(rig, journal, chip)?;
    let pages = turn_pages(alloc, rig, journal, chip, change)?;
    end_segment(rig, journal, chip)?;
    Ok((segment, pages))
}
