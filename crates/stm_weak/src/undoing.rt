// An undo on any line, whatever it answers and wherever it fails.
ghost use Rattle.std.specs.Prelude.{◌≤◌, IfErr, IfOk};
ghost use Rattle.stm_weak.specs.Believed.{UndoHeals, UndoStopsHealing};

use crate::an_undo_believes_no_page_at_work;
use std::alloc::Global;
use stm_chip::Table;
use stm_session::{Fault, undo};
use stm_wire::Rig;

/// Undoes the newest segments, so many, or all where the count is 0. On any Rig, whatever it
/// answers, and also where it fails: it believes no page at work, and at Ok no page may be weak.
pub fn undo_segment<R: Rig>(
    alloc: Global,
    rig: &mut R,
    table: &Table,
    count: u32,
) -> Result<u32, Fault>
    ensures heals { let old = R.view rig.old in let new = R.view rig.new in
        IfOk result (λ taken. 1 ≤ taken → UndoHeals table.now old new) }
    ensures stops { let old = R.view rig.old in let new = R.view rig.new in
        IfErr result (UndoStopsHealing table.now old new) }
{
    an_undo_believes_no_page_at_work::<R>();
    undo(alloc, rig, table, count)
}
