// Undoing a session: all that the calls for it share.
ghost use Rattle.std.specs.Prelude.{◌≡◌, ◌<◌, ◌≤◌, Ok, IfErr, IfOk};
ghost use Rattle.stm_wire.specs.Dialogue.{GoesOn};
ghost use Rattle.stm_journal.specs.Calls.{AreFetches};
ghost use Rattle.stm_session.specs.Fault.{HasSessionCause};
ghost use Rattle.stm_session.specs.Promises.{UndoContract};
ghost use Rattle.stm_session.specs.ReturnedBytes.{segments_of};
ghost use Rattle.stm_session.specs.Sending.{SendsAsUndo};
ghost use Rattle.stm_session.specs.Told.{GivesBackTold, UndoStopsToldAs};
ghost use Rattle.stm_session.specs.Undoes.{taken_count};

use crate::Fault;
use crate::journal_chip::find_named;
use crate::journal_device::meet;
use crate::laws_of_steps::step_laws;
use crate::returned::Returned;
use crate::returned_bytes::kept_bytes;
use crate::segments_undo::undo_confirmed;
use std::alloc::Global;
use stm_chip::Table;
use stm_journal::Journal;
use stm_wire::Rig;

/// How many segments are undone: so many, or all where the count is 0 or more than there are.
fn taken_count(count: u32, depth: u32) -> u32
    ensures value { result ≡ taken_count count depth }
    ensures most { result ≤ depth }
    ensures some { 1 ≤ depth → 1 ≤ result }
    ensures asked { 0 < count → result ≤ count }
{
    if count == 0 || depth < count {
        depth
    } else {
        count
    }
}

/// Undoes the newest segments, as `undo` does; and reads each page again that was given back, where
/// that is asked for.
pub fn undo_as<R: Rig>(
    alloc: Global,
    rig: &mut R,
    table: &Table,
    count: u32,
    again: bool,
) -> Result<Returned, Fault>
    ensures cause { HasSessionCause (R.view rig.old) (R.view rig.new) result }
    ensures silent { let old = R.view rig.old in let new = R.view rig.new in
        segments_of result ≡ Ok 0 → GoesOn AreFetches old.calls new.calls }
    ensures none { IfOk result (λ returned. returned.segments ≡ 0 → returned.bytes ≡ 0) }
    ensures puts { let old = R.view rig.old in let new = R.view rig.new in
        SendsAsUndo table.now count old new (segments_of result) }
    ensures given { let old = R.view rig.old in let new = R.view rig.new in
        IfOk result (λ returned. 1 ≤ returned.segments
        → GivesBackTold R.view again table.now returned old new) }
    ensures given_stops { let old = R.view rig.old in let new = R.view rig.new in
        IfErr result (UndoStopsToldAs R.view again table.now count old new) }
    ensures promised { let old = R.view rig.old in let new = R.view rig.new in
        UndoContract table.now count old new (segments_of result) }
{
    step_laws();
    let mut journal = Journal::load(alloc, rig)?;
    let depth = journal.depth();
    if depth == 0 {
        return Ok(Returned {
            segments: 0,
            bytes: 0,
        });
    }
    let Some(id) = journal.id() else {
        unreachable!()
    };
    let chip = find_named(&journal, table, id)?;
    meet(rig, &journal, chip)?;
    let segments = taken_count(count, depth);
    let bytes = kept_bytes(&journal, chip, segments);
    undo_confirmed(alloc, rig, &mut journal, chip, segments, again)?;
    Ok(Returned { segments, bytes })
}
