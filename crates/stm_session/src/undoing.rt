// Undoing a session, wherever it was stopped.
ghost use Rattle.std.specs.Prelude.{◌≡◌, ◌≤◌, true, Ok, IfErr, IfOk};
ghost use Rattle.stm_wire.specs.Dialogue.{GoesOn};
ghost use Rattle.stm_journal.specs.Calls.{AreFetches};
ghost use Rattle.stm_session.specs.Fault.{HasSessionCause};
ghost use Rattle.stm_session.specs.Promises.{UndoContract};
ghost use Rattle.stm_session.specs.ReturnedBytes.{segments_of};
ghost use Rattle.stm_session.specs.UndoOrder.{GivesBackInOrder, UndoStops, UndoStopsAs};
ghost use Rattle.stm_session.specs.UndoOrder.{UndoesInOrder};
ghost use Rattle.stm_session.specs.Sending.{SendsAsUndo};
ghost use Rattle.stm_session.specs.Told.{GivesBackTold, UndoGivesTold, UndoStopsTold};
ghost use Rattle.stm_session.specs.Told.{UndoStopsToldAs};

use crate::Fault;
use crate::returned::Returned;
use crate::undo_course::undo_as;
use std::alloc::Global;
use stm_chip::Table;
use stm_wire::Rig;

/// Undoes the newest segments of the journal, from wherever a session was stopped: so many, or
/// all where the count is 0 or more than there are. The page of the journal's intent isn't
/// believed: it is written before any other is read. Answers how many; where there is none it is 0,
/// and no byte is sent. A bad journal, a chip that the table hasn't, and a page or header that
/// isn't one of that chip are refused before a byte is sent; a device that lists no command to
/// erase pages, or isn't the journal's, once it has answered Get and Get ID (AN3155, 3.1 and 3.3);
/// and one that is another board than the chip's by now, once it was asked for its unique id again.
pub fn undo<R: Rig>(alloc: Global, rig: &mut R, table: &Table, count: u32) -> Result<u32, Fault>
    ensures cause { HasSessionCause (R.view rig.old) (R.view rig.new) result }
    ensures silent { let old = R.view rig.old in let new = R.view rig.new in
        result ≡ Ok 0 → GoesOn AreFetches old.calls new.calls }
    ensures puts { let old = R.view rig.old in let new = R.view rig.new in
        SendsAsUndo table.now count old new result }
    ensures order { let old = R.view rig.old in let new = R.view rig.new in
        IfOk result (λ taken. 1 ≤ taken → UndoesInOrder table.now taken old new) }
    ensures stops { let old = R.view rig.old in let new = R.view rig.new in
        IfErr result (UndoStops table.now count old new) }
    ensures given { let old = R.view rig.old in let new = R.view rig.new in
        IfOk result (λ taken. 1 ≤ taken → UndoGivesTold R.view table.now taken old new) }
    ensures given_stops { let old = R.view rig.old in let new = R.view rig.new in
        IfErr result (UndoStopsTold R.view table.now count old new) }
    ensures promised { UndoContract table.now count (R.view rig.old) (R.view rig.new) result }
{
    match undo_as(alloc, rig, table, count, false) {
        Ok(returned) => Ok(returned.segments),
        Err(fault) => Err(fault),
    }
}

/// Undoes the newest segments of the journal as `undo` does, and reads each page again that a
/// segment keeps, whole, before the segment's `undone` line is added. Where a page doesn't hold the
/// bytes that the journal told for it, no such line is added and no other page is changed: the
/// segment stands, and can still be undone. Answers how many segments were undone, and how
/// many bytes their pages have, each of which was read again and held what was written. A device
/// that follows the model always holds it.
pub fn undo_verified<R: Rig>(
    alloc: Global,
    rig: &mut R,
    table: &Table,
    count: u32,
) -> Result<Returned, Fault>
    ensures cause { HasSessionCause (R.view rig.old) (R.view rig.new) result }
    ensures silent { let old = R.view rig.old in let new = R.view rig.new in
        segments_of result ≡ Ok 0 → GoesOn AreFetches old.calls new.calls }
    ensures none { IfOk result (λ returned. returned.segments ≡ 0 → returned.bytes ≡ 0) }
    ensures puts { let old = R.view rig.old in let new = R.view rig.new in
        SendsAsUndo table.now count old new (segments_of result) }
    ensures order { let old = R.view rig.old in let new = R.view rig.new in
        IfOk result (λ returned. 1 ≤ returned.segments
        → GivesBackInOrder true table.now returned old new) }
    ensures stops { let old = R.view rig.old in let new = R.view rig.new in
        IfErr result (UndoStopsAs true table.now count old new) }
    ensures given { let old = R.view rig.old in let new = R.view rig.new in
        IfOk result (λ returned. 1 ≤ returned.segments
        → GivesBackTold R.view true table.now returned old new) }
    ensures given_stops { let old = R.view rig.old in let new = R.view rig.new in
        IfErr result (UndoStopsToldAs R.view true table.now count old new) }
    ensures promised { let old = R.view rig.old in let new = R.view rig.new in
        UndoContract table.now count old new (segments_of result) }
{
    undo_as(alloc, rig, table, count, true)
}
