// Reaching a device to ask which board it is: it is settled as the session that follows would.
ghost use Rattle.std.specs.Prelude.{◌≡◌, [], Bool, List, ℕ, IfErr, IfOk};
ghost use Rattle.stm_wire.specs.Dialogue.{GoesOn};
ghost use Rattle.stm_wire.specs.Parts.{AreFew};
ghost use Rattle.stm_journal.specs.Journals.{IsLoaded};
ghost use Rattle.stm_journal.specs.States.{intent_of};
ghost use Rattle.stm_session.specs.AskedBoard.{AsksWhich};
ghost use Rattle.stm_session.specs.AskingBoard.{AnswersInOrder, AsksInPart, most_of_board};
ghost use Rattle.stm_session.specs.Fault.{HasSessionCause, cause_of};
ghost use Rattle.stm_session.specs.Fresh.{contact_way, settling_way};
ghost use Rattle.stm_session.specs.Moments.{BeginsNothing, IsSafe};
ghost use Rattle.stm_session.specs.Steps.{Goes};
ghost use Rattle.stm_session.specs.ToldBoard.{IsBoardOf};
ghost use Rattle.stm_session.specs.Undoable.{Undoable};
ghost use Rattle.stm_session.specs.Unwritten.{AppendsNothing};

use crate::Fault;
use crate::asking_board::{Board, ask_settled};
use crate::contact::settle_safe;
use crate::journal_chip::find_unasked;
use crate::laws_of_steps::step_laws;
use crate::settling::settle_intended;
use std::alloc::Global;
use stm_chip::Table;
use stm_journal::Journal;
use stm_wire::{Chip, Rig};

/// Settles a device with 7F, and asks it who it is, and which board.
fn ask_finished<R: Rig>(rig: &mut R, table: &Table) -> Result<Board, Fault>
    ensures unwritten { let old = R.view rig.old in let new = R.view rig.new in
        GoesOn AppendsNothing old.calls new.calls }
    ensures cause { let old = R.view rig.old in let new = R.view rig.new in
        HasSessionCause old new result }
    ensures few { let old = R.view rig.old in let new = R.view rig.new in
        GoesOn (AreFew most_of_board) old.calls new.calls }
    ensures order { let old = R.view rig.old in let new = R.view rig.new in
        (torn : Bool) → IfOk result (λ board.
        AnswersInOrder table.now board contact_way torn old new) }
    ensures stops { let old = R.view rig.old in let new = R.view rig.new in
        (torn : Bool) → IfErr result (λ fault.
        GoesOn (AsksInPart table.now contact_way (cause_of fault) torn)
        old.calls new.calls) }
    ensures kept { let old = R.view rig.old in let new = R.view rig.new in
        old.is_honest → new.journal ≡ old.journal }
    ensures honest { let old = R.view rig.old in let new = R.view rig.new in
        old.is_honest → IsSafe old.device → BeginsNothing old new result (IsBoardOf table.now old.device.chip) }
{
    settle_safe(rig)?;
    ask_settled(rig, table)
}

/// Settles a device by the intent of an unfinished journal, as one of this chip, and asks it who it
/// is, and which board.
fn ask_unfinished<R: Rig>(
    rig: &mut R,
    journal: &Journal,
    chip: &Chip,
    table: &Table,
) -> Result<Board, Fault>
    ensures unwritten { let old = R.view rig.old in let new = R.view rig.new in
        GoesOn AppendsNothing old.calls new.calls }
    ensures cause { let old = R.view rig.old in let new = R.view rig.new in
        HasSessionCause old new result }
    ensures few { let old = R.view rig.old in let new = R.view rig.new in
        GoesOn (AreFew most_of_board) old.calls new.calls }
    ensures order { let old = R.view rig.old in let new = R.view rig.new in
        let way = settling_way chip.now.kind journal.now.is_greeted (intent_of journal.now.state) in
        (torn : Bool) → IfOk result (λ board. AnswersInOrder table.now board way torn old new) }
    ensures stops { let old = R.view rig.old in let new = R.view rig.new in
        let way = settling_way chip.now.kind journal.now.is_greeted (intent_of journal.now.state) in
        (torn : Bool) → IfErr result (λ fault.
        GoesOn (AsksInPart table.now way (cause_of fault) torn) old.calls new.calls) }
    ensures honest { let old = R.view rig.old in let new = R.view rig.new in
        old.is_honest → (flashes : List (List ℕ))
        → IsLoaded journal.now old.journal
        → Undoable flashes old.device old.journal → old.device.chip.kind ≡ chip.now.kind
        → Goes flashes [] journal.now old new result (IsBoardOf table.now old.device.chip) }
{
    step_laws();
    settle_intended(rig, journal, chip)?;
    ask_settled(rig, table)
}

/// Asks a device which board it is, and what size its flash has. The device is settled as the
/// session that follows would: where the journal is finished with 7F; else by its intent and the
/// chip of the table that its header names. A bad journal is refused before a byte is sent, and so
/// is an unfinished one that no board of the table can have, as `undo` would refuse it.
/// Then come Get and Get ID, and one read of each place where the table's chip with that id tells
/// its board. A place whose read is refused is told nothing, and so is one that holds FF alone or 00
/// alone, and a size of 0 or FFFF.
pub fn ask_board<R: Rig>(alloc: Global, rig: &mut R, table: &Table) -> Result<Board, Fault>
    ensures { let old = R.view rig.old in let new = R.view rig.new in
        AsksWhich table.now old new result }
{
    step_laws();
    let journal = Journal::load(alloc, rig)?;
    if !journal.is_unfinished() {
        return ask_finished(rig, table);
    }
    let _depth = journal.depth();
    let Some(id) = journal.id() else {
        unreachable!()
    };
    let chip = find_unasked(&journal, table, id)?;
    ask_unfinished(rig, &journal, chip, table)
}
