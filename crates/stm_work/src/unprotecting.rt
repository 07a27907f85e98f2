// Write Unprotect where a session was stopped: pages that are write-protected can't be undone.
ghost use Rattle.std.specs.Prelude.{◌≡◌};
ghost use Rattle.stm_journal.specs.States.{names_other, names_other_board};
ghost use Rattle.stm_work.specs.Unprotecting.{UnprotectsBegun, UnprotectsThere, misnamed};

use std::alloc::Global;
use stm_chip::Table;
use stm_journal::Journal;
use stm_session::{Board, Fault, ask_board, tell_silence};
use stm_wire::{Protection, Rig, UniqueId, protect};

/// Whether a journal's header names another chip than this.
fn names_other(journal: &Journal, id: u16) -> bool
    ensures { result ≡ names_other id journal.now.state }
{
    match journal.id() {
        Some(own) => own != id,
        None => false,
    }
}

/// Whether it names another board than this.
fn names_other_board(journal: &Journal, unique: &UniqueId) -> bool
    ensures { result ≡ names_other_board unique.now journal.now.state }
{
    match journal.unique() {
        Some(own) => !own.is(unique),
        None => false,
    }
}

/// Why a board isn't the one that a journal names.
fn misnamed(journal: &Journal, board: &Board) -> Option<Fault>
    ensures { result ≡ misnamed journal.now.state board.now }
{
    if names_other(journal, board.id) {
        return Some(Fault::OtherDevice);
    }
    if names_other_board(journal, &board.unique) {
        return Some(Fault::OtherBoard);
    }
    None
}

/// Takes the write protection off a settled device, which resets itself behind that: so another
/// greeting may come, and the journal says so.
fn unprotect_there<L: Rig>(alloc: Global, rig: &mut L) -> Result<(), Fault>
    ensures { UnprotectsThere L.view rig.old rig.new result }
{
    protect(rig, Protection::WriteUnprotect)?;
    tell_silence(alloc, rig)
}

/// Takes the write protection off a device also while a session is unfinished. It is settled and asked
/// as ahead of an undo, whether or not it was reset, so that what could be undone still can; and has
/// to be the board that the journal names.
pub fn unprotect_begun<L: Rig>(alloc: Global, rig: &mut L, table: &Table) -> Result<(), Fault>
    ensures { UnprotectsBegun L.view table.now rig.old rig.new result }
{
    let journal = Journal::load(alloc, rig)?;
    let board = ask_board(alloc, rig, table)?;
    match misnamed(&journal, &board) {
        Some(fault) => Err(fault),
        None => unprotect_there(alloc, rig),
    }
}
