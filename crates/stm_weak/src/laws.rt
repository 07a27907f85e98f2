//! Laws of weak pages: each is the contract of a function that does nothing.
//!
//! A page whose erase or write was cut by a loss of power may answer other bytes at each read,
//! until it is erased whole. The premises are clauses of `run` and `undo`, which hold on any line.
ghost use Rattle.std.specs.Prelude.{ℕ, true, List};
ghost use Rattle.stm_wire.specs.Chip.{ChipData};
ghost use Rattle.stm_session.specs.declared.fault.Fault.{Fault};
ghost use Rattle.stm_session.specs.declared.returned.Returned.{Returned};
ghost use Rattle.stm_session.specs.UndoOrder.{GivesBackInOrder, UndoStopsAs, UndoStops};
ghost use Rattle.stm_session.specs.UndoOrder.{UndoesInOrder};
ghost use Rattle.stm_weak.specs.Believed.{UndoHeals, UndoStopsHealing};
ghost use Rattle.stm_weak.specs.History.{HistoriesHeal};

use stm_image::laying_by_parts;
use stm_session::a_journal_of_the_chip_is_not_refused;
use stm_wire::Rig;

/// On any line, whatever it answers, and wherever it fails: where each page at work may be weak as
/// an undo begins, it reads no page before all of these were erased whole. It erases and writes
/// only the page of its newest intent, and behind each line the pages that may be weak are at work.
/// At Ok no page may be weak.
pub fn an_undo_believes_no_page_at_work<R: Rig>()
    ensures done { (table : List ChipData) (taken : ℕ) (old new : R)
        → UndoesInOrder table taken (R.view old) (R.view new)
        → UndoHeals table (R.view old) (R.view new) }
    ensures stopped { (table : List ChipData) (count : ℕ) (old new : R)
        (fault : Fault) → UndoStops table count (R.view old) (R.view new) fault
        → UndoStopsHealing table (R.view old) (R.view new) fault }
    // So does one that reads each page again.
    ensures verified { (table : List ChipData) (returned : Returned)
        (old new : R) → GivesBackInOrder true table returned (R.view old) (R.view new)
        → UndoHeals table (R.view old) (R.view new) }
    ensures verified_stopped { (table : List ChipData) (count : ℕ) (old new : R)
        (fault : Fault) → UndoStopsAs true table count (R.view old) (R.view new) fault
        → UndoStopsHealing table (R.view old) (R.view new) fault }
{}

/// Of runs, undos and calls that ask for the board, one behind another, of one chip, on any line,
/// each of which may be stopped anywhere, with losses of power at any moment: each page that may be
/// weak is at work by the lines so far, and no frame reads the flash while one may be; and behind a
/// run or an undo that answers Ok none may be.
pub fn weak_pages_are_at_work<R: Rig>()
    ensures heal { HistoriesHeal R.view }
{
    laying_by_parts();
    a_journal_of_the_chip_is_not_refused();
}
