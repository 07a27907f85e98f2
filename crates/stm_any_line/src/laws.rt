//! Laws of what a journal keeps on any line: each is the contract of a function that does nothing.
//!
//! Their premises are clauses of `run` and of `undo`, which hold on any line. A line that garbles
//! makes at worst a kept page wrong whose reading it garbled: no page is changed that isn't kept.
ghost use Rattle.std.specs.Prelude.{ℕ, List};
ghost use Rattle.stm_wire.specs.Call.{Call};
ghost use Rattle.stm_wire.specs.Chip.{ChipData};
ghost use Rattle.stm_journal.specs.Journals.{Loaded};
ghost use Rattle.stm_session.specs.declared.fault.Fault.{Fault};
ghost use Rattle.stm_session.specs.Kept.{UndoPutsBack, UndoStopsBack};
ghost use Rattle.stm_session.specs.Meaning.{CommandData};
ghost use Rattle.stm_session.specs.Order.{Step};
ghost use Rattle.stm_session.specs.RunOrder.{RunStops, RunsInOrder};
ghost use Rattle.stm_any_line.specs.Calls.{DoesBehind, IsOfIfAny, Made, RunSays, UndoSays};
ghost use Rattle.stm_any_line.specs.History.{HistoriesTrack, TextsGoOn};
ghost use Rattle.stm_any_line.specs.Remembered.{ChangedIsKept, KeptWasRead};
ghost use Rattle.stm_any_line.specs.Texts.{IsLoadedAs, lines_of};

use stm_image::laying_by_parts;
use stm_wire::Rig;

/// On any line, whatever it answers, and wherever it fails: a run appends a page's line only behind
/// the reads of that page, with the bytes that came in them, and with nothing sent in between but
/// reads. It says that a page is changed, and erases or writes it, only where the segment that it
/// is in keeps the page by then. It sends no other frames but those that ask and read, and it takes no
/// segment off.
pub fn a_run_keeps_pages_as_they_were_read<R: Rig>()
    ensures done { (table : List ChipData) (commands : List CommandData)
        (old new : R) (calls : List Call) (before : List Step)
        → (ran : RunsInOrder table commands (R.view old) (R.view new))
        → Made calls (R.view old) (R.view new)
        → DoesBehind RunSays ran.chip before ran.journal.is_torn calls }
    ensures stopped { (table : List ChipData) (commands : List CommandData)
        (old new : R) (fault : Fault) (calls : List Call) (before : List Step) (chip : ChipData)
        (l : Loaded) → (stop : RunStops table commands (R.view old) (R.view new) fault)
        → IsOfIfAny chip l stop → Made calls (R.view old) (R.view new)
        → DoesBehind RunSays chip before l.is_torn calls }
{
    laying_by_parts();
}

/// On any line, whatever it answers, and wherever it fails: an undo that loaded what the lines of
/// the steps before it say erases and writes only pages that the newest segment of these lines
/// keeps, and it takes a segment off behind all changes of the segment's pages. It keeps nothing
/// and begins no segment.
pub fn an_undo_changes_pages_that_the_lines_keep<R: Rig>()
    ensures done { (table : List ChipData) (old new : R) (calls : List Call)
        (before : List Step) (tail : List ℕ)
        → (undid : UndoPutsBack table (R.view old) (R.view new))
        → IsLoadedAs undid.journal (lines_of before) tail → Made calls (R.view old) (R.view new)
        → DoesBehind UndoSays undid.chip before undid.journal.is_torn calls }
    ensures stopped { (table : List ChipData) (old new : R) (fault : Fault)
        (calls : List Call) (before : List Step) (tail : List ℕ) (chip : ChipData) (l : Loaded)
        → (stop : UndoStopsBack table (R.view old) (R.view new) fault)
        → IsOfIfAny chip l stop → IsLoadedAs l (lines_of before) tail
        → Made calls (R.view old) (R.view new) → DoesBehind UndoSays chip before l.is_torn calls }
{}

/// Where the text of a journal is just the lines of what was done, and the journal adds just what
/// the record of a call says, the text behind the call is just those lines and the lines of what
/// the call did: those that were appended whole, and of an append that failed the first ones.
pub fn a_text_is_the_lines_that_were_added()
    ensures goes_on { TextsGoOn }
{}

/// A page that the lines keep was read, and is kept with the bytes that came. At each frame of all
/// that was done that changes a page, the newest segment keeps the page so; and it stays kept,
/// unless a later line says that this segment was undone.
pub fn what_is_changed_is_kept_as_it_was_read()
    ensures read { KeptWasRead }
    ensures kept { ChangedIsKept }
{}

/// Of runs and undoes of one chip, one behind another, on any line, each of which may fail, with a
/// journal that begins empty and is honest: in all that they did each page that is changed is kept
/// by then as it came when it was read; and the text is just the lines that say so.
pub fn a_history_keeps_pages_as_they_were_read<R: Rig>()
    ensures tracks { HistoriesTrack R.view }
{
    laying_by_parts();
}
