//! Laws of what can be undone: each is the contract of a function that does nothing.
ghost use Rattle.std.specs.Prelude.{◌≡◌, ◌⊎◌, ℕ, List, [], Result, Some, None, false, true};
ghost use Rattle.std.specs.List.{list_all};
ghost use Rattle.stm_image.specs.Pairs.{Pairs};
ghost use Rattle.stm_wire.specs.Chip.{ChipData};
ghost use Rattle.stm_wire.specs.Device.{Device, IsDevice, IsReady, reset};
ghost use Rattle.stm_wire.specs.Dialogue.{GoesOn};
ghost use Rattle.stm_chip.specs.Document.{IsChipWith, IsNewId};
ghost use Rattle.stm_journal.specs.Calls.{AreFetches};
ghost use Rattle.stm_journal.specs.Flashes.{flashes_before_segments};
ghost use Rattle.stm_journal.specs.Journals.{journal_of};
ghost use Rattle.stm_journal.specs.States.{IsSound, StateData, intent_of};
ghost use Rattle.stm_session.specs.declared.command.Command.{Command};
ghost use Rattle.stm_session.specs.declared.fault.Fault.{Fault};
ghost use Rattle.stm_session.specs.declared.outcome.Report.{Report};
ghost use Rattle.stm_session.specs.declared.returned.Returned.{Returned};
ghost use Rattle.stm_session.specs.Answers.{OutcomeData, outcomes_in};
ghost use Rattle.stm_session.specs.Boards.{IsForeign, IsOfItsBoard, OnlyAsks};
ghost use Rattle.stm_session.specs.Events.{OutcomesAreTheRun};
ghost use Rattle.stm_session.specs.Kept.{RunKeeps, RunStopsKept, UndoPutsBack, UndoStopsBack};
ghost use Rattle.stm_session.specs.Greeting.{FreshIsGreetable, LossIsGreetable, StoppedIsGreetable};
ghost use Rattle.stm_session.specs.Meaning.{CommandData, commands_in};
ghost use Rattle.stm_session.specs.Moments.{IsSafe, SameMake};
ghost use Rattle.stm_session.specs.UndoOrder.{GivesBackInOrder, UndoStopsAs, UndoStops};
ghost use Rattle.stm_session.specs.UndoOrder.{UndoesInOrder};
ghost use Rattle.stm_session.specs.PowerLoss.{
  AnyBytesAreLeft,
  FinishedLosesNothing,
  IntentIsAtRisk,
  OwedLossKeepsFlashes,
  PowerLossKeepsFlashes,
};
ghost use Rattle.stm_session.specs.Refusal.{chip_with, misfit_refusal, opening_refusal};
ghost use Rattle.stm_session.specs.Refusals.{is_in_flash, run_refusal};
ghost use Rattle.stm_session.specs.Running.{RunsReads, is_reading};
ghost use Rattle.stm_session.specs.RunOrder.{RunStops, RunsInOrder};
ghost use Rattle.stm_session.specs.Runs.{Runs};
ghost use Rattle.stm_session.specs.Seen.{SeesImage};
ghost use Rattle.stm_session.specs.ToldBoard.{IsPartOf};
ghost use Rattle.stm_session.specs.Unasked.{unasked_refusal};
ghost use Rattle.stm_session.specs.VerifiedWrite.{WritesAndSees};
ghost use Rattle.stm_session.specs.Undoable.{IsJournalOf, Undoable, has_companion};
ghost use Rattle.stm_session.specs.Undoable.{is_unfinished_at, state_at};
ghost use Rattle.stm_session.specs.Work.{pages_at_work, pages_of_intent};

use stm_image::{laying_by_parts, laying_keeps_places};
use stm_journal::{a_journal_is_sound, changes_of_kept_pages_keep_the_flashes};
use stm_wire::{
    Rig, greeting_is_kept, harmless_is_kept, pages_are_the_flash, sending_is_harmless,
    stopped_is_harmless, stopped_may_be_greeted,
};

/// A ready device is safe, and on a safe one an empty journal has nothing to undo.
pub fn a_ready_device_can_begin()
    ensures safe { (d : Device) → IsDevice d → IsReady d → IsSafe d }
    ensures undoable { (d : Device) → IsDevice d → IsReady d → Undoable [] d [] }
    ensures empty { (d : Device) → IsSafe d → Undoable [] d [] }
{
    stopped_is_harmless();
}

/// What can be undone, still can after a reset of the device.
pub fn a_reset_keeps_what_can_be_undone()
    ensures { (flashes : List (List ℕ)) (d : Device) (journal : List ℕ)
        → Undoable flashes d journal → Undoable flashes (reset d) journal }
{
    harmless_is_kept();
}

/// What can be undone, still can when bytes that the device owed are lost.
pub fn lost_bytes_keep_what_can_be_undone()
    ensures { OwedLossKeepsFlashes }
{
    harmless_is_kept();
}

/// What can be undone, still can after a loss of power, also inside an erase or a write,
/// whatever bytes that leaves in the pages which the unfinished newest segment keeps. These have
/// the page of the journal's intent among them, and each page that settling the device by that
/// intent may change. Where no segment is unfinished, the flash is as it was.
pub fn a_power_loss_keeps_what_can_be_undone()
    ensures undoable { PowerLossKeepsFlashes }
    ensures finished { FinishedLosesNothing }
    ensures intended { IntentIsAtRisk }
    ensures any { AnyBytesAreLeft }
{
    stopped_is_harmless();
    pages_are_the_flash();
    a_journal_is_sound();
    changes_of_kept_pages_keep_the_flashes();
}

/// A device may be greeted that is fresh from reset, also after a loss of power; and one that was
/// settled and sent a frame under the intent that the journal has, wherever the host was stopped. It
/// still may where owed bytes are lost. Of one that was stopped while the intent's byte was sent ahead of
/// a greeting nothing is said.
pub fn a_stopped_command_may_be_greeted()
    ensures fresh { FreshIsGreetable }
    ensures lost { LossIsGreetable }
    ensures stopped { StoppedIsGreetable }
{
    stopped_may_be_greeted();
    greeting_is_kept();
    sending_is_harmless();
    a_journal_is_sound();
}

/// Where the journal is finished, the device is safe, and at any moment of calls that begin no
/// segment, what could be undone still can.
pub fn asking_keeps_what_can_be_undone()
    ensures safe { (flashes : List (List ℕ)) (d : Device) (journal : List ℕ)
        → Undoable flashes d journal → is_unfinished_at journal ≡ false → IsSafe d }
    ensures undoable { (flashes : List (List ℕ)) (old d : Device) (journal : List ℕ)
        → Undoable flashes old journal → is_unfinished_at journal ≡ false
        → SameMake old d → d.flash ≡ old.flash → IsSafe d → Undoable flashes d journal }
{}

/// On a safe device whose chip the table holds, a journal that isn't refused, when a session is
/// opened or for a run's commands, can be undone to the flashes that it keeps.
pub fn an_unrefused_journal_can_be_undone()
    ensures opened { (table : List ChipData) (d : Device) (journal : List ℕ)
        → IsSafe d → IsChipWith table d.chip.id d.chip
        → opening_refusal (journal_of journal) d table ≡ None
        → Undoable (flashes_before_segments d.chip (state_at journal).stack d.flash) d journal }
    ensures run { (table : List ChipData) (commands : List CommandData) (d : Device)
        (journal : List ℕ) → IsSafe d → IsChipWith table d.chip.id d.chip
        → run_refusal (journal_of journal) d table commands ≡ None
        → Undoable (flashes_before_segments d.chip (state_at journal).stack d.flash) d journal }
{}

/// What a refusal looks up in a table is the chip that the table holds under an id, or
/// none where none has that id.
pub fn a_chip_is_looked_up_by_its_id()
    ensures held { (table : List ChipData) (id : ℕ) (chip : ChipData)
        → IsChipWith table id chip → chip_with table id ≡ Some chip }
    ensures lacking { (table : List ChipData) (id : ℕ)
        → IsNewId table id → chip_with table id ≡ None }
{}

/// A journal is refused for its header or for the pages that it keeps exactly where it isn't a
/// journal of the chip; and it isn't before that is asked which board of the table's chip it is. In
/// one that is, page 257 is at work with page 1 exactly where the chip has
/// it.
pub fn a_journal_of_the_chip_is_not_refused()
    ensures unrefused { (chip : ChipData) (s : StateData)
        → IsJournalOf chip s → misfit_refusal chip s ≡ None }
    ensures fits { (chip : ChipData) (s : StateData)
        → misfit_refusal chip s ≡ None → IsJournalOf chip s }
    ensures asked { (listed chip : ChipData) (s : StateData)
        → IsPartOf listed chip → IsJournalOf chip s → unasked_refusal listed s ≡ None }
    ensures work { (chip : ChipData) (s : StateData) → IsSound s → IsJournalOf chip s
        → pages_at_work s.stack ≡ pages_of_intent (intent_of s) (has_companion chip) }
{}

/// A run that only reads, and is refused nothing, begins no segment: its outcomes hold the flash's
/// own bytes, and it fails by the line, the journal or memory alone.
pub fn a_run_of_reads_begins_no_segment<R: Rig>()
    ensures { (commands : List Command) (flashes : List (List ℕ)) (old new : R)
        (result : Result Report Fault) → list_all is_reading commands ≡ true
        → is_unfinished_at (R.view old).journal ≡ false
        → Runs (commands_in commands) flashes (R.view old) (R.view new) result outcomes_in
        → RunsReads commands (R.view old) (R.view new) result
        (λ report. report.outcomes.items) }
{}

/// What a run promises of itself, whatever it answers, it promises of the
/// outcomes that its answer tells.
pub fn a_run_is_known_by_its_outcomes<R: Rig, T>()
    ensures { OutcomesAreTheRun R T R.view }
{}

/// Of reads no more is refused, once a session is opened, than a place outside the flash.
pub fn reads_in_the_flash_are_not_refused()
    ensures { (journal : List ℕ) (d : Device) (table : List ChipData) (chip : ChipData)
        (commands : List Command) → list_all is_reading commands ≡ true
        → opening_refusal (journal_of journal) d table ≡ None
        → chip_with table d.chip.id ≡ Some chip → list_all (is_in_flash chip) commands ≡ true
        → run_refusal (journal_of journal) d table (commands_in commands) ≡ None }
{
    a_journal_is_sound();
}

/// On any line, whatever it answers, a run has appended a page's line, in the segment that it is
/// in, before it appends the intent to erase or write the page, and before it sends such a frame;
/// and it sends no other frames but those that read. It ends a segment behind the last of these,
/// each of which was acknowledged. That holds of all that was done, and of what failed.
pub fn a_run_keeps_pages_before_it_changes_them<R: Rig>()
    ensures done { (table : List ChipData) (commands : List CommandData)
        (old new : R) → RunsInOrder table commands (R.view old) (R.view new)
        → RunKeeps table (R.view old) (R.view new) }
    ensures stopped { (table : List ChipData) (commands : List CommandData)
        (old new : R) (fault : Fault)
        → RunStops table commands (R.view old) (R.view new) fault
        → RunStopsKept table (R.view old) (R.view new) fault }
{
    laying_by_parts();
}

/// On any line: where a write answers Ok that is verified, each byte of its image was read in the
/// session, and was the image's, after the last frame that erased or wrote in its page.
pub fn a_verified_write_saw_each_byte<R: Rig>()
    ensures { (table : List ChipData) (image part : Pairs) (outcomes : List OutcomeData)
        (old new : R) → WritesAndSees table image part outcomes (R.view old) (R.view new)
        → SeesImage table image (R.view old) (R.view new) }
{
    laying_by_parts();
    laying_keeps_places();
}

/// On any line, whatever it answers, an undo erases and writes only pages that the newest segment
/// which it hasn't taken off yet keeps, and appends intents only for these; and it sends no other
/// frames but those that read. It takes a segment off behind the last of these, each of which was
/// acknowledged. That holds of all that was done, and of what failed.
pub fn an_undo_changes_only_pages_that_it_undoes<R: Rig>()
    ensures done { (table : List ChipData) (taken : ℕ) (old new : R)
        → UndoesInOrder table taken (R.view old) (R.view new)
        → UndoPutsBack table (R.view old) (R.view new) }
    ensures stopped { (table : List ChipData) (count : ℕ) (old new : R)
        (fault : Fault) → UndoStops table count (R.view old) (R.view new) fault
        → UndoStopsBack table (R.view old) (R.view new) fault }
    // So does one that reads each page again.
    ensures verified { (table : List ChipData) (returned : Returned)
        (old new : R) → GivesBackInOrder true table returned (R.view old) (R.view new)
        → UndoPutsBack table (R.view old) (R.view new) }
    ensures verified_stopped { (table : List ChipData) (count : ℕ) (old new : R)
        (fault : Fault) → UndoStopsAs true table count (R.view old) (R.view new) fault
        → UndoStopsBack table (R.view old) (R.view new) fault }
{}

/// On any line, whatever it answers: a run that succeeded, or that sent or appended anything but to
/// settle and ask the device, and an undo that did anything but read its journal, had loaded one
/// that names no other board than a chip of the table. On a line that follows the model that is the
/// Rig's own journal; so one of which no chip of the table is the board is left alone with its
/// device.
pub fn a_session_changes_only_its_own_board<R: Rig>()
    ensures run { (table : List ChipData) (commands : List CommandData)
        (old new : R) → RunsInOrder table commands (R.view old) (R.view new)
        → IsOfItsBoard table (R.view old) }
    ensures run_stops { (table : List ChipData) (commands : List CommandData)
        (old new : R) (fault : Fault)
        → RunStops table commands (R.view old) (R.view new) fault
        → OnlyAsks (R.view old) (R.view new) fault ⊎ IsOfItsBoard table (R.view old) }
    ensures undo { (table : List ChipData) (taken : ℕ) (old new : R)
        → UndoesInOrder table taken (R.view old) (R.view new)
        → IsOfItsBoard table (R.view old) }
    ensures undo_stops { (table : List ChipData) (count : ℕ) (old new : R)
        (fault : Fault) → UndoStops table count (R.view old) (R.view new) fault
        → GoesOn AreFetches (R.view old).calls (R.view new).calls
        ⊎ IsOfItsBoard table (R.view old) }
    ensures verified { (table : List ChipData) (returned : Returned)
        (old new : R) → GivesBackInOrder true table returned (R.view old) (R.view new)
        → IsOfItsBoard table (R.view old) }
    ensures verified_stops { (table : List ChipData) (count : ℕ) (old new : R)
        (fault : Fault) → UndoStopsAs true table count (R.view old) (R.view new) fault
        → GoesOn AreFetches (R.view old).calls (R.view new).calls
        ⊎ IsOfItsBoard table (R.view old) }
    ensures foreign { (table : List ChipData) (old : R) → (R.view old).is_honest
        → IsForeign table (R.view old).journal → IsOfItsBoard table (R.view old) → ⊥ }
{}
