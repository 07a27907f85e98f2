// What holds of journals, as functions without a body: their contracts are the laws.
ghost use Rattle.std.specs.Prelude.{◌≡◌, ℕ, List, Some};
ghost use Rattle.stm_journal.specs.declared.entry.Entry.{Entry};
ghost use Rattle.stm_journal.specs.Entries.{entry_of, line_of};
ghost use Rattle.stm_journal.specs.States.{StateData, IsSound};
ghost use Rattle.stm_journal.specs.Journals.{IsPrintable, journal_of, good};
ghost use Rattle.stm_journal.specs.Flashes.{FlashesAreThose};
ghost use Rattle.stm_journal.specs.Beginnings.{BeginningsAreGood};
ghost use Rattle.stm_journal.specs.Added.{EntriesLeaveEither, BeginningsLeaveEither};
ghost use Rattle.stm_journal.specs.FlashLaws.{KeepingKeepsFlashes, ChangesKeepFlashes};
ghost use Rattle.stm_journal.specs.FlashLaws.{HeldIsBefore};
ghost use Rattle.stm_journal.specs.GreetingCalls.{GreetingsCountAsNothing, EntriesEndGreetings};
ghost use Rattle.stm_journal.specs.Places.{PagesArePlaced};
ghost use Rattle.stm_journal.specs.Forget.{EntriesForget, SummaryFollows};
ghost use Rattle.stm_journal.specs.Pieces.{PiecesSay};
ghost use Rattle.stm_journal.specs.Summary.{SummaryDecides, SummaryGoesOn};

/// A printed line reads back as its entry.
pub fn a_printed_line_reads_back()
    ensures { (e : Entry) → IsPrintable e → entry_of (line_of e) ≡ Some e }
{}

/// The flash before segment `k` is, among the flashes before the segments, the newest first, the
/// one that stands as far from the front as segments lie above `k`.
pub fn flashes_before_segments()
    ensures { FlashesAreThose }
{}

/// In a journal without a bad line every segment below the newest is ended, a page stands once in a
/// segment, the newest segment keeps the page of its intent, a journal with a segment has a header,
/// and its depth is at most 65,535.
pub fn a_journal_is_sound()
    ensures { (bytes : List ℕ) (s : StateData) → journal_of bytes ≡ good s → IsSound s }
{}

/// Wherever an append of entries that are allowed is stopped, the journal is good, and its state is
/// the one before with a beginning of the entries added.
pub fn a_stopped_append_is_good()
    ensures { BeginningsAreGood }
{}

/// Wherever the append of a greeting is stopped, the journal comes to what it came to. Unless all of
/// the line or nothing of it stands, the tail is torn, and no greeting may come.
pub fn a_greeting_counts_as_nothing()
    ensures { GreetingsCountAsNothing }
{}

/// Behind an entry no greeting is the last line.
pub fn an_entry_ends_a_greeting()
    ensures { EntriesEndGreetings }
{}

/// In a journal without a bad line the digits of each kept page stand at its place, two a
/// byte, and say its bytes.
pub fn pages_are_placed()
    ensures { PagesArePlaced }
{}

/// The summary decides the line.
pub fn a_summary_decides()
    ensures { SummaryDecides }
{}

/// The summary of a line that goes on needs nothing but that of its beginning.
pub fn a_summary_goes_on()
    ensures { SummaryGoesOn }
{}

/// The line rules need no bytes of pages, and entries without bytes lead to states without bytes.
pub fn entries_forget()
    ensures { EntriesForget }
{}

/// The summary of a line does to the state in memory what the line does to the text's.
pub fn a_summary_follows()
    ensures { SummaryFollows }
{}

/// Where digits say a page, each piece of them that begins at a byte says that part of the page.
pub fn pieces_say()
    ensures { PiecesSay }
{}

/// Wherever the append of one entry that is allowed is stopped, the journal comes to the old
/// state or to the one that the entry makes of it: what its call promises of the newest segment
/// is so of the text's state.
pub fn an_entry_leaves_the_old_state_or_the_new()
    ensures { EntriesLeaveEither }
{}

/// Wherever the append that begins a segment is stopped, the journal has the segments
/// that it had, or one more.
pub fn a_beginning_leaves_the_old_segments_or_one_more()
    ensures { BeginningsLeaveEither }
{}

/// Where the newest segment keeps a page more, as the flash holds it, the flashes
/// before the segments stay.
pub fn keeping_a_page_keeps_the_flashes()
    ensures { KeepingKeepsFlashes }
{}

/// Where the flash changes inside pages that the newest segment keeps, the flashes
/// before the segments stay.
pub fn changes_of_kept_pages_keep_the_flashes()
    ensures { ChangesKeepFlashes }
{}

/// Once the flash holds all that a segment keeps, it is the flash before that segment.
pub fn pages_given_back_are_the_flash_before()
    ensures { HeldIsBefore }
{}
