//! The journal of a session: which pages the flash had before each command, line by line, so
//! that it can be undone.
#![tactic(auto)]

mod append;
mod entry;
mod fault;
mod fetch_page;
mod header;
mod journal;
mod kept;
mod laws;
mod line;
mod load;
mod place;
mod print;
mod segment;
mod stage;
mod state;
mod summary;

pub use entry::Entry;
pub use fault::JournalFault;
pub use header::JournalHeader;
pub use journal::Journal;
pub use kept::{Kept, PageBytes, PagePlace};
pub use laws::{
    a_beginning_leaves_the_old_segments_or_one_more, a_greeting_counts_as_nothing,
    a_journal_is_sound, a_printed_line_reads_back, a_stopped_append_is_good, a_summary_decides,
    a_summary_follows, a_summary_goes_on, an_entry_ends_a_greeting,
    an_entry_leaves_the_old_state_or_the_new, changes_of_kept_pages_keep_the_flashes,
    entries_forget, flashes_before_segments, keeping_a_page_keeps_the_flashes, pages_are_placed,
    pages_given_back_are_the_flash_before, pieces_say,
};
pub use stage::Stage;
pub use stm_wire::Intent;
