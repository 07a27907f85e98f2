//! What a journal keeps of the pages that sessions change, on any line, whatever it answers: laws
//! over the clauses of `run` and `undo`, and a journal that is honest where the line need not be.
#![tactic(auto)]

mod changing;
mod laws;

pub use changing::change;
pub use laws::{
    a_history_keeps_pages_as_they_were_read, a_run_keeps_pages_as_they_were_read,
    a_text_is_the_lines_that_were_added, an_undo_changes_pages_that_the_lines_keep,
    what_is_changed_is_kept_as_it_was_read,
};
