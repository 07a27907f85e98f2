//! A session with a device, over any line and journal: everything is checked before
//! the first command is begun.
#![tactic(auto)]

mod asking_board;
mod board_session;
mod change;
mod changing;
mod check;
mod closing;
mod command;
mod command_check;
mod commanding;
mod comparing;
mod confirming;
mod contact;
mod content;
mod deed;
mod deeds;
mod fault;
mod go_and_protect;
mod greeting;
mod headline;
mod identifying;
mod information;
mod inspect;
mod journal_chip;
mod journal_device;
mod laws;
mod laws_of_steps;
mod listing;
mod one_command;
mod opening;
mod outcome;
mod page_at_work;
mod page_changes;
mod reading;
mod reading_again;
mod returned;
mod returned_bytes;
mod returning;
mod rewriting;
mod running;
mod saving;
mod segment_begin;
mod segment_end;
mod segment_undo;
mod segments_undo;
mod settling;
mod silence;
mod undo_course;
mod undoing;
mod unprotecting;
mod verified_write;

pub use asking_board::{Board, told_board_is_the_devices};
pub use board_session::ask_board;
pub use command::Command;
pub use contact::Told;
pub use fault::Fault;
pub use go_and_protect::{go, protect};
pub use greeting::{Greeting, greet};
pub use headline::{a_session_can_be_undone, the_first_difference_is_the_first};
pub use identifying::identify;
pub use information::Info;
pub use inspect::info;
pub use journal_chip::check_undo;
pub use laws::{
    a_chip_is_looked_up_by_its_id, a_journal_of_the_chip_is_not_refused,
    a_power_loss_keeps_what_can_be_undone, a_ready_device_can_begin,
    a_reset_keeps_what_can_be_undone, a_run_is_known_by_its_outcomes,
    a_run_keeps_pages_before_it_changes_them, a_run_of_reads_begins_no_segment,
    a_session_changes_only_its_own_board, a_stopped_command_may_be_greeted,
    a_verified_write_saw_each_byte, an_undo_changes_only_pages_that_it_undoes,
    an_unrefused_journal_can_be_undone, asking_keeps_what_can_be_undone,
    lost_bytes_keep_what_can_be_undone, reads_in_the_flash_are_not_refused,
};
pub use outcome::{Outcome, Report, VerifiedWrite};
pub use returned::Returned;
pub use running::run;
pub use silence::tell_silence;
pub use undoing::{undo, undo_verified};
pub use unprotecting::unprotect_fresh;
pub use verified_write::write_and_verify;
