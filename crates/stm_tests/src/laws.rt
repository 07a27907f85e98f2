// Laws, each called once: of sessions, for the Rig in memory and for a line on which a byte comes wrong, of
// files on a disk, and of watched devices. Those that are generic are called at a type.
use std::io;
use stm_any_line::{
    a_history_keeps_pages_as_they_were_read, a_run_keeps_pages_as_they_were_read,
    a_text_is_the_lines_that_were_added, an_undo_changes_pages_that_the_lines_keep,
    what_is_changed_is_kept_as_it_was_read,
};
use stm_disk::{
    DiskRig, MemoryFile, a_crash_in_a_session_is_a_stop, a_crash_in_an_append_is_good,
    a_crash_is_a_stop, a_file_is_locked_before_its_first_byte, an_unkept_name_is_empty,
    appends_are_one, programs_are_one, programs_take_turns, stopped_appends_follow,
};
use stm_session::{
    a_session_can_be_undone, a_session_changes_only_its_own_board,
    the_first_difference_is_the_first, told_board_is_the_devices,
};
use stm_sim::{FlipRig, MemoryRig};
use stm_watch::{honest_passes, watched_is_heard_of};
use stm_weak::{
    WeakRig, a_weak_history_can_be_undone, an_undo_believes_no_page_at_work, weak_pages_are_at_work,
};

#[test]
fn laws_are_had(_rt: HostRuntime) {
    a_session_can_be_undone::<MemoryRig>();
    a_session_can_be_undone::<WeakRig>();
    a_weak_history_can_be_undone::<WeakRig>();
    the_first_difference_is_the_first();
    an_undo_believes_no_page_at_work::<MemoryRig>();
    weak_pages_are_at_work::<MemoryRig>();
    a_session_changes_only_its_own_board::<MemoryRig>();
    told_board_is_the_devices();
    a_run_keeps_pages_as_they_were_read::<FlipRig>();
    an_undo_changes_pages_that_the_lines_keep::<FlipRig>();
    a_text_is_the_lines_that_were_added();
    what_is_changed_is_kept_as_it_was_read();
    a_history_keeps_pages_as_they_were_read::<FlipRig>();
    a_crash_is_a_stop();
    a_crash_in_an_append_is_good();
    appends_are_one::<MemoryFile, io::Error>();
    stopped_appends_follow::<MemoryFile>();
    programs_are_one();
    programs_take_turns();
    a_file_is_locked_before_its_first_byte();
    an_unkept_name_is_empty();
    a_crash_in_a_session_is_a_stop::<DiskRig<MemoryRig, MemoryFile>, MemoryFile>();
    honest_passes();
    watched_is_heard_of();
}
