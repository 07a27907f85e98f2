//! A file of lines on a disk, and what a crash of the PC leaves of lines that were being added.
#![tactic(auto)]

mod crash_end;
mod disk_in_memory;
mod disk_rig;
mod growing_file;
mod laws;
mod lines;
mod memory_file;

pub use crash_end::{lines_size, unsynced_end};
pub use disk_in_memory::memory_disk;
pub use disk_rig::DiskRig;
pub use growing_file::GrowingFile;
pub use laws::{
    a_crash_in_a_session_is_a_stop, a_crash_in_an_append_is_good, a_crash_is_a_stop,
    a_cut_keeps_what_was_acknowledged, a_file_is_locked_before_its_first_byte,
    an_unkept_name_is_empty, appends_are_one, programs_are_one, programs_take_turns,
    stopped_appends_follow,
};
pub use lines::add_lines;
pub use memory_file::MemoryFile;
