//! Pages that a loss of power left weak: laws over the clauses of `run` and `undo`. No such page is
//! believed, and behind an undo that answers Ok there is none, on any line, whatever it answers.
#![tactic(auto)]

mod device;
mod headline;
mod laws;
mod undoing;
mod weak_rig;

pub use device::{
    a_history_is_that_of_an_ordinary_device, a_weak_device_is_ordinary_while_unread,
    a_weak_page_reads_anything_until_it_is_erased, events_that_believe_no_weak_page_are_ordinary,
    frames_that_ask_or_change_are_unread, settling_in_batches_leaves_it_waiting,
};
pub use headline::a_weak_history_can_be_undone;
pub use laws::{an_undo_believes_no_page_at_work, weak_pages_are_at_work};
pub use undoing::undo_segment;
pub use weak_rig::WeakRig;
