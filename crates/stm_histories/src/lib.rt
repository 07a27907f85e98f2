//! Laws of what the program does on a device that no user's call needs: that it is a history of the
//! headline, and that a stored simulator whose power was lost is undone.
#![tactic(auto)]

mod histories;
mod unpowered;

pub use histories::{a_stored_simulator_goes_on, actions_are_histories};
pub use unpowered::{Names, SpoiltPage, undo_stored};
