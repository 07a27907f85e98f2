//! A line to the bootloader of an STM32 that is watched: each reply has to be one that a device of
//! the model gives.
#![tactic(auto)]

mod change;
mod laws;
mod listing;
mod replies;
mod sight;
mod watch;
mod watch_rig;

pub use laws::{honest_passes, watched_is_heard_of};
pub use listing::is_listing;
pub use sight::Sight;
pub use watch::Watch;
pub use watch_rig::{Refusal, WatchRig};
