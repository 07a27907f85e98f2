//! The line to the bootloader of an STM32: its chip, its frames, and what a device makes of them
//! (ST AN3155).
#![tactic(auto)]

mod batch;
mod bytes;
mod chip;
mod dialogue;
mod draining;
mod erase_memory;
mod fault;
mod get_command;
mod get_id_command;
mod go_command;
mod greeting;
mod harmless;
mod intent;
mod places;
mod protection;
mod read_memory;
mod refusable_read;
mod rig;
mod settling;
mod telling;
mod unique_id;
mod verdict;
mod write_memory;

pub use bytes::{copy_from, part};
pub use chip::{Chip, EraseKind};
pub use erase_memory::erase_page;
pub use fault::{RigFault, WireFault};
pub use get_command::{Commands, get_commands};
pub use get_id_command::get_id;
pub use go_command::go;
pub use greeting::greet;
pub use harmless::{
    awaited_is_limited, greeting_is_kept, harmless_is_kept, pages_are_the_flash,
    sending_is_harmless, stopped_is_harmless, stopped_may_be_greeted,
};
pub use intent::{Intent, settling_byte};
pub use places::{BoardPlaces, UniquePlace};
pub use protection::{Protection, protect};
pub use read_memory::read;
pub use refusable_read::{read_unless_refused, refusable_reads_are_harmless};
pub use rig::{Patience, Rig, RigCall};
pub use settling::{connect, settle, settle_under};
pub use telling::{asks_unique, kib_bytes};
pub use unique_id::UniqueId;
pub use verdict::{Verdict, done_if, fits_inside, verdict_of};
pub use write_memory::program;
