//! Images for a chip's memory: Intel HEX and raw bytes, read into a set of (address, byte).
#![tactic(auto)]

mod clash;
mod conflict;
mod data;
mod digit_table;
mod faults;
mod joining;
mod laws;
mod laying;
mod layout;
mod lines;
mod part;
mod pieces;
mod place;
mod raw;
mod reader;
mod scan;
mod set;
mod step;
mod writer;

pub use faults::{HexFault, RawFault, Unjoined};
pub use joining::join;
pub use laws::{
    canonical_text_means_the_image, every_text_has_a_verdict, laying_by_parts, laying_keeps_places,
    laying_nothing_new, verdict_is_unique,
};
pub use raw::read_raw;
pub use reader::read_hex;
pub use set::Image;
pub use writer::write_hex;
