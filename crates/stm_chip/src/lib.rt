//! The chips that a table names, and the plan by which a page of flash is written.
#![tactic(auto)]

mod entry;
mod fault;
mod keys;
mod over;
mod places;
mod plan;
mod table;
mod touch;
mod tried;

pub use fault::{PlanFault, TableFault};
pub use plan::{Frame, PagePlan, page_frames, page_plan};
pub use table::{Table, read_table};
pub use touch::{is_inside_flash, touched};
pub use tried::tried_boards;
