//! One device of the model of `stm_wire`, in memory, and the Rigs in memory that tests and the
//! program run on.
#![tactic(auto)]

mod flip_rig;
mod list_rig;
mod memory_rig;
mod past;
mod plan;
mod simulator;
mod stop;

pub use flip_rig::FlipRig;
pub use list_rig::ListRig;
pub use memory_rig::MemoryRig;
pub use past::PastStep;
pub use plan::{Plan, Stop};
pub use simulator::{Simulator, Stage};
