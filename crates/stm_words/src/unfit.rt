// Why words that `clap` takes can't be done.

use crate::usage_fault::UsageFault;
use std::alloc::AllocFailed;

/// Why words that `clap` takes can't be done.
#[derive(Drop)]
pub enum Unfit<'a> {
    /// Something is wrong with them.
    Usage(UsageFault<'a>),
    /// There is no memory to read them.
    Memory,
}

impl<'a> From<UsageFault<'a>> for Unfit<'a> {
    fn from(fault: UsageFault<'a>) -> Self {
        Unfit::Usage(fault)
    }
}

impl<T: Drop> From<AllocFailed<T>> for Unfit<'_> {
    fn from(_failed: AllocFailed<T>) -> Self {
        Unfit::Memory
    }
}
