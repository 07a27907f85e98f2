// Why words ask for nothing that can be done.

use crate::usage_fault::UsageFault;

/// Why words ask for nothing that can be done.
#[derive(Drop)]
pub enum Unread<'a> {
    /// Help or the version is asked for, and this is it.
    Help(String),
    /// `clap` refuses the words, and this is what it says.
    Refused(String),
    /// `clap` takes the words, and they can't be done.
    Usage(UsageFault<'a>),
    /// There is no memory to read them.
    Memory,
}
