// Why a program can't use a file.

use crate::owners::Doubt;
use std::io;

/// Why a program can't use a file.
#[derive(Drop)]
pub enum Unusable {
    /// Another program has it.
    InUse,
    /// The system gives no lock on it.
    Unlockable(io::Error),
    /// It has bytes, and is no journal.
    NoJournal,
    /// Others have it, or may write it, and no word allows that.
    NotTrusted(Doubt),
    /// It can't be opened, or is no regular file.
    Unread(io::Error),
}
