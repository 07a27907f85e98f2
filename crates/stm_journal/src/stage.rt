// Where a segment stands.
use stm_wire::Intent;

/// Where a segment of the journal stands.
#[derive(Clone, Copy, Debug, PartialEq, Eq)]
pub enum Stage {
    /// Its command is being done, and this is the newest intent, if it has one.
    Open(Option<Intent>),
    /// Its command is done.
    Ended,
    /// Its command was done and is being undone; this is the newest intent.
    Returning(Intent),
}
