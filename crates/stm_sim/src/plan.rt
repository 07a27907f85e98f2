// When a Rig in memory stops or fails: public, since the definitions of its calls go over it.

/// When a Rig in memory stops.
#[derive(Clone, Copy, Debug, PartialEq, Eq)]
pub enum Stop {
    /// No stop is set.
    Never,
    /// So many steps more are done, and the next one isn't.
    After(u64),
    /// It stopped: no call is done.
    Fallen,
}

/// When a Rig in memory stops, and which of its later calls fails.
#[derive(Clone, Copy, Debug, PartialEq, Eq)]
pub struct Plan {
    pub stop: Stop,
    /// The put that fails, counted from the next one, which is 1; 0: none fails.
    pub put_fails: u64,
    /// The same for gets.
    pub get_fails: u64,
    /// The same for appends.
    pub append_fails: u64,
}
