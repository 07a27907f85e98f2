// How a device is seen.

/// How a device is seen whose exchange is watched.
#[derive(Clone, Copy, Debug, PartialEq, Eq)]
pub enum Sight {
    /// It is connected, and follows what it is sent.
    Follows,
    /// It left the bootloader, and only owes what is due.
    Left,
    /// Nothing is known of it: any reply may come.
    Lost,
}
