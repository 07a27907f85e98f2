// What a session does on purpose, as data.
use stm_chip::Frame;

/// What a session does on purpose to give a page new bytes.
#[derive(Clone, Copy)]
pub enum Deed<'a> {
    /// The journal keeps this page, which holds these bytes.
    Keep(u16, &'a [u8]),
    /// The journal says that this page is about to be erased.
    IntendErase(u16),
    /// It is erased.
    Erase(u16),
    /// The journal says that this page is about to be written.
    IntendProgram(u16),
    /// This frame of a page's new bytes is written.
    Write(u16, Frame, &'a [u8]),
}
