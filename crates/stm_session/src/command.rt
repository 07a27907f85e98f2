// The commands of a session.
use stm_image::Image;

/// A command of a session.
#[derive(Debug, Drop)]
pub enum Command {
    /// Lays the image over the flash, and leaves every other byte as it is.
    Write(Image),
    /// Erases these pages.
    Erase(Vec<u16>),
    /// Compares the image's bytes with those of the flash.
    Verify(Image),
    /// Reads `length` bytes of the flash, from the address `start` on.
    Read { start: u32, length: u32 },
}
