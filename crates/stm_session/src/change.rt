// What a command changes.
use stm_image::Image;

/// What a command that begins a segment makes of a flash.
#[derive(Clone, Copy)]
pub enum Change<'a> {
    /// The image is laid over it.
    Write(&'a Image),
    /// These pages are erased.
    Erase(&'a [u16]),
}
