// Lines that are watched.
mod heard;
pub mod watched;
