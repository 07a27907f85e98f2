//! Where data bytes lie.
ghost use Rattle.std.specs.Prelude.{◌≡◌, ◌<◌, length};
ghost use Rattle.stm_image.specs.Record.{record_number};
ghost use Rattle.stm_image.specs.Text.{address_at};

/// How data records are placed.
#[derive(Debug, Drop, Clone, Copy, PartialEq, Eq)]
pub enum Form {
    /// From a base of 65536 times the number, called ULBA.
    Linear(u16),
    /// Within 65536 addresses from 16 times the number, called USBA.
    Segment(u16),
}

/// The address of a data byte, at the offset of its record plus its place there.
pub fn address_in(form: Form, offset: u32) -> u32
    requires { offset < 131072 }
    ensures { result ≡ address_at form offset }
{
    match form {
        Form::Linear(upper) => (u32::from(upper) * 65536).wrapping_add(offset),
        Form::Segment(segment) => u32::from(segment) * 16 + offset % 65536,
    }
}

/// The number in a record of two data bytes.
pub fn two_bytes(bytes: &[u8]) -> u16
    requires { 6 < length bytes.now }
    ensures { result ≡ record_number bytes.now }
{
    u16::from(bytes[4]) * 256 + u16::from(bytes[5])
}
