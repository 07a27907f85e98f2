//! Why an image is refused.
use thiserror::Error;

/// Why a HEX text is refused, with the number of the faulty record, from 1.
///
/// The first faulty record decides, and in it the first fault in the order of `docs/FORMATS.md`.
#[derive(Debug, Drop, Clone, Copy, PartialEq, Eq, Error)]
pub enum HexFault {
    /// A byte that is no digit stands where the record needs one.
    #[error("hex record {0}: bad digit")]
    BadDigit(u64),
    /// The text ends where the record needs a digit.
    #[error("hex record {0}: short")]
    Short(u64),
    /// The record's bytes, with CHKSUM, do not sum to 0 modulo 256.
    #[error("hex record {0}: checksum")]
    Checksum(u64),
    /// RECTYP is above 05.
    #[error("hex record {0}: type")]
    Kind(u64),
    /// RECLEN is not the one that the record's type has.
    #[error("hex record {0}: length")]
    Length(u64),
    /// The record gives an address another byte than an earlier record did.
    #[error("hex record {0}: conflict")]
    Conflict(u64),
    /// The text ends between records, and no end record was read.
    #[error("hex record {0}: no end")]
    NoEnd(u64),
    /// A byte other than a colon, CR, LF, space or tab stands where the record may begin.
    #[error("hex record {0}: no colon")]
    NoColon(u64),
    /// There was no memory for what the record says.
    #[error("out of memory")]
    Memory(u64),
}

/// Why raw bytes are refused as an image.
#[derive(Debug, Drop, Clone, Copy, PartialEq, Eq, Error)]
pub enum RawFault {
    /// The bytes would go on past address 0xFFFFFFFF.
    #[error("image past the end")]
    PastEnd,
    /// There was no memory for the image.
    #[error("out of memory")]
    Memory,
}

/// Why several images aren't one.
#[derive(Debug, Drop, Clone, Copy, PartialEq, Eq)]
pub enum Unjoined {
    /// Two of them, which are counted from 0, have another byte at an address.
    Differ {
        first: usize,
        second: usize,
        address: u32,
    },
    /// There was no memory for the image.
    Memory,
}
