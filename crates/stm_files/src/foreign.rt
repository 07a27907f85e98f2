// Files that are no raw image by how they begin.

use std::fmt;
use std::fmt::{Display, Formatter};

/// What a file is that is no raw image.
#[derive(Clone, Copy, Debug, PartialEq, Eq)]
pub enum Foreign {
    /// A program, as a linker leaves it.
    Elf,
    /// Motorola's S-records.
    SRecord,
    /// Blocks for a drive that a bootloader shows on USB.
    Uf2,
    /// A file for ST's bootloader on USB.
    DfuSe,
    /// HEX or S-records of two bytes a character, behind the mark of that.
    Utf16,
    /// HEX behind the bytes EF BB BF.
    HexBehindMark,
    /// HEX behind a space or a tab.
    HexBehindBlank,
    /// HEX behind an empty line.
    HexBehindLineEnd,
    /// HEX behind a line that begins with `#` or `;`.
    HexBehindComment,
}

impl Display for Foreign {
    fn fmt<W: fmt::Write>(&self, f: &mut Formatter<W>) -> fmt::Result {
        f.write_str(match self {
            Foreign::Elf => "ELF",
            Foreign::SRecord => "S-record",
            Foreign::Uf2 => "UF2",
            Foreign::DfuSe => "DfuSe",
            Foreign::Utf16 => "text in UTF-16",
            Foreign::HexBehindMark => "HEX behind a byte order mark",
            Foreign::HexBehindBlank => "HEX behind a blank",
            Foreign::HexBehindLineEnd => "HEX behind a line end",
            Foreign::HexBehindComment => "HEX behind a comment",
        })
    }
}

/// What the bytes of a file are, where they are no raw image by how they begin.
pub fn foreign_form(bytes: &[u8]) -> Option<Foreign> {
    if bytes.starts_with(b"\x7FELF") {
        return Some(Foreign::Elf);
    }
    if is_record(bytes, b'S', 1) {
        return Some(Foreign::SRecord);
    }
    if bytes.starts_with(b"UF2\nWQ]\x9E") {
        return Some(Foreign::Uf2);
    }
    if bytes.starts_with(b"DfuSe") {
        return Some(Foreign::DfuSe);
    }
    if let [0xFF, 0xFE, b':' | b'S', 0, ..] | [0xFE, 0xFF, 0, b':' | b'S', ..] = bytes {
        return Some(Foreign::Utf16);
    }
    let hex = hex_behind(bytes)?;
    is_record(behind(bytes), b':', 8).then_some(hex)
}

/// Whether bytes begin with this one and then, up to the line's end, with digits of
/// base 16, more than so many.
fn is_record(bytes: &[u8], first: u8, digits: usize) -> bool {
    let Some((head, rest)) = bytes.split_first() else {
        return false;
    };
    let mut count = 0usize;
    for byte in rest {
        if *byte == b'\r' || *byte == b'\n' {
            break;
        }
        if !byte.is_ascii_hexdigit() {
            return false;
        }
        count = count.saturating_add(1);
    }
    *head == first && count > digits
}

/// HEX behind what these bytes begin with; none where that isn't passed over.
fn hex_behind(bytes: &[u8]) -> Option<Foreign> {
    match bytes.first() {
        Some(0xEF) => Some(Foreign::HexBehindMark),
        Some(b' ' | b'\t') => Some(Foreign::HexBehindBlank),
        Some(b'\r' | b'\n') => Some(Foreign::HexBehindLineEnd),
        Some(b'#' | b';') => Some(Foreign::HexBehindComment),
        _ => None,
    }
}

/// What follows a byte order mark, blanks, line ends and comments.
fn behind(bytes: &[u8]) -> &[u8] {
    let bytes = bytes.strip_prefix(b"\xEF\xBB\xBF").unwrap_or(bytes);
    let mut is_comment = false;
    for (at, byte) in bytes.iter().enumerate() {
        match byte {
            b'\r' | b'\n' => is_comment = false,
            b'#' | b';' => is_comment = true,
            b' ' | b'\t' => {}
            _ if is_comment => {}
            _ => return &bytes[at..],
        }
    }
    &[]
}
