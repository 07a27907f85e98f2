//! Prints records.
ghost use Rattle.std.specs.Prelude.{◌≡◌, ◌<◌, ◌≤◌, ◌+◌, ◌*◌, ◌++◌, ◌∷◌, [], take, length};
ghost use Rattle.std.specs.Prelude.{slice_index, OnOk};
ghost use Rattle.hex.specs.Hex.{encode_upper, upper_digits};
ghost use Rattle.stm_image.specs.Canon.{line, upper_line};

use crate::step::sum_of;
use std::alloc::AllocError;

// Prints bytes as digits, which fill `out`.
fn print_digits(bytes: &[u8], out: &mut [u8])
    requires { length out.old ≡ 2 * length bytes.now }
    ensures { out.new ≡ encode_upper bytes.now }
{
    'bytes: for i in 0..bytes.len() {
        let byte = bytes[i];
        out[2 * i] = digit_of(byte / 16);
        out[2 * i + 1] = digit_of(byte % 16);
    }
}

// The digit of a value.
fn digit_of(value: u8) -> u8
    requires { value < 16 }
    ensures { result ≡ slice_index upper_digits value }
{
    if value < 10 {
        b'0' + value
    } else {
        b'A' + (value - 10)
    }
}

// Prints bytes into a line, behind its first byte.
fn fill_digits(bytes: &[u8], line: &mut [u8; 44])
    requires { length bytes.now ≤ 21 }
    ensures { take (2 * length bytes.now + 1) line.new ≡ take 1 line.old ++ encode_upper bytes.now }
{
    print_digits(bytes, &mut line[1..2 * bytes.len() + 1]);
}

// Prints a record's bytes as a line, into the front of `line`.
fn fill_line(bytes: &[u8], line: &mut [u8; 44])
    requires { length bytes.now ≤ 21 }
    ensures { take (2 * length bytes.now + 2) line.new ≡ 58 ∷ encode_upper bytes.now ++ 10 ∷ [] }
{
    line[0] = b':';
    fill_digits(bytes, line);
    line[2 * bytes.len() + 1] = b'\n';
}

// Adds a record's bytes as a line.
fn put_bytes(text: &mut Vec<u8>, bytes: &[u8]) -> Result<(), AllocError>
    requires { length bytes.now ≤ 21 }
    ensures { OnOk result
        (text.new.items ≡ text.old.items ++ (58 ∷ encode_upper bytes.now ++ 10 ∷ [])) }
{
    let mut line = [0u8; 44];
    fill_line(bytes, &mut line);
    text.extend_from_slice(&line[..2 * bytes.len() + 2])?;
    Ok(())
}

// Copies bytes into the row of a record's bytes, from a place on.
fn copy_at(row: &mut [u8; 21], at: usize, bytes: &[u8])
    requires { at + length bytes.now ≤ 21 }
    ensures { take (at + length bytes.now) row.new ≡ take at row.old ++ bytes.now }
{
    for (i, byte) in bytes.iter().enumerate() {
        row[at + i] = *byte;
    }
}

/// Adds the line of a record.
pub fn put_line(text: &mut Vec<u8>, offset: u16, kind: u8, bytes: &[u8]) -> Result<(), AllocError>
    requires { length bytes.now ≤ 16 }
    ensures { OnOk result (text.new.items ≡ text.old.items ++ line offset kind bytes.now) }
{
    let header = [
        bytes.len() as u8,
        (offset / 256) as u8,
        (offset % 256) as u8,
        kind,
    ];
    let check = 0u8.wrapping_sub(sum_of(&header).wrapping_add(sum_of(bytes)));
    let mut row = [0u8; 21];
    copy_at(&mut row, 0, &header);
    copy_at(&mut row, 4, bytes);
    copy_at(&mut row, 4 + bytes.len(), &[check]);
    put_bytes(text, &row[..bytes.len() + 5])?;
    Ok(())
}

/// Adds the line that sets the upper sixteen bits, where they change.
pub fn put_upper(text: &mut Vec<u8>, upper: u16, high: u16) -> Result<(), AllocError>
    ensures { OnOk result (text.new.items ≡ text.old.items ++ upper_line upper high) }
{
    if high == upper {
        return Ok(());
    }
    put_line(text, 0, 4, &[(high / 256) as u8, (high % 256) as u8])
}
