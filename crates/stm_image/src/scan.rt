//! Reads one record.
ghost use Rattle.std.specs.Prelude.{◌≡◌, ◌<◌, ◌≤◌, ◌+◌, ◌*◌, ◌↔◌, length, take, IsTrue, ℕ, List};
ghost use Rattle.std.specs.Bool.{OnTrue};
ghost use Rattle.std.specs.List.{prefix_len};
ghost use Rattle.hex.specs.Hex.{is_hex_digit};
ghost use Rattle.stm_image.specs.Digits.{IsTable};
ghost use Rattle.stm_image.specs.Record.{is_blank, digits_bytes, digits_needed, scan, scan_digits};
ghost use Rattle.stm_image.specs.Scanned.{scan_of, HasRoom};

use crate::digit_table::decode;

/// What stands where a record may begin.
#[derive(Drop)]
pub enum Scanned<'a> {
    Ended,
    Stray,
    Broken,
    Cut,
    /// How many bytes it has, and the text after it.
    Whole(usize, &'a [u8]),
}

fn is_digit(b: u8) -> bool
    ensures { result ≡ is_hex_digit b }
{
    b.is_ascii_hexdigit()
}

fn is_space(b: u8) -> bool
    ensures { result ≡ is_blank b }
{
    b == 13 || b == 10 || b == 32 || b == 9
}

// How many digits the text begins with.
fn leading_digits(text: &[u8]) -> usize
    ensures value { result ≡ prefix_len is_hex_digit text.now }
    ensures bound { result ≤ length text.now }
{
    for (i, b) in text.iter().enumerate() {
        if !is_digit(*b) {
            return i;
        }
    }
    text.len()
}

// How many blanks the text begins with.
fn leading_blanks(text: &[u8]) -> usize
    ensures value { result ≡ prefix_len is_blank text.now }
    ensures bound { result ≤ length text.now }
{
    for (i, b) in text.iter().enumerate() {
        if !is_space(*b) {
            return i;
        }
    }
    text.len()
}

// Fills `out` from the digits that the text begins with, where there are so many.
fn decode_first(values: &[u8; 256], text: &[u8], out: &mut [u8]) -> bool
    requires table { IsTable values.now }
    requires short { length out.old ≤ 260 }
    ensures enough { IsTrue result ↔ (2 * length out.old ≤ prefix_len is_hex_digit text.now) }
    ensures fits { IsTrue result → 2 * length out.old ≤ length text.now }
    ensures value { OnTrue result (out.new ≡ digits_bytes (take (2 * length out.old) text.now)) }
{
    match text.get(..2 * out.len()) {
        Some(digits) => decode(values, digits, out),
        None => false,
    }
}

// Fills the first `count` of the bytes, as `decode_first`.
fn fill(values: &[u8; 256], text: &[u8], bytes: &mut [u8; 260], count: usize) -> bool
    requires table { IsTable values.now }
    requires short { count ≤ 260 }
    ensures enough { IsTrue result ↔ (2 * count ≤ prefix_len is_hex_digit text.now) }
    ensures fits { IsTrue result → 2 * count ≤ length text.now }
    ensures value { OnTrue result (take count bytes.new ≡ digits_bytes (take (2 * count) text.now)) }
{
    decode_first(values, text, &mut bytes[..count])
}

// What ends the digits of a record that are too few.
fn unread<'a>(text: &'a [u8]) -> Scanned<'a>
    requires { prefix_len is_hex_digit text.now < digits_needed text.now }
    ensures value { (buffer : List ℕ) → scan_of result buffer ≡ scan_digits text.now }
    ensures room { HasRoom result }
{
    if leading_digits(text) == text.len() {
        Scanned::Cut
    } else {
        Scanned::Broken
    }
}

// Reads a record's digits, into the front of `bytes`.
fn read_digits<'a>(values: &[u8; 256], text: &'a [u8], bytes: &mut [u8; 260]) -> Scanned<'a>
    requires { IsTable values.now }
    ensures value { scan_of result bytes.new ≡ scan_digits text.now }
    ensures room { HasRoom result }
{
    if !fill(values, text, bytes, 1) {
        return unread(text);
    }
    let count = usize::from(bytes[0]) + 5;
    if !fill(values, text, bytes, count) {
        return unread(text);
    }
    Scanned::Whole(count, &text[2 * count..])
}

/// Reads a record, its bytes into the front of `bytes`.
pub fn scan_record<'a>(values: &[u8; 256], text: &'a [u8], bytes: &mut [u8; 260]) -> Scanned<'a>
    requires { IsTable values.now }
    ensures value { scan_of result bytes.new ≡ scan text.now }
    ensures room { HasRoom result }
{
    let begun = &text[leading_blanks(text)..];
    match begun.split_first() {
        None => Scanned::Ended,
        Some((first, digits)) => {
            if *first == b':' {
                read_digits(values, digits, bytes)
            } else {
                Scanned::Stray
            }
        }
    }
}
