// Reading a line of the journal, without the bytes of a page.
ghost use Rattle.std.specs.Prelude.{◌≡◌, ◌==◌, ◌&&◌, ◌||◌, ◌+◌, ◌<◌, ◌≤◌, ◌^◌, nat_le, nat_lt};
ghost use Rattle.std.specs.Prelude.{length, true, Ok};
ghost use Rattle.std.specs.Prelude.{option_map, option_and_then, codes, Some, None, List, ℕ};
ghost use Rattle.std.specs.Prelude.{Option, fold, position, take, drop, IsTrue};
ghost use Rattle.std.specs.List.{list_all};
ghost use Rattle.hex.specs.Hex.{decode_sized, encode_upper};
ghost use Rattle.stm_journal.specs.InMemory.{forget_entry};
ghost use Rattle.stm_journal.specs.Entries.{is_upper_digit, are_upper_digits, number_of_pair};
ghost use Rattle.stm_journal.specs.Entries.{page_at, with_digit, decimal_of, hex_bytes_of, id_of};
ghost use Rattle.stm_journal.specs.Entries.{unique_id_of, board_at, board_header_of};
ghost use Rattle.stm_journal.specs.Entries.{header_of, kept_entry_of, numbered_entry_of, entry_of};
ghost use Rattle.stm_journal.specs.Summary.{page_with, long_at, long_page};

use crate::{Entry, PageBytes};
use stm_wire::UniqueId;

fn is_upper_digit(c: u8) -> bool
    ensures { result ≡ is_upper_digit c }
{
    (48 <= c && c <= 57) || (65 <= c && c <= 70)
}

fn with_digit(number: Option<u16>, c: u8) -> Option<u16>
    ensures { result ≡ with_digit number c }
{
    match number {
        Some(n) => {
            if 48 <= c && c <= 57 && u32::from(n) * 10 + u32::from(c - 48) <= 65535 {
                Some((u32::from(n) * 10 + u32::from(c - 48)) as u16)
            } else {
                None
            }
        }
        None => None,
    }
}

/// A decimal number of at most 65,535.
fn decimal_of(digits: &[u8]) -> Option<u16>
    ensures { result ≡ decimal_of digits.now }
{
    if digits.is_empty() || (digits.len() > 1 && digits[0] == b'0') {
        None
    } else {
        digits.iter().fold(Some(0), |n, c| with_digit(n, *c))
    }
}

/// All of these are upper-case digits.
pub(crate) fn are_all_upper(digits: &[u8]) -> bool
    ensures { result ≡ list_all is_upper_digit digits.now }
{
    digits.iter().all(|c| is_upper_digit(*c))
}

/// How many bytes upper-case digits say, two a byte, at least one byte.
fn hex_length(digits: &[u8]) -> Option<u64>
    ensures { result ≡ option_map (λ bytes. length bytes) (hex_bytes_of digits.now) }
{
    if !digits.is_empty() && digits.len() % 2 == 0 && are_all_upper(digits) {
        Some((digits.len() / 2) as u64)
    } else {
        None
    }
}

/// The bytes of upper-case digits, two a byte, where they are such and so many.
pub(crate) fn decode_upper(digits: &[u8], out: &mut [u8]) -> bool
    ensures decoded { (bytes : List ℕ) → list_all is_upper_digit digits.now ≡ true
        → decode_sized digits.now (length out.old) ≡ Ok bytes
        → (result ≡ true) × (out.new ≡ bytes) }
    ensures said { result ≡ true → digits.now ≡ encode_upper out.new }
{
    are_all_upper(digits) && hex::decode_to_slice(digits, out).is_ok()
}

fn number_of_pair(bytes: &[u8]) -> Option<u16>
    ensures { result ≡ number_of_pair bytes.now }
{
    match bytes {
        [high, low] => Some(u16::from(*high) * 256 + u16::from(*low)),
        _ => None,
    }
}

/// The number of two bytes, as four upper-case digits.
fn id_of_digits(digits: &[u8]) -> Option<u16>
    requires { IsTrue (list_all is_upper_digit digits.now) }
    ensures { result ≡ id_of digits.now }
{
    let mut pair = [0u8; 2];
    match hex::decode_to_slice(digits, &mut pair) {
        Ok(()) => number_of_pair(&pair),
        Err(_) => None,
    }
}

fn id_of(digits: &[u8]) -> Option<u16>
    ensures { result ≡ id_of digits.now }
{
    if are_all_upper(digits) {
        id_of_digits(digits)
    } else {
        None
    }
}

fn header_of(version: u8, rest: &[u8]) -> Option<Entry>
    ensures { result ≡ option_map forget_entry (header_of version rest.now) }
{
    match id_of(rest) {
        Some(id) => Some(Entry::Names(version, id, UniqueId::none())),
        None => None,
    }
}

/// The unique id of upper-case digits, which say as many bytes as there is room for.
fn unique_in(digits: &[u8], room: &mut [u8]) -> Option<UniqueId>
    requires { option_map (λ bytes. length bytes) (hex_bytes_of digits.now)
        ≡ Some (length room.old) }
    ensures { result ≡ unique_id_of digits.now }
{
    if decode_upper(digits, room) {
        UniqueId::of(room)
    } else {
        None
    }
}

/// A unique id: the upper-case digits of 8 to 32 bytes.
fn unique_id_of(digits: &[u8]) -> Option<UniqueId>
    ensures { result ≡ unique_id_of digits.now }
{
    match hex_length(digits) {
        Some(count) => {
            if count <= 32 {
                let mut bytes = [0u8; 32];
                unique_in(digits, &mut bytes[..count as usize])
            } else {
                None
            }
        }
        None => None,
    }
}

/// What follows the word of a header of version 3.
fn board_header_of(rest: &[u8]) -> Option<Entry>
    ensures { result ≡ option_map forget_entry (board_header_of rest.now) }
{
    match first_space(rest) {
        Some(space) => match id_of(&rest[..space]) {
            Some(id) => match unique_id_of(&rest[space + 1..]) {
                Some(unique) => Some(Entry::Names(3, id, unique)),
                None => None,
            },
            None => None,
        },
        None => None,
    }
}

/// Where the first space stands.
fn first_space(bytes: &[u8]) -> Option<usize>
    ensures { result ≡ position (λ b. b == 32) bytes.now }
{
    bytes.iter().position(|b| *b == b' ')
}

/// What follows the word `page ` of a line.
fn kept_entry_of(rest: &[u8]) -> Option<Entry>
    ensures { result ≡ option_map forget_entry (kept_entry_of rest.now) }
{
    match first_space(rest) {
        Some(space) => match decimal_of(&rest[..space]) {
            Some(n) => match hex_length(&rest[space + 1..]) {
                Some(length) => Some(Entry::Keeps(n, PageBytes::new(length))),
                None => None,
            },
            None => None,
        },
        None => None,
    }
}

fn numbered_entry_of(line: &[u8]) -> Option<Entry>
    ensures { result ≡ option_map forget_entry (numbered_entry_of line.now) }
{
    if let Some(rest) = line.strip_prefix(b"open ") {
        return decimal_of(rest).map(|n| Entry::Opens(n));
    }
    if let Some(rest) = line.strip_prefix(b"erase ") {
        return decimal_of(rest).map(|n| Entry::Erases(n));
    }
    if let Some(rest) = line.strip_prefix(b"program ") {
        return decimal_of(rest).map(|n| Entry::Programs(n));
    }
    if let Some(rest) = line.strip_prefix(b"end ") {
        return decimal_of(rest).map(|n| Entry::Ends(n));
    }
    if let Some(rest) = line.strip_prefix(b"undone ") {
        return decimal_of(rest).map(|n| Entry::Undoes(n));
    }
    None
}

/// What a whole line says, if it says anything.
pub(crate) fn entry_of(line: &[u8]) -> Option<Entry>
    ensures { result ≡ option_map forget_entry (entry_of line.now) }
{
    if let Some(rest) = line.strip_prefix(b"page ") {
        return kept_entry_of(rest);
    }
    if let Some(rest) = line.strip_prefix(b"stmjournal 1 ") {
        return header_of(1, rest);
    }
    if let Some(rest) = line.strip_prefix(b"stmjournal 2 ") {
        return header_of(2, rest);
    }
    if let Some(rest) = line.strip_prefix(b"stmjournal 3 ") {
        return board_header_of(rest);
    }
    numbered_entry_of(line)
}

/// A page of so many digits, two a byte.
fn page_with(n: Option<u16>, digits: u64) -> Option<Entry>
    ensures { result ≡ page_with n digits }
{
    match n {
        Some(n) => {
            if digits % 2 == 0 {
                Some(Entry::Keeps(n, PageBytes::new(digits / 2)))
            } else {
                None
            }
        }
        None => None,
    }
}

/// What follows the word `page ` of a line that goes on with so many upper-case digits.
fn long_page_at(rest: &[u8], more: u64) -> Option<Entry>
    requires { length rest.now + more < 2 ^ 64 }
    ensures { result ≡ long_at rest.now more (position (λ b. b == 32) rest.now) }
{
    match first_space(rest) {
        Some(space) => {
            let digits = &rest[space + 1..];
            if are_all_upper(digits) {
                page_with(decimal_of(&rest[..space]), digits.len() as u64 + more)
            } else {
                None
            }
        }
        None => None,
    }
}

/// What a line says that begins so and goes on with so many upper-case digits.
pub(crate) fn long_page_of(prefix: &[u8], more: u64) -> Option<Entry>
    requires { length prefix.now + more < 2 ^ 64 }
    ensures { result ≡ long_page prefix.now more }
{
    match prefix.strip_prefix(b"page ") {
        Some(rest) => long_page_at(rest, more),
        None => None,
    }
}
