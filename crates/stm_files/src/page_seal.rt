// The void line behind a kept page in a journal that names its board: the CRC of the page's bytes.
ghost use Rattle.std.specs.Prelude.{◌≡◌, ◌==◌, ℕ, List, None, Some, Ok, IfOk, MatchOption, position};
ghost use Rattle.hex.specs.Hex.{decode_of};
ghost use Rattle.stm_files.specs.PageSeal.{IsSeal, IsSealIf, digits_at, digits_of, names_board};
ghost use Rattle.stm_files.specs.PageSeal.{left_line, second_mark, sum_line, unmarked};
ghost use Rattle.stm_files.specs.PageSum.{page_sum};

use crate::page_sum::page_sum;
use hex::FromHexError;
use std::alloc::{AllocError, Global};
use stm_journal::a_printed_line_reads_back;

/// How many bytes the line of a CRC has.
pub const SEAL: u64 = 14;

/// The line of a CRC.
pub fn sum_line(alloc: Global, sum: u32) -> Result<Vec<u8>, AllocError>
    ensures { IfOk result (λ line. line.items ≡ sum_line sum) }
{
    let mut line = Vec::new(alloc);
    line.extend_from_slice(b"crc ")?;
    let digits = hex::encode_upper(alloc, &sum.to_be_bytes())?;
    line.extend_from_slice(digits.as_bytes())?;
    line.extend_from_slice(b"!\n")?;
    Ok(line)
}

/// The CRC of a page's bytes.
pub fn sum_of_page(bytes: &[u8]) -> u32
    ensures { result ≡ page_sum bytes.now }
{
    page_sum(bytes)
}

/// The line of what a page was left with.
pub fn left_line(alloc: Global, page: u16, bytes: &[u8]) -> Result<Vec<u8>, AllocError>
    ensures { IfOk result (λ line. line.items ≡ left_line page bytes.now) }
{
    let mut line = Vec::new(alloc);
    line.extend_from_slice(b"left ")?;
    let number = format!(in alloc; "{page}")?;
    line.extend_from_slice(number.as_bytes())?;
    line.push(b' ')?;
    let size = format!(in alloc; "{}", bytes.len())?;
    line.extend_from_slice(size.as_bytes())?;
    let digits = hex::encode_upper(alloc, &page_sum(bytes).to_be_bytes())?;
    line.push(b' ')?;
    line.extend_from_slice(digits.as_bytes())?;
    line.extend_from_slice(b"!\n")?;
    Ok(line)
}

/// What stands behind the mark of a torn tail, or all of it.
fn unmarked(added: &[u8]) -> &[u8]
    ensures { result.now ≡ unmarked added.now }
{
    match added.strip_prefix(b"!\n") {
        Some(rest) => rest,
        None => added,
    }
}

/// A second mark in front of one that closes a torn tail, in a journal that names its board: what older
/// bytes of the disk made whole of a torn CRC is none then.
pub fn second_mark(seals: bool, added: &[u8]) -> &'static [u8]
    ensures { result.now ≡ second_mark seals added.now }
{
    if seals && added.strip_prefix(b"!\n").is_some() {
        b"!"
    } else {
        b""
    }
}

/// Whether an append begins a journal that names its board.
pub fn names_board(added: &[u8]) -> bool
    ensures { result ≡ names_board added.now }
{
    unmarked(added).strip_prefix(b"stmjournal 3 ").is_some()
}

/// Where the first space stands.
fn first_space(bytes: &[u8]) -> Option<usize>
    ensures { result ≡ position (λ b. b == 32) bytes.now }
{
    bytes.iter().position(|byte| *byte == b' ')
}

/// What stands behind the number of a page.
fn digits_at(line: &[u8]) -> Option<&[u8]>
    ensures { let digits = digits_at line.now (position (λ b. b == 32) line.now) in
        MatchOption result (digits ≡ None) (λ found. digits ≡ Some found.now) }
{
    match first_space(line) {
        Some(space) => Some(&line[space + 1..]),
        None => None,
    }
}

/// The digits of the page that an append keeps.
fn digits_of(added: &[u8]) -> Option<&[u8]>
    ensures { MatchOption result (digits_of added.now ≡ None)
        (λ found. digits_of added.now ≡ Some found.now) }
{
    match unmarked(added).strip_prefix(b"page ") {
        Some(rest) => match rest.strip_suffix(b"\n") {
            Some(line) => digits_at(line),
            None => None,
        },
        None => None,
    }
}

/// The line of the CRC of the page that these digits say, if they say one.
fn sum_of(alloc: Global, digits: &[u8]) -> Result<Vec<u8>, AllocError>
    ensures { (page : List ℕ) → decode_of digits.now ≡ Ok page
        → IfOk result (λ line. line.items ≡ sum_line (page_sum page)) }
{
    match hex::decode(alloc, digits) {
        Ok(page) => sum_line(alloc, page_sum(&page)),
        Err(FromHexError::OutOfMemory) => Err(AllocError),
        Err(_) => Ok(Vec::new(alloc)),
    }
}

/// What is to stand behind the bytes of an append.
fn seal_of(alloc: Global, added: &[u8]) -> Result<Vec<u8>, AllocError>
    ensures { IfOk result (λ seal. IsSeal added.now seal.items) }
{
    a_printed_line_reads_back();
    match digits_of(added) {
        Some(digits) => sum_of(alloc, digits),
        None => Ok(Vec::new(alloc)),
    }
}

/// The same of a journal that names its board; nothing in any other.
pub fn seal_if(alloc: Global, seals: bool, added: &[u8]) -> Result<Vec<u8>, AllocError>
    ensures { IfOk result (λ seal. IsSealIf seals added.now seal.items) }
{
    if seals {
        seal_of(alloc, added)
    } else {
        Ok(Vec::new(alloc))
    }
}
