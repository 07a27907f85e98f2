// The bytes since the last verdict, and what is kept beside them so that each byte costs a fixed
// number of steps.
ghost use Rattle.std.specs.Prelude.{◌≡◌, ℕ, ◌+◌, ◌-◌, ◌*◌, ◌<◌, ◌≤◌, List, [], ◌∷◌, ◌++◌};
ghost use Rattle.std.specs.Prelude.{◌==◌, ◌&&◌, length, take, MatchOption, OnOk, vec_len};
ghost use Rattle.std.specs.Vec.{vec_capacity};
ghost use Rattle.stm_wire.specs.Chip.{ChipData};
ghost use Rattle.stm_wire.specs.Exchange.{IsOpen, all_exist, done_if};
ghost use Rattle.stm_wire.specs.Exchange.{pair_of, two_byte_numbers, verdict, xor};
ghost use Rattle.stm_sim.specs.Rest.{IsAwaiting, IsCurrent, named_pages};

use std::alloc::{AllocError, Global};
use stm_wire::{Chip, Verdict, done_if, fits_inside, verdict_of};

/// The exclusive-or of a whole frame whose check is right. A code and its complement give FF; the
/// bytes of an address and their check give 0, and so do a count, the data or pages behind it, and
/// theirs.
const RIGHT_CHECK: u8 = 0xFF;

/// The bytes since the last verdict.
#[derive(Drop)]
pub struct Rest {
    bytes: Vec<u8>,
    /// At least so many bytes more come before there is a verdict.
    awaited: usize,
    /// The exclusive-or of the bytes.
    check: u8,
    /// Whether each page that the bytes name is there.
    pages_exist: bool,
}

/// How many bytes at least are awaited behind a code and its complement.
fn awaited_after_pair(code: u8) -> usize
    ensures { (chip : ChipData) (codes : List ℕ) (check : ℕ)
        → verdict chip codes (code ∷ check ∷ []) ≡ None
        → IsAwaiting chip codes (code ∷ check ∷ []) result }
{
    match code {
        // An address and its check.
        0x11 | 0x21 | 0x31 => 5,
        // A count of two bytes.
        0x44 => 2,
        _ => 1,
    }
}

/// How many bytes stand behind a count of two bytes: the numbers of that many pages and one more,
/// in two bytes each, and their check. The counts from FFF0 on count nothing.
fn size_after_count(high: u8, low: u8) -> Option<usize>
    ensures { MatchOption result (0xFFF0 ≤ pair_of high low)
        (λ size. (pair_of high low < 0xFFF0) × (size ≡ 2 * (pair_of high low + 1) + 1)) }
{
    let count = usize::from(high) * 256 + usize::from(low);
    if count >= 0xFFF0 {
        None
    } else {
        Some(2 * (count + 1) + 1)
    }
}

/// How many bytes at least are awaited behind an open list.
fn awaited_after(bytes: &[u8]) -> usize
    ensures { (chip : ChipData) (codes : List ℕ) → verdict chip codes bytes.now ≡ None
        → IsAwaiting chip codes bytes.now result }
{
    match bytes {
        [code, _] => awaited_after_pair(*code),
        // A count and its complement.
        [0x11, _, _, _, _, _, _] => 2,
        // One byte or page more than the count says, and their check.
        [0x31, _, _, _, _, _, _, n] => usize::from(*n) + 2,
        [0x43, _, n] if *n < 0xFF => usize::from(*n) + 2,
        [0x44, _, high, low] => size_after_count(*high, *low).unwrap_or(1),
        _ => 1,
    }
}

/// Whether the page is there whose number a byte completes behind numbers of two bytes each. The
/// first byte of a number completes none.
fn completes_existing_page(chip: &Chip, numbers: &[u8], byte: u8) -> bool
    ensures { all_exist chip.now (two_byte_numbers (numbers.now ++ byte ∷ []))
        ≡ (all_exist chip.now (two_byte_numbers numbers.now) && result) }
{
    if numbers.len() % 2 == 0 {
        true
    } else {
        let high = numbers[numbers.len() - 1];
        u16::from(high) * 256 + u16::from(byte) < chip.pages()
    }
}

/// Whether the page is there that a byte names behind these bytes, if it names one.
fn names_existing_page(chip: &Chip, bytes: &[u8], byte: u8) -> bool
    ensures { all_exist chip.now (named_pages (bytes.now ++ byte ∷ []))
        ≡ (all_exist chip.now (named_pages bytes.now) && result) }
{
    match bytes {
        [0x43, _, _, ..] => u16::from(byte) < chip.pages(),
        [0x44, _, _, _, numbers @ ..] => completes_existing_page(chip, numbers, byte),
        _ => true,
    }
}

/// The verdict on a whole frame with data or pages: done where its check is right and it can be
/// done.
fn whole_verdict(check: u8, can_be_done: bool) -> Verdict
    ensures { result ≡ done_if (check == 0xFF && can_be_done) }
{
    done_if(check == RIGHT_CHECK && can_be_done)
}

/// The verdict where no more bytes are known to be awaited. Data and pages that came whole are not
/// looked at again: what was kept of them decides. Of every other list the plain program looks at a
/// fixed number of bytes.
fn verdict_at_end(
    chip: &Chip,
    codes: &[u8],
    bytes: &[u8],
    check: u8,
    pages_exist: bool,
) -> Option<Verdict>
    requires no_verdict { IsOpen chip.now codes.now (take (length bytes.now - 1) bytes.now) }
    requires check { check ≡ xor bytes.now }
    requires pages_exist { pages_exist
        ≡ all_exist chip.now (named_pages (take (length bytes.now - 1) bytes.now)) }
    ensures { result ≡ verdict chip.now codes.now bytes.now }
{
    match bytes {
        [0x31, _, a, b, c, d, _, n, data @ ..] if data.len() == usize::from(*n) + 2 => {
            let address = u32::from_be_bytes([*a, *b, *c, *d]);
            let fits = fits_inside(chip, address, u16::from(*n) + 1);
            Some(whole_verdict(check, fits))
        }
        [0x43, _, n, pages @ ..] if *n < 0xFF && pages.len() == usize::from(*n) + 2 => {
            Some(whole_verdict(check, pages_exist))
        }
        [0x44, _, high, low, pages @ ..] => match size_after_count(*high, *low) {
            Some(size) if pages.len() == size => Some(whole_verdict(check, pages_exist)),
            _ => verdict_of(chip, codes, bytes),
        },
        _ => verdict_of(chip, codes, bytes),
    }
}

impl Rest {
    /// No bytes: a code and its complement are awaited.
    pub fn new(alloc: Global) -> Rest
        ensures empty { result.bytes.items ≡ [] }
        ensures current { (chip : ChipData) (codes : List ℕ) → IsCurrent chip codes result }
    {
        Rest {
            bytes: Vec::new(alloc),
            awaited: 2,
            check: 0,
            pages_exist: true,
        }
    }

    /// Makes room for a byte.
    pub fn reserve(&mut self) -> Result<(), AllocError>
        ensures same { self.new.bytes.items ≡ self.old.bytes.items }
        ensures unchanged { self.new ≡ record self.old { bytes = self.new.bytes } }
        ensures room { OnOk result (vec_len self.new.bytes < vec_capacity self.new.bytes) }
    {
        self.bytes.reserve(1)
    }

    /// Adds a byte, for which there is room, and answers the verdict on all of them.
    pub fn push(&mut self, chip: &Chip, codes: &[u8], byte: u8) -> Option<Verdict>
        requires room { vec_len self.old.bytes < vec_capacity self.old.bytes }
        requires current { IsCurrent chip.now codes.now self.old }
        ensures bytes { self.new.bytes.items ≡ self.old.bytes.items ++ byte ∷ [] }
        ensures verdict { result ≡ verdict chip.now codes.now self.new.bytes.items }
        ensures current { result ≡ None → IsCurrent chip.now codes.now self.new }
    {
        let exists = names_existing_page(chip, &self.bytes, byte);
        self.bytes.push_reserved(byte);
        self.check ^= byte;
        let verdict = if self.awaited > 1 {
            self.awaited -= 1;
            None
        } else {
            let verdict = verdict_at_end(chip, codes, &self.bytes, self.check, self.pages_exist);
            self.awaited = awaited_after(&self.bytes);
            verdict
        };
        self.pages_exist &= exists;
        verdict
    }

    /// Forgets the bytes.
    pub fn clear(&mut self)
        ensures empty { self.new.bytes.items ≡ [] }
        ensures current { (chip : ChipData) (codes : List ℕ) → IsCurrent chip codes self.new }
    {
        self.bytes.clear();
        self.awaited = 2;
        self.check = 0;
        self.pages_exist = true;
    }

    pub fn bytes(&self) -> &[u8]
        ensures { result.now ≡ self.now.bytes.items }
    {
        &self.bytes
    }
}
