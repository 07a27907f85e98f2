//! One step over a text.
ghost use Rattle.std.specs.Prelude.{◌≡◌, ◌<◌, ◌≤◌, ◌*◌, ◌%◌, ◌-◌, length, sum, Option, Some, None};
ghost use Rattle.stm_image.specs.Digits.{IsTable};
ghost use Rattle.stm_image.specs.Record.{flaw_of, has_length};
ghost use Rattle.stm_image.specs.Text.{flaw_fault};
ghost use Rattle.stm_image.specs.Reads.{IsStep};

use crate::HexFault;
use crate::scan::{Scanned, scan_record};

/// What a step finds.
#[derive(Drop)]
pub enum Step<'a> {
    /// An end record, or the fault that stands there.
    Stop(Option<HexFault>),
    /// A good record: how many bytes, and the text after it.
    Goes(usize, &'a [u8]),
}

/// The sum of the bytes, modulo 256.
pub fn sum_of(bytes: &[u8]) -> u8
    ensures { result ≡ sum bytes.now % 256 }
{
    let mut total = 0u8;
    for b in bytes {
        total = total.wrapping_add(*b);
    }
    total
}

// Whether a kind may have so many data bytes.
fn is_length_of(kind: u8, count: usize) -> bool
    ensures { result ≡ has_length kind count }
{
    if kind == 0 {
        true
    } else if kind == 1 {
        count == 0
    } else if kind == 2 || kind == 4 {
        count == 2
    } else {
        count == 4
    }
}

// Why a whole record is refused by itself.
#[tactic(auto, using(std::proofs::lemmas::Bool::Decides::nat_tests), unfolding(crate::specs::Record::flaw_of))]
fn flaw_at(number: u64, bytes: &[u8]) -> Option<HexFault>
    requires { 5 ≤ length bytes.now }
    ensures { result ≡ flaw_fault number (flaw_of bytes.now) }
{
    if sum_of(bytes) != 0 {
        return Some(HexFault::Checksum(number));
    }
    if bytes[3] > 5 {
        return Some(HexFault::Kind(number));
    }
    if !is_length_of(bytes[3], bytes.len() - 5) {
        return Some(HexFault::Length(number));
    }
    None
}

/// Looks at the record that may begin here, the `number`-th.
pub fn next_record<'a>(
    values: &[u8; 256],
    text: &'a [u8],
    bytes: &mut [u8; 260],
    number: u64,
) -> Step<'a>
    requires { IsTable values.now }
    ensures { IsStep text.now number result bytes.new }
{
    match scan_record(values, text, bytes) {
        Scanned::Ended => Step::Stop(Some(HexFault::NoEnd(number))),
        Scanned::Stray => Step::Stop(Some(HexFault::NoColon(number))),
        Scanned::Broken => Step::Stop(Some(HexFault::BadDigit(number))),
        Scanned::Cut => Step::Stop(Some(HexFault::Short(number))),
        Scanned::Whole(count, rest) => match flaw_at(number, &bytes[..count]) {
            Some(fault) => Step::Stop(Some(fault)),
            None => {
                if bytes[3] == 1 {
                    Step::Stop(None)
                } else {
                    Step::Goes(count, rest)
                }
            }
        },
    }
}
