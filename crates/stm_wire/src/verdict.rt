// What a device makes of the bytes that came since its last verdict.
ghost use Rattle.std.specs.Prelude.{◌==◌, ◌&&◌, fold, bit_xor, ◌≡◌, ◌+◌, ◌^◌, ◌<◌};
ghost use Rattle.stm_wire.specs.Exchange.{done_if, at_end, xor, verdict, command_verdict};
ghost use Rattle.stm_wire.specs.Exchange.{after_address, read_verdict, write_verdict, all_verdict};
ghost use Rattle.stm_wire.specs.Exchange.{erase_verdict, extended_verdict, pages_verdict};
ghost use Rattle.stm_wire.specs.Exchange.{two_byte_numbers, all_exist, complement, pair_of, is_listed};
ghost use Rattle.stm_wire.specs.Chip.{fits_inside, is_inside};
ghost use Rattle.stm_wire.specs.Telling.{can_read, is_readable};

use crate::Chip;
use crate::telling::{can_read, is_readable};

/// What becomes of a list of bytes.
#[derive(Clone, Copy, Debug, PartialEq, Eq)]
pub enum Verdict {
    Done,
    Refused,
    /// Nothing is promised.
    Loose,
}

pub fn done_if(test: bool) -> Verdict
    ensures { result ≡ done_if test }
{
    if test {
        Verdict::Done
    } else {
        Verdict::Refused
    }
}

fn at_end(verdict: Verdict, rest: &[u8]) -> Option<Verdict>
    ensures { result ≡ at_end verdict rest.now }
{
    match rest {
        [] => Some(verdict),
        [_, ..] => None,
    }
}

/// The exclusive-or of a byte and these.
fn xor_from(first: u8, bytes: &[u8]) -> u8
    ensures { result ≡ fold bit_xor first bytes.now }
{
    bytes.iter().fold(first, |check, byte| check ^ *byte)
}

/// Whether the byte at an address lies in the flash.
pub fn is_inside(chip: &Chip, address: u32) -> bool
    ensures { result ≡ is_inside chip.now address }
{
    chip.base() <= address && u64::from(address) < chip.end()
}

/// Whether so many bytes from an address on lie in the flash.
pub fn fits_inside(chip: &Chip, address: u32, n: u16) -> bool
    ensures { result ≡ fits_inside chip.now address n }
{
    chip.base() <= address && u64::from(address) + u64::from(n) <= chip.end()
}

fn read_verdict(chip: &Chip, address: u32, bytes: &[u8]) -> Option<Verdict>
    ensures { result ≡ read_verdict chip.now address bytes.now }
{
    match bytes {
        [n, check, rest @ ..] => at_end(
            done_if(*check == !*n && can_read(chip, address, u16::from(*n) + 1)),
            rest,
        ),
        _ => None,
    }
}

fn write_verdict(chip: &Chip, address: u32, bytes: &[u8]) -> Option<Verdict>
    ensures { result ≡ write_verdict chip.now address bytes.now }
{
    match bytes {
        [n, rest @ ..] => {
            let size = usize::from(*n) + 1;
            if rest.len() == size + 1 {
                Some(done_if(
                    rest[size] == xor_from(*n, &rest[..size])
                        && fits_inside(chip, address, u16::from(*n) + 1),
                ))
            } else {
                None
            }
        }
        [] => None,
    }
}

fn all_verdict(bytes: &[u8]) -> Option<Verdict>
    ensures { result ≡ all_verdict bytes.now }
{
    match bytes {
        [check, rest @ ..] => at_end(done_if(*check == 0), rest),
        [] => None,
    }
}

fn bytes_exist(chip: &Chip, pages: &[u8]) -> bool
    ensures { result ≡ all_exist chip.now pages.now }
{
    let count = chip.pages();
    pages.iter().all(|page| u16::from(*page) < count)
}

fn pairs_exist(chip: &Chip, bytes: &[u8]) -> bool
    ensures { result ≡ all_exist chip.now (two_byte_numbers bytes.now) }
{
    let mut rest = bytes;
    while let [high, low, after @ ..] = rest {
        if u16::from(*high) * 256 + u16::from(*low) >= chip.pages() {
            return false;
        }
        rest = after;
    }
    true
}

fn erase_verdict(chip: &Chip, bytes: &[u8]) -> Option<Verdict>
    ensures { result ≡ erase_verdict chip.now bytes.now }
{
    match bytes {
        [0xFF, rest @ ..] => all_verdict(rest),
        [n, rest @ ..] => {
            let size = usize::from(*n) + 1;
            if rest.len() == size + 1 {
                Some(done_if(
                    rest[size] == xor_from(*n, &rest[..size]) && bytes_exist(chip, &rest[..size]),
                ))
            } else {
                None
            }
        }
        [] => None,
    }
}

fn extended_verdict(chip: &Chip, bytes: &[u8]) -> Option<Verdict>
    ensures { result ≡ extended_verdict chip.now bytes.now }
{
    match bytes {
        [high, low, rest @ ..] => {
            let count = usize::from(*high) * 256 + usize::from(*low);
            if count == 0xFFFF {
                all_verdict(rest)
            } else if count >= 0xFFF0 {
                if rest.len() == 1 {
                    Some(Verdict::Loose)
                } else {
                    None
                }
            } else {
                let size = 2 * (count + 1);
                if rest.len() == size + 1 {
                    Some(done_if(
                        rest[size] == xor_from(*high ^ *low, &rest[..size])
                            && pairs_exist(chip, &rest[..size]),
                    ))
                } else {
                    None
                }
            }
        }
        _ => None,
    }
}

fn command_verdict(chip: &Chip, code: u8, bytes: &[u8]) -> Option<Verdict>
    ensures { result ≡ command_verdict chip.now code bytes.now }
{
    match code {
        0x00 | 0x02 => at_end(Verdict::Done, bytes),
        0x11 => read_command_verdict(chip, bytes),
        0x21 | 0x31 => address_verdict(chip, code, bytes),
        0x43 => erase_verdict(chip, bytes),
        0x44 => extended_verdict(chip, bytes),
        _ => at_end(Verdict::Loose, bytes),
    }
}

fn read_command_verdict(chip: &Chip, bytes: &[u8]) -> Option<Verdict>
    ensures { result ≡ after_address (is_readable chip.now) (read_verdict chip.now) bytes.now }
{
    match bytes {
        [a, b, c, d, check, rest @ ..] => {
            let address = u32::from_be_bytes([*a, *b, *c, *d]);
            if *check == *a ^ *b ^ *c ^ *d && is_readable(chip, address) {
                read_verdict(chip, address, rest)
            } else {
                at_end(Verdict::Refused, rest)
            }
        }
        _ => None,
    }
}

fn address_verdict(chip: &Chip, code: u8, bytes: &[u8]) -> Option<Verdict>
    ensures go { code ≡ 0x21 → result
        ≡ after_address (is_inside chip.now) (λ address rest. at_end Verdict.Done rest) bytes.now }
    ensures write { code ≡ 0x31
        → result ≡ after_address (is_inside chip.now) (write_verdict chip.now) bytes.now }
{
    match bytes {
        [a, b, c, d, check, rest @ ..] => {
            let address = u32::from_be_bytes([*a, *b, *c, *d]);
            if *check == *a ^ *b ^ *c ^ *d && is_inside(chip, address) {
                match code {
                    0x31 => write_verdict(chip, address, rest),
                    _ => at_end(Verdict::Done, rest),
                }
            } else {
                at_end(Verdict::Refused, rest)
            }
        }
        _ => None,
    }
}

fn is_listed(codes: &[u8], code: u8) -> bool
    ensures { result ≡ is_listed codes.now code }
{
    codes.iter().any(|c| *c == code)
}

fn is_pair(codes: &[u8], code: u8, check: u8) -> bool
    ensures { result ≡ (check == complement code && is_listed codes.now code) }
{
    check == !code && is_listed(codes, code)
}

/// The verdict on a whole list, of a device with this chip and these codes.
pub fn verdict_of(chip: &Chip, codes: &[u8], bytes: &[u8]) -> Option<Verdict>
    ensures { result ≡ verdict chip.now codes.now bytes.now }
{
    match bytes {
        [code, check, rest @ ..] => {
            if is_pair(codes, *code, *check) {
                command_verdict(chip, *code, rest)
            } else {
                at_end(Verdict::Refused, rest)
            }
        }
        _ => None,
    }
}
