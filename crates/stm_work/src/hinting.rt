// What is told of the last turns on a line. Its codes are those of Read Memory, Write Memory and the two
// erases, with their complements (AN3155, sections 3.4 and 3.6 to 3.8).
use crate::hint::Hint;
use stm_files::{Turn, Turns};

/// The byte that acknowledges a step, and the one that refuses it (AN3155, section 1).
const ACK: u8 = 0x79;

const NACK: u8 = 0x1F;

/// The byte by which some devices say that they are busy, before they acknowledge (AN4221).
const BUSY: u8 = 0x76;

/// What is told where a command's code was refused.
fn of_code(put: &[u8]) -> Option<Hint> {
    match put {
        [0x11, 0xEE] => Some(Hint::ReadRefused),
        [0x31, 0xCE] => Some(Hint::WriteRefused),
        [0x43, 0xBC] | [0x44, 0xBB] => Some(Hint::EraseRefused),
        _ => None,
    }
}

/// What is told where the address behind the code of a read or a write was refused, or what follows it.
fn of_address(code: &[u8], place: &[u8]) -> Option<Hint> {
    match (code, place) {
        ([0x11, 0xEE], [a, b, c, d, _check]) => {
            Some(Hint::ReadRefusedAt(u32::from_be_bytes([*a, *b, *c, *d])))
        }
        ([0x31, 0xCE], [a, b, c, d, _check]) => {
            Some(Hint::WriteRefusedAt(u32::from_be_bytes([*a, *b, *c, *d])))
        }
        _ => None,
    }
}

/// What is told where the only page behind the code of an erase was refused: its number has one byte, or
/// two.
fn of_page(code: &[u8], put: &[u8]) -> Option<Hint> {
    match (code, put) {
        ([0x43, 0xBC], [_count, page, _check]) => Some(Hint::PageRefused(u16::from(*page))),
        ([0x44, 0xBB], [_count, _low, high, low, _check]) => {
            Some(Hint::PageRefused(u16::from_be_bytes([*high, *low])))
        }
        _ => None,
    }
}

/// What was put in a turn, where it was answered so; else nothing.
fn answered(answer: u8, turn: &Turn) -> &[u8] {
    match turn.came() {
        [first, ..] if *first == answer => turn.put(),
        _ => &[],
    }
}

/// What is told where a step was refused behind what was acknowledged in the two turns before.
fn of_refused(ahead: &[u8], before: &[u8], put: &[u8]) -> Option<Hint> {
    if put.is_empty() {
        return None;
    }
    of_address(ahead, before)
        .or(of_address(before, put))
        .or(of_page(before, put))
        .or(of_code(put))
}

/// What is told of an id of other than two bytes, whose count was acknowledged (AN3155, section 3.3).
fn of_id(put: &[u8], came: &[u8]) -> Option<Hint> {
    match (put, came) {
        ([0x02, 0xFD], [ACK, count, ..]) if *count != 1 => Some(Hint::IdOf(u16::from(*count) + 1)),
        _ => None,
    }
}

/// What is told of what came, this byte first, for what was put.
fn of_answer(first: u8, put: &[u8], came: &[u8]) -> Option<Hint> {
    match first {
        ACK | NACK => None,
        _ if put.starts_with(came) => Some(Hint::Echo),
        BUSY if put.len() > 1 && came.len() == 1 => Some(Hint::Busy),
        _ => Some(Hint::NoAnswer),
    }
}

/// What is told of what came last for what was put.
fn of_heard(put: &[u8], came: &[u8]) -> Option<Hint> {
    match (put, came) {
        (_, []) => Some(Hint::Silent),
        ([], _) => Some(Hint::NoAnswer),
        (_, [first, ..]) => of_id(put, came).or(of_answer(*first, put, came)),
    }
}

/// What is told of the last turns on a line, where it was broken off behind them.
pub fn hint_of(turns: &Turns) -> Option<Hint> {
    let ahead = answered(ACK, &turns.ahead);
    let before = answered(ACK, &turns.before);
    let put = answered(NACK, &turns.last);
    let heard = turns.heard();
    of_refused(ahead, before, put).or(of_heard(heard.put(), heard.came()))
}
