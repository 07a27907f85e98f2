// What the simulator answers to a done list.
ghost use Rattle.std.specs.Prelude.{◌≡◌, ◌+◌, ◌≤◌, ◌∷◌, [], ◌++◌, length};
ghost use Rattle.std.specs.VecDeque.{deque_len, deque_capacity};
ghost use Rattle.stm_wire.specs.Reply.{ack, answer, commands_answer, id_answer, read_answer};
ghost use Rattle.stm_wire.specs.Telling.{asks_unique, kib_bytes, readable_bytes};

use std::collections::VecDeque;
use stm_wire::{Chip, asks_unique, fits_inside, kib_bytes, part};

/// The longest reply: 79, and the 256 bytes of a Read Memory.
pub const REPLY_ROOM: usize = 257;

/// Adds bytes, for which there is room.
fn push_all(owed: &mut VecDeque<u8>, bytes: &[u8])
    requires { deque_len owed.old + length bytes.now ≤ deque_capacity owed.old }
    ensures items { owed.new.items ≡ owed.old.items ++ bytes.now }
    ensures len { deque_len owed.new ≡ deque_len owed.old + length bytes.now }
    ensures capacity { deque_capacity owed.new ≡ deque_capacity owed.old }
{
    for byte in bytes {
        owed.push_back_reserved(*byte);
    }
}

/// Answers a Get: how many codes, the version, the codes.
fn answer_get(owed: &mut VecDeque<u8>, version: u8, codes: &[u8; 9])
    requires { deque_len owed.old + 12 ≤ deque_capacity owed.old }
    ensures { owed.new.items ≡ owed.old.items ++ commands_answer version codes.now }
{
    push_all(owed, &[9, version]);
    push_all(owed, codes);
    push_all(owed, &[0x79]);
}

/// Answers a Get ID: one less than how many bytes, and the two bytes.
fn answer_get_id(owed: &mut VecDeque<u8>, chip: &Chip)
    requires { deque_len owed.old + 4 ≤ deque_capacity owed.old }
    ensures { owed.new.items ≡ owed.old.items ++ id_answer chip.now }
{
    let [high, low] = chip.id().to_be_bytes();
    push_all(owed, &[1, high, low, 0x79]);
}

/// Answers a Read Memory, from its address on.
fn answer_read_memory(owed: &mut VecDeque<u8>, chip: &Chip, flash: &[u8], bytes: &[u8])
    requires { deque_len owed.old + 256 ≤ deque_capacity owed.old }
    ensures { owed.new.items ≡ owed.old.items ++ read_answer chip.now flash.now bytes.now }
{
    if let [a, b, c, d, _, n, ..] = bytes {
        let address = u32::from_be_bytes([*a, *b, *c, *d]);
        let n = u16::from(*n) + 1;
        if fits_inside(chip, address, n) {
            let at = address.saturating_sub(chip.base()) as usize;
            push_all(owed, part(flash, at, usize::from(n)));
        } else if asks_unique(chip, address, n) {
            push_all(owed, chip.unique().as_bytes());
        } else {
            push_all(owed, &kib_bytes(chip));
        }
    }
}

/// Adds the reply to a done list.
pub fn reply_to_done(
    owed: &mut VecDeque<u8>,
    chip: &Chip,
    version: u8,
    codes: &[u8; 9],
    flash: &[u8],
    bytes: &[u8],
)
    requires { deque_len owed.old + REPLY_ROOM ≤ deque_capacity owed.old }
    ensures { owed.new.items
        ≡ owed.old.items ++ ack ∷ answer chip.now version codes.now flash.now bytes.now }
{
    owed.push_back_reserved(0x79);
    match bytes {
        [0x00, _, ..] => answer_get(owed, version, codes),
        [0x02, _, ..] => answer_get_id(owed, chip),
        [0x11, _, rest @ ..] => answer_read_memory(owed, chip, flash, rest),
        _ => {}
    }
}
