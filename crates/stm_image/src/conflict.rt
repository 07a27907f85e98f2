//! Which record gives an address another byte.
ghost use Rattle.std.specs.Prelude.{◌≡◌, ◌≤◌, length};
ghost use Rattle.stm_image.specs.Reads.{HasByte, IsByteOfRecord};
ghost use Rattle.stm_image.specs.Text.{pairs_of};
ghost use Rattle.stm_image.specs.declared.place.Form.{Form};

use crate::digit_table::digit_values;
use crate::step::{Step, next_record};

/// Which record has the byte at a place among those of all records.
pub fn record_of(text: &[u8], place: usize) -> u64
    requires { HasByte text.now place }
    ensures { IsByteOfRecord text.now place result }
{
    let values = digit_values();
    let mut bytes = [0u8; 260];
    let mut rest = text;
    let mut number = 1u64;
    // How many bytes of the records from here on come before it.
    let mut left = place;
    'records: loop {
        match next_record(&values, rest, &mut bytes, number) {
            Step::Stop(_) => unreachable!(),
            Step::Goes(count, after) => {
                let data = data_count(&bytes[..count]);
                if left < data {
                    return number;
                }
                left -= data;
                rest = after;
                number += 1;
            }
        }
    }
}

// How many data bytes a good record places.
fn data_count(bytes: &[u8]) -> usize
    requires { 5 ≤ length bytes.now }
    ensures { (form : Form) → result ≡ length (pairs_of form bytes.now) }
{
    if bytes[3] == 0 { bytes.len() - 5 } else { 0 }
}
