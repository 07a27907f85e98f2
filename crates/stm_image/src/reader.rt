//! Reads a whole HEX text.
ghost use Rattle.std.specs.Prelude.{◌⊎◌, IfOk, IfErr};
ghost use Rattle.stm_image.specs.Pieces.{AllStand, pairs_in};
ghost use Rattle.stm_image.specs.Reads.{Reads};
ghost use Rattle.stm_image.specs.Text.{Means, FaultStands, IsOutOfMemory};

use crate::conflict::record_of;
use crate::data::take_up;
use crate::digit_table::digit_values;
use crate::layout::set_of;
use crate::pieces::Pieces;
use crate::place::Form;
use crate::step::{Step, next_record};
use crate::{HexFault, Image};
use std::alloc::Global;

// What one pass over a text gives: the bytes in the order of their records, and what stops it, if
// not an end record.
#[derive(Drop)]
struct Reading {
    pieces: Pieces,
    stop: Option<HexFault>,
}

// One pass, which looks for no conflict.
fn read_pieces(alloc: Global, text: &[u8]) -> Reading
    ensures reads { Reads text.now (pairs_in result.pieces) result.stop }
    ensures stand { AllStand result.pieces }
{
    let mut pieces = Pieces::new(alloc);
    let values = digit_values();
    let mut bytes = [0u8; 260];
    let mut form = Form::Linear(0);
    let mut rest = text;
    let mut number = 1u64;
    'records: loop {
        match next_record(&values, rest, &mut bytes, number) {
            Step::Stop(stop) => return Reading { pieces, stop },
            Step::Goes(count, after) => {
                let Ok(()) = take_up(&mut form, &bytes[..count], &mut pieces) else {
                    let stop = Some(HexFault::Memory(number));
                    return Reading { pieces, stop };
                };
                rest = after;
                number += 1;
            }
        }
    }
}

/// Reads an Intel HEX text: the set that it means, or the fault that stands in it first.
///
/// Follows the Hexadecimal Object File Format Specification, revision A of 1988; `docs/FORMATS.md` has
/// the rules that it leaves open. Nothing after the end record is read. `Memory` may come in the
/// place of any record, with that record's number; with 1 where the text was read and its bytes
/// found no room in the order of their addresses.
pub fn read_hex(alloc: Global, text: &[u8]) -> Result<Image, HexFault>
    ensures ok { IfOk result (Means text.now) }
    ensures err { IfErr result (λ e. FaultStands text.now e ⊎ IsOutOfMemory text.now e) }
{
    let reading = read_pieces(alloc, text);
    let Ok(found) = set_of(alloc, reading.pieces) else {
        // The text is read, and its bytes find no room in the order of their addresses.
        return Err(HexFault::Memory(1));
    };
    match found {
        Ok(image) => match reading.stop {
            None => Ok(image),
            Some(fault) => Err(fault),
        },
        Err(place) => Err(HexFault::Conflict(record_of(text, place))),
    }
}
