//! Data records, taken up in pieces.
ghost use Rattle.std.specs.Prelude.{◌≡◌, ◌<◌, ◌≤◌, ◌++◌, ◌+◌, ◌^◌, ℕ, length, OnOk, OnErr, None};
ghost use Rattle.stm_image.specs.Pieces.{AllStand, pairs_in};
ghost use Rattle.stm_image.specs.Record.{flaw_of};
ghost use Rattle.stm_image.specs.Text.{address_at, pairs_from, pairs_of, form_after};

use crate::pieces::Pieces;
use crate::place::{Form, address_in, two_bytes};
use std::alloc::AllocError;

// How many bytes from an offset on stand at consecutive addresses, before they go on at the lowest.
fn room_from(form: Form, offset: u16) -> u64
    ensures fits { address_at form offset + result ≤ 2 ^ 32 }
    ensures goes_on { (k : ℕ) → k < result →
        address_at form (offset + k) ≡ address_at form offset + k }
    ensures again { (k : ℕ) → k < 256 →
        address_at form (offset + result + k) ≡ address_at form (offset + result) + k }
    ensures low { address_at form (offset + result) + 256 ≤ 2 ^ 32 }
{
    match form {
        Form::Linear(upper) => (1u64 << 32) - (u64::from(upper) * 65536 + u64::from(offset)),
        Form::Segment(_) => 65536 - u64::from(offset),
    }
}

// Adds the bytes of a data record, or leaves all as it was.
fn add_data(form: Form, offset: u16, bytes: &[u8], pieces: &mut Pieces) -> Result<(), AllocError>
    requires short { length bytes.now ≤ 255 }
    requires stand { AllStand pieces.old }
    ensures stand { AllStand pieces.new }
    ensures ok { OnOk result
        (pairs_in pieces.new ≡ pairs_in pieces.old ++ pairs_from form offset bytes.now) }
    ensures err { OnErr result (pairs_in pieces.new ≡ pairs_in pieces.old) }
{
    let start = address_in(form, u32::from(offset));
    let room = room_from(form, offset);
    if bytes.len() as u64 <= room {
        pieces.add(start, bytes)?;
        return Ok(());
    }
    let (front, back) = bytes.split_at(room as usize);
    let again = address_in(form, u32::from(offset) + room as u32);
    let before = pieces.mark();
    pieces.add(start, front)?;
    let Ok(()) = pieces.add(again, back) else {
        pieces.return_to(before);
        return Err(AllocError);
    };
    Ok(())
}

/// Takes up a good record: its bytes, and the form for the records after
/// it. At a refusal all stays.
pub fn take_up(form: &mut Form, bytes: &[u8], pieces: &mut Pieces) -> Result<(), AllocError>
    requires least { 5 ≤ length bytes.now }
    requires most { length bytes.now ≤ 260 }
    requires good { flaw_of bytes.now ≡ None }
    requires stand { AllStand pieces.old }
    ensures placed { OnOk result
        (pairs_in pieces.new ≡ pairs_in pieces.old ++ pairs_of form.old bytes.now) }
    ensures form { OnOk result (form.new ≡ form_after form.old bytes.now) }
    ensures err { OnErr result (pairs_in pieces.new ≡ pairs_in pieces.old) }
    ensures stand { AllStand pieces.new }
{
    let kind = bytes[3];
    if kind == 0 {
        let offset = u16::from_be_bytes([bytes[1], bytes[2]]);
        add_data(*form, offset, &bytes[4..bytes.len() - 1], pieces)?;
    } else if kind == 4 {
        *form = Form::Linear(two_bytes(bytes));
    } else if kind == 2 {
        *form = Form::Segment(two_bytes(bytes));
    }
    Ok(())
}
