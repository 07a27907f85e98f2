//! Digits, read by a table that `hex` fills.
ghost use Rattle.std.specs.Prelude.{◌≡◌, ◌*◌, MatchBool, Ok, length};
ghost use Rattle.hex.specs.Hex.{decode_of, hex_digit_value};
ghost use Rattle.stm_image.specs.Digits.{HasOther, IsTable, table_value};

/// What each byte is worth as a digit, or 255.
pub fn digit_values() -> [u8; 256]
    ensures { IsTable result }
{
    let mut values = [255u8; 256];
    for b in 0..256usize {
        values[b] = digit_value(b as u8);
    }
    values
}

// What a byte is worth as a digit, or 255.
fn digit_value(b: u8) -> u8
    ensures { result ≡ table_value (hex_digit_value b) }
{
    let digits = [b'0', b];
    let mut out = [0u8; 1];
    if hex::decode_to_slice(&digits, &mut out).is_ok() {
        out[0]
    } else {
        255
    }
}

/// Fills `out` from two digits for each byte, or finds that one of them is none.
pub fn decode(values: &[u8; 256], digits: &[u8], out: &mut [u8]) -> bool
    requires table { IsTable values.now }
    requires twice { length digits.now ≡ 2 * length out.old }
    ensures { MatchBool result (decode_of digits.now ≡ Ok out.new) (HasOther digits.now) }
{
    // What is no digit sets one of its upper bits.
    let mut seen = 0u8;
    for i in 0..out.len() {
        let high = values[usize::from(digits[2 * i])];
        let low = values[usize::from(digits[2 * i + 1])];
        seen = seen | high | low;
        out[i] = high.wrapping_mul(16).wrapping_add(low);
    }
    seen <= 15
}
