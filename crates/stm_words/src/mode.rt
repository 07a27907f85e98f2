// Who may use a file.
ghost use Rattle.std.specs.Prelude.{◌≡◌, ◌<◌, IfSome, Some, true};
ghost use Rattle.stm_words.specs.Number.{digit_value};
ghost use Rattle.stm_words.specs.Given.{is_octal_digit, mode_of};

/// The mode that a word gives in 1 to 3 octal digits, 0 to 0o777.
pub fn parse_mode(text: &str) -> Option<u32>
    ensures { IfSome result (λ mode. mode_of text.now ≡ Some mode) }
{
    match text.as_bytes() {
        [a] => digit(*a),
        [a, b] => Some(digit(*a)? * 8 + digit(*b)?),
        [a, b, c] => Some((digit(*a)? * 8 + digit(*b)?) * 8 + digit(*c)?),
        _ => None,
    }
}

/// The value of an octal digit.
fn digit(byte: u8) -> Option<u32>
    ensures small { IfSome result (λ value. value < 8) }
    ensures value { IfSome result (λ value. (is_octal_digit byte ≡ true) × (value ≡ digit_value byte)) }
{
    match byte {
        b'0'..=b'7' => Some(u32::from(byte - b'0')),
        _ => None,
    }
}
