// Texts as they are printed, within one line.
ghost use Rattle.std.specs.Prelude.{◌≡◌, ◌<◌, option_map};
ghost use Rattle.std.specs.Char.{digit_char};
ghost use Rattle.std.specs.Fmt.{HasWritten, IsPlainFormatter, WritesOnOk};
ghost use Rattle.std.specs.Str.{IsUtf8, encode_utf8_all};
ghost use Rattle.stm_files.specs.Escaped.{EscapedIsOneLine, escaped, number_escape, shown};

use std::fmt;
use std::fmt::{Display, Formatter, Write};

/// A text as it is printed, within one line: a control character (U+0000 to U+001F, U+007F to
/// U+009F) is printed as `\n`, `\t`, `\r`, or by its number, as `\x1b`.
#[derive(Clone, Copy, Debug)]
pub struct Escaped<T>(pub T);

impl<T: Display> Display for Escaped<T> {
    ghost output = { λ text. option_map escaped (T.output text.0) };

    fn fmt<W: fmt::Write>(&self, f: &mut Formatter<W>) -> fmt::Result {
        let mut escaping = Escaping { to: f };
        write!(escaping, "{}", self.0)
    }
}

/// Hands a text on, escaped.
#[derive(Drop)]
struct Escaping<'f, W> {
    to: &'f mut Formatter<W>,
}

impl<W: fmt::Write> fmt::Write for Escaping<'_, W> {
    ghost write_str_gives = { λ s bytes t. (t.to.ghost_name ≡ s.to.ghost_name) × IsUtf8 bytes
        × (IsPlainFormatter s.to.now
        → HasWritten W.write_str_gives s.to.now (escaped bytes) t.to.now) };

    fn write_str(&mut self, text: &str) -> fmt::Result {
        for c in text.chars() {
            write_shown(self.to, c)?;
        }
        Ok(())
    }
}

/// Writes what stands for a character.
fn write_shown<W: fmt::Write>(f: &mut Formatter<W>, c: char) -> fmt::Result
    ensures { WritesOnOk W.write_str_gives f.old result (encode_utf8_all (shown c)) f.new }
{
    match c {
        '\n' => f.write_str("\\n"),
        '\t' => f.write_str("\\t"),
        '\r' => f.write_str("\\r"),
        '\0'..='\x1f' | '\x7f'..='\u{9f}' => write_number(f, u32::from(c)),
        c => f.write_char(c),
    }
}

/// Writes a character by its number.
fn write_number<W: fmt::Write>(f: &mut Formatter<W>, code: u32) -> fmt::Result
    requires { code < 256 }
    ensures { let text = encode_utf8_all (number_escape code) in
        WritesOnOk W.write_str_gives f.old result text f.new }
{
    f.write_str("\\x")?;
    f.write_char(hex_digit(code / 16))?;
    f.write_char(hex_digit(code % 16))
}

/// A digit in base 16.
fn hex_digit(value: u32) -> char
    requires { value < 16 }
    ensures { result ≡ digit_char value }
{
    match char::from_digit(value, 16) {
        Some(digit) => digit,
        None => unreachable!(),
    }
}

/// A text that is escaped has no control character, and so it stands in one line.
pub fn an_escaped_text_is_one_line()
    ensures { EscapedIsOneLine }
{}
