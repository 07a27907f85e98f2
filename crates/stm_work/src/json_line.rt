// A line of JSON (RFC 8259): one object, whose values are texts, numbers and lists of texts.
ghost use Rattle.std.specs.Prelude.{◌≡◌, ◌++◌, ◌<◌, ◌∷◌, [], ℕ, List, IfOk, OnOk, decimal};
ghost use Rattle.stm_work.specs.JsonLine.{by_number, hex_digit, line_end, lines_from};
ghost use Rattle.stm_work.specs.JsonLine.{lines_member, list_from, made_member, number_member, numbers_member};
ghost use Rattle.stm_work.specs.JsonLine.{object_of, quoted, quoted_byte, text_member, text_value};
ghost use Rattle.stm_work.specs.JsonLine.{unless_empty};

use crate::numbers::add_numbers;
use std::alloc::{AllocError, Global};

/// A line of JSON that is being made: one object, member by member.
#[derive(Drop)]
pub struct JsonLine {
    alloc: Global,
    text: Vec<u8>,
}

impl JsonLine {
    /// An object that begins with a member of this name, whose value is a text.
    pub fn of(alloc: Global, name: &str, value: &str) -> Result<JsonLine, AllocError>
        ensures { IfOk result (λ line. line.text.items ≡ object_of name.now value.now) }
    {
        let mut text = Vec::new(alloc);
        text.push(b'{')?;
        add_text(&mut text, name.as_bytes())?;
        text.push(b':')?;
        add_text(&mut text, value.as_bytes())?;
        Ok(JsonLine { alloc, text })
    }

    /// Adds a member whose value is a text.
    pub fn text(&mut self, name: &str, value: &str) -> Result<(), AllocError>
        ensures { OnOk result (self.new.text.items
            ≡ self.old.text.items ++ text_member name.now value.now) }
    {
        self.name(name)?;
        add_text(&mut self.text, value.as_bytes())
    }

    /// Adds a member whose value is a number.
    pub fn number(&mut self, name: &str, value: u64) -> Result<(), AllocError>
        ensures { OnOk result (self.new.text.items
            ≡ self.old.text.items ++ number_member name.now value) }
    {
        self.name(name)?;
        let digits = format!(in self.alloc; "{value}")?;
        self.text.extend_from_slice(digits.as_bytes())
    }

    /// Adds a member whose value is a list: the lines of a text, but those that are empty.
    pub fn lines(&mut self, name: &str, text: &[u8]) -> Result<(), AllocError>
        ensures { OnOk result (self.new.text.items
            ≡ self.old.text.items ++ lines_member name.now text.now) }
    {
        self.name(name)?;
        add_lines(&mut self.text, text)
    }

    /// Adds a member whose value is a list of numbers.
    pub fn numbers(&mut self, name: &str, numbers: &[u32]) -> Result<(), AllocError>
        ensures { OnOk result (self.new.text.items
            ≡ self.old.text.items ++ numbers_member name.now numbers.now) }
    {
        self.name(name)?;
        self.text.push(b'[')?;
        add_numbers(self.alloc, &mut self.text, ",", numbers)?;
        self.text.push(b']')?;
        Ok(())
    }

    /// Adds a member whose value is JSON already.
    pub fn made(&mut self, name: &str, value: &[u8]) -> Result<(), AllocError>
        ensures { OnOk result (self.new.text.items
            ≡ self.old.text.items ++ made_member name.now value.now) }
    {
        self.name(name)?;
        self.text.extend_from_slice(value)
    }

    /// Begins a member behind another.
    fn name(&mut self, name: &str) -> Result<(), AllocError>
        ensures { OnOk result (self.new.text.items
            ≡ self.old.text.items ++ (0x2C ∷ (text_value name.now ++ (0x3A ∷ [])))) }
    {
        self.text.push(b',')?;
        add_text(&mut self.text, name.as_bytes())?;
        self.text.push(b':')?;
        Ok(())
    }

    /// The whole line, with its LF.
    pub fn end(self) -> Result<Vec<u8>, AllocError>
        ensures { IfOk result (λ line. line.items ≡ self.text.items ++ line_end) }
    {
        let JsonLine { mut text, .. } = self;
        text.push(b'}')?;
        text.push(b'\n')?;
        Ok(text)
    }
}

/// Adds the lines of a text, but those that are empty, as a list.
fn add_lines(out: &mut Vec<u8>, text: &[u8]) -> Result<(), AllocError>
    ensures { OnOk result (out.new.items
        ≡ out.old.items ++ list_from 0x5B (lines_from [] text.now)) }
{
    let mut mark = b'[';
    let mut start = 0usize;
    for i in 0..text.len() {
        if text[i] != b'\n' {
            continue;
        }
        mark = add_line(out, mark, &text[start..i])?;
        start = i + 1;
    }
    mark = add_line(out, mark, &text[start..])?;
    end_list(out, mark)?;
    Ok(())
}

/// Ends a list that goes on with this mark.
fn end_list(out: &mut Vec<u8>, mark: u8) -> Result<(), AllocError>
    ensures { OnOk result (out.new.items ≡ out.old.items ++ list_from mark []) }
{
    if mark == b'[' {
        out.push(mark)?;
    }
    out.push(b']')?;
    Ok(())
}

/// Adds a line to a list, but no empty one, and answers the mark with which the list goes on.
fn add_line(out: &mut Vec<u8>, mark: u8, line: &[u8]) -> Result<u8, AllocError>
    ensures { IfOk result (λ next. (more : List (List ℕ))
        → out.new.items ++ list_from next more
        ≡ out.old.items ++ list_from mark (unless_empty line.now ++ more)) }
{
    if line.is_empty() {
        return Ok(mark);
    }
    out.push(mark)?;
    add_text(out, line)?;
    Ok(b',')
}

/// Adds a text with its quotation marks.
fn add_text(out: &mut Vec<u8>, text: &[u8]) -> Result<(), AllocError>
    ensures { OnOk result (out.new.items ≡ out.old.items ++ text_value text.now) }
{
    out.push(b'"')?;
    add_quoted(out, text)?;
    out.push(b'"')?;
    Ok(())
}

/// Adds a text as it stands within quotation marks.
fn add_quoted(out: &mut Vec<u8>, text: &[u8]) -> Result<(), AllocError>
    ensures { OnOk result (out.new.items ≡ out.old.items ++ quoted text.now) }
{
    for byte in text {
        add_quoted_byte(out, *byte)?;
    }
    Ok(())
}

/// Adds what stands for a byte within quotation marks.
fn add_quoted_byte(out: &mut Vec<u8>, byte: u8) -> Result<(), AllocError>
    ensures { OnOk result (out.new.items ≡ out.old.items ++ quoted_byte byte) }
{
    match byte {
        b'"' | b'\\' => out.extend_from_slice(&[b'\\', byte]),
        0..0x20 => add_by_number(out, byte),
        _ => add_byte(out, byte),
    }
}

/// Adds a byte as it is.
fn add_byte(out: &mut Vec<u8>, byte: u8) -> Result<(), AllocError>
    ensures { OnOk result (out.new.items ≡ out.old.items ++ byte ∷ []) }
{
    out.push(byte)?;
    Ok(())
}

/// Adds a control character by its number.
fn add_by_number(out: &mut Vec<u8>, byte: u8) -> Result<(), AllocError>
    ensures { OnOk result (out.new.items ≡ out.old.items ++ by_number byte) }
{
    out.extend_from_slice(b"\\u00")?;
    out.push(hex_digit(byte / 16))?;
    out.push(hex_digit(byte % 16))?;
    Ok(())
}

/// A digit in base 16, in small letters.
fn hex_digit(value: u8) -> u8
    requires { value < 16 }
    ensures { result ≡ hex_digit value }
{
    if value < 10 {
        b'0' + value
    } else {
        b'a' - 10 + value
    }
}
