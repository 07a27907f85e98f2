// A part of a flash, as a word gives it.
ghost use Rattle.std.specs.Prelude.{◌≡◌};
ghost use Rattle.stm_words.specs.Given.{is_whole_words, range_of};

use crate::cut::cut_at;
use crate::number::parse_number;

/// A part of a flash: where it starts, and its length; without one it goes to the flash's end.
#[derive(Clone, Copy)]
pub struct Range {
    pub start: u32,
    pub length: Option<u32>,
}

impl Range {
    /// The part that a word `address[:length]` gives.
    pub fn parse(word: &str) -> Option<Range>
        ensures { result ≡ range_of word.now }
    {
        match cut_at(word, ':') {
            Some((start, length)) => Some(Range {
                start: parse_number(start)?,
                length: Some(parse_number(length)?),
            }),
            None => Some(Range {
                start: parse_number(word)?,
                length: None,
            }),
        }
    }

    /// Whether it begins at a word of 4 bytes, and has whole words where it has a length.
    pub fn is_whole_words(&self) -> bool
        ensures { result ≡ is_whole_words self.now }
    {
        self.start % 4 == 0 && self.length.unwrap_or(0) % 4 == 0
    }
}
