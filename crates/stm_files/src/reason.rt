// Why the system did not do what it was asked for.

use std::fmt::{Debug, Display, Formatter, Write};
use std::{fmt, io};

/// Why the system did not do what it was asked for, in its words, without their number.
#[derive(Drop)]
pub struct Reason(pub io::Error);

impl Display for Reason {
    fn fmt<W: fmt::Write>(&self, f: &mut Formatter<W>) -> fmt::Result {
        let mut words = Words {
            to: f,
            is_over: false,
        };
        write!(words, "{}", self.0)
    }
}

impl Debug for Reason {
    fn fmt<W: fmt::Write>(&self, f: &mut Formatter<W>) -> fmt::Result {
        Debug::fmt(&self.0, f)
    }
}

/// Hands a text on, up to the number of an error of the system.
#[derive(Drop)]
struct Words<'f, W> {
    to: &'f mut Formatter<W>,
    is_over: bool,
}

impl<W: fmt::Write> fmt::Write for Words<'_, W> {
    fn write_str(&mut self, text: &str) -> fmt::Result {
        self.is_over = self.is_over || text.starts_with(" (os error ");
        if self.is_over {
            return Ok(());
        }
        self.to.write_str(text)
    }
}
