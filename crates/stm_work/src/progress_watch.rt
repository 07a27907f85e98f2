// What the calls of a session tell of what is done.

use crate::kept_pages::number;

/// What is done with a page.
#[derive(Clone, Copy, PartialEq, Eq)]
pub enum Doing {
    Reading,
    Erasing,
    Writing,
}

/// What a call told.
#[derive(Clone, Copy)]
pub enum Seen {
    /// The device's product id.
    Id(u16),
    /// A block of the flash is read or written, from this address on.
    Block(Doing, u32),
    /// A page is erased or written, by its line in the journal.
    Page(Doing, u16),
    /// A write, an erase or an undo of one is finished, by its line.
    Finished,
}

/// The codes of the commands that are told apart (AN3155, sections 3.2, 3.3 and 3.5).
const GET_ID: u8 = 0x02;

const READ: u8 = 0x11;

const WRITE: u8 = 0x31;

/// How many bytes a line of the journal has at most that names a page without its bytes, and
/// what may stand before it.
const SHORT: usize = 20;

/// What was put since the last get, and what came since the last command.
#[derive(Drop)]
pub struct Watch {
    /// The first bytes put since the last get, and how many were put.
    run: [u8; 5],
    length: usize,
    /// The code of the last command; 0: none that is told apart.
    code: u8,
    /// The bytes that came since: the last two, and how many.
    before: u8,
    last: u8,
    replies: u32,
}

impl Watch {
    pub fn new() -> Watch {
        Watch {
            run: [0; 5],
            length: 0,
            code: 0,
            before: 0,
            last: 0,
            replies: 0,
        }
    }

    /// A byte was put.
    pub fn put(&mut self, byte: u8) {
        if self.length < self.run.len() {
            self.run[self.length] = byte;
        }
        self.length = self.length.saturating_add(1);
    }

    /// A get follows the bytes put: they were a command's code, or an address.
    pub fn get(&mut self) -> Option<Seen> {
        let length = self.length;
        self.length = 0;
        let [a, b, c, d, check] = self.run;
        if length == 2 && b == !a {
            self.code = a;
            self.replies = 0;
            return None;
        }
        if length != 5 || check != a ^ b ^ c ^ d {
            return None;
        }
        let doing = match self.code {
            READ => Doing::Reading,
            WRITE => Doing::Writing,
            _ => return None,
        };
        self.code = 0;
        Some(Seen::Block(doing, u32::from_be_bytes([a, b, c, d])))
    }

    /// A byte came. The fourth behind Get ID is the id's second (AN3155, section 3.3).
    pub fn reply(&mut self, byte: u8) -> Option<Seen> {
        self.before = self.last;
        self.last = byte;
        self.replies = self.replies.saturating_add(1);
        if self.code != GET_ID || self.replies != 4 {
            return None;
        }
        self.code = 0;
        Some(Seen::Id(u16::from_be_bytes([self.before, byte])))
    }
}

/// What bytes added to the journal tell: a page and what is done with it, or an end.
pub fn page_named(bytes: &[u8]) -> Option<Seen> {
    if bytes.len() > SHORT {
        return None;
    }
    let line = bytes.strip_suffix(b"\n")?;
    let line = line.strip_prefix(b"!\n").unwrap_or(line);
    if line.starts_with(b"end ") || line.starts_with(b"undone ") {
        return Some(Seen::Finished);
    }
    if let Some(digits) = line.strip_prefix(b"erase ") {
        return Some(Seen::Page(Doing::Erasing, number(digits)?));
    }
    let digits = line.strip_prefix(b"program ")?;
    Some(Seen::Page(Doing::Writing, number(digits)?))
}
