// The last turns on a line.
ghost use Rattle.std.specs.Prelude.{◌≡◌};
ghost use Rattle.stm_files.specs.Turns.{heard_turn};

use crate::turn::Turn;
use std::mem;

/// The last turns on a line, and the last one in which something came.
#[derive(Drop)]
pub struct Turns {
    pub ahead: Turn,
    pub before: Turn,
    pub last: Turn,
    heard: Turn,
    /// A get followed the last put.
    is_asked: bool,
}

impl Turns {
    pub fn new() -> Turns {
        Turns {
            ahead: Turn::new(),
            before: Turn::new(),
            last: Turn::new(),
            heard: Turn::new(),
            is_asked: false,
        }
    }

    /// The last turn in which something came, or one in which nothing did.
    pub fn heard(&self) -> &Turn
        ensures { result.now ≡ heard_turn self.now }
    {
        if self.last.came().is_empty() {
            &self.heard
        } else {
            &self.last
        }
    }

    /// A byte is put.
    #[inline(always)]
    pub fn put(&mut self, byte: u8) {
        if self.is_asked {
            self.begin();
        }
        self.last.add_put(byte);
    }

    /// A get answered.
    #[inline(always)]
    pub fn get(&mut self, answer: Option<u8>) {
        self.is_asked = true;
        if let Some(byte) = answer {
            self.last.add_came(byte);
        }
    }

    /// Another turn begins.
    fn begin(&mut self) {
        if !self.last.came().is_empty() {
            self.heard = self.last.copy();
        }
        let last = mem::replace(&mut self.last, Turn::new());
        self.ahead = mem::replace(&mut self.before, last);
        self.is_asked = false;
    }
}
