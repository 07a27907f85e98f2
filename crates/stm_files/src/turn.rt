// A turn on a line: what was put, and what came for it.
ghost use Rattle.std.specs.Prelude.{◌≡◌, min, take};
ghost use Rattle.stm_files.specs.Turn.{TurnData};

use std::marker::Model;

/// How many bytes are kept of what was put in a turn, and of what came: one more than the longest
/// step has that names a place.
const KEPT: usize = 6;

/// What was put, and what came before the next byte was put: of each the first bytes.
#[derive(Drop)]
pub struct Turn {
    put: [u8; KEPT],
    puts: usize,
    came: [u8; KEPT],
    gets: usize,
}

impl Model for Turn {
    ghost Value = { TurnData };

    ghost view = { λ t. record {
      put = take (min t.puts 6) t.put;
      came = take (min t.gets 6) t.came;
    } };
}

impl Turn {
    /// One in which nothing was put yet.
    pub fn new() -> Turn {
        Turn {
            put: [0; KEPT],
            puts: 0,
            came: [0; KEPT],
            gets: 0,
        }
    }

    /// The same turn once more.
    pub fn copy(&self) -> Turn {
        Turn {
            put: self.put,
            puts: self.puts,
            came: self.came,
            gets: self.gets,
        }
    }

    /// What was put.
    pub fn put(&self) -> &[u8]
        ensures { result.now ≡ self.now.put }
    {
        &self.put[..self.puts.min(KEPT)]
    }

    /// What came.
    pub fn came(&self) -> &[u8]
        ensures { result.now ≡ self.now.came }
    {
        &self.came[..self.gets.min(KEPT)]
    }

    /// A byte is put.
    #[inline(always)]
    pub fn add_put(&mut self, byte: u8) {
        if self.puts < KEPT {
            self.put[self.puts] = byte;
            self.puts += 1;
        }
    }

    /// A byte came.
    #[inline(always)]
    pub fn add_came(&mut self, byte: u8) {
        if self.gets < KEPT {
            self.came[self.gets] = byte;
            self.gets += 1;
        }
    }
}
