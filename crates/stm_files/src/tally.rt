// How many lines a text has.
ghost use Rattle.std.specs.Prelude.{◌≡◌, ℕ, ◌+◌, ◌-◌, ◌^◌, ◌<◌, ◌++◌, ◌∷◌, [], List, length};
ghost use Rattle.std.specs.Prelude.{if◌then◌else◌, min};
ghost use Rattle.stm_files.specs.Tally.{IsTallyOf};

/// How many lines a text has that is read byte by byte.
#[derive(Clone, Copy)]
pub struct Tally {
    /// The whole ones.
    pub lines: u64,
    /// Those of them that are void.
    pub voids: u64,
    /// How many bytes stand behind the last.
    pub tail: u64,
    /// The last of these is `!`.
    pub is_marked: bool,
}

impl Tally {
    /// That of no bytes.
    pub fn new() -> Tally
        ensures { IsTallyOf [] result }
    {
        Tally {
            lines: 0,
            voids: 0,
            tail: 0,
            is_marked: false,
        }
    }

    /// That of a byte more.
    pub fn with_byte(self, byte: u8) -> Tally
        ensures { (bytes : List ℕ) → IsTallyOf bytes self → length bytes < 2 ^ 63
            → IsTallyOf (bytes ++ byte ∷ []) result }
    {
        if byte == b'\n' {
            return self.with_line();
        }
        let tail = self.tail.saturating_add(1);
        Tally {
            lines: self.lines,
            voids: self.voids,
            tail,
            is_marked: byte == b'!',
        }
    }

    /// That of an LF more.
    fn with_line(self) -> Tally
        ensures { (bytes : List ℕ) → IsTallyOf bytes self → length bytes < 2 ^ 63
            → IsTallyOf (bytes ++ 10 ∷ []) result }
    {
        let lines = self.lines.saturating_add(1);
        let voids = more_if(self.is_marked, self.voids);
        Tally {
            lines,
            voids,
            tail: 0,
            is_marked: false,
        }
    }

    /// That of these bytes more.
    pub fn with(self, more: &[u8]) -> Tally
        ensures { (bytes : List ℕ) → IsTallyOf bytes self → length bytes + length more.now < 2 ^ 63
            → IsTallyOf (bytes ++ more.now) result }
    {
        let mut tally = self;
        for byte in more {
            tally = tally.with_byte(*byte);
        }
        tally
    }
}

/// A number, and one more where that is so; it stays at its top.
fn more_if(is_so: bool, number: u64) -> u64
    ensures { result ≡ (if is_so then min (number + 1) (2 ^ 64 - 1) else number) }
{
    if is_so {
        number.saturating_add(1)
    } else {
        number
    }
}
