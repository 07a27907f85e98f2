// Bytes that came on a line together, and are taken one by one.
ghost use Rattle.std.specs.Prelude.{◌≡◌, ◌≤◌, ◌∷◌, [], IfOk, List, ℕ, MatchOption, MatchResult};
ghost use Rattle.std.specs.Prelude.{drop, length, take};
ghost use Rattle.std.specs.Io.KnownBytes.{Consumes, Keeps};

use crate::socket_line::Timed;
use std::io;
use std::io::{ErrorKind, Read};
use std::marker::Model;

/// How many bytes are taken from a stream at a time.
const ROOM: usize = 512;

/// Bytes that came and were not taken yet, at most 512.
#[derive(Drop)]
pub struct Incoming {
    bytes: [u8; ROOM],
    from: usize,
    to: usize,
}

impl Model for Incoming {
    ghost Value = { List ℕ };

    ghost view = { λ i. drop i.from (take i.to i.bytes) };

    ghost invariant = { λ i. (i.from ≤ i.to) × (i.to ≤ 512) };
}

impl Incoming {
    pub fn new() -> Incoming
        ensures { result ≡ [] }
    {
        Incoming {
            bytes: [0; ROOM],
            from: 0,
            to: 0,
        }
    }

    /// Takes the first byte, where there is one.
    #[inline(always)]
    pub fn pop(&mut self) -> Option<u8>
        ensures { MatchOption result
            ((self.old ≡ []) × (self.new ≡ []))
            (λ byte. self.old ≡ byte ∷ self.new) }
    {
        if self.from >= self.to {
            return None;
        }
        let byte = self.bytes[self.from];
        self.from += 1;
        Some(byte)
    }

    /// Takes what a stream has, where nothing is here, and answers how much: 0 at the stream's end.
    /// Where the read fails, nothing is here still.
    fn fill<S: Timed>(&mut self, stream: &mut S, millis: u64) -> io::Result<usize>
        requires empty { self.old ≡ [] }
        requires set { S.waits stream.old millis }
        ensures still { S.waits stream.new millis }
        ensures filled { MatchResult result
            (λ count. (count ≡ length self.new)
            × Consumes (S.remaining stream.old) (S.remaining stream.new) self.new)
            (λ e. (self.new ≡ self.old)
            × Keeps (S.remaining stream.old) (S.remaining stream.new)) }
    {
        self.from = 0;
        self.to = 0;
        self.to = stream.read_within(millis, &mut self.bytes)?;
        Ok(self.to)
    }

    /// Takes the next byte that comes on a stream, with those behind it, where none is here; None
    /// where the stream's time, which was set in milliseconds, was over without one. Its end is an error. A signal that comes while
    /// it is waited for is no answer.
    pub fn receive<S: Timed>(&mut self, stream: &mut S, millis: u64) -> io::Result<Option<u8>>
        requires empty { self.old ≡ [] }
        requires set { S.waits stream.old millis }
        ensures still { S.waits stream.new millis }
        ensures comes { IfOk result (λ answer. MatchOption answer
            ((self.new ≡ []) × Keeps (S.remaining stream.old) (S.remaining stream.new))
            (λ byte. Consumes
            (S.remaining stream.old) (S.remaining stream.new) (byte ∷ self.new))) }
    {
        for _ in 0..u64::MAX {
            match self.fill(stream, millis) {
                Ok(0) => return Err(io::Error::from(ErrorKind::UnexpectedEof)),
                Ok(_) => return Ok(self.pop()),
                Err(e) if e.kind() == ErrorKind::WouldBlock => return Ok(None),
                Err(e) if e.kind() == ErrorKind::Interrupted => {}
                Err(e) => return Err(e),
            }
        }
        Err(io::Error::from(ErrorKind::Interrupted))
    }
}
