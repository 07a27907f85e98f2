// Bytes that are put on a line one by one, and sent together.
ghost use Rattle.std.specs.Prelude.{◌≡◌, ◌≤◌, ◌++◌, ◌∷◌, [], List, ℕ, OnOk, length, take};
ghost use Rattle.std.specs.Prelude.{◌==◌, ◌<◌, MatchBool, OnErr};
ghost use Rattle.std.specs.Io.KnownBytes.{Appends, Keeps};
ghost use Rattle.stm_files.specs.Outgoing.{SendsInTurn};

use std::io;
use std::io::Write;
use std::marker::Model;

/// How many bytes wait at most.
const ROOM: usize = 512;

/// Bytes that were put and were not sent yet, at most 512.
#[derive(Drop)]
pub struct Outgoing {
    bytes: [u8; ROOM],
    count: usize,
}

impl Model for Outgoing {
    ghost Value = { List ℕ };

    ghost view = { λ o. take o.count o.bytes };

    ghost invariant = { λ o. o.count ≤ 512 };
}

impl Outgoing {
    pub fn new() -> Outgoing
        ensures { result ≡ [] }
    {
        Outgoing {
            bytes: [0; ROOM],
            count: 0,
        }
    }

    /// Whether nothing waits.
    #[inline(always)]
    pub fn is_empty(&self) -> bool
        ensures { result ≡ (length self.now == 0) }
    {
        self.count == 0
    }

    /// Adds a byte; false where there is no room for it.
    #[inline(always)]
    fn push(&mut self, byte: u8) -> bool
        ensures { MatchBool result
            (self.new ≡ self.old ++ byte ∷ [])
            ((self.new ≡ self.old) × (512 ≤ length self.old)) }
    {
        if self.count >= ROOM {
            return false;
        }
        self.bytes[self.count] = byte;
        self.count += 1;
        true
    }

    /// Sends what waits, in one call where the stream takes it so. Nothing waits
    /// then, also where this failed.
    #[inline(never)]
    pub fn send<S: Write>(&mut self, stream: &mut S) -> io::Result<()>
        ensures sent { OnOk result
            (Appends (S.contents stream.old) (S.contents stream.new) self.old) }
        ensures emptied { self.new ≡ [] }
        ensures any { OnErr result (0 < length self.old) }
    {
        let count = self.count;
        self.count = 0;
        if count == 0 {
            return Ok(());
        }
        stream.write_all(&self.bytes[..count])
    }

    /// Puts a byte behind those that wait, which are sent first where there is no room for it.
    #[inline(always)]
    pub fn put<S: Write>(&mut self, stream: &mut S, byte: u8) -> io::Result<()>
        ensures in_turn { OnOk result (SendsInTurn
            (S.contents stream.old) (S.contents stream.new) (self.old ++ byte ∷ []) self.new) }
    {
        if self.push(byte) {
            return Ok(());
        }
        self.send(stream)?;
        let _ = self.push(byte);
        Ok(())
    }
}
