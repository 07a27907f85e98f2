// A file that this program has for itself.
ghost use Rattle.std.specs.Prelude.{◌≡◌, ◌≤◌, ◌<◌, ◌||◌, length, IfOk, IfSome, OnOk, true, false};
ghost use Rattle.std.specs.Io.KnownBytes.{IsAtEnd};
ghost use Rattle.stm_files.specs.NoJournal.{is_no_journal};
ghost use Rattle.stm_files.specs.Locks.{HeldFile, ShowsHold};

use crate::beginning::refuse_other;
use crate::fetching::fetch_from;
use crate::locks::{LockAnswer, Locks};
use crate::unusable::Unusable;
use std::io;
use std::io::{Read, Seek, SeekFrom};
use std::marker::Model;

/// A file that this program has for itself, to read it: it was locked, or the system gives no lock
/// on it, and the user said that no other program has it.
#[derive(Drop)]
pub struct Held<R: Locks> {
    file: R::File,
    is_locked: bool,
}

impl<R: Locks> Model for Held<R> {
    ghost Value = { HeldFile };

    ghost view = { λ h. record { ahead = R.File.remaining h.file; is_locked = h.is_locked } };

    ghost invariant = { λ h. (f : _) × ShowsHold (R.answered f) h.is_locked };
}

impl<R: Locks> Held<R> {
    /// Asks for a lock on a file. Where the system gives none, the file is had all the same if
    /// it's said that no other program has it.
    pub fn claim(rt: &R, file: R::File, without_lock: bool) -> Result<Held<R>, Unusable>
        ensures { IfOk result (λ held. (held.is_locked || without_lock) ≡ true) }
    {
        let is_locked = lock_if_any(rt, &file, without_lock)?;
        Ok(Held { file, is_locked })
    }

    /// The file.
    pub fn file(&self) -> &R::File {
        &self.file
    }

    /// Refuses one that is no journal, of which nothing was read yet.
    pub fn refuse_other(&mut self) -> Result<(), Unusable>
        ensures journal { OnOk result (IfSome self.old.ahead
            (λ told. is_no_journal told ≡ false)) }
        ensures lock { self.new.is_locked ≡ self.old.is_locked }
    {
        refuse_other(&mut self.file)
    }

    /// Reads from a place on, and answers how many bytes; 0 at or past the end.
    pub fn fetch(&mut self, at: u64, buf: &mut [u8]) -> io::Result<usize>
        ensures length { length buf.new ≡ length buf.old }
        ensures within { IfOk result (λ n. n ≤ length buf.old) }
        ensures end { 0 < length buf.old → IfOk result (λ n. n ≡ 0 → IsAtEnd self.new.ahead) }
        ensures lock { self.new.is_locked ≡ self.old.is_locked }
    {
        fetch_from(&mut self.file, at, buf)
    }

    /// Adds all of its bytes to these.
    pub fn read(&mut self, bytes: &mut Vec<u8>) -> io::Result<()>
        ensures end { OnOk result (IsAtEnd self.new.ahead) }
        ensures lock { self.new.is_locked ≡ self.old.is_locked }
    {
        self.file.seek(SeekFrom::Start(0))?;
        self.file.read_to_end(bytes)?;
        Ok(())
    }
}

/// Asks for a lock on a file, and answers whether there is one. Where the system gives none, the
/// file is had all the same if it's said that no other program has it.
pub fn lock_if_any<R: Locks>(rt: &R, file: &R::File, without_lock: bool) -> Result<bool, Unusable>
    ensures shown { IfOk result (λ is_locked. ShowsHold (R.answered file.now) is_locked) }
    ensures locked { IfOk result (λ is_locked. (is_locked || without_lock) ≡ true) }
{
    match rt.lock(file) {
        LockAnswer::Ours => Ok(true),
        LockAnswer::Refused(_) if without_lock => Ok(false),
        LockAnswer::Refused(e) => Err(Unusable::Unlockable(e)),
        LockAnswer::Taken => Err(Unusable::InUse),
    }
}
