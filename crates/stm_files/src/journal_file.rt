// A journal in a file, for a Rig with any line.
ghost use Rattle.std.specs.Prelude.{◌≡◌, ◌≤◌, ◌<◌, ◌-◌, ◌^◌, ◌++◌, ◌||◌, ℕ, List, true, false, length};
ghost use Rattle.std.specs.Prelude.{IfOk, OnErr, OnOk};
ghost use Rattle.std.specs.Io.KnownBytes.{IsAtEnd};
ghost use Rattle.stm_files.specs.JournalFile.{JournalBytes, IsNew, IsNoted, ahead_of, is_failed, known_bytes};
ghost use Rattle.stm_files.specs.JournalFile.{lock_of};
ghost use Rattle.stm_files.specs.Locks.{IsHeld, IsHeldIfThere};
ghost use Rattle.stm_files.specs.PageSeal.{AppendsSealed, IsSealIf, names_board, second_mark};

mod cut_off;
mod ending;
mod making;

use crate::disk_file::DiskFile;
use crate::held::Held;
use crate::journal_rig::Source;
use crate::locks::Locks;
use crate::page_seal::{names_board, seal_if, second_mark};
use crate::unusable::Unusable;
pub use ending::is_moved;
use making::open_held;
use std::fs::OpenFile;
use std::io::ErrorKind;
use std::marker::Model;
use std::{io, mem};
use stm_disk::add_lines;

/// How many bytes are looked at for a journal's header.
const WINDOW: usize = 4096;

/// Whether the first whole line of these that isn't void begins the header of a journal that names its
/// board.
fn begins_with_board(bytes: &[u8]) -> bool {
    let mut before: Option<&[u8]> = None;
    for line in bytes.split(|byte| *byte == b'\n') {
        // an LF stands behind the line before
        if let Some(whole) = before {
            if whole.last() != Some(&b'!') {
                return names_board(whole);
            }
        }
        before = Some(line);
    }
    false
}

/// How far the writing of a file has come.
#[derive(Drop)]
pub enum Writing<F> {
    /// Nothing was added yet.
    Unopened,
    /// The file is open, and all that was added is on the disk.
    Open(F),
    /// An append failed.
    Failed,
}

/// A journal in a file, which is made by the first append. This program has it for itself from
/// before it is read until this is dropped. After an append has failed, the file's end is not
/// known, and nothing more is added: it has to be opened and read again.
#[derive(Drop)]
pub struct JournalFile<'a, R: Locks> {
    rt: &'a R,
    name: &'a str,
    /// The file needs no lock: it was said that no other program has it.
    without_lock: bool,
    /// It is used whoever has it, and whoever may write it.
    trusts_others: bool,
    writing: Writing<R::File>,
    /// The file as it is read, once it is there.
    reading: Option<Held<R>>,
    /// How many bytes the file has.
    end: u64,
    /// What it holds, once it was added to, where there is memory for that.
    text: Option<Vec<u8>>,
    /// It names its board: behind each page that is added stands the line of its CRC.
    names_board: bool,
    /// Why the file that was to be made can't be had.
    refusal: Option<Unusable>,
    /// Why a call failed.
    reason: Option<io::Error>,
}

impl<'a, R: Locks> Model for JournalFile<'a, R> {
    ghost Value = { JournalBytes };

    ghost view = { λ j. record {
      known = known_bytes R.File.contents j.writing;
      has_failed = is_failed j.writing;
      ahead = ahead_of j.reading;
      lock = lock_of j.reading;
      without_lock = j.without_lock;
      names_board = j.names_board;
    } };

    ghost invariant = { λ j. IsHeldIfThere j.without_lock (lock_of j.reading) };
}

impl<'a, R: Locks + AllocGlobal> JournalFile<'a, R> {
    /// The journal in the file of this name, which this program has for itself from now on. Where
    /// it's said that no other program has it, it needs no lock on a file system that has none. One
    /// that others have or may write is refused, also one that isn't there yet, unless they are
    /// trusted.
    pub fn open(
        rt: &'a R,
        name: &'a str,
        without_lock: bool,
        trusts_others: bool,
    ) -> Result<JournalFile<'a, R>, Unusable>
        ensures { IfOk result (IsNew without_lock) }
    {
        let (reading, end) = match open_held(rt, name, without_lock, trusts_others)? {
            Some((held, end)) => (Some(held), end),
            None => (None, 0),
        };
        let mut file = JournalFile {
            rt,
            name,
            without_lock,
            trusts_others,
            writing: Writing::Unopened,
            reading,
            end,
            text: None,
            names_board: false,
            refusal: None,
            reason: None,
        };
        match file.look_for_board() {
            Ok(()) => Ok(file),
            Err(e) => Err(Unusable::Unread(e)),
        }
    }

    /// Looks whether it names its board, by how it begins.
    fn look_for_board(&mut self) -> io::Result<()>
        ensures known { self.new.known ≡ self.old.known }
        ensures failed { self.new.has_failed ≡ self.old.has_failed }
        ensures lock { self.new.lock ≡ self.old.lock }
        ensures without { self.new.without_lock ≡ self.old.without_lock }
    {
        let mut window = [0u8; WINDOW];
        let count = self.fetch(0, &mut window)?;
        self.names_board = begins_with_board(&window[..count]);
        Ok(())
    }

    /// An empty journal in no file, which takes no line.
    pub fn none(rt: &'a R) -> JournalFile<'a, R> {
        JournalFile {
            rt,
            name: "",
            without_lock: false,
            trusts_others: false,
            writing: Writing::Failed,
            reading: None,
            end: 0,
            text: None,
            names_board: false,
            refusal: None,
            reason: None,
        }
    }

    /// Adds the bytes at the end of the file, and behind the line of a page, in a journal that names its
    /// board, that of its CRC. It answers once they are on the disk. Where a write fails, a beginning
    /// of them may have been added, and stays; where a sync does, none of them.
    pub fn append(&mut self, bytes: &[u8]) -> io::Result<()>
        ensures added { OnOk result
            (AppendsSealed self.new.names_board self.old.known self.new.known bytes.now) }
        ensures board { OnOk result (self.new.names_board
            ≡ (self.old.names_board || names_board bytes.now)) }
        ensures ok { OnOk result ((self.old.has_failed ≡ false) × (self.new.has_failed ≡ false)) }
        ensures held { OnOk result (IsHeld self.old.without_lock self.new.lock) }
        ensures err { OnErr result (self.new.has_failed ≡ true) }
    {
        match self.add(bytes) {
            Ok(()) => Ok(()),
            Err(e) => Err(self.failed_by(e)),
        }
    }

    fn add(&mut self, bytes: &[u8]) -> io::Result<()>
        ensures added { OnOk result
            (AppendsSealed self.new.names_board self.old.known self.new.known bytes.now) }
        ensures board { OnOk result (self.new.names_board
            ≡ (self.old.names_board || names_board bytes.now)) }
        ensures ok { OnOk result ((self.old.has_failed ≡ false) × (self.new.has_failed ≡ false)) }
        ensures held { OnOk result (IsHeld self.old.without_lock self.new.lock) }
        ensures err { OnErr result (self.new.has_failed ≡ true) }
    {
        let file = match mem::replace(&mut self.writing, Writing::Failed) {
            Writing::Unopened => self.begin()?,
            Writing::Open(file) => file,
            Writing::Failed => return Err(io::Error::from(ErrorKind::Other)),
        };
        self.check_place(&file)?;
        let seals = self.names_board || names_board(bytes);
        let text = self.sealed(seals, bytes)?;
        let mut on_disk = DiskFile {
            file,
            is_unsynced: false,
        };
        if let Err(e) = add_lines(&mut on_disk, self.end, &text) {
            if on_disk.is_unsynced {
                // a later sync may answer though these bytes never come to the disk
                let _ = on_disk.file.set_len(self.end);
            }
            return Err(e);
        }
        self.end = self.end.saturating_add(text.len() as u64);
        self.names_board = seals;
        self.writing = Writing::Open(on_disk.file);
        self.remember(&text);
        Ok(())
    }

    /// The bytes of an append, with what is to stand before them and behind.
    fn sealed(&self, seals: bool, bytes: &[u8]) -> io::Result<Vec<u8>>
        ensures { IfOk result (λ text. (seal : List ℕ) × IsSealIf seals bytes.now seal
            × (text.items ≡ second_mark seals bytes.now ++ (bytes.now ++ seal))) }
    {
        let seal = seal_if(self.rt.alloc(), seals, bytes)?;
        let mut text = Vec::new(self.rt.alloc());
        text.extend_from_slice(second_mark(seals, bytes))?;
        text.extend_from_slice(bytes)?;
        text.extend_from_slice(&seal)?;
        Ok(text)
    }

    /// Keeps what was added.
    fn remember(&mut self, bytes: &[u8])
        ensures { self.new ≡ self.old }
    {
        let is_kept = match &mut self.text {
            Some(text) => text.extend_from_slice(bytes).is_ok(),
            None => false,
        };
        if !is_kept {
            self.text = None;
        }
    }

    /// Adds void lines to a journal that names its board and was added to, for whoever reads it later;
    /// where it doesn't stay, none. Where that fails nothing more is added.
    pub fn note(&mut self, lines: &[u8])
        ensures { IsNoted lines.now self.old self.new }
    {
        let is_open = matches!(self.writing, Writing::Open(_));
        if self.names_board && is_open && !lines.is_empty() && self.stays() {
            let _ = self.append(lines);
        }
    }

    /// The journal's bytes. A file that is not there is an empty journal.
    pub fn read(&mut self) -> io::Result<Vec<u8>>
        ensures known { self.new.known ≡ self.old.known }
        ensures failed { self.new.has_failed ≡ self.old.has_failed }
        ensures lock { self.new.lock ≡ self.old.lock }
        ensures without { self.new.without_lock ≡ self.old.without_lock }
        ensures board { self.new.names_board ≡ self.old.names_board }
        ensures end { OnOk result (IsAtEnd self.new.ahead) }
    {
        let mut bytes = Vec::new(self.rt.alloc());
        if let Some(file) = &mut self.reading {
            file.read(&mut bytes)?;
        }
        Ok(bytes)
    }
}

impl<'a, R: Locks> JournalFile<'a, R> {
    /// Reads from a place on, and answers how many bytes; 0 at or past the end. A file
    /// that is not there is empty.
    pub fn fetch(&mut self, at: u64, buf: &mut [u8]) -> io::Result<usize>
        ensures known { self.new.known ≡ self.old.known }
        ensures failed { self.new.has_failed ≡ self.old.has_failed }
        ensures lock { self.new.lock ≡ self.old.lock }
        ensures without { self.new.without_lock ≡ self.old.without_lock }
        ensures length { length buf.new ≡ length buf.old }
        ensures within { IfOk result (λ n. n ≤ length buf.old) }
        ensures last { 2 ^ 63 - 1 ≤ at → IfOk result (λ n. n ≡ 0) }
        ensures end { at < 2 ^ 63 - 1 → 0 < length buf.old
            → IfOk result (λ n. n ≡ 0 → IsAtEnd self.new.ahead) }
    {
        if at >= i64::MAX as u64 {
            return Ok(0);
        }
        match &mut self.reading {
            Some(file) => file.fetch(at, buf),
            None => Ok(0),
        }
    }

    /// Adds nothing more, as after an append that failed.
    pub fn give_up(&mut self)
        ensures failed { self.new.has_failed ≡ true }
    {
        self.writing = Writing::Failed;
    }

    /// Whether an append failed.
    pub fn has_failed(&self) -> bool
        ensures { result ≡ self.now.has_failed }
    {
        matches!(self.writing, Writing::Failed)
    }
}

impl<'a, R: Locks> Source for JournalFile<'a, R> {
    fn fetch(&mut self, at: u64, buf: &mut [u8]) -> io::Result<usize>
        ensures length { length buf.new ≡ length buf.old }
        ensures within { IfOk result (λ n. n ≤ length buf.old) }
        ensures last { 2 ^ 63 - 1 ≤ at → IfOk result (λ n. n ≡ 0) }
    {
        self.fetch(at, buf)
    }
}
