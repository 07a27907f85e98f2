// The text of a journal that is cut to its newest segments.
ghost use Rattle.std.specs.Prelude.{◌≡◌, ◌≤◌, ◌<◌, length, IfOk};

use crate::begun::Begun;
use crate::damage::is_sum;
use crate::file_fault::FileFault;
use crate::journal_rig::Source;
use crate::page_seal::SEAL;
use crate::replacement::Replacement;
use std::alloc::Global;
use std::fs::Files;
use std::io;
use stm_journal::{Journal, PagePlace};

/// How many bytes are copied at once.
const PIECE: usize = 4096;

/// A text on its way to the file beside a journal.
#[derive(Drop)]
pub struct CutText<R: Files> {
    beside: Replacement<R>,
    alloc: Global,
    /// What is said of the beginning of segments.
    begun: Begun,
    /// What isn't written yet.
    bytes: Vec<u8>,
}

impl<R: Files + AllocGlobal> CutText<R> {
    /// An empty text.
    pub fn new(alloc: Global, beside: Replacement<R>, begun: Begun) -> CutText<R> {
        CutText {
            beside,
            alloc,
            begun,
            bytes: Vec::new(alloc),
        }
    }

    /// The file beside, with all that was written.
    pub fn into_file(self) -> Replacement<R> {
        self.beside
    }

    /// Writes the header of a journal, where it has one, and the segments behind so many, the oldest
    /// first and numbered from 1: of each its pages as they stand in the journal, and its end. It
    /// answers once all is on the disk.
    pub fn write<'a, S: Source>(
        &mut self,
        rt: &R,
        name: &'a str,
        journal: &Journal,
        source: &mut S,
        given_up: u32,
    ) -> Result<(), FileFault<'a>> {
        written(self.add_header(journal), name)?;
        for k in given_up..journal.depth() {
            let number = (k - given_up).saturating_add(1);
            self.add_segment(name, journal, source, k.saturating_add(1), number)?;
        }
        written(self.flush(), name)?;
        written(self.beside.end(rt), name)
    }

    /// Adds bytes.
    fn add(&mut self, bytes: &[u8]) -> io::Result<()> {
        self.bytes.extend_from_slice(bytes)?;
        if self.bytes.len() < PIECE {
            return Ok(());
        }
        self.flush()
    }

    /// Writes what isn't written yet.
    fn flush(&mut self) -> io::Result<()> {
        self.beside.write(self.bytes.as_slice())?;
        self.bytes.clear();
        Ok(())
    }

    /// Adds the line that names the device, and its board where the journal does.
    fn add_header(&mut self, journal: &Journal) -> io::Result<()> {
        let (Some((version, _)), Some(id)) = (journal.header(), journal.id()) else {
            return Ok(());
        };
        let line = format!(in self.alloc; "stmjournal {version} {id:04X}")?;
        self.add(line.as_bytes())?;
        if let Some(unique) = journal.unique() {
            let digits = hex::encode_upper(self.alloc, unique.as_bytes())?;
            self.add(b" ")?;
            self.add(digits.as_bytes())?;
        }
        self.add(b"\n")
    }

    /// Adds segment `k` under another number.
    fn add_segment<'a, S: Source>(
        &mut self,
        name: &'a str,
        journal: &Journal,
        source: &mut S,
        k: u32,
        number: u32,
    ) -> Result<(), FileFault<'a>> {
        written(self.add_line("open", number), name)?;
        written(self.add_notes(k), name)?;
        for i in 0..journal.kept_count(k) {
            if let (Some((page, _)), Some(place)) = (journal.kept(k, i), journal.kept_place(k, i)) {
                self.add_page(name, source, page, place)?;
            }
        }
        written(self.add_line("end", number), name)
    }

    /// Adds the lines of the beginning of segment `k`.
    fn add_notes(&mut self, k: u32) -> io::Result<()> {
        for note in self.begun.notes() {
            if note.segment == k {
                self.bytes.extend_from_slice(&note.words)?;
                self.bytes.extend_from_slice(b"!\n")?;
            }
        }
        Ok(())
    }

    /// Adds a line of a word and a number.
    fn add_line(&mut self, word: &str, number: u32) -> io::Result<()> {
        let line = format!(in self.alloc; "{word} {number}\n")?;
        self.add(line.as_bytes())
    }

    /// Adds the line of a page, whose digits stand in the journal.
    fn add_page<'a, S: Source>(
        &mut self,
        name: &'a str,
        source: &mut S,
        page: u16,
        place: PagePlace,
    ) -> Result<(), FileFault<'a>> {
        written(self.begin_page(page), name)?;
        self.add_digits(name, source, place)?;
        written(self.add(b"\n"), name)?;
        let digits = place.length.saturating_mul(2);
        self.add_sum(
            name,
            source,
            place.at.saturating_add(digits).saturating_add(1),
        )
    }

    /// Adds the line of a page's CRC, where one stands behind it in the journal.
    fn add_sum<'a, S: Source>(
        &mut self,
        name: &'a str,
        source: &mut S,
        at: u64,
    ) -> Result<(), FileFault<'a>> {
        let mut line = [0u8; SEAL as usize];
        for i in 0..line.len() {
            match source.fetch(at.saturating_add(i as u64), &mut line[i..i + 1]) {
                Ok(0) => return Ok(()),
                Ok(_) => {}
                Err(e) => return Err(FileFault::of_file(&e, FileFault::CannotRead(name))),
            }
        }
        if is_sum(&line) {
            return written(self.add(&line), name);
        }
        Ok(())
    }

    /// Adds what stands before the digits of a page.
    fn begin_page(&mut self, page: u16) -> io::Result<()> {
        let line = format!(in self.alloc; "page {page} ")?;
        self.add(line.as_bytes())
    }

    /// Adds the digits of a page, piece by piece.
    fn add_digits<'a, S: Source>(
        &mut self,
        name: &'a str,
        source: &mut S,
        place: PagePlace,
    ) -> Result<(), FileFault<'a>> {
        let mut buf = [0u8; PIECE];
        let size = place.length.saturating_mul(2);
        let mut done = 0u64;
        while done < size {
            let room = piece_of(size - done);
            let count = fetch_some(
                source,
                name,
                place.at.saturating_add(done),
                &mut buf[..room],
            )?;
            written(self.add(&buf[..count]), name)?;
            done += count as u64;
        }
        Ok(())
    }
}

/// How many of so many bytes are read at once.
pub fn piece_of(left: u64) -> usize
    ensures most { result ≤ 4096 }
    ensures within { result ≤ left }
{
    if left < PIECE as u64 {
        left as usize
    } else {
        PIECE
    }
}

/// Reads from a place of a journal on, and answers how many bytes: one at least, which have to be
/// there.
pub fn fetch_some<'a, S: Source>(
    source: &mut S,
    name: &'a str,
    at: u64,
    buf: &mut [u8],
) -> Result<usize, FileFault<'a>>
    ensures length { length buf.new ≡ length buf.old }
    ensures some { IfOk result (λ n. (0 < n) × (n ≤ length buf.old)) }
{
    match source.fetch(at, buf) {
        Ok(0) => Err(FileFault::CannotRead(name)),
        Ok(count) => Ok(count),
        Err(e) => Err(FileFault::of_file(&e, FileFault::CannotRead(name))),
    }
}

/// What came of a write for the journal of this name.
fn written<'a>(done: io::Result<()>, name: &'a str) -> Result<(), FileFault<'a>> {
    match done {
        Ok(()) => Ok(()),
        Err(e) => Err(FileFault::of_file(&e, FileFault::CannotWrite(name))),
    }
}
