// When the segments of a journal were begun, and which images they write: void lines behind the line that
// begins one.
ghost use Rattle.std.specs.Prelude.{◌≡◌, ◌≤◌, ◌-◌, ◌^◌, ◌++◌, length, IfOk, OnOk};
ghost use Rattle.stm_files.specs.Begun.{begun_line, begun_text};

use crate::escaped::Escaped;
use crate::journal_rig::Source;
use std::alloc::{AllocError, Global};
use std::io;

/// How many bytes the lines that name images have at most, so that all of them go behind one append.
const NAMES: usize = 160;

/// How many bytes a line has at most that is looked at.
const LINE: usize = 192;

/// The second since 1970 before which a clock isn't set: the first of 2026.
const SET: u64 = 1_767_225_600;

/// How many bytes the words of a time have: `time 2026-11-29T10:00:00Z`.
const TIME: usize = 25;

/// Adds the line of an image's file, by the last part of its name, where it has room.
pub fn add_image_line(alloc: Global, lines: &mut Vec<u8>, name: &str) -> Result<(), AllocError> {
    let last = match name.rsplit_once('/') {
        Some((_, last)) => last,
        None => name,
    };
    let line = format!(in alloc; "image {}!\n", Escaped(last))?;
    if lines.len().saturating_add(line.len()) > NAMES {
        return Ok(());
    }
    lines.extend_from_slice(line.as_bytes())
}

/// The lines behind the beginning of a segment: of the time, where a clock that was set tells it in
/// seconds since 1970, and then those of images.
pub fn begun_lines(alloc: Global, now: Option<u64>, images: &[u8]) -> Result<Vec<u8>, AllocError> {
    let mut lines = Vec::new(alloc);
    if let Some(seconds) = now {
        if seconds >= SET {
            let (year, month, day) = date_of(seconds / 86_400);
            let (hour, minute, second) = (seconds / 3600 % 24, seconds / 60 % 60, seconds % 60);
            let date = format!(in alloc; "time {year:04}-{month:02}-{day:02}")?;
            lines.extend_from_slice(date.as_bytes())?;
            let time = format!(in alloc; "T{hour:02}:{minute:02}:{second:02}Z!\n")?;
            lines.extend_from_slice(time.as_bytes())?;
        }
    }
    lines.extend_from_slice(images)?;
    Ok(lines)
}

/// The year, the month and the day of a day since 1970-01-01; one past the year 9999 is its last.
fn date_of(day: u64) -> (u64, u64, u64) {
    let mut left = day;
    for year in 1970..10_000_u64 {
        for month in 1..13_u64 {
            let days = days_of(year, month);
            if left < days {
                return (year, month, left + 1);
            }
            left -= days;
        }
    }
    (9999, 12, 31)
}

/// How many days a month has.
fn days_of(year: u64, month: u64) -> u64 {
    match month {
        2 if year % 4 == 0 && (year % 100 != 0 || year % 400 == 0) => 29,
        2 => 28,
        4 | 6 | 9 | 11 => 30,
        _ => 31,
    }
}

/// A void line behind the beginning of a segment, without its mark.
#[derive(Drop)]
pub struct Note {
    pub segment: u32,
    pub words: Vec<u8>,
}

/// What such lines say, those of the oldest segment first.
#[derive(Drop)]
pub struct Begun {
    alloc: Global,
    notes: Vec<Note>,
    /// The segment that began last, while no other line stands behind.
    segment: Option<u32>,
    /// The line so far.
    line: Vec<u8>,
}

/// A journal that is read from its first byte on, and what such lines of it say.
#[derive(Drop)]
pub struct Noting<S: Drop> {
    source: S,
    /// How far it was read.
    at: u64,
    begun: Begun,
}

impl<S: Source + Drop> Noting<S> {
    /// The same of a journal of which nothing was read yet.
    pub fn new(alloc: Global, source: S) -> Noting<S> {
        Noting {
            source,
            at: 0,
            begun: Begun {
                alloc,
                notes: Vec::new(alloc),
                segment: None,
                line: Vec::new(alloc),
            },
        }
    }

    /// What the journal is read from, and what was found.
    pub fn into_parts(self) -> (S, Begun) {
        (self.source, self.begun)
    }
}

impl<S: Source + Drop> Source for Noting<S> {
    fn fetch(&mut self, at: u64, buf: &mut [u8]) -> io::Result<usize>
        ensures length { length buf.new ≡ length buf.old }
        ensures within { IfOk result (λ n. n ≤ length buf.old) }
        ensures last { 2 ^ 63 - 1 ≤ at → IfOk result (λ n. n ≡ 0) }
    {
        let count = self.source.fetch(at, buf)?;
        if at == self.at {
            self.begun.see(&buf[..count])?;
            self.at = at.saturating_add(count as u64);
        }
        Ok(count)
    }
}

impl Begun {
    /// Reads on.
    fn see(&mut self, bytes: &[u8]) -> Result<(), AllocError> {
        for byte in bytes {
            if *byte == b'\n' {
                self.end_line()?;
            } else if self.line.len() < LINE {
                self.line.push(*byte)?;
            }
        }
        Ok(())
    }

    /// A line ends.
    fn end_line(&mut self) -> Result<(), AllocError> {
        let line = self.line.as_slice();
        if let Some(digits) = line.strip_prefix(b"open ") {
            self.segment = number_of(digits);
            let first = self.segment.unwrap_or(u32::MAX);
            self.notes.retain(|note| note.segment < first);
        } else if let (Some(segment), Some(words)) = (self.segment, words_of(line)) {
            let words = Vec::from_slice(self.alloc, words)?;
            self.notes.push(Note { segment, words })?;
        } else {
            self.segment = None;
        }
        self.line.clear();
        Ok(())
    }

    /// What they say.
    pub fn notes(&self) -> &[Note]
        ensures { result.now ≡ self.now.notes.items }
    {
        self.notes.as_slice()
    }

    /// Adds what they say of segment `k`, a line each.
    pub fn add_text(&self, out: &mut Vec<u8>, k: u32) -> Result<(), AllocError>
        ensures { OnOk result (out.new.items ≡ out.old.items ++ begun_text self.now.notes.items k) }
    {
        for note in &self.notes {
            note.add_line(out, k)?;
        }
        Ok(())
    }
}

impl Note {
    /// Adds its line, where it is of segment `k`.
    #[tactic(auto, unfolding(crate::specs::Begun::begun_line))]
    fn add_line(&self, out: &mut Vec<u8>, k: u32) -> Result<(), AllocError>
        ensures { OnOk result (out.new.items ≡ out.old.items ++ begun_line k self.now) }
    {
        if self.segment != k {
            return Ok(());
        }
        out.extend_from_slice(b"  ")?;
        out.extend_from_slice(&self.words)?;
        out.push(b'\n')?;
        Ok(())
    }
}

/// The number that digits tell.
fn number_of(digits: &[u8]) -> Option<u32> {
    str::from_utf8(digits).ok()?.parse::<u32>().ok()
}

/// What a line says of the beginning of a segment: nothing, where it was torn, and made void later, or
/// has what isn't printed.
fn words_of(line: &[u8]) -> Option<&[u8]> {
    let words = line.strip_suffix(b"!")?;
    let is_time = words.starts_with(b"time ") && words.len() == TIME;
    let is_image = words.starts_with(b"image ") && words.last() != Some(&b'!');
    let text = str::from_utf8(words).ok()?;
    let is_shown = (is_time || is_image) && !text.chars().any(|c| c.is_control());
    if is_shown { Some(words) } else { None }
}
