// How a file begins, to see whether it is a journal.
ghost use Rattle.std.specs.Prelude.{◌≡◌, ◌≤◌, ◌<◌, ◌&&◌, fold, length, take, IfOk, IfSome, OnOk, true, false};
ghost use Rattle.std.specs.Io.KnownBytes.{Consumes, IsAtEnd};
ghost use Rattle.stm_journal.specs.Entries.{is_upper_digit};
ghost use Rattle.stm_files.specs.Beginning.{broken_by, ended, goes_on, read_on, is_said, longer};
ghost use Rattle.stm_files.specs.Beginning.{may_be_torn, no_bytes, unread, is_other_at_end};
ghost use Rattle.stm_files.specs.NoJournal.{has_place, is_filling, is_no_journal, may_stand};

use crate::unusable::Unusable;
use std::io;
use std::io::{ErrorKind, Read};

/// The word that a header begins with.
const WORD: &[u8; 11] = b"stmjournal ";

/// How many bytes the longest header has.
const LONGEST: u8 = 82;

/// How many bytes are read at once.
const WINDOW: usize = 4096;

/// How a line goes on that may be a beginning of a header.
#[derive(Clone, Copy)]
pub enum Course {
    /// As a header does.
    Header,
    /// Behind a beginning of one with NUL and `!` alone.
    Torn,
    /// As none does.
    Other,
}

/// A line so far.
#[derive(Clone, Copy)]
pub struct LineStart {
    /// The byte in the place of the version, once it is there.
    pub version: u8,
    /// How many of its first bytes go on as a header does.
    pub at: u8,
    pub course: Course,
    /// Its last byte is `!`.
    pub is_marked: bool,
}

/// A file so far.
#[derive(Clone, Copy)]
pub enum Beginning {
    /// All its whole lines are void: whether stopped appends of a header may have left them, and the
    /// line behind them.
    Void(bool, LineStart),
    /// It has a line that isn't: whether the first one has a header's word.
    Said(bool),
}

fn is_digit(c: u8) -> bool
    ensures { result ≡ is_upper_digit c }
{
    (48 <= c && c <= 57) || (65 <= c && c <= 70)
}

/// Whether a byte may have this place of a header, whose version is known behind its place.
#[tactic(auto, unfolding(crate::specs::NoJournal::has_place))]
fn has_place(version: u8, at: u8, byte: u8) -> bool
    ensures { result ≡ has_place version at byte }
{
    if at < 11 {
        byte == WORD[at as usize]
    } else if at < 12 {
        b'1' <= byte && byte <= b'3'
    } else if at < 13 {
        byte == b' '
    } else if at < 17 {
        is_digit(byte)
    } else if at < 18 {
        version == b'3' && byte == b' '
    } else {
        is_digit(byte)
    }
}

/// NUL or `!`.
fn is_filling(byte: u8) -> bool
    ensures { result ≡ is_filling byte }
{
    byte == 0 || byte == b'!'
}

impl LineStart {
    /// No bytes.
    fn new() -> LineStart
        ensures { result ≡ no_bytes }
    {
        LineStart {
            version: 0,
            at: 0,
            course: Course::Header,
            is_marked: false,
        }
    }

    /// Whether it goes on as a header does, with this byte more.
    fn goes_on(self, byte: u8) -> bool
        ensures is { result ≡ (goes_on self.course && may_stand self.version self.at byte) }
        ensures room { result ≡ true → self.at < 82 }
    {
        match self.course {
            Course::Header => self.at < LONGEST && has_place(self.version, self.at, byte),
            _ => false,
        }
    }

    /// How it goes on with a byte with which no header does.
    fn broken_by(self, byte: u8) -> Course
        ensures { result ≡ broken_by self.course byte }
    {
        match self.course {
            Course::Header | Course::Torn => {
                if is_filling(byte) {
                    Course::Torn
                } else {
                    Course::Other
                }
            }
            Course::Other => Course::Other,
        }
    }

    /// The line with a byte more.
    fn with(self, byte: u8) -> LineStart
        ensures { result ≡ longer self byte }
    {
        if self.goes_on(byte) {
            LineStart {
                version: if self.at == 11 { byte } else { self.version },
                at: self.at + 1,
                course: Course::Header,
                is_marked: byte == b'!',
            }
        } else {
            LineStart {
                version: self.version,
                at: self.at,
                course: self.broken_by(byte),
                is_marked: byte == b'!',
            }
        }
    }

    /// Whether stopped appends of a header may have left it.
    fn may_be_torn(self) -> bool
        ensures { result ≡ may_be_torn self }
    {
        !matches!(self.course, Course::Other)
    }
}

impl Beginning {
    /// No bytes.
    fn new() -> Beginning
        ensures { result ≡ unread }
    {
        Beginning::Void(true, LineStart::new())
    }

    /// The file with a byte more.
    fn with_byte(self, byte: u8) -> Beginning
        ensures { result ≡ read_on self byte }
    {
        match self {
            Beginning::Void(are_torn, line) if byte != b'\n' => {
                Beginning::Void(are_torn, line.with(byte))
            }
            Beginning::Void(are_torn, line) => ended(are_torn, line),
            Beginning::Said(has_word) => Beginning::Said(has_word),
        }
    }

    /// The file with these bytes more.
    fn with(self, more: &[u8]) -> Beginning
        ensures { result ≡ fold read_on self more.now }
    {
        more.iter().fold(self, |file, byte| file.with_byte(*byte))
    }

    /// Whether its first line that isn't void is known.
    fn is_said(self) -> bool
        ensures { result ≡ is_said self }
    {
        matches!(self, Beginning::Said(_))
    }

    /// Whether it is no journal, where it ends here.
    fn is_no_journal(self) -> bool
        ensures { result ≡ is_other_at_end self }
    {
        match self {
            Beginning::Void(are_torn, line) => !(are_torn && line.may_be_torn()),
            Beginning::Said(has_word) => !has_word,
        }
    }
}

/// A file in which an LF comes behind a line.
fn ended(are_torn: bool, line: LineStart) -> Beginning
    ensures { result ≡ ended are_torn line }
{
    if line.is_marked {
        Beginning::Void(are_torn && line.may_be_torn(), LineStart::new())
    } else {
        Beginning::Said(11 <= line.at)
    }
}

/// Reads some bytes, none only at the end. A signal that comes meanwhile is no end.
fn read_some<S: Read>(source: &mut S, window: &mut [u8]) -> io::Result<usize>
    ensures within { IfOk result (λ n. n ≤ length window.old) }
    ensures taken { IfOk result (λ n. Consumes
        (S.remaining source.old) (S.remaining source.new) (take n window.new)) }
    ensures end { IfOk result (λ n. n ≡ 0 → 0 < length window.old
        → IsAtEnd (S.remaining source.new)) }
{
    for _ in 0..u64::MAX {
        match source.read(window) {
            Err(e) if e.kind() == ErrorKind::Interrupted => {}
            answer => return answer,
        }
    }
    Err(io::Error::from(ErrorKind::Interrupted))
}

/// Whether a file is no journal, of which nothing was read yet: bytes without a header, that aren't
/// what stopped appends of a header leave. It is read until that is known: of a journal one window.
pub fn is_no_journal<S: Read>(source: &mut S) -> io::Result<bool>
    ensures { IfOk result (λ answer. IfSome (S.remaining source.old)
        (λ told. answer ≡ is_no_journal told)) }
{
    let mut window = [0u8; WINDOW];
    let mut file = Beginning::new();
    for _ in 0..u64::MAX {
        let count = read_some(source, &mut window)?;
        if count == 0 {
            return Ok(file.is_no_journal());
        }
        file = file.with(&window[..count]);
        if file.is_said() {
            return Ok(file.is_no_journal());
        }
    }
    Err(io::Error::from(ErrorKind::Other))
}

/// Whether bytes begin with the word of a journal's header.
pub fn has_header_word(bytes: &[u8]) -> bool {
    bytes.starts_with(WORD)
}

/// Refuses such a file.
pub fn refuse_other<S: Read>(source: &mut S) -> Result<(), Unusable>
    ensures { OnOk result (IfSome (S.remaining source.old) (λ told. is_no_journal told ≡ false)) }
{
    match is_no_journal(source) {
        Ok(false) => Ok(()),
        Ok(true) => Err(Unusable::NoJournal),
        Err(e) => Err(Unusable::Unread(e)),
    }
}
