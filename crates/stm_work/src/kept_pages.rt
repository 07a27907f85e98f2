// What a journal says of the pages that its segments keep, as the calls of a session tell it.
ghost use Rattle.std.specs.Prelude.{◌≡◌, ◌≤◌, ◌==◌, length, position};
ghost use Rattle.stm_work.specs.PageGuard.{last_left, told_with, newest_left, told_left};

use std::alloc::Global;
use stm_words::Extent;

/// How far the journal was read.
#[derive(Clone, Copy, PartialEq, Eq)]
enum Reading {
    /// Up to this place.
    UpTo(u64),
    /// To its end.
    Whole,
    /// There was no memory for what it says.
    Lost,
}

/// How many bytes of a line are looked at: those of what a page was left with, at most
/// `left 65535 4294967295 0123ABCD!`.
const HEAD: usize = 32;

/// Which byte stands in a place of them where the line is shorter.
const NONE: u8 = 0;

/// How many pages a segment keeps, and whether page 257 is one of them: it may be at work with page
/// 1.
#[derive(Clone, Copy)]
struct KeptCount {
    pages: u32,
    has_257: bool,
    /// How many pages were left with something that is told by the segments below.
    left_below: usize,
}

/// What a page was left with: so many bytes with this CRC.
#[derive(Clone, Copy)]
pub struct Left {
    pub size: u32,
    pub sum: u32,
}

/// The same of this page, where nothing of it was changed since.
#[derive(Clone, Copy)]
pub struct LeftPage {
    pub page: u16,
    pub left: Option<Left>,
}

/// Counts the pages that the segments of a journal keep, as a session's own loading reads it from
/// its first byte on to its end. A bad journal is counted somehow: the session refuses it.
#[derive(Drop)]
pub struct KeptPages {
    reading: Reading,
    /// The first bytes of the line so far, how many of them are there, and its last one.
    head: [u8; HEAD],
    length: usize,
    last: u8,
    /// What each segment keeps, the oldest first.
    counts: Vec<KeptCount>,
    /// What their pages were left with, where that is told.
    left: Vec<LeftPage>,
    /// The product id of a header of version 3.
    id: Option<u16>,
    /// The newest segment has ended.
    is_ended: bool,
    /// The newest segment has a page at work, and that is page 1.
    has_intent: bool,
    is_page_1: bool,
}

/// A line without the places behind it.
fn line_of(head: &[u8]) -> &[u8] {
    match head.iter().position(|byte| *byte == NONE) {
        Some(end) => &head[..end],
        None => head,
    }
}

/// The number that a line ends with, behind its word.
fn number_behind(head: [u8; HEAD], word: usize) -> Option<u16> {
    number(line_of(&head).get(word..)?)
}

/// The number that digits tell; none where one of them is no digit, or it is too large.
fn large_number(digits: &[u8]) -> Option<u32> {
    let mut number = 0_u32;
    for digit in digits {
        if !digit.is_ascii_digit() {
            return None;
        }
        number = number
            .checked_mul(10)?
            .checked_add(u32::from(*digit - b'0'))?;
    }
    Some(number)
}

/// The same of a page.
pub fn number(digits: &[u8]) -> Option<u16> {
    u16::try_from(large_number(digits)?).ok()
}

/// The number of hexadecimal digits; none where one of them is none, or it is too large.
fn hex_number(digits: &[u8]) -> Option<u32> {
    let mut number = 0_u32;
    for digit in digits {
        let value = match *digit {
            b'0'..=b'9' => *digit - b'0',
            b'A'..=b'F' => *digit - b'A' + 10,
            _ => return None,
        };
        number = number.checked_mul(16)?.checked_add(u32::from(value))?;
    }
    Some(number)
}

/// The product id of a header that names its board.
fn id_in(head: [u8; HEAD]) -> Option<u16> {
    let rest = head.strip_prefix(b"stmjournal 3 ")?;
    u16::try_from(hex_number(rest.get(..4)?)?).ok()
}

/// What a line says that a page was left with.
fn left_in(head: &[u8]) -> Option<LeftPage> {
    let rest = line_of(head).strip_prefix(b"left ")?.strip_suffix(b"!")?;
    let space = rest.iter().position(|byte| *byte == b' ')?;
    let more = &rest[space + 1..];
    let second = more.iter().position(|byte| *byte == b' ')?;
    let digits = &more[second + 1..];
    if digits.len() != 8 {
        return None;
    }
    Some(LeftPage {
        page: number(&rest[..space])?,
        left: Some(Left {
            size: large_number(&more[..second])?,
            sum: hex_number(digits)?,
        }),
    })
}

/// What the last of these says of a page.
fn last_left(pages: &[LeftPage], page: u16) -> Option<Left>
    ensures { result ≡ last_left pages.now page }
{
    pages
        .iter()
        .fold(None, |told, left| told_with(told, left, page))
}

/// What is said of a page, with one more said of some page.
fn told_with(told: Option<Left>, more: &LeftPage, page: u16) -> Option<Left>
    ensures { result ≡ told_with page told more.now }
{
    if more.page == page { more.left } else { told }
}

/// Where the first LF stands.
fn first_lf(bytes: &[u8]) -> Option<usize>
    ensures { result ≡ position (λ b. b == 10) bytes.now }
{
    bytes.iter().position(|b| *b == b'\n')
}

impl KeptPages {
    pub fn new(alloc: Global) -> KeptPages {
        KeptPages {
            reading: Reading::UpTo(0),
            head: [0; HEAD],
            length: 0,
            last: 0,
            counts: Vec::new(alloc),
            left: Vec::new(alloc),
            id: None,
            is_ended: false,
            has_intent: false,
            is_page_1: false,
        }
    }

    /// These bytes were fetched from a place of the journal on; none at its end.
    pub fn fetch(&mut self, at: u64, bytes: &[u8]) {
        if self.reading != Reading::UpTo(at) {
            return;
        }
        if bytes.is_empty() {
            self.reading = Reading::Whole;
            return;
        }
        self.reading = Reading::UpTo(at.saturating_add(bytes.len() as u64));
        self.take(bytes);
    }

    /// These bytes were added behind what was fetched.
    pub fn append(&mut self, bytes: &[u8]) {
        if self.reading == Reading::Whole {
            self.take(bytes);
        }
    }

    /// Bytes more of the journal.
    fn take(&mut self, bytes: &[u8]) {
        let mut rest = bytes;
        for _ in 0..bytes.len() {
            let Some(behind) = self.fetch_line(rest) else {
                break;
            };
            rest = behind;
        }
        self.extend(rest);
    }

    /// The rest of a line was fetched, and the bytes behind it that are answered; None where no
    /// line ends.
    fn fetch_line<'b>(&mut self, bytes: &'b [u8]) -> Option<&'b [u8]> {
        let lf = first_lf(bytes)?;
        self.extend(&bytes[..lf]);
        self.end_line();
        Some(&bytes[lf + 1..])
    }

    /// Bytes more of a line.
    fn extend(&mut self, bytes: &[u8]) {
        let Some(last) = bytes.last() else {
            return;
        };
        self.last = *last;
        for byte in bytes {
            if self.length >= self.head.len() {
                return;
            }
            self.head[self.length] = *byte;
            self.length += 1;
        }
    }

    /// The line is whole. One that ends in `!` is void.
    fn end_line(&mut self) {
        let head = self.head;
        let is_void = self.last == b'!';
        self.head = [0; HEAD];
        self.length = 0;
        self.last = 0;
        if !is_void {
            self.take_line(head);
        } else if self.is_ended && head.starts_with(b"left ") {
            self.take_left(head);
        }
    }

    /// Takes up a line that begins with these bytes, or is them, with 00 behind. By the first two the
    /// lines of a journal differ.
    fn take_line(&mut self, head: [u8; HEAD]) {
        match &[head[0], head[1]] {
            b"op" => self.open(),
            b"pa" => self.keep(head.starts_with(b"page 257 ")),
            b"er" => self.intend(number_behind(head, 6)),
            b"pr" => self.intend(number_behind(head, 8)),
            b"en" => {
                self.has_intent = false;
                self.is_ended = true;
            }
            b"un" => self.undo(),
            b"st" => self.id = id_in(head),
            _ => {}
        }
    }

    /// A segment begins.
    fn open(&mut self) {
        self.has_intent = false;
        self.is_ended = false;
        let none = KeptCount {
            pages: 0,
            has_257: false,
            left_below: self.left.len(),
        };
        if self.counts.push(none).is_err() {
            self.reading = Reading::Lost;
        }
    }

    /// The newest segment keeps a page more.
    fn keep(&mut self, is_257: bool) {
        if let Some(count) = self.counts.last_mut() {
            count.pages = count.pages.saturating_add(1);
            count.has_257 = count.has_257 || is_257;
        }
    }

    /// A page of the newest segment is at work.
    fn intend(&mut self, page: Option<u16>) {
        self.has_intent = true;
        self.is_page_1 = page == Some(1);
        if let Some(page) = page {
            self.forget(page);
        }
        if self.is_page_1 {
            self.forget(257);
        }
    }

    /// The newest segment is gone; those below have ended.
    fn undo(&mut self) {
        self.has_intent = false;
        self.is_ended = true;
        if let Some(gone) = self.counts.pop() {
            self.left.truncate(gone.left_below);
        }
    }

    /// A page was left with what this line tells.
    fn take_left(&mut self, head: [u8; HEAD]) {
        if let Some(page) = left_in(&head) {
            if self.left.push(page).is_err() {
                self.reading = Reading::Lost;
            }
        }
    }

    /// Where the pages of the newest segment begin.
    fn newest_left(&self) -> usize
        ensures value { result ≡ newest_left self.now }
        ensures within { result ≤ length self.now.left.items }
    {
        match self.counts.last() {
            Some(newest) => newest.left_below.min(self.left.len()),
            None => self.left.len(),
        }
    }

    /// What a page of the newest segment was left with isn't known any more.
    fn forget(&mut self, page: u16) {
        for i in self.newest_left()..self.left.len() {
            if self.left[i].page == page {
                self.left[i].left = None;
            }
        }
    }

    /// What the newest segment left a page with, where it has ended and the journal tells that.
    pub fn left(&self, page: u16) -> Option<Left>
        ensures { result ≡ told_left self.now page }
    {
        match self.reading {
            Reading::Whole if self.is_ended => last_left(&self.left[self.newest_left()..], page),
            _ => None,
        }
    }

    /// How many segments there are.
    pub fn depth(&self) -> u32 {
        u32::try_from(self.counts.len()).unwrap_or(u32::MAX)
    }

    /// The product id of the device, where the header names its board.
    pub fn id(&self) -> Option<u16> {
        self.id
    }

    /// How many pages are at work: with page 1 page 257 too, where the newest segment keeps it.
    fn at_work(&self) -> u32 {
        let has_257 = match self.counts.last() {
            Some(newest) => newest.has_257,
            None => false,
        };
        let is_second = self.has_intent && self.is_page_1 && has_257;
        u32::from(self.has_intent).saturating_add(u32::from(is_second))
    }

    /// How many pages so many of the newest segments keep, or, at 0, all.
    fn kept_by(&self, segments: u32) -> u32 {
        let depth = self.counts.len();
        let first = match usize::try_from(segments) {
            Ok(0) | Err(_) => 0,
            Ok(taken) => depth.saturating_sub(taken),
        };
        let mut pages = 0_u32;
        for count in &self.counts[first..] {
            pages = pages.saturating_add(count.pages);
        }
        pages
    }

    /// How many pages the newest segment keeps that keeps some.
    fn newest_kept(&self) -> u32 {
        let mut newest = 0_u32;
        for count in &self.counts {
            if 0 < count.pages {
                newest = count.pages;
            }
        }
        newest
    }

    /// How many pages an undo goes through that goes back so far: those that the segments keep and,
    /// before them, the pages at work. None where the journal wasn't read to its end.
    pub fn given_back(&self, extent: Extent) -> Option<u32> {
        if self.reading != Reading::Whole {
            return None;
        }
        let kept = match extent {
            Extent::Newest(segments) => self.kept_by(segments),
            Extent::ToChange => self.newest_kept(),
        };
        Some(self.at_work().saturating_add(kept))
    }
}
