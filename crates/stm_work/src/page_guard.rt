// The lines behind a segment that say what its pages were left with, and an undo that keeps its hands off
// a page which holds something else.
ghost use Rattle.std.specs.Prelude.{◌≡◌, ◌==◌, ◌+◌, ◌<◌, if◌then◌else◌, IfOk, length, replicate, true, false};
ghost use Rattle.std.specs.List.{list_any};
ghost use Rattle.stm_image.specs.Lay.{lay};
ghost use Rattle.stm_wire.specs.Chip.{erased_byte, page_count, page_offset};
ghost use Rattle.stm_work.specs.PageGuard.{IsAsLeft, left_with};
ghost use Rattle.stm_work.specs.declared.page_guard.Doings.TheVariants.{Undoes};

use crate::action::Action;
use crate::content::Content;
use crate::kept_pages::{KeptPages, number};
use crate::page_reads::PageReads;
use crate::progress_watch::{Doing, Seen, page_named};
use crate::work::Work;
use std::alloc::{AllocError, Global};
use std::mem;
use stm_chip::Table;
use stm_files::{begun_lines, left_line};
use stm_image::{Image, read_raw};
use stm_wire::Chip;

/// What a session does with pages.
#[derive(Drop)]
pub enum Doings {
    /// Nothing that is told.
    Nothing,
    /// It erases these; it may keep others.
    Erases(Vec<u16>),
    ErasesAll,
    Writes(Content),
    Undoes,
}

/// Knows what each page of a segment was left with, by its lines in the journal.
#[derive(Drop)]
pub struct PageGuard<'a> {
    alloc: Global,
    chips: &'a Table,
    does: Doings,
    kept: KeptPages,
    reads: PageReads,
    /// The lines of the pages that the segment keeps so far, and whether it has ended.
    lines: Vec<u8>,
    has_ended: bool,
    /// The page that an undo found with something else, and its segment.
    changed: Option<(u16, u32)>,
}

/// What a work does with pages. An undo by a journal that is trusted asks nothing.
fn doings_of(alloc: Global, work: &Work, trusts_others: bool) -> Doings {
    match work {
        Work::Undo { .. } | Work::Act(Action::Undo(_)) | Work::Act(Action::UndoVerified(_)) => {
            if trusts_others {
                Doings::Nothing
            } else {
                Doings::Undoes
            }
        }
        Work::Act(Action::Erase(pages)) => match Vec::from_slice(alloc, pages.as_slice()) {
            Ok(pages) => Doings::Erases(pages),
            Err(_) => Doings::Nothing,
        },
        Work::Act(Action::EraseAll) => Doings::ErasesAll,
        Work::Act(Action::Write(content)) | Work::Act(Action::WriteAndVerify(content)) => {
            match content.copy(alloc) {
                Ok(content) => Doings::Writes(content),
                Err(_) => Doings::Nothing,
            }
        }
        _ => Doings::Nothing,
    }
}

/// The page that an append keeps, and its digits.
fn page_kept(added: &[u8]) -> Option<(u16, &[u8])> {
    let line = added.strip_prefix(b"!\n").unwrap_or(added);
    let rest = line.strip_prefix(b"page ")?.strip_suffix(b"\n")?;
    let space = rest.iter().position(|byte| *byte == b' ')?;
    Some((number(&rest[..space])?, &rest[space + 1..]))
}

/// Whether a page is one of these.
fn has_page(pages: &[u16], page: u16) -> bool
    ensures { result ≡ list_any (λ p. p == page) pages.now }
{
    pages.iter().any(|p| *p == page)
}

/// Erased bytes where that is so, as many as these.
fn erased_if(alloc: Global, is_so: bool, erased: u8, held: Vec<u8>) -> Result<Vec<u8>, AllocError>
    ensures { IfOk result (λ left. left.items
        ≡ (if is_so then replicate (length held.items) erased else held.items)) }
{
    if is_so {
        Vec::from_elem(alloc, erased, held.len())
    } else {
        Ok(held)
    }
}

/// Bytes that stand from an address on, with an image laid over.
fn laid(image: &Image, start: u32, held: Vec<u8>) -> Result<Vec<u8>, AllocError>
    ensures { IfOk result (λ left. left.items ≡ lay image.now start held.items) }
{
    if u64::from(start) + held.len() as u64 > 1 << 32 {
        return Err(AllocError);
    }
    let mut left = held;
    image.lay(start, &mut left);
    Ok(left)
}

impl<'a> PageGuard<'a> {
    /// One of a session that does this, on a chip of the table.
    pub fn of(alloc: Global, chips: &'a Table, work: &Work, trusts_others: bool) -> PageGuard<'a> {
        PageGuard {
            alloc,
            chips,
            does: doings_of(alloc, work, trusts_others),
            kept: KeptPages::new(alloc),
            reads: PageReads::new(alloc),
            lines: Vec::new(alloc),
            has_ended: false,
            changed: None,
        }
    }

    /// The page that an undo didn't touch, as it holds something else than this segment left.
    pub fn changed(&self) -> Option<(u16, u32)> {
        self.changed
    }

    /// The pages that the journal keeps.
    pub fn kept(&self) -> &KeptPages {
        &self.kept
    }

    fn is_undo(&self) -> bool
        ensures { result ≡ false → self.now.does ≡ Undoes → ⊥ }
    {
        matches!(self.does, Doings::Undoes)
    }

    /// A byte is put.
    #[inline(always)]
    pub fn put(&mut self, byte: u8) {
        if self.is_undo() {
            self.reads.put(byte);
        }
    }

    /// A get answered.
    #[inline(always)]
    pub fn get(&mut self, answer: Option<u8>) {
        if self.is_undo() {
            self.reads.get(answer);
        }
    }

    /// These bytes were fetched from a place of the journal on.
    pub fn fetch(&mut self, at: u64, bytes: &[u8]) {
        self.kept.fetch(at, bytes);
    }

    /// The chip that the journal names.
    fn chip(&self) -> Option<&'a Chip> {
        self.chips.find(self.kept.id()?)
    }

    /// Whether these bytes may be added to the journal: an undo erases no page that it just read and that
    /// holds something else than its segment left there.
    pub fn may_add(&mut self, bytes: &[u8]) -> bool {
        if !self.is_undo() {
            return true;
        }
        if let Some(Seen::Page(Doing::Erasing, page)) = page_named(bytes) {
            if !self.may_erase(page) {
                self.changed = Some((page, self.kept.depth()));
                return false;
            }
        }
        self.reads.clear();
        true
    }

    /// Whether a page may be erased now, which was read last.
    pub fn may_erase(&self, page: u16) -> bool
        ensures { result ≡ true → IsAsLeft self.now page }
    {
        if !self.is_undo() {
            return true;
        }
        match self.kept.left(page) {
            Some(left) => self.reads.reads_as(left),
            None => true,
        }
    }

    /// These bytes were added to the journal. Whether they began a segment.
    pub fn added(&mut self, bytes: &[u8]) -> bool {
        let before = self.kept.depth();
        self.kept.append(bytes);
        if self.add_left(bytes).is_err() {
            // a page without its line is as one of an older journal
            self.does = Doings::Nothing;
        }
        if bytes.starts_with(b"end ") {
            self.has_ended = true;
        }
        before < self.kept.depth()
    }

    /// The lines behind the beginning of a segment: when that was, and which images it writes.
    pub fn begun(&self, now: Option<u64>) -> Vec<u8> {
        let names = match &self.does {
            Doings::Writes(content) => content.names(),
            _ => &[],
        };
        match begun_lines(self.alloc, now, names) {
            Ok(lines) => lines,
            Err(_) => Vec::new(self.alloc),
        }
    }

    /// The lines of the pages of a segment that has ended, where all was done; none else.
    pub fn take_lines(&mut self, is_done: bool) -> Vec<u8> {
        let mut lines = Vec::new(self.alloc);
        if is_done && self.has_ended {
            mem::swap(&mut lines, &mut self.lines);
        }
        lines
    }

    /// Adds the line of what a page is left with that these bytes keep.
    fn add_left(&mut self, bytes: &[u8]) -> Result<(), AllocError> {
        if matches!(self.does, Doings::Nothing | Doings::Undoes) {
            return Ok(());
        }
        let (Some((page, digits)), Some(chip)) = (page_kept(bytes), self.chip()) else {
            return Ok(());
        };
        let Ok(held) = hex::decode(self.alloc, digits) else {
            return Err(AllocError);
        };
        self.place(chip)?;
        if page < chip.pages() {
            let left = self.left_bytes(chip, page, held)?;
            let line = left_line(self.alloc, page, &left)?;
            self.lines.extend_from_slice(&line)?;
        }
        Ok(())
    }

    /// Has raw bytes lie from the flash's first byte on.
    fn place(&mut self, chip: &Chip) -> Result<(), AllocError> {
        if let Doings::Writes(Content::AtBase(raw, _)) = &self.does {
            match read_raw(self.alloc, raw.as_slice(), chip.base()) {
                Ok(image) => {
                    self.does = Doings::Writes(Content::Placed(image, Vec::new(self.alloc)))
                }
                Err(_) => return Err(AllocError),
            }
        }
        Ok(())
    }

    /// What the session leaves in a page that held these bytes.
    fn left_bytes(&self, chip: &Chip, page: u16, held: Vec<u8>) -> Result<Vec<u8>, AllocError>
        requires { page < page_count chip.now }
        ensures { IfOk result (λ left. left.items ≡ left_with self.now.does page
            (erased_byte chip.now) (chip.now.base + page_offset chip.now page) held.items) }
    {
        let start = chip.page_start(page);
        match &self.does {
            Doings::Erases(pages) => {
                let is_erased = has_page(pages.as_slice(), page);
                erased_if(self.alloc, is_erased, chip.erased(), held)
            }
            Doings::ErasesAll => erased_if(self.alloc, true, chip.erased(), held),
            Doings::Writes(Content::Placed(image, _)) => laid(image, start, held),
            _ => Ok(held),
        }
    }
}
