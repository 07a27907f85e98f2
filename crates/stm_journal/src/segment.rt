// One command in the journal, with the pages kept for it.
ghost use Rattle.std.specs.Prelude.{◌≡◌, ◌==◌, ◌++◌, ◌∷◌, [], length, OnOk, OnErr, IfOk};
ghost use Rattle.std.specs.Prelude.{option_map, option_and_then, slice_get};
ghost use Rattle.std.specs.List.{find};
ghost use Rattle.stm_journal.specs.KeptPlaces.{place_of};
ghost use Rattle.stm_journal.specs.Marks.{AreMarked};

use crate::{Intent, Kept, PagePlace, Stage};
use std::alloc::{AllocError, Global};
use std::marker::Model;

/// One command in the journal, with the pages kept for it in the order of their lines.
#[derive(Drop)]
pub(crate) struct Segment {
    pages: Vec<Kept>,
    stage: Stage,
    // For each page whether it is kept; none where there are few.
    marks: Vec<bool>,
}

/// From so many pages on they are marked.
const MANY: usize = 64;

impl Model for Segment {
    ghost use Rattle.stm_journal.specs.States.{SegmentData};
    ghost use Rattle.stm_journal.specs.Marks.{AreMarked};

    ghost Value = { SegmentData };

    ghost view = { λ s. record { pages = s.pages.items; stage = s.stage } };

    ghost invariant = { λ s. AreMarked s.marks.items s.pages.items };
}

/// So many marks of pages that are not kept.
fn unmarked(alloc: Global, count: usize) -> Result<Vec<bool>, AllocError>
    ensures { IfOk result (λ marks. AreMarked marks.items []) }
{
    vec![in alloc; false; count]
}

/// For each page number whether one of these has it.
fn marks_of(alloc: Global, pages: &[Kept]) -> Result<Vec<bool>, AllocError>
    ensures { IfOk result (λ marks. AreMarked marks.items pages.now) }
{
    let mut marks = unmarked(alloc, usize::from(u16::MAX) + 1)?;
    for kept in pages {
        let n = usize::from(kept.page);
        if n < marks.len() {
            marks[n] = true;
        }
    }
    Ok(marks)
}

impl Segment {
    ghost use Rattle.stm_journal.specs.States.{keeps, fresh_segment, stage_with, intending, ended_segment};

    /// A segment that has just begun.
    pub(crate) fn new(alloc: Global) -> Self
        ensures { result ≡ fresh_segment }
    {
        Segment {
            pages: Vec::new(alloc),
            stage: Stage::Open(None),
            marks: Vec::new(alloc),
        }
    }

    pub(crate) fn stage(&self) -> Stage
        ensures { result ≡ self.now.stage }
    {
        self.stage
    }

    pub(crate) fn keeps(&self, n: u16) -> bool
        ensures { result ≡ keeps self.now n }
    {
        match self.marks.get(usize::from(n)) {
            Some(is_kept) => *is_kept,
            None => self.pages.iter().any(|kept| kept.page == n),
        }
    }

    /// Marks the pages where they are many, so that `keeps` doesn't look through
    /// them. Without memory it does.
    pub(crate) fn mark(&mut self, alloc: Global)
        ensures { self.new ≡ self.old }
    {
        if MANY <= self.pages.len() && self.marks.is_empty() {
            if let Ok(marks) = marks_of(alloc, &self.pages) {
                self.marks = marks;
            }
        }
    }

    /// Forgets the marks.
    pub(crate) fn unmark(&mut self, alloc: Global)
        ensures { self.new ≡ self.old }
    {
        self.marks = Vec::new(alloc);
    }

    pub(crate) fn keep(&mut self, kept: Kept) -> Result<(), AllocError>
        ensures ok { OnOk result (self.new
            ≡ record self.old { pages = self.old.pages ++ kept ∷ [] }) }
        ensures err { OnErr result (self.new ≡ self.old) }
    {
        let count = self.pages.len();
        if count == self.pages.capacity() {
            self.pages.reserve_exact(count / 2 + 1)?;
        }
        let n = usize::from(kept.page);
        self.pages.push(kept)?;
        if n < self.marks.len() {
            self.marks[n] = true;
        }
        Ok(())
    }

    pub(crate) fn intend(&mut self, intent: Intent)
        ensures { self.new ≡ intending intent self.old }
    {
        self.stage = match self.stage {
            Stage::Open(_) => Stage::Open(Some(intent)),
            Stage::Ended => Stage::Returning(intent),
            Stage::Returning(_) => Stage::Returning(intent),
        };
    }

    pub(crate) fn end(&mut self)
        ensures { self.new ≡ ended_segment self.old }
    {
        self.stage = Stage::Ended;
    }

    /// Where page `n` stands, if it keeps that.
    pub(crate) fn page(&self, n: u16) -> Option<PagePlace>
        ensures { result ≡ option_map place_of (find (λ k. k.page == n) self.now.pages) }
    {
        for kept in &self.pages {
            if kept.page == n {
                return Some(kept.place());
            }
        }
        None
    }

    /// How many pages it keeps.
    pub(crate) fn count(&self) -> usize
        ensures { result ≡ length self.now.pages }
    {
        self.pages.len()
    }

    /// The page and the line number of its i-th page line, from 0.
    pub(crate) fn kept(&self, i: usize) -> Option<(u16, u64)>
        ensures { result ≡ option_map (λ k. (k.page, k.line)) (slice_get self.now.pages i) }
    {
        match self.pages.get(i) {
            Some(kept) => Some((kept.page, kept.line)),
            None => None,
        }
    }

    /// Where the page of its i-th page line stands.
    pub(crate) fn kept_place(&self, i: usize) -> Option<PagePlace>
        ensures { result ≡ option_map place_of (slice_get self.now.pages i) }
    {
        match self.pages.get(i) {
            Some(kept) => Some(kept.place()),
            None => None,
        }
    }
}
