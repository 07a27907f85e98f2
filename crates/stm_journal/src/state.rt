// The segments of a journal, and what entries make of them.
ghost use Rattle.std.specs.Prelude.{◌≡◌, ◌+◌, ◌<◌, ◌∷◌, [], length, not, OnOk, OnErr, IsTrue};
ghost use Rattle.std.specs.Prelude.{IsSome, is_some, is_none, sum_by, drop, Some, Option};
ghost use Rattle.std.specs.Prelude.{option_map, List, ℕ, true, false};
ghost use Rattle.stm_journal.specs.States.{stack_of, empty_state, is_unfinished, intent_of, allows};
ghost use Rattle.stm_journal.specs.States.{newest_has, newest_intent, may_keep, keeps};
ghost use Rattle.stm_journal.specs.States.{is_open_stage, is_ended_stage, on_newest, keeping};
ghost use Rattle.stm_journal.specs.States.{intending, ended_segment, fresh_segment, after_entry, kept_at};
ghost use Rattle.stm_journal.specs.States.{segment_of, intent_page, IsSound};
ghost use Rattle.stm_journal.specs.KeptPlaces.{page_place, kept_place, kept_count, entries_of};
ghost use Rattle.stm_journal.specs.Journals.{capped};

use crate::segment::Segment;
use crate::{Entry, Intent, JournalHeader, Kept, PagePlace, Stage};
use std::alloc::{AllocError, Global};
use std::marker::Model;

/// The header and the segments that are not undone.
#[derive(Drop)]
pub(crate) struct State {
    header: Option<JournalHeader>,
    newest: Option<Segment>,
    // The oldest is the first.
    below: Vec<Segment>,
}

impl Model for State {
    ghost use Rattle.stm_journal.specs.States.{StateData, stack_of, IsStacked, IsSound};

    ghost Value = { StateData };

    ghost view = { λ s. record { header = s.header; stack = stack_of s.newest s.below.items } };

    ghost invariant = { λ s. IsStacked s.newest s.below.items
        × IsSound (record { header = s.header; stack = stack_of s.newest s.below.items }) };
}

/// How many pages these segments keep, and so many more.
fn counted(segments: &[Segment], more: usize) -> usize
    ensures { result ≡ capped (more + sum_by (λ segment. length segment.pages) segments.now) }
{
    let mut count = more;
    for segment in segments {
        count = count.saturating_add(segment.count());
    }
    count
}

impl State {
    pub(crate) fn new(alloc: Global) -> Self
        ensures { result ≡ empty_state }
    {
        State {
            header: None,
            newest: None,
            below: Vec::new(alloc),
        }
    }

    pub(crate) fn header(&self) -> Option<JournalHeader>
        ensures { result ≡ self.now.header }
    {
        self.header
    }

    pub(crate) fn depth(&self) -> u32
        ensures value { result ≡ length self.now.stack }
        ensures sound { IsSound self.now }
    {
        match &self.newest {
            Some(_) => (self.below.len() + 1) as u32,
            None => 0,
        }
    }

    /// The newest segment is open or is being undone.
    pub(crate) fn is_unfinished(&self) -> bool
        ensures { result ≡ is_unfinished self.now }
    {
        match &self.newest {
            Some(newest) => match newest.stage() {
                Stage::Open(_) => true,
                Stage::Ended => false,
                Stage::Returning(_) => true,
            },
            None => false,
        }
    }

    pub(crate) fn intent(&self) -> Option<Intent>
        ensures { result ≡ intent_of self.now }
    {
        match &self.newest {
            Some(newest) => match newest.stage() {
                Stage::Open(intent) => intent,
                Stage::Ended => None,
                Stage::Returning(intent) => Some(intent),
            },
            None => None,
        }
    }

    /// The newest segment is open.
    fn is_newest_open(&self) -> bool
        ensures { result ≡ newest_has (λ segment. is_open_stage segment.stage) self.now.stack }
    {
        match &self.newest {
            Some(newest) => matches!(newest.stage(), Stage::Open(_)),
            None => false,
        }
    }

    /// The newest segment keeps page `n`.
    fn keeps(&self, n: u16) -> bool
        ensures { result ≡ newest_has (λ segment. keeps segment n) self.now.stack }
    {
        match &self.newest {
            Some(newest) => newest.keeps(n),
            None => false,
        }
    }

    /// The newest segment is open and lacks page `n`.
    fn may_keep(&self, n: u16) -> bool
        ensures { result ≡ newest_has (may_keep n) self.now.stack }
    {
        match &self.newest {
            Some(newest) => matches!(newest.stage(), Stage::Open(_)) && !newest.keeps(n),
            None => false,
        }
    }

    /// The line rules: whether the entry may stand here.
    pub(crate) fn allows(&self, entry: &Entry) -> bool
        ensures { result ≡ allows self.now entry.now }
    {
        match entry {
            Entry::Names(_, _, _) => self.header().is_none(),
            Entry::Opens(k) => self.header().is_some()
                && !self.is_unfinished()
                && u32::from(*k) == self.depth() + 1,
            Entry::Keeps(n, _) => self.header().is_some() && self.may_keep(*n),
            Entry::Erases(n) => self.header().is_some() && self.keeps(*n),
            Entry::Programs(n) => self.header().is_some() && self.keeps(*n),
            Entry::Ends(k) => self.header().is_some()
                && self.is_newest_open()
                && u32::from(*k) == self.depth(),
            Entry::Undoes(k) => self.header().is_some()
                && 0 < self.depth()
                && u32::from(*k) == self.depth(),
        }
    }

    fn name(&mut self, header: JournalHeader)
        ensures { self.new ≡ record self.old { header = Some header } }
    {
        self.header = Some(header);
    }

    /// Begins a segment. The header is kept or, where there is none, set.
    pub(crate) fn open(
        &mut self,
        alloc: Global,
        header: Option<JournalHeader>,
    ) -> Result<(), AllocError>
        requires finished { is_unfinished self.old ≡ false }
        requires room { length self.old.stack < 65535 }
        requires named { IsSome header }
        ensures ok { OnOk result (self.new
            ≡ record { header = header; stack = fresh_segment ∷ self.old.stack }) }
        ensures err { OnErr result (self.new ≡ self.old) }
    {
        if let Some(mut newest) = self.newest.take() {
            newest.unmark(alloc);
            if let Err(failed) = self.below.push(newest) {
                self.newest = Some(failed.value);
                return Err(AllocError);
            }
        }
        self.newest = Some(Segment::new(alloc));
        self.header = header;
        Ok(())
    }

    fn keep(&mut self, kept: Kept) -> Result<(), AllocError>
        requires { IsTrue (newest_has (may_keep kept.page) self.old.stack) }
        ensures ok { OnOk result (self.new
            ≡ record self.old { stack = on_newest (keeping kept) self.old.stack }) }
        ensures err { OnErr result (self.new ≡ self.old) }
    {
        match &mut self.newest {
            Some(newest) => newest.keep(kept),
            None => Ok(()),
        }
    }

    fn intend(&mut self, intent: Intent)
        requires { IsTrue (newest_has
            (λ segment. keeps segment (intent_page intent)) self.old.stack) }
        ensures { self.new
            ≡ record self.old { stack = on_newest (intending intent) self.old.stack } }
    {
        if let Some(newest) = &mut self.newest {
            newest.intend(intent);
        }
    }

    fn end(&mut self)
        ensures { self.new ≡ record self.old { stack = on_newest ended_segment self.old.stack } }
    {
        if let Some(newest) = &mut self.newest {
            newest.end();
        }
    }

    fn take_off(&mut self)
        ensures { self.new ≡ record self.old { stack = drop 1 self.old.stack } }
    {
        self.newest = self.below.pop();
    }

    /// What the entry makes of it, in the line with this number, whose LF is at this place. It is
    /// as it was where there is no memory.
    pub(crate) fn apply(
        &mut self,
        alloc: Global,
        line: u64,
        ends: u64,
        entry: Entry,
    ) -> Result<(), AllocError>
        requires { IsTrue (allows self.old entry) }
        ensures ok { OnOk result (self.new ≡ after_entry line ends self.old entry) }
        ensures err { OnErr result (self.new ≡ self.old) }
    {
        match entry {
            Entry::Names(version, id, unique) => {
                self.name(JournalHeader {
                    version,
                    id,
                    unique,
                    line,
                });
                Ok(())
            }
            Entry::Opens(_) => {
                let header = self.header();
                self.open(alloc, header)
            }
            Entry::Keeps(page, bytes) => {
                let size = bytes.length();
                let at = ends.saturating_sub(size).saturating_sub(size);
                self.keep(Kept {
                    page,
                    bytes,
                    line,
                    at,
                })
            }
            Entry::Erases(n) => {
                self.intend(Intent::Erase(n));
                Ok(())
            }
            Entry::Programs(n) => {
                self.intend(Intent::Program(n));
                Ok(())
            }
            Entry::Ends(_) => {
                self.end();
                Ok(())
            }
            Entry::Undoes(_) => {
                self.take_off();
                Ok(())
            }
        }
    }

    /// Segment k, counted from the oldest, which is 1.
    fn segment(&self, k: u32) -> Option<&Segment>
        ensures { option_map (λ s. s.now) result ≡ segment_of self.now k }
    {
        let depth = self.depth();
        if k == 0 || depth < k {
            None
        } else if k == depth {
            self.newest.as_ref()
        } else {
            self.below.get((k - 1) as usize)
        }
    }

    /// Where page `n` stands, if segment k keeps that.
    pub(crate) fn page(&self, k: u32, n: u16) -> Option<PagePlace>
        ensures { result ≡ page_place self.now k n }
    {
        match self.segment(k) {
            Some(segment) => segment.page(n),
            None => None,
        }
    }

    /// Where segment k stands.
    pub(crate) fn stage(&self, k: u32) -> Option<Stage>
        ensures { result ≡ option_map (λ segment. segment.stage) (segment_of self.now k) }
    {
        match self.segment(k) {
            Some(segment) => Some(segment.stage()),
            None => None,
        }
    }

    /// How many pages segment k keeps.
    pub(crate) fn kept_count(&self, k: u32) -> usize
        ensures { result ≡ kept_count self.now k }
    {
        match self.segment(k) {
            Some(segment) => segment.count(),
            None => 0,
        }
    }

    /// How many pages the segments keep.
    pub(crate) fn entries(&self) -> usize
        ensures { result ≡ capped (entries_of self.now) }
    {
        match &self.newest {
            Some(newest) => counted(&self.below, newest.count()),
            None => 0,
        }
    }

    /// Marks the newest segment's pages where the entry asks for one of them and they are many.
    pub(crate) fn mark(&mut self, alloc: Global, entry: &Entry)
        ensures { self.new ≡ self.old }
    {
        if let Some(newest) = &mut self.newest {
            match entry {
                Entry::Keeps(_, _) => newest.mark(alloc),
                Entry::Erases(_) => newest.mark(alloc),
                Entry::Programs(_) => newest.mark(alloc),
                _ => (),
            }
        }
    }

    /// The page and the line number of the i-th page line of segment k, from 0.
    pub(crate) fn kept(&self, k: u32, i: usize) -> Option<(u16, u64)>
        ensures { result ≡ kept_at self.now k i }
    {
        match self.segment(k) {
            Some(segment) => segment.kept(i),
            None => None,
        }
    }

    /// Where the page of the i-th page line of segment k stands.
    pub(crate) fn kept_place(&self, k: u32, i: usize) -> Option<PagePlace>
        ensures { result ≡ kept_place self.now k i }
    {
        match self.segment(k) {
            Some(segment) => segment.kept_place(i),
            None => None,
        }
    }
}
