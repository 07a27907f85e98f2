// What a journal answers of its segments and its header.
ghost use Rattle.std.specs.Prelude.{◌≡◌, nat_lt, length, option_map, IfSome};
ghost use Rattle.stm_journal.specs.States.{is_unfinished, intent_of, kept_at, segment_of, IsSound};
ghost use Rattle.stm_journal.specs.States.{board_of, header_board};
ghost use Rattle.stm_journal.specs.KeptPlaces.{page_place, kept_place, kept_count, entries_of};
ghost use Rattle.stm_journal.specs.KeptPlaces.{IsPlaceIn};
ghost use Rattle.stm_journal.specs.Journals.{capped};

use crate::{Intent, Journal, JournalHeader, PagePlace, Stage};
use stm_wire::UniqueId;

/// The unique id that a header of version 3 has.
fn board_of_header(header: &JournalHeader) -> Option<UniqueId>
    ensures { result ≡ header_board header.now }
{
    if header.version == 3 {
        Some(header.unique)
    } else {
        None
    }
}

impl Journal {
    /// Where page `n` stands in the journal, if segment `k`, counted from the oldest,
    /// which is 1, keeps that page.
    pub fn page(&self, k: u32, n: u16) -> Option<PagePlace>
        ensures place { result ≡ page_place self.now.state k n }
        ensures kept { IfSome result (IsPlaceIn self.now.state) }
    {
        self.state.page(k, n)
    }

    /// Where the page of the i-th page line of segment `k` stands, from 0.
    /// Nothing is searched for it.
    pub fn kept_place(&self, k: u32, i: usize) -> Option<PagePlace>
        ensures place { result ≡ kept_place self.now.state k i }
        ensures kept { IfSome result (IsPlaceIn self.now.state) }
    {
        self.state.kept_place(k, i)
    }

    /// How many pages segment `k` keeps.
    pub fn kept_count(&self, k: u32) -> usize
        ensures { result ≡ kept_count self.now.state k }
    {
        self.state.kept_count(k)
    }

    /// Where segment `k` stands, counted from the oldest, which is 1.
    pub fn stage(&self, k: u32) -> Option<Stage>
        ensures { result ≡ option_map (λ segment. segment.stage) (segment_of self.now.state k) }
    {
        self.state.stage(k)
    }

    /// How many pages the segments keep.
    pub fn entries(&self) -> usize
        ensures { result ≡ capped (entries_of self.now.state) }
    {
        self.state.entries()
    }

    /// The page and the line number of the i-th page line of segment `k`, from 0.
    pub fn kept(&self, k: u32, i: usize) -> Option<(u16, u64)>
        ensures { result ≡ kept_at self.now.state k i }
    {
        self.state.kept(k, i)
    }

    /// The newest intent of an unfinished newest segment.
    pub fn last_intent(&self) -> Option<Intent>
        ensures { result ≡ intent_of self.now.state }
    {
        self.state.intent()
    }

    /// There is a segment.
    pub fn is_open(&self) -> bool
        ensures { result ≡ nat_lt 0 (length self.now.state.stack) }
    {
        0 < self.state.depth()
    }

    /// The newest segment is open or is being undone.
    pub fn is_unfinished(&self) -> bool
        ensures { result ≡ is_unfinished self.now.state }
    {
        self.state.is_unfinished()
    }

    /// How many segments there are.
    pub fn depth(&self) -> u32
        ensures value { result ≡ length self.now.state.stack }
        ensures sound { IsSound self.now.state }
    {
        self.state.depth()
    }

    /// The version of the header and the number of its line, where there is one.
    pub fn header(&self) -> Option<(u8, u64)>
        ensures { result ≡ option_map
            (λ header. (header.version, header.line)) self.now.state.header }
    {
        match self.state.header() {
            Some(header) => Some((header.version, header.line)),
            None => None,
        }
    }

    /// The product id of the device.
    pub fn id(&self) -> Option<u16>
        ensures { result ≡ option_map (λ header. header.id) self.now.state.header }
    {
        match self.state.header() {
            Some(header) => Some(header.id),
            None => None,
        }
    }

    /// The unique id of the device, where the header names it: in version 3.
    pub fn unique(&self) -> Option<UniqueId>
        ensures { result ≡ board_of self.now.state }
    {
        match self.state.header() {
            Some(header) => board_of_header(&header),
            None => None,
        }
    }
}
