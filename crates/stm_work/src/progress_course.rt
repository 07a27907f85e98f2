// How far a session has come, as its calls tell.

use crate::action::Action;
use crate::content::Content;
use crate::kept_pages::KeptPages;
use crate::progress_watch::{Doing, Seen};
use stm_chip::Table;
use stm_image::Image;
use stm_wire::Chip;
use stm_words::{Extent, Range};

/// Which pages a session goes through.
#[derive(Clone, Copy)]
pub enum Goal {
    /// It isn't known beforehand.
    Unknown,
    /// So many.
    Count(u32),
    /// Every one.
    All,
    /// Those from one address to another, that one included.
    Span(u32, u32),
    /// Those from an address on.
    From(u32),
    /// Those of the flash's first bytes, so many.
    First(u32),
    /// Those that the newest segments keep, as far back as this. The journal says which.
    Back(Extent),
    /// The same, each of them twice: it is read again.
    BackTwice(Extent),
}

impl Goal {
    /// Which pages an action goes through.
    pub fn of(action: &Action) -> Goal {
        match action {
            Action::EraseAll => Goal::All,
            Action::Read(range) => Goal::of_range(*range),
            Action::Write(content) | Action::WriteAndVerify(content) | Action::Verify(content) => {
                Goal::of_content(content)
            }
            Action::Erase(pages) => match u32::try_from(pages.len()) {
                Ok(count) => Goal::Count(count),
                Err(_) => Goal::Unknown,
            },
            Action::Undo(count) => Goal::Back(Extent::Newest(*count)),
            _ => Goal::Unknown,
        }
    }

    /// Which pages a part of the flash lies in.
    pub fn of_range(range: Option<Range>) -> Goal {
        match range {
            None => Goal::All,
            Some(
                Range {
                    start,
                    length: Some(length),
                },
            ) => Goal::Span(start, start.saturating_add(length.saturating_sub(1))),
            Some(Range { start, .. }) => Goal::From(start),
        }
    }

    fn of_content(content: &Content) -> Goal {
        match content {
            Content::Placed(image, _) => match image.next_from(0) {
                Some((first, _)) => Goal::Span(first, last_of(image)),
                None => Goal::Count(0),
            },
            Content::AtBase(bytes, _) => match u32::try_from(bytes.len()) {
                Ok(size) => Goal::First(size),
                Err(_) => Goal::Unknown,
            },
        }
    }
}

/// The last address that has a byte, bit by bit.
fn last_of(image: &Image) -> u32 {
    let mut last = 0_u32;
    for bit in 0..32_u32 {
        let further = last | (0x8000_0000_u32 >> bit);
        if image.next_from(further).is_some() {
            last = further;
        }
    }
    last
}

/// How far a session has come: what is done with which page, the how manieth of how many that is.
#[derive(Clone, Copy)]
pub struct Place {
    pub doing: Doing,
    pub page: u16,
    pub turn: u32,
    pub count: Option<u32>,
}

/// Follows a session from page to page, by what its calls tell.
#[derive(Drop)]
pub struct Course<'a> {
    table: &'a Table,
    goal: Goal,
    chip: Option<&'a Chip>,
    /// How many KiB the flash has, where the device told it.
    told: Option<u16>,
    /// The first page that is gone through, where they follow one another.
    first: Option<u16>,
    count: Option<u32>,
    place: Option<Place>,
}

/// The page at an address, and whether it begins there.
fn page_at(chip: &Chip, address: u32) -> Option<(u16, bool)> {
    let address = u64::from(address);
    let mut start = u64::from(chip.base());
    for number in 0..chip.pages() {
        let end = start.saturating_add(u64::from(chip.page_size(number)));
        if start <= address && address < end {
            return Some((number, address == start));
        }
        start = end;
    }
    None
}

/// From one page to another, that one included.
fn pages_between(first: u16, last: u16) -> u32 {
    u32::from(last.saturating_sub(first)).saturating_add(1)
}

impl<'a> Course<'a> {
    pub fn new(table: &'a Table, goal: Goal) -> Course<'a> {
        Course {
            table,
            goal,
            chip: None,
            told: None,
            first: None,
            count: None,
            place: None,
        }
    }

    /// Where it is; none before the first page.
    pub fn place(&self) -> Option<Place> {
        self.place
    }

    /// The flash has so many KiB, where the device told it.
    pub fn hear_size(&mut self, kib: Option<u16>) {
        self.told = kib;
    }

    /// The address behind the flash's last byte.
    fn end_of(&self, chip: &Chip) -> u64 {
        let end = chip.end();
        match self.told {
            Some(kib) => end.min(u64::from(chip.base()).saturating_add(u64::from(kib) * 1024)),
            None => end,
        }
    }

    /// Takes up what a call told, beside the pages that the journal keeps, and answers whether another page
    /// is begun, or something else is done with this one.
    pub fn see(&mut self, seen: Seen, kept: &KeptPages) -> bool {
        match seen {
            Seen::Id(id) => {
                self.chip = self.table.find(id);
                self.resolve(kept);
                false
            }
            Seen::Block(doing, address) => match self.page_of(address) {
                Some((page, is_start)) => {
                    let is_next = is_start && doing == Doing::Reading && self.is_back();
                    self.turn_to(doing, page, is_next)
                }
                None => false,
            },
            Seen::Page(doing, page) => self.turn_to(doing, page, false),
            Seen::Finished => false,
        }
    }

    /// Whether pages are given back. Each is read from its first byte on then, also where it is the
    /// one before: the newest segment may keep it, and the one below.
    fn is_back(&self) -> bool {
        matches!(self.goal, Goal::Back(_) | Goal::BackTwice(_))
    }

    fn page_of(&self, address: u32) -> Option<(u16, bool)> {
        page_at(self.chip?, address)
    }

    /// Which pages the goal has on this chip.
    fn resolve(&mut self, kept: &KeptPages) {
        let Some(chip) = self.chip else {
            return;
        };
        let ends = match self.goal {
            Goal::Unknown => None,
            Goal::Count(count) => {
                self.count = Some(count);
                None
            }
            Goal::Back(extent) => {
                self.count = kept.given_back(extent);
                None
            }
            Goal::BackTwice(extent) => {
                self.count = match kept.given_back(extent) {
                    Some(count) => Some(count.saturating_mul(2)),
                    None => None,
                };
                None
            }
            Goal::All => Some((chip.base(), self.end_of(chip))),
            Goal::From(from) => Some((from, self.end_of(chip))),
            Goal::Span(from, to) => Some((from, u64::from(to).saturating_add(1))),
            Goal::First(size) => Some((
                chip.base(),
                u64::from(chip.base()).saturating_add(u64::from(size)),
            )),
        };
        let Some((from, end)) = ends else {
            return;
        };
        let Ok(last) = u32::try_from(end.saturating_sub(1)) else {
            return;
        };
        if let (Some((first, _)), Some((last, _))) = (page_at(chip, from), page_at(chip, last)) {
            self.first = Some(first);
            self.count = Some(pages_between(first, last));
        }
    }

    /// Goes on to a page, where it is one of those that are gone through. It may be said that it is
    /// the next one, though it has the number of the one before.
    fn turn_to(&mut self, doing: Doing, page: u16, is_next: bool) -> bool {
        let turn = match (self.first, self.place) {
            (Some(first), _) => {
                if page < first {
                    return false;
                }
                pages_between(first, page)
            }
            (None, Some(place)) if place.page == page && !is_next => place.turn,
            (None, Some(place)) => place.turn.saturating_add(1),
            (None, None) => 1,
        };
        if let Some(count) = self.count {
            if turn > count {
                return false;
            }
        }
        if let Some(place) = self.place {
            if place.page == page && place.doing == doing && place.turn == turn {
                return false;
            }
        }
        self.place = Some(Place {
            doing,
            page,
            turn,
            count: self.count,
        });
        true
    }
}
