// A whole line as it is read in pieces: what decides it, without the line.
ghost use Rattle.std.specs.Prelude.{◌≡◌, ◌==◌, ◌+◌, ◌-◌, ◌<◌, ◌≤◌, ◌^◌, [], length, OnOk};
ghost use Rattle.stm_journal.specs.Summary.{extended, void_by, said_by, greets_by, summary_of};

use crate::Entry;
use crate::line::{are_all_upper, entry_of, long_page_of};
use std::alloc::{AllocError, Global};
use std::marker::Model;

/// How many bytes of a line are kept: the longest header's. Only a page's line is longer.
const PREFIX: usize = 82;

/// A line so far.
#[derive(Drop)]
pub(crate) struct LineSummary {
    prefix: Vec<u8>,
    size: u64,
    is_upper: bool,
    last: u8,
}

impl Model for LineSummary {
    ghost use Rattle.std.specs.Prelude.{◌≤◌, length};
    ghost use Rattle.stm_journal.specs.Summary.{Summary};

    ghost Value = { Summary };

    ghost view = { λ s. record {
      prefix = s.prefix.items;
      size = s.size;
      is_upper = s.is_upper;
      last = s.last;
    } };

    ghost invariant = { λ s. length s.prefix.items ≤ 82 };
}

impl LineSummary {
    pub(crate) fn new(alloc: Global) -> Self
        ensures { result ≡ summary_of [] }
    {
        LineSummary {
            prefix: Vec::new(alloc),
            size: 0,
            is_upper: true,
            last: 0,
        }
    }

    /// Bytes more, none of which is an LF.
    pub(crate) fn extend(&mut self, more: &[u8]) -> Result<(), AllocError>
        ensures none { length more.now ≡ 0 → OnOk result (self.new ≡ self.old) }
        ensures some { 0 < length more.now → self.old.size + length more.now < 2 ^ 64
            → OnOk result (self.new ≡ extended more.now self.old) }
    {
        if more.is_empty() {
            return Ok(());
        }
        let room = PREFIX.saturating_sub(self.prefix.len());
        let cut = if more.len() < room { more.len() } else { room };
        self.prefix.extend_from_slice(&more[..cut])?;
        self.is_upper = self.is_upper && are_all_upper(&more[cut..]);
        self.size = self.size.saturating_add(more.len() as u64);
        self.last = more[more.len() - 1];
        Ok(())
    }

    pub(crate) fn clear(&mut self)
        ensures { self.new ≡ summary_of [] }
    {
        self.prefix.clear();
        self.size = 0;
        self.is_upper = true;
        self.last = 0;
    }

    pub(crate) fn is_void(&self) -> bool
        ensures { result ≡ void_by self.now }
    {
        self.last == b'!'
    }

    pub(crate) fn is_greeting(&self) -> bool
        ensures { result ≡ greets_by self.now }
    {
        self.prefix.as_slice() == b"connect!".as_slice()
    }

    pub(crate) fn is_empty(&self) -> bool
        ensures { result ≡ (self.now.size == 0) }
    {
        self.size == 0
    }

    /// What the line says, if it says anything; of a page, how many bytes.
    pub(crate) fn entry(&self) -> Option<Entry>
        ensures { result ≡ said_by self.now }
    {
        if self.size <= PREFIX as u64 {
            entry_of(&self.prefix)
        } else if self.is_upper {
            long_page_of(&self.prefix, self.size - PREFIX as u64)
        } else {
            None
        }
    }
}
