// A journal in memory.
ghost use Rattle.std.specs.Prelude.{◌≡◌, ◌+◌, OnOk, IfErr};
ghost use Rattle.stm_journal.specs.Journals.{capped, empty_loaded};
ghost use Rattle.stm_journal.specs.Loading.{PassesLine, BadLine};

mod additions;
mod greeting;
mod page_calls;
mod readers;
mod segment_calls;

use crate::JournalFault;
use crate::state::State;
use crate::summary::LineSummary;
use std::alloc::Global;
use std::marker::Model;

/// A journal that was loaded, and the calls that add lines to it.
///
/// It holds the places of kept pages, and none of their bytes: these stay in the Rig's journal.
/// Contracts see its state, with zeros for such bytes, how many whole lines and how many bytes it
/// has, whether a torn tail stands, and whether the last whole line is a greeting. After `JournalFault::File` it has to be loaded again.
#[derive(Drop)]
pub struct Journal {
    alloc: Global,
    state: State,
    lines: u64,
    size: u64,
    is_torn: bool,
    is_greeted: bool,
}

impl Model for Journal {
    ghost use Rattle.stm_journal.specs.Journals.{Loaded};

    ghost Value = { Loaded };

    ghost view = { λ j. record {
      state = j.state;
      lines = j.lines;
      size = j.size;
      is_torn = j.is_torn;
      is_greeted = j.is_greeted;
    } };
}

impl Journal {
    /// Of no lines.
    pub(crate) fn new(alloc: Global) -> Self
        ensures { result ≡ empty_loaded }
    {
        Journal {
            alloc,
            state: State::new(alloc),
            lines: 0,
            size: 0,
            is_torn: false,
            is_greeted: false,
        }
    }

    pub(crate) fn size(&self) -> u64
        ensures { result ≡ self.now.size }
    {
        self.size
    }

    /// Bytes more, none of which is an LF.
    pub(crate) fn pass_bytes(&mut self, n: usize)
        ensures { self.new ≡ record self.old { size = capped (self.old.size + n) } }
    {
        self.size = self.size.saturating_add(n as u64);
    }

    pub(crate) fn set_torn(&mut self, is_torn: bool)
        ensures { self.new ≡ record self.old { is_torn = is_torn } }
    {
        self.is_torn = is_torn;
    }

    /// A whole line more, at whose LF the bytes so far end.
    pub(crate) fn pass_line(&mut self, text: &LineSummary) -> Result<(), JournalFault>
        ensures ok { OnOk result (PassesLine text.now self.old self.new) }
        ensures err { IfErr result (BadLine text.now self.old) }
    {
        let line = self.lines.saturating_add(1);
        if !text.is_void() {
            match text.entry() {
                Some(entry) => {
                    self.state.mark(self.alloc, &entry);
                    if !self.state.allows(&entry) {
                        return Err(JournalFault::Bad(line));
                    }
                    self.state.apply(self.alloc, line, self.size, entry)?;
                }
                None => return Err(JournalFault::Bad(line)),
            }
        }
        self.lines = line;
        self.size = self.size.saturating_add(1);
        self.is_greeted = text.is_greeting();
        Ok(())
    }
}
