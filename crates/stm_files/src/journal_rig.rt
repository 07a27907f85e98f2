// A journal to be read, with no device.
ghost use Rattle.std.specs.Prelude.{◌≡◌, ◌≤◌, ◌-◌, ◌^◌, length, IfOk};
ghost use Rattle.stm_wire.specs.Rig.{HasCause};
ghost use Rattle.stm_sim.specs.Unmodelled.{unmodelled};

use std::io;
use std::marker::Model;
use stm_wire::{Patience, Rig, RigFault};

/// What a journal's bytes are read from.
pub trait Source {
    /// Reads from a place on, and answers how many bytes; 0 at or past the end.
    fn fetch(&mut self, at: u64, buf: &mut [u8]) -> io::Result<usize>
        ensures length { length buf.new ≡ length buf.old }
        ensures within { IfOk result (λ n. n ≤ length buf.old) }
        ensures last { 2 ^ 63 - 1 ≤ at → IfOk result (λ n. n ≡ 0) };
}

/// A journal to be read, with no device: whatever is sent to one, or added to the journal, fails.
#[derive(Drop)]
pub struct JournalRig<S: Source + Drop> {
    source: S,
    line_failures: u64,
    journal_failures: u64,
}

impl<S: Source + Drop> Model for JournalRig<S> {
    ghost use Rattle.stm_files.specs.SocketRig.{Failures};

    ghost Value = { Failures };

    ghost view = { λ rig. record { line = rig.line_failures; journal = rig.journal_failures } };
}

impl<S: Source + Drop> JournalRig<S> {
    /// A Rig with the journal that is read from here.
    pub fn new(source: S) -> JournalRig<S> {
        JournalRig {
            source,
            line_failures: 0,
            journal_failures: 0,
        }
    }

    /// What the journal is read from.
    pub fn into_source(self) -> S {
        self.source
    }
}

impl<S: Source + Drop> Rig for JournalRig<S> {
    ghost use Rattle.stm_files.specs.SocketRig.{journal_rig_state};

    ghost view = { journal_rig_state };

    ghost model = { λ rig honest. absurd honest };

    ghost places = { λ rig. tt };

    fn put(&mut self, _byte: u8) -> Result<(), RigFault> {
        self.line_failures = self.line_failures.saturating_add(1);
        Err(RigFault::Line)
    }

    fn get(&mut self, _patience: Patience) -> Result<Option<u8>, RigFault> {
        self.line_failures = self.line_failures.saturating_add(1);
        Err(RigFault::Line)
    }

    fn append(&mut self, _bytes: &[u8]) -> Result<(), RigFault> {
        self.journal_failures = self.journal_failures.saturating_add(1);
        Err(RigFault::File)
    }

    fn fetch(&mut self, at: u64, buf: &mut [u8]) -> Result<usize, RigFault> {
        match self.source.fetch(at, buf) {
            Ok(count) => Ok(count),
            Err(_) => {
                self.journal_failures = self.journal_failures.saturating_add(1);
                Err(RigFault::File)
            }
        }
    }
}
