// A Rig whose journal can be kept: what it says stays for good, and the journal is empty.
ghost use Rattle.std.specs.Prelude.{◌≡◌, false, IfOk, OnErr, OnOk};
ghost use Rattle.stm_wire.specs.Dialogue.{GoesOn};
ghost use Rattle.stm_wire.specs.Rig.{AppendsHonestly, EntersAppend, HasCause, PutsAside, RecordsAppend};
ghost use Rattle.stm_journal.specs.Calls.{AreFetches};
ghost use Rattle.stm_journal.specs.States.{is_unfinished};
ghost use Rattle.stm_files.specs.Ending.{EndsJournal};
ghost use Rattle.stm_work.specs.Keeping.{IsFinished};
ghost use Rattle.stm_work.specs.Steps.{Stays};

use crate::failure::Failure;
use crate::keeping::count_kept;
use std::alloc::Global;
use std::time::Clock;
use stm_files::{Locks, SimulatorRig, SocketRig, Timed};
use stm_journal::Journal;
use stm_session::Fault;
use stm_watch::WatchRig;
use stm_wire::{Rig, RigFault};

/// A Rig whose journal can be kept.
pub trait Keeper: Rig {
    /// Hears how many KiB the flash has, by what the device told, for what it shows alone.
    fn hear_size(&mut self, kib: Option<u16>)
        ensures { Stays (Self.view self.old) (Self.view self.new) };

    /// Whether a byte may have come from the device: else its line was given up, and none had come.
    fn has_heard(&self) -> bool;

    /// Lets what the journal of this name says stay for good: its file is removed, or renamed to a
    /// name that isn't there. It answers how many writes and erases stay, none of which may be
    /// unfinished. Nothing is sent to the device.
    fn keep<'w>(
        &mut self,
        alloc: Global,
        name: &'w str,
        to: Option<&'w str>,
    ) -> Result<u32, Failure<'w>>
        ensures quiet { let old = Self.view self.old in let new = Self.view self.new in
            OnErr result (GoesOn AreFetches old.calls new.calls) }
        ensures ends { let old = Self.view self.old in let new = Self.view self.new in
            old.is_honest → OnOk result (EndsJournal old new) }
        ensures finished { let old = Self.view self.old in
            old.is_honest → IfOk result (IsFinished old.journal) };
}

/// A Rig at whose journal a guard may stand: it refuses an append, and adds lines of its own.
pub trait Guarded: Keeper {
    /// Adds void lines to the file of the journal, of which no session knows.
    fn note(&mut self, lines: &[u8])
        ensures { Stays (Self.view self.old) (Self.view self.new) };

    /// Fails as an append would that the file of the journal refuses, which takes nothing more then.
    fn refuse_append(&mut self, bytes: &[u8]) -> Result<(), RigFault>
        ensures refused { OnOk result ⊥ }
        ensures cause { HasCause
            (Self.view self.old).journal_failures (Self.view self.new).journal_failures result }
        ensures line_count { (Self.view self.new).line_failures
            ≡ (Self.view self.old).line_failures }
        ensures recorded { RecordsAppend bytes.now result
            (Self.view self.old).calls (Self.view self.new).calls }
        ensures entered { EntersAppend bytes.now (Self.view self.old) (Self.view self.new) }
        ensures aside { PutsAside (Self.view self.old) (Self.view self.new) }
        ensures honest { (Self.view self.old).is_honest
            → AppendsHonestly bytes.now result (Self.view self.old) (Self.view self.new) };
}

/// The journal of a Rig, and how many writes and erases it has, none of which is unfinished.
#[tactic(auto, using(crate::proofs::Finished::finished))]
fn load_finished<'a, L: Rig>(alloc: Global, rig: &mut L) -> Result<(Journal, u32), Failure<'a>>
    ensures calls { GoesOn AreFetches (L.view rig.old).calls (L.view rig.new).calls }
    ensures same { let old = L.view rig.old in let new = L.view rig.new in
        old.is_honest → OnOk result (new.is_honest × (new.device ≡ old.device)) }
    ensures ended { IfOk result (λ loaded. is_unfinished loaded.0.state ≡ false) }
    ensures finished { let old = L.view rig.old in
        old.is_honest → IfOk result (λ loaded. IsFinished old.journal loaded.1) }
{
    let journal = match Journal::load(alloc, rig) {
        Ok(journal) => journal,
        Err(fault) => return Err(Failure::Session(Fault::from(fault))),
    };
    let count = count_kept(&journal)?;
    Ok((journal, count))
}

impl<'a, S: Timed + Drop, R: Locks + Clock + AllocGlobal> Keeper for SocketRig<'a, S, R> {
    fn hear_size(&mut self, _kib: Option<u16>) {}

    fn has_heard(&self) -> bool {
        !self.has_given_up()
    }

    fn keep<'w>(
        &mut self,
        alloc: Global,
        name: &'w str,
        to: Option<&'w str>,
    ) -> Result<u32, Failure<'w>> {
        let (journal, count) = load_finished(alloc, self)?;
        self.end_journal(&journal, name, to)?;
        Ok(count)
    }
}

impl<'a, 'f, R: Locks + AllocGlobal> Keeper for SimulatorRig<'a, 'f, R> {
    fn hear_size(&mut self, _kib: Option<u16>) {}

    fn has_heard(&self) -> bool {
        true
    }

    fn keep<'w>(
        &mut self,
        alloc: Global,
        name: &'w str,
        to: Option<&'w str>,
    ) -> Result<u32, Failure<'w>> {
        let (journal, count) = load_finished(alloc, self)?;
        self.end_journal(alloc, &journal, name, to)?;
        Ok(count)
    }
}

impl<'a, S: Timed + Drop, R: Locks + Clock + AllocGlobal> Guarded for SocketRig<'a, S, R> {
    fn note(&mut self, lines: &[u8]) {
        self.note(lines);
    }

    fn refuse_append(&mut self, bytes: &[u8]) -> Result<(), RigFault> {
        self.give_up_journal();
        self.append(bytes)
    }
}

impl<'a, 'f, R: Locks + AllocGlobal> Guarded for SimulatorRig<'a, 'f, R> {
    fn note(&mut self, lines: &[u8]) {
        self.note(lines);
    }

    fn refuse_append(&mut self, bytes: &[u8]) -> Result<(), RigFault> {
        self.give_up_journal();
        self.append(bytes)
    }
}

impl<L: Keeper + Drop> Keeper for WatchRig<L> {
    fn hear_size(&mut self, kib: Option<u16>) {
        self.inner.hear_size(kib);
    }

    fn has_heard(&self) -> bool {
        self.inner.has_heard()
    }

    fn keep<'w>(
        &mut self,
        alloc: Global,
        name: &'w str,
        to: Option<&'w str>,
    ) -> Result<u32, Failure<'w>> {
        if self.refusal().is_some() {
            return Err(Failure::Session(Fault::Line));
        }
        match self.inner.keep(alloc, name, to) {
            Ok(count) => {
                // what the device owes is lost by that
                self.lose();
                Ok(count)
            }
            Err(failure) => Err(failure),
        }
    }
}
