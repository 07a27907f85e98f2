// A simulated device, and a journal kept in a file.
ghost use Rattle.std.specs.Prelude.{◌≡◌, ◌≤◌, [], drop, length, IfOk, IfSome, OnErr, OnOk, true, false};
ghost use Rattle.stm_files.specs.JournalFile.{IsNoted};
ghost use Rattle.stm_files.specs.PageSeal.{AppendsSealed};
ghost use Rattle.std.proofs.Common.{sym};
ghost use Rattle.stm_journal.specs.States.{is_unfinished};
ghost use Rattle.stm_sim.specs.Memory.{PutsInMemory, GetsInMemory, rig_state};
ghost use Rattle.stm_wire.specs.Rig.{AppendsHonestly, FetchesHonestly, FetchesWithin, GetsHonestly};
ghost use Rattle.stm_wire.specs.Call.{Put, Fetch};
ghost use Rattle.stm_sim.specs.lemmas.Recorded.{length_told};
ghost use Rattle.stm_wire.specs.Rig.{HasCause, PutsHonestly, Records, RecordsAppend, entry_of_get};
ghost use Rattle.stm_wire.specs.Rig.{Enters, EntersAppend, FetchesAside, GetsAside, PutsAside};
ghost use Rattle.stm_files.specs.SimulatorRig.{SimulatorState, simulator_rig_state, AppendsToFile};
ghost use Rattle.stm_files.specs.SimulatorFile.{StandsSo, simulator_at};
ghost use Rattle.stm_files.specs.SimulatorRig.{FetchesUnlessFailed};
ghost use Rattle.stm_files.specs.lemmas.SimulatorRigLaws.{follows};
ghost use Rattle.stm_files.specs.Ending.{EndsJournal};

use crate::file_fault::FileFault;
use crate::journal_file::JournalFile;
use crate::locks::Locks;
use crate::simulator_file::{SimulatorFiles, StoredSimulator};
use std::alloc::{AllocError, Global};
use std::io;
use std::io::ErrorKind;
use std::marker::Model;
use stm_journal::Journal;
use stm_sim::MemoryRig;
use stm_wire::{Patience, Rig, RigCall, RigFault};

/// A simulated device, and a journal kept in a file. The device, the steps to a stop and the record
/// are those of a Rig in memory, which also holds the journal's bytes: each append goes to it
/// first, and by what its journal grew, the file grows too. After the file has failed once, no
/// journal byte is added or told any more.
///
/// It follows the model, and the journal in memory is the model's. No contract says
/// what a file holds: an append that the file refused stands whole in memory, and a
/// beginning of it in the file.
#[derive(Drop)]
pub struct SimulatorRig<'a, 'f, R: Locks> {
    memory: MemoryRig,
    file: JournalFile<'a, R>,
    journal_failures: u64,
    simulator: SimulatorFiles<'a, 'f, R>,
    /// The simulator's files were to be written before a line of the journal, and couldn't be.
    is_unstored: bool,
    /// After how many steps of its record the Rig in memory is stopped.
    stop: Option<u64>,
}

impl<'a, 'f, R: Locks> Model for SimulatorRig<'a, 'f, R> {
    ghost Value = { SimulatorState };

    ghost view = { λ rig.
        record { memory = rig.memory; file = rig.file; journal_failures = rig.journal_failures } };
}

impl<'a, 'f, R: Locks + AllocGlobal> SimulatorRig<'a, 'f, R> {
    /// A Rig with the device of this one in memory, whose journal has to be what the file holds.
    pub fn new(
        memory: MemoryRig,
        file: JournalFile<'a, R>,
        simulator: SimulatorFiles<'a, 'f, R>,
    ) -> SimulatorRig<'a, 'f, R>
        ensures starts { result
            ≡ record { memory = memory; file = file.entry; journal_failures = 0 } }
        ensures honest { (rig_state memory).is_honest → (simulator_rig_state result).is_honest }
    {
        SimulatorRig {
            memory,
            file,
            journal_failures: 0,
            simulator,
            is_unstored: false,
            stop: None,
        }
    }

    /// Stops the device after so many steps.
    pub fn stop_after(&mut self, steps: u64) {
        self.stop = Some(steps.saturating_add(steps_of(self.memory.calls())));
        self.memory.stop_after(steps);
    }

    /// The Rig in memory, the journal's file and the simulator's.
    pub fn into_parts(self) -> (MemoryRig, JournalFile<'a, R>, SimulatorFiles<'a, 'f, R>)
        ensures memory { result.0 ≡ self.entry.memory }
        ensures file { result.1 ≡ self.entry.file }
    {
        (self.memory, self.file, self.simulator)
    }

    /// Ends the journal, of which nothing is unfinished: its file is removed or renamed, and isn't
    /// there from then on. The device goes on as it stands, once its files are stored, with the steps
    /// that are left to a stop.
    pub fn end_journal<'w>(
        &mut self,
        alloc: Global,
        journal: &Journal,
        name: &'w str,
        to: Option<&'w str>,
    ) -> Result<(), FileFault<'w>>
        requires finished { is_unfinished journal.now.state ≡ false }
        ensures err { OnErr result ((self.new.memory ≡ self.old.memory)
            × (self.new.journal_failures ≡ self.old.journal_failures)) }
        ensures ends { let old = simulator_rig_state self.old in
            let new = simulator_rig_state self.new in
            old.is_honest → OnOk result (EndsJournal old new) }
    {
        let left = match self.stop {
            Some(steps) => Some(steps.saturating_sub(steps_of(self.memory.calls()))),
            None => None,
        };
        let Some(memory) = begin_anew(alloc, &self.memory, left)? else {
            return Err(FileFault::NoDevice);
        };
        if self.simulator.store_rig(&self.memory).is_err() {
            self.is_unstored = true;
            return Err(FileFault::Journal(None));
        }
        self.file.end(journal, name, to)?;
        self.memory = memory;
        self.stop = left;
        Ok(())
    }

    /// Whether the simulator's files were to be written before a line of the
    /// journal, and couldn't be.
    pub fn is_unstored(&self) -> bool {
        self.is_unstored
    }

    /// Adds void lines to the journal's file, which no session asked for.
    pub fn note(&mut self, lines: &[u8])
        ensures memory { self.new.memory ≡ self.old.memory }
        ensures count { self.new.journal_failures ≡ self.old.journal_failures }
        ensures in_file { IsNoted lines.now self.old.file self.new.file }
    {
        self.file.note(lines);
    }

    /// Adds nothing more to the journal, as after an append that failed.
    pub fn give_up_journal(&mut self)
        ensures memory { self.new.memory ≡ self.old.memory }
        ensures count { self.new.journal_failures ≡ self.old.journal_failures }
        ensures failed { self.new.file.has_failed ≡ true }
    {
        self.file.give_up();
    }

    /// Counts a failure of the journal, where the answer is one.
    fn count_journal<T: Drop>(&mut self, answer: Result<T, RigFault>) -> Result<T, RigFault>
        ensures answer { result ≡ answer }
        ensures cause { HasCause self.old.journal_failures self.new.journal_failures result }
        ensures memory { self.new.memory ≡ self.old.memory }
        ensures file { self.new.file ≡ self.old.file }
    {
        if answer.is_err() {
            self.journal_failures = self.journal_failures.saturating_add(1);
        }
        answer
    }

    /// Adds to the file what the journal in memory has from this place on. A line that says that a
    /// segment was undone goes there once the simulator's files hold the flash that this left:
    /// else the way back would be lost with them.
    fn append_to_file(&mut self, start: usize) -> io::Result<()>
        requires { start ≤ length self.old.memory.journal }
        ensures added { OnOk result (AppendsSealed self.new.file.names_board
            self.old.file.known self.new.file.known (drop start self.old.memory.journal)) }
        ensures err { OnErr result (self.new.file.has_failed ≡ true) }
        ensures memory { self.new.memory ≡ self.old.memory }
        ensures count { self.new.journal_failures ≡ self.old.journal_failures }
    {
        let added = &self.memory.journal()[start..];
        if added.is_empty() {
            return Ok(());
        }
        if says_undone(added) && self.simulator.store_rig(&self.memory).is_err() {
            self.is_unstored = true;
            self.file.give_up();
            return Err(io::Error::from(ErrorKind::Other));
        }
        self.file.append(added)
    }
}

/// The simulator as it stands, beside an empty journal. Bytes that it owed are lost.
fn restart(alloc: Global, memory: &MemoryRig) -> Result<Option<MemoryRig>, AllocError>
    ensures { let old = memory.now in (rig_state old).is_honest → IfOk result
        (λ begun. IfSome begun (StandsSo
        (simulator_at old.device.chip old.device.flash old.device.phase) [])) }
{
    let empty = Vec::new(alloc);
    match StoredSimulator::left(alloc, memory)? {
        Some(left) => left.start(alloc, empty),
        None => Ok(None),
    }
}

/// The same, which is stopped after so many steps, where that is said.
fn begin_anew(
    alloc: Global,
    memory: &MemoryRig,
    stop: Option<u64>,
) -> Result<Option<MemoryRig>, AllocError>
    ensures { let old = rig_state memory.now in old.is_honest → IfOk result
        (λ begun. IfSome begun (λ rig. EndsJournal old (rig_state rig))) }
{
    let Some(mut begun) = restart(alloc, memory)? else {
        return Ok(None);
    };
    if let Some(steps) = stop {
        begun.stop_after(steps);
    }
    Ok(Some(begun))
}

/// How many steps these calls took: a byte put, a byte that came, a byte of the journal.
fn steps_of(calls: &[RigCall]) -> u64 {
    let mut steps = 0_u64;
    for call in calls {
        steps = steps.saturating_add(match call {
            RigCall::Put(_) | RigCall::Get(Some(_)) => 1,
            RigCall::Append(count) => *count,
            RigCall::Get(None) | RigCall::Fetch => 0,
        });
    }
    steps
}

/// Whether bytes of a journal say that a segment was undone, or begin to.
fn says_undone(added: &[u8]) -> bool {
    for line in added.split(|byte| *byte == b'\n') {
        if line.first() == Some(&b'u') {
            return true;
        }
    }
    false
}

impl<'a, 'f, R: Locks + AllocGlobal> Rig for SimulatorRig<'a, 'f, R> {
    ghost view = { simulator_rig_state };

    ghost model = { λ rig honest. follows rig honest };

    ghost places = { λ rig. sym (length_told rig.memory.journal rig.memory.calls) };

    fn put(&mut self, byte: u8) -> Result<(), RigFault>
        ensures cause { HasCause
            (simulator_rig_state self.old).line_failures
            (simulator_rig_state self.new).line_failures result }
        ensures journal_count { (simulator_rig_state self.new).journal_failures
            ≡ (simulator_rig_state self.old).journal_failures }
        ensures recorded { Records (Put byte) result
            (simulator_rig_state self.old).calls (simulator_rig_state self.new).calls }
        ensures entered { Enters (Put byte) (simulator_rig_state self.old)
            (simulator_rig_state self.new) }
        ensures aside { PutsAside (simulator_rig_state self.old) (simulator_rig_state self.new) }
        ensures honest { (simulator_rig_state self.old).is_honest
            → PutsHonestly byte result
            (simulator_rig_state self.old) (simulator_rig_state self.new) }
        ensures in_memory { PutsInMemory byte result self.old.memory self.new.memory }
        ensures file { self.new.file ≡ self.old.file }
    {
        self.memory.put(byte)
    }

    fn get(&mut self, patience: Patience) -> Result<Option<u8>, RigFault>
        ensures cause { HasCause
            (simulator_rig_state self.old).line_failures
            (simulator_rig_state self.new).line_failures result }
        ensures journal_count { (simulator_rig_state self.new).journal_failures
            ≡ (simulator_rig_state self.old).journal_failures }
        ensures recorded { Records (entry_of_get result) result
            (simulator_rig_state self.old).calls (simulator_rig_state self.new).calls }
        ensures entered { Enters (entry_of_get result) (simulator_rig_state self.old)
            (simulator_rig_state self.new) }
        ensures aside { GetsAside patience (simulator_rig_state self.old)
            (simulator_rig_state self.new) }
        ensures honest { (simulator_rig_state self.old).is_honest
            → GetsHonestly result
            (simulator_rig_state self.old) (simulator_rig_state self.new) }
        ensures in_memory { GetsInMemory result self.old.memory self.new.memory }
        ensures file { self.new.file ≡ self.old.file }
    {
        self.memory.get(patience)
    }

    fn append(&mut self, bytes: &[u8]) -> Result<(), RigFault>
        ensures cause { HasCause
            (simulator_rig_state self.old).journal_failures
            (simulator_rig_state self.new).journal_failures result }
        ensures line_count { (simulator_rig_state self.new).line_failures
            ≡ (simulator_rig_state self.old).line_failures }
        ensures recorded { RecordsAppend bytes.now result
            (simulator_rig_state self.old).calls (simulator_rig_state self.new).calls }
        ensures entered { EntersAppend bytes.now
            (simulator_rig_state self.old)
            (simulator_rig_state self.new) }
        ensures aside { PutsAside (simulator_rig_state self.old) (simulator_rig_state self.new) }
        ensures honest { (simulator_rig_state self.old).is_honest
            → AppendsHonestly bytes.now result
            (simulator_rig_state self.old) (simulator_rig_state self.new) }
        ensures in_file { AppendsToFile bytes.now result self.old self.new }
    {
        if self.file.has_failed() {
            return self.count_journal(Err(RigFault::File));
        }
        let start = self.memory.journal().len();
        let answer = self.memory.append(bytes);
        let answer = match self.append_to_file(start) {
            Ok(()) => answer,
            Err(_) => Err(RigFault::File),
        };
        self.count_journal(answer)
    }

    fn fetch(&mut self, at: u64, buf: &mut [u8]) -> Result<usize, RigFault>
        ensures within { FetchesWithin at buf.old buf.new result }
        ensures cause { HasCause
            (simulator_rig_state self.old).journal_failures
            (simulator_rig_state self.new).journal_failures result }
        ensures line_count { (simulator_rig_state self.new).line_failures
            ≡ (simulator_rig_state self.old).line_failures }
        ensures recorded { Records Fetch result
            (simulator_rig_state self.old).calls (simulator_rig_state self.new).calls }
        ensures entered { Enters Fetch (simulator_rig_state self.old)
            (simulator_rig_state self.new) }
        ensures aside { FetchesAside buf.new result (simulator_rig_state self.old)
            (simulator_rig_state self.new) }
        ensures honest { (simulator_rig_state self.old).is_honest
            → FetchesHonestly at buf.old buf.new result
            (simulator_rig_state self.old) (simulator_rig_state self.new) }
        ensures in_memory { FetchesUnlessFailed at buf.old buf.new result self.old self.new }
        ensures file { self.new.file ≡ self.old.file }
    {
        if self.file.has_failed() {
            return self.count_journal(Err(RigFault::File));
        }
        let answer = self.memory.fetch(at, buf);
        self.count_journal(answer)
    }
}
