// A device behind a socket, and a journal kept in a file.
ghost use Rattle.std.specs.Prelude.{◌≡◌, ◌<◌, ◌-◌, ◌^◌, IfOk, OnOk, MatchResult, Err, Ok, false, true};
ghost use Rattle.std.specs.Prelude.{length, refl};
ghost use Rattle.std.specs.Io.KnownBytes.{IsAtEnd};
ghost use Rattle.stm_journal.specs.States.{is_unfinished};
ghost use Rattle.stm_files.specs.CallRecord.{no_calls};
ghost use Rattle.stm_files.specs.JournalFile.{AppendsIfTaken, IsNoted};
ghost use Rattle.stm_files.specs.SocketRig.{SocketState, socket_state};
ghost use Rattle.stm_files.specs.SocketLine.{PutsOnLine, ReadsNothing, SendsAll, TakesFromLine};
ghost use Rattle.stm_wire.specs.Call.{Put, Fetch};
ghost use Rattle.stm_wire.specs.Rig.{AppendsHonestly, Enters, EntersAppend, FetchesAside};
ghost use Rattle.stm_wire.specs.Rig.{FetchesHonestly};
ghost use Rattle.stm_wire.specs.Rig.{FetchesWithin, GetsAside, GetsHonestly, HasCause};
ghost use Rattle.stm_wire.specs.Rig.{PutsAside, PutsHonestly, Records, RecordsAppend, entry_of_get};

use crate::call_record::{CallRecord, Called};
use crate::file_fault::FileFault;
use crate::journal_file::JournalFile;
use crate::locks::Locks;
use crate::socket_line::{SocketLine, Timed};
use std::io;
use std::marker::Model;
use std::time::Clock;
use stm_journal::Journal;
use stm_wire::{Patience, Rig, RigFault};

/// A device behind a socket, and a journal kept in a file.
#[derive(Drop)]
pub struct SocketRig<'a, S: Timed, R: Locks> {
    line: SocketLine<'a, S, R>,
    file: JournalFile<'a, R>,
    line_failures: u64,
    journal_failures: u64,
    record: CallRecord,
}

impl<'a, S: Timed, R: Locks> Model for SocketRig<'a, S, R> {
    ghost Value = { SocketState };

    ghost view = { λ rig. record {
      failures = record { line = rig.line_failures; journal = rig.journal_failures };
      line = rig.line;
      file = rig.file;
      past = rig.record.past;
    } };
}

impl<'a, S: Timed + Drop, R: Locks + Clock + AllocGlobal> SocketRig<'a, S, R> {
    /// A Rig with this line and this journal.
    pub fn new(line: SocketLine<'a, S, R>, file: JournalFile<'a, R>) -> SocketRig<'a, S, R>
        ensures line { result.line ≡ line.entry }
        ensures file { result.file ≡ file.entry }
        ensures past { result.past ≡ no_calls }
    {
        SocketRig {
            line,
            file,
            line_failures: 0,
            journal_failures: 0,
            record: CallRecord::new(),
        }
    }

    /// Whether the device was given up: it answered nothing for too long, or
    /// didn't take what was sent.
    pub fn has_given_up(&self) -> bool
        ensures { result ≡ self.now.line.has_given_up }
    {
        self.line.has_given_up()
    }

    /// Ends the journal, of which nothing is unfinished: its file is removed or renamed, and isn't
    /// there from then on.
    pub fn end_journal<'w>(
        &mut self,
        journal: &Journal,
        name: &'w str,
        to: Option<&'w str>,
    ) -> Result<(), FileFault<'w>>
        requires finished { is_unfinished journal.now.state ≡ false }
        ensures count { self.new.failures ≡ self.old.failures }
        ensures past { self.new.past ≡ self.old.past }
    {
        self.file.end(journal, name, to)
    }

    /// The journal's file; the line is closed.
    pub fn into_journal(self) -> JournalFile<'a, R> {
        self.file
    }

    /// The line, which stays open; the journal is closed.
    pub fn into_line(self) -> SocketLine<'a, S, R> {
        self.line
    }

    /// Counts a failure of the line, where the answer is one.
    fn count_line<T: Drop>(&mut self, answer: Result<T, RigFault>) -> Result<T, RigFault>
        ensures answer { result ≡ answer }
        ensures cause { HasCause self.old.failures.line self.new.failures.line result }
        ensures journal { self.new.failures.journal ≡ self.old.failures.journal }
        ensures file { self.new.file ≡ self.old.file }
        ensures socket { self.new.line ≡ self.old.line }
        ensures past { self.new.past ≡ self.old.past }
    {
        if answer.is_err() {
            self.line_failures = self.line_failures.saturating_add(1);
        }
        answer
    }

    /// The next byte that came, where others have to be sent before it or none is held. A failure
    /// is counted.
    #[inline(never)]
    fn take(&mut self, patience: Patience) -> Result<Option<u8>, RigFault>
        ensures cause { HasCause self.old.failures.line self.new.failures.line result }
        ensures journal { self.new.failures.journal ≡ self.old.failures.journal }
        ensures file { self.new.file ≡ self.old.file }
        ensures past { self.new.past ≡ self.old.past }
        ensures from_line { IfOk result (λ answer. TakesFromLine answer
            self.old.line self.new.line) }
    {
        let answer = as_line_fault(self.line.take(patience));
        self.count_line(answer)
    }

    /// Adds void lines to the journal's file, which no session asked for.
    pub fn note(&mut self, lines: &[u8])
        ensures count { self.new.failures ≡ self.old.failures }
        ensures past { self.new.past ≡ self.old.past }
        ensures in_file { IsNoted lines.now self.old.file self.new.file }
    {
        self.file.note(lines);
    }

    /// Adds nothing more to the journal, as after an append that failed.
    pub fn give_up_journal(&mut self)
        ensures count { self.new.failures ≡ self.old.failures }
        ensures past { self.new.past ≡ self.old.past }
        ensures failed { self.new.file.has_failed ≡ true }
    {
        self.file.give_up();
    }

    /// Counts a failure of the journal, where the answer is one.
    fn count_journal<T: Drop>(&mut self, answer: Result<T, RigFault>) -> Result<T, RigFault>
        ensures answer { result ≡ answer }
        ensures cause { HasCause self.old.failures.journal self.new.failures.journal result }
        ensures line { self.new.failures.line ≡ self.old.failures.line }
        ensures file { self.new.file ≡ self.old.file }
        ensures socket { self.new.line ≡ self.old.line }
        ensures past { self.new.past ≡ self.old.past }
    {
        if answer.is_err() {
            self.journal_failures = self.journal_failures.saturating_add(1);
        }
        answer
    }
}

impl<'a, S: Timed + Drop, R: Locks + Clock + AllocGlobal> Rig for SocketRig<'a, S, R> {
    ghost view = { socket_state };

    ghost model = { λ rig honest. absurd honest };

    ghost places = { λ rig. refl };

    fn put(&mut self, byte: u8) -> Result<(), RigFault>
        ensures cause { HasCause self.old.failures.line self.new.failures.line result }
        ensures journal_count { self.new.failures.journal ≡ self.old.failures.journal }
        ensures recorded { Records (Put byte) result
            (socket_state self.old).calls (socket_state self.new).calls }
        ensures entered { Enters (Put byte) (socket_state self.old) (socket_state self.new) }
        ensures aside { PutsAside (socket_state self.old) (socket_state self.new) }
        ensures honest { (socket_state self.old).is_honest
            → PutsHonestly byte result (socket_state self.old) (socket_state self.new) }
        ensures on_line { OnOk result (PutsOnLine byte self.old.line self.new.line) }
        ensures file { self.new.file ≡ self.old.file }
    {
        let answer = as_line_fault(self.line.put(byte));
        self.record = self.record.then(&Called::Put(byte));
        self.count_line(answer)
    }

    #[inline(always)]
    fn get(&mut self, patience: Patience) -> Result<Option<u8>, RigFault>
        ensures cause { HasCause self.old.failures.line self.new.failures.line result }
        ensures journal_count { self.new.failures.journal ≡ self.old.failures.journal }
        ensures recorded { Records (entry_of_get result) result
            (socket_state self.old).calls (socket_state self.new).calls }
        ensures entered { Enters (entry_of_get result)
            (socket_state self.old) (socket_state self.new) }
        ensures aside { GetsAside patience (socket_state self.old) (socket_state self.new) }
        ensures honest { (socket_state self.old).is_honest
            → GetsHonestly result (socket_state self.old) (socket_state self.new) }
        ensures from_line { IfOk result (λ answer. TakesFromLine answer
            self.old.line self.new.line) }
        ensures file { self.new.file ≡ self.old.file }
    {
        let answer = match self.line.pop(patience) {
            Some(byte) => Ok(Some(byte)),
            None => self.take(patience),
        };
        self.record = self.record.then(&Called::Get(patience, answer));
        answer
    }

    fn append(&mut self, bytes: &[u8]) -> Result<(), RigFault>
        ensures cause { HasCause self.old.failures.journal self.new.failures.journal result }
        ensures line_count { self.new.failures.line ≡ self.old.failures.line }
        ensures recorded { RecordsAppend bytes.now result
            (socket_state self.old).calls (socket_state self.new).calls }
        ensures entered { EntersAppend bytes.now (socket_state self.old) (socket_state self.new) }
        ensures aside { PutsAside (socket_state self.old) (socket_state self.new) }
        ensures honest { (socket_state self.old).is_honest
            → AppendsHonestly bytes.now result (socket_state self.old) (socket_state self.new) }
        ensures in_file { AppendsIfTaken bytes.now result self.old.file self.new.file }
        ensures sent { OnOk result (SendsAll self.old.line self.new.line) }
        ensures unread { ReadsNothing self.old.line self.new.line }
    {
        // What was put goes out first: a line of the journal stands behind it.
        let answer = match self.line.flush() {
            Ok(()) => as_fault(self.file.append(bytes)),
            Err(_) => Err(RigFault::File),
        };
        self.record = self.record.then(&Called::Append(bytes));
        self.count_journal(answer)
    }

    fn fetch(&mut self, at: u64, buf: &mut [u8]) -> Result<usize, RigFault>
        ensures within { FetchesWithin at buf.old buf.new result }
        ensures cause { HasCause self.old.failures.journal self.new.failures.journal result }
        ensures line_count { self.new.failures.line ≡ self.old.failures.line }
        ensures recorded { Records Fetch result
            (socket_state self.old).calls (socket_state self.new).calls }
        ensures entered { Enters Fetch (socket_state self.old) (socket_state self.new) }
        ensures aside { FetchesAside buf.new result
            (socket_state self.old) (socket_state self.new) }
        ensures honest { (socket_state self.old).is_honest
            → FetchesHonestly at buf.old buf.new result (socket_state self.old) (socket_state self.new) }
        ensures end { at < 2 ^ 63 - 1 → 0 < length buf.old
            → IfOk result (λ n. n ≡ 0 → IsAtEnd self.new.file.ahead) }
        ensures line { self.new.line ≡ self.old.line }
    {
        let answer = as_fault(self.file.fetch(at, buf));
        self.record = self.record.then(&Called::Fetch(buf, answer));
        self.count_journal(answer)
    }
}

/// The answer of a line, as a Rig tells it.
fn as_line_fault<T: Drop>(answer: io::Result<T>) -> Result<T, RigFault>
    ensures { MatchResult answer (λ done. result ≡ Ok done) (λ e. result ≡ Err RigFault.Line) }
{
    match answer {
        Ok(done) => Ok(done),
        Err(_) => Err(RigFault::Line),
    }
}

/// The answer of a file, as a Rig tells it.
fn as_fault<T: Drop>(answer: io::Result<T>) -> Result<T, RigFault>
    ensures { MatchResult answer (λ done. result ≡ Ok done) (λ e. result ≡ Err RigFault.File) }
{
    match answer {
        Ok(done) => Ok(done),
        Err(_) => Err(RigFault::File),
    }
}
