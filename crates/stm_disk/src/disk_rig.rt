// A device on a line, and a journal in a file on a disk.
ghost use Rattle.std.specs.Prelude.{◌≡◌, ◌+◌, ◌-◌, ◌^◌, ◌≤◌, false, not, true, None, OnErr, OnOk};
ghost use Rattle.std.specs.Result.{IsErr};
ghost use Rattle.stm_wire.specs.Call.{Append, Fetch, Get, Put};
ghost use Rattle.stm_wire.specs.Rig.{AppendsHonestly, HasCause, LeftByAppend};
ghost use Rattle.stm_wire.specs.Rig.{PutsAside, RecordsAppend};
ghost use Rattle.stm_disk.specs.Lines.{StaysOnDisk};
ghost use Rattle.stm_disk.specs.RigCalls.{AppendsAsRig, FetchesAsRig, GetsAsRig, PutsAsRig};
ghost use Rattle.stm_disk.specs.DiskRig.{CrashesAreStopsHere, CrashesAreStopsIn, HoldsJournal};
ghost use Rattle.stm_disk.specs.DiskRig.{IdlesOnceFailed, IsOnDisk, disk_of, disk_rig_state};
ghost use Rattle.stm_disk.specs.lemmas.DiskRigLaws.{follows};

use crate::{GrowingFile, add_lines};
use stm_wire::{Patience, Rig, RigFault};

/// A device on a line, and a journal in a file on a disk. The line is a Rig with a journal of its
/// own, which says what the file is to hold: each append goes to it first, and then to the file.
/// Bytes are fetched from there.
///
/// It follows the model where the line does and the file does, and the file held just the line's
/// journal at first. Once an append has failed nothing more is done: no byte is put or taken, so
/// that no device is changed behind a journal whose end isn't known.
#[derive(Drop)]
pub struct DiskRig<L: Rig + Drop, F: GrowingFile + Drop> {
    line: L,
    file: F,
    size: u64,
    has_failed: bool,
    refused: u64,
    journal_failures: u64,
}

impl<L: Rig + Drop, F: GrowingFile + Drop> DiskRig<L, F> {
    /// A Rig of this line with its journal in this file, which has so many bytes: those of the
    /// line's own journal, all on the disk.
    pub fn new(line: L, file: F, size: u64) -> DiskRig<L, F>
        ensures line { result.line ≡ line }
        ensures file { result.file ≡ file }
        ensures starts { result.has_failed ≡ false }
        ensures honest { (L.view line).is_honest
            → HoldsJournal (L.view line).journal size (F.view file)
            → (⟦<Self as Rig>⟧.view result).is_honest }
    {
        DiskRig {
            line,
            file,
            size,
            has_failed: false,
            refused: 0,
            journal_failures: 0,
        }
    }

    /// The line and the file.
    pub fn into_parts(self) -> (L, F)
        ensures line { result.0 ≡ self.line }
        ensures file { result.1 ≡ self.file }
    {
        (self.line, self.file)
    }

    /// Refuses a put or a get, and counts it.
    fn refuse<T>(&mut self) -> Result<T, RigFault>
        ensures err { IsErr result }
        ensures count { HasCause self.old.refused self.new.refused result }
        ensures rest { self.new ≡ record self.old { refused = self.new.refused } }
    {
        self.refused = self.refused.saturating_add(1);
        Err(RigFault::Line)
    }

    /// Counts a failure of the journal, where the answer is one.
    fn count_journal<T: Drop>(&mut self, answer: Result<T, RigFault>) -> Result<T, RigFault>
        ensures answer { result ≡ answer }
        ensures cause { HasCause self.old.journal_failures self.new.journal_failures result }
        ensures rest { self.new
            ≡ record self.old { journal_failures = self.new.journal_failures } }
    {
        if answer.is_err() {
            self.journal_failures = self.journal_failures.saturating_add(1);
        }
        answer
    }

    /// Keeps that so many bytes were added, or that they weren't.
    fn keep_size(&mut self, count: usize, is_added: bool)
        ensures size { is_added ≡ true → self.old.size + count ≤ 2 ^ 64 - 1
            → self.new.size ≡ self.old.size + count }
        ensures rest { self.new
            ≡ record self.old { size = self.new.size; has_failed = not is_added } }
    {
        self.size = self.size.saturating_add(count as u64);
        self.has_failed = !is_added;
    }
}

/// Adds bytes to the journal of a line, and then to a file that has its bytes.
fn append_to_both<L: Rig, F: GrowingFile>(
    line: &mut L,
    file: &mut F,
    size: u64,
    bytes: &[u8],
) -> Result<(), RigFault>
    ensures line_count { (L.view line.new).line_failures ≡ (L.view line.old).line_failures }
    ensures recorded { RecordsAppend bytes.now result
        (L.view line.old).calls (L.view line.new).calls }
    ensures aside { PutsAside (L.view line.old) (L.view line.new) }
    ensures honest { (L.view line.old).is_honest
        → AppendsHonestly bytes.now result (L.view line.old) (L.view line.new) }
    ensures on_disk { (L.view line.old).is_honest
        → HoldsJournal (L.view line.old).journal size (F.view file.old)
        → OnOk result (IsOnDisk bytes.now size (L.view line.new).journal
        (F.view file.old) (F.view file.new)) }
    ensures crash { (L.view line.old).is_honest
        → HoldsJournal (L.view line.old).journal size (F.view file.old)
        → CrashesAreStopsHere (LeftByAppend bytes.now (L.view line.old))
        (L.view line.old) (L.view line.new) (F.view file.old) (F.view file.new) }
{
    line.append(bytes)?;
    match add_lines(file, size, bytes) {
        Ok(()) => Ok(()),
        Err(_) => Err(RigFault::File),
    }
}

impl<L: Rig + Drop, F: GrowingFile + Drop> Rig for DiskRig<L, F> {
    ghost view = { λ rig. disk_rig_state (disk_of L.view F.view rig) };

    ghost model = { λ rig honest. follows (disk_of L.view F.view rig)
        (L.model rig.line honest.line) };

    ghost places = { λ rig. L.places rig.line };

    fn put(&mut self, byte: u8) -> Result<(), RigFault>
        ensures rig { let view = ⟦<Self as Rig>⟧.view in
            PutsAsRig byte result (view self.old) (view self.new) }
        ensures crash { let disk = disk_of L.view F.view in
            CrashesAreStopsIn (Put byte) (disk self.old) (disk self.new) }
        ensures idle { IdlesOnceFailed self.old self.new }
    {
        if self.has_failed {
            return self.refuse();
        }
        self.line.put(byte)
    }

    fn get(&mut self, patience: Patience) -> Result<Option<u8>, RigFault>
        ensures rig { let view = ⟦<Self as Rig>⟧.view in
            GetsAsRig patience result (view self.old) (view self.new) }
        ensures crash { let disk = disk_of L.view F.view in
            CrashesAreStopsIn (Get None) (disk self.old) (disk self.new) }
        ensures idle { IdlesOnceFailed self.old self.new }
    {
        if self.has_failed {
            return self.refuse();
        }
        self.line.get(patience)
    }

    fn append(&mut self, bytes: &[u8]) -> Result<(), RigFault>
        ensures rig { let view = ⟦<Self as Rig>⟧.view in
            AppendsAsRig bytes.now result (view self.old) (view self.new) }
        ensures crash { let disk = disk_of L.view F.view in
            CrashesAreStopsIn (Append bytes.now) (disk self.old) (disk self.new) }
        ensures idle { IdlesOnceFailed self.old self.new }
        ensures on_disk { (⟦<Self as Rig>⟧.view self.old).is_honest
            → OnOk result (StaysOnDisk bytes.now (F.view self.old.file) (F.view self.new.file)) }
        ensures failed { OnErr result (self.new.has_failed ≡ true) }
    {
        if self.has_failed {
            return self.count_journal(Err(RigFault::File));
        }
        let answer = append_to_both(&mut self.line, &mut self.file, self.size, bytes);
        self.keep_size(bytes.len(), answer.is_ok());
        self.count_journal(answer)
    }

    fn fetch(&mut self, at: u64, buf: &mut [u8]) -> Result<usize, RigFault>
        ensures rig { let view = ⟦<Self as Rig>⟧.view in
            FetchesAsRig at buf.old buf.new result (view self.old) (view self.new) }
        ensures crash { let disk = disk_of L.view F.view in
            CrashesAreStopsIn Fetch (disk self.old) (disk self.new) }
        ensures idle { IdlesOnceFailed self.old self.new }
    {
        if self.has_failed {
            return self.count_journal(Err(RigFault::File));
        }
        let answer = self.line.fetch(at, buf);
        self.count_journal(answer)
    }
}
