// Reading the journal of a Rig.
ghost use Rattle.std.specs.Prelude.{◌≡◌, ◌⊎◌, ◌+◌, ◌-◌, ◌^◌, ◌<◌, ◌≤◌, ◌∷◌, ◌++◌, [], ℕ, List};
ghost use Rattle.std.specs.Prelude.{Result, ◌==◌, position, OnOk, IfOk, IfErr, length, take};
ghost use Rattle.stm_wire.specs.Dialogue.{GoesOn};
ghost use Rattle.stm_journal.specs.Journals.{Loaded, IsLoaded, capped};
ghost use Rattle.stm_journal.specs.Text.{HasNoLF};
ghost use Rattle.stm_journal.specs.Loading.{IsRead, IsLoadFault, TakesBytes, Fetches};
ghost use Rattle.stm_journal.specs.PageFetching.{Brings};
ghost use Rattle.stm_journal.specs.Calls.{HasJournalCause, AreFetches, IsLoadAnswer, Loads};

use crate::summary::LineSummary;
use crate::{Journal, JournalFault};
use std::alloc::Global;
use stm_wire::Rig;

/// How many bytes are fetched at once.
const BUFFER: usize = 4_096;

/// A journal of which a beginning was read.
#[derive(Drop)]
struct Loader {
    /// What the whole lines come to.
    journal: Journal,
    /// The bytes after the last LF.
    tail: LineSummary,
}

/// Where the first LF stands.
fn first_lf(bytes: &[u8]) -> Option<usize>
    ensures { result ≡ position (λ b. b == 10) bytes.now }
{
    bytes.iter().position(|b| *b == b'\n')
}

impl Loader {
    fn new(alloc: Global) -> Self
        ensures { IsRead result.journal result.tail [] }
    {
        Loader {
            journal: Journal::new(alloc),
            tail: LineSummary::new(alloc),
        }
    }

    /// Takes bytes of a line.
    fn take_part(&mut self, part: &[u8]) -> Result<(), JournalFault>
        ensures size { OnOk result
            (capped self.new.journal.size ≡ capped (self.old.journal.size + length part.now)) }
        ensures answers { IfErr result IsLoadFault }
        ensures takes { (bytes : List ℕ) → IsRead self.old.journal self.old.tail bytes
            → HasNoLF part.now → length bytes + length part.now < 2 ^ 63
            → TakesBytes part.now bytes self.new.journal self.new.tail result }
    {
        self.tail.extend(part)?;
        self.journal.pass_bytes(part.len());
        Ok(())
    }

    /// Takes the LF that ends a line.
    fn take_line(&mut self) -> Result<(), JournalFault>
        ensures size { OnOk result
            (capped self.new.journal.size ≡ capped (self.old.journal.size + 1)) }
        ensures answers { IfErr result IsLoadFault }
        ensures takes { (bytes : List ℕ) → IsRead self.old.journal self.old.tail bytes
            → length bytes < 2 ^ 63
            → TakesBytes (10 ∷ []) bytes self.new.journal self.new.tail result }
    {
        self.journal.pass_line(&self.tail)?;
        self.tail.clear();
        Ok(())
    }

    /// Takes the rest of a line, and the LF that ends it.
    fn take_ended(&mut self, part: &[u8]) -> Result<(), JournalFault>
        ensures size { OnOk result
            (capped self.new.journal.size
            ≡ capped (self.old.journal.size + (length part.now + 1))) }
        ensures answers { IfErr result IsLoadFault }
        ensures takes { (bytes : List ℕ) → IsRead self.old.journal self.old.tail bytes
            → HasNoLF part.now → length bytes + length part.now < 2 ^ 63
            → TakesBytes (part.now ++ 10 ∷ []) bytes self.new.journal self.new.tail result }
    {
        self.take_part(part)?;
        self.take_line()
    }

    /// Takes the next bytes.
    fn take(&mut self, more: &[u8]) -> Result<(), JournalFault>
        ensures size { OnOk result
            (capped self.new.journal.size ≡ capped (self.old.journal.size + length more.now)) }
        ensures answers { IfErr result IsLoadFault }
        ensures takes { (bytes : List ℕ) → IsRead self.old.journal self.old.tail bytes
            → length bytes + length more.now < 2 ^ 63
            → TakesBytes more.now bytes self.new.journal self.new.tail result }
    {
        let mut done = 0usize;
        while let Some(lf) = first_lf(&more[done..]) {
            self.take_ended(&more[done..done + lf])?;
            done += lf + 1;
        }
        self.take_part(&more[done..])
    }

    /// The journal, when all bytes were read.
    fn finish(self) -> Journal
        ensures { (bytes : List ℕ) → IsRead self.journal self.tail bytes → IsLoaded result bytes }
    {
        let mut journal = self.journal;
        journal.set_torn(!self.tail.is_empty());
        journal
    }
}

/// Reads bytes of the journal from a place on, and answers how many.
pub(crate) fn fetch<R: Rig>(rig: &mut R, at: u64, buf: &mut [u8]) -> Result<usize, JournalFault>
    ensures within { IfOk result (λ n. n ≤ length buf.old) }
    ensures last { 2 ^ 63 - 1 ≤ at → IfOk result (λ n. n ≡ 0) }
    ensures cause { HasJournalCause (R.view rig.old) (R.view rig.new) result }
    ensures calls { GoesOn AreFetches (R.view rig.old).calls (R.view rig.new).calls }
    ensures answers { IfErr result (λ e. e ≡ JournalFault.File) }
    ensures told { IfOk result
        (λ n. Brings (take n buf.new) (R.view rig.old).told (R.view rig.new).told) }
    ensures honest { let old = R.view rig.old in let new = R.view rig.new in
        old.is_honest → Fetches at buf.old buf.new old new result }
{
    match rig.fetch(at, buf) {
        Ok(n) => Ok(n),
        Err(_) => Err(JournalFault::File),
    }
}

/// Reads the journal through a buffer.
fn load_by<R: Rig>(alloc: Global, rig: &mut R, buf: &mut [u8]) -> Result<Journal, JournalFault>
    requires some { 0 < length buf.old }
    requires few { length buf.old ≤ 65536 }
    ensures answers { IfErr result IsLoadAnswer }
    ensures cause { HasJournalCause (R.view rig.old) (R.view rig.new) result }
    ensures calls { GoesOn AreFetches (R.view rig.old).calls (R.view rig.new).calls }
    ensures honest { (R.view rig.old).is_honest → Loads (R.view rig.old) (R.view rig.new) result }
{
    let mut loader = Loader::new(alloc);
    loop {
        let n = fetch(rig, loader.journal.size(), buf)?;
        if n == 0 {
            return Ok(loader.finish());
        }
        loader.take(&buf[..n])?;
    }
}

impl Journal {
    /// Reads the journal of a Rig, by `fetch` alone.
    ///
    /// It reads in pieces of 4,096 bytes and keeps no line whole. The answer is the journal,
    /// `File`, `Bad` or `Memory`.
    ///
    /// On an honest Rig the answer is the journal of its bytes, or `Bad` with the number of the
    /// first bad line, where they have one; `Memory` never comes of an empty journal. `File` comes
    /// only where the Rig's count of journal failures rose. Nothing is added, and the device is as
    /// it was, but for owed bytes that a stop may lose.
    pub fn load<R: Rig>(alloc: Global, rig: &mut R) -> Result<Journal, JournalFault>
        ensures answers { IfErr result IsLoadAnswer }
        ensures cause { HasJournalCause (R.view rig.old) (R.view rig.new) result }
        ensures calls { GoesOn AreFetches (R.view rig.old).calls (R.view rig.new).calls }
        ensures honest { let old = R.view rig.old in let new = R.view rig.new in
            old.is_honest → Loads old new result }
    {
        let mut buf = [0u8; BUFFER];
        load_by(alloc, rig, &mut buf)
    }
}
