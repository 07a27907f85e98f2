// A bad line for tests: a Rig in memory of whose bytes one comes complemented.
ghost use Rattle.std.specs.Prelude.{◌≡◌, ◌≤◌, ◌-◌, ◌==◌, ◌++◌, ◌∷◌, [], if◌then◌else◌};
ghost use Rattle.std.proofs.Common.{refl};
ghost use Rattle.stm_wire.specs.Call.{Put, Fetch};
ghost use Rattle.stm_wire.specs.Exchange.{complement};
ghost use Rattle.stm_wire.specs.Rig.{PutsAside, GetsAside, FetchesAside};
ghost use Rattle.stm_wire.specs.Rig.{HasCause, Rises, Records, RecordsAppend};
ghost use Rattle.stm_wire.specs.Rig.{Enters, EntersAppend, entry_of_get, PutsHonestly};
ghost use Rattle.stm_wire.specs.Rig.{GetsHonestly, AppendsHonestly, FetchesHonestly, FetchesWithin};
ghost use Rattle.stm_sim.specs.BadLines.{FlipData, flip_data, flip_state, given_for};
ghost use Rattle.stm_sim.specs.BadLines.{flips_after, counts_line_of, counts_journal_of};
ghost use Rattle.stm_sim.specs.BadLines.{PutsOn, GetsOn, AppendsOn, FetchesOn};

use crate::MemoryRig;
use std::alloc::Global;
use std::marker::Model;
use stm_wire::{Patience, Rig, RigCall, RigFault};

/// What is given in the place of an answer, with the `flips`th byte to come complemented.
fn give(flips: &mut u64, answer: Option<u8>) -> Option<u8>
    ensures given { result ≡ given_for flips.old answer }
    ensures counted { flips.new ≡ flips_after flips.old answer }
{
    let byte = answer?;
    let is_due = *flips == 1;
    *flips = flips.saturating_sub(1);
    Some(if is_due { !byte } else { byte })
}

/// A line that follows no model: it hands all calls on to a Rig in memory, and complements one of
/// the bytes that come. It keeps a record of all calls, with the bytes that it gave; a call for
/// whose entry there is no memory fails, does nothing and isn't handed on.
#[derive(Drop)]
pub struct FlipRig {
    inner: MemoryRig,
    flips: u64,
    line_failures: u64,
    journal_failures: u64,
    calls: Vec<RigCall>,
}

impl Model for FlipRig {
    ghost Value = { FlipData };

    ghost view = { λ r.
        flip_data r.inner r.flips r.line_failures r.journal_failures r.calls.items };
}

impl FlipRig {
    /// A line to this Rig, on which the `j`th byte to come is complemented, counted from 1; 0:
    /// none.
    pub fn new(alloc: Global, inner: MemoryRig, j: u64) -> FlipRig
        ensures { result ≡ flip_data inner j 0 0 [] }
    {
        FlipRig {
            inner,
            flips: j,
            line_failures: 0,
            journal_failures: 0,
            calls: Vec::new(alloc),
        }
    }

    /// All calls so far, in order, with the bytes that this line gave.
    pub fn calls(&self) -> &[RigCall]
        ensures { result.now ≡ self.now.calls }
    {
        &self.calls
    }

    /// Counts a failure of the line.
    fn count_line(&mut self)
        ensures counted { self.new ≡ counts_line_of self.old }
        ensures risen { Rises self.old.line_failures self.new.line_failures }
        ensures later { self.old.line_failures ≤ self.new.line_failures }
    {
        self.line_failures = self.line_failures.saturating_add(1);
    }

    /// Counts a failure of the journal.
    fn count_journal(&mut self)
        ensures counted { self.new ≡ counts_journal_of self.old }
        ensures risen { Rises self.old.journal_failures self.new.journal_failures }
        ensures later { self.old.journal_failures ≤ self.new.journal_failures }
    {
        self.journal_failures = self.journal_failures.saturating_add(1);
    }

    /// Puts a byte on the inner Rig.
    fn hand_put_on(&mut self, byte: u8) -> Result<(), RigFault>
        ensures cause { HasCause self.old.line_failures self.new.line_failures result }
        ensures journal_count { self.new.journal_failures ≡ self.old.journal_failures }
        ensures handed_on { PutsOn byte result self.old self.new }
    {
        if self.calls.reserve(1).is_err() {
            self.count_line();
            return Err(RigFault::Line);
        }
        let answer = self.inner.put(byte);
        self.calls.push_reserved(RigCall::Put(byte));
        if answer.is_err() {
            self.count_line();
        }
        answer
    }

    /// Gives a byte of the inner Rig.
    fn hand_get_on(&mut self, patience: Patience) -> Result<Option<u8>, RigFault>
        ensures cause { HasCause self.old.line_failures self.new.line_failures result }
        ensures journal_count { self.new.journal_failures ≡ self.old.journal_failures }
        ensures handed_on { GetsOn result self.old self.new }
    {
        if self.calls.reserve(1).is_err() {
            self.count_line();
            return Err(RigFault::Line);
        }
        match self.inner.get(patience) {
            Ok(answer) => {
                let given = give(&mut self.flips, answer);
                self.calls.push_reserved(RigCall::Get(given));
                Ok(given)
            }
            Err(fault) => {
                self.calls.push_reserved(RigCall::Get(None));
                self.count_line();
                Err(fault)
            }
        }
    }

    /// Appends to the journal of the inner Rig.
    fn hand_append_on(&mut self, bytes: &[u8]) -> Result<(), RigFault>
        ensures cause { HasCause self.old.journal_failures self.new.journal_failures result }
        ensures line_count { self.new.line_failures ≡ self.old.line_failures }
        ensures handed_on { AppendsOn bytes.now result self.old self.new }
    {
        if self.calls.reserve(1).is_err() {
            self.count_journal();
            return Err(RigFault::File);
        }
        let before = self.inner.journal().len();
        let answer = self.inner.append(bytes);
        let added = self.inner.journal().len().saturating_sub(before);
        self.calls.push_reserved(RigCall::Append(added as u64));
        if answer.is_err() {
            self.count_journal();
        }
        answer
    }

    /// Fetches from the journal of the inner Rig.
    fn hand_fetch_on(&mut self, at: u64, buf: &mut [u8]) -> Result<usize, RigFault>
        ensures within { FetchesWithin at buf.old buf.new result }
        ensures cause { HasCause self.old.journal_failures self.new.journal_failures result }
        ensures line_count { self.new.line_failures ≡ self.old.line_failures }
        ensures handed_on { FetchesOn at buf.old buf.new result self.old self.new }
    {
        if self.calls.reserve(1).is_err() {
            self.count_journal();
            return Err(RigFault::File);
        }
        let answer = self.inner.fetch(at, buf);
        self.calls.push_reserved(RigCall::Fetch);
        if answer.is_err() {
            self.count_journal();
        }
        answer
    }
}

impl Rig for FlipRig {
    ghost view = { flip_state };

    ghost model = { λ rig honest. absurd honest };

    ghost places = { λ rig. refl };

    fn put(&mut self, byte: u8) -> Result<(), RigFault>
        ensures cause { let old = flip_state self.old in let new = flip_state self.new in
            HasCause old.line_failures new.line_failures result }
        ensures journal_count { let old = flip_state self.old in let new = flip_state self.new in
            new.journal_failures ≡ old.journal_failures }
        ensures recorded { let old = flip_state self.old in let new = flip_state self.new in
            Records (Put byte) result old.calls new.calls }
        ensures entered { Enters (Put byte) (flip_state self.old) (flip_state self.new) }
        ensures aside { PutsAside (flip_state self.old) (flip_state self.new) }
        ensures honest { let old = flip_state self.old in let new = flip_state self.new in
            old.is_honest → PutsHonestly byte result old new }
        ensures handed_on { PutsOn byte result self.old self.new }
    {
        self.hand_put_on(byte)
    }

    fn get(&mut self, patience: Patience) -> Result<Option<u8>, RigFault>
        ensures cause { let old = flip_state self.old in let new = flip_state self.new in
            HasCause old.line_failures new.line_failures result }
        ensures journal_count { let old = flip_state self.old in let new = flip_state self.new in
            new.journal_failures ≡ old.journal_failures }
        ensures recorded { let old = flip_state self.old in let new = flip_state self.new in
            Records (entry_of_get result) result old.calls new.calls }
        ensures entered { Enters (entry_of_get result) (flip_state self.old) (flip_state self.new) }
        ensures aside { GetsAside patience (flip_state self.old) (flip_state self.new) }
        ensures honest { let old = flip_state self.old in let new = flip_state self.new in
            old.is_honest → GetsHonestly result old new }
        ensures handed_on { GetsOn result self.old self.new }
    {
        self.hand_get_on(patience)
    }

    fn append(&mut self, bytes: &[u8]) -> Result<(), RigFault>
        ensures cause { let old = flip_state self.old in let new = flip_state self.new in
            HasCause old.journal_failures new.journal_failures result }
        ensures line_count { let old = flip_state self.old in let new = flip_state self.new in
            new.line_failures ≡ old.line_failures }
        ensures recorded { let old = flip_state self.old in let new = flip_state self.new in
            RecordsAppend bytes.now result old.calls new.calls }
        ensures entered { EntersAppend bytes.now (flip_state self.old) (flip_state self.new) }
        ensures aside { PutsAside (flip_state self.old) (flip_state self.new) }
        ensures honest { let old = flip_state self.old in let new = flip_state self.new in
            old.is_honest → AppendsHonestly bytes.now result old new }
        ensures handed_on { AppendsOn bytes.now result self.old self.new }
    {
        self.hand_append_on(bytes)
    }

    fn fetch(&mut self, at: u64, buf: &mut [u8]) -> Result<usize, RigFault>
        ensures within { FetchesWithin at buf.old buf.new result }
        ensures cause { let old = flip_state self.old in let new = flip_state self.new in
            HasCause old.journal_failures new.journal_failures result }
        ensures line_count { let old = flip_state self.old in let new = flip_state self.new in
            new.line_failures ≡ old.line_failures }
        ensures recorded { let old = flip_state self.old in let new = flip_state self.new in
            Records Fetch result old.calls new.calls }
        ensures entered { Enters Fetch (flip_state self.old) (flip_state self.new) }
        ensures aside { FetchesAside buf.new result (flip_state self.old) (flip_state self.new) }
        ensures honest { let old = flip_state self.old in let new = flip_state self.new in
            old.is_honest → FetchesHonestly at buf.old buf.new result old new }
        ensures handed_on { FetchesOn at buf.old buf.new result self.old self.new }
    {
        self.hand_fetch_on(at, buf)
    }
}
