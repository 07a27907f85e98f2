// A bad line for tests: it answers what it was told to, whatever is sent.
ghost use Rattle.std.specs.Prelude.{◌≡◌, ◌+◌, ◌++◌, ◌∷◌, [], drop};
ghost use Rattle.std.proofs.Common.{refl};
ghost use Rattle.stm_wire.specs.Call.{Put, Fetch};
ghost use Rattle.stm_wire.specs.Rig.{PutsAside, GetsAside, FetchesAside};
ghost use Rattle.stm_wire.specs.Rig.{HasCause, Records, RecordsAppend, Enters};
ghost use Rattle.stm_wire.specs.Rig.{EntersAppend, entry_of_get, PutsHonestly};
ghost use Rattle.stm_wire.specs.Rig.{GetsHonestly};
ghost use Rattle.stm_wire.specs.Rig.{AppendsHonestly, FetchesHonestly, FetchesWithin};
ghost use Rattle.stm_sim.specs.BadLines.{ListData, list_data, list_state, next_reply};
ghost use Rattle.stm_sim.specs.BadLines.{ListsLineCall, ListsJournalCall};
ghost use Rattle.stm_sim.specs.BadLines.{ListsAppend, GetsFromList, FetchesNothing};

use std::alloc::Global;
use std::marker::Model;
use stm_wire::{Patience, Rig, RigCall, RigFault};

/// The answer at a place; quiet past the end.
fn reply_at(replies: &[Option<u8>], place: usize) -> Option<u8>
    ensures { result ≡ next_reply (drop place replies.now) }
{
    if place < replies.len() {
        replies[place]
    } else {
        None
    }
}

/// A line that follows no model: its gets are answered from a list, in order, and are quiet past
/// its end. What is sent to it changes nothing, and its journal has no bytes to read, whatever was
/// added. It keeps a record of all calls, with the bytes of appends; a call for whose entry there
/// is no memory fails and does nothing.
#[derive(Drop)]
pub struct ListRig {
    replies: Vec<Option<u8>>,
    next: usize,
    line_failures: u64,
    journal_failures: u64,
    calls: Vec<RigCall>,
    written: Vec<u8>,
}

impl Model for ListRig {
    ghost Value = { ListData };

    ghost view = { λ r.
        list_data (drop r.next r.replies.items) r.line_failures r.journal_failures r.calls.items
        r.written.items };
}

impl ListRig {
    /// A line with these answers to its gets; None: quiet.
    pub fn new(alloc: Global, replies: Vec<Option<u8>>) -> ListRig
        ensures { result ≡ list_data replies.items 0 0 [] [] }
    {
        ListRig {
            replies,
            next: 0,
            line_failures: 0,
            journal_failures: 0,
            calls: Vec::new(alloc),
            written: Vec::new(alloc),
        }
    }

    /// All calls so far, in order.
    pub fn calls(&self) -> &[RigCall]
        ensures { result.now ≡ self.now.calls }
    {
        &self.calls
    }

    /// Takes the next answer.
    fn take_reply(&mut self) -> Option<u8>
        ensures reply { result ≡ next_reply self.old.replies }
        ensures taken { self.new ≡ record self.old { replies = drop 1 self.old.replies } }
    {
        let reply = reply_at(&self.replies, self.next);
        if self.next < self.replies.len() {
            self.next += 1;
        }
        reply
    }

    /// Enters a call of the line in the record, or counts a failure of the line.
    fn enter_line_call(&mut self, call: RigCall) -> Result<(), RigFault>
        ensures cause { HasCause self.old.line_failures self.new.line_failures result }
        ensures journal_count { self.new.journal_failures ≡ self.old.journal_failures }
        ensures entered { ListsLineCall call result self.old self.new }
    {
        if self.calls.push(call).is_err() {
            self.line_failures = self.line_failures.saturating_add(1);
            return Err(RigFault::Line);
        }
        Ok(())
    }

    /// Enters a call of the journal in the record, or counts a failure of the journal.
    fn enter_journal_call(&mut self, call: RigCall) -> Result<(), RigFault>
        ensures cause { HasCause self.old.journal_failures self.new.journal_failures result }
        ensures line_count { self.new.line_failures ≡ self.old.line_failures }
        ensures entered { ListsJournalCall call result self.old self.new }
    {
        if self.calls.push(call).is_err() {
            self.journal_failures = self.journal_failures.saturating_add(1);
            return Err(RigFault::File);
        }
        Ok(())
    }

    /// Enters an append in the record, and keeps its bytes, or counts a failure of the journal.
    fn enter_append(&mut self, bytes: &[u8]) -> Result<(), RigFault>
        ensures cause { HasCause self.old.journal_failures self.new.journal_failures result }
        ensures line_count { self.new.line_failures ≡ self.old.line_failures }
        ensures entered { ListsAppend bytes.now result self.old self.new }
    {
        if self.calls.reserve(1).is_err() || self.written.extend_from_slice(bytes).is_err() {
            self.journal_failures = self.journal_failures.saturating_add(1);
            return Err(RigFault::File);
        }
        self.calls
            .push_reserved(RigCall::Append(bytes.len() as u64));
        Ok(())
    }

    /// Gives the next answer.
    fn give_reply(&mut self) -> Result<Option<u8>, RigFault>
        ensures cause { HasCause self.old.line_failures self.new.line_failures result }
        ensures journal_count { self.new.journal_failures ≡ self.old.journal_failures }
        ensures given { GetsFromList result self.old self.new }
    {
        let reply = reply_at(&self.replies, self.next);
        self.enter_line_call(RigCall::Get(reply))?;
        Ok(self.take_reply())
    }

    /// Gives no bytes of the journal.
    fn fetch_nothing(&mut self, buf: &mut [u8]) -> Result<usize, RigFault>
        ensures cause { HasCause self.old.journal_failures self.new.journal_failures result }
        ensures line_count { self.new.line_failures ≡ self.old.line_failures }
        ensures given { FetchesNothing buf.old buf.new result self.old self.new }
    {
        self.enter_journal_call(RigCall::Fetch)?;
        Ok(0)
    }
}

impl Rig for ListRig {
    ghost view = { list_state };

    ghost model = { λ rig honest. absurd honest };

    ghost places = { λ rig. refl };

    fn put(&mut self, byte: u8) -> Result<(), RigFault>
        ensures cause { let old = list_state self.old in let new = list_state self.new in
            HasCause old.line_failures new.line_failures result }
        ensures journal_count { let old = list_state self.old in let new = list_state self.new in
            new.journal_failures ≡ old.journal_failures }
        ensures recorded { let old = list_state self.old in let new = list_state self.new in
            Records (Put byte) result old.calls new.calls }
        ensures entered { Enters (Put byte) (list_state self.old) (list_state self.new) }
        ensures aside { PutsAside (list_state self.old) (list_state self.new) }
        ensures honest { let old = list_state self.old in let new = list_state self.new in
            old.is_honest → PutsHonestly byte result old new }
        ensures listed { ListsLineCall (RigCall.Put byte) result self.old self.new }
    {
        self.enter_line_call(RigCall::Put(byte))
    }

    fn get(&mut self, patience: Patience) -> Result<Option<u8>, RigFault>
        ensures cause { let old = list_state self.old in let new = list_state self.new in
            HasCause old.line_failures new.line_failures result }
        ensures journal_count { let old = list_state self.old in let new = list_state self.new in
            new.journal_failures ≡ old.journal_failures }
        ensures recorded { let old = list_state self.old in let new = list_state self.new in
            Records (entry_of_get result) result old.calls new.calls }
        ensures entered { Enters (entry_of_get result) (list_state self.old) (list_state self.new) }
        ensures aside { GetsAside patience (list_state self.old) (list_state self.new) }
        ensures honest { let old = list_state self.old in let new = list_state self.new in
            old.is_honest → GetsHonestly result old new }
        ensures listed { GetsFromList result self.old self.new }
    {
        self.give_reply()
    }

    fn append(&mut self, bytes: &[u8]) -> Result<(), RigFault>
        ensures cause { let old = list_state self.old in let new = list_state self.new in
            HasCause old.journal_failures new.journal_failures result }
        ensures line_count { let old = list_state self.old in let new = list_state self.new in
            new.line_failures ≡ old.line_failures }
        ensures recorded { let old = list_state self.old in let new = list_state self.new in
            RecordsAppend bytes.now result old.calls new.calls }
        ensures entered { EntersAppend bytes.now (list_state self.old) (list_state self.new) }
        ensures aside { PutsAside (list_state self.old) (list_state self.new) }
        ensures honest { let old = list_state self.old in let new = list_state self.new in
            old.is_honest → AppendsHonestly bytes.now result old new }
        ensures listed { ListsAppend bytes.now result self.old self.new }
    {
        self.enter_append(bytes)
    }

    fn fetch(&mut self, at: u64, buf: &mut [u8]) -> Result<usize, RigFault>
        ensures within { FetchesWithin at buf.old buf.new result }
        ensures cause { let old = list_state self.old in let new = list_state self.new in
            HasCause old.journal_failures new.journal_failures result }
        ensures line_count { let old = list_state self.old in let new = list_state self.new in
            new.line_failures ≡ old.line_failures }
        ensures recorded { let old = list_state self.old in let new = list_state self.new in
            Records Fetch result old.calls new.calls }
        ensures entered { Enters Fetch (list_state self.old) (list_state self.new) }
        ensures aside { FetchesAside buf.new result (list_state self.old) (list_state self.new) }
        ensures honest { let old = list_state self.old in let new = list_state self.new in
            old.is_honest → FetchesHonestly at buf.old buf.new result old new }
        ensures listed { FetchesNothing buf.old buf.new result self.old self.new }
    {
        self.fetch_nothing(buf)
    }
}
