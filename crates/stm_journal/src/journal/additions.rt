// What a call adds to a journal: lines that are prepared in memory and then appended at once.
ghost use Rattle.std.specs.Prelude.{◌≡◌, ◌∷◌, [], length, OnOk, IfOk, IfErr, IsTrue};
ghost use Rattle.stm_wire.specs.Dialogue.{GoesOn};
ghost use Rattle.stm_wire.specs.UniqueId.{IsUniqueId};
ghost use Rattle.stm_journal.specs.States.{empty_state, allows};
ghost use Rattle.stm_journal.specs.InMemory.{forget_entry, filled};
ghost use Rattle.stm_journal.specs.Journals.{IsLoaded, IsPrintable, mark, added_bytes, past_mark};
ghost use Rattle.stm_journal.specs.Journals.{loaded_after, LeavesLoaded, first_entries};
ghost use Rattle.stm_journal.specs.Calls.{HasJournalCause, AppendsOnce, Appends, InText};
ghost use Rattle.stm_journal.specs.Newest.{HasBegun};
ghost use Rattle.stm_journal.specs.Added.{HasAdded};

use crate::append::append;
use crate::print::print;
use crate::{Entry, Journal, JournalFault, JournalHeader};
use std::alloc::AllocError;
use stm_wire::{Rig, UniqueId};

impl Journal {
    /// The number of whole lines, where a torn tail is made one.
    fn marked_lines(&self) -> u64
        ensures { result ≡ (past_mark self.now).lines }
    {
        if self.is_torn {
            self.lines.saturating_add(1)
        } else {
            self.lines
        }
    }

    /// The number of bytes, where a torn tail is made a line.
    fn marked_size(&self) -> u64
        ensures { result ≡ (past_mark self.now).size }
    {
        if self.is_torn {
            self.size.saturating_add(2)
        } else {
            self.size
        }
    }

    /// What stands before the lines of an append.
    fn marked_text(&self) -> Result<Vec<u8>, AllocError>
        ensures { IfOk result (λ text. text.items ≡ mark self.now.is_torn) }
    {
        let mut text = Vec::new(self.alloc);
        if self.is_torn {
            text.extend_from_slice(b"!\n")?;
        }
        Ok(text)
    }

    /// Makes it what it is after the line of an entry, and gives the bytes of that line;
    /// `held` are those of a page.
    fn prepare(&mut self, entry: Entry, held: &[u8]) -> Result<Vec<u8>, JournalFault>
        requires allowed { IsTrue (allows self.old.state entry) }
        requires held { forget_entry (filled entry held.now) ≡ entry }
        ensures text { IfOk result
            (λ text. text.items ≡ added_bytes self.old.is_torn (filled entry held.now ∷ [])) }
        ensures after { OnOk result
            (self.new ≡ loaded_after (filled entry held.now ∷ []) self.old) }
        ensures err { IfErr result (λ e. (e ≡ JournalFault.Memory) × (self.new ≡ self.old)) }
    {
        let mut text = self.marked_text()?;
        let marked = text.len();
        print(&mut text, self.alloc, &entry, held)?;
        let line = self.marked_lines().saturating_add(1);
        let size = self.marked_size();
        let length = (text.len() - marked) as u64;
        self.state.mark(self.alloc, &entry);
        self.state
            .apply(self.alloc, line, size.saturating_add(length - 1), entry)?;
        self.lines = line;
        self.size = size.saturating_add(length);
        self.is_torn = false;
        self.is_greeted = false;
        Ok(text)
    }

    /// Makes it what it is after the header and the line of the first segment, and
    /// gives the bytes of these.
    fn prepare_first(&mut self, id: u16, unique: &UniqueId) -> Result<Vec<u8>, JournalFault>
        requires { self.old.state ≡ empty_state }
        ensures text { IfOk result
            (λ text. text.items ≡ added_bytes self.old.is_torn
            (first_entries id unique.now)) }
        ensures after { OnOk result
            (self.new ≡ loaded_after (first_entries id unique.now) self.old) }
        ensures err { IfErr result (λ e. (e ≡ JournalFault.Memory) × (self.new ≡ self.old)) }
    {
        let mut text = self.marked_text()?;
        let marked = text.len();
        let version = if unique.is_none() { 2 } else { 3 };
        let header = Entry::Names(version, id, *unique);
        print(&mut text, self.alloc, &header, &[])?;
        let named = text.len();
        let first = Entry::Opens(1);
        print(&mut text, self.alloc, &first, &[])?;
        let line = self.marked_lines().saturating_add(1);
        let size = self.marked_size().saturating_add((named - marked) as u64);
        self.state.open(
            self.alloc,
            Some(JournalHeader {
                version,
                id,
                unique: *unique,
                line,
            }),
        )?;
        self.lines = line.saturating_add(1);
        self.size = size.saturating_add((text.len() - named) as u64);
        self.is_torn = false;
        self.is_greeted = false;
        Ok(text)
    }

    /// Adds the line of an entry that the line rules allow; `held` are the bytes of a page.
    pub(super) fn add<R: Rig>(
        &mut self,
        rig: &mut R,
        entry: Entry,
        held: &[u8],
    ) -> Result<(), JournalFault>
        requires allowed { IsTrue (allows self.old.state entry) }
        requires held { forget_entry (filled entry held.now) ≡ entry }
        ensures after { OnOk result
            (self.new ≡ loaded_after (filled entry held.now ∷ []) self.old) }
        ensures left { IfErr result (LeavesLoaded self.old self.new) }
        ensures cause { HasJournalCause (R.view rig.old) (R.view rig.new) result }
        ensures calls { let old = R.view rig.old in let new = R.view rig.new in
            let added = added_bytes self.old.is_torn (filled entry held.now ∷ []) in
            GoesOn (AppendsOnce added result) old.calls new.calls }
        ensures honest { let old = R.view rig.old in let new = R.view rig.new in
            old.is_honest → IsLoaded self.old old.journal → IsPrintable (filled entry held.now)
            → Appends (filled entry held.now ∷ []) self.old self.new old new result }
        ensures text { let old = R.view rig.old in let new = R.view rig.new in
            old.is_honest → IsLoaded self.old old.journal → IsPrintable (filled entry held.now)
            → OnOk result (InText (HasAdded (filled entry held.now)) old.journal new.journal) }
    {
        let text = self.prepare(entry, held)?;
        append(rig, &text)
    }

    /// Adds the header and the line of the first segment.
    pub(super) fn add_first<R: Rig>(
        &mut self,
        rig: &mut R,
        id: u16,
        unique: &UniqueId,
    ) -> Result<(), JournalFault>
        requires fresh { self.old.state ≡ empty_state }
        requires told { IsUniqueId unique.now }
        ensures after { OnOk result
            (self.new ≡ loaded_after (first_entries id unique.now) self.old) }
        ensures left { IfErr result (LeavesLoaded self.old self.new) }
        ensures cause { HasJournalCause (R.view rig.old) (R.view rig.new) result }
        ensures calls { let old = R.view rig.old in let new = R.view rig.new in
            let added = added_bytes self.old.is_torn (first_entries id unique.now) in
            GoesOn (AppendsOnce added result) old.calls new.calls }
        ensures honest { let old = R.view rig.old in let new = R.view rig.new in
            old.is_honest → IsLoaded self.old old.journal
            → Appends (first_entries id unique.now) self.old self.new old new result }
        ensures text { (R.view rig.old).is_honest → IsLoaded self.old (R.view rig.old).journal
            → OnOk result (InText (HasBegun id unique.now) (R.view rig.old).journal (R.view rig.new).journal) }
    {
        let text = self.prepare_first(id, unique)?;
        append(rig, &text)
    }
}
