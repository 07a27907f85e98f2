// The calls that begin a segment, end it, and say that it was undone.
ghost use Rattle.std.specs.Prelude.{◌≡◌, ◌+◌, ◌<◌, ◌∷◌, [], length, false, OnOk, IfOk, IfErr};
ghost use Rattle.std.specs.Prelude.{IsTrue};
ghost use Rattle.stm_wire.specs.Dialogue.{GoesOn};
ghost use Rattle.stm_journal.specs.States.{is_unfinished, newest_is_open, names_other};
ghost use Rattle.stm_journal.specs.States.{names_other_board, is_other_board, header_board};
ghost use Rattle.stm_journal.specs.Newest.{HasBegun, HasEnded, HasUndone};
ghost use Rattle.stm_journal.specs.Journals.{IsLoaded, added_bytes, loaded_after, begin_entries};
ghost use Rattle.stm_journal.specs.Journals.{LeavesLoaded, LeavesUnbegun};
ghost use Rattle.stm_journal.specs.Calls.{HasJournalCause, AppendsOnce, Appends, InText};

use crate::{Entry, Journal, JournalFault, JournalHeader};
use stm_wire::{Rig, UniqueId};

/// Whether the header names another board than the one with this unique id.
fn is_other_board(header: &JournalHeader, unique: &UniqueId) -> bool
    ensures { result ≡ is_other_board unique.now (header_board header.now) }
{
    header.version == 3 && !header.unique.is(unique)
}

impl Journal {
    /// Begins a segment for the device with this product id and unique id, and answers its number.
    ///
    /// A journal without a header gets one, in the same append: of version 3 where the unique id is
    /// known, and else of version 2. A journal of another device, or of another board, is refused,
    /// and nothing is added. One of version 1 or 2 names no board.
    pub fn begin<R: Rig>(
        &mut self,
        rig: &mut R,
        id: u16,
        unique: &UniqueId,
    ) -> Result<u32, JournalFault>
        requires room { length self.old.state.stack < 65535 }
        requires finished { is_unfinished self.old.state ≡ false }
        ensures number { IfOk result (λ k. k ≡ length self.old.state.stack + 1) }
        ensures device { OnOk result (names_other id self.old.state ≡ false) }
        ensures board { OnOk result (names_other_board unique.now self.old.state ≡ false) }
        ensures after { OnOk result
            (self.new ≡ loaded_after (begin_entries id unique.now self.old.state) self.old) }
        ensures begun { OnOk result (HasBegun id unique.now self.old.state self.new.state) }
        ensures left { IfErr result (LeavesUnbegun id unique.now self.old self.new) }
        ensures cause { HasJournalCause (R.view rig.old) (R.view rig.new) result }
        ensures calls { let old = R.view rig.old in let new = R.view rig.new in
            let added = added_bytes self.old.is_torn
            (begin_entries id unique.now self.old.state) in
            GoesOn (AppendsOnce added result) old.calls new.calls }
        ensures honest { let old = R.view rig.old in let new = R.view rig.new in
            old.is_honest → IsLoaded self.old old.journal
            → Appends (begin_entries id unique.now self.old.state)
            self.old self.new old new result }
        ensures text { (R.view rig.old).is_honest → IsLoaded self.old (R.view rig.old).journal
            → OnOk result (InText (HasBegun id unique.now)
            (R.view rig.old).journal (R.view rig.new).journal) }
    {
        let k = self.state.depth() + 1;
        let _told = unique.as_bytes();
        match self.state.header() {
            Some(header) => {
                if header.id != id {
                    return Err(JournalFault::OtherDevice);
                }
                if is_other_board(&header, unique) {
                    return Err(JournalFault::OtherBoard);
                }
                self.add(rig, Entry::Opens(k as u16), &[])?;
                Ok(k)
            }
            None => {
                self.add_first(rig, id, unique)?;
                Ok(k)
            }
        }
    }

    /// Ends the newest segment, which is open.
    pub fn end<R: Rig>(&mut self, rig: &mut R) -> Result<(), JournalFault>
        requires { IsTrue (newest_is_open self.old.state) }
        ensures after { OnOk result
            (self.new ≡ loaded_after (Entry.Ends (length self.old.state.stack) ∷ []) self.old) }
        ensures ended { OnOk result (HasEnded self.old.state self.new.state) }
        ensures left { IfErr result (LeavesLoaded self.old self.new) }
        ensures cause { HasJournalCause (R.view rig.old) (R.view rig.new) result }
        ensures calls { let old = R.view rig.old in let new = R.view rig.new in
            let line = Entry.Ends (length self.old.state.stack) in
            let added = added_bytes self.old.is_torn (line ∷ []) in
            GoesOn (AppendsOnce added result) old.calls new.calls }
        ensures honest { let old = R.view rig.old in let new = R.view rig.new in
            let line = Entry.Ends (length self.old.state.stack) in
            old.is_honest → IsLoaded self.old old.journal
            → Appends (line ∷ []) self.old self.new old new result }
        ensures text { (R.view rig.old).is_honest → IsLoaded self.old (R.view rig.old).journal
            → OnOk result (InText HasEnded (R.view rig.old).journal (R.view rig.new).journal) }
    {
        let k = self.state.depth();
        self.add(rig, Entry::Ends(k as u16), &[])
    }

    /// Says that the newest segment was undone.
    pub fn undone<R: Rig>(&mut self, rig: &mut R) -> Result<(), JournalFault>
        requires { 0 < length self.old.state.stack }
        ensures after { OnOk result
            (self.new ≡ loaded_after (Entry.Undoes (length self.old.state.stack) ∷ []) self.old) }
        ensures undone { OnOk result (HasUndone self.old.state self.new.state) }
        ensures left { IfErr result (LeavesLoaded self.old self.new) }
        ensures cause { HasJournalCause (R.view rig.old) (R.view rig.new) result }
        ensures calls { let old = R.view rig.old in let new = R.view rig.new in
            let line = Entry.Undoes (length self.old.state.stack) in
            let added = added_bytes self.old.is_torn (line ∷ []) in
            GoesOn (AppendsOnce added result) old.calls new.calls }
        ensures honest { let old = R.view rig.old in let new = R.view rig.new in
            let line = Entry.Undoes (length self.old.state.stack) in
            old.is_honest → IsLoaded self.old old.journal
            → Appends (line ∷ []) self.old self.new old new result }
        ensures text { (R.view rig.old).is_honest → IsLoaded self.old (R.view rig.old).journal
            → OnOk result (InText HasUndone (R.view rig.old).journal (R.view rig.new).journal) }
    {
        let k = self.state.depth();
        self.add(rig, Entry::Undoes(k as u16), &[])
    }
}
