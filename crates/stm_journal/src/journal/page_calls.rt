// The calls that keep a page in the newest segment, and say that it is about
// to be erased or written.
ghost use Rattle.std.specs.Prelude.{◌≡◌, ◌<◌, ◌∷◌, [], length, OnOk, IfErr, IsTrue};
ghost use Rattle.stm_wire.specs.Dialogue.{GoesOn};
ghost use Rattle.stm_journal.specs.States.{newest_keeps, newest_may_keep};
ghost use Rattle.stm_journal.specs.Blank.{blank};
ghost use Rattle.stm_journal.specs.Newest.{HasKept, HasIntended};
ghost use Rattle.stm_journal.specs.Journals.{IsLoaded, added_bytes, loaded_after, LeavesLoaded};
ghost use Rattle.stm_journal.specs.Calls.{HasJournalCause, AppendsOnce, Appends, InText};

use crate::{Entry, Intent, Journal, JournalFault, PageBytes};
use stm_wire::Rig;

impl Journal {
    /// Keeps in the newest segment, which is open and lacks it, what page `n`
    /// holds: at least one byte.
    pub fn keep_page<R: Rig>(
        &mut self,
        rig: &mut R,
        n: u16,
        bytes: &[u8],
    ) -> Result<(), JournalFault>
        requires open { IsTrue (newest_may_keep n self.old.state) }
        requires some { 0 < length bytes.now }
        ensures after { OnOk result
            (self.new ≡ loaded_after (Entry.Keeps n bytes.now ∷ []) self.old) }
        ensures kept { OnOk result
            (HasKept n (blank (length bytes.now)) self.old.state self.new.state) }
        ensures left { IfErr result (LeavesLoaded self.old self.new) }
        ensures cause { HasJournalCause (R.view rig.old) (R.view rig.new) result }
        ensures calls { let old = R.view rig.old in let new = R.view rig.new in
            let added = added_bytes self.old.is_torn (Entry.Keeps n bytes.now ∷ []) in
            GoesOn (AppendsOnce added result) old.calls new.calls }
        ensures honest { let old = R.view rig.old in let new = R.view rig.new in
            old.is_honest → IsLoaded self.old old.journal
            → Appends (Entry.Keeps n bytes.now ∷ []) self.old self.new old new result }
        ensures text { let old = R.view rig.old in let new = R.view rig.new in
            old.is_honest → IsLoaded self.old old.journal
            → OnOk result (InText (HasKept n bytes.now) old.journal new.journal) }
    {
        let _depth = self.state.depth();
        let length = PageBytes::new(bytes.len() as u64);
        self.add(rig, Entry::Keeps(n, length), bytes)
    }

    /// Says that page `n`, which the newest segment keeps, is about to be erased.
    pub fn intend_erase<R: Rig>(&mut self, rig: &mut R, n: u16) -> Result<(), JournalFault>
        requires { IsTrue (newest_keeps n self.old.state) }
        ensures after { OnOk result (self.new ≡ loaded_after (Entry.Erases n ∷ []) self.old) }
        ensures intended { OnOk result
            (HasIntended n (Intent.Erase n) self.old.state self.new.state) }
        ensures left { IfErr result (LeavesLoaded self.old self.new) }
        ensures cause { HasJournalCause (R.view rig.old) (R.view rig.new) result }
        ensures calls { let old = R.view rig.old in let new = R.view rig.new in
            let added = added_bytes self.old.is_torn (Entry.Erases n ∷ []) in
            GoesOn (AppendsOnce added result) old.calls new.calls }
        ensures honest { let old = R.view rig.old in let new = R.view rig.new in
            old.is_honest → IsLoaded self.old old.journal
            → Appends (Entry.Erases n ∷ []) self.old self.new old new result }
        ensures text { let old = R.view rig.old in let new = R.view rig.new in
            old.is_honest → IsLoaded self.old old.journal
            → OnOk result (InText (HasIntended n (Intent.Erase n)) old.journal new.journal) }
    {
        let _depth = self.state.depth();
        self.add(rig, Entry::Erases(n), &[])
    }

    /// Says that page `n`, which the newest segment keeps, is about to be written.
    pub fn intend_program<R: Rig>(&mut self, rig: &mut R, n: u16) -> Result<(), JournalFault>
        requires { IsTrue (newest_keeps n self.old.state) }
        ensures after { OnOk result (self.new ≡ loaded_after (Entry.Programs n ∷ []) self.old) }
        ensures intended { OnOk result
            (HasIntended n (Intent.Program n) self.old.state self.new.state) }
        ensures left { IfErr result (LeavesLoaded self.old self.new) }
        ensures cause { HasJournalCause (R.view rig.old) (R.view rig.new) result }
        ensures calls { let old = R.view rig.old in let new = R.view rig.new in
            let added = added_bytes self.old.is_torn (Entry.Programs n ∷ []) in
            GoesOn (AppendsOnce added result) old.calls new.calls }
        ensures honest { let old = R.view rig.old in let new = R.view rig.new in
            old.is_honest → IsLoaded self.old old.journal
            → Appends (Entry.Programs n ∷ []) self.old self.new old new result }
        ensures text { let old = R.view rig.old in let new = R.view rig.new in
            old.is_honest → IsLoaded self.old old.journal
            → OnOk result (InText (HasIntended n (Intent.Program n)) old.journal new.journal) }
    {
        let _depth = self.state.depth();
        self.add(rig, Entry::Programs(n), &[])
    }
}
