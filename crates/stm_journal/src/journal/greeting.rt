// The call that adds a greeting: a void line, behind which a byte 7F may be sent.
ghost use Rattle.std.specs.Prelude.{◌≡◌, ℕ, List, OnOk, IfErr, IsTrue};
ghost use Rattle.stm_wire.specs.Dialogue.{GoesOn};
ghost use Rattle.stm_journal.specs.Journals.{IsLoaded, LeavesLoaded};
ghost use Rattle.stm_journal.specs.Calls.{HasJournalCause, AppendsOnce, InText};
ghost use Rattle.stm_journal.specs.Greetings.{greeting_line, may_greet};
ghost use Rattle.stm_journal.specs.GreetingCalls.{allows_greeting, loaded_greeted, AddsGreeting};

use crate::append::append;
use crate::{Journal, JournalFault};
use stm_wire::Rig;

impl Journal {
    /// The last whole line is a greeting: a 7F may have been sent since the line before it.
    pub fn is_greeted(&self) -> bool
        ensures { result ≡ self.now.is_greeted }
    {
        self.is_greeted
    }

    /// A greeting may come: no torn tail stands, and the last whole line isn't one already.
    pub fn may_greet(&self) -> bool
        ensures memory { result ≡ allows_greeting self.now }
        ensures text { (bytes : List ℕ) → IsLoaded self.now bytes → result ≡ may_greet bytes }
    {
        !self.is_torn && !self.is_greeted
    }

    /// Adds a greeting, which counts as nothing, where one may come.
    pub fn greet<R: Rig>(&mut self, rig: &mut R) -> Result<(), JournalFault>
        requires { IsTrue (allows_greeting self.old) }
        ensures after { OnOk result (self.new ≡ loaded_greeted self.old) }
        ensures left { IfErr result (LeavesLoaded self.old self.new) }
        ensures cause { HasJournalCause (R.view rig.old) (R.view rig.new) result }
        ensures calls { let old = R.view rig.old in let new = R.view rig.new in
            GoesOn (AppendsOnce greeting_line result) old.calls new.calls }
        ensures honest { let old = R.view rig.old in let new = R.view rig.new in
            old.is_honest → IsLoaded self.old old.journal → AddsGreeting self.new old new result }
        ensures text { let old = R.view rig.old in let new = R.view rig.new in
            old.is_honest → IsLoaded self.old old.journal
            → OnOk result (InText (λ s s2. s2 ≡ s) old.journal new.journal) }
    {
        append(rig, b"connect!\n")?;
        self.lines = self.lines.saturating_add(1);
        self.size = self.size.saturating_add(9);
        self.is_greeted = true;
        Ok(())
    }
}
