// What is added behind a greeting that nothing answered.
ghost use Rattle.std.specs.Prelude.{◌≡◌, ◌++◌, false, true, OnOk};
ghost use Rattle.stm_wire.specs.Dialogue.{GoesOn};
ghost use Rattle.stm_journal.specs.Calls.{AppendsInPart, AreFetches};
ghost use Rattle.stm_journal.specs.Greetings.{is_greeted};
ghost use Rattle.stm_session.specs.Fault.{HasSessionCause};
ghost use Rattle.stm_session.specs.Greeting.{ReadsFirst};
ghost use Rattle.stm_session.specs.Silence.{silent_line};

use crate::Fault;
use std::alloc::Global;
use stm_journal::Journal;
use stm_wire::Rig;

/// Adds a line to a journal whose last one is a greeting: nothing answered that, nor anything that
/// was sent behind it. It counts as nothing, and behind it another greeting may come. That is for
/// the session alone that greeted, and heard nothing to its end: a device that waited for bytes
/// would have answered.
pub fn tell_silence<R: Rig>(alloc: Global, rig: &mut R) -> Result<(), Fault>
    ensures cause { HasSessionCause (R.view rig.old) (R.view rig.new) result }
    ensures calls { GoesOn (ReadsFirst (AppendsInPart silent_line)) (R.view rig.old).calls
        (R.view rig.new).calls }
    ensures alone { let old = R.view rig.old in let new = R.view rig.new in
        old.is_honest → is_greeted old.journal ≡ false → GoesOn AreFetches old.calls new.calls }
    ensures told { let old = R.view rig.old in let new = R.view rig.new in
        old.is_honest → is_greeted old.journal ≡ true
        → OnOk result (new.journal ≡ old.journal ++ silent_line) }
{
    let journal = Journal::load(alloc, rig)?;
    if !journal.is_greeted() {
        return Ok(());
    }
    match rig.append(b"silent!\n") {
        Ok(()) => Ok(()),
        Err(_) => Err(Fault::Journal),
    }
}
