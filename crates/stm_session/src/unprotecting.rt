// Write Unprotect within a session: a board whose pages are write-protected refuses the erases and
// writes of an undo, so that a session on it could neither go on nor be undone.
ghost use Rattle.std.specs.Prelude.{◌≡◌, ◌≢◌, [], IfErr, OnOk, true};
ghost use Rattle.stm_wire.specs.Dialogue.{GoesOn};
ghost use Rattle.stm_journal.specs.Calls.{AreFetches};
ghost use Rattle.stm_journal.specs.Journals.{journal_of};
ghost use Rattle.stm_session.specs.Fault.{HasSessionCause};
ghost use Rattle.stm_session.specs.Opening.{LoadsUnless};
ghost use Rattle.stm_session.specs.Sending.{is_whole_at};
ghost use Rattle.stm_session.specs.Unprotecting.{IsUnprotected, IsUnprotecting};
ghost use Rattle.stm_session.specs.Unprotecting.{UnprotectContract, bad_refusal};

use crate::Fault;
use crate::contact::connect_fresh;
use crate::laws::a_ready_device_can_begin;
use std::alloc::Global;
use stm_journal::Journal;
use stm_wire::{Protection, Rig, harmless_is_kept, protect};

/// Reads the journal, which may be open and unfinished, but must have no bad line.
fn check_good<R: Rig>(alloc: Global, rig: &mut R) -> Result<(), Fault>
    ensures cause { let old = R.view rig.old in let new = R.view rig.new in
        HasSessionCause old new result }
    ensures calls { let old = R.view rig.old in let new = R.view rig.new in
        GoesOn AreFetches old.calls new.calls }
    ensures honest { let old = R.view rig.old in let new = R.view rig.new in
        old.is_honest → LoadsUnless (bad_refusal (journal_of old.journal)) old new result }
    ensures memory { let old = R.view rig.old in
        old.is_honest → old.journal ≡ [] → IfErr result (λ fault. fault ≢ Fault.Memory) }
{
    let _journal = Journal::load(alloc, rig)?;
    Ok(())
}

/// Takes the write protection off a device that was reset since the last session, also while that
/// session is unfinished: 7F is sent once, and then Write Unprotect (AN3155, section 3.10), behind
/// whose second acknowledgement the device resets itself. The journal must have no bad line, and
/// nothing is added to it. Where another answer than Ok comes, or the call is stopped, the device
/// has to be reset before anything else is sent. All is promised of a device that is fresh from
/// reset; of another one only what is promised on any line.
pub fn unprotect_fresh<R: Rig>(alloc: Global, rig: &mut R) -> Result<(), Fault>
    ensures cause { let old = R.view rig.old in let new = R.view rig.new in
        HasSessionCause old new result }
    ensures puts { let old = R.view rig.old in let new = R.view rig.new in
        GoesOn IsUnprotecting old.calls new.calls }
    ensures sent { let old = R.view rig.old in let new = R.view rig.new in
        OnOk result (GoesOn IsUnprotected old.calls new.calls) }
    ensures silent { let old = R.view rig.old in let new = R.view rig.new in
        IfErr result (λ fault. is_whole_at fault ≡ true → GoesOn AreFetches old.calls new.calls) }
    ensures kept { let old = R.view rig.old in let new = R.view rig.new in
        old.is_honest → new.journal ≡ old.journal }
    ensures promised { UnprotectContract (R.view rig.old) (R.view rig.new) result }
{
    harmless_is_kept();
    a_ready_device_can_begin();
    check_good(alloc, rig)?;
    connect_fresh(rig)?;
    protect(rig, Protection::WriteUnprotect)?;
    Ok(())
}
