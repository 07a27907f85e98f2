// Go and the protections, after which nothing is promised of the device: they are refused
// while the journal is open.
ghost use Rattle.std.specs.Prelude.{◌≡◌, ◌≢◌, [], IfErr, IsTrue, OnOk, Some, None, true};
ghost use Rattle.stm_wire.specs.Chip.{is_inside};
ghost use Rattle.stm_wire.specs.Device.{Gone};
ghost use Rattle.stm_wire.specs.Dialogue.{GoesOn};
ghost use Rattle.stm_wire.specs.Frames.{command, go_frame, go_turns, protect_turns};
ghost use Rattle.stm_wire.specs.Protection.{protection_code};
ghost use Rattle.stm_journal.specs.Calls.{AreFetches, IsUntouched};
ghost use Rattle.stm_journal.specs.Journals.{journal_of};
ghost use Rattle.stm_session.specs.Fault.{HasSessionCause, IsOutsideFault};
ghost use Rattle.stm_session.specs.Leaving.{CanLeave, IsSettledThen, Leaves};
ghost use Rattle.stm_session.specs.Sending.{IsLeaving, is_whole_at};
ghost use Rattle.stm_session.specs.Moments.{IsSafe};
ghost use Rattle.stm_session.specs.Opening.{LoadsUnless};
ghost use Rattle.stm_session.specs.Refusal.{RefusesUnsent, open_refusal};

use crate::Fault;
use crate::contact::settle_safe;
use std::alloc::Global;
use stm_journal::Journal;
use stm_wire::{Protection, Rig, harmless_is_kept};

/// Reads the journal, which must have no segment.
fn check_closed<R: Rig>(alloc: Global, rig: &mut R) -> Result<(), Fault>
    ensures cause { let old = R.view rig.old in let new = R.view rig.new in
        HasSessionCause old new result }
    ensures calls { let old = R.view rig.old in let new = R.view rig.new in
        GoesOn AreFetches old.calls new.calls }
    ensures honest { let old = R.view rig.old in let new = R.view rig.new in
        old.is_honest → LoadsUnless (open_refusal (journal_of old.journal)) old new result }
    ensures memory { let old = R.view rig.old in
        old.is_honest → old.journal ≡ [] → IfErr result (λ fault. fault ≢ Fault.Memory) }
{
    let journal = Journal::load(alloc, rig)?;
    if journal.is_open() {
        return Err(Fault::InSession);
    }
    Ok(())
}

/// Lets the device run what stands at an address. Nothing is promised of the flash afterwards.
pub fn go<R: Rig>(alloc: Global, rig: &mut R, address: u32) -> Result<(), Fault>
    ensures cause { let old = R.view rig.old in let new = R.view rig.new in
        HasSessionCause old new result }
    ensures puts { let old = R.view rig.old in let new = R.view rig.new in
        GoesOn (IsLeaving (go_turns address)) old.calls new.calls }
    ensures sent { let old = R.view rig.old in let new = R.view rig.new in
        OnOk result (GoesOn (IsSettledThen (go_turns address)) old.calls new.calls) }
    ensures silent { let old = R.view rig.old in let new = R.view rig.new in
        IfErr result (λ fault. is_whole_at fault ≡ true → GoesOn AreFetches old.calls new.calls) }
    ensures kept { let old = R.view rig.old in let new = R.view rig.new in
        old.is_honest → new.journal ≡ old.journal }
    ensures refused { let old = R.view rig.old in let new = R.view rig.new in
        old.is_honest → (fault : Fault) → open_refusal (journal_of old.journal) ≡ Some fault
        → RefusesUnsent (IsUntouched old) fault old new result }
    ensures unsent_calls { let old = R.view rig.old in let new = R.view rig.new in
        old.is_honest → (fault : Fault) → open_refusal (journal_of old.journal) ≡ Some fault
        → GoesOn AreFetches old.calls new.calls }
    ensures leaves { let old = R.view rig.old in let new = R.view rig.new in
        old.is_honest → IsSafe old.device → open_refusal (journal_of old.journal) ≡ None
        → Leaves (go_frame address) old new result }
    ensures goes { let old = R.view rig.old in
        old.is_honest → open_refusal (journal_of old.journal) ≡ None
        → CanLeave 0x21 old.device → IsTrue (is_inside old.device.chip address)
        → IfErr result IsOutsideFault }
    ensures gone { let old = R.view rig.old in let new = R.view rig.new in
        old.is_honest → open_refusal (journal_of old.journal) ≡ None
        → CanLeave 0x21 old.device → IsTrue (is_inside old.device.chip address)
        → OnOk result (new.device.phase ≡ Gone) }
    ensures spared { let old = R.view rig.old in
        old.is_honest → old.journal ≡ [] → IfErr result (λ fault. fault ≢ Fault.Memory) }
{
    harmless_is_kept();
    check_closed(alloc, rig)?;
    settle_safe(rig)?; // only a settled device takes the frame for what it is
    stm_wire::go(rig, address)?;
    Ok(())
}

/// Changes a protection. Nothing is promised of the flash and of the device afterwards.
pub fn protect<R: Rig>(alloc: Global, rig: &mut R, kind: Protection) -> Result<(), Fault>
    ensures cause { let old = R.view rig.old in let new = R.view rig.new in
        HasSessionCause old new result }
    ensures puts { let old = R.view rig.old in let new = R.view rig.new in
        GoesOn (IsLeaving (protect_turns (protection_code kind))) old.calls new.calls }
    ensures sent { let old = R.view rig.old in let new = R.view rig.new in
        let turns = protect_turns (protection_code kind) in
        OnOk result (GoesOn (IsSettledThen turns) old.calls new.calls) }
    ensures silent { let old = R.view rig.old in let new = R.view rig.new in
        IfErr result (λ fault. is_whole_at fault ≡ true → GoesOn AreFetches old.calls new.calls) }
    ensures kept { let old = R.view rig.old in let new = R.view rig.new in
        old.is_honest → new.journal ≡ old.journal }
    ensures refused { let old = R.view rig.old in let new = R.view rig.new in
        old.is_honest → (fault : Fault) → open_refusal (journal_of old.journal) ≡ Some fault
        → RefusesUnsent (IsUntouched old) fault old new result }
    ensures unsent_calls { let old = R.view rig.old in let new = R.view rig.new in
        old.is_honest → (fault : Fault) → open_refusal (journal_of old.journal) ≡ Some fault
        → GoesOn AreFetches old.calls new.calls }
    ensures leaves { let old = R.view rig.old in let new = R.view rig.new in
        old.is_honest → IsSafe old.device → open_refusal (journal_of old.journal) ≡ None
        → Leaves (command (protection_code kind)) old new result }
    ensures protects { let old = R.view rig.old in
        old.is_honest → open_refusal (journal_of old.journal) ≡ None
        → CanLeave (protection_code kind) old.device → IfErr result IsOutsideFault }
    ensures spared { let old = R.view rig.old in
        old.is_honest → old.journal ≡ [] → IfErr result (λ fault. fault ≢ Fault.Memory) }
{
    harmless_is_kept();
    check_closed(alloc, rig)?;
    settle_safe(rig)?;
    stm_wire::protect(rig, kind)?;
    Ok(())
}
