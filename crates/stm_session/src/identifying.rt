// Asking a device who it is, whether or not a table has its chip.
ghost use Rattle.std.specs.Prelude.{◌≡◌, Bool, IfErr, IfOk, OnOk, None};
ghost use Rattle.stm_wire.specs.Dialogue.{GoesOn};
ghost use Rattle.stm_wire.specs.Parts.{IsSession};
ghost use Rattle.stm_journal.specs.Calls.{AreFetches};
ghost use Rattle.stm_journal.specs.Journals.{journal_of};
ghost use Rattle.stm_session.specs.Unwritten.{AppendsNothing};
ghost use Rattle.stm_session.specs.Fault.{HasSessionCause};
ghost use Rattle.stm_session.specs.Fresh.{Settles};
ghost use Rattle.stm_session.specs.Moments.{IsSafe};
ghost use Rattle.stm_session.specs.Opening.{TellsItself};
ghost use Rattle.stm_session.specs.Promises.{IdentifyContract};
ghost use Rattle.stm_session.specs.Reaching.{ReachesInOrder, StopsShort};
ghost use Rattle.stm_session.specs.Refusal.{unsent_refusal};
ghost use Rattle.stm_session.specs.Sending.{is_whole, most_calls};

use crate::Fault;
use crate::contact::Told;
use crate::opening::{load_finished, reach};
use std::alloc::Global;
use stm_wire::{Rig, harmless_is_kept};

/// Tells a device's product id, its bootloader's version and the codes of its commands, as it says
/// them itself (AN3155, sections 3.1 and 3.3). No table has to have its chip, and the journal's
/// header may name another one; but the journal has to be finished, so that the bytes that settle
/// the device can do no harm.
pub fn identify<R: Rig>(alloc: Global, rig: &mut R) -> Result<Told, Fault>
    ensures unwritten { let old = R.view rig.old in let new = R.view rig.new in
        GoesOn AppendsNothing old.calls new.calls }
    ensures cause { let old = R.view rig.old in let new = R.view rig.new in
        HasSessionCause old new result }
    ensures puts { let old = R.view rig.old in let new = R.view rig.new in
        GoesOn (IsSession None 0x7F 131072 (is_whole result) (most_calls 0)) old.calls new.calls }
    ensures order { let old = R.view rig.old in let new = R.view rig.new in
        (torn : Bool)
        → IfOk result (λ told. ReachesInOrder (Settles 0x7F 131072) told.id torn old new) }
    ensures stops { let old = R.view rig.old in let new = R.view rig.new in
        (torn : Bool) → StopsShort (Settles 0x7F 131072) torn old new result }
    ensures silent { let old = R.view rig.old in let new = R.view rig.new in
        IfErr result (λ fault. fault ≡ Fault.Unfinished → GoesOn AreFetches old.calls new.calls) }
    ensures kept { let old = R.view rig.old in let new = R.view rig.new in
        old.is_honest → new.journal ≡ old.journal }
    ensures accepted { let old = R.view rig.old in
        old.is_honest → OnOk result (unsent_refusal (journal_of old.journal) ≡ None) }
    ensures told { let old = R.view rig.old in
        old.is_honest → IsSafe old.device → IfOk result (TellsItself old.device) }
    ensures promised { IdentifyContract (R.view rig.old) (R.view rig.new) result }
{
    harmless_is_kept();
    let _journal = load_finished(alloc, rig)?;
    reach(rig)
}
