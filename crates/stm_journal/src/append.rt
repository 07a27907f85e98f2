// Bytes added to the journal of a Rig.
ghost use Rattle.std.specs.Prelude.{◌≡◌, IfErr};
ghost use Rattle.stm_wire.specs.Dialogue.{GoesOn};
ghost use Rattle.stm_journal.specs.Calls.{HasJournalCause, AppendsOnce, AddsBytes};

use crate::JournalFault;
use stm_wire::Rig;

/// Adds the bytes in one append.
pub(crate) fn append<R: Rig>(rig: &mut R, bytes: &[u8]) -> Result<(), JournalFault>
    ensures cause { HasJournalCause (R.view rig.old) (R.view rig.new) result }
    ensures calls { let old = R.view rig.old in let new = R.view rig.new in
        GoesOn (AppendsOnce bytes.now result) old.calls new.calls }
    ensures answers { IfErr result (λ e. e ≡ JournalFault.File) }
    ensures honest { let old = R.view rig.old in let new = R.view rig.new in
        old.is_honest → AddsBytes bytes.now old new result }
{
    match rig.append(bytes) {
        Ok(()) => Ok(()),
        Err(_) => Err(JournalFault::File),
    }
}
