// Asking a device what it is.
ghost use Rattle.stm_session.specs.Fresh.{Settles};
ghost use Rattle.std.specs.Prelude.{◌≡◌, Bool, IfErr, IfOk, None};
ghost use Rattle.stm_wire.specs.Dialogue.{GoesOn};
ghost use Rattle.stm_wire.specs.Parts.{IsSession};
ghost use Rattle.stm_journal.specs.Calls.{AreFetches};
ghost use Rattle.stm_session.specs.Unwritten.{AppendsNothing};
ghost use Rattle.stm_session.specs.Fault.{HasSessionCause};
ghost use Rattle.stm_session.specs.Reaching.{ReachesInOrder, StopsShort};
ghost use Rattle.stm_session.specs.Sending.{is_whole, most_calls};
ghost use Rattle.stm_session.specs.Information.{Describes};
ghost use Rattle.stm_session.specs.Promises.{InfoContract};

use crate::opening::open;
use crate::{Fault, Info};
use std::alloc::Global;
use stm_chip::Table;
use stm_wire::Rig;

/// Tells what the device is.
pub fn info<R: Rig>(alloc: Global, rig: &mut R, table: &Table) -> Result<Info, Fault>
    ensures unwritten { let old = R.view rig.old in let new = R.view rig.new in
        GoesOn AppendsNothing old.calls new.calls }
    ensures cause { let old = R.view rig.old in let new = R.view rig.new in
        HasSessionCause old new result }
    ensures puts { let old = R.view rig.old in let new = R.view rig.new in
        GoesOn (IsSession None 0x7F 131072 (is_whole result) (most_calls 0)) old.calls new.calls }
    ensures order { let old = R.view rig.old in let new = R.view rig.new in
        (torn : Bool)
        → IfOk result (λ info. ReachesInOrder (Settles 0x7F 131072) info.id torn old new) }
    ensures stops { let old = R.view rig.old in let new = R.view rig.new in
        (torn : Bool) → StopsShort (Settles 0x7F 131072) torn old new result }
    ensures kept { let old = R.view rig.old in let new = R.view rig.new in
        old.is_honest → new.journal ≡ old.journal }
    ensures told { IfOk result (Describes table.now) }
    ensures silent { let old = R.view rig.old in let new = R.view rig.new in
        IfErr result (λ fault. fault ≡ Fault.Unfinished → GoesOn AreFetches old.calls new.calls) }
    ensures promised { InfoContract table.now (R.view rig.old) (R.view rig.new) result }
{
    let opened = open(alloc, rig, table)?;
    Ok(Info {
        id: opened.chip.id(),
        base: opened.chip.base(),
        pages: opened.chip.pages(),
        size: opened.chip.flash_size(),
        kind: opened.chip.kind(),
        erased: opened.chip.erased(),
        commands: opened.commands,
    })
}
