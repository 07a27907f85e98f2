// How a session begins: the journal is loaded, the device is reached, and both must fit
// the table and each other.
ghost use Rattle.stm_session.specs.Fresh.{contact_way};
ghost use Rattle.std.specs.Prelude.{◌≡◌, ◌≢◌, [], IfOk, IfErr, OnOk, Some, None, false, not, Bool};
ghost use Rattle.stm_wire.specs.Dialogue.{GoesOn};
ghost use Rattle.stm_wire.specs.Parts.{IsSession};
ghost use Rattle.stm_journal.specs.Calls.{AreFetches, IsUntouched};
ghost use Rattle.stm_chip.specs.Document.{IsChipWith};
ghost use Rattle.stm_journal.specs.Journals.{IsLoaded, journal_of};
ghost use Rattle.stm_journal.specs.States.{is_unfinished, names_other};
ghost use Rattle.stm_session.specs.Unwritten.{AppendsNothing};
ghost use Rattle.stm_session.specs.Fault.{HasSessionCause, IsOfLine, IsLaterRefusal};
ghost use Rattle.stm_session.specs.Moments.{BeginsNothing, IsSafe};
ghost use Rattle.stm_session.specs.Refusal.{RefusesUnsent, device_refusals, first_refusal};
ghost use Rattle.stm_session.specs.Refusal.{misfit_refusal, unsent_refusal};
ghost use Rattle.stm_session.specs.Reaching.{ReachesInOrder, StopsShort};
ghost use Rattle.stm_session.specs.Sending.{is_whole, most_calls};
ghost use Rattle.stm_session.specs.Opening.{IsCoherent, LoadsUnless, Opens, TellsItself};

use crate::Fault;
use crate::check::check_kept;
use crate::contact::{Told, ask, settle_safe};
use std::alloc::Global;
use stm_chip::Table;
use stm_journal::Journal;
use stm_wire::{Chip, Commands, Rig, harmless_is_kept};

/// A session whose device is settled and known.
#[derive(Drop)]
pub struct Opened<'t> {
    pub journal: Journal,
    pub chip: &'t Chip,
    pub commands: Commands,
}

/// Reads the journal, which must be finished.
pub fn load_finished<R: Rig>(alloc: Global, rig: &mut R) -> Result<Journal, Fault>
    ensures cause { let old = R.view rig.old in let new = R.view rig.new in
        HasSessionCause old new result }
    ensures calls { let old = R.view rig.old in let new = R.view rig.new in
        GoesOn AreFetches old.calls new.calls }
    ensures finished { IfOk result (λ journal. is_unfinished journal.state ≡ false) }
    ensures honest { let old = R.view rig.old in let new = R.view rig.new in
        old.is_honest → LoadsUnless (unsent_refusal (journal_of old.journal)) old new result }
    ensures loaded { let old = R.view rig.old in
        old.is_honest → IfOk result (λ journal. IsLoaded journal old.journal) }
    ensures memory { let old = R.view rig.old in
        old.is_honest → old.journal ≡ [] → IfErr result (λ fault. fault ≢ Fault.Memory) }
{
    let journal = Journal::load(alloc, rig)?;
    if journal.is_unfinished() {
        return Err(Fault::Unfinished);
    }
    Ok(journal)
}

/// Settles a device with 7F, and asks who it is.
pub fn reach<R: Rig>(rig: &mut R) -> Result<Told, Fault>
    ensures unwritten { let old = R.view rig.old in let new = R.view rig.new in
        GoesOn AppendsNothing old.calls new.calls }
    ensures cause { let old = R.view rig.old in let new = R.view rig.new in
        HasSessionCause old new result }
    ensures puts { let old = R.view rig.old in let new = R.view rig.new in
        GoesOn (IsSession None 0x7F 131072 (is_whole result) (most_calls 0)) old.calls new.calls }
    ensures order { let old = R.view rig.old in let new = R.view rig.new in
        (torn : Bool)
        → IfOk result (λ told. ReachesInOrder contact_way told.id torn old new) }
    ensures stops { let old = R.view rig.old in let new = R.view rig.new in
        (torn : Bool) → StopsShort contact_way torn old new result }
    ensures sent { IfErr result IsOfLine }
    ensures kept { let old = R.view rig.old in let new = R.view rig.new in
        old.is_honest → new.journal ≡ old.journal }
    ensures honest { let old = R.view rig.old in let new = R.view rig.new in
        old.is_honest → IsSafe old.device → BeginsNothing old new result (TellsItself old.device) }
{
    settle_safe(rig)?;
    ask(rig)
}

/// Whether the journal may be that of a device with this id: its header names it, or it has none.
fn is_of(journal: &Journal, id: u16) -> bool
    ensures { result ≡ not (names_other id journal.now.state) }
{
    match journal.id() {
        Some(own) => own == id,
        None => true,
    }
}

/// The chip of the table that has this id. A journal that is of another device, or keeps a page
/// that isn't one of the chip, is refused.
fn find_chip<'t>(journal: &Journal, table: &'t Table, id: u16) -> Result<&'t Chip, Fault>
    ensures chip { IfOk result (λ chip. IsChipWith table.now chip.now.id chip.now) }
    ensures id { IfOk result (λ chip. chip.now.id ≡ id) }
    ensures fits { IfOk result (λ chip. misfit_refusal chip.now journal.now.state ≡ None) }
    ensures accepted { OnOk result
        (first_refusal (device_refusals journal.now.state id table.now) ≡ None) }
    ensures refused { IfErr result
        (λ fault. first_refusal (device_refusals journal.now.state id table.now) ≡ Some fault) }
    ensures named { IfErr result IsLaterRefusal }
{
    if !is_of(journal, id) {
        return Err(Fault::OtherDevice);
    }
    let Some(chip) = table.find(id) else {
        return Err(Fault::UnknownChip(id));
    };
    check_kept(journal, chip)?;
    Ok(chip)
}

/// Loads the journal, which must be finished; settles the device with 7F; and asks who it is. The
/// journal must be of that device, the table must have its chip, and each page that the journal
/// keeps must be one of that chip.
pub fn open<'t, R: Rig>(alloc: Global, rig: &mut R, table: &'t Table) -> Result<Opened<'t>, Fault>
    ensures unwritten { let old = R.view rig.old in let new = R.view rig.new in
        GoesOn AppendsNothing old.calls new.calls }
    ensures cause { let old = R.view rig.old in let new = R.view rig.new in
        HasSessionCause old new result }
    ensures puts { let old = R.view rig.old in let new = R.view rig.new in
        GoesOn (IsSession None 0x7F 131072 (is_whole result) (most_calls 0)) old.calls new.calls }
    ensures order { let old = R.view rig.old in let new = R.view rig.new in
        (torn : Bool)
        → IfOk result
        (λ opened. ReachesInOrder contact_way opened.chip.now.id torn old new) }
    ensures stops { let old = R.view rig.old in let new = R.view rig.new in
        (torn : Bool) → StopsShort contact_way torn old new result }
    ensures loaded { let old = R.view rig.old in
        old.is_honest → IfOk result (λ opened. IsLoaded opened.journal old.journal) }
    ensures coherent { IfOk result (IsCoherent table.now) }
    ensures silent { let old = R.view rig.old in let new = R.view rig.new in
        IfErr result (λ fault. fault ≡ Fault.Unfinished → GoesOn AreFetches old.calls new.calls) }
    ensures unsent { let old = R.view rig.old in let new = R.view rig.new in
        old.is_honest → (fault : Fault) → unsent_refusal (journal_of old.journal) ≡ Some fault
        → RefusesUnsent (IsUntouched old) fault old new result }
    ensures unsent_calls { let old = R.view rig.old in let new = R.view rig.new in
        old.is_honest → (fault : Fault) → unsent_refusal (journal_of old.journal) ≡ Some fault
        → GoesOn AreFetches old.calls new.calls }
    ensures kept { let old = R.view rig.old in let new = R.view rig.new in
        old.is_honest → new.journal ≡ old.journal }
    ensures honest { let old = R.view rig.old in let new = R.view rig.new in
        old.is_honest → IsSafe old.device
        → Opens table.now old new result }
    ensures memory { let old = R.view rig.old in
        old.is_honest → old.journal ≡ [] → IfErr result (λ fault. fault ≢ Fault.Memory) }
{
    harmless_is_kept();
    let journal = load_finished(alloc, rig)?;
    let told = reach(rig)?;
    let chip = find_chip(&journal, table, told.id)?;
    Ok(Opened {
        journal,
        chip,
        commands: told.commands,
    })
}
