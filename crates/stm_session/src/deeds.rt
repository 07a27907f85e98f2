// Deeds, one after another.
ghost use Rattle.std.specs.Prelude.{◌≡◌, ◌≢◌, ◌∷◌, [], OnOk, IfErr};
ghost use Rattle.stm_session.specs.Fault.{HasSessionCause, of_call, of_command};
ghost use Rattle.stm_session.specs.Deeds.{DoesDeeds, HasDone, HasDoneAll, MayDo, MayDoAll};

use crate::Fault;
use crate::deed::Deed;
use crate::laws_of_steps::step_laws;
use stm_journal::{Journal, JournalFault};
use stm_wire::{Chip, Rig, WireFault, erase_page, program};

/// What a call of the journal answered, as a session answers it.
fn said(answer: Result<(), JournalFault>) -> Result<(), Fault>
    ensures { result ≡ of_call answer }
{
    Ok(answer?)
}

/// What a command answered, as a session answers it.
fn sent(answer: Result<(), WireFault>) -> Result<(), Fault>
    ensures { result ≡ of_command answer }
{
    Ok(answer?)
}

/// Does a deed.
fn perform_one<R: Rig>(
    rig: &mut R,
    journal: &mut Journal,
    chip: &Chip,
    deed: &Deed<'_>,
) -> Result<(), Fault>
    requires { MayDo chip.now deed.now journal.old.state }
    ensures done { OnOk result (HasDone deed.now journal.old.state journal.new.state) }
    ensures cause { HasSessionCause (R.view rig.old) (R.view rig.new) result }
    ensures named { IfErr result (λ fault. fault ≢ Fault.Unfinished) }
    ensures does { let old = R.view rig.old in let new = R.view rig.new in
        DoesDeeds chip.now (deed.now ∷ []) journal.old journal.new old new result }
{
    step_laws();
    chip.keeps_limits();
    match *deed {
        Deed::Keep(n, held) => said(journal.keep_page(rig, n, held)),
        Deed::IntendErase(n) => said(journal.intend_erase(rig, n)),
        Deed::IntendProgram(n) => said(journal.intend_program(rig, n)),
        Deed::Erase(n) => sent(erase_page(rig, chip.kind(), n)),
        Deed::Write(n, frame, page) => {
            let from = frame.offset as usize;
            let bytes = &page[from..from + usize::from(frame.length)];
            sent(program(rig, chip.page_start(n) + frame.offset, bytes))
        }
    }
}

/// Does deeds, one after another.
pub fn perform<R: Rig>(
    rig: &mut R,
    journal: &mut Journal,
    chip: &Chip,
    deeds: &[Deed<'_>],
) -> Result<(), Fault>
    requires { MayDoAll chip.now deeds.now journal.old.state }
    ensures done { OnOk result (HasDoneAll deeds.now journal.old.state journal.new.state) }
    ensures cause { HasSessionCause (R.view rig.old) (R.view rig.new) result }
    ensures named { IfErr result (λ fault. fault ≢ Fault.Unfinished) }
    ensures does { let old = R.view rig.old in let new = R.view rig.new in
        DoesDeeds chip.now deeds.now journal.old journal.new old new result }
{
    step_laws();
    for deed in deeds {
        perform_one(rig, journal, chip, deed)?;
    }
    Ok(())
}
