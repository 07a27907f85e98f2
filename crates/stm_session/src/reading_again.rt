// Reading a page again behind its return.
ghost use Rattle.std.specs.Prelude.{◌≡◌, ◌<◌, [], List, ℕ, Bool, ⊤, length, bytes_eq};
ghost use Rattle.std.specs.Prelude.{if◌then◌else◌, OnOk, IsTrue};
ghost use Rattle.stm_wire.specs.Chip.{page_count, page_size, page_of, with_page};
ghost use Rattle.stm_wire.specs.Device.{IsSettled};
ghost use Rattle.stm_wire.specs.Dialogue.{GoesOn};
ghost use Rattle.stm_journal.specs.States.{newest_keeps};
ghost use Rattle.stm_journal.specs.Newest.{KeepsSame};
ghost use Rattle.stm_session.specs.Asking.{Asks};
ghost use Rattle.stm_session.specs.Fault.{HasSessionCause};
ghost use Rattle.stm_session.specs.Lines.{rewrite_entries};
ghost use Rattle.stm_session.specs.Order.{Are, AreReadsOf, Begin, DoesSteps, IsInOrder};
ghost use Rattle.stm_session.specs.Order.{FaultEnds, page_address, page_reads, return_steps};
ghost use Rattle.stm_session.specs.UndoOrder.{OrMisread};
ghost use Rattle.stm_session.specs.Steps.{IsSteady, Goes};

use crate::Fault;
use crate::changing::change_page;
use crate::laws_of_steps::step_laws;
use crate::reading::read_range;
use std::alloc::Global;
use stm_journal::Journal;
use stm_wire::{Chip, Rig};

/// Whether these bytes came of a page that has those.
fn holds(came: &[u8], page: &[u8]) -> bool
    ensures { result ≡ bytes_eq came.now page.now }
{
    came == page
}

/// Reads page `n` again, whole, which was given these bytes. Where others come it is refused.
fn read_again<R: Rig>(
    alloc: Global,
    rig: &mut R,
    chip: &Chip,
    n: u16,
    page: &[u8],
) -> Result<(), Fault>
    requires exists { n < page_count chip.now }
    requires size { length page.now ≡ page_size chip.now n }
    ensures cause { HasSessionCause (R.view rig.old) (R.view rig.new) result }
    // At Ok just its bytes came.
    ensures order { let old = R.view rig.old in let new = R.view rig.new in
        (torn : Bool) → OnOk result
        (GoesOn (IsInOrder torn (page_reads chip.now n page.now)) old.calls new.calls) }
    ensures stops { let old = R.view rig.old in let new = R.view rig.new in
        let Reads = AreReadsOf (page_address chip.now n) (page_size chip.now n) in
        (torn : Bool) → FaultEnds (Begin Reads) torn old new result }
    ensures honest { let old = R.view rig.old in let new = R.view rig.new in
        old.is_honest → IsSettled old.device → old.device.chip ≡ chip.now
        → page_of chip.now old.device.flash n ≡ page.now → Asks old new result (λ _. ⊤) }
{
    chip.keeps_limits();
    let start = chip.page_start(n);
    let size = chip.page_size(n);
    let came = read_range(alloc, rig, chip, start, size)?;
    if !holds(&came, page) {
        return Err(Fault::NotHeld(n));
    }
    Ok(())
}

/// Gives page `n`, which was read and which the newest segment keeps, these bytes; and reads it
/// again behind that, where that is asked for.
pub fn return_page<R: Rig>(
    alloc: Global,
    rig: &mut R,
    journal: &mut Journal,
    chip: &Chip,
    n: u16,
    held: &[u8],
    page: &[u8],
    again: bool,
) -> Result<(), Fault>
    requires exists { n < page_count chip.now }
    requires held { length held.now ≡ page_size chip.now n }
    requires size { length page.now ≡ page_size chip.now n }
    requires kept { IsTrue (newest_keeps n journal.old.state) }
    ensures same { OnOk result (KeepsSame journal.old.state journal.new.state) }
    ensures cause { HasSessionCause (R.view rig.old) (R.view rig.new) result }
    ensures order { let old = R.view rig.old in let new = R.view rig.new in
        let steps = return_steps again chip.now n held.now page.now in
        OnOk result (DoesSteps steps journal.old journal.new old new) }
    ensures stops { let old = R.view rig.old in let new = R.view rig.new in
        let steps = return_steps again chip.now n held.now page.now in
        FaultEnds (OrMisread again chip.now (Begin (Are steps))) journal.old.is_torn old new result }
    ensures honest { let old = R.view rig.old in let new = R.view rig.new in
        (flashes : List (List ℕ)) → IsSteady flashes journal.old old → old.device.chip ≡ chip.now
        → held.now ≡ page_of chip.now old.device.flash n
        → let lines = if bytes_eq held.now page.now then []
        else rewrite_entries chip.now n page.now in
        Goes flashes lines journal.new old new result
        (λ _. new.device.flash ≡ with_page chip.now n page.now old.device.flash) }
{
    step_laws();
    change_page(alloc, rig, journal, chip, n, held, page, true)?;
    if !again {
        return Ok(());
    }
    read_again(alloc, rig, chip, n, page)?;
    Ok(())
}
