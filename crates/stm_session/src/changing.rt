// Changing a page in a command.
ghost use Rattle.std.specs.Prelude.{◌≡◌, ◌≢◌, ◌<◌, length, not, bytes_eq, true};
ghost use Rattle.std.specs.Prelude.{false, IfOk, OnOk, IsTrue, IfErr};
ghost use Rattle.stm_wire.specs.Chip.{page_count, page_size, page_of, with_page};
ghost use Rattle.stm_journal.specs.States.{newest_keeps, newest_may_keep};
ghost use Rattle.stm_journal.specs.Newest.{KeepsSame};
ghost use Rattle.stm_session.specs.Fault.{HasSessionCause};
ghost use Rattle.stm_session.specs.ChangeOrder.{IsChanged};
ghost use Rattle.stm_session.specs.Undoable.{has_companion};
ghost use Rattle.stm_session.specs.Performs.{Performs};
ghost use Rattle.stm_session.specs.Changing.{HasTurned, change_entries};

use crate::Fault;
use crate::deed::Deed;
use crate::laws_of_steps::step_laws;
use crate::rewriting::rewrite_kept;
use crate::saving::{is_due, left_out, read_companion};
use std::alloc::Global;
use stm_chip::{PagePlan, page_plan};
use stm_journal::Journal;
use stm_wire::{Chip, Rig};

/// Gives page `n`, which was read, these bytes: it is kept first, if it wasn't, and with page 1
/// page 257. One that was kept is given back so. Nothing is done where it holds them. Whether it was
/// changed.
pub fn change_page<R: Rig>(
    alloc: Global,
    rig: &mut R,
    journal: &mut Journal,
    chip: &Chip,
    n: u16,
    held: &[u8],
    page: &[u8],
    kept: bool,
) -> Result<bool, Fault>
    requires exists { n < page_count chip.now }
    requires held { length held.now ≡ page_size chip.now n }
    requires size { length page.now ≡ page_size chip.now n }
    requires kept { kept ≡ true → IsTrue (newest_keeps n journal.old.state) }
    requires may { kept ≡ false → IsTrue (newest_may_keep n journal.old.state) }
    requires companion { kept ≡ false → n ≡ 1 → IsTrue (has_companion chip.now)
        → IsTrue (newest_may_keep 257 journal.old.state) }
    ensures changed { IfOk result (λ changed. changed ≡ not (bytes_eq held.now page.now)) }
    ensures turned { IfOk result
        (λ changed. HasTurned kept changed chip.now n journal.old.state journal.new.state) }
    ensures same { kept ≡ true → OnOk result (KeepsSame journal.old.state journal.new.state) }
    ensures cause { HasSessionCause (R.view rig.old) (R.view rig.new) result }
    ensures named { IfErr result (λ fault. fault ≢ Fault.Unfinished) }
    ensures performs { let old = R.view rig.old in let new = R.view rig.new in
        let made = with_page chip.now n page.now old.device.flash in
        Performs (IsChanged kept chip.now n held.now page.now)
        (change_entries kept chip.now old.device.flash n page.now)
        ((old.device.chip ≡ chip.now) × (held.now ≡ page_of chip.now old.device.flash n))
        (λ _. new.device.flash ≡ made) journal.old journal.new old new result }
{
    step_laws();
    chip.keeps_limits();
    let _size = chip.page_size(n);
    let Ok(plan) = page_plan(alloc, held, page, chip.erased()) else {
        return Err(Fault::Memory);
    };
    match plan {
        PagePlan::Same => Ok(false),
        PagePlan::Erase(frames) => {
            let due = is_due(chip, n, kept);
            let came = read_companion(alloc, rig, chip, due)?;
            let other = came.as_slice();
            let keeps = [Deed::Keep(257, other), Deed::Keep(n, held)];
            let first = &keeps[left_out(due, kept)..];
            rewrite_kept(alloc, rig, journal, chip, first, n, page, &frames)?;
            Ok(true)
        }
    }
}
