// What is kept before a page changes.
ghost use Rattle.std.specs.Prelude.{◌≡◌, ◌≢◌, ◌<◌, ◌==◌, ◌&&◌, not, if◌then◌else◌, true, IfErr, true};
ghost use Rattle.stm_wire.specs.Chip.{page_count};
ghost use Rattle.stm_journal.specs.Journals.{Loaded};
ghost use Rattle.stm_session.specs.Fault.{HasSessionCause};
ghost use Rattle.stm_session.specs.Undoable.{has_companion};
ghost use Rattle.stm_session.specs.Changing.{ReadsIf};

use crate::Fault;
use crate::laws_of_steps::step_laws;
use crate::reading::read_range;
use std::alloc::Global;
use stm_wire::{Chip, Rig};

/// Whether page 257 has to be kept before page `n` is, which was kept or wasn't.
pub fn is_due(chip: &Chip, n: u16, kept: bool) -> bool
    ensures { result ≡ (not kept && (n == 1 && has_companion chip.now)) }
{
    !kept && n == 1 && 257 < chip.pages()
}

/// How many of both pages needn't be kept.
pub fn left_out(due: bool, kept: bool) -> usize
    ensures { result ≡ (if due then 0 else (if kept then 2 else 1)) }
{
    if due {
        return 0;
    }
    if kept { 2 } else { 1 }
}

/// Reads page 257, where that is due; otherwise no byte.
pub fn read_companion<R: Rig>(
    alloc: Global,
    rig: &mut R,
    chip: &Chip,
    due: bool,
) -> Result<Vec<u8>, Fault>
    requires { due ≡ true → 257 < page_count chip.now }
    ensures cause { HasSessionCause (R.view rig.old) (R.view rig.new) result }
    ensures named { IfErr result (λ fault. fault ≢ Fault.Unfinished) }
    ensures reads { let old = R.view rig.old in let new = R.view rig.new in
        (l : Loaded) → ReadsIf due chip.now 257 l old new result }
{
    step_laws();
    chip.keeps_limits();
    if !due {
        return Ok(Vec::new(alloc));
    }
    let start = chip.page_start(257);
    let size = chip.page_size(257);
    read_range(alloc, rig, chip, start, size)
}
