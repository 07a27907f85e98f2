// The order of calls: a command that changes pages, and undoing it.
ghost use Rattle.std.specs.Prelude.{◌≡◌, ◌<◌, ◌≤◌, ◌+◌, length, false, OnOk, AllPairs, IsTrue};
ghost use Rattle.stm_journal.specs.States.{is_unfinished, newest_is_open};
ghost use Rattle.stm_journal.specs.Newest.{next_page};

use crate::journal::opened;
use crate::verdicts::passes;
use std::alloc::Global;
use std::test::Fail;
use stm_journal::{Journal, JournalFault};
use stm_sim::MemoryRig;
use stm_wire::{Rig, UniqueId};

/// One page of a command is written.
#[tactic(auto, using(stm_journal::specs::lemmas::NewestLaws::newest_may_keep_behind))]
fn write_page<R: Rig>(
    journal: &mut Journal,
    rig: &mut R,
    n: u16,
    held: &[u8],
) -> Result<(), JournalFault>
    requires begun { IsTrue (newest_is_open journal.old.state) }
    requires rising { next_page journal.old.state ≤ n }
    requires some { 0 < length held.now }
    ensures begun { OnOk result (IsTrue (newest_is_open journal.new.state)) }
    ensures next { OnOk result (next_page journal.new.state ≡ n + 1) }
{
    journal.keep_page(rig, n, held)?;
    journal.intend_erase(rig, n)?;
    journal.intend_program(rig, n)
}

/// A command that writes these pages.
pub(super) fn write_pages<R: Rig>(
    journal: &mut Journal,
    rig: &mut R,
    pages: &[u16],
    held: &[u8],
) -> Result<(), JournalFault>
    requires room { length journal.old.state.stack < 65535 }
    requires finished { is_unfinished journal.old.state ≡ false }
    requires rising { AllPairs (λ m n. m < n) pages.now }
    requires some { 0 < length held.now }
    ensures { OnOk result (is_unfinished journal.new.state ≡ false) }
{
    journal.begin(rig, 0x412, &UniqueId::none())?;
    for n in pages {
        write_page(journal, rig, *n, held)?;
    }
    journal.end(rig)
}

/// The newest command is undone.
fn undo_segment<R: Rig>(journal: &mut Journal, rig: &mut R) -> Result<(), JournalFault>
    requires { 0 < length journal.old.state.stack }
    ensures { OnOk result (is_unfinished journal.new.state ≡ false) }
{
    let newest = journal.depth();
    for i in 0..usize::MAX {
        match journal.kept(newest, i) {
            Some((n, _)) => {
                journal.intend_erase(rig, n)?;
                journal.intend_program(rig, n)?;
            }
            None => break,
        }
    }
    journal.undone(rig)
}

/// Whether a command that writes two pages, and then its undo, leave their lines, and no segment.
fn is_written_and_undone(journal: &mut Journal, rig: &mut MemoryRig) -> bool {
    if journal.depth() >= 65535 || journal.is_unfinished() {
        return false;
    }
    let is_written = write_pages(journal, rig, &[2, 5], &[0xFF]) == Ok(())
        && rig.journal().ends_with(
            b"\nopen 1\npage 2 FF\nerase 2\nprogram 2\npage 5 FF\nerase 5\nprogram 5\nend 1\n",
        );
    if !is_written || journal.depth() == 0 {
        return false;
    }
    undo_segment(journal, rig) == Ok(())
        && rig.journal().ends_with(b"\nend 1\nerase 2\nprogram 2\nerase 5\nprogram 5\nundone 1\n")
        && !journal.is_open()
}

/// Whether a command and its undo leave their lines behind a header.
fn is_undone(alloc: Global) -> Result<bool, Fail> {
    let (mut journal, mut rig) = opened(alloc, b"stmjournal 1 0412\n")?;
    Ok(is_written_and_undone(&mut journal, &mut rig))
}

#[test]
fn a_command_and_its_undo(rt: HostRuntime) -> Result<(), Fail> {
    passes(is_undone(rt.alloc())?)
}
