// The chip that a journal names.
ghost use Rattle.std.specs.Prelude.{◌≡◌, false, Some, None, MatchResult, OnOk, IfOk, IfErr};
ghost use Rattle.stm_chip.specs.Document.{IsChipWith};
ghost use Rattle.stm_journal.specs.Fits.{AllFit};
ghost use Rattle.stm_journal.specs.States.{names_other_board};
ghost use Rattle.stm_session.specs.Fault.{IsLaterRefusal};
ghost use Rattle.stm_session.specs.Refusal.{chip_with, table_refusal};
ghost use Rattle.stm_session.specs.Unasked.{begun_refusal, unlisted_refusal};

use crate::Fault;
use crate::check::{check_kept, check_unasked};
use stm_chip::Table;
use stm_journal::Journal;
use stm_wire::Chip;

/// The chip of the table that has this id, where the journal names no other board, and each page
/// that it keeps is one of the chip.
pub fn find_named<'t>(journal: &Journal, table: &'t Table, id: u16) -> Result<&'t Chip, Fault>
    ensures chip { IfOk result (λ chip. IsChipWith table.now id chip.now) }
    ensures fits { IfOk result (λ chip. AllFit chip.now journal.now.state.stack) }
    ensures board { IfOk result
        (λ chip. names_other_board chip.now.unique journal.now.state ≡ false) }
    ensures accepted { OnOk result
        (table_refusal journal.now.state id (chip_with table.now id) ≡ None) }
    ensures named { IfErr result IsLaterRefusal }
    ensures refused { IfErr result
        (λ fault. table_refusal journal.now.state id (chip_with table.now id) ≡ Some fault) }
{
    let Some(chip) = table.find(id) else {
        return Err(Fault::UnknownChip(id));
    };
    check_kept(journal, chip)?;
    Ok(chip)
}

/// The chip of the table that has this id, where the journal may be of a board of it, whichever a
/// device turns out to be.
pub fn find_unasked<'t>(journal: &Journal, table: &'t Table, id: u16) -> Result<&'t Chip, Fault>
    ensures chip { IfOk result (λ chip. IsChipWith table.now id chip.now) }
    ensures named { IfErr result IsLaterRefusal }
    ensures accepted { OnOk result
        (unlisted_refusal journal.now.state id (chip_with table.now id) ≡ None) }
    ensures refused { IfErr result
        (λ fault. unlisted_refusal journal.now.state id (chip_with table.now id) ≡ Some fault) }
{
    let Some(chip) = table.find(id) else {
        return Err(Fault::UnknownChip(id));
    };
    check_unasked(journal, chip)?;
    Ok(chip)
}

/// What an undo by this journal refuses before a byte is sent, whatever board of the table its
/// device turns out to be.
pub fn check_undo(journal: &Journal, table: &Table) -> Result<(), Fault>
    ensures { let s = journal.now.state in MatchResult result
        (λ _. begun_refusal s table.now s.header ≡ None)
        (λ fault. begun_refusal s table.now s.header ≡ Some fault) }
{
    let Some(id) = journal.id() else {
        return Ok(());
    };
    find_unasked(journal, table, id)?;
    Ok(())
}
