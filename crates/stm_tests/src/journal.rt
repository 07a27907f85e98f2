// Journals written by calls in their order, of real size, and over Rigs that bring few bytes at once. What a
// journal's bytes tell is tried by rows (stm_rows).
mod call_order;
mod calls;
mod large;
mod places;

use std::alloc::Global;
use std::test::Fail;
use stm_journal::Journal;
use stm_sim::MemoryRig;
use stm_wire::{Chip, EraseKind};

/// A chip of one page.
fn one_page(alloc: Global) -> Result<Chip, Fail> {
    let sizes = vec![in alloc; 256; 1]?;
    Ok(Chip::new(0x0412, 0x0800_0000, sizes, EraseKind::Page, 0xFF).ok_or("limits")?)
}

/// A Rig with one page of flash, and this journal.
pub(crate) fn rig_with(alloc: Global, bytes: &[u8]) -> Result<MemoryRig, Fail> {
    let flash = vec![in alloc; 0xFF; 256]?;
    let journal = Vec::from_slice(alloc, bytes)?;
    Ok(MemoryRig::new(alloc, one_page(alloc)?, flash, journal).ok_or("length")?)
}

/// The journal that these bytes are, and its Rig.
pub(crate) fn opened(alloc: Global, bytes: &[u8]) -> Result<(Journal, MemoryRig), Fail> {
    let mut rig = rig_with(alloc, bytes)?;
    let journal = Journal::load(alloc, &mut rig)?;
    Ok((journal, rig))
}

/// A segment and a place, and the page there with its line.
pub(crate) type KeptRow = (u32, usize, Option<(u16, u64)>);

/// The first of these rows that is another page.
pub(crate) fn first_kept(journal: &Journal, rows: &[KeptRow]) -> Option<usize> {
    for (row, (segment, place, due)) in rows.iter().enumerate() {
        if journal.kept(*segment, *place) != *due {
            return Some(row);
        }
    }
    None
}
