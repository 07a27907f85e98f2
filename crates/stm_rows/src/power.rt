// A loss of power behind a stop, with other bytes in the pages at risk.
use crate::stopping::Stop;
use std::alloc::Global;
use stm_journal::Journal;
use stm_sim::MemoryRig;
use stm_wire::Intent;

/// The device loses its power, and this page holds this byte everywhere.
fn lose_page(alloc: Global, rig: &mut MemoryRig, n: u16, byte: u8) -> Result<(), Stop> {
    let chip = rig.chip();
    if n >= chip.pages() {
        return Ok(());
    }
    let page = vec![in alloc; byte; chip.page_size(n) as usize]?;
    rig.lose_power(n, &page);
    Ok(())
}

/// The pages that the newest segment keeps hold this byte everywhere.
fn lose_kept(alloc: Global, rig: &mut MemoryRig, journal: &Journal, byte: u8) -> Result<(), Stop> {
    let newest = journal.depth();
    for i in 0..journal.kept_count(newest) {
        if let Some((n, _)) = journal.kept(newest, i) {
            lose_page(alloc, rig, n, byte)?;
        }
    }
    Ok(())
}

/// The device loses its power, and the pages at risk hold this byte everywhere: the intent's, or
/// all that the unfinished newest segment keeps.
pub fn lose_power(alloc: Global, rig: &mut MemoryRig, byte: u8, all: bool) -> Result<(), Stop> {
    let Ok(journal) = Journal::load(alloc, rig) else {
        return Err(Stop::Words);
    };
    rig.reset();
    if let Some(Intent::Erase(n) | Intent::Program(n)) = journal.last_intent() {
        lose_page(alloc, rig, n, byte)?;
    }
    if all && journal.is_unfinished() {
        lose_kept(alloc, rig, &journal, byte)?;
    }
    Ok(())
}
