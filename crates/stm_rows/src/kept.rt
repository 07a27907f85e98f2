// The flash at the start of the oldest segment, as the journal keeps it.
use crate::stopping::Stop;
use std::alloc::Global;
use stm_journal::Journal;
use stm_sim::MemoryRig;

/// Lays these bytes over a flash, from a place on.
fn lay(bytes: &[u8], first: usize, flash: &mut [u8]) {
    for (at, byte) in bytes.iter().enumerate() {
        if let Some(cell) = flash.get_mut(first.saturating_add(at)) {
            *cell = *byte;
        }
    }
}

/// Lays the page that stands in this place of the journal over a flash of pages of one size.
fn lay_page(
    alloc: Global,
    rig: &mut MemoryRig,
    journal: &Journal,
    (segment, i): (u32, usize),
    flash: &mut [u8],
) -> Result<(), Stop> {
    let place = journal.kept_place(segment, i).ok_or(Stop::Words)?;
    let (n, _) = journal.kept(segment, i).ok_or(Stop::Words)?;
    let size = place.length as usize;
    let mut held = vec![in alloc; 0_u8; size]?;
    if journal.fetch_page(rig, place, &mut held).is_err() {
        return Err(Stop::Words);
    }
    lay(&held, size.saturating_mul(usize::from(n)), flash);
    Ok(())
}

/// Lays each page of a segment.
fn lay_segment(
    alloc: Global,
    rig: &mut MemoryRig,
    journal: &Journal,
    segment: u32,
    flash: &mut [u8],
) -> Result<(), Stop> {
    for i in 0..journal.kept_count(segment) {
        lay_page(alloc, rig, journal, (segment, i), flash)?;
    }
    Ok(())
}

/// The flash at the start of the oldest segment: its own pages laid over those of each newer
/// segment, over a flash with this byte in each place.
pub fn kept_flash(alloc: Global, rig: &mut MemoryRig, byte: u8) -> Result<Vec<u8>, Stop> {
    let mut flash = vec![in alloc; byte; rig.flash().len()]?;
    let Ok(journal) = Journal::load(alloc, rig) else {
        return Err(Stop::Words);
    };
    for segment in (1..=journal.depth()).rev() {
        lay_segment(alloc, rig, &journal, segment, &mut flash)?;
    }
    Ok(flash)
}

/// In how many places of a flash another byte stands, and the first of them.
pub fn others(flash: &[u8], byte: u8) -> (u64, usize) {
    let mut count = 0_u64;
    let mut first = 0_usize;
    for (place, held) in flash.iter().enumerate() {
        if *held != byte {
            if count == 0 {
                first = place;
            }
            count = count.saturating_add(1);
        }
    }
    (count, first)
}
