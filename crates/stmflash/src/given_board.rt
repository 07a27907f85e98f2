// The board that the words of `sim` make of a simulator.

use std::alloc::Global;
use std::fs::Files;
use stm_files::{SimulatedBoard, stored_board, unique_of};
use stm_wire::{Chip, UniqueId};
use stm_words::{Served, UsageFault};
use stm_work::Failure;

/// The unique id that words give to a simulator of this chip, where they give one: as many bytes as
/// the chip tells.
fn given_unique<'a>(
    alloc: Global,
    chip: &Chip,
    served: &Served<'a>,
) -> Result<Option<UniqueId>, Failure<'a>> {
    let Some(digits) = served.unique else {
        return Ok(None);
    };
    let Some(place) = chip.places().unique else {
        return Err(Failure::Usage(UsageFault::NoUnique(served.id)));
    };
    match unique_of(alloc, digits.as_bytes())? {
        Some(unique) if unique.as_bytes().len() == usize::from(place.length) => Ok(Some(unique)),
        _ => Err(Failure::Usage(UsageFault::UniqueLength(digits, place.length))),
    }
}

/// The board that words make of a simulator of this chip: what they don't give stays as its file
/// says. None where they give nothing.
pub fn given_board<'a, R: Files + AllocGlobal>(
    rt: &R,
    chip: &Chip,
    served: &Served<'a>,
) -> Result<Option<SimulatedBoard>, Failure<'a>> {
    let unique = given_unique(rt.alloc(), chip, served)?;
    if served.size.is_some() && chip.places().size.is_none() {
        return Err(Failure::Usage(UsageFault::NoSize(served.id)));
    }
    if unique.is_none() && served.size.is_none() {
        return Ok(None);
    }
    let there = match stored_board(rt, served.flash)? {
        Some(board) => board,
        None => SimulatedBoard::new(),
    };
    Ok(Some(there.with(unique, served.size)))
}
