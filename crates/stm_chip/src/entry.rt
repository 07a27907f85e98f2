// The chip that an entry of a table means.
ghost use Rattle.std.specs.Prelude.{ℕ, ◌≡◌, ◌≢◌, ◌++◌, ◌+◌, ◌^◌, ◌<◌, All, IfOk, OnOk, MatchOption};
ghost use Rattle.std.specs.Bool.{MatchBool};
ghost use Rattle.std.specs.List.{flat_map};
ghost use Rattle.stm_wire.specs.declared.chip.EraseKind.{EraseKind as Kind};
ghost use Rattle.stm_chip.specs.Entry.{IsRun, IsPaged, CanAdd, pages_of, kind_word, keys_with};
ghost use Rattle.stm_chip.specs.Entry.{IsChipOf, BreaksLimit, places_with};

use crate::keys::EntryKeys;
use crate::places::board_places;
use crate::tried::are_short;
use std::alloc::{AllocError, Global};
use stm_wire::{Chip, EraseKind};

/// The kind that a word of a table names.
fn kind_of(word: &str) -> Option<EraseKind>
    ensures { MatchOption result ((kind : Kind) → kind_word kind ≢ word.now)
        (λ kind. word.now ≡ kind_word kind) }
{
    match word {
        "page" => Some(EraseKind::Page),
        "extended" => Some(EraseKind::Extended),
        _ => None,
    }
}

/// Adds the sizes of a run's pages, or answers false where no chip has such
/// a run after these pages.
fn add_run(sizes: &mut Vec<u32>, run: (i64, i64)) -> Result<bool, AllocError>
    ensures { IfOk result (λ added. MatchBool added
        (IsRun run × (sizes.new.items ≡ sizes.old.items ++ pages_of run))
        (¬ CanAdd sizes.old.items run)) }
{
    let (count, size) = run;
    let (Ok(count), Ok(size)) = (u16::try_from(count), u32::try_from(size)) else {
        return Ok(false);
    };
    let pages = sizes.len() + usize::from(count);
    if count == 0 || pages > usize::from(u16::MAX) {
        return Ok(false);
    }
    sizes.resize(pages, size)?;
    Ok(true)
}

/// The sizes of all pages of these runs, or None where no chip has them.
fn page_sizes(alloc: Global, runs: &[(i64, i64)]) -> Result<Option<Vec<u32>>, AllocError>
    ensures { IfOk result (λ sizes. MatchOption sizes (¬ IsPaged runs.now)
        (λ sizes. All IsRun runs.now × (sizes.items ≡ flat_map pages_of runs.now))) }
{
    let mut sizes = Vec::new(alloc);
    for run in runs {
        if !add_run(&mut sizes, *run)? {
            return Ok(None);
        }
    }
    Ok(Some(sizes))
}

/// The chip of these keys, or None where a limit is broken.
pub(crate) fn chip_of(alloc: Global, keys: &EntryKeys<'_>) -> Result<Option<Chip>, AllocError>
    ensures { let values = keys_with keys.now.id keys.now.base keys.now.runs.items
        keys.now.erase.now keys.now.erased
        (places_with keys.now.places.unique keys.now.places.size_at) keys.now.tried.items in
        IfOk result (λ chip. MatchOption chip (BreaksLimit values) (IsChipOf values)) }
{
    if !are_short(&keys.tried) {
        return Ok(None);
    }
    let Some(sizes) = page_sizes(alloc, &keys.runs)? else {
        return Ok(None);
    };
    let Some(places) = board_places(&keys.places) else {
        return Ok(None);
    };
    match (
        u16::try_from(keys.id),
        u32::try_from(keys.base),
        kind_of(keys.erase),
        u8::try_from(keys.erased),
    ) {
        (Ok(id), Ok(base), Some(kind), Ok(erased)) => {
            match Chip::new(id, base, sizes, kind, erased) {
                Some(chip) => Ok(chip.at_places(places)),
                None => Ok(None),
            }
        }
        _ => Ok(None),
    }
}
