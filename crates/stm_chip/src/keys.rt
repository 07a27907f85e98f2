// The keys of an entry, of whatever worth their values are.
ghost use Rattle.std.specs.Prelude.{ℤ, ◌≡◌, IfOk, option_and_then, option_map, vec_items, codes};
ghost use Rattle.toml.specs.Data.{as_array, as_integer, as_str, at, get};
ghost use Rattle.toml.specs.View.{array_view, view};
ghost use Rattle.stm_chip.specs.Entry.{erased_of, run_of, page_runs, keys_of, keys_with};
ghost use Rattle.stm_chip.specs.Entry.{unique_key, size_at_of, place_keys, places_with};

use crate::tried::{TriedBoard, read_tried};
use std::alloc::{AllocError, Global};
use toml::Value;

/// The values of a chip's keys.
#[derive(Drop)]
pub(crate) struct EntryKeys<'a> {
    pub(crate) id: i64,
    pub(crate) base: i64,
    /// How many pages, and of how many bytes.
    pub(crate) runs: Vec<(i64, i64)>,
    pub(crate) erase: &'a str,
    /// What an erased place holds.
    pub(crate) erased: i64,
    pub(crate) places: PlaceKeys,
    /// The boards that were tried.
    pub(crate) tried: Vec<TriedBoard>,
}

/// The values of the keys that say where a chip tells its board. Each may be absent.
#[derive(Clone, Copy)]
pub(crate) struct PlaceKeys {
    /// The address of the unique id, and how many bytes it has.
    pub(crate) unique: Option<(i64, i64)>,
    /// The address of the flash's size.
    pub(crate) size_at: Option<i64>,
}

/// The whole number at a key.
pub(crate) fn whole(entry: &Value, key: &str) -> Option<i64>
    ensures { result ≡ option_and_then as_integer (get key.now (view entry.now)) }
{
    match entry.get(key) {
        Some(value) => value.as_integer(),
        None => None,
    }
}

/// The text at a key.
pub(crate) fn text<'a>(entry: &'a Value, key: &str) -> Option<&'a str>
    ensures { option_map (λ s. s.now) result
        ≡ option_and_then as_str (get key.now (view entry.now)) }
{
    match entry.get(key) {
        Some(value) => value.as_str(),
        None => None,
    }
}

/// The whole number at a place of an array.
fn whole_at(run: &Value, place: usize) -> Option<i64>
    ensures { result ≡ option_and_then as_integer (at place (view run.now)) }
{
    match run.get(place) {
        Some(value) => value.as_integer(),
        None => None,
    }
}

/// The run that an array of two whole numbers is.
fn read_run(run: &Value) -> Option<(i64, i64)>
    ensures { result ≡ run_of (view run.now) }
{
    match (whole_at(run, 0), whole_at(run, 1), run.get(2usize)) {
        (Some(count), Some(size), None) => Some((count, size)),
        _ => None,
    }
}

/// The runs of an array, or None where an item is something else.
fn read_runs(alloc: Global, array: &Vec<Value>) -> Result<Option<Vec<(i64, i64)>>, AllocError>
    ensures { IfOk result (λ runs. option_map vec_items runs ≡ page_runs (array_view array.now)) }
{
    let mut runs = Vec::new(alloc);
    for value in array {
        match read_run(value) {
            Some(run) => runs.push(run)?,
            None => return Ok(None),
        }
    }
    Ok(Some(runs))
}

/// The array at a key.
fn array<'a>(entry: &'a Value, key: &str) -> Option<&'a Vec<Value>>
    ensures { option_map (λ items. array_view items.now) result
        ≡ option_and_then as_array (get key.now (view entry.now)) }
{
    match entry.get(key) {
        Some(value) => value.as_array(),
        None => None,
    }
}

/// The runs at the key `pages`.
fn read_pages(alloc: Global, entry: &Value) -> Result<Option<Vec<(i64, i64)>>, AllocError>
    ensures { IfOk result (λ runs. option_map vec_items runs
        ≡ option_and_then page_runs (option_and_then as_array
        (get (codes "pages") (view entry.now)))) }
{
    match array(entry, "pages") {
        Some(items) => read_runs(alloc, items),
        None => Ok(None),
    }
}

/// The whole number at the key `erased`, and FF where it is absent.
fn read_erased(entry: &Value) -> Option<i64>
    ensures { result ≡ erased_of (get (codes "erased") (view entry.now)) }
{
    match entry.get("erased") {
        Some(value) => value.as_integer(),
        None => Some(0xFF),
    }
}

/// Where the unique id stands, if the key is there; None where it is of another kind.
fn read_unique(entry: &Value) -> Option<Option<(i64, i64)>>
    ensures { result ≡ unique_key (get (codes "unique") (view entry.now)) }
{
    match entry.get("unique") {
        Some(value) => match read_run(value) {
            Some(place) => Some(Some(place)),
            None => None,
        },
        None => Some(None),
    }
}

/// Where the flash's size stands, if the key is there; None where it is of another kind.
fn read_size_at(entry: &Value) -> Option<Option<i64>>
    ensures { result ≡ size_at_of (get (codes "size_at") (view entry.now)) }
{
    match entry.get("size_at") {
        Some(value) => match value.as_integer() {
            Some(address) => Some(Some(address)),
            None => None,
        },
        None => Some(None),
    }
}

/// The keys that say where a chip tells its board, or None where one is of another kind.
fn read_places(entry: &Value) -> Option<PlaceKeys>
    ensures { option_map (λ k. places_with k.unique k.size_at) result ≡ place_keys (view entry.now) }
{
    match (read_unique(entry), read_size_at(entry)) {
        (Some(unique), Some(size_at)) => Some(PlaceKeys { unique, size_at }),
        _ => None,
    }
}

/// The keys of an entry, or None where one is absent or of another kind.
pub(crate) fn read_keys<'a>(
    alloc: Global,
    entry: &'a Value,
) -> Result<Option<EntryKeys<'a>>, AllocError>
    ensures { let values = option_map
        (λ k. keys_with k.id k.base k.runs.items k.erase.now k.erased
        (places_with k.places.unique k.places.size_at) k.tried.items) in
        IfOk result (λ keys. values keys ≡ keys_of (view entry.now)) }
{
    let runs = read_pages(alloc, entry)?;
    let tried = read_tried(alloc, entry)?;
    match (
        whole(entry, "id"),
        whole(entry, "base"),
        runs,
        text(entry, "erase"),
        read_erased(entry),
        read_places(entry),
        tried,
    ) {
        (Some(id), Some(base), Some(runs), Some(erase), Some(erased), Some(places), Some(tried)) =>
            {
                Ok(Some(EntryKeys {
                    id,
                    base,
                    runs,
                    erase,
                    erased,
                    places,
                    tried,
                }))
            }
        _ => Ok(None),
    }
}
