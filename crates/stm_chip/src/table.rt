// A table of chips, as its text names them.
ghost use Rattle.std.specs.Prelude.{◌≡◌, ◌≢◌, ◌+◌, List, length, All, Contains, IfOk, IfErr};
ghost use Rattle.std.specs.Prelude.{MatchOption, MatchResult, Some, option_map, option_and_then};
ghost use Rattle.std.specs.Prelude.{codes, IsTrue, IsSome, IsSomeAnd, slice_get, ◌↔◌};
ghost use Rattle.toml.specs.View.{table_view, view, array_view};
ghost use Rattle.toml.specs.Data.{Data, as_array, as_table, get_member};
ghost use Rattle.stm_wire.specs.Chip.{ChipData};
ghost use Rattle.stm_chip.specs.Document.{IsTableOf, IsTableFaultOf, IsDocument, HasEntries, values_data};
ghost use Rattle.stm_chip.specs.Document.{IsNextChip, IsNewId, HaveOwnIds, IsChipWith, IsFlaw};
ghost use Rattle.stm_chip.specs.Document.{HasFlaw, ReadsEntries, HaveInPlace};

use crate::TableFault;
use crate::entry::chip_of;
use crate::keys::read_keys;
use std::alloc::Global;
use std::marker::Model;
use stm_wire::Chip;
use toml::Value;

/// The chips of a table, in its order. No two have one id.
#[derive(Debug, Drop)]
pub struct Table {
    pub(crate) chips: Vec<Chip>,
}

impl Model for Table {
    ghost Value = { List ChipData };

    ghost view = { λ t. t.chips.items };

    ghost invariant = { λ t. HaveOwnIds t.chips.items };
}

impl Table {
    /// The chip with this id, or None.
    pub fn find(&self, id: u16) -> Option<&Chip>
        ensures { MatchOption result (IsNewId self.now id)
            (λ chip. IsChipWith self.now id chip.now) }
    {
        first_with(&self.chips, id)
    }

    /// The chips of the table, in its order.
    pub fn chips(&self) -> &[Chip]
        ensures { result.now ≡ self.now }
    {
        &self.chips
    }

    /// The table with this chip in the place of the one of its id. Where there is none, the table
    /// stays as it is.
    pub fn with_chip(self, chip: Chip) -> Table
        ensures { HaveInPlace self chip result }
    {
        match place_of(&self.chips, chip.id()) {
            Some(place) => self.with_chip_at(place, chip),
            None => self,
        }
    }

    /// The table with this chip at this place, where one of its id stands.
    fn with_chip_at(self, place: usize, chip: Chip) -> Table
        requires { IsSomeAnd (slice_get self place) (λ other. other.id ≡ chip.id) }
        ensures { HaveInPlace self chip result }
    {
        let mut chips = self.chips;
        chips[place] = chip;
        Table { chips }
    }
}

/// The place of the first of these chips with this id.
fn place_of(chips: &[Chip], id: u16) -> Option<usize>
    ensures { MatchOption result (IsNewId chips.now id)
        (λ place. IsSomeAnd (slice_get chips.now place) (λ chip. chip.id ≡ id)) }
{
    chips.iter().position(|chip| chip.id() == id)
}

/// The first of these chips with this id.
pub(crate) fn first_with(chips: &[Chip], id: u16) -> Option<&Chip>
    ensures { MatchOption result (IsNewId chips.now id)
        (λ chip. (chip.now.id ≡ id) × Contains chips.now chip.now) }
{
    chips.iter().find(|chip| chip.id() == id)
}

/// The tree of a text.
pub(crate) fn read_document(alloc: Global, text: &[u8]) -> Result<toml::Table, TableFault>
    ensures { MatchResult result (λ document. IsDocument text.now (table_view document))
        (IsTableFaultOf text.now) }
{
    match toml::table_from_slice(alloc, text) {
        Ok(document) => Ok(document),
        Err(e) if e.is_memory() => Err(TableFault::Memory),
        Err(_) => Err(TableFault::Syntax),
    }
}

/// The array at the key `chip`.
fn chip_array(document: &toml::Table) -> Option<&Vec<Value>>
    ensures { option_map (λ items. array_view items.now) result
        ≡ option_and_then as_array (get_member (codes "chip") (table_view document.now)) }
{
    match document.get("chip") {
        Some(value) => value.as_array(),
        None => None,
    }
}

/// Whether each of these is a table.
fn are_tables(items: &[Value]) -> bool
    ensures { IsTrue result ↔ All (λ item. IsSome (as_table (view item))) items.now }
{
    items.iter().all(|item| item.is_table())
}

/// The tables at the key `chip`, or None where something else stands there.
pub(crate) fn entries(document: &toml::Table) -> Option<&Vec<Value>>
    ensures { MatchOption result
        ((entries : List Data) → ¬ HasEntries (table_view document.now) entries)
        (λ items. HasEntries (table_view document.now) (values_data items.now)) }
{
    match chip_array(document) {
        Some(items) => { if are_tables(items) { Some(items) } else { None } }
        None => None,
    }
}

/// The chip of entry `n`, which stands after those of `chips`.
fn read_entry(alloc: Global, n: u64, entry: &Value, chips: &[Chip]) -> Result<Chip, TableFault>
    ensures { MatchResult result (IsNextChip chips.now (view entry.now))
        (IsFlaw n chips.now (view entry.now)) }
{
    let Some(keys) = read_keys(alloc, entry)? else {
        return Err(TableFault::Missing(n));
    };
    let Some(chip) = chip_of(alloc, &keys)? else {
        return Err(TableFault::Limit(n));
    };
    if chips.iter().any(|earlier| earlier.id() == chip.id()) {
        return Err(TableFault::TwiceId(n));
    }
    Ok(chip)
}

/// The chips of these entries.
fn read_entries(alloc: Global, entries: &Vec<Value>) -> Result<Vec<Chip>, TableFault>
    ensures { MatchResult result (λ chips. ReadsEntries (values_data entries.now) chips.items)
        (HasFlaw (values_data entries.now)) }
{
    let mut chips = Vec::new(alloc);
    for entry in entries {
        let n = chips.len() as u64 + 1;
        let chip = read_entry(alloc, n, entry, &chips)?;
        chips.push(chip)?;
    }
    Ok(chips)
}

/// The table of a text in TOML 1.1: the chips of the tables at its key `chip`, in order.
///
/// Each has the keys `id` and `base` (whole numbers), `pages` (an array of arrays of two whole
/// numbers: how many pages, of how many bytes) and `erase` (`"page"` or `"extended"`), and may have
/// `erased` (what an erased place holds: 255, which stands where it is absent, or 0), `unique` (an
/// array of two whole numbers: where the device's unique id stands, and how many bytes it has),
/// `size_at` (a whole number: where the size of its flash stands) and `tried` (an array of tables,
/// one for each board that was tried, of which `tried_boards` tells); further keys are ignored. The
/// first faulty entry decides, and in it first what is missing, then a broken limit, then an id that
/// came before.
pub fn read_table(alloc: Global, text: &[u8]) -> Result<Table, TableFault>
    ensures { MatchResult result (IsTableOf text.now) (IsTableFaultOf text.now) }
{
    let document = read_document(alloc, text)?;
    let Some(entries) = entries(&document) else {
        return Err(TableFault::Missing(0));
    };
    let chips = read_entries(alloc, entries)?;
    Ok(Table { chips })
}
