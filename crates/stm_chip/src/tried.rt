// The boards that were tried, as an entry of a table tells of them.
ghost use Rattle.std.specs.Prelude.{◌≡◌, ◌↔◌, All, Contains, IfOk, IsTrue, MatchOption, MatchResult};
ghost use Rattle.std.specs.Prelude.{codes, option_map, vec_items};
ghost use Rattle.toml.specs.Data.{get};
ghost use Rattle.toml.specs.View.{array_view, view};
ghost use Rattle.stm_chip.specs.Items.{each_of};
ghost use Rattle.stm_chip.specs.Entry.{IsShortBoard};
ghost use Rattle.stm_chip.specs.Tried.{tried_board_of, is_short_text, real_boards, short_at, simulated_of};
ghost use Rattle.stm_chip.specs.Tried.{told_boards};
ghost use Rattle.stm_chip.specs.Tried.{are_short as short_texts_of, tried_of};
ghost use Rattle.stm_chip.specs.Document.{HasId, IsTableFaultOf, LacksChip, TellsTried};

use crate::TableFault;
use crate::keys::{text, whole};
use crate::table::{entries, read_document};
use std::alloc::{AllocError, Global};
use toml::Value;

/// How many bytes a text of a tried board has at most.
const LONGEST: usize = 80;

/// A board that was tried, as an entry tells of it.
#[derive(Clone, Copy, Debug)]
pub struct TriedBoard {
    /// Each of its texts has 1 to 80 bytes.
    pub are_short: bool,
    /// It was a simulated one.
    pub is_simulated: bool,
}

/// Whether a text has 1 to 80 bytes.
fn is_short_text(text: &str) -> bool
    ensures { result ≡ is_short_text text.now }
{
    !text.is_empty() && text.len() <= LONGEST
}

/// Whether the text at a key has 1 to 80 bytes.
fn short_at(board: &Value, key: &str) -> Option<bool>
    ensures { result ≡ short_at key.now (view board.now) }
{
    match text(board, key) {
        Some(text) => Some(is_short_text(text)),
        None => None,
    }
}

/// Whether the texts that a board has to have are of 1 to 80 bytes, or None where one isn't there.
fn short_texts(board: &Value) -> Option<bool>
    ensures { result ≡ short_texts_of (view board.now) }
{
    match (
        short_at(board, "part"),
        short_at(board, "version"),
        short_at(board, "who"),
        short_at(board, "when"),
        short_at(board, "verdict"),
        short_at(board, "file"),
    ) {
        (Some(part), Some(version), Some(who), Some(day), Some(verdict), Some(file)) => {
            Some(part && version && who && day && verdict && file)
        }
        _ => None,
    }
}

/// Whether a board was a simulated one.
fn read_simulated(board: &Value) -> Option<bool>
    ensures { result ≡ simulated_of (get (codes "simulated") (view board.now)) }
{
    match board.get("simulated") {
        Some(value) => value.as_bool(),
        None => Some(false),
    }
}

/// A board that was tried, or None where a key is absent or of another kind.
fn read_board(board: &Value) -> Option<TriedBoard>
    ensures { result ≡ tried_board_of (view board.now) }
{
    match (short_texts(board), read_simulated(board)) {
        (Some(are_short), Some(is_simulated)) => Some(TriedBoard {
            are_short,
            is_simulated,
        }),
        _ => None,
    }
}

/// The boards of an array, or None where an item is something else.
fn read_boards(alloc: Global, array: &Vec<Value>) -> Result<Option<Vec<TriedBoard>>, AllocError>
    ensures { IfOk result (λ boards. option_map vec_items boards
        ≡ each_of tried_board_of (array_view array.now)) }
{
    let mut boards = Vec::new(alloc);
    for value in array {
        match read_board(value) {
            Some(board) => boards.push(board)?,
            None => return Ok(None),
        }
    }
    Ok(Some(boards))
}

/// The boards at the key `tried`, and none where it is absent.
pub(crate) fn read_tried(
    alloc: Global,
    entry: &Value,
) -> Result<Option<Vec<TriedBoard>>, AllocError>
    ensures { IfOk result (λ boards. option_map vec_items boards
        ≡ tried_of (get (codes "tried") (view entry.now))) }
{
    let Some(value) = entry.get("tried") else {
        return Ok(Some(Vec::new(alloc)));
    };
    match value.as_array() {
        Some(items) => read_boards(alloc, items),
        None => Ok(None),
    }
}

/// Whether the texts of these boards have 1 to 80 bytes each.
pub(crate) fn are_short(boards: &[TriedBoard]) -> bool
    ensures { IsTrue result ↔ All IsShortBoard boards.now }
{
    boards.iter().all(|board| board.are_short)
}

/// How many of these are real boards.
fn real_boards(boards: &[TriedBoard]) -> usize
    ensures { result ≡ real_boards boards.now }
{
    let mut count = 0;
    for board in boards {
        if !board.is_simulated {
            count += 1;
        }
    }
    count
}

/// The first of these entries that has this id.
fn entry_with(entries: &[Value], id: u16) -> Option<&Value>
    ensures { MatchOption result (All (λ entry. ¬ HasId id (view entry)) entries.now)
        (λ entry. HasId id (view entry.now) × Contains entries.now entry.now) }
{
    entries
        .iter()
        .find(|entry| whole(entry, "id") == Some(i64::from(id)))
}

/// How many of these are real boards, where an entry has the key for them.
fn told_boards(entry: &Value, boards: &[TriedBoard]) -> Option<usize>
    ensures { result ≡ told_boards (get (codes "tried") (view entry.now)) boards.now }
{
    match entry.get("tried") {
        Some(_) => Some(real_boards(boards)),
        None => None,
    }
}

/// How many real boards were tried of the chip with this id, as its entry in the text of a table
/// tells; None where the table has no such chip, and None in it where its entry has no key for them.
/// Simulated ones aren't counted.
///
/// An entry tells of them at its key `tried`, an array of tables, which may be absent. Each has the
/// texts `part`, `version`, `who`, `when`, `verdict` and `file` of 1 to 80 bytes, and may have
/// `simulated` (true or false); further keys are ignored.
pub fn tried_boards(
    alloc: Global,
    text: &[u8],
    id: u16,
) -> Result<Option<Option<usize>>, TableFault>
    ensures { MatchResult result
        (λ count. MatchOption count (LacksChip text.now id) (TellsTried text.now id))
        (IsTableFaultOf text.now) }
{
    let document = read_document(alloc, text)?;
    let Some(entries) = entries(&document) else {
        return Err(TableFault::Missing(0));
    };
    let Some(entry) = entry_with(entries, id) else {
        return Ok(None);
    };
    match read_tried(alloc, entry)? {
        Some(boards) => Ok(Some(told_boards(entry, &boards))),
        None => Ok(None),
    }
}
