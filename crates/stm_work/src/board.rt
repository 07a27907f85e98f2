// Which board a device is, asked before its session.
ghost use Rattle.std.specs.Prelude.{◌≡◌, ◌↔◌, IfOk, IsTrue, MatchOption};
ghost use Rattle.stm_chip.specs.Document.{IsChipWith, IsNewId};
ghost use Rattle.stm_work.specs.Board.{Allows, AsksAndAllows, AsksFirst, AsksNamed, AsksWhereDue};
ghost use Rattle.stm_work.specs.Board.{EndsIn, IsDue, IsOfBoard, as_named, due_beside, due_by};
ghost use Rattle.stm_work.specs.Watching.{AsksToWatch, AsksWho};

use crate::failure::Failure;
use std::alloc::{AllocError, Global};
use stm_chip::Table;
use stm_journal::Journal;
use stm_session::{Board, Fault, ask_board};
use stm_wire::{BoardPlaces, Chip, Rig, UniqueId};

/// Before which sessions a device is asked which board it is, and how large its flash.
#[derive(Clone, Copy)]
pub enum Asking {
    /// Before one that wants a finished journal.
    OfFinished,
    /// Before an undo, where the journal has what it undoes.
    OfBegun,
    /// Before Go or a protection, which want a journal without segments, where the journal names a
    /// board or one is wanted.
    OfClosed,
}

/// Whether a device is asked, and which it has to be.
#[derive(Clone, Copy)]
pub enum Due {
    /// It isn't asked.
    Not,
    /// It is asked. Whether the journal is of it is seen by its session, where that is to be.
    Asked,
    /// It is asked, and has to be the board with this unique id, which the journal names: its session
    /// doesn't look.
    OfNamed(UniqueId),
}

/// Whether a device is asked which board it is, and which is wanted.
#[derive(Clone, Copy)]
pub struct Question<'a> {
    /// Whether it is asked before a session that may begin.
    pub is_asked: bool,
    /// The unique id that is wanted, or its last digits, in either case.
    pub wanted: Option<&'a str>,
}

/// Whether this chip tells its board, or how large its flash is, at a place that is known.
pub fn tells_board(chip: &Chip) -> bool {
    chip.places() != BoardPlaces::none()
}

/// Whether a chip of the table does.
pub fn has_telling_chip(table: &Table) -> bool {
    table.chips().iter().any(|chip| tells_board(chip))
}

/// Whether a device is asked before Go or a protection, by the board that the journal names.
fn due_by(named: Option<UniqueId>, is_wanted: bool) -> Due
    ensures { result ≡ due_by named is_wanted }
{
    match named {
        Some(unique) => Due::OfNamed(unique),
        None if is_wanted => Due::Asked,
        None => Due::Not,
    }
}

/// Whether a device is asked beside this journal. A session that wants a finished one, or one without
/// segments, is refused here, as it would be.
fn due_beside(journal: &Journal, asking: Asking, is_wanted: bool) -> Result<Due, Fault>
    ensures { result ≡ due_beside asking is_wanted journal.now.state }
{
    match asking {
        Asking::OfFinished if journal.is_unfinished() => Err(Fault::Unfinished),
        Asking::OfFinished => Ok(Due::Asked),
        Asking::OfBegun if journal.is_open() => Ok(Due::Asked),
        Asking::OfBegun => Ok(Due::Not),
        Asking::OfClosed if journal.is_open() => Err(Fault::InSession),
        Asking::OfClosed => Ok(due_by(journal.unique(), is_wanted)),
    }
}

/// Whether a device is asked, by the journal, which is read for that.
fn is_due<L: Rig>(alloc: Global, rig: &mut L, asking: Asking, is_wanted: bool) -> Result<Due, Fault>
    ensures { IsDue asking is_wanted (L.view rig.old) (L.view rig.new) result }
{
    let journal = Journal::load(alloc, rig)?;
    due_beside(&journal, asking, is_wanted)
}

/// Whether a unique id ends in these hexadecimal digits, of either case.
fn ends_in(alloc: Global, unique: &UniqueId, digits: &str) -> Result<bool, AllocError>
    ensures { IfOk result (λ is. IsTrue is ↔ EndsIn unique.now digits.now) }
{
    let name = hex::encode_upper(alloc, unique.as_bytes())?;
    let name = name.as_bytes();
    let digits = digits.as_bytes();
    if digits.len() > name.len() {
        return Ok(false);
    }
    Ok(name[name.len() - digits.len()..].eq_ignore_ascii_case(digits))
}

/// The board that came, unless another is wanted.
fn allow<'a>(
    alloc: Global,
    board: Board,
    wanted: Option<&'a str>,
) -> Result<Option<Board>, Failure<'a>>
    ensures { Allows board wanted.entry result }
{
    let Some(digits) = wanted else {
        return Ok(Some(board));
    };
    if board.unique.is_none() {
        return Err(Failure::NoBoard);
    }
    if ends_in(alloc, &board.unique, digits)? {
        Ok(Some(board))
    } else {
        Err(Failure::OtherBoard)
    }
}

/// Asks a device which board it is, and refuses one that isn't wanted.
pub fn ask_and_allow<'a, L: Rig>(
    alloc: Global,
    rig: &mut L,
    table: &Table,
    wanted: Option<&'a str>,
) -> Result<Option<Board>, Failure<'a>>
    ensures { AsksAndAllows L.view table.now wanted.entry rig.old rig.new result }
{
    let board = ask_board(alloc, rig, table)?;
    allow(alloc, board, wanted)
}

/// The board that came, where it is the one with this unique id.
fn as_named<'a>(came: Option<Board>, unique: UniqueId) -> Result<Option<Board>, Failure<'a>>
    ensures { result ≡ as_named unique came }
{
    match came {
        Some(board) if board.unique.is(&unique) => Ok(Some(board)),
        _ => Err(Failure::Session(Fault::OtherBoard)),
    }
}

/// Asks a device which board it is, and refuses any but the one with this unique id.
fn ask_named<'a, L: Rig>(
    alloc: Global,
    rig: &mut L,
    table: &Table,
    wanted: Option<&'a str>,
    unique: UniqueId,
) -> Result<Option<Board>, Failure<'a>>
    ensures { AsksNamed L.view table.now wanted.entry unique rig.old rig.new result }
{
    let came = ask_and_allow(alloc, rig, table, wanted)?;
    as_named(came, unique)
}

/// The same where the journal lets its session begin.
fn ask_where_due<'a, L: Rig>(
    alloc: Global,
    rig: &mut L,
    table: &Table,
    asking: Asking,
    wanted: Option<&'a str>,
) -> Result<Option<Board>, Failure<'a>>
    ensures { AsksWhereDue L.view table.now asking wanted.entry rig.old rig.new result }
{
    match is_due(alloc, rig, asking, wanted.is_some())? {
        Due::Not => Ok(None),
        Due::Asked => ask_and_allow(alloc, rig, table, wanted),
        Due::OfNamed(unique) => ask_named(alloc, rig, table, wanted, unique),
    }
}

/// The same of a device that is to be watched: it is asked before Go and a protection too, where its
/// journal lets them begin.
pub fn ask_to_watch<'a, L: Rig>(
    alloc: Global,
    rig: &mut L,
    table: &Table,
    asking: Asking,
    wanted: Option<&'a str>,
) -> Result<Option<Board>, Failure<'a>>
    ensures { AsksToWatch L.view table.now asking wanted.entry rig.old rig.new result }
{
    match is_due(alloc, rig, asking, true)? {
        Due::Not => Ok(None),
        Due::Asked => ask_and_allow(alloc, rig, table, wanted),
        Due::OfNamed(unique) => ask_named(alloc, rig, table, wanted, unique),
    }
}

/// Asks a device that is to be watched who it is, and not which board: by a table whose chips tell
/// none.
pub fn ask_who<'a, L: Rig>(
    alloc: Global,
    rig: &mut L,
    bare: &Table,
    asking: Asking,
) -> Result<Option<Board>, Failure<'a>>
    ensures { AsksWho L.view bare.now asking rig.old rig.new result }
{
    match is_due(alloc, rig, asking, true)? {
        Due::Not => Ok(None),
        Due::Asked | Due::OfNamed(_) => ask_and_allow(alloc, rig, bare, None),
    }
}

/// Asks a device which board it is, and refuses one that isn't wanted. A device that isn't asked is
/// none that is wanted.
pub fn ask_first<'a, L: Rig>(
    alloc: Global,
    rig: &mut L,
    table: &Table,
    asking: Option<Asking>,
    wanted: Option<&'a str>,
) -> Result<Option<Board>, Failure<'a>>
    ensures { AsksFirst L.view table.now asking wanted.entry rig.old rig.new result }
{
    match (asking, wanted) {
        (Some(asking), wanted) => ask_where_due(alloc, rig, table, asking, wanted),
        (None, Some(_)) => Err(Failure::NoBoard),
        (None, None) => Ok(None),
    }
}

/// The same board once more.
fn copy_of(board: &Board) -> Board
    ensures { result ≡ board.now }
{
    Board {
        id: board.id,
        unique: board.unique,
        size: board.size,
    }
}

/// The chip of this id in a table, for itself.
fn chip_with(table: &Table, id: u16) -> Result<Option<Chip>, AllocError>
    ensures { IfOk result (λ found. MatchOption found (IsNewId table.now id)
        (IsChipWith table.now id)) }
{
    match table.find(id) {
        Some(chip) => Ok(Some(chip.clone()?)),
        None => Ok(None),
    }
}

/// The table for the session with a board: its chip, where it has one, is that of the board.
fn table_of(table: Table, board: Board) -> Result<Table, AllocError>
    ensures { IfOk result (IsOfBoard table board) }
{
    match chip_with(&table, board.id)? {
        Some(chip) => Ok(table.with_chip(board.chip_of(chip))),
        None => Ok(table),
    }
}

/// The same, of a board that is kept.
pub fn table_beside(table: Table, board: &Board) -> Result<Table, AllocError>
    ensures { IfOk result (IsOfBoard table board.now) }
{
    table_of(table, copy_of(board))
}
