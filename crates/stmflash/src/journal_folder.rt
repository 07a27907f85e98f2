// A folder of journals, each of which has the name of its board.
ghost use Rattle.std.specs.Prelude.{◌≡◌, IfOk, string_bytes};
ghost use Rattle.stmflash.specs.TaskUse.{journal_name};

use crate::journal_tasks::look;
use std::alloc::{AllocError, AllocFailed, Global};
use std::fs::Files;
use std::io::ErrorKind;
use std::{fs, io};
use stm_files::{BoardName, Doubt, Locks, Looked, doubt_folder, is_there, unique_of};
use stm_journal::Journal;
use stm_session::Fault;
use stm_wire::UniqueId;
use stm_work::Failure;

/// How the name of a board's journal ends.
const ENDING: &str = ".journal";

/// Why the journals of a folder can't be looked at.
#[derive(Drop)]
pub enum Trouble {
    /// The folder can't be read.
    Folder,
    /// Others may put journals there, and no word allows that.
    NotTrusted(Doubt),
    /// The journal of this name can't be read.
    Unread(String),
    /// It is none.
    NoJournal(String),
    /// It is bad.
    Bad(String, Fault),
    /// It is not that of the board whose name it has.
    Misnamed(String),
    /// There is no memory for them.
    Memory,
}

impl From<AllocError> for Trouble {
    fn from(_: AllocError) -> Self {
        Trouble::Memory
    }
}

impl<T: Drop> From<AllocFailed<T>> for Trouble {
    fn from(_failed: AllocFailed<T>) -> Self {
        Trouble::Memory
    }
}

/// The name of a board's journal in a folder.
pub fn name_in(alloc: Global, folder: &str, board: UniqueId) -> Result<String, AllocError>
    ensures { IfOk result (λ name. string_bytes name ≡ journal_name folder.now board) }
{
    format!(in alloc; "{folder}/{}{ENDING}", BoardName(board))
}

/// The board whose journal has this name: its unique id, in upper-case hexadecimal digits, and the
/// ending. None where the name is another one.
fn board_of(alloc: Global, name: &str) -> Result<Option<UniqueId>, AllocError> {
    let Some(digits) = name.strip_suffix(ENDING) else {
        return Ok(None);
    };
    let digits = digits.as_bytes();
    for digit in digits {
        if digit.is_ascii_lowercase() {
            return Ok(None);
        }
    }
    unique_of(alloc, digits)
}

/// The boards whose journals a folder has. What has another name isn't looked at.
fn boards_in<R: Files + AllocGlobal + Clone + Drop>(
    rt: &R,
    folder: &str,
) -> io::Result<Vec<UniqueId>> {
    let mut boards = Vec::new(rt.alloc());
    for entry in fs::read_dir(rt, folder)? {
        let entry = match entry {
            Ok(entry) => entry,
            // a name that is no text
            Err(e) if e.kind() == ErrorKind::InvalidFilename => continue,
            Err(e) => return Err(e),
        };
        if let Some(board) = board_of(rt.alloc(), entry.file_name())? {
            boards.push(board)?;
        }
    }
    Ok(boards)
}

/// What came of looking at a journal.
enum Seen {
    Read(Journal),
    Bad(Fault),
    NoJournal,
    Unread,
    Memory,
}

/// What a look at the journal of this name tells.
fn see<R: Files + AllocGlobal>(rt: &R, name: &str) -> Seen {
    match look(rt, name) {
        Ok(journal) => Seen::Read(journal),
        Err(Failure::Session(Fault::Memory)) | Err(Failure::Memory) => Seen::Memory,
        Err(Failure::Session(fault)) => Seen::Bad(fault),
        Err(Failure::NoJournal(_)) => Seen::NoJournal,
        Err(_) => Seen::Unread,
    }
}

/// Whether a journal is that of a board: its first line names it, or it has none.
fn is_of(journal: &Journal, board: &UniqueId) -> bool {
    match (journal.id(), journal.unique()) {
        (None, _) => true,
        (Some(_), Some(unique)) => unique.is(board),
        (Some(_), None) => false,
    }
}

/// Looks at the journal of a board. None where it isn't there.
pub fn look_at<R: Files + AllocGlobal>(
    rt: &R,
    folder: &str,
    board: UniqueId,
) -> Result<Option<Looked>, Trouble> {
    let name = name_in(rt.alloc(), folder, board)?;
    match see(rt, name.as_str()) {
        Seen::Read(journal) if is_of(&journal, &board) => Ok(Some(Looked {
            board,
            is_unfinished: journal.is_unfinished(),
        })),
        Seen::Read(_) => Err(Trouble::Misnamed(name)),
        Seen::Bad(fault) => Err(Trouble::Bad(name, fault)),
        Seen::NoJournal => Err(Trouble::NoJournal(name)),
        Seen::Unread if !is_there(rt, name.as_str()) => Ok(None),
        Seen::Unread => Err(Trouble::Unread(name)),
        Seen::Memory => Err(Trouble::Memory),
    }
}

/// What a journal that can't be used counts as: its board may await the rest of a command.
fn doubted(trouble: &Trouble, board: UniqueId) -> Result<Option<Looked>, Trouble> {
    if matches!(trouble, Trouble::Memory) {
        return Err(Trouble::Memory);
    }
    Ok(Some(Looked {
        board,
        is_unfinished: true,
    }))
}

/// Looks at the journal of a board as `look_at`, and counts one that can't be used as unfinished.
fn look_or_doubt<R: Files + AllocGlobal>(
    rt: &R,
    folder: &str,
    board: UniqueId,
) -> Result<Option<Looked>, Trouble> {
    match look_at(rt, folder, board) {
        Ok(looked) => Ok(looked),
        Err(trouble) => doubted(&trouble, board),
    }
}

/// Refuses a folder in which others may put journals.
fn check_folder<R: Locks>(rt: &R, folder: &str) -> Result<(), Trouble> {
    match doubt_folder(rt, folder) {
        None => Ok(()),
        Some(doubt) => Err(Trouble::NotTrusted(doubt)),
    }
}

/// Looks at all journals of a folder. None is locked: a session beside this goes on, and what it has
/// added by now counts. One that can't be used counts as unfinished. A folder that others may write
/// is refused, unless they are trusted.
pub fn look_all<R: Locks + AllocGlobal + Clone + Drop>(
    rt: &R,
    folder: &str,
    trusts_others: bool,
) -> Result<Vec<Looked>, Trouble> {
    if !trusts_others {
        check_folder(rt, folder)?;
    }
    let boards = match boards_in(rt, folder) {
        Ok(boards) => boards,
        Err(e) if e.kind() == ErrorKind::OutOfMemory => return Err(Trouble::Memory),
        Err(_) => return Err(Trouble::Folder),
    };
    let mut all = Vec::new(rt.alloc());
    for board in boards.iter() {
        if let Some(looked) = look_or_doubt(rt, folder, *board)? {
            all.push(looked)?;
        }
    }
    Ok(all)
}

/// The names of those that are unfinished, one behind the other.
pub fn unfinished_names(
    alloc: Global,
    folder: &str,
    looked: &[Looked],
) -> Result<String, AllocError> {
    let mut names: Vec<String> = Vec::new(alloc);
    for one in looked {
        if one.is_unfinished {
            names.push(name_in(alloc, folder, one.board)?)?;
        }
    }
    names.sort()?;
    let mut text = String::new(alloc);
    for name in &names {
        if !text.is_empty() {
            text.push_str(", ")?;
        }
        text.push_str(name.as_str())?;
    }
    Ok(text)
}
