// The question which board a device is, whose journal is in a folder: a session of its own, before the
// one with that journal.
ghost use Rattle.hex.specs.Hex.{encode_upper};
ghost use Rattle.std.specs.Prelude.{◌≡◌, ◌≢◌, ℕ, List, [], IfOk, OnOk, string_bytes};
ghost use Rattle.stmflash.specs.TaskUse.{AreAsked, AreFound, AreTaken, journal_name};

use crate::journal_folder::{Trouble, look_all, look_at, name_in, unfinished_names};
use crate::on_socket::{connect_line, give_up_of};
use std::alloc::{AllocError, Global};
use std::fs::Files;
use std::net::Net;
use std::os::unix::net::UnixStream;
use std::time::Clock;
use stm_chip::Table;
use stm_files::{
    Choice, JournalFile, Locks, Looked, SimulatorFiles, SocketLine, SocketRig, choose, unique_of,
};
use stm_session::Fault;
use stm_wire::{Rig, UniqueId, connect};
use stm_words::{Device, Options};
use stm_work::{Failure, ask_and_allow};

/// The name of a journal in a folder, and the digits of the board whose it is, once they are known.
#[derive(Drop)]
pub struct Place {
    pub journal: String,
    pub board: String,
}

impl Place {
    /// One that isn't known yet.
    pub fn new(alloc: Global) -> Place {
        Place {
            journal: String::new(alloc),
            board: String::new(alloc),
        }
    }
}

/// A line to a device, which was asked, and is connected by that.
pub type Line<'r, R> = SocketLine<'r, UnixStream, R>;

/// A device that told its board. Of one behind a socket the line stays open.
#[derive(Drop)]
struct Told<'r, R> {
    unique: UniqueId,
    line: Option<Line<'r, R>>,
}

/// Connects a device that is said to be fresh from reset: with one 7F.
fn connect_first<L: Rig>(rig: &mut L, is_fresh: bool) -> Result<(), Fault> {
    if is_fresh {
        connect(rig)?;
    }
    Ok(())
}

/// Asks a device for its board, which has to tell its unique id, and may have to be the one that is
/// wanted. Where it is said to be fresh from reset, it is connected first.
fn ask_which<'a, L: Rig>(
    alloc: Global,
    rig: &mut L,
    table: &Table,
    is_fresh: bool,
    wanted: Option<&'a str>,
) -> Result<UniqueId, Failure<'a>>
    ensures { IfOk result (λ unique. unique ≢ []) }
{
    connect_first(rig, is_fresh)?;
    match ask_and_allow(alloc, rig, table, wanted) {
        Ok(Some(board)) if !board.unique.is_none() => Ok(board.unique),
        Ok(_) | Err(Failure::NoBoard) => Err(Failure::NoUnique),
        Err(failure) => Err(failure),
    }
}

/// Asks a simulator in the process, and stores it.
fn ask_simulator<'a, R: Locks + AllocGlobal>(
    rt: &R,
    options: &Options<'a>,
    table: &Table,
    is_fresh: bool,
    id: u16,
    file: &'a str,
) -> Result<UniqueId, Failure<'a>> {
    let Some(chip) = table.find(id) else {
        return Err(Failure::Session(Fault::UnknownChip(id)));
    };
    let mut files = SimulatorFiles::open(rt, file, options.without_lock)?;
    let loaded = files.load(chip.clone()?)?;
    let mut memory = files.begin(loaded, Vec::new(rt.alloc()))?;
    let asked = ask_which(rt.alloc(), &mut memory, table, is_fresh, options.board);
    files.store_rig(&memory)?;
    asked
}

/// Asks what listens at a socket, beside an empty journal that takes no line.
fn ask_socket<'a, 'r, R: Locks + Net + Clock + AllocGlobal>(
    rt: &'r R,
    options: &Options<'a>,
    table: &Table,
    is_fresh: bool,
    path: &'a str,
) -> Result<Told<'r, R>, Failure<'a>> {
    let line = match connect_line(rt, options, path, give_up_of(options, false)) {
        Ok(line) => line,
        Err(failure) => return Err(failure),
    };
    let mut rig = SocketRig::new(line, JournalFile::none(rt));
    let asked = ask_which(rt.alloc(), &mut rig, table, is_fresh, options.board);
    if rig.has_given_up() {
        return Err(Failure::NoAnswer);
    }
    match asked {
        Ok(unique) => Ok(Told {
            unique,
            line: Some(rig.into_line()),
        }),
        Err(failure) => Err(failure),
    }
}

/// Asks a device which board it is.
fn ask_device<'a, 'r, R: Locks + Net + Clock + AllocGlobal>(
    rt: &'r R,
    options: &Options<'a>,
    table: &Table,
    is_fresh: bool,
) -> Result<Told<'r, R>, Failure<'a>> {
    match options.device {
        Device::Simulator { id, file } => {
            match ask_simulator(rt, options, table, is_fresh, id, file) {
                Ok(unique) => Ok(Told { unique, line: None }),
                Err(failure) => Err(failure),
            }
        }
        Device::Socket(path) => ask_socket(rt, options, table, is_fresh, path),
    }
}

/// The board that is wanted by all its digits; none where none is, or by its last ones.
fn wanted_board(alloc: Global, digits: Option<&str>) -> Result<UniqueId, AllocError> {
    match digits {
        Some(digits) => match unique_of(alloc, digits.as_bytes())? {
            Some(unique) => Ok(unique),
            None => Ok(UniqueId::none()),
        },
        None => Ok(UniqueId::none()),
    }
}

/// Where a journal of a folder can't be used, or the folder. The name of a journal is kept.
fn failure_of_trouble<'a>(folder: &'a str, trouble: Trouble, place: &'a mut Place) -> Failure<'a> {
    match trouble {
        Trouble::Folder => Failure::CannotRead(folder),
        Trouble::NotTrusted(doubt) => Failure::NotTrusted(folder, doubt),
        Trouble::Memory => Failure::Memory,
        Trouble::Unread(name) => {
            place.journal = name;
            Failure::CannotRead(place.journal.as_str())
        }
        Trouble::NoJournal(name) => {
            place.journal = name;
            Failure::NoJournal(place.journal.as_str())
        }
        Trouble::Bad(name, fault) => {
            place.journal = name;
            Failure::InJournal(place.journal.as_str(), fault)
        }
        Trouble::Misnamed(name) => {
            place.journal = name;
            Failure::Misnamed(place.journal.as_str())
        }
    }
}

/// The options of the session, whose journal is known, and the line to a device that was asked.
#[derive(Drop)]
pub struct Found<'a, 'r, R> {
    pub options: Options<'a>,
    pub line: Option<Line<'r, R>>,
}

/// The journal of the board that is wanted by all its digits; the device isn't asked yet.
fn take_wanted<'a, 'r, R: Files + AllocGlobal>(
    rt: &'r R,
    options: &Options<'a>,
    wanted: UniqueId,
    place: &'a mut Place,
) -> Result<Found<'a, 'r, R>, Failure<'a>>
    ensures { IfOk result (λ found. AreTaken options.now found.options) }
{
    if let Err(trouble) = look_at(rt, options.journal, wanted) {
        return Err(failure_of_trouble(options.journal, trouble, place));
    }
    place.journal = name_in(rt.alloc(), options.journal, wanted)?;
    Ok(Found {
        options: Options {
            journal: place.journal.as_str(),
            in_folder: false,
            ..*options
        },
        line: None,
    })
}

/// The journal of the board that the device tells. From then on it has to be that board, and it isn't
/// fresh from reset any more.
fn ask_and_take<'a, 'r, R: Locks + Net + Clock + AllocGlobal>(
    rt: &'r R,
    options: &Options<'a>,
    table: &Table,
    is_fresh: bool,
    place: &'a mut Place,
) -> Result<Found<'a, 'r, R>, Failure<'a>>
    ensures { IfOk result (λ found. AreAsked options.now found.options) }
{
    let told = match ask_device(rt, options, table, is_fresh) {
        Ok(told) => told,
        Err(failure) => return Err(failure),
    };
    let Told { unique, line } = told;
    if let Err(trouble) = look_at(rt, options.journal, unique) {
        return Err(failure_of_trouble(options.journal, trouble, place));
    }
    keep_place(rt.alloc(), options.journal, unique, place)?;
    Ok(Found {
        options: options_at(options, place),
        line,
    })
}

/// Keeps the name of a board's journal, and its digits.
fn keep_place(
    alloc: Global,
    folder: &str,
    unique: UniqueId,
    place: &mut Place,
) -> Result<(), AllocError>
    ensures journal { OnOk result (string_bytes place.new.journal ≡ journal_name folder.now unique) }
    ensures board { OnOk result (string_bytes place.new.board ≡ encode_upper unique) }
{
    let journal = name_in(alloc, folder, unique)?;
    let board = hex::encode_upper(alloc, unique.as_bytes())?;
    place.journal = journal;
    place.board = board;
    Ok(())
}

/// The options of a session with the board that has told itself.
fn options_at<'a>(options: &Options<'a>, place: &'a Place) -> Options<'a>
    ensures { (unique : List ℕ) → string_bytes place.now.journal ≡ journal_name options.now.journal.now unique
        → string_bytes place.now.board ≡ encode_upper unique → AreAsked options.now result }
{
    Options {
        journal: place.journal.as_str(),
        in_folder: false,
        board: Some(place.board.as_str()),
        is_fresh: false,
        ..*options
    }
}

/// Why a device is left alone: these journals are unfinished, or can't be used.
fn left_alone<'a, R: AllocGlobal>(
    rt: &R,
    folder: &str,
    looked: &[Looked],
    place: &'a mut Place,
) -> Failure<'a> {
    match unfinished_names(rt.alloc(), folder, looked) {
        Ok(names) => {
            place.journal = names;
            Failure::BegunJournals(place.journal.as_str())
        }
        Err(_) => Failure::Memory,
    }
}

/// The same options with a file in the place of the folder: the journal of the device's board.
pub fn find_journal<'a, 'r, R: Locks + Net + Clock + AllocGlobal + Clone + Drop>(
    rt: &'r R,
    options: &Options<'a>,
    table: &Table,
    place: &'a mut Place,
) -> Result<Found<'a, 'r, R>, Failure<'a>>
    ensures { IfOk result (λ found. AreFound options.now found.options) }
{
    let folder = options.journal;
    let looked = match look_all(rt, folder, options.trusts_others) {
        Ok(looked) => looked,
        Err(trouble) => return Err(failure_of_trouble(folder, trouble, place)),
    };
    let looked = looked.as_slice();
    let wanted = wanted_board(rt.alloc(), options.board)?;
    match choose(looked, &wanted, options.is_fresh) {
        Choice::Ask => ask_and_take(rt, options, table, false, place),
        Choice::Connect => ask_and_take(rt, options, table, true, place),
        Choice::Take => take_wanted(rt, options, wanted, place),
        Choice::Refuse => Err(left_alone(rt, folder, looked, place)),
    }
}
