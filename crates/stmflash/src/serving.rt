// A simulator behind a Unix socket.
ghost use Rattle.std.specs.Prelude.{◌≡◌, ◌<◌, ◌≤◌, ℕ, List, IsTrue, length, take};
ghost use Rattle.std.specs.Io.KnownBytes.{Appends, Consumes};
ghost use Rattle.stmflash.specs.Protections.{Serves};

use crate::given_board::given_board;
use crate::protections::Protections;
use crate::tables::is_table;
use std::fs::Files;
use std::io::{ErrorKind, Read, Write};
use std::net::Net;
use std::os::unix::net::{UnixListener, UnixStream};
use std::time::Duration;
use stm_files::{
    BoundSocket, Locks, SimulatedBoard, SimulatorFiles, SimulatorNames, standing_line, tell_all,
};
use stm_session::Fault;
use stm_sim::Simulator;
use stm_wire::Chip;
use stm_words::Served;
use stm_work::{Answer, ChipTables, Failure};

/// How long a client may take no reply, in seconds.
const SLOW: u64 = 10;

/// How long a client may send nothing, in seconds.
const SILENT: u64 = 60;

/// How many bytes are read at a time.
const ROOM: usize = 512;

/// Takes bytes that come, as many as there are and the buffer holds, and answers how many: none at
/// the end of input, or where a read failed, as one does when nothing comes for too long.
fn read_some<R: Read>(reader: &mut R, bytes: &mut [u8]) -> usize
    ensures within { result ≤ length bytes.old }
    ensures length { length bytes.new ≡ length bytes.old }
    ensures taken { 0 < result → Consumes
        (R.remaining reader.old) (R.remaining reader.new) (take result bytes.new) }
{
    for _ in 0..u64::MAX {
        match reader.read(bytes) {
            Ok(count) => return count,
            Err(e) if e.kind() == ErrorKind::Interrupted => {}
            Err(_) => return 0,
        }
    }
    0
}

/// The rooms that serving takes again and again.
#[derive(Drop)]
pub struct Rooms {
    /// For one reply of the device.
    reply: Vec<u8>,
    /// For what is told of one byte.
    one: Vec<u8>,
    /// For what is told of all bytes that came together.
    told: Vec<u8>,
}

/// Feeds bytes to a simulator with protections, or without, and puts into `told` what their
/// client is told. False where memory is refused.
fn tell(sim: &mut Simulator, protected: &mut Protections, bytes: &[u8], rooms: &mut Rooms) -> bool
    ensures { IsTrue result → Serves protected.old sim.old bytes.now protected.new sim.new
        rooms.new.told.items }
{
    if protected.is_unprotected() {
        tell_all(sim, bytes, &mut rooms.reply, &mut rooms.told)
    } else {
        protected.tell_all(
            sim,
            bytes,
            &mut rooms.reply,
            &mut rooms.one,
            &mut rooms.told,
        )
    }
}

/// Takes the bytes that came, feeds them, and writes what their client is told, which stays in
/// `told`. False at the end of input, or where a read, a write or a step failed.
pub fn serve_bytes<R: Read, W: Write>(
    sim: &mut Simulator,
    protected: &mut Protections,
    reader: &mut R,
    writer: &mut W,
    rooms: &mut Rooms,
) -> bool
    ensures { IsTrue result → (bytes : List ℕ) × (0 < length bytes)
        × Consumes (R.remaining reader.old) (R.remaining reader.new) bytes
        × Serves protected.old sim.old bytes protected.new sim.new rooms.new.told.items
        × Appends (W.contents writer.old) (W.contents writer.new) rooms.new.told.items }
{
    let mut bytes = [0u8; ROOM];
    let count = read_some(reader, &mut bytes);
    count > 0
        && tell(sim, protected, &bytes[..count], rooms)
        && writer.write_all(rooms.told.as_slice()).is_ok()
}

/// Serves a simulator's clients, and removes its socket.
pub fn serve<'a, R: Locks + Net + AllocGlobal>(
    rt: &R,
    served: &Served<'a>,
) -> Result<Answer, Failure<'a>> {
    let tables = ChipTables::read(rt, served.table)?;
    match tables.chips().find(served.id) {
        Some(chip) => serve_chip(rt, chip, served),
        None => Err(Failure::Session(Fault::UnknownChip(served.id))),
    }
}

/// The same, of a simulator of this chip.
fn serve_chip<'a, R: Locks + Net + AllocGlobal>(
    rt: &R,
    chip: &Chip,
    served: &Served<'a>,
) -> Result<Answer, Failure<'a>> {
    check(rt, served)?;
    let mut files = SimulatorFiles::open(rt, served.flash, served.without_lock)?;
    let board = given_board(rt, chip, served)?;
    let mut sim = load(rt, chip, &board, &mut files)?;
    let mut protected = Protections::given(rt.alloc(), sim.chip(), served)?;
    serve_socket(rt, &mut sim, &mut protected, &board, &mut files, served)?;
    Ok(Answer::Nothing)
}

/// The simulator that the files hold, as this board, where words give one.
fn load<'a, R: Locks + AllocGlobal>(
    rt: &R,
    chip: &Chip,
    board: &Option<SimulatedBoard>,
    files: &mut SimulatorFiles<'_, 'a, R>,
) -> Result<Simulator, Failure<'a>> {
    let chip = chip.clone()?;
    let loaded = match board {
        Some(board) => files.load_as(board.chip_of(chip))?,
        None => files.load(chip)?,
    };
    let memory = files.start(loaded, Vec::new(rt.alloc()))?;
    Ok(memory.into_simulator())
}

/// Makes the socket, serves the clients, and removes the socket, whatever came of it. The board that
/// words give is in its file before.
fn serve_socket<'a, R: Locks + Net + AllocGlobal>(
    rt: &R,
    sim: &mut Simulator,
    protected: &mut Protections,
    board: &Option<SimulatedBoard>,
    files: &mut SimulatorFiles<'_, 'a, R>,
    served: &Served<'a>,
) -> Result<(), Failure<'a>> {
    let socket = match BoundSocket::bind(rt, served.socket, served.mode) {
        Ok(socket) => socket,
        Err(e) => return Err(Failure::of_file(&e, Failure::CannotConnect(served.socket))),
    };
    let done = match make_files(rt, sim, board, files, served) {
        Ok(()) => serve_clients(rt, sim, protected, socket.listener(), files, served),
        Err(failure) => Err(failure),
    };
    socket.remove(rt);
    done
}

/// Writes the file of the board that words give, and makes that of the flash where it isn't there.
fn make_files<'a, R: Locks + AllocGlobal>(
    rt: &R,
    sim: &Simulator,
    board: &Option<SimulatedBoard>,
    files: &mut SimulatorFiles<'_, 'a, R>,
    served: &Served<'a>,
) -> Result<(), Failure<'a>> {
    if let Some(board) = board {
        board.store(rt, served.flash)?;
    }
    Ok(files.make(sim.flash())?)
}

/// Refuses a socket that is one of the simulator's files, and files of which one
/// that is written is a table or another.
fn check<'a, R: Files + AllocGlobal>(rt: &R, served: &Served<'a>) -> Result<(), Failure<'a>> {
    let names = SimulatorNames::of(rt.alloc(), served.flash)?;
    if is_table(rt, served.flash, served.table) {
        return Err(Failure::CannotWrite(served.flash));
    }
    if is_table(rt, names.line(), served.table) {
        return Err(Failure::CannotWriteLine(served.flash));
    }
    let sets_board = served.unique.is_some() || served.size.is_some();
    if sets_board && is_table(rt, names.board(), served.table) {
        return Err(Failure::CannotWriteBoard(served.flash));
    }
    names.check(rt)?;
    if names.have(rt, served.socket) {
        return Err(Failure::CannotWrite(served.socket));
    }
    Ok(())
}

/// Serves one client after the other, and writes the simulator's files after each. A client that
/// goes, or sends nothing or takes no reply for a while, leaves the device with its rest.
fn serve_clients<'a, R: Locks + AllocGlobal>(
    rt: &R,
    sim: &mut Simulator,
    protected: &mut Protections,
    listener: &UnixListener,
    files: &mut SimulatorFiles<'_, 'a, R>,
    served: &Served<'a>,
) -> Result<(), Failure<'a>> {
    let mut rooms = Rooms {
        reply: Vec::new(rt.alloc()),
        one: Vec::new(rt.alloc()),
        told: Vec::new(rt.alloc()),
    };
    for _ in 0..served.clients {
        let stream = accept(listener, served.socket)?;
        let _ = stream.set_write_timeout(Some(Duration::from_secs(SLOW)));
        let _ = stream.set_read_timeout(Some(Duration::from_secs(SILENT)));
        for _ in 0..u64::MAX {
            if !serve_bytes(sim, protected, &mut &stream, &mut &stream, &mut rooms) {
                break;
            }
        }
        store(rt, sim, files)?;
    }
    Ok(())
}

/// The next client. A signal that comes meanwhile is no end: the system's call goes on by itself.
fn accept<'a>(listener: &UnixListener, socket: &'a str) -> Result<UnixStream, Failure<'a>> {
    match listener.accept() {
        Ok((stream, _)) => Ok(stream),
        Err(e) => Err(Failure::of_file(&e, Failure::CannotConnect(socket))),
    }
}

/// Writes the simulator's files.
fn store<'a, R: Locks + AllocGlobal>(
    rt: &R,
    sim: &Simulator,
    files: &mut SimulatorFiles<'_, 'a, R>,
) -> Result<(), Failure<'a>> {
    let line = standing_line(rt.alloc(), sim.is_gone(), sim.rest())?;
    Ok(files.store(sim.flash(), line.as_slice())?)
}
