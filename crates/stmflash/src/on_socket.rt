// A device behind a socket: its journal is opened, its line is connected, and both are closed, whatever
// came of it.
ghost use Rattle.std.specs.Prelude.{IfOk};
ghost use Rattle.stmflash.specs.DeviceUse.{AreLeft, goes_out};

use crate::first_question::Line;
use crate::output::{Output, write_done};
use crate::planned_session::{Taken, checked_extent, failed_if};
use std::fs;
use std::fs::Files;
use std::net::Net;
use std::os::unix::fs::FileTypeExt;
use std::os::unix::net::UnixStream;
use std::time::Clock;
use stm_files::{JournalFile, Locks, SocketLine, SocketRig};
use stm_words::Options;
use stm_work::{Failure, Steps, Work, done_on, serving_journal};

/// The least and the most seconds without an answer before a line is given up, if no word says it.
const LEAST: u32 = 4;

const MOST: u32 = 20;

/// Why there is no line to the device of this name: it is a port, or nothing listens there.
fn unconnected<'a, R: Files>(rt: &R, path: &'a str) -> Failure<'a> {
    match fs::metadata(rt, path) {
        Ok(told) if told.file_type().is_char_device() => Failure::IsPort(path),
        _ => Failure::CannotConnect(path),
    }
}

/// After how many seconds without an answer a line is given up, unless that is said. A device that is
/// settled answers the first bytes; one whose command is undone may await thousands before, and what it
/// answers them counts as none for three and a half waits.
pub fn give_up_of(options: &Options, is_undo: bool) -> u32 {
    match options.give_up {
        Some(0) => 0,
        Some(seconds) if is_undo => seconds.max(options.wait / 286 + 1),
        Some(seconds) => seconds,
        None if is_undo => MOST,
        None => (options.wait / 100).clamp(LEAST, MOST),
    }
}

/// A line to what listens at a socket, given up after so many seconds without an answer. A device that
/// is said to be fresh from reset owes nothing, so that its line is quiet. A session that settles it is quiet for a whole wait first all the same.
pub fn connect_line<'a, 'r, R: Files + Net + Clock>(
    rt: &'r R,
    options: &Options<'a>,
    path: &'a str,
    give_up: u32,
) -> Result<Line<'r, R>, Failure<'a>> {
    let (wait, give_up) = (u64::from(options.wait), u64::from(give_up));
    let is_quiet = options.is_fresh;
    match SocketLine::connect(rt, rt, path, wait, options.baud, is_quiet, give_up) {
        Ok(line) => Ok(line),
        Err(e) => Err(Failure::of_file(&e, unconnected(rt, path))),
    }
}

/// A journal, and the line to what listens at a socket: the one that there is, or a new one.
pub fn open_socket<'a: 'r, 'r, R: Locks + Net + Clock + AllocGlobal>(
    rt: &'r R,
    options: &Options<'a>,
    work: &Work,
    path: &'a str,
    line: Option<Line<'r, R>>,
) -> Result<SocketRig<'r, UnixStream, R>, Failure<'a>> {
    let name = options.journal;
    let opened = JournalFile::open(rt, name, options.without_lock, options.trusts_others);
    let journal = serving_journal(rt, opened, name, checked_extent(work, options))?;
    let line = match line {
        Some(line) => line,
        None => connect_line(rt, options, path, give_up_of(options, work.is_undo()))?,
    };
    Ok(SocketRig::new(line, journal))
}

/// Closes the line and the journal of this name behind a session; what was read goes out.
pub fn close_socket<'a, 'r, R: Locks + Clock + AllocGlobal>(
    rt: &'r R,
    name: &'a str,
    taken: Taken<'a, SocketRig<'r, UnixStream, R>>,
    output: Output<'a, R>,
) -> Result<Steps<'a>, Failure<'a>>
    ensures { IfOk result (AreLeft (goes_out output.entry) taken.entry.done) }
{
    let Taken { rig, done } = taken;
    let done = failed_if(rig.has_given_up(), done, Failure::NoAnswer);
    let done = done_on(rig.into_journal(), name, done);
    write_done(rt, done, output)
}
