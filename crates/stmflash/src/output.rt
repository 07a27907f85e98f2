// Where the bytes of a flash go that were read.
ghost use Rattle.std.specs.Prelude.{◌≡◌, IfOk, is_some, length, true};
ghost use Rattle.stm_files.specs.PageSum.{page_sum};
ghost use Rattle.stmflash.specs.DeviceUse.{AreOut, AreOutOf, goes_out};

use crate::named_files::{NamedFiles, is_file};
use std::fs::{Files, OpenFile, OpenOptions};
use std::io::{ErrorKind, Write};
use std::{fs, io};
use stm_files::{
    ANYONE, Locks, Replacement, is_handed, is_same_file, is_untaken, open_stream, sum_of_page,
    try_beside,
};
use stm_work::{Answer, Failure, Steps};

/// Where the bytes of a flash go that were read.
#[derive(Drop)]
pub enum Output<'a, R: Files> {
    /// None are asked for, or they are printed.
    Printed,
    /// A file, whose bytes are replaced whole, and which is none of the others that are named.
    Whole {
        name: &'a str,
        files: NamedFiles<'a>,
    },
    /// A pipe or a device, to which they are written as they come.
    Straight {
        name: &'a str,
        file: R::File,
    },
}

impl<'a, R: Locks + AllocGlobal> Output<'a, R> {
    /// The output among the files that are named. It is tried whether it can be written: a file is
    /// opened, and stays as it is; and one is made beside it, and removed. One that others have or
    /// may write is refused, and what takes no bytes.
    pub fn open(rt: &R, files: NamedFiles<'a>) -> Result<Output<'a, R>, Failure<'a>>
        ensures { IfOk result (λ output. goes_out output ≡ is_some files.entry.out) }
    {
        let Some(name) = files.out() else {
            return Ok(Output::Printed);
        };
        files.check_owner(rt, name)?;
        if is_handed(name) && is_file(rt, name) {
            return Err(Failure::IsOpened(name));
        }
        match Output::try_open(rt, name, files) {
            Ok(output) => Ok(output),
            Err(e) if is_untaken(&e) => Err(Failure::NoOutput(name)),
            Err(e) => Err(Failure::of_file(&e, Failure::CannotWrite(name))),
        }
    }

    fn try_open(rt: &R, name: &'a str, files: NamedFiles<'a>) -> io::Result<Output<'a, R>>
        ensures { IfOk result (λ output. goes_out output ≡ true) }
    {
        if let Some(file) = open_straight(rt, name)? {
            return Ok(Output::Straight { name, file });
        }
        try_beside(rt, name)?;
        Ok(Output::Whole { name, files })
    }

    /// Writes the bytes. False where they are to be printed.
    pub fn write(self, rt: &R, bytes: &[u8]) -> Result<bool, Failure<'a>>
        ensures { IfOk result (λ is_out. is_out ≡ goes_out self.entry) }
    {
        match self {
            Output::Printed => Ok(false),
            Output::Whole { name, files } => {
                replace(rt, name, &files, bytes)?;
                Ok(true)
            }
            Output::Straight { name, mut file } => match file.write_all(bytes) {
                Ok(()) => Ok(true),
                Err(e) => Err(Failure::of_file(&e, Failure::CannotWrite(name))),
            },
        }
    }
}

/// Opens what is there to write it, and answers a pipe or a device. A file stays as it is.
fn open_straight<R: Locks>(rt: &R, name: &str) -> io::Result<Option<R::File>> {
    let told = match fs::metadata(rt, name) {
        Ok(told) => told,
        Err(e) if e.kind() == ErrorKind::NotFound => return Ok(None),
        Err(e) => return Err(e),
    };
    if !told.is_file() {
        return Ok(Some(open_stream(rt, name, &told)?));
    }
    let _file = OpenOptions::new().write(true).open(rt, name)?;
    Ok(None)
}

/// Puts bytes in a file, in place of what it held: all of them, or, where this fails or
/// is broken off, none. The names are compared once more, and whose they are, since files were made by
/// now, and links may have been.
fn replace<'a, R: Locks + AllocGlobal>(
    rt: &R,
    name: &'a str,
    files: &NamedFiles<'a>,
    bytes: &[u8],
) -> Result<(), Failure<'a>> {
    let beside = match Replacement::prepare(rt, name, bytes, ANYONE) {
        Ok(beside) => beside,
        Err(e) => return Err(Failure::of_file(&e, Failure::CannotWrite(name))),
    };
    if let Err(failure) = check_again(rt, name, files, beside.target()) {
        beside.discard(rt);
        return Err(failure);
    }
    match beside.place(rt) {
        Ok(_) => Ok(()),
        Err(e) => Err(Failure::of_file(&e, Failure::CannotWrite(name))),
    }
}

/// Refuses an OUT that is one of the other files by now, or another's, or leads elsewhere than to
/// this path.
fn check_again<'a, R: Locks + AllocGlobal>(
    rt: &R,
    name: &'a str,
    files: &NamedFiles<'a>,
    path: &str,
) -> Result<(), Failure<'a>> {
    files.check(rt)?;
    files.check_owner(rt, name)?;
    if is_same_file(rt, name, path) {
        Ok(())
    } else {
        Err(Failure::CannotWrite(name))
    }
}

/// Writes the bytes that are for a file, where there are some, and hands the answer on; of bytes
/// that are in a file it is told how many they are, and their CRC.
fn write_out<'a, R: Locks + AllocGlobal>(
    rt: &R,
    steps: Steps<'a>,
    output: Output<'a, R>,
) -> Result<Steps<'a>, Failure<'a>>
    ensures { IfOk result (AreOut (goes_out output.entry) steps.entry) }
{
    let Answer::Bytes(bytes) = &steps.answer else {
        return Ok(steps);
    };
    if !output.write(rt, bytes.as_slice())? {
        return Ok(steps);
    }
    let answer = filed(bytes.as_slice());
    Ok(Steps {
        board: steps.board,
        answer,
        kept: None,
        failure: steps.failure,
        used: None,
    })
}

/// What is told of bytes that are in a file.
fn filed(bytes: &[u8]) -> Answer
    ensures { result ≡ Answer.Filed (length bytes.now) (page_sum bytes.now) }
{
    Answer::Filed {
        bytes: bytes.len(),
        crc: sum_of_page(bytes),
    }
}

/// The same of what came of a session.
pub fn write_done<'a, R: Locks + AllocGlobal>(
    rt: &R,
    done: Result<Steps<'a>, Failure<'a>>,
    output: Output<'a, R>,
) -> Result<Steps<'a>, Failure<'a>>
    ensures { IfOk result (AreOutOf (goes_out output.entry) done.entry) }
{
    match done {
        Ok(steps) => write_out(rt, steps, output),
        Err(failure) => Err(failure),
    }
}
