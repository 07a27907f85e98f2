// The files that the words of one use name.
ghost use Rattle.std.specs.Prelude.{◌≡◌, IfOk, is_some};
ghost use Rattle.stmflash.specs.TaskUse.{is_filed};

use crate::tables::is_table;
use std::alloc::{AllocError, Global};
use std::fs;
use std::fs::Files;
use std::io::ErrorKind;
use std::os::unix::fs::MetadataExt;
use std::path::Path;
use stm_files::{
    Locks, Shown, SimulatorNames, Source, doubt_at, has_header_word, is_handed, is_same_file,
    try_beside,
};
use stm_words::{Device, Options, TableNames, Task};
use stm_work::Failure;

/// The name of standard output, as OUT.
const STANDARD: &str = "-";

/// The files that standard output and standard error lead to.
const OUT: &str = "/dev/stdout";

const ERR: &str = "/dev/stderr";

/// The files that the words of one use name.
#[derive(Drop)]
pub struct NamedFiles<'a> {
    table: TableNames<'a>,
    journal: &'a str,
    device: Device<'a>,
    images: Vec<&'a str>,
    out: Option<&'a str>,
    trusts_others: bool,
}

impl<'a> NamedFiles<'a> {
    /// Those of a task and its options.
    pub fn of(
        alloc: Global,
        options: &Options<'a>,
        task: &Task<'a>,
    ) -> Result<NamedFiles<'a>, AllocError>
        ensures { IfOk result (λ files. is_some files.out ≡ is_filed task.now) }
    {
        let out = match task {
            Task::Read { out, .. } if *out != STANDARD => Some(*out),
            Task::ReadHex { out, .. } if *out != STANDARD => Some(*out),
            _ => None,
        };
        let mut images = Vec::new(alloc);
        if let Task::Write { images: named, .. } | Task::Verify(named) = task {
            for image in named {
                images.push(image.name)?;
            }
        }
        Ok(NamedFiles {
            table: options.table,
            journal: options.journal,
            device: options.device,
            images,
            out,
            trusts_others: options.trusts_others,
        })
    }

    /// The same beside another journal.
    pub fn beside(self, journal: &'a str) -> NamedFiles<'a>
        ensures { result.out ≡ self.entry.out }
    {
        NamedFiles { journal, ..self }
    }

    /// The file that the flash's bytes are for, where they aren't printed.
    pub fn out(&self) -> Option<&'a str>
        ensures { result ≡ self.now.out }
    {
        self.out
    }

    /// Refuses a file that is to be written and is one of the others: the journal, then OUT, then
    /// the two that a simulator writes. What is told must go to none of them.
    pub fn check<R: Files + AllocGlobal>(&self, rt: &R) -> Result<(), Failure<'a>> {
        self.check_streams(rt)?;
        if self.is_read(rt, self.journal) || self.is_devices(rt, self.journal)? {
            return Err(Failure::CannotWrite(self.journal));
        }
        if let Some(out) = self.out {
            self.check_out(rt, out)?;
        }
        match self.device {
            Device::Simulator { file, .. } => self.check_simulator(rt, file),
            Device::Socket(_) => Ok(()),
        }
    }

    /// Refuses a name to which the journal is to be moved, and that is there, or is one of the
    /// others, or can't be made.
    pub fn check_new<R: Locks + AllocGlobal>(
        &self,
        rt: &R,
        to: &'a str,
    ) -> Result<(), Failure<'a>> {
        let is_free = match fs::symlink_metadata(rt, to) {
            // an empty name is of no file
            Err(e) => e.kind() == ErrorKind::NotFound && !to.is_empty(),
            Ok(_) => false,
        };
        if !is_free || self.is_devices(rt, to)? || is_same_file(rt, to, self.journal) {
            return Err(Failure::CannotWrite(to));
        }
        self.check_owner(rt, to)?;
        if let Err(e) = try_beside(rt, to) {
            return Err(Failure::of_file(&e, Failure::CannotWrite(to)));
        }
        check_file_system(rt, self.journal, to)
    }

    /// Refuses a file to write that others have or may write, unless they are trusted.
    pub fn check_owner<R: Locks + AllocGlobal>(
        &self,
        rt: &R,
        name: &'a str,
    ) -> Result<(), Failure<'a>> {
        check_owner(rt, name, self.trusts_others)
    }

    /// Refuses an OUT that is one of the others, or a journal.
    fn check_out<R: Files + AllocGlobal>(&self, rt: &R, out: &'a str) -> Result<(), Failure<'a>> {
        if is_same_file(rt, out, self.journal)
            || self.is_read(rt, out)
            || self.is_devices(rt, out)?
        {
            return Err(Failure::CannotWrite(out));
        }
        if is_journal(rt, out) {
            return Err(Failure::IsJournal(out));
        }
        Ok(())
    }

    /// Refuses a simulator's files of which one that is written is a file that is read, or another.
    fn check_simulator<R: Files + AllocGlobal>(
        &self,
        rt: &R,
        file: &'a str,
    ) -> Result<(), Failure<'a>> {
        let names = SimulatorNames::of(rt.alloc(), file)?;
        if self.is_read(rt, file) {
            return Err(Failure::CannotWrite(file));
        }
        if self.is_read(rt, names.line()) {
            return Err(Failure::CannotWriteLine(file));
        }
        Ok(names.check(rt)?)
    }

    /// Refuses standard output and standard error where they lead to one of the files: what is told would
    /// be written into it.
    pub fn check_streams<R: Files + AllocGlobal>(&self, rt: &R) -> Result<(), Failure<'a>> {
        if let Some(name) = self.led_to(rt, ERR)? {
            return Err(Failure::ErrLeads(name));
        }
        match self.led_to(rt, OUT)? {
            Some(name) => Err(Failure::OutLeads(name)),
            None => Ok(()),
        }
    }

    /// The file that a stream leads to, of these.
    fn led_to<R: Files + AllocGlobal>(
        &self,
        rt: &R,
        stream: &str,
    ) -> Result<Option<&'a str>, Failure<'a>> {
        Ok(if !is_file(rt, stream) {
            None
        } else if is_same_file(rt, stream, self.journal) {
            Some(self.journal)
        } else if self.is_devices(rt, stream)? {
            Some("a file of the device")
        } else if self.is_read(rt, stream) {
            Some("a file that is read")
        } else {
            None
        })
    }

    /// Whether the name is that of a table or of an image.
    fn is_read<R: Files + AllocGlobal>(&self, rt: &R, name: &str) -> bool {
        for image in &self.images {
            if is_same_file(rt, name, image) {
                return true;
            }
        }
        is_table(rt, name, self.table)
    }

    /// Whether the name is that of one of a simulator's files, or of the device's socket.
    fn is_devices<R: Files + AllocGlobal>(&self, rt: &R, name: &str) -> Result<bool, Failure<'a>> {
        match self.device {
            Device::Simulator { file, .. } => {
                Ok(SimulatorNames::of(rt.alloc(), file)?.have(rt, name))
            }
            Device::Socket(path) => Ok(is_same_file(rt, name, path)),
        }
    }
}

/// Whether a regular file of this name is there.
pub fn is_file<R: Files>(rt: &R, name: &str) -> bool {
    match fs::metadata(rt, name) {
        Ok(told) => told.is_file(),
        Err(_) => false,
    }
}

/// Whether a regular file of this name begins as a journal does.
fn is_journal<R: Files>(rt: &R, name: &str) -> bool {
    if !is_file(rt, name) {
        return false;
    }
    let mut begins = [0; 11];
    match Shown::open(rt, name) {
        Ok(mut shown) => match shown.fetch(0, &mut begins) {
            Ok(_) => has_header_word(&begins),
            Err(_) => false,
        },
        Err(_) => false,
    }
}

/// Whether a stream leads to the file of this name.
fn leads_to<R: Files + AllocGlobal>(rt: &R, stream: &str, name: &str) -> bool {
    is_file(rt, stream) && is_same_file(rt, stream, name)
}

/// Refuses standard output and standard error where they lead to the journal of this name.
pub fn check_streams<'a, R: Files + AllocGlobal>(
    rt: &R,
    journal: &'a str,
) -> Result<(), Failure<'a>> {
    if leads_to(rt, ERR, journal) {
        return Err(Failure::ErrLeads(journal));
    }
    if leads_to(rt, OUT, journal) {
        return Err(Failure::OutLeads(journal));
    }
    Ok(())
}

/// The number of the file system that has the file of this name, or would have it.
fn file_system<R: Files>(rt: &R, name: &str) -> Option<u64> {
    if let Ok(told) = fs::metadata(rt, name) {
        return Some(told.dev());
    }
    let folder = match Path::new(name).parent() {
        Some(folder) if !folder.as_str().is_empty() => folder,
        _ => Path::new("."),
    };
    Some(fs::metadata(rt, folder).ok()?.dev())
}

/// Refuses a name to which a journal can't be moved: one on another file system.
pub fn check_file_system<'a, R: Files>(
    rt: &R,
    journal: &str,
    to: &'a str,
) -> Result<(), Failure<'a>> {
    match (file_system(rt, journal), file_system(rt, to)) {
        (Some(here), Some(there)) if here != there => Err(Failure::OtherFileSystem(to)),
        _ => Ok(()),
    }
}

/// Refuses a file that is to be written and that others have or may write, unless they are trusted.
/// What was opened for the program is whose it may be.
pub fn check_owner<'a, R: Locks + AllocGlobal>(
    rt: &R,
    name: &'a str,
    trusts_others: bool,
) -> Result<(), Failure<'a>> {
    if trusts_others || is_handed(name) {
        return Ok(());
    }
    let looked = match fs::metadata(rt, name) {
        Ok(told) => doubt_at(rt, Some(&told), name),
        Err(_) => doubt_at(rt, None, name),
    };
    match looked {
        Ok(None) => Ok(()),
        Ok(Some(doubt)) => Err(Failure::NotTrusted(name, doubt)),
        Err(e) => Err(Failure::of_file(&e, Failure::CannotWrite(name))),
    }
}
