// What is done with a journal alone: it is looked at, or its way back is given up.
ghost use Rattle.std.specs.Prelude.{IfOk};
ghost use Rattle.stm_journal.specs.States.{StateData};
ghost use Rattle.stm_work.specs.Keeping.{IsGivenUp};
ghost use Rattle.stmflash.specs.JournalTasks.{TellsKept, TellsLog};

use crate::cut_journal::keep_newest;
use crate::named_files::{check_file_system, check_owner, check_streams};
use std::alloc::Global;
use std::fs;
use std::fs::Files;
use stm_files::{
    Begun, JournalFile, JournalRig, Locks, Noting, Shown, Source, check_journal, give_up_journal,
    log_lines,
};
use stm_journal::{Journal, JournalFault};
use stm_session::Fault;
use stm_words::{Extent, Kept};
use stm_work::{Answer, Failure, count_kept, find_damaged, list_segments};

/// Reads a journal, and hands back what it was read from.
pub fn load<'a, S: Source + Drop>(
    alloc: Global,
    name: &'a str,
    source: S,
) -> Result<(Journal, JournalRig<S>), Failure<'a>> {
    let mut rig = JournalRig::new(source);
    match Journal::load(alloc, &mut rig) {
        Ok(journal) => Ok((journal, rig)),
        Err(fault) => Err(unread(name, fault)),
    }
}

/// Tells what the journal in a file says by now. It isn't locked: a session beside it goes on, and
/// adds whole lines, of which the last may be torn and counts as nothing.
pub fn log<'a, R: Files + AllocGlobal>(rt: &R, name: &'a str) -> Result<Answer, Failure<'a>>
    ensures { IfOk result (λ told. (state : StateData) × TellsLog state told) }
{
    check_streams(rt, name)?;
    let shown = match Shown::open(rt, name) {
        Ok(shown) => shown,
        Err(why) => return Err(Failure::of_journal(why, name)),
    };
    let (journal, rig) = load(rt.alloc(), name, Noting::new(rt.alloc(), shown))?;
    let (_shown, begun) = rig.into_source().into_parts();
    tell(rt.alloc(), &journal, begun)
}

/// Reads the journal in a file whole, and tells of what it's made, unless a page of it has another CRC
/// than when it was kept. It isn't locked either: what is
/// there when this begins is read, and what a session beside it adds meanwhile isn't.
pub fn check<'a, R: Files + AllocGlobal>(rt: &R, name: &'a str) -> Result<Answer, Failure<'a>> {
    check_streams(rt, name)?;
    let shown = match Shown::open_by_now(rt, name) {
        Ok(shown) => shown,
        Err(why) => return Err(Failure::of_journal(why, name)),
    };
    let mut rig = JournalRig::new(shown);
    let text = match check_journal(rt.alloc(), &mut rig) {
        Ok(text) => text,
        Err(fault) => return Err(unread(name, fault)),
    };
    match find_damaged(rt.alloc(), &mut rig, Extent::Newest(0)) {
        Ok(None) => Ok(Answer::Logged {
            text,
            segments: Vec::new(rt.alloc()),
        }),
        Ok(Some(found)) => Err(Failure::PageDamaged(found.page, found.segment)),
        Err(fault) => Err(unread(name, fault)),
    }
}

/// Why the journal in the file of this name wasn't read.
fn unread<'a>(name: &'a str, fault: JournalFault) -> Failure<'a> {
    match fault {
        JournalFault::File => Failure::CannotRead(name),
        fault => Failure::Session(Fault::from(fault)),
    }
}

/// The journal in a file as it is by now, without a lock.
pub fn look<'a, R: Files + AllocGlobal>(rt: &R, name: &'a str) -> Result<Journal, Failure<'a>> {
    let shown = match Shown::open(rt, name) {
        Ok(shown) => shown,
        Err(why) => return Err(Failure::of_journal(why, name)),
    };
    let (journal, _shown) = load(rt.alloc(), name, shown)?;
    Ok(journal)
}

/// What a journal says.
fn tell<'a>(alloc: Global, journal: &Journal, begun: Begun) -> Result<Answer, Failure<'a>>
    ensures { IfOk result (TellsLog journal.now.state) }
{
    Ok(Answer::Logged {
        text: log_lines(alloc, journal, &begun)?,
        segments: list_segments(alloc, journal, &begun)?,
    })
}

/// Lets the writes and erases of a journal stay: the journal, which has to be there, is removed, or
/// renamed to a name that isn't; or it's cut to its newest ones. This program has it for itself
/// until then.
pub fn keep<'a, R: Locks + AllocGlobal>(rt: &R, kept: &Kept<'a>) -> Result<Answer, Failure<'a>>
    ensures { IfOk result (λ told. (state : StateData) × TellsKept kept.now.last state told) }
{
    check_streams(rt, kept.journal)?;
    let file = match JournalFile::open(rt, kept.journal, kept.without_lock, kept.trusts_others) {
        Ok(file) => file,
        Err(why) => return Err(Failure::of_journal(why, kept.journal)),
    };
    if !file.is_there() {
        return Err(Failure::CannotRead(kept.journal));
    }
    if let Some(to) = kept.to {
        check_owner(rt, to, kept.trusts_others)?;
        check_file_system(rt, kept.journal, to)?;
    }
    let (journal, rig) = load(rt.alloc(), kept.journal, Noting::new(rt.alloc(), file))?;
    if journal.id().is_none() && is_large(rt, kept.journal) {
        return Err(Failure::NoJournal(kept.journal));
    }
    let (file, begun) = rig.into_source().into_parts();
    match kept.last {
        Some(last) => keep_newest(rt, kept.journal, journal, begun, file, last),
        None => keep_loaded(rt, &journal, &file, kept),
    }
}

/// Whether a file has more bytes than a file system's block, and so than stopped appends of a header leave.
fn is_large<R: Files>(rt: &R, name: &str) -> bool {
    match fs::metadata(rt, name) {
        Ok(told) => told.len() > 4096,
        Err(_) => false,
    }
}

/// The same, of a journal that was read from this file, to which its name has to lead still.
fn keep_loaded<'a, R: Locks + AllocGlobal>(
    rt: &R,
    journal: &Journal,
    file: &JournalFile<'_, R>,
    kept: &Kept<'a>,
) -> Result<Answer, Failure<'a>>
    ensures { IfOk result (IsGivenUp journal.now.state) }
{
    let count = count_kept(journal)?;
    if let Err(e) = file.check_unchanged() {
        return Err(Failure::of_reason(Some(e)));
    }
    give_up_journal(rt, journal, kept.journal, kept.to)?;
    Ok(Answer::Kept { count, left: None })
}
