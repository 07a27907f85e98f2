// A journal that is cut to its newest segments: the others are given up.
ghost use Rattle.std.specs.Prelude.{◌≡◌, ◌-◌, IfOk};
ghost use Rattle.stm_work.specs.Keeping.{IsCutTo};

use crate::journal_tasks::load;
use std::fs::Files;
use stm_files::{
    ALONE, Begun, CutText, JournalFile, Locks, Replacement, Shown, Unusable, has_same_pages,
    is_cut, remove_leftovers,
};
use stm_journal::Journal;
use stm_session::Fault;
use stm_work::{Answer, Failure, count_kept};

/// Gives up all but so many segments of a journal, the newest, which can still be undone. None of
/// them may be unfinished. The text of what is left is written beside the journal, read again, and
/// takes its place in one step; what was undone, and lines that count as nothing, are gone then.
pub fn keep_newest<'a, R: Locks + AllocGlobal>(
    rt: &R,
    name: &'a str,
    journal: Journal,
    begun: Begun,
    mut file: JournalFile<'_, R>,
    last: u32,
) -> Result<Answer, Failure<'a>>
    ensures { IfOk result (IsCutTo last journal.state) }
{
    let depth = count_kept(&journal)?;
    let count = given_up(depth, last);
    remove_leftovers(rt, name);
    let beside = cut_beside(rt, name, &journal, begun, &mut file, count)?;
    if let Err(e) = file.check_unchanged() {
        beside.discard(rt);
        return Err(Failure::of_reason(Some(e)));
    }
    match beside.place(rt) {
        Ok(_) => Ok(Answer::Kept {
            count,
            left: Some(depth - count),
        }),
        Err(e) => Err(Failure::of_file(&e, Failure::CannotWrite(name))),
    }
}

/// How many of so many segments are given up, where so many of the newest are to be left.
fn given_up(depth: u32, last: u32) -> u32
    ensures { result ≡ depth - last }
{
    depth.saturating_sub(last)
}

/// Writes the text of a journal without so many of its oldest segments beside it, where it's on the
/// disk then.
fn cut_beside<'a, R: Locks + AllocGlobal>(
    rt: &R,
    name: &'a str,
    journal: &Journal,
    begun: Begun,
    file: &mut JournalFile<'_, R>,
    given_up: u32,
) -> Result<Replacement<R>, Failure<'a>> {
    let beside = match Replacement::begin(rt, name, ALONE) {
        Ok(beside) => beside,
        Err(e) => return Err(Failure::of_file(&e, Failure::CannotWrite(name))),
    };
    let mut text = CutText::new(rt.alloc(), beside, begun);
    let written = text.write(rt, name, journal, file, given_up);
    let beside = text.into_file();
    let is_right = match written {
        Ok(()) => reads_back(rt, name, journal, file, given_up, &beside),
        Err(fault) => Err(Failure::from(fault)),
    };
    match is_right {
        Ok(true) => Ok(beside),
        Ok(false) => {
            beside.discard(rt);
            Err(Failure::CannotWrite(name))
        }
        Err(failure) => {
            beside.discard(rt);
            Err(failure)
        }
    }
}

/// Whether the text beside a journal, as it's read from the disk, is that of the journal without so
/// many of its oldest segments.
fn reads_back<'a, R: Locks + AllocGlobal>(
    rt: &R,
    name: &'a str,
    journal: &Journal,
    file: &mut JournalFile<'_, R>,
    given_up: u32,
    beside: &Replacement<R>,
) -> Result<bool, Failure<'a>> {
    let shown = match Shown::open(rt, beside.path()) {
        Ok(shown) => shown,
        // the text isn't even a journal
        Err(Unusable::NoJournal) => return Ok(false),
        Err(why) => return Err(Failure::of_journal(why, name)),
    };
    let (new, rig) = match load(rt.alloc(), name, shown) {
        Ok(loaded) => loaded,
        Err(Failure::Session(Fault::Memory)) => return Err(Failure::Memory),
        Err(_) => return Ok(false),
    };
    let mut shown = rig.into_source();
    if !is_cut(journal, &new, given_up) {
        return Ok(false);
    }
    Ok(has_same_pages(journal, file, &new, &mut shown, given_up, name)?)
}
