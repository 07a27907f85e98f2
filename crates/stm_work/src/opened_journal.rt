// The journal's file of one use: whether it can be read, and gives back what was kept, and whether what
// was added to it stays.
ghost use Rattle.std.specs.Prelude.{◌≡◌, ℕ, IfOk};
ghost use Rattle.stm_journal.specs.InMemory.{forget_state};
ghost use Rattle.stm_journal.specs.Journals.{good, journal_of};
ghost use Rattle.stm_journal.specs.States.{StateData};
ghost use Rattle.stm_files.specs.Damage.{FindsDamage};
ghost use Rattle.stm_work.specs.Plan.{TellsSteps};
ghost use Rattle.stm_work.specs.WayBack.{IsCount};

use crate::failure::Failure;
use crate::steps::{Steps, failed_by, failure_of};
use crate::way_back::count_of;
use std::alloc::Global;
use std::io::ErrorKind;
use stm_files::{
    Damage, JournalFile, JournalRig, Locks, Source, TextSource, Unusable, find_damage,
};
use stm_journal::{Journal, JournalFault};
use stm_session::Fault;
use stm_wire::Rig;
use stm_words::Extent;

/// The first page that has other digits in a journal than were kept, of the segments that an undo takes
/// which goes back so far.
pub fn find_damaged<L: Rig>(
    alloc: Global,
    rig: &mut L,
    extent: Extent,
) -> Result<Option<Damage>, JournalFault>
    ensures { let old = L.view rig.old in old.is_honest → IfOk result (λ found. (s : StateData)
        × (journal_of old.journal ≡ good s) × ((taken : ℕ) × IsCount extent (forget_state s) taken
        × FindsDamage old.journal s taken found)) }
{
    let journal = Journal::load(alloc, rig)?;
    let count = count_of(&journal, extent);
    find_damage(alloc, rig, &journal, count)
}

/// Refuses a journal of which an undo would give back what wasn't kept, and hands it back. What else is
/// the matter with it is told by the session.
fn check_kept<'a, S: Source + Drop>(
    alloc: Global,
    source: S,
    extent: Extent,
) -> Result<S, Failure<'a>> {
    let mut rig = JournalRig::new(source);
    match find_damaged(alloc, &mut rig, extent) {
        Ok(Some(found)) => Err(Failure::PageDamaged(found.page, found.segment)),
        Err(JournalFault::Memory) => Err(Failure::Memory),
        _ => Ok(rig.into_source()),
    }
}

/// The journal that was opened, if it can be read.
fn readable_journal<'a, 'b, R: Locks + AllocGlobal>(
    opened: Result<JournalFile<'b, R>, Unusable>,
    name: &'a str,
) -> Result<JournalFile<'b, R>, Failure<'a>> {
    let mut journal = match opened {
        Ok(journal) => journal,
        Err(why) => return Err(Failure::of_journal(why, name)),
    };
    match journal.fetch(0, &mut [0]) {
        Ok(_) => Ok(journal),
        Err(e) => Err(Failure::of_file(&e, Failure::CannotRead(name))),
    }
}

/// The same, where what an undo gives back that is to follow is as it was kept.
pub fn serving_journal<'a, 'b, R: Locks + AllocGlobal>(
    rt: &R,
    opened: Result<JournalFile<'b, R>, Unusable>,
    name: &'a str,
    checked: Option<Extent>,
) -> Result<JournalFile<'b, R>, Failure<'a>> {
    let journal = readable_journal(opened, name)?;
    match checked {
        Some(extent) => check_kept(rt.alloc(), journal, extent),
        None => Ok(journal),
    }
}

/// The same, with the journal's bytes.
pub fn read_journal<'a, 'b, R: Locks + AllocGlobal>(
    rt: &R,
    opened: Result<JournalFile<'b, R>, Unusable>,
    name: &'a str,
    checked: Option<Extent>,
) -> Result<(JournalFile<'b, R>, Vec<u8>), Failure<'a>> {
    let mut journal = readable_journal(opened, name)?;
    let bytes = match journal.read() {
        Ok(bytes) => bytes,
        Err(e) => return Err(Failure::of_file(&e, Failure::CannotRead(name))),
    };
    if let Some(extent) = checked {
        let text = TextSource {
            bytes: bytes.as_slice(),
        };
        let _ = check_kept(rt.alloc(), text, extent)?;
    }
    Ok((journal, bytes))
}

/// Why a journal failed.
fn failure_on<'a, R: Locks + AllocGlobal>(
    journal: &mut JournalFile<'_, R>,
    name: &'a str,
) -> Failure<'a> {
    match journal.take_reason() {
        // a file that was read, and whose name leads nowhere now
        Some(e) if e.kind() == ErrorKind::NotFound && journal.is_there() => failure_moved(
            journal, name,
        ),
        reason => match Failure::of_reason(reason) {
            Failure::JournalMoved => failure_moved(journal, name),
            failure => failure,
        },
    }
}

/// The failure of a journal whose file went away, which is put into another.
fn failure_moved<'a, R: Locks + AllocGlobal>(
    journal: &mut JournalFile<'_, R>,
    name: &'a str,
) -> Failure<'a> {
    match journal.rescue(name) {
        Some(file) => Failure::JournalRescued(file),
        None => Failure::JournalMoved,
    }
}

/// What came of a session with the journal of this name. It was done only if what was added to the
/// journal is still there; and of a journal that failed it's told why.
pub fn done_on<'a, R: Locks + AllocGlobal>(
    mut journal: JournalFile<'_, R>,
    name: &'a str,
    done: Result<Steps<'a>, Failure<'a>>,
) -> Result<Steps<'a>, Failure<'a>>
    ensures { TellsSteps done.entry result }
{
    if let Some(why) = journal.take_refusal() {
        return Err(Failure::of_journal(why, name));
    }
    match failure_of(&done) {
        None if !journal.stays() => Err(failure_on(&mut journal, name)),
        Some(Failure::Session(Fault::Journal)) => {
            failed_by(done, failure_on(&mut journal, name))
        }
        Some(Failure::JournalMoved) => failed_by(done, failure_moved(&mut journal, name)),
        _ => done,
    }
}
