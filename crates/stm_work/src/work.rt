// What is done on a device, whether or not the table has its chip.
ghost use Rattle.std.specs.Prelude.{◌≡◌, IfOk};
ghost use Rattle.stm_work.specs.Action.{IsDoneAgain, UndoesBack, Works, told_itself};
ghost use Rattle.stm_work.specs.Action.{work_unless_fresh};
ghost use Rattle.stm_work.specs.Board.{asking_if, asking_of};
ghost use Rattle.stm_work.specs.Plan.{leaves};
ghost use Rattle.stm_work.specs.TaskWork.{IsWorkFor};

use crate::action::Action;
use crate::answer::Answer;
use crate::board::Asking;
use crate::failure::Failure;
use crate::false_erase::first_false_erase;
use crate::hint::Hint;
use crate::progress_course::Goal;
use crate::reading_hex::read_as_hex;
use crate::summing::sum;
use crate::way_back::WayBack;
use std::alloc::{AllocError, Global};
use std::fs::Files;
use stm_chip::Table;
use stm_session::{Told, identify};
use stm_wire::{Protection, Rig};
use stm_words::{Extent, Range, Task};

/// What is done on a device.
#[derive(Drop)]
pub enum Work {
    /// It tells what it is, and no table has to have its chip.
    Identify,
    /// It tells the CRC of its flash, or of a part of it.
    Sum(Option<Range>),
    /// It reads its flash or a part of it as HEX, and may leave out what is blank.
    ReadHex {
        range: Option<Range>,
        skips_blank: bool,
    },
    /// It undoes writes and erases as far back as is said, and may read what it gave back again.
    Undo {
        extent: Extent,
        verifies: bool,
    },
    /// What is done on a chip of the table.
    Act(Action),
}

/// What may be to be done behind a work.
#[derive(Clone, Copy, PartialEq, Eq)]
pub enum Next {
    /// Nothing that is told.
    Nothing,
    /// It takes the write protection off, which is refused while there is something to undo.
    Unprotecting,
    /// An undo, at a board without write protection.
    Undo,
    /// It is an undo, and another board may answer than at first.
    UndoAgain,
}

impl Work {
    /// What a task asks for. The files of images are read.
    pub fn of<'a, R: Files + AllocGlobal>(
        rt: &R,
        table: &Table,
        task: Task<'a>,
    ) -> Result<Work, Failure<'a>>
        ensures { IfOk result (IsWorkFor task.entry) }
    {
        match task {
            Task::Info { is_raw: true } => Ok(Work::Identify),
            Task::Sum(range) => Ok(Work::Sum(range)),
            Task::ReadHex {
                range,
                skips_blank,
                ..
            } => Ok(Work::ReadHex { range, skips_blank }),
            Task::Undo { extent, verifies } => Ok(Work::Undo { extent, verifies }),
            task => Ok(Work::Act(Action::of(rt, table, task)?)),
        }
    }

    /// Whether it undoes writes and erases.
    pub fn is_undo(&self) -> bool {
        match self {
            Work::Act(action) => action.is_undo(),
            Work::Undo { .. } => true,
            _ => false,
        }
    }

    /// How far back it undoes, if it does, where its journal isn't trusted.
    pub fn extent(&self) -> Option<Extent> {
        match self {
            Work::Act(Action::Undo(count)) | Work::Act(Action::UndoVerified(count)) => {
                Some(Extent::Newest(*count))
            }
            Work::Undo { extent, .. } => Some(*extent),
            _ => None,
        }
    }

    /// Where it writes bytes of an image which a device that loses power in the midst would take for
    /// an erase.
    pub fn false_erase(&self) -> Option<Hint> {
        match self {
            Work::Act(Action::Write(content)) | Work::Act(Action::WriteAndVerify(content)) => {
                first_false_erase(content)
            }
            _ => None,
        }
    }

    /// Whether it changes the flash, and adds to the journal what leads back.
    pub fn is_change(&self) -> bool {
        match self {
            Work::Act(action) => matches!(
                action,
                Action::Write(_) | Action::WriteAndVerify(_) | Action::Erase(_) | Action::EraseAll
            ),
            _ => false,
        }
    }

    /// The same where the device may be said to be fresh from reset.
    pub fn unless_fresh(self, is_fresh: bool) -> Work
        ensures { result ≡ work_unless_fresh is_fresh self }
    {
        match self {
            Work::Act(action) => Work::Act(action.unless_fresh(is_fresh)),
            work => work,
        }
    }

    /// Whether it is Go or a protection that want a journal without segments.
    pub fn leaves(&self) -> bool
        ensures { result ≡ leaves self.now }
    {
        matches!(
            self,
            Work::Act(Action::Go(_)) | Work::Act(Action::Protect(_))
        )
    }

    /// What may be to be done behind it.
    pub fn next(&self) -> Next {
        match self {
            Work::Act(Action::Protect(Protection::WriteUnprotect)) => Next::Unprotecting,
            Work::Act(Action::UnprotectFresh) | Work::Act(Action::UnprotectBegun) => Next::Undo,
            Work::Undo { .. } => Next::UndoAgain,
            _ => Next::Nothing,
        }
    }

    /// Beside which journals its device is asked first which board it is.
    pub fn asking(&self) -> Asking
        ensures { result ≡ asking_of self.now }
    {
        match self {
            Work::Act(Action::Go(_)) | Work::Act(Action::Protect(_)) => Asking::OfClosed,
            Work::Act(Action::Undo(_)) | Work::Act(Action::UndoVerified(_)) | Work::Undo { .. } => {
                Asking::OfBegun
            }
            _ => Asking::OfFinished,
        }
    }

    /// The same where devices are asked at all. One whose write protection is taken off while a session
    /// is unfinished never is: it would not be fresh then, or is asked by that session itself.
    pub fn asking_if(&self, is_asked: bool) -> Option<Asking>
        ensures { result ≡ asking_if is_asked self.now }
    {
        match self {
            Work::Act(Action::UnprotectFresh) | Work::Act(Action::UnprotectBegun) => None,
            work if is_asked => Some(work.asking()),
            _ => None,
        }
    }

    /// The same once more. None of what isn't done again: of all but a write.
    pub fn copy(&self, alloc: Global) -> Result<Option<Work>, AllocError>
        ensures { IfOk result (IsDoneAgain self.now) }
    {
        match self {
            Work::Act(Action::Write(content)) => {
                Ok(Some(Work::Act(Action::Write(content.copy(alloc)?))))
            }
            Work::Act(Action::WriteAndVerify(content)) => {
                Ok(Some(Work::Act(Action::WriteAndVerify(content.copy(alloc)?))))
            }
            _ => Ok(None),
        }
    }

    /// Which pages it goes through.
    pub fn goal(&self) -> Goal {
        match self {
            Work::Identify => Goal::Unknown,
            Work::Sum(range) | Work::ReadHex { range, .. } => Goal::of_range(*range),
            Work::Undo { extent, verifies } => {
                if *verifies {
                    Goal::BackTwice(*extent)
                } else {
                    Goal::Back(*extent)
                }
            }
            Work::Act(action) => Goal::of(action),
        }
    }

    /// Does it.
    pub fn run<'a, L: Rig>(
        self,
        alloc: Global,
        rig: &mut L,
        table: &Table,
    ) -> Result<Answer, Failure<'a>>
        ensures { Works L.view table.now self rig.old rig.new result }
    {
        match self {
            Work::Identify => Ok(identified(identify(alloc, rig)?)),
            Work::Sum(range) => sum(alloc, rig, table, range),
            Work::ReadHex { range, skips_blank } => {
                read_as_hex(alloc, rig, table, range, skips_blank)
            }
            Work::Undo { extent, verifies } => undo_back(alloc, rig, table, extent, verifies),
            Work::Act(action) => action.run(alloc, rig, table),
        }
    }
}

/// What is told of what a device says itself.
fn identified(told: Told) -> Answer
    ensures { result ≡ told_itself told }
{
    Answer::Identified { told, table: None }
}

/// Undoes writes and erases as far back as is said. The journal, which is read first, says how many that
/// are, and which of them had changed nothing.
fn undo_back<'a, L: Rig>(
    alloc: Global,
    rig: &mut L,
    table: &Table,
    extent: Extent,
    verifies: bool,
) -> Result<Answer, Failure<'a>>
    ensures { UndoesBack L.view table.now extent verifies rig.old rig.new result }
{
    let way = WayBack::find(alloc, rig, extent)?;
    let undo = Action::undo_of(way.count, verifies);
    let answer = undo.run(alloc, rig, table)?;
    Ok(way.beside(answer))
}
