// What is done on a device, over any Rig.
ghost use Rattle.std.specs.Prelude.{◌≡◌, IfOk};
ghost use Rattle.stm_work.specs.Action.{DoesAction, IsFor, told_info, told_returned, told_undone};
ghost use Rattle.stm_work.specs.Action.{unless_fresh};
ghost use Rattle.stm_work.specs.WayBack.{undo_of};

use crate::answer::Answer;
use crate::changing::{erase, erase_all, verify, write, write_and_verify};
use crate::content::{Content, read_images};
use crate::failure::Failure;
use crate::protection::protection;
use crate::reading::read;
use crate::unprotecting::unprotect_begun;
use std::alloc::Global;
use std::fs::Files;
use stm_chip::Table;
use stm_session::{Info, Returned, go, info, protect, undo, undo_verified, unprotect_fresh};
use stm_wire::{Protection, Rig};
use stm_words::{Range, Task, UsageFault};

/// What is done on a device.
#[derive(Drop)]
pub enum Action {
    /// Tells what it is.
    Info,
    /// Reads its whole flash, or a part of it.
    Read(Option<Range>),
    /// Writes an image.
    Write(Content),
    /// Writes an image, and compares the flash with it.
    WriteAndVerify(Content),
    /// Compares the flash with an image.
    Verify(Content),
    /// Erases these pages.
    Erase(Vec<u16>),
    /// Erases every page.
    EraseAll,
    /// Undoes so many writes and erases, or, at 0, all.
    Undo(u32),
    /// Does as `Undo`, and reads each page again that was given back.
    UndoVerified(u32),
    /// Lets it run what stands at this address.
    Go(u32),
    /// Changes a protection.
    Protect(Protection),
    /// Takes the write protection off a device that is said to be fresh from reset, whatever the
    /// journal holds.
    UnprotectFresh,
    /// Does so of a device of which nothing is said: it is reached as an undo reaches it.
    UnprotectBegun,
}

impl Action {
    /// What a task asks for, but an undo. The files of images are read.
    pub fn of<'a, R: Files + AllocGlobal>(
        rt: &R,
        table: &Table,
        task: Task<'a>,
    ) -> Result<Action, Failure<'a>>
        ensures { IfOk result (IsFor task.entry) }
    {
        match task {
            Task::Info { .. } => Ok(Action::Info),
            Task::Read { range, .. } | Task::ReadHex { range, .. } | Task::Sum(range) => {
                Ok(Action::Read(range))
            }
            Task::Write { images, verifies } => {
                let content = read_images(rt, table, &images)?;
                if verifies {
                    Ok(Action::WriteAndVerify(content))
                } else {
                    Ok(Action::Write(content))
                }
            }
            Task::Verify(images) => Ok(Action::Verify(read_images(rt, table, &images)?)),
            Task::Erase { is_all, pages } => Ok(if is_all {
                Action::EraseAll
            } else {
                Action::Erase(pages)
            }),
            // how many it undoes is known once the journal was read
            Task::Undo { .. } => Err(Failure::Usage(UsageFault::UnknownWords)),
            Task::Go(address) => Ok(Action::Go(address)),
            Task::Protect {
                kind,
                in_session,
                ..
            } => match (protection(kind), in_session) {
                (Some(kind), false) => Ok(Action::Protect(kind)),
                (Some(Protection::WriteUnprotect), true) => Ok(Action::UnprotectFresh),
                _ => Err(Failure::Usage(UsageFault::UnknownWords)),
            },
        }
    }

    /// The undo of so many, which may be verified.
    pub fn undo_of(count: u32, verifies: bool) -> Action
        ensures { result ≡ undo_of count verifies }
    {
        if verifies {
            Action::UndoVerified(count)
        } else {
            Action::Undo(count)
        }
    }

    /// The same where the device may be said to be fresh from reset: else its write protection is
    /// taken off as one of which nothing is said.
    pub fn unless_fresh(self, is_fresh: bool) -> Action
        ensures { result ≡ unless_fresh is_fresh self }
    {
        match self {
            Action::UnprotectFresh if !is_fresh => Action::UnprotectBegun,
            action => action,
        }
    }

    /// Whether it undoes writes and erases.
    pub fn is_undo(&self) -> bool {
        matches!(self, Action::Undo(_) | Action::UndoVerified(_))
    }

    /// Does it.
    pub fn run<'a, L: Rig>(
        self,
        alloc: Global,
        rig: &mut L,
        table: &Table,
    ) -> Result<Answer, Failure<'a>>
        ensures { DoesAction L.view table.now self rig.old rig.new result }
    {
        match self {
            Action::Info => Ok(told(info(alloc, rig, table)?)),
            Action::Read(range) => Ok(read(alloc, rig, table, range)?),
            Action::Write(content) => {
                let image = content.on_device(alloc, rig, table)?;
                Ok(write(alloc, rig, table, image)?)
            }
            Action::WriteAndVerify(content) => {
                let image = content.on_device(alloc, rig, table)?;
                Ok(write_and_verify(alloc, rig, table, image)?)
            }
            Action::Verify(content) => {
                let image = content.on_device(alloc, rig, table)?;
                Ok(verify(alloc, rig, table, image)?)
            }
            Action::Erase(pages) => Ok(erase(alloc, rig, table, pages)?),
            Action::EraseAll => Ok(erase_all(alloc, rig, table)?),
            Action::Undo(count) => Ok(undone(undo(alloc, rig, table, count)?)),
            Action::UndoVerified(count) => {
                Ok(verified(undo_verified(alloc, rig, table, count)?))
            }
            Action::Go(address) => {
                go(alloc, rig, address)?;
                Ok(Answer::Nothing)
            }
            Action::Protect(kind) => {
                protect(alloc, rig, kind)?;
                Ok(Answer::Nothing)
            }
            Action::UnprotectFresh => {
                unprotect_fresh(alloc, rig)?;
                Ok(Answer::Nothing)
            }
            Action::UnprotectBegun => {
                unprotect_begun(alloc, rig, table)?;
                Ok(Answer::Nothing)
            }
        }
    }
}

/// What is told of what a device is.
fn told(info: Info) -> Answer
    ensures { result ≡ told_info info }
{
    Answer::Told { info, tried: None }
}

/// What is told of an undo of so many segments.
fn undone(count: u32) -> Answer
    ensures { result ≡ told_undone count }
{
    Answer::Undone { count, bytes: None }
}

/// What is told of an undo that was verified.
fn verified(returned: Returned) -> Answer
    ensures { result ≡ told_returned returned }
{
    Answer::Undone {
        count: returned.segments,
        bytes: Some(returned.bytes),
    }
}
