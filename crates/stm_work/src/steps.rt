// The steps of one call: a session, then the journal that is kept, then Go, each only where the one
// before answered Ok.
ghost use Rattle.std.specs.Io.KnownBytes.{Appends};
ghost use Rattle.std.specs.Prelude.{OnOk};
ghost use Rattle.stm_work.specs.Plan.{TellsSteps};
ghost use Rattle.stm_work.specs.Steps.{FollowsSession, MayGo, MayKeep, TakesAsked, TakesKnown};
ghost use Rattle.stm_work.specs.Steps.{TakesSteps, TakesTold};
ghost use Rattle.stm_work.specs.StepsText.{asked_text, stays_text, steps_text};
ghost use Rattle.stm_work.specs.WholeCalls.{WritesAsAsked};

use crate::action::Action;
use crate::answer::{Answer, print_kept};
use crate::board::{Question, ask_first, table_beside};
use crate::failure::Failure;
use crate::keeper::Keeper;
use crate::one_call::a_whole_call_ends_as_asked;
use crate::plan::Job;
use std::alloc::Global;
use std::io;
use std::io::Write;
use stm_chip::Table;
use stm_session::Board;
use stm_wire::Rig;
use stm_words::Sequel;

/// Beside which journal a device was used, and how long.
#[derive(Clone, Copy)]
pub struct Used<'a> {
    pub journal: &'a str,
    pub milliseconds: Option<u64>,
}

/// How far a call came whose session answered.
#[derive(Drop)]
pub struct Steps<'a> {
    /// Which board the device is, where it was asked.
    pub board: Option<Board>,
    /// What the session answered.
    pub answer: Answer,
    /// How many writes and erases stay, where the journal was kept.
    pub kept: Option<u32>,
    /// Why the step behind these failed.
    pub failure: Option<Failure<'a>>,
    /// With what the device was used, where that is told.
    pub used: Option<Used<'a>>,
}

impl<'a> Steps<'a> {
    /// Whether the device was asked, and told a unique id.
    pub fn has_named_board(&self) -> bool {
        match &self.board {
            Some(board) => !board.unique.is_none(),
            None => false,
        }
    }

    /// Prints what was done, each step in its own line.
    #[tactic(auto, using(crate::proofs::TextParts::ends))]
    pub fn print<O: Write>(&self, out: &mut O) -> io::Result<()>
        ensures { OnOk result (Appends (O.contents out.old) (O.contents out.new)
            (steps_text self.now)) }
    {
        self.answer.print(out)?;
        self.print_board(out)?;
        self.answer.print_tried(out)?;
        self.print_kept(out)
    }

    /// Prints which board it was, where the device was asked.
    fn print_board<O: Write>(&self, out: &mut O) -> io::Result<()>
        ensures { OnOk result (Appends (O.contents out.old) (O.contents out.new)
            (asked_text self.now.answer self.now.board)) }
    {
        match &self.board {
            Some(board) => self.answer.print_board(board, out),
            None => Ok(()),
        }
    }

    /// Prints how many writes and erases stay, where the journal was kept.
    fn print_kept<O: Write>(&self, out: &mut O) -> io::Result<()>
        ensures { OnOk result (Appends (O.contents out.old) (O.contents out.new)
            (stays_text self.now.kept)) }
    {
        match self.kept {
            Some(count) => print_kept(count, out),
            None => Ok(()),
        }
    }
}

/// Does what is asked of a device, and what follows it. The device is asked first which board it is,
/// where that is to be; its session has the chip of that board then. Where a write that is verified
/// answers Ok and no step failed, what was asked for was done.
pub fn take_steps<'a, L: Keeper>(
    alloc: Global,
    rig: &mut L,
    table: Table,
    job: Job<'a>,
    question: Question<'a>,
) -> Result<Steps<'a>, Failure<'a>>
    ensures steps { TakesSteps L.view table question.entry job.entry.work job.entry.sequel rig.old rig.new result }
    ensures ends { WritesAsAsked L.view table question.entry job.entry.work job.entry.sequel rig.old rig.new result }
{
    a_whole_call_ends_as_asked::<L>();
    ask_and_take(alloc, rig, table, job, question)
}

/// Asks the device first, and does it.
fn ask_and_take<'a, L: Keeper>(
    alloc: Global,
    rig: &mut L,
    table: Table,
    job: Job<'a>,
    question: Question<'a>,
) -> Result<Steps<'a>, Failure<'a>>
    ensures { TakesSteps L.view table question.entry job.entry.work job.entry.sequel rig.old rig.new result }
{
    let asking = job.work.asking_if(question.is_asked);
    let board = ask_first(alloc, rig, &table, asking, question.wanted)?;
    take_asked(alloc, rig, table, board, job)
}

/// Does it on a device that was asked which board it is, or wasn't.
fn take_asked<'a, L: Keeper>(
    alloc: Global,
    rig: &mut L,
    table: Table,
    board: Option<Board>,
    job: Job<'a>,
) -> Result<Steps<'a>, Failure<'a>>
    ensures { TakesAsked L.view table board job.entry.work job.entry.sequel rig.old rig.new result }
{
    match board {
        Some(board) => take_told(alloc, rig, table, board, job),
        None => work_then_follow(alloc, rig, &table, None, job),
    }
}

/// Does it on a device that told which board it is.
fn take_told<'a, L: Keeper>(
    alloc: Global,
    rig: &mut L,
    table: Table,
    board: Board,
    job: Job<'a>,
) -> Result<Steps<'a>, Failure<'a>>
    ensures { TakesTold L.view table board job.entry.work job.entry.sequel rig.old rig.new result }
{
    rig.hear_size(board.size);
    let own = table_beside(table, &board)?;
    work_then_follow(alloc, rig, &own, Some(board), job)
}

/// Does it on a device whose chip the table has, and what follows it.
pub fn work_then_follow<'a, L: Keeper>(
    alloc: Global,
    rig: &mut L,
    table: &Table,
    board: Option<Board>,
    job: Job<'a>,
) -> Result<Steps<'a>, Failure<'a>>
    ensures { TakesKnown L.view table.now board job.entry.work job.entry.sequel rig.old rig.new result }
{
    let Job {
        work,
        journal,
        sequel,
    } = job;
    let answer = work.run(alloc, rig, table)?;
    Ok(follow(alloc, rig, table, board, answer, journal, &sequel))
}

/// Does what follows a session that answered.
fn follow<'a, L: Keeper>(
    alloc: Global,
    rig: &mut L,
    table: &Table,
    board: Option<Board>,
    answer: Answer,
    journal: &'a str,
    sequel: &Sequel<'a>,
) -> Steps<'a>
    ensures { FollowsSession L.view table.now board sequel.now rig.old rig.new answer result }
{
    match keep(alloc, rig, journal, sequel) {
        Ok(kept) => Steps {
            board,
            answer,
            kept,
            failure: leave(alloc, rig, table, sequel.go).err(),
            used: None,
        },
        Err(failure) => Steps {
            board,
            answer,
            kept: None,
            failure: Some(failure),
            used: None,
        },
    }
}

/// Keeps the journal, where that is asked for.
fn keep<'a, L: Keeper>(
    alloc: Global,
    rig: &mut L,
    journal: &'a str,
    sequel: &Sequel<'a>,
) -> Result<Option<u32>, Failure<'a>>
    ensures { MayKeep L.view sequel.now.keeps rig.old rig.new result }
{
    if !sequel.keeps {
        return Ok(None);
    }
    let count = rig.keep(alloc, journal, sequel.to)?;
    Ok(Some(count))
}

/// Lets the device go, where that is asked for.
pub fn leave<'a, L: Rig>(
    alloc: Global,
    rig: &mut L,
    table: &Table,
    address: Option<u32>,
) -> Result<(), Failure<'a>>
    ensures { MayGo L.view table.now address rig.old rig.new result }
{
    match address {
        Some(address) => {
            let _nothing = Action::Go(address).run(alloc, rig, table)?;
            Ok(())
        }
        None => Ok(()),
    }
}

/// Why the last step that was begun failed, if it did.
pub fn failure_of<'b, 'a>(done: &'b Result<Steps<'a>, Failure<'a>>) -> Option<&'b Failure<'a>> {
    match done {
        Ok(steps) => steps.failure.as_ref(),
        Err(failure) => Some(failure),
    }
}

/// The same steps, where one failed by this failure.
pub fn failed_by<'a>(
    done: Result<Steps<'a>, Failure<'a>>,
    failure: Failure<'a>,
) -> Result<Steps<'a>, Failure<'a>>
    ensures { TellsSteps done.entry result }
{
    match done {
        Ok(steps) if steps.failure.is_none() => Ok(steps),
        Ok(steps) => Ok(Steps {
            failure: Some(failure),
            ..steps
        }),
        Err(_) => Err(failure),
    }
}
