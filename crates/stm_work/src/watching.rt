// A session each of whose replies has to be one that a device of the model could give, from the
// question who the device is on.
ghost use Rattle.stm_work.specs.Plan.{TellsSteps};
ghost use Rattle.stm_work.specs.Watching.{AsksCodes, BeginsWatching, GoesIf, GoesWatched, TakesFromBoard};
ghost use Rattle.stm_work.specs.Watching.{TakesAndGoes, TakesFromId, TakesSettled, TakesToldWatched};
ghost use Rattle.stm_work.specs.Watching.{TakesWatched};

use crate::board::{Question, ask_to_watch, ask_who, table_beside};
use crate::failure::Failure;
use crate::otherwise::{Otherwise, Watched};
use crate::plan::{Job, Plan};
use crate::steps::{Steps, leave, take_steps, work_then_follow};
use crate::watchable::Watchable;
use std::alloc::{AllocError, Global};
use stm_chip::Table;
use stm_session::{Board, Fault};
use stm_watch::{Watch, WatchRig, honest_passes, is_listing};
use stm_wire::{BoardPlaces, Commands, Rig, get_commands};
use stm_words::Sequel;

/// How a session is watched.
#[derive(Drop)]
pub enum Watching {
    /// It isn't.
    Not,
    /// From the question on which board the device is.
    FromBoard,
    /// From Get and Get ID on, by the same table whose chips tell no board.
    FromId(Table),
}

/// The table whose chips tell their board at no place that is known.
pub fn without_places(table: Table, chips: &Table) -> Result<Table, AllocError> {
    let mut table = table;
    for chip in chips.chips() {
        if let Some(chip) = chip.clone()?.at_places(BoardPlaces::none()) {
            table = table.with_chip(chip);
        }
    }
    Ok(table)
}

/// Asks a settled device for its version and codes.
fn ask_codes<L: Rig>(rig: &mut L) -> Result<Commands, Fault>
    ensures { let old = L.view rig.old in let new = L.view rig.new in
        AsksCodes old new result }
{
    let commands = get_commands(rig)?;
    Ok(commands)
}

/// Watches a settled device with this id from here on, by the version and the codes that it tells.
/// Where the table has no such chip, nothing is watched.
fn begin<'a, L: Watchable>(
    alloc: Global,
    rig: &mut L,
    table: &Table,
    id: u16,
) -> Result<(), Failure<'a>>
    ensures { BeginsWatching table.now id (L.view rig.old) (L.view rig.new) result }
{
    honest_passes();
    let Some(chip) = table.find(id) else {
        return Ok(());
    };
    let commands = ask_codes(rig)?;
    let codes = &commands.codes[..usize::from(commands.count)];
    if !is_listing(chip, commands.version, codes) {
        return Err(Failure::Otherwise(Otherwise::Codes));
    }
    let codes = Vec::from_slice(alloc, codes)?;
    let watch = Watch::new(alloc, chip.clone()?, commands.version, codes)?;
    rig.watch_by(watch);
    Ok(())
}

/// Lets a device go whose journal was kept, watched again from here on.
fn go_watched<'a, L: Watchable>(
    alloc: Global,
    rig: &mut L,
    table: &Table,
    id: u16,
    address: u32,
) -> Result<(), Failure<'a>>
    ensures { GoesWatched L.view table.now id address rig.old rig.new result }
{
    match begin(alloc, rig, table, id) {
        Ok(()) => leave(alloc, rig, table, Some(address)),
        Err(failure) => Err(failure),
    }
}

/// Lets a device go behind these steps, where that is asked for and none failed.
fn go_behind<'a, L: Watchable>(
    alloc: Global,
    rig: &mut L,
    table: &Table,
    id: u16,
    go: Option<u32>,
    steps: Steps<'a>,
) -> Steps<'a>
    ensures { GoesIf L.view table.now id go steps.entry.failure steps.entry rig.old rig.new
        result }
{
    match (go, &steps.failure) {
        (Some(address), None) => Steps {
            failure: go_watched(alloc, rig, table, id, address).err(),
            ..steps
        },
        _ => steps,
    }
}

/// Does what is asked of a watched device with this id, and what follows it.
fn take_begun<'a, L: Watchable>(
    alloc: Global,
    rig: &mut L,
    table: &Table,
    id: u16,
    board: Option<Board>,
    job: Job<'a>,
) -> Result<Steps<'a>, Failure<'a>>
    ensures { TakesAndGoes L.view table.now id board job.entry.work job.entry.sequel rig.old rig.new result }
{
    let sequel = job.sequel;
    let kept = Job {
        sequel: Sequel { go: None, ..sequel },
        ..job
    };
    match work_then_follow(alloc, rig, table, board, kept) {
        Ok(steps) => Ok(go_behind(alloc, rig, table, id, sequel.go, steps)),
        Err(failure) => Err(failure),
    }
}

/// Does what is asked of a settled device with this id, and what follows it, watched from here on.
fn take_settled<'a, L: Watchable>(
    alloc: Global,
    rig: &mut L,
    table: &Table,
    id: u16,
    board: Option<Board>,
    job: Job<'a>,
) -> Result<Steps<'a>, Failure<'a>>
    ensures { TakesSettled L.view table.now id board job.entry.work job.entry.sequel rig.old rig.new result }
{
    match begin(alloc, rig, table, id) {
        Ok(()) => take_begun(alloc, rig, table, id, board, job),
        Err(failure) => Err(failure),
    }
}

/// The same of a device that told which board it is.
fn take_told<'a, L: Watchable>(
    alloc: Global,
    rig: &mut L,
    table: Table,
    board: Board,
    job: Job<'a>,
) -> Result<Steps<'a>, Failure<'a>>
    ensures { TakesToldWatched L.view table board job.entry.work job.entry.sequel rig.old rig.new result }
{
    rig.hear_size(board.size);
    let id = board.id;
    let own = table_beside(table, &board)?;
    take_settled(alloc, rig, &own, id, Some(board), job)
}

/// The same from the question on which board it is. One that isn't asked is sent nothing.
fn take_from_board<'a, L: Watchable>(
    alloc: Global,
    rig: &mut L,
    table: Table,
    job: Job<'a>,
    question: Question<'a>,
) -> Result<Steps<'a>, Failure<'a>>
    ensures { TakesFromBoard L.view table question.entry job.entry.work job.entry.sequel rig.old rig.new result }
{
    match ask_to_watch(alloc, rig, &table, job.work.asking(), question.wanted)? {
        Some(board) => take_told(alloc, rig, table, board, job),
        None => work_then_follow(alloc, rig, &table, None, job),
    }
}

/// The same from Get and Get ID on, by a table whose chips tell no board.
fn take_from_id<'a, L: Watchable>(
    alloc: Global,
    rig: &mut L,
    table: &Table,
    bare: &Table,
    job: Job<'a>,
) -> Result<Steps<'a>, Failure<'a>>
    ensures { TakesFromId L.view table.now bare.now job.entry.work job.entry.sequel rig.old rig.new result }
{
    match ask_who(alloc, rig, bare, job.work.asking())? {
        Some(board) => take_settled(alloc, rig, table, board.id, None, job),
        None => work_then_follow(alloc, rig, table, None, job),
    }
}

/// Does what a plan says, on a Rig that can be watched, and what follows it.
pub fn take_watched<'a, L: Watchable>(
    alloc: Global,
    rig: &mut L,
    plan: Plan<'a>,
) -> Result<Steps<'a>, Failure<'a>>
    ensures { TakesWatched L.view plan.entry.watching plan.entry rig.old rig.new result }
{
    let Plan {
        job,
        question,
        watching,
        table,
    } = plan;
    match watching {
        Watching::Not => take_steps(alloc, rig, table, job, question),
        Watching::FromBoard => take_from_board(alloc, rig, table, job, question),
        Watching::FromId(bare) => take_from_id(alloc, rig, &table, &bare, job),
    }
}

/// The same, where a reply was refused: that is why it ended.
pub fn done_watched<'a, L: Rig + Drop>(
    rig: &WatchRig<L>,
    done: Result<Steps<'a>, Failure<'a>>,
) -> Result<Steps<'a>, Failure<'a>>
    ensures { TellsSteps done.entry result }
{
    let Some(refusal) = rig.refusal() else {
        return done;
    };
    let failure = Failure::Otherwise(Otherwise::Reply(refusal));
    match done {
        Ok(steps) => Ok(Steps {
            failure: Some(failure),
            ..steps
        }),
        Err(_) => Err(failure),
    }
}

/// What watching came to; None where it wasn't asked for, or where a fault tells it.
pub fn watched<'a, L: Rig + Drop>(
    rig: &WatchRig<L>,
    is_watched: bool,
    failure: Option<&Failure<'a>>,
) -> Option<Watched> {
    match (is_watched, failure) {
        (false, _) | (_, Some(Failure::Otherwise(_))) => None,
        _ => Some(Watched {
            has_begun: rig.has_begun(),
            passed: rig.passed(),
            unjudged: rig.unjudged(),
        }),
    }
}
