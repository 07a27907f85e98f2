// A use of a device: the files that belong to it are opened, the task is done, and they are closed,
// whatever came of it. Nothing is printed here but what goes on, on standard error.
ghost use Rattle.std.specs.Prelude.{◌≡◌, ◌&&◌, ◌==◌, IfOk, is_some};
ghost use Rattle.stm_words.specs.declared.task.Task.{Task};
ghost use Rattle.stmflash.specs.DeviceUse.{UsesOnce, goes_out};
ghost use Rattle.stm_work.specs.Action.{work_unless_fresh};
ghost use Rattle.stmflash.specs.TaskUse.{AreBeside, IsPrepared, UsesBeside, UsesTask};
ghost use Rattle.stm_work.specs.TriedBoards.{table_texts};
ghost use Rattle.stmflash.specs.WriteUse.{UsesLast};

use crate::again::use_again;
use crate::call::Call;
use crate::first_question::{Found, Line, Place, find_journal};
use crate::named_files::NamedFiles;
use crate::on_simulator::{close_simulator, open_simulator};
use crate::on_socket::{close_socket, open_socket};
use crate::output::Output;
use crate::planned_session::{ShownSimulator, ShownSocket, take_on};
use crate::recovery::{done_or_end, recover, told_end};
use crate::system::System;
use std::fs::Files;
use std::io::{IsTerminal, Write};
use std::net::Net;
use std::time::{Clock, Instant};
use stm_chip::Table;
use stm_files::Locks;
use stm_watch::Watch;
use stm_wire::Rig;
use stm_words::{Device, Options, Sequel, Task};
use stm_work::{
    ChipTables, Failure, Hint, Plan, Steps, Used, Work, begins_journal, failure_of,
    has_telling_chip, lacks_journal, tell_lacking, tell_nameless, tell_notes, tells_board,
};

/// What a use is made of before the device is used: the chip tables, the files that the words
/// name, and the work.
#[derive(Drop)]
pub struct Prepared<'a> {
    tables: ChipTables<'a>,
    files: NamedFiles<'a>,
    work: Work,
}

impl<'a> Prepared<'a> {
    /// That of a task. The tables are read, and its image.
    pub fn of<R: Files + AllocGlobal>(
        rt: &R,
        options: &Options<'a>,
        task: Task<'a>,
    ) -> Result<Prepared<'a>, Failure<'a>>
        ensures { IfOk result (IsPrepared task.entry) }
    {
        let files = NamedFiles::of(rt.alloc(), options, &task)?;
        files.check_streams(rt)?;
        let tables = ChipTables::read(rt, options.table)?;
        let work = Work::of(rt, tables.chips(), task)?;
        files.check(rt)?;
        Ok(Prepared {
            tables,
            files,
            work,
        })
    }
}

/// Does a task on a device, and what follows it. Where a folder has the journal, the device is asked
/// first which board it is; `place` keeps what came of that. What the line's last turns tell of a
/// session that was broken off becomes `hint`, or what is to be done behind what came of it.
pub fn use_prepared<'a, 'r, 'e, R: System, E: Write + IsTerminal>(
    rt: &'r R,
    options: &Options<'a>,
    prepared: Prepared<'a>,
    sequel: Sequel<'a>,
    place: &'a mut Place,
    err: &'e mut E,
    hint: &mut Option<Hint>,
) -> Result<Steps<'a>, Failure<'a>>
    ensures { (task : Task) → IsPrepared task prepared.entry → IfOk result (UsesTask
        ⟦<ShownSimulator<'r, 'e, R, E> as Rig>⟧.view ⟦<ShownSocket<'r, 'e, R, E> as Rig>⟧.view
        options.now task sequel.entry) }
{
    let Prepared {
        tables,
        files,
        work,
    } = prepared;
    if !options.in_folder {
        let call = Call {
            options,
            tables: &tables,
            sequel,
        };
        return use_beside(rt, call, files, work, None, err, hint);
    }
    let found = match find_journal(rt, options, tables.chips(), place) {
        Ok(found) => found,
        Err(failure) => return Err(told_end(rt, options.journal, tables.chips(), failure)),
    };
    let Found { options, line } = found;
    let files = files.beside(options.journal);
    files.check(rt)?;
    let call = Call {
        options: &options,
        tables: &tables,
        sequel,
    };
    use_beside(rt, call, files, work, line, err, hint)
}

/// The same beside a journal that is known, on a device to which there may be a line.
fn use_beside<'a, 'r, 'e, R: Locks + Net + Clock + AllocGlobal, E: Write + IsTerminal>(
    rt: &'r R,
    call: Call<'_, 'a>,
    files: NamedFiles<'a>,
    work: Work,
    line: Option<Line<'r, R>>,
    err: &'e mut E,
    hint: &mut Option<Hint>,
) -> Result<Steps<'a>, Failure<'a>>
    ensures { IfOk result (UsesBeside
        ⟦<ShownSimulator<'r, 'e, R, E> as Rig>⟧.view ⟦<ShownSocket<'r, 'e, R, E> as Rig>⟧.view
        call.entry.options.now (table_texts call.entry.tables.now)
        (work_unless_fresh call.entry.options.now.is_fresh work) call.entry.sequel
        (is_some files.entry.out)) }
{
    let work = work.unless_fresh(call.options.is_fresh);
    let next = work.next();
    let done = use_files(rt, call, files, work, line, err, hint);
    let told = match failure_of(&done) {
        Some(failure) => Hint::behind(failure, next),
        None => Hint::behind_done(next),
    };
    if told.is_some() {
        *hint = told;
    }
    done_or_end(rt, call.options.journal, call.tables.chips(), done)
}

/// Opens where the bytes of a flash go. The name for the journal is tried before, and a journal is cut
/// that is to be.
fn open_output<'a, R: Locks + AllocGlobal, E: Write>(
    rt: &R,
    call: Call<'_, 'a>,
    files: NamedFiles<'a>,
    err: &mut E,
) -> Result<Output<'a, R>, Failure<'a>>
    ensures { IfOk result (λ output. goes_out output ≡ is_some files.entry.out) }
{
    if let Some(to) = call.sequel.to {
        files.check_new(rt, to)?;
    }
    if call.options.recovers {
        recover(rt, call.options, call.tables.chips(), err)?;
    }
    Output::open(rt, files)
}

/// The same, without what is to be done behind it.
fn use_files<'a, 'r, 'e, R: Locks + Net + Clock + AllocGlobal, E: Write + IsTerminal>(
    rt: &'r R,
    call: Call<'_, 'a>,
    files: NamedFiles<'a>,
    work: Work,
    line: Option<Line<'r, R>>,
    err: &'e mut E,
    hint: &mut Option<Hint>,
) -> Result<Steps<'a>, Failure<'a>>
    ensures { IfOk result (UsesBeside
        ⟦<ShownSimulator<'r, 'e, R, E> as Rig>⟧.view ⟦<ShownSocket<'r, 'e, R, E> as Rig>⟧.view
        call.entry.options.now (table_texts call.entry.tables.now) work call.entry.sequel
        (is_some files.entry.out)) }
{
    let from = Instant::now(rt).ok();
    let output = open_output(rt, call, files, err)?;
    let options = call.options;
    let is_begun = begins_journal(rt, options, &work);
    let is_lacking = lacks_journal(rt, options, &work);
    tell_notes(options, is_begun, &work, err);
    let like_erase = work.false_erase();
    let steps = use_work(rt, call, work, output, line, err, hint)?;
    if like_erase.is_some() {
        *hint = like_erase;
    }
    if is_begun && !steps.has_named_board() {
        tell_nameless(options, err);
    }
    if is_lacking {
        tell_lacking(options, err);
    }
    tell_beside(rt, steps, call, from)
}

/// The same, done once or again where its line fails.
fn use_work<'a, 'r, 'e, R: Locks + Net + Clock + AllocGlobal, E: Write + IsTerminal>(
    rt: &'r R,
    call: Call<'_, 'a>,
    work: Work,
    output: Output<'a, R>,
    line: Option<Line<'r, R>>,
    err: &'e mut E,
    hint: &mut Option<Hint>,
) -> Result<Steps<'a>, Failure<'a>>
    ensures { IfOk result (UsesLast
        ⟦<ShownSimulator<'r, 'e, R, E> as Rig>⟧.view ⟦<ShownSocket<'r, 'e, R, E> as Rig>⟧.view
        call.entry.options.now (table_texts call.entry.tables.now) work call.entry.sequel
        (goes_out output.entry && (call.entry.sequel.again == 0))) }
{
    if call.sequel.again == 0 {
        use_once(rt, call, work, output, line, err, hint)
    } else {
        use_again(rt, call, work, line, err, hint)
    }
}

/// The same steps, beside what the tables say of the answer and what the device was used with.
fn tell_beside<'a, R: Clock + AllocGlobal>(
    rt: &R,
    steps: Steps<'a>,
    call: Call<'_, 'a>,
    from: Option<Instant>,
) -> Result<Steps<'a>, Failure<'a>>
    ensures { IfOk result (AreBeside (table_texts call.entry.tables.now)
        call.entry.options.now.journal.now steps.entry) }
{
    Ok(Steps {
        used: Some(Used {
            journal: call.options.journal,
            milliseconds: milliseconds_since(rt, from),
        }),
        board: steps.board,
        answer: steps
            .answer
            .beside(rt.alloc(), call.options.table, call.tables)?,
        kept: steps.kept,
        failure: steps.failure,
    })
}

/// The milliseconds since then, where the clock tells them.
fn milliseconds_since<R: Clock>(rt: &R, from: Option<Instant>) -> Option<u64> {
    u64::try_from(from?.elapsed(rt).ok()?.as_millis()).ok()
}

/// Whether a device may tell its board: a simulator by its chip, another by any of these.
fn may_tell(device: Device, chips: &Table) -> bool {
    match device {
        Device::Simulator { id, .. } => match chips.find(id) {
            Some(chip) => tells_board(chip),
            None => false,
        },
        Device::Socket(_) => has_telling_chip(chips),
    }
}

/// Does it once: the files are opened, and closed.
pub fn use_once<'a, 'r, 'e, R: Locks + Net + Clock + AllocGlobal, E: Write + IsTerminal>(
    rt: &'r R,
    call: Call<'_, 'a>,
    work: Work,
    output: Output<'a, R>,
    line: Option<Line<'r, R>>,
    err: &'e mut E,
    hint: &mut Option<Hint>,
) -> Result<Steps<'a>, Failure<'a>>
    ensures { IfOk result (UsesOnce
        ⟦<ShownSimulator<'r, 'e, R, E> as Rig>⟧.view ⟦<ShownSocket<'r, 'e, R, E> as Rig>⟧.view
        call.entry.options.now (table_texts call.entry.tables.now) work call.entry.sequel
        (goes_out output.entry)) }
{
    let Call {
        options,
        tables,
        sequel,
    } = call;
    let chips = tables.chips();
    // nothing is known of the device yet
    let watch = Watch::of_nothing(rt.alloc())?;
    let is_told = may_tell(options.device, chips);
    let plan = Plan::of(rt, options, tables, work, &sequel, is_told)?;
    match options.device {
        Device::Simulator { id, file } => {
            let rig = open_simulator(rt, options, &plan.job.work, chips, id, file)?;
            let taken = take_on(rt, call, rig, plan, watch, err, hint);
            close_simulator(rt, options.journal, taken, output)
        }
        Device::Socket(path) => {
            let rig = open_socket(rt, options, &plan.job.work, path, line)?;
            let taken = take_on(rt, call, rig, plan, watch, err, hint);
            close_socket(rt, options.journal, taken, output)
        }
    }
}
