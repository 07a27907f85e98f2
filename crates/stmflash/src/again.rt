// A write that is done again where its line or its protocol failed.
ghost use Rattle.std.specs.Prelude.{◌≡◌, IfOk, false};
ghost use Rattle.stm_work.specs.TriedBoards.{table_texts};
ghost use Rattle.stmflash.specs.WriteUse.{IsUse, UsesAgain, UsesLast, count_undone, words_by};

use crate::call::Call;
use crate::first_question::Line;
use crate::journal_tasks::look;
use crate::on_device::use_once;
use crate::output::Output;
use crate::planned_session::{ShownSimulator, ShownSocket};
use std::fs::Files;
use std::io::{IsTerminal, Write};
use std::net::Net;
use std::time::Clock;
use stm_files::{Escaped, Locks, is_there};
use stm_wire::Rig;
use stm_words::Sequel;
use stm_work::{
    Action, Answer, Attempts, Failure, Hint, Standing, Stands, Steps, Work, attempt_again,
};

/// What the journal in a file says by now; one that isn't there says nothing.
fn read_standing<'a, R: Files + AllocGlobal>(
    rt: &R,
    name: &'a str,
) -> Result<Standing, Failure<'a>> {
    if !is_there(rt, name) {
        return Ok(Standing {
            depth: 0,
            is_unfinished: false,
        });
    }
    let journal = look(rt, name)?;
    Ok(Standing {
        depth: journal.depth(),
        is_unfinished: journal.is_unfinished(),
    })
}

/// What a write is done with. A line that there is to the device is used first.
#[derive(Drop)]
struct OneWrite<'b, 'a, 'r, R, E> {
    rt: &'r R,
    call: Call<'b, 'a>,
    line: Option<Line<'r, R>>,
    err: &'b mut E,
    hint: &'b mut Option<Hint>,
}

impl<'b, 'a, 'r, R: Locks + Net + Clock + AllocGlobal, E: Write + IsTerminal> Attempts<'a>
    for OneWrite<'b, 'a, 'r, R, E> {
    // of files and lines nothing can be said
    ghost does = { λ act old new.
        IsUse ⟦<ShownSimulator<'r, 'b, R, E> as Rig>⟧.view ⟦<ShownSocket<'r, 'b, R, E> as Rig>⟧.view
        (words_by old.call.options.now (table_texts old.call.tables.now) old.call.sequel) act
        × (words_by new.call.options.now (table_texts new.call.tables.now) new.call.sequel
        ≡ words_by old.call.options.now (table_texts old.call.tables.now) old.call.sequel) };

    fn attempt(&mut self, work: Work) -> Result<Steps<'a>, Failure<'a>> {
        use_once(
            self.rt,
            self.call,
            work,
            Output::Printed,
            self.line.take(),
            self.err,
            self.hint,
        )
    }

    fn read(&mut self) -> Result<Standing, Failure<'a>> {
        read_standing(self.rt, self.call.options.journal)
    }

    fn undo(&mut self, count: u32) -> Result<u32, Failure<'a>> {
        let undo = Work::Act(Action::Undo(count));
        let call = Call {
            sequel: Sequel::none(),
            ..self.call
        };
        let steps = use_once(
            self.rt,
            call,
            undo,
            Output::Printed,
            None,
            self.err,
            self.hint,
        )?;
        Ok(count_undone(&steps.answer))
    }

    fn tell_turn(
        &mut self,
        turn: u32,
        most: u32,
        failure: &Failure<'a>,
        back: &Result<u32, Failure<'a>>,
    ) {
        let why = Escaped(failure);
        let _ = match back {
            Ok(0) => writeln!(self.err, "again {turn} of {most}: {why}; nothing was begun"),
            Ok(_) => writeln!(self.err, "again {turn} of {most}: {why}; undone"),
            Err(not) => {
                let not = Escaped(not);
                writeln!(self.err, "again {turn} of {most}: {why}; not undone: {not}")
            }
        };
    }

    fn tell_standing(&mut self, before: Standing, now: Standing) {
        let stands = Stands::of(before, now);
        let _ = writeln!(self.err, "stands: {stands}");
    }
}

/// How many segments were undone, as an undo tells it.
fn count_undone(answer: &Answer) -> u32
    ensures { result ≡ count_undone answer.now }
{
    match answer {
        Answer::Undone { count, .. } => *count,
        _ => 0,
    }
}

/// Does a write, and what follows it. Where its line or its protocol fails, what it began is undone
/// and it is done again, so many times at the most, each told in a line. Where it fails for good,
/// another line tells what stands. A line that there is to the device is used first.
pub fn use_again<'a, 'r, 'e, R: Locks + Net + Clock + AllocGlobal, E: Write + IsTerminal>(
    rt: &'r R,
    call: Call<'_, 'a>,
    work: Work,
    line: Option<Line<'r, R>>,
    err: &'e mut E,
    hint: &mut Option<Hint>,
) -> Result<Steps<'a>, Failure<'a>>
    ensures acts { UsesAgain
        ⟦<ShownSimulator<'r, 'e, R, E> as Rig>⟧.view ⟦<ShownSocket<'r, 'e, R, E> as Rig>⟧.view
        (words_by call.entry.options.now (table_texts call.entry.tables.now) call.entry.sequel) work
        result }
    ensures last { IfOk result (UsesLast
        ⟦<ShownSimulator<'r, 'e, R, E> as Rig>⟧.view ⟦<ShownSocket<'r, 'e, R, E> as Rig>⟧.view
        call.entry.options.now (table_texts call.entry.tables.now) work call.entry.sequel false) }
{
    let mut write = OneWrite {
        rt,
        call,
        line,
        err,
        hint,
    };
    attempt_again(rt.alloc(), &mut write, work, call.sequel.again)
}
