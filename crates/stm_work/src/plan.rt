// The plan of one use of a device: what is done, and how, by its words and its tables.
ghost use Rattle.std.specs.Prelude.{◌≡◌, IfOk};
ghost use Rattle.stm_work.specs.Plan.{IsUsePlan, IsWatching, is_asked};
ghost use Rattle.stm_work.specs.TriedBoards.{table_texts};

use crate::board::Question;
use crate::chip_tables::ChipTables;
use crate::failure::Failure;
use crate::watching::{Watching, without_places};
use crate::work::Work;
use stm_chip::Table;
use stm_words::{Options, Sequel};

/// What is done on a device, and what follows it.
#[derive(Drop)]
pub struct Job<'a> {
    pub work: Work,
    /// The name of the journal's file.
    pub journal: &'a str,
    pub sequel: Sequel<'a>,
}

/// What one use of a device does, and how.
#[derive(Drop)]
pub struct Plan<'a> {
    pub job: Job<'a>,
    /// What the device is asked before its session.
    pub question: Question<'a>,
    pub watching: Watching,
    /// Its own copy of the table: the device's chip becomes that of its board.
    pub table: Table,
}

impl<'a> Plan<'a> {
    /// The plan of a work and of what follows it, by the options and the tables of one call.
    /// `is_told` says whether the device's chip may tell its board. It fails for want of memory, or where
    /// a table's text is refused.
    pub fn of<R: AllocGlobal>(
        rt: &R,
        options: &Options<'a>,
        tables: &ChipTables<'a>,
        work: Work,
        sequel: &Sequel<'a>,
        is_told: bool,
    ) -> Result<Plan<'a>, Failure<'a>>
        ensures { IfOk result
            (IsUsePlan options.now (table_texts tables.now) is_told work sequel.now) }
    {
        let question = question_of(options, &work, is_told);
        let watching = watching_of(rt, options, tables, &question)?;
        let table = tables.copy(rt.alloc())?;
        Ok(Plan {
            job: Job {
                work,
                journal: options.journal,
                sequel: *sequel,
            },
            question,
            watching,
            table,
        })
    }

    /// Whether its session is watched.
    pub fn is_watched(&self) -> bool {
        !matches!(self.watching, Watching::Not)
    }
}

/// What a device is asked before its session, where its chip may tell its board. Before Go and a
/// protection the journal is looked at in any case: where it names a board, a device that can't tell
/// which it is counts as another.
fn question_of<'a>(options: &Options<'a>, work: &Work, is_told: bool) -> Question<'a>
    ensures asked { result.is_asked ≡ is_asked options.now work.now is_told }
    ensures wanted { result.wanted ≡ options.now.board }
{
    let is_looked_at = work.leaves() && options.board.is_none();
    Question {
        is_asked: (is_told || is_looked_at) && !options.without_board,
        wanted: options.board,
    }
}

/// How a session is watched whose device is asked this. Where a board is wanted and the device
/// isn't asked, nothing is sent to it.
fn watching_of<'a, R: AllocGlobal>(
    rt: &R,
    options: &Options<'a>,
    tables: &ChipTables<'a>,
    question: &Question<'a>,
) -> Result<Watching, Failure<'a>>
    ensures { IfOk result (IsWatching options.now.watches question.now) }
{
    if !options.watches || !question.is_asked && question.wanted.is_some() {
        return Ok(Watching::Not);
    }
    if question.is_asked {
        return Ok(Watching::FromBoard);
    }
    let table = tables.copy(rt.alloc())?;
    Ok(Watching::FromId(without_places(table, tables.chips())?))
}
