// The chip tables of one use.
ghost use Rattle.std.specs.Prelude.{◌≡◌, IfErr, IfOk};
ghost use Rattle.stm_chip.specs.Document.{IsTableOf};
ghost use Rattle.stm_chip.specs.Over.{IsOver};
ghost use Rattle.stm_work.specs.ChipTables.{AreChips, IsTableRefused};
ghost use Rattle.stm_work.specs.TriedBoards.{AreTried, TriedOver, table_bytes, table_texts};

use crate::failure::Failure;
use std::alloc::Global;
use std::fs::Files;
use stm_chip::{Table, TableFault, read_table, tried_boards};
use stm_files::read_file;
use stm_words::TableNames;

/// How many bytes the file of a chip table has at most.
const TABLE: u32 = 1 << 20;

/// The text of a chip table.
#[derive(Drop)]
struct TableText<'a> {
    name: &'a str,
    /// A word or a variable names it.
    is_named: bool,
    text: Vec<u8>,
}

impl<'a> TableText<'a> {
    /// The text that the file of this name holds.
    fn read<R: Files + AllocGlobal>(
        rt: &R,
        name: &'a str,
        is_named: bool,
    ) -> Result<TableText<'a>, Failure<'a>> {
        match read_file(rt, name, TABLE) {
            Ok(text) => Ok(TableText {
                name,
                is_named,
                text,
            }),
            Err(e) => Err(Failure::of_file(&e, Failure::CannotRead(name))),
        }
    }

    /// Its chips. Of a table that no word names it is told which is refused.
    fn chips(&self, alloc: Global) -> Result<Table, Failure<'a>>
        ensures chips { IfOk result (IsTableOf (table_bytes self.now)) }
        ensures fault { IfErr result (IsTableRefused self.now) }
    {
        match read_table(alloc, self.text.as_slice()) {
            Ok(table) => Ok(table),
            Err(TableFault::Memory) => Err(Failure::Memory),
            Err(fault) if self.is_named => Err(Failure::Table(fault)),
            Err(fault) => Err(Failure::StandingTable(self.name, fault)),
        }
    }

    /// How many real boards of this chip were tried, where it tells of them; where it has no such chip,
    /// what the tables below it tell.
    fn tried(
        &self,
        alloc: Global,
        id: u16,
        below: Option<usize>,
    ) -> Result<Option<usize>, TableFault>
        ensures { IfOk result (TriedOver (table_bytes self.now) id below) }
    {
        match tried_boards(alloc, self.text.as_slice(), id)? {
            Some(told) => Ok(told),
            None => Ok(below),
        }
    }
}

/// The chip tables of one use, of which one goes over the other. Each file is read once: one that
/// was opened for the program may be a pipe.
#[derive(Drop)]
pub struct ChipTables<'a> {
    lowest: TableText<'a>,
    /// Those that go over it, the lower first.
    over: Vec<TableText<'a>>,
    chips: Table,
}

impl<'a> ChipTables<'a> {
    /// The tables of these names. The first fault of a file or its text decides, the lowest first.
    pub fn read<R: Files + AllocGlobal>(
        rt: &R,
        names: TableNames<'a>,
    ) -> Result<ChipTables<'a>, Failure<'a>> {
        let lowest = TableText::read(rt, names.lowest, names.over.is_none())?;
        let mut chips = lowest.chips(rt.alloc())?;
        let mut over = Vec::new(rt.alloc());
        if let Some(names) = names.over {
            for name in names {
                let text = TableText::read(rt, *name, false)?;
                let own = text.chips(rt.alloc())?;
                chips = joined(own, chips)?;
                over.push(text)?;
            }
        }
        Ok(ChipTables {
            lowest,
            over,
            chips,
        })
    }

    /// Their chips.
    pub fn chips(&self) -> &Table {
        &self.chips
    }

    /// How many real boards of this chip were tried, where the table tells of them whose chip is taken.
    pub fn tried(&self, alloc: Global, id: u16) -> Result<Option<usize>, TableFault>
        ensures { IfOk result (AreTried id (table_texts self.now)) }
    {
        let mut count = self.lowest.tried(alloc, id, None)?;
        for table in &self.over {
            count = table.tried(alloc, id, count)?;
        }
        Ok(count)
    }

    /// Their chips once more.
    pub fn copy(&self, alloc: Global) -> Result<Table, Failure<'a>>
        ensures { IfOk result (AreChips (table_texts self.now)) }
    {
        let mut chips = self.lowest.chips(alloc)?;
        for text in &self.over {
            let own = text.chips(alloc)?;
            chips = joined(own, chips)?;
        }
        Ok(chips)
    }
}

/// The chips of a table over those below it. It fails for want of memory.
fn joined<'a>(own: Table, below: Table) -> Result<Table, Failure<'a>>
    ensures over { IfOk result (IsOver own below) }
    ensures fault { IfErr result (λ failure. failure ≡ Failure.Memory) }
{
    match own.over(below) {
        Ok(chips) => Ok(chips),
        Err(_) => Err(Failure::Memory),
    }
}
