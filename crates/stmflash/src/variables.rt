// What stands in the place of words: variables of the environment, and the chip tables that are
// there.
ghost use Rattle.stmflash.specs.Standing.{IsTables, StandsFor};
ghost use Rattle.stmflash.specs.Variables.{AreChecked, AreNamed, ComesOfEach, SystemIsAsked, names_of};
ghost use Rattle.stmflash.specs.Variables.{others_of};

use crate::variable::Variable;
use std::env::Env;
use stm_words::Environment;
use stm_work::Failure;

/// The variables of the environment, as the system tells them.
#[derive(Drop)]
pub struct Variables {
    pub config_home: Variable,
    pub home: Variable,
    table: Variable,
    device: Variable,
    journal: Variable,
    journals: Variable,
    board: Variable,
    wait: Variable,
    baud: Variable,
    without_board: Variable,
    is_fresh: Variable,
    without_lock: Variable,
    is_json: Variable,
}

impl Variables {
    /// Reads the variables. The first that is set and is no text is the failure.
    pub fn read<'a, R: Env + AllocGlobal>(rt: &R) -> Result<Variables, Failure<'a>>
        ensures { SystemIsAsked result }
    {
        let variables = Variables::ask(rt);
        match variables.check() {
            Ok(()) => Ok(variables),
            Err(failure) => Err(failure),
        }
    }

    /// Asks the system for each of them.
    fn ask<R: Env + AllocGlobal>(rt: &R) -> Variables
        ensures { AreNamed result }
    {
        Variables {
            config_home: Variable::ask(rt, "XDG_CONFIG_HOME"),
            home: Variable::ask(rt, "HOME"),
            table: Variable::ask(rt, "STMFLASH_TABLE"),
            device: Variable::ask(rt, "STMFLASH_DEVICE"),
            journal: Variable::ask(rt, "STMFLASH_JOURNAL"),
            journals: Variable::ask(rt, "STMFLASH_JOURNALS"),
            board: Variable::ask(rt, "STMFLASH_BOARD"),
            wait: Variable::ask(rt, "STMFLASH_WAIT"),
            baud: Variable::ask(rt, "STMFLASH_BAUD"),
            without_board: Variable::ask(rt, "STMFLASH_NO_BOARD"),
            is_fresh: Variable::ask(rt, "STMFLASH_FRESH"),
            without_lock: Variable::ask(rt, "STMFLASH_NO_LOCK"),
            is_json: Variable::ask(rt, "STMFLASH_JSON"),
        }
    }

    /// Refuses one that is set and is no text. Of the two of folders it doesn't count.
    fn check<'a>(&self) -> Result<(), Failure<'a>>
        ensures { AreChecked self.now result }
    {
        self.check_names()?;
        self.check_others()
    }

    /// The same of what names files and boards.
    fn check_names<'a>(&self) -> Result<(), Failure<'a>>
        ensures { ComesOfEach (names_of self.now) result }
    {
        self.table.check()?;
        self.device.check()?;
        self.journal.check()?;
        self.journals.check()?;
        self.board.check()?;
        Ok(())
    }

    fn check_others<'a>(&self) -> Result<(), Failure<'a>>
        ensures { ComesOfEach (others_of self.now) result }
    {
        self.wait.check()?;
        self.baud.check()?;
        self.without_board.check()?;
        self.is_fresh.check()?;
        self.without_lock.check()?;
        self.is_json.check()?;
        Ok(())
    }

    /// What stands in the place of words. Where no variable names a table, these are read.
    pub fn environment<'a>(&'a self, tables: &'a [&'a str]) -> Environment<'a>
        ensures { StandsFor self.now tables.now result }
    {
        let (table, over) = tables_of(self.table.text(), tables);
        Environment {
            table,
            over,
            device: self.device.text(),
            journal: self.journal.text(),
            journals: self.journals.text(),
            board: self.board.text(),
            wait: self.wait.text(),
            baud: self.baud.text(),
            without_board: self.without_board.is_one(),
            is_fresh: self.is_fresh.is_one(),
            without_lock: self.without_lock.is_one(),
            is_json: self.is_json.is_one(),
        }
    }
}

/// The table that a variable names, alone; else the lowest of these tables, and those over it.
fn tables_of<'a>(
    named: Option<&'a str>,
    tables: &'a [&'a str],
) -> (Option<&'a str>, Option<&'a [&'a str]>)
    ensures { IsTables named.entry tables.now result }
{
    match (named, tables.split_first()) {
        (Some(name), _) => (Some(name), None),
        (None, Some((lowest, over))) => (Some(*lowest), Some(over)),
        (None, None) => (None, None),
    }
}
