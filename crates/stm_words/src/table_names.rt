// The files of chip tables, of which one is read over the other.
ghost use Rattle.std.specs.Prelude.{◌≡◌, IfOk};
ghost use Rattle.clap.specs.Words.{found_of};
ghost use Rattle.stm_words.specs.Request.{AreTables};

use crate::environment::Environment;
use crate::given::{is_word, word};
use crate::usage_fault::UsageFault;
use clap::ArgMatches;
use std::fmt;
use std::fmt::{Display, Formatter};

/// The files of chip tables, of which one is read over the other.
#[derive(Clone, Copy)]
pub struct TableNames<'a> {
    /// The one below all others.
    pub lowest: &'a str,
    /// Those that are read over it, the lower first. None where a word or a variable names a table,
    /// which is alone then.
    pub over: Option<&'a [&'a str]>,
}

impl<'a> TableNames<'a> {
    /// The table that a word names, alone; without one those that stand for it.
    pub fn parse(
        environment: Environment<'a>,
        given: &ArgMatches<'a>,
    ) -> Result<TableNames<'a>, UsageFault<'a>>
        ensures { IfOk result (AreTables environment.entry (found_of given.now)) }
    {
        let lowest = word(given, "table")?;
        let over = if is_word(given, "table") {
            None
        } else {
            environment.over
        };
        Ok(TableNames { lowest, over })
    }
}

impl Display for TableNames<'_> {
    fn fmt<W: fmt::Write>(&self, f: &mut Formatter<W>) -> fmt::Result {
        if let Some(over) = self.over {
            for name in over.iter().rev() {
                write!(f, "{name} over ")?;
            }
        }
        f.write_str(self.lowest)
    }
}
