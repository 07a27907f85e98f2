// How far back an undo goes.
ghost use Rattle.std.specs.Prelude.{IfOk};
ghost use Rattle.clap.specs.Words.{found_of};
ghost use Rattle.stm_words.specs.Request.{NamesExtent};

use crate::given::{flag, spare_number};
use crate::usage_fault::UsageFault;
use clap::ArgMatches;

/// How far back an undo goes.
#[derive(Clone, Copy)]
pub enum Extent {
    /// So many of the newest writes and erases, or, at 0, all.
    Newest(u32),
    /// Up to the newest that changed something, that one too.
    ToChange,
}

impl Extent {
    /// How far back the words of `undo` say: all, where they say nothing.
    pub fn parse<'a>(given: &ArgMatches<'a>) -> Result<Extent, UsageFault<'a>>
        ensures { IfOk result (NamesExtent (found_of given.now)) }
    {
        if !flag(given, "to-change") {
            return Ok(Extent::Newest(spare_number(given, "COUNT")?.unwrap_or(0)));
        }
        if given.get_str("COUNT").is_some() {
            return Err(UsageFault::ChangeTakesNoCount);
        }
        Ok(Extent::ToChange)
    }
}
