// A journal whose writes and erases are to stay.
ghost use Rattle.std.specs.Prelude.{IfOk};
ghost use Rattle.clap.specs.Words.{found_of};
ghost use Rattle.stm_words.specs.Request.{NamesKept};

use crate::environment::Environment;
use crate::given::{flag, spare_number_to, word};
use crate::usage_fault::UsageFault;
use clap::ArgMatches;

/// A journal whose writes and erases are to stay, so that they can't be undone any more.
#[derive(Clone, Copy)]
pub struct Kept<'a> {
    /// The file of the journal.
    pub journal: &'a str,
    /// Where it goes; without a name it is removed.
    pub to: Option<&'a str>,
    /// How many of the newest writes and erases can still be undone, 1 to 65,535, so that the
    /// journal is only cut; without it all are given up. It has no name to go to then.
    pub last: Option<u32>,
    /// Whether no other program has the journal, so that it needs no lock where there is none.
    pub without_lock: bool,
    /// Whether it is used also where others have it, or may write it.
    pub trusts_others: bool,
}

impl<'a> Kept<'a> {
    /// The journal that the words of `keep` name. The environment says that it needs no lock, where
    /// the words don't.
    pub fn parse(
        environment: Environment<'a>,
        given: &ArgMatches<'a>,
    ) -> Result<Kept<'a>, UsageFault<'a>>
        ensures { IfOk result (NamesKept environment.entry (found_of given.now)) }
    {
        let to = given.get_str("TO");
        let journal = word(given, "journal")?;
        let last = spare_number_to(given, "last", 65_535)?;
        if last.is_some() && to.is_some() {
            return Err(UsageFault::LastTakesNoName);
        }
        Ok(Kept {
            journal,
            to,
            last,
            without_lock: flag(given, "no-lock") || environment.without_lock,
            trusts_others: flag(given, "trust-journal"),
        })
    }
}
