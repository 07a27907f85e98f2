// Where the words say that a journal is.
ghost use Rattle.std.specs.Prelude.{◌≡◌, IfOk, false, true};
ghost use Rattle.clap.specs.Words.{found_of};
ghost use Rattle.stm_words.specs.Request.{NamesJournal};

use crate::given::is_word;
use crate::usage_fault::UsageFault;
use clap::ArgMatches;

/// Where the words say that a journal is.
#[derive(Clone, Copy)]
pub struct JournalPlace<'a> {
    /// The file of the journal, or a folder.
    pub name: &'a str,
    /// Whether it is a folder, in which the journal has the name of its board.
    pub is_folder: bool,
}

impl<'a> JournalPlace<'a> {
    /// The journal in this file.
    fn file(name: &'a str) -> JournalPlace<'a>
        ensures name { result.name.now ≡ name.now }
        ensures file { result.is_folder ≡ false }
    {
        JournalPlace {
            name,
            is_folder: false,
        }
    }

    /// The journal in this folder.
    fn folder(name: &'a str) -> JournalPlace<'a>
        ensures name { result.name.now ≡ name.now }
        ensures folder { result.is_folder ≡ true }
    {
        JournalPlace {
            name,
            is_folder: true,
        }
    }

    /// The place that words name, or the environment: a file or a folder, and not both. A word goes
    /// before the environment.
    pub fn parse(given: &ArgMatches<'a>) -> Result<JournalPlace<'a>, UsageFault<'a>>
        ensures { IfOk result
            (λ place. NamesJournal (found_of given.now) place.name.now place.is_folder) }
    {
        match (given.get_str("journal"), given.get_str("journals")) {
            (Some(name), None) => Ok(JournalPlace::file(name)),
            (None, Some(name)) => Ok(JournalPlace::folder(name)),
            (Some(file), Some(folder)) => {
                match (is_word(given, "journal"), is_word(given, "journals")) {
                    (true, false) => Ok(JournalPlace::file(file)),
                    (false, true) => Ok(JournalPlace::folder(folder)),
                    _ => Err(UsageFault::TwoJournals),
                }
            }
            (None, None) => Err(UsageFault::NoJournal),
        }
    }
}
