// What the words ask for.
ghost use Rattle.std.specs.Prelude.{IfOk, OnOk};
ghost use Rattle.clap.specs.Words.{found_of, subcommand_rows_of};
ghost use Rattle.stm_words.specs.Request.{AsksBySubcommand, AsksFor, IsUnasked};

use crate::environment::Environment;
use crate::given::{flag, word};
use crate::kept::Kept;
use crate::options::Options;
use crate::sequel::Sequel;
use crate::served::Served;
use crate::task::Task;
use crate::unfit::Unfit;
use crate::usage_fault::UsageFault;
use clap::ArgMatches;
use std::alloc::Global;

/// What the words ask for.
#[derive(Drop)]
pub enum Request<'a> {
    /// A use of a device, and what follows it.
    Use(Options<'a>, Task<'a>, Sequel<'a>),
    /// A look at the journal in this file; or a check of all of it.
    Log(&'a str, bool),
    /// An end of a journal, whose writes and erases stay.
    Keep(Kept<'a>),
    /// A simulator on a socket.
    Serve(Served<'a>),
}

impl<'a> Request<'a> {
    /// What the words that `clap` found ask for.
    pub fn parse(
        alloc: Global,
        environment: Environment<'a>,
        matches: &ArgMatches<'a>,
    ) -> Result<Request<'a>, Unfit<'a>>
        ensures { IfOk result (AsksFor environment.entry (subcommand_rows_of matches.now)) }
    {
        match matches.subcommand() {
            Some((name, given)) => Request::of(alloc, environment, name, given),
            None => Err(Unfit::Usage(UsageFault::UnknownWords)),
        }
    }

    /// What the subcommand of this name asks for.
    fn of(
        alloc: Global,
        environment: Environment<'a>,
        name: &str,
        given: &ArgMatches<'a>,
    ) -> Result<Request<'a>, Unfit<'a>>
        ensures { IfOk result (AsksBySubcommand environment.entry name.now (found_of given.now)) }
    {
        match name {
            "log" => Ok(Request::Log(word(given, "journal")?, flag(given, "check"))),
            "keep" => Ok(Request::Keep(Kept::parse(environment, given)?)),
            "sim" => Ok(Request::Serve(Served::parse(alloc, environment, given)?)),
            _ => Request::of_device(alloc, environment, name, given),
        }
    }

    /// The same of a subcommand that uses a device. The first word that can't be read decides,
    /// options before further words; then a stop that there can't be; then an erase that names no
    /// pages; then a question ahead of what asks by itself, or not at all.
    fn of_device(
        alloc: Global,
        environment: Environment<'a>,
        name: &str,
        given: &ArgMatches<'a>,
    ) -> Result<Request<'a>, Unfit<'a>>
        ensures { IfOk result (AsksBySubcommand environment.entry name.now (found_of given.now)) }
    {
        let options = Options::parse(environment, given)?;
        let task = Task::parse(alloc, name, given)?;
        let sequel = Sequel::behind(name, given)?;
        if options.has_vain_stop() {
            return Err(Unfit::Usage(UsageFault::StopNeedsSimulator));
        }
        if task.wants_pages() {
            return Err(Unfit::Usage(UsageFault::GivePages));
        }
        if task.goes_in_session() {
            check_unasked(&options)?;
        }
        Ok(Request::Use(options, task, sequel))
    }
}

/// Refuses a device that is to be asked something first: one that is said to be fresh from reset isn't
/// so any more behind a question, and any other is asked in its session.
fn check_unasked<'a>(options: &Options<'a>) -> Result<(), UsageFault<'a>>
    ensures { OnOk result (IsUnasked options.now) }
{
    if options.board.is_some() || options.in_folder || options.watches {
        return Err(UsageFault::InSessionUnasked);
    }
    Ok(())
}
