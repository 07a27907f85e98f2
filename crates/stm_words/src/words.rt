// The words of the command line, as `clap` reads them.
ghost use Rattle.std.specs.Prelude.{◌≡◌, ◌⊎◌, [], IfErr, IfOk, map};
ghost use Rattle.clap.specs.Words.{IsAmong, fault_of, kind_of};
ghost use Rattle.clap.specs.declared.error.ErrorKind.TheVariants.{DisplayHelp, DisplayVersion, OutOfMemory};
ghost use Rattle.stm_words.specs.Request.{AskForHelp, IsAskedFor, OnHelp};
ghost use Rattle.stm_words.specs.CommandSet.{ReadsWords, TakesKinds, command_set};

use crate::command_set::command_set;
use crate::environment::Environment;
use crate::request::Request;
use crate::unfit::Unfit;
use crate::unread::Unread;
use clap::error::ErrorKind;
use clap::{ArgMatches, Error};
use std::alloc::Global;

/// What the words say: the subcommand and its values, as `clap` defines them for the command set.
/// The first word is the program's name. What the environment has stands for an option that the
/// words don't give; a word goes before it.
pub fn read_words<'a>(
    alloc: Global,
    environment: Environment<'a>,
    words: &'a [&'a str],
) -> Result<ArgMatches<'a>, Error>
    ensures value { IfOk result (λ m. (p : _) × TakesKinds p
        × (fault_of (command_set environment.entry p) (map (λ s. s.now) words.entry.now) ≡ [])
        × ReadsWords (command_set environment.entry p) (map (λ s. s.now) words.entry.now) m) }
    ensures fault { IfErr result (λ e. (kind_of e ≡ OutOfMemory) ⊎ ((p : _) × TakesKinds p
        × IsAmong (kind_of e)
        (fault_of (command_set environment.entry p) (map (λ s. s.now) words.entry.now)))) }
{
    command_set(alloc, environment)?.try_get_matches_from(words)
}

/// What `clap` says where it finds nothing to do.
fn unread<'a>(alloc: Global, error: &Error) -> Unread<'a>
    ensures { OnHelp result
        ((kind_of error.now ≡ DisplayHelp) ⊎ (kind_of error.now ≡ DisplayVersion)) }
{
    if error.kind() == ErrorKind::OutOfMemory {
        return Unread::Memory;
    }
    match format!(in alloc; "{error}") {
        Ok(text) if error.use_stderr() => Unread::Refused(text),
        Ok(text) => Unread::Help(text),
        Err(_) => Unread::Memory,
    }
}

/// What the words ask for. The first word is the program's name.
pub fn read_request<'a>(
    alloc: Global,
    environment: Environment<'a>,
    words: &'a [&'a str],
) -> Result<Request<'a>, Unread<'a>>
    ensures asked { IfOk result
        (IsAskedFor environment.entry (map (λ s. s.now) words.entry.now)) }
    ensures help { IfErr result (λ unread. OnHelp unread
        (AskForHelp environment.entry (map (λ s. s.now) words.entry.now))) }
{
    match read_words(alloc, environment, words) {
        Ok(matches) => match Request::parse(alloc, environment, &matches) {
            Ok(request) => Ok(request),
            Err(Unfit::Usage(fault)) => Err(Unread::Usage(fault)),
            Err(Unfit::Memory) => Err(Unread::Memory),
        },
        Err(error) => Err(unread(alloc, &error)),
    }
}
