// The flags, options and further words of which subcommands are made, for `clap`.
ghost use Rattle.std.specs.Prelude.{◌≡◌, false, option_map};
ghost use Rattle.clap.specs.Words.{rule_of};
ghost use Rattle.stm_words.specs.CommandSet.{TakesKinds, flag_rule, kind_rule, rule_for};
ghost use Rattle.stm_words.specs.CommandSet.{spare_option_rule};

use crate::help;
use clap::{Arg, ArgAction};
use std::alloc::Global;

/// The words that `protect` takes.
static KINDS: [&str; 3] = ["write-unprotect", "readout-protect", "readout-unprotect"];

/// What a subcommand takes: first its name, last its help.
#[derive(Clone, Copy)]
pub enum Word<'a> {
    /// The flag `--name`.
    Flag(&'a str, &'a str),
    /// The same, which help leaves out.
    HiddenFlag(&'a str, &'a str),
    /// A flag of one letter.
    LetterFlag(&'a str, char, &'a str),
    /// An option of one letter, and what its value is called.
    LetterOption(&'a str, char, &'a str, &'a str),
    /// The option `--name VALUE`, and the value that stands in its place.
    SpareOption(&'a str, &'a str, Option<&'a str>, &'a str),
    /// The same, which has to be given where no value stands in its place.
    NeededOption(&'a str, &'a str, Option<&'a str>, &'a str),
    /// The option `--name VALUE`, which may be given several times.
    RepeatedOption(&'a str, &'a str, &'a str),
    /// A further word, which may be left out.
    Spare(&'a str, &'a str),
    /// A further word, which has to be given.
    Needed(&'a str, &'a str),
    /// Any number of further words.
    Repeated(&'a str, &'a str),
    /// Further words, of which one has to be given.
    NeededRepeated(&'a str, &'a str),
}

/// What `clap` is told of a word.
pub fn argument<'a>(alloc: Global, word: Word<'a>) -> Arg<'a>
    ensures rule { rule_of result ≡ rule_for word.entry }
    ensures local { result.global ≡ false }
{
    match word {
        Word::Flag(name, help) => flag(alloc, name, help),
        Word::HiddenFlag(name, help) => flag(alloc, name, help).hide(true),
        Word::LetterFlag(name, letter, help) => Arg::new(alloc, name)
            .short(letter)
            .action(ArgAction::SetTrue)
            .help(help),
        Word::LetterOption(name, letter, value, help) => Arg::new(alloc, name)
            .short(letter)
            .value_name(value)
            .help(help),
        Word::SpareOption(name, value, standing, help) => {
            option(alloc, name, value, standing, help)
        }
        Word::NeededOption(name, value, standing, help) => {
            option(alloc, name, value, standing, help).required(standing.is_none())
        }
        Word::RepeatedOption(name, value, help) => {
            option(alloc, name, value, None, help).action(ArgAction::Append)
        }
        Word::Spare(name, help) => Arg::new(alloc, name).help(help),
        Word::Needed(name, help) => Arg::new(alloc, name).required(true).help(help),
        Word::Repeated(name, help) => Arg::new(alloc, name).action(ArgAction::Append).help(help),
        Word::NeededRepeated(name, help) => Arg::new(alloc, name)
            .required(true)
            .action(ArgAction::Append)
            .help(help),
    }
}

/// The flag `--name`.
fn flag<'a>(alloc: Global, name: &'a str, help: &'a str) -> Arg<'a>
    ensures rule { rule_of result ≡ flag_rule name.entry.now }
    ensures local { result.global ≡ false }
{
    Arg::new(alloc, name)
        .long(name)
        .action(ArgAction::SetTrue)
        .help(help)
}

/// The option `--name VALUE`, and the value that stands in its place.
fn option<'a>(
    alloc: Global,
    name: &'a str,
    value: &'a str,
    standing: Option<&'a str>,
    help: &'a str,
) -> Arg<'a>
    ensures rule { rule_of result
        ≡ spare_option_rule name.entry.now (option_map (λ s. s.now) standing.entry) }
    ensures local { result.global ≡ false }
{
    let bare = Arg::new(alloc, name)
        .long(name)
        .value_name(value)
        .help(help);
    match standing {
        Some(text) => bare.default_value(text),
        None => bare,
    }
}

/// The word of `protect`.
pub fn kind<'a>(alloc: Global) -> Arg<'a>
    ensures rule { (p : _) × (rule_of result ≡ kind_rule p) × TakesKinds p }
    ensures local { result.global ≡ false }
{
    Arg::new(alloc, "KIND")
        .required(true)
        .help(help::KIND)
        .value_parser(KINDS.as_slice())
}
