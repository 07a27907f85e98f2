// The subcommands and their words, for `clap`.
ghost use Rattle.std.specs.Prelude.{◌≡◌, IfOk, map};
ghost use Rattle.clap.specs.Words.{App, new_app, with_subcommand};
ghost use Rattle.stm_words.specs.CommandSet.{Makes, TakesKinds, behind_a_stop, command_set, crc_app};
ghost use Rattle.stm_words.specs.CommandSet.{erase_app, go_app, info_app, is_short_wait, keep_app};
ghost use Rattle.stm_words.specs.CommandSet.{log_app, on_board, protect_app, read_app, sim_app};
ghost use Rattle.stm_words.specs.CommandSet.{undo_app, rule_for, verify_app, wait_word, with_rules, write_app};

use crate::argument::Word::{
    Flag, HiddenFlag, LetterFlag, LetterOption, Needed, NeededOption, NeededRepeated, Repeated,
    RepeatedOption, Spare, SpareOption,
};
use crate::argument::{Word, argument, kind};
use crate::environment::Environment;
use crate::help;
use crate::number::parse_number;
use clap::Command;
use std::alloc::{AllocError, Global};

/// The version that `--version` tells, and in which logic the program is proved, which kits share;
/// `tools/demo.sh` builds one that isn't proved, from a copy in which that stands here.
const VERSION: &str = "0.2.0, proved by rattle logic dac8208d650f15bf";

/// A command that takes these words too.
fn with_words<'a>(
    alloc: Global,
    command: Command<'a>,
    words: &[Word<'a>],
) -> Result<Command<'a>, AllocError>
    ensures { (a : App) → Makes a command.entry → IfOk result (Makes (with_rules a (map rule_for words.now))) }
{
    let mut made = command;
    for word in words {
        made = made.arg(argument(alloc, *word))?;
    }
    Ok(made)
}

/// A subcommand that takes these words.
fn subcommand<'a>(
    alloc: Global,
    name: &'a str,
    about: &'a str,
    words: &[Word<'a>],
) -> Result<Command<'a>, AllocError>
    ensures { IfOk result (Makes
        (with_rules (new_app name.entry.now) (map rule_for words.now))) }
{
    with_words(alloc, Command::new(alloc, name).about(about), words)
}

/// How long a reply may take, in milliseconds, where no word says it.
fn standing_wait<'a>(environment: Environment<'a>) -> &'a str
    ensures { result.now ≡ wait_word environment.entry.wait }
{
    match environment.wait {
        Some(wait) => wait,
        None => "400",
    }
}

/// A subcommand with the words that every use of a device has.
fn on_board<'a>(
    alloc: Global,
    environment: Environment<'a>,
    name: &'a str,
    about: &'a str,
) -> Result<Command<'a>, AllocError>
    ensures { IfOk result (Makes (on_board environment.entry name.entry.now)) }
{
    let wait = standing_wait(environment);
    subcommand(
        alloc,
        name,
        about,
        &[
            NeededOption("table", "FILE", environment.table, help::TABLE),
            NeededOption("device", "DEV", environment.device, help::DEVICE),
            SpareOption("journal", "FILE", environment.journal, help::JOURNAL),
            SpareOption("journals", "FOLDER", environment.journals, help::JOURNALS),
            Flag("no-lock", help::NO_LOCK),
            Flag("trust-journal", help::TRUST_JOURNAL),
            SpareOption("wait", "MS", Some(wait), help::WAIT),
            SpareOption("baud", "N", environment.baud, help::BAUD),
            SpareOption("give-up", "SECONDS", None, help::GIVE_UP),
            HiddenFlag("fresh", help::FRESH),
            Flag("progress", help::PROGRESS),
            Flag("quiet", help::QUIET),
            Flag("watch", help::WATCH),
            Flag("json", help::JSON),
            SpareOption("stop", "K", None, help::STOP),
            SpareOption("board", "HEX", environment.board, help::BOARD),
            Flag("no-board", help::NO_BOARD),
        ],
    )
}

fn info<'a>(alloc: Global, environment: Environment<'a>) -> Result<Command<'a>, AllocError>
    ensures { IfOk result (Makes (info_app environment.entry)) }
{
    let info = on_board(alloc, environment, "info", help::INFO)?;
    with_words(alloc, info, &[Flag("raw", help::RAW)])
}

fn read<'a>(alloc: Global, environment: Environment<'a>) -> Result<Command<'a>, AllocError>
    ensures { IfOk result (Makes (read_app environment.entry)) }
{
    let read = on_board(alloc, environment, "read", help::READ)?;
    with_words(
        alloc,
        read,
        &[
            LetterOption("range", 'S', "RANGE", help::READ_RANGE),
            Flag("hex", help::HEX),
            Flag("skip-blank", help::SKIP_BLANK),
            Needed("OUT", help::OUT),
        ],
    )
}

fn crc<'a>(alloc: Global, environment: Environment<'a>) -> Result<Command<'a>, AllocError>
    ensures { IfOk result (Makes (crc_app environment.entry)) }
{
    let crc = on_board(alloc, environment, "crc", help::CRC)?;
    with_words(
        alloc,
        crc,
        &[LetterOption("range", 'S', "RANGE", help::CRC_RANGE)],
    )
}

fn write<'a>(alloc: Global, environment: Environment<'a>) -> Result<Command<'a>, AllocError>
    ensures { IfOk result (Makes (write_app environment.entry)) }
{
    let write = on_board(alloc, environment, "write", help::WRITE)?;
    with_words(
        alloc,
        write,
        &[
            LetterFlag("force", 'f', help::FORCE),
            LetterFlag("check", 'v', help::CHECK),
            LetterOption("range", 'S', "RANGE", help::IMAGE_RANGE),
            Flag("keep", help::WRITE_KEEP),
            SpareOption("keep-to", "TO", None, help::WRITE_KEEP_TO),
            SpareOption("go", "ADDRESS", None, help::WRITE_GO),
            SpareOption("again", "N", None, help::AGAIN),
            NeededRepeated("IMAGE", help::IMAGE),
        ],
    )
}

fn verify<'a>(alloc: Global, environment: Environment<'a>) -> Result<Command<'a>, AllocError>
    ensures { IfOk result (Makes (verify_app environment.entry)) }
{
    let verify = on_board(alloc, environment, "verify", help::VERIFY)?;
    with_words(
        alloc,
        verify,
        &[
            LetterFlag("force", 'f', help::FORCE),
            LetterOption("range", 'S', "RANGE", help::IMAGE_RANGE),
            NeededRepeated("IMAGE", help::IMAGE),
        ],
    )
}

fn erase<'a>(alloc: Global, environment: Environment<'a>) -> Result<Command<'a>, AllocError>
    ensures { IfOk result (Makes (erase_app environment.entry)) }
{
    let erase = on_board(alloc, environment, "erase", help::ERASE)?;
    with_words(
        alloc,
        erase,
        &[Flag("all", help::ALL), Repeated("PAGE", help::PAGE)],
    )
}

/// Whether this is a wait, in milliseconds, and a shorter one than where nothing is said.
fn is_short_wait(wait: &str) -> bool
    ensures { result ≡ is_short_wait wait.now }
{
    match parse_number(wait) {
        Some(n) => 1 <= n && n < 400,
        None => false,
    }
}

/// What stands in the place of an undo's words: no shorter wait than where nothing is said, since the
/// board may still be busy with what was stopped.
fn behind_a_stop<'a>(environment: Environment<'a>) -> Environment<'a>
    ensures { result ≡ behind_a_stop environment.entry }
{
    match environment.wait {
        Some(wait) if is_short_wait(wait) => Environment {
            wait: None,
            ..environment
        },
        _ => environment,
    }
}

fn undo<'a>(alloc: Global, environment: Environment<'a>) -> Result<Command<'a>, AllocError>
    ensures { IfOk result (Makes (undo_app environment.entry)) }
{
    let undo = on_board(alloc, behind_a_stop(environment), "undo", help::UNDO)?;
    with_words(
        alloc,
        undo,
        &[
            LetterFlag("check", 'v', help::UNDO_CHECK),
            Flag("to-change", help::TO_CHANGE),
            Flag("recover", help::RECOVER),
            Spare("COUNT", help::COUNT),
        ],
    )
}

fn log<'a>(alloc: Global, environment: Environment<'a>) -> Result<Command<'a>, AllocError>
    ensures { IfOk result (Makes (log_app environment.entry)) }
{
    subcommand(
        alloc,
        "log",
        help::LOG,
        &[
            NeededOption("journal", "FILE", environment.journal, help::JOURNAL),
            Flag("json", help::JSON),
            Flag("check", help::LOG_CHECK),
        ],
    )
}

fn keep<'a>(alloc: Global, environment: Environment<'a>) -> Result<Command<'a>, AllocError>
    ensures { IfOk result (Makes (keep_app environment.entry)) }
{
    subcommand(
        alloc,
        "keep",
        help::KEEP,
        &[
            NeededOption("journal", "FILE", environment.journal, help::JOURNAL),
            Flag("json", help::JSON),
            Flag("no-lock", help::NO_LOCK),
            Flag("trust-journal", help::TRUST_JOURNAL),
            SpareOption("last", "N", None, help::LAST),
            Spare("TO", help::TO),
        ],
    )
}

fn go<'a>(alloc: Global, environment: Environment<'a>) -> Result<Command<'a>, AllocError>
    ensures { IfOk result (Makes (go_app environment.entry)) }
{
    let go = on_board(alloc, environment, "go", help::GO)?;
    with_words(alloc, go, &[Needed("ADDRESS", help::ADDRESS)])
}

fn protect<'a>(alloc: Global, environment: Environment<'a>) -> Result<Command<'a>, AllocError>
    ensures { IfOk result
        (λ c. (p : _) × Makes (protect_app environment.entry p) c × TakesKinds p) }
{
    let protect = on_board(alloc, environment, "protect", help::PROTECT)?;
    let flags = [Flag("yes", help::YES), Flag("in-session", help::IN_SESSION)];
    with_words(alloc, protect, &flags)?.arg(kind(alloc))
}

fn sim<'a>(alloc: Global, environment: Environment<'a>) -> Result<Command<'a>, AllocError>
    ensures { IfOk result (Makes (sim_app environment.entry)) }
{
    subcommand(
        alloc,
        "sim",
        help::SIM,
        &[
            NeededOption("table", "FILE", environment.table, help::TABLE),
            NeededOption("id", "ID", None, help::ID),
            NeededOption("flash", "FILE", None, help::FLASH),
            SpareOption("unique", "HEX", None, help::UNIQUE),
            SpareOption("size", "KIB", None, help::SIZE),
            RepeatedOption("protected", "PAGE", help::PROTECTED),
            Flag("readout-protection", help::READOUT_PROTECTION),
            Flag("no-lock", help::NO_LOCK),
            NeededOption("socket", "PATH", None, help::SOCKET),
            SpareOption("mode", "MODE", Some("600"), help::MODE),
            SpareOption("clients", "N", Some("1"), help::CLIENTS),
        ],
    )
}

/// A command with one more subcommand, if there was memory for that.
fn with<'a>(
    command: Command<'a>,
    more: Result<Command<'a>, AllocError>,
) -> Result<Command<'a>, AllocError>
    ensures { (a b : App) → Makes a command.entry → IfOk more.entry (Makes b)
        → IfOk result (Makes (with_subcommand a b.top)) }
{
    command.subcommand(more?)
}

/// The program's subcommands.
pub fn command_set<'a>(
    alloc: Global,
    environment: Environment<'a>,
) -> Result<Command<'a>, AllocError>
    ensures { IfOk result
        (λ c. (p : _) × Makes (command_set environment.entry p) c × TakesKinds p) }
{
    let bare = Command::new(alloc, "stmflash")
        .about(help::STMFLASH)
        .version(VERSION)
        .subcommand_required(true);
    // where a call may end on the way, nothing is held
    let c = with(bare, info(alloc, environment))?;
    let c = with(c, read(alloc, environment))?;
    let c = with(c, crc(alloc, environment))?;
    let c = with(c, write(alloc, environment))?;
    let c = with(c, verify(alloc, environment))?;
    let c = with(c, erase(alloc, environment))?;
    let c = with(c, undo(alloc, environment))?;
    let c = with(c, log(alloc, environment))?;
    let c = with(c, keep(alloc, environment))?;
    let c = with(c, go(alloc, environment))?;
    let c = c.subcommand(protect(alloc, environment)?)?;
    with(c, sim(alloc, environment))
}
