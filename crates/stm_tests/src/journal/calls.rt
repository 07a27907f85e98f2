// Segments begun, ended and undone, with their pages, and what is refused.
ghost use Rattle.std.specs.Prelude.{◌≡◌, ◌<◌, length, false};
ghost use Rattle.stm_journal.specs.States.{is_unfinished};

use crate::journal::opened;
use crate::verdicts::{ends_as, passes_as};
use std::alloc::Global;
use std::test::Fail;
use stm_journal::{Journal, JournalFault};
use stm_sim::MemoryRig;
use stm_wire::UniqueId;

/// A page is kept, and is to be erased.
fn keep_and_erase(journal: &mut Journal, rig: &mut MemoryRig) -> Result<u32, JournalFault>
    requires room { length journal.old.state.stack < 65535 }
    requires finished { is_unfinished journal.old.state ≡ false }
{
    let segment = journal.begin(rig, 0x412, &UniqueId::none())?;
    journal.keep_page(rig, 5, &[0xFF, 0x0A])?;
    journal.intend_erase(rig, 5)?;
    Ok(segment)
}

/// The last page is kept, and is to be written.
fn keep_and_program(journal: &mut Journal, rig: &mut MemoryRig) -> Result<u32, JournalFault>
    requires room { length journal.old.state.stack < 65535 }
    requires finished { is_unfinished journal.old.state ≡ false }
{
    let segment = journal.begin(rig, 0x412, &UniqueId::none())?;
    journal.keep_page(rig, 65535, &[0x00])?;
    journal.intend_program(rig, 65535)?;
    Ok(segment)
}

/// A greeting comes where it may.
fn greet_once(journal: &mut Journal, rig: &mut MemoryRig) -> Result<(), JournalFault> {
    if journal.may_greet() {
        journal.greet(rig)?;
    }
    Ok(())
}

/// A page is kept, and is to be erased; a greeting comes behind that, and no second one.
fn keep_and_greet(journal: &mut Journal, rig: &mut MemoryRig) -> Result<u32, JournalFault>
    requires room { length journal.old.state.stack < 65535 }
    requires finished { is_unfinished journal.old.state ≡ false }
{
    let segment = keep_and_erase(journal, rig)?;
    greet_once(journal, rig)?;
    greet_once(journal, rig)?;
    Ok(segment)
}

/// A segment is begun and ended.
fn begin_and_end(journal: &mut Journal, rig: &mut MemoryRig) -> Result<u32, JournalFault>
    requires room { length journal.old.state.stack < 65535 }
    requires finished { is_unfinished journal.old.state ≡ false }
{
    let segment = journal.begin(rig, 0x412, &UniqueId::none())?;
    journal.end(rig)?;
    Ok(segment)
}

#[derive(Clone, Copy)]
enum Command {
    KeepsAndErases,
    KeepsAndGreets,
    KeepsAndPrograms,
    Ends,
}

/// A journal, a command there, and the bytes, the header and whether the segment is unfinished
/// behind it.
type Commanded = (&'static [u8], Command, &'static [u8], (u8, u64), bool);

const COMMANDS: &[Commanded] = &[
    (
        b"",
        Command::KeepsAndErases,
        b"stmjournal 2 0412\nopen 1\npage 5 FF0A\nerase 5\n",
        (2, 1),
        true,
    ),
    (
        b"stmjournal 1 0412\n",
        Command::KeepsAndGreets,
        b"stmjournal 1 0412\nopen 1\npage 5 FF0A\nerase 5\nconnect!\n",
        (1, 1),
        true,
    ),
    (
        b"stmjournal 1 0412\n",
        Command::KeepsAndPrograms,
        b"stmjournal 1 0412\nopen 1\npage 65535 00\nprogram 65535\n",
        (1, 1),
        true,
    ),
    (
        b"stmjournal 1 0412\n",
        Command::Ends,
        b"stmjournal 1 0412\nopen 1\nend 1\n",
        (1, 1),
        false,
    ),
];

/// Whether a Rig's journal has just these bytes.
pub(super) fn holds(rig: &MemoryRig, bytes: &[u8]) -> bool {
    rig.journal() == bytes
}

/// The segment of a command; none where no command can begin.
fn commanded(journal: &mut Journal, rig: &mut MemoryRig, command: Command) -> Option<u32> {
    if journal.depth() >= 65535 || journal.is_unfinished() {
        return None;
    }
    let segment = match command {
        Command::KeepsAndErases => keep_and_erase(journal, rig),
        Command::KeepsAndGreets => keep_and_greet(journal, rig),
        Command::KeepsAndPrograms => keep_and_program(journal, rig),
        Command::Ends => begin_and_end(journal, rig),
    };
    segment.ok()
}

/// Whether the command of a row makes segment 1, and leaves what the row says.
fn is_commanded_as(journal: &mut Journal, rig: &mut MemoryRig, row: &Commanded) -> bool {
    commanded(journal, rig, row.1) == Some(1)
        && holds(rig, row.2)
        && journal.header() == Some(row.3)
        && journal.is_open()
        && journal.is_unfinished() == row.4
}

/// Whether the command of a row leaves in its journal what the row says.
fn is_command(alloc: Global, row: &Commanded) -> Result<bool, Fail> {
    let (mut journal, mut rig) = opened(alloc, row.0)?;
    Ok(is_commanded_as(&mut journal, &mut rig, row))
}

/// The first row of `COMMANDS` that is something else.
fn first_commanded(alloc: Global) -> Result<Option<usize>, Fail> {
    for (place, row) in COMMANDS.iter().enumerate() {
        if !is_command(alloc, row)? {
            return Ok(Some(place));
        }
    }
    Ok(None)
}

const TORN: &[u8] = b"stmjournal 1 0412\nopen 1\nend 1\npage 0 FFFF";

/// Whether the segment of `TORN` is undone behind a mark for its last line, and none is left.
fn was_undone(journal: &mut Journal, rig: &mut MemoryRig) -> bool {
    if journal.depth() == 0 {
        return false;
    }
    journal.undone(rig) == Ok(())
        && rig.journal() == b"stmjournal 1 0412\nopen 1\nend 1\npage 0 FFFF!\nundone 1\n".as_slice()
        && !journal.is_open()
}

/// Whether a torn line is marked when its segment is undone.
fn is_torn_tail_marked(alloc: Global) -> Result<bool, Fail> {
    let (mut journal, mut rig) = opened(alloc, TORN)?;
    Ok(was_undone(&mut journal, &mut rig))
}

#[test]
fn calls_answer_what_is_due(rt: HostRuntime) -> Result<(), Fail> {
    ends_as(
        "a page is kept or written or a segment is ended",
        first_commanded(rt.alloc())?,
    )?;
    passes_as("a torn tail", is_torn_tail_marked(rt.alloc())?)
}
