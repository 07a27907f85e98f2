// What is checked of the commands before the first is done.
ghost use Rattle.std.specs.Prelude.{◌≡◌, ◌+◌, ◌≤◌, length, map, count_by, true, not, ◌||◌, nat_le};
ghost use Rattle.std.specs.Prelude.{None, Some, IfErr, MatchResult, OnOk};
ghost use Rattle.std.specs.List.{list_all, list_any};
ghost use Rattle.stm_wire.specs.Device.{Device};
ghost use Rattle.stm_wire.specs.Exchange.{all_exist};
ghost use Rattle.stm_journal.specs.States.{IsSound};
ghost use Rattle.stm_session.specs.Fault.{IsLaterRefusal};
ghost use Rattle.stm_session.specs.Meaning.{changes_of, command_data, is_change};
ghost use Rattle.stm_session.specs.Opening.{AreCommandsOf};
ghost use Rattle.stm_session.specs.Refusal.{first_refusal};
ghost use Rattle.stm_session.specs.Refusals.{can_erase, command_refusals, is_in_flash};
ghost use Rattle.stm_session.specs.Refusals.{lies_in_flash};

use crate::listing::lists_erase;
use crate::reading::is_within;
use crate::{Command, Fault};
use stm_chip::is_inside_flash;
use stm_journal::Journal;
use stm_wire::{Chip, Commands};

/// How many segments a journal has room for.
const MOST_SEGMENTS: u32 = 65_535;

/// Whether a command begins a segment.
fn is_change(command: &Command) -> bool
    ensures { result ≡ is_change (command_data command.now) }
{
    match command {
        Command::Write(_) => true,
        Command::Erase(_) => true,
        Command::Verify(_) => false,
        Command::Read { .. } => false,
    }
}

/// Whether one of the commands begins a segment.
fn has_change(commands: &[Command]) -> bool
    ensures { result ≡ list_any (λ c. is_change (command_data c)) commands.now }
{
    commands.iter().any(|command| is_change(command))
}

/// Whether no command begins a segment, or the device lists the command that erases pages.
fn can_change(chip: &Chip, told: &Commands, commands: &[Command]) -> bool
    ensures { let changes = list_any is_change (map command_data commands.now) in
        (d : Device) → AreCommandsOf d told.now → result ≡ (not changes || can_erase chip.now d) }
{
    !has_change(commands) || lists_erase(chip, told)
}

/// How many of the commands begin a segment.
fn count_changes(commands: &[Command]) -> usize
    ensures { result ≡ count_by (λ c. is_change (command_data c)) commands.now }
{
    commands.iter().filter(|command| is_change(command)).count()
}

/// Whether the journal has room for the segments that these commands begin.
fn has_room(journal: &Journal, commands: &[Command]) -> bool
    ensures value { let changes = changes_of (map command_data commands.now) in
        result ≡ nat_le (length journal.now.state.stack + length changes) 65535 }
    ensures sound { IsSound journal.now.state }
{
    let room = MOST_SEGMENTS - journal.depth();
    count_changes(commands) <= room as usize
}

/// Whether each of these is a page of the chip.
fn are_pages(chip: &Chip, pages: &[u16]) -> bool
    ensures { result ≡ all_exist chip.now pages.now }
{
    pages.iter().all(|page| *page < chip.pages())
}

/// Whether a command names no place outside the flash, and no page that the chip hasn't.
fn is_in_flash(chip: &Chip, command: &Command) -> bool
    ensures { result ≡ is_in_flash chip.now command.now }
{
    match command {
        Command::Write(image) => is_inside_flash(chip, image),
        Command::Erase(pages) => are_pages(chip, pages),
        Command::Verify(image) => is_inside_flash(chip, image),
        Command::Read { start, length } => is_within(chip, *start, *length),
    }
}

/// Whether no command names a place outside the flash.
fn are_in_flash(chip: &Chip, commands: &[Command]) -> bool
    ensures { result ≡ list_all (is_in_flash chip.now) commands.now }
{
    commands.iter().all(|command| is_in_flash(chip, command))
}

/// Whatever can be refused of the commands: a change of a flash whose device doesn't list the
/// command that erases pages, a place outside the flash, and more segments than the journal has
/// room for. The first of these is answered.
pub fn check_commands(
    journal: &Journal,
    chip: &Chip,
    told: &Commands,
    commands: &[Command],
) -> Result<(), Fault>
    ensures in_flash { OnOk result
        (list_all (lies_in_flash chip.now) (map command_data commands.now) ≡ true) }
    ensures room { let changes = changes_of (map command_data commands.now) in
        OnOk result (length journal.now.state.stack + length changes ≤ 65535) }
    ensures refusal { (d : Device) → AreCommandsOf d told.now
        → let refusals = command_refusals journal.now.state d chip.now
        (map command_data commands.now) in
        MatchResult result (λ _. first_refusal refusals ≡ None)
        (λ fault. first_refusal refusals ≡ Some fault) }
    ensures named { IfErr result IsLaterRefusal }
    ensures sound { OnOk result (IsSound journal.now.state) }
{
    if !can_change(chip, told, commands) {
        return Err(Fault::NoErase);
    }
    if !are_in_flash(chip, commands) {
        return Err(Fault::OutOfFlash);
    }
    if !has_room(journal, commands) {
        return Err(Fault::Full);
    }
    Ok(())
}
