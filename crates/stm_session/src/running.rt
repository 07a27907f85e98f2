// A run: everything is checked before the first command is begun, and then the commands
// are done in their order.
ghost use Rattle.std.specs.Prelude.{◌≡◌, ◌≢◌, ◌+◌, ◌*◌, length, OnOk, IfOk, IfErr};
ghost use Rattle.stm_wire.specs.Dialogue.{GoesOn};
ghost use Rattle.stm_journal.specs.Calls.{AreFetches};
ghost use Rattle.stm_session.specs.Answers.{outcomes_in};
ghost use Rattle.stm_session.specs.CommandList.{AreFit, DoesCommands};
ghost use Rattle.stm_session.specs.Fault.{HasSessionCause};
ghost use Rattle.stm_session.specs.Meaning.{commands_in};
ghost use Rattle.stm_session.specs.Order.{IsAfter};
ghost use Rattle.stm_session.specs.Promises.{RunContract};
ghost use Rattle.stm_session.specs.Reaching.{IsConfirmedInPart, confirming};
ghost use Rattle.stm_session.specs.Running.{AreKindsOf};
ghost use Rattle.stm_session.specs.RunOrder.{AreBegun, AreDoneInOrder, RunStops};
ghost use Rattle.stm_session.specs.RunOrder.{RunsInOrder, RunsTelling};
ghost use Rattle.stm_session.specs.Sending.{SendsAsRun, is_whole};
ghost use Rattle.stm_session.specs.Sending.{most_of_command, most_of_confirming};

use crate::command_check::check_commands;
use crate::confirming::confirm;
use crate::laws_of_steps::step_laws;
use crate::one_command::run_command;
use crate::opening::open;
use crate::{Command, Fault, Outcome, Report};
use std::alloc::Global;
use stm_chip::Table;
use stm_journal::Journal;
use stm_wire::{Chip, Rig};

/// Does the commands, one after another, on a settled device. Memory for their outcomes is had
/// before the first is begun.
fn run_commands<R: Rig>(
    alloc: Global,
    rig: &mut R,
    journal: &mut Journal,
    chip: &Chip,
    commands: &[Command],
) -> Result<Vec<Outcome>, Fault>
    requires { AreFit chip.now commands.now journal.old.state }
    ensures { let old = R.view rig.old in let new = R.view rig.new in
        let cs = commands_in commands.now in
        DoesCommands (length commands.now * most_of_command)
        (λ said last. AreDoneInOrder chip.now cs said journal.old.state last)
        (λ fault. AreBegun fault chip.now cs journal.old.state)
        (λ _. ⊥) chip.now commands.now journal.old journal.new old new result
        (λ outcomes. outcomes.items) }
{
    step_laws();
    let mut outcomes = Vec::new(alloc);
    outcomes.reserve_exact(commands.len())?;
    for command in commands {
        let outcome = run_command(alloc, rig, journal, chip, command)?;
        outcomes.push(outcome).unwrap();
    }
    Ok(outcomes)
}

/// Asks a settled device once more whether it is the chip's board, and does the commands.
fn run_confirmed<R: Rig>(
    alloc: Global,
    rig: &mut R,
    journal: &mut Journal,
    chip: &Chip,
    commands: &[Command],
) -> Result<Vec<Outcome>, Fault>
    requires { AreFit chip.now commands.now journal.old.state }
    ensures { let old = R.view rig.old in let new = R.view rig.new in
        let cs = commands_in commands.now in
        DoesCommands (most_of_confirming + length commands.now * most_of_command)
        (λ said last. IsAfter (confirming chip.now)
        (AreDoneInOrder chip.now cs said journal.old.state last))
        (λ fault. IsConfirmedInPart chip.now (AreBegun fault chip.now cs journal.old.state))
        (λ fault. fault ≢ Fault.Memory)
        chip.now commands.now journal.old journal.new old new result (λ outcomes. outcomes.items) }
{
    step_laws();
    confirm(rig, chip)?;
    run_commands(alloc, rig, journal, chip, commands)
}

/// Does commands, one after another: a write or an erase is one segment of the journal. Whatever
/// can be refused is refused before the first is begun, a device that is another board by now too;
/// a verify whose image differs ends the run, and the commands before it stand.
pub fn run<R: Rig>(
    alloc: Global,
    rig: &mut R,
    table: &Table,
    commands: &[Command],
) -> Result<Report, Fault>
    ensures cause { HasSessionCause (R.view rig.old) (R.view rig.new) result }
    ensures puts { let old = R.view rig.old in let new = R.view rig.new in
        SendsAsRun table.now (is_whole result) (length commands.now) old new }
    ensures kinds { IfOk result (λ report. AreKindsOf commands.now report.outcomes.items) }
    ensures silent { let old = R.view rig.old in let new = R.view rig.new in
        IfErr result (λ fault. fault ≡ Fault.Unfinished → GoesOn AreFetches old.calls new.calls) }
    ensures order { let old = R.view rig.old in let new = R.view rig.new in
        OnOk result (RunsInOrder table.now (commands_in commands.now) old new) }
    // What is answered is what came in the reads of that command.
    ensures told { let old = R.view rig.old in let new = R.view rig.new in
        let commands = commands_in commands.now in
        IfOk result (λ report. RunsTelling table.now commands (outcomes_in report) old new) }
    ensures stops { let old = R.view rig.old in let new = R.view rig.new in
        IfErr result (RunStops table.now (commands_in commands.now) old new) }
    ensures promised { let old = R.view rig.old in let new = R.view rig.new in
        RunContract table.now (commands_in commands.now) old new result outcomes_in }
{
    step_laws();
    let mut opened = open(alloc, rig, table)?;
    let chip = opened.chip;
    check_commands(&opened.journal, chip, &opened.commands, commands)?;
    let outcomes = run_confirmed(alloc, rig, &mut opened.journal, chip, commands)?;
    Ok(Report { outcomes })
}
