// One command of a run.
ghost use Rattle.std.specs.Prelude.{◌≡◌, ◌≢◌, ◌+◌, ◌<◌, ◌||◌, ◌==◌, true, false, List, ℕ, length};
ghost use Rattle.std.specs.Prelude.{IsTrue, IfErr, IfOk, OnOk, Some};
ghost use Rattle.stm_wire.specs.Chip.{fits_inside};
ghost use Rattle.stm_journal.specs.Journals.{Loaded};
ghost use Rattle.stm_journal.specs.States.{is_unfinished};
ghost use Rattle.stm_session.specs.Answers.{outcome_data, segments_of_command};
ghost use Rattle.stm_session.specs.ChangeOrder.{Keeping};
ghost use Rattle.stm_session.specs.OneCommand.{DoesCommand};
ghost use Rattle.stm_session.specs.Fault.{HasSessionCause};
ghost use Rattle.stm_session.specs.Meaning.{command_data, erases, is_change, reads, verifies};
ghost use Rattle.stm_session.specs.Meaning.{writes};
ghost use Rattle.stm_session.specs.Refusals.{image_fits, lies_in_flash};
ghost use Rattle.stm_session.specs.Running.{IsKindOf};
ghost use Rattle.stm_session.specs.Order.{Follows, FaultEnds};
ghost use Rattle.stm_session.specs.RunOrder.{IsBegunBy, IsBegunTelling, IsDoneTelling};
ghost use Rattle.stm_session.specs.RunOrder.{StopsTelling};
ghost use Rattle.stm_session.specs.Sending.{PutsAtMost, most_of_command};
ghost use Rattle.stm_session.specs.Steps.{IsSteady};

use crate::change::Change;
use crate::commanding::change_flash;
use crate::comparing::find_difference;
use crate::laws_of_steps::step_laws;
use crate::reading::read_range;
use crate::{Command, Fault, Outcome};
use std::alloc::Global;
use stm_image::{Image, laying_by_parts};
use stm_journal::Journal;
use stm_wire::{Chip, Rig};

/// Lays an image over the flash.
pub fn write_image<R: Rig>(
    alloc: Global,
    rig: &mut R,
    journal: &mut Journal,
    chip: &Chip,
    image: &Image,
) -> Result<Outcome, Fault>
    requires room { length journal.old.state.stack < 65535 }
    requires finished { is_unfinished journal.old.state ≡ false }
    ensures finished { OnOk result (is_unfinished journal.new.state ≡ false) }
    ensures depth { OnOk result
        (length journal.new.state.stack ≡ length journal.old.state.stack + 1) }
    ensures kind { IfOk result (IsKindOf (Command.Write image.now)) }
    ensures cause { HasSessionCause (R.view rig.old) (R.view rig.new) result }
    ensures named { IfErr result (λ fault. fault ≢ Fault.Unfinished) }
    ensures order { let old = R.view rig.old in let new = R.view rig.new in
        let Done = IsDoneTelling chip.now (writes image.now) journal.old.state in
        IfOk result (λ said. let Kept = Keeping journal.new.state (Done (outcome_data said)) in
        Follows Kept journal.old journal.new old new) }
    ensures stops { let old = R.view rig.old in let new = R.view rig.new in
        let Begun = IsBegunBy chip.now (writes image.now) journal.old.state in
        FaultEnds Begun journal.old.is_torn old new result }
    ensures honest { let old = R.view rig.old in let new = R.view rig.new in
        (flashes : List (List ℕ)) → IsSteady flashes journal.old old → old.device.chip ≡ chip.now
        → DoesCommand flashes (writes image.now) journal.new old new result outcome_data }
{
    let (segment, pages) = change_flash(alloc, rig, journal, chip, &Change::Write(image))?;
    Ok(Outcome::Written { segment, pages })
}

/// Erases pages of the flash.
fn erase_pages<R: Rig>(
    alloc: Global,
    rig: &mut R,
    journal: &mut Journal,
    chip: &Chip,
    pages: &Vec<u16>,
) -> Result<Outcome, Fault>
    requires room { length journal.old.state.stack < 65535 }
    requires finished { is_unfinished journal.old.state ≡ false }
    ensures finished { OnOk result (is_unfinished journal.new.state ≡ false) }
    ensures depth { OnOk result
        (length journal.new.state.stack ≡ length journal.old.state.stack + 1) }
    ensures kind { IfOk result (IsKindOf (Command.Erase pages.now)) }
    ensures cause { HasSessionCause (R.view rig.old) (R.view rig.new) result }
    ensures named { IfErr result (λ fault. fault ≢ Fault.Unfinished) }
    ensures order { let old = R.view rig.old in let new = R.view rig.new in
        let Done = IsDoneTelling chip.now (erases pages.now.items) journal.old.state in
        IfOk result (λ said. let Kept = Keeping journal.new.state (Done (outcome_data said)) in
        Follows Kept journal.old journal.new old new) }
    ensures stops { let old = R.view rig.old in let new = R.view rig.new in
        let Begun = IsBegunBy chip.now (erases pages.now.items) journal.old.state in
        FaultEnds Begun journal.old.is_torn old new result }
    ensures honest { let old = R.view rig.old in let new = R.view rig.new in
        (flashes : List (List ℕ)) → IsSteady flashes journal.old old → old.device.chip ≡ chip.now
        → DoesCommand flashes (erases pages.now.items) journal.new old new result outcome_data }
{
    let change = Change::Erase(pages.as_slice());
    let (segment, pages) = change_flash(alloc, rig, journal, chip, &change)?;
    Ok(Outcome::Erased { segment, pages })
}

/// Compares an image with the flash.
pub fn verify_image<R: Rig>(rig: &mut R, chip: &Chip, image: &Image) -> Result<Outcome, Fault>
    requires { image_fits chip.now image.now ≡ true }
    ensures kind { IfOk result (IsKindOf (Command.Verify image.now)) }
    ensures cause { HasSessionCause (R.view rig.old) (R.view rig.new) result }
    ensures named { IfErr result (λ fault. fault ≢ Fault.Unfinished) }
    ensures puts { PutsAtMost chip.now most_of_command (R.view rig.old) (R.view rig.new) result }
    ensures order { let old = R.view rig.old in let new = R.view rig.new in
        (l : Loaded) → let Done = IsDoneTelling chip.now (verifies image.now) l.state in
        IfOk result (λ said. Follows (Done (outcome_data said)) l l old new) }
    ensures stops { let old = R.view rig.old in let new = R.view rig.new in
        (l : Loaded) → let Begun = IsBegunTelling chip.now (verifies image.now) l.state in
        StopsTelling Begun l.is_torn old new result }
    ensures honest { let old = R.view rig.old in let new = R.view rig.new in
        (flashes : List (List ℕ)) (l : Loaded) → IsSteady flashes l old
        → old.device.chip ≡ chip.now
        → DoesCommand flashes (verifies image.now) l old new result outcome_data }
{
    step_laws();
    let difference = find_difference(rig, chip, image)?;
    match difference {
        Some(address) => Err(Fault::Differs(address)),
        None => Ok(Outcome::Verified),
    }
}

/// Reads a part of the flash.
fn read_part_of<R: Rig>(
    alloc: Global,
    rig: &mut R,
    chip: &Chip,
    start: u32,
    length: u32,
) -> Result<Outcome, Fault>
    requires { IsTrue (length == 0 || fits_inside chip.now start length) }
    ensures kind { IfOk result (IsKindOf (Command.Read start length)) }
    ensures cause { HasSessionCause (R.view rig.old) (R.view rig.new) result }
    ensures named { IfErr result (λ fault. fault ≢ Fault.Unfinished) }
    ensures puts { PutsAtMost chip.now most_of_command (R.view rig.old) (R.view rig.new) result }
    ensures order { let old = R.view rig.old in let new = R.view rig.new in
        (l : Loaded) → let Done = IsDoneTelling chip.now (reads start length) l.state in
        IfOk result (λ said. Follows (Done (outcome_data said)) l l old new) }
    ensures stops { let old = R.view rig.old in let new = R.view rig.new in
        (l : Loaded) → let Begun = IsBegunTelling chip.now (reads start length) l.state in
        StopsTelling Begun l.is_torn old new result }
    ensures honest { let old = R.view rig.old in let new = R.view rig.new in
        (flashes : List (List ℕ)) (l : Loaded) → IsSteady flashes l old
        → old.device.chip ≡ chip.now
        → DoesCommand flashes (reads start length) l old new result outcome_data }
{
    step_laws();
    let bytes = read_range(alloc, rig, chip, start, length)?;
    Ok(Outcome::Read(bytes))
}

/// Does a command, whose places lie in the flash.
pub fn run_command<R: Rig>(
    alloc: Global,
    rig: &mut R,
    journal: &mut Journal,
    chip: &Chip,
    command: &Command,
) -> Result<Outcome, Fault>
    requires in_flash { lies_in_flash chip.now (command_data command.now) ≡ true }
    requires room { is_change (command_data command.now) ≡ true
        → length journal.old.state.stack < 65535 }
    requires finished { is_unfinished journal.old.state ≡ false }
    ensures finished { OnOk result (is_unfinished journal.new.state ≡ false) }
    ensures depth { let segments = segments_of_command (command_data command.now) in
        OnOk result (length journal.new.state.stack ≡ length journal.old.state.stack + segments) }
    ensures kind { IfOk result (IsKindOf command.now) }
    ensures cause { HasSessionCause (R.view rig.old) (R.view rig.new) result }
    ensures named { IfErr result (λ fault. fault ≢ Fault.Unfinished) }
    ensures puts { PutsAtMost chip.now most_of_command (R.view rig.old) (R.view rig.new) result }
    ensures order { let old = R.view rig.old in let new = R.view rig.new in
        let Done = IsDoneTelling chip.now (command_data command.now) journal.old.state in
        IfOk result (λ said. let Kept = Keeping journal.new.state (Done (outcome_data said)) in
        Follows Kept journal.old journal.new old new) }
    ensures stops { let old = R.view rig.old in let new = R.view rig.new in
        let Begun = IsBegunTelling chip.now (command_data command.now) journal.old.state in
        StopsTelling Begun journal.old.is_torn old new result }
    ensures honest { let old = R.view rig.old in let new = R.view rig.new in
        (flashes : List (List ℕ)) → IsSteady flashes journal.old old → old.device.chip ≡ chip.now
        → let c = command_data command.now in
        DoesCommand flashes c journal.new old new result outcome_data }
{
    laying_by_parts();
    chip.keeps_limits();
    match command {
        Command::Write(image) => write_image(alloc, rig, journal, chip, image),
        Command::Erase(pages) => erase_pages(alloc, rig, journal, chip, pages),
        Command::Verify(image) => verify_image(rig, chip, image),
        Command::Read { start, length } => read_part_of(alloc, rig, chip, *start, *length),
    }
}
