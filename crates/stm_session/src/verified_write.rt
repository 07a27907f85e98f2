// A write that is verified: what it may have changed is read again, and the rest was read before.
ghost use Rattle.std.specs.Prelude.{◌≡◌, ◌<◌, ◌+◌, ◌*◌, true, false, length, IfOk};
ghost use Rattle.stm_image.specs.Layout.{IsAmong};
ghost use Rattle.stm_image.specs.Pairs.{Pairs};
ghost use Rattle.stm_journal.specs.States.{is_unfinished};
ghost use Rattle.stm_session.specs.Reaching.{IsConfirmedInPart, confirming};
ghost use Rattle.stm_session.specs.Refusals.{image_fits};
ghost use Rattle.stm_session.specs.Order.{IsAfter};
ghost use Rattle.stm_session.specs.RunOrder.{AreBegun};
ghost use Rattle.stm_session.specs.Sending.{most_of_command, most_of_confirming};
ghost use Rattle.stm_session.specs.VerifiedWrite.{HoldsKept, IsWrittenAndSeen, VerifiesWrite};
ghost use Rattle.stm_session.specs.VerifiedWrite.{WritesThen, written_then};

use crate::command_check::check_commands;
use crate::confirming::confirm;
use crate::laws_of_steps::step_laws;
use crate::one_command::{verify_image, write_image};
use crate::opening::open;
use crate::outcome::VerifiedWrite;
use crate::{Command, Fault, Outcome};
use std::alloc::{AllocError, Global};
use stm_chip::Table;
use stm_image::{Image, laying_by_parts};
use stm_journal::Journal;
use stm_wire::{Chip, Rig};

/// The part of an image that lies in the pages which the newest segment keeps.
fn kept_part(
    alloc: Global,
    journal: &Journal,
    chip: &Chip,
    image: &Image,
) -> Result<Image, AllocError>
    ensures among { IfOk result (λ part. IsAmong part image.now) }
    ensures kept { IfOk result (HoldsKept chip.now journal.now.state image.now) }
{
    chip.keeps_limits();
    let newest = journal.depth();
    let mut part = Image::empty(alloc);
    for n in 0..chip.pages() {
        let start = chip.page_start(n);
        let size = chip.page_size(n);
        if journal.page(newest, n).is_some() {
            part = part.with_part(image, start, size)?;
        }
    }
    Ok(part)
}

/// Writes an image, and compares the part of it with the flash that lies in the pages which the
/// write kept.
fn write_then_verify<R: Rig>(
    alloc: Global,
    rig: &mut R,
    journal: &mut Journal,
    chip: &Chip,
    image: &Image,
) -> Result<VerifiedWrite, Fault>
    requires fits { image_fits chip.now image.now ≡ true }
    requires room { length journal.old.state.stack < 65535 }
    requires finished { is_unfinished journal.old.state ≡ false }
    ensures { let old = R.view rig.old in let new = R.view rig.new in
        (part : Pairs) × WritesThen (2 * most_of_command) (λ said last.
        IsWrittenAndSeen chip.now image.now part said journal.old.state last)
        (λ fault. AreBegun fault chip.now (written_then image.now part) journal.old.state)
        chip.now image.now part journal.old journal.new old new result }
{
    step_laws();
    laying_by_parts();
    chip.keeps_limits();
    image.rises();
    let Outcome::Written { segment, pages } = write_image(alloc, rig, journal, chip, image)? else {
        unreachable!()
    };
    let part = kept_part(alloc, journal, chip, image)?;
    let again = part.len();
    let _ = verify_image(rig, chip, &part)?;
    Ok(VerifiedWrite {
        segment,
        pages,
        again,
    })
}

/// Asks a settled device once more whether it is the chip's board, and does that.
fn write_confirmed<R: Rig>(
    alloc: Global,
    rig: &mut R,
    journal: &mut Journal,
    chip: &Chip,
    image: &Image,
) -> Result<VerifiedWrite, Fault>
    requires fits { image_fits chip.now image.now ≡ true }
    requires room { length journal.old.state.stack < 65535 }
    requires finished { is_unfinished journal.old.state ≡ false }
    ensures { let old = R.view rig.old in let new = R.view rig.new in
        (part : Pairs) × WritesThen (most_of_confirming + 2 * most_of_command) (λ said last.
        IsAfter (confirming chip.now)
        (IsWrittenAndSeen chip.now image.now part said journal.old.state last))
        (λ fault. IsConfirmedInPart chip.now
        (AreBegun fault chip.now (written_then image.now part) journal.old.state))
        chip.now image.now part journal.old journal.new old new result }
{
    step_laws();
    confirm(rig, chip)?;
    write_then_verify(alloc, rig, journal, chip, image)
}

/// Writes an image, as one segment, and then compares the part of it with the flash that lies in
/// the pages which this segment keeps. What else the image names was read before, and was right.
pub fn write_and_verify<R: Rig>(
    alloc: Global,
    rig: &mut R,
    table: &Table,
    image: Image,
) -> Result<VerifiedWrite, Fault>
    ensures { let old = R.view rig.old in let new = R.view rig.new in
        (part : Pairs) × VerifiesWrite table.now image part old new result }
{
    step_laws();
    let commands = [Command::Write(image)];
    let mut opened = open(alloc, rig, table)?;
    let chip = opened.chip;
    check_commands(&opened.journal, chip, &opened.commands, &commands)?;
    let Command::Write(image) = &commands[0] else {
        unreachable!()
    };
    write_confirmed(alloc, rig, &mut opened.journal, chip, image)
}
