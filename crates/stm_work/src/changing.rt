// Writing, verifying and erasing, and what is told of it.
ghost use Rattle.std.specs.Prelude.{◌≡◌, ◌∷◌, ℕ, [], length, IfOk, None, Some};
ghost use Rattle.std.specs.List.{range_with_len};
ghost use Rattle.stm_session.specs.Meaning.{erases, verifies, writes};
ghost use Rattle.stm_work.specs.Answer.{image_sum};
ghost use Rattle.stm_work.specs.Conduct.{ErasesAll, RunsTold, WritesVerified};

use crate::answer::Answer;
use std::alloc::{AllocError, Global};
use stm_chip::Table;
use stm_files::sum_of_page;
use stm_image::Image;
use stm_session::{
    Command, Fault, Outcome, a_verified_write_saw_each_byte, info, run,
    write_and_verify as session_write_and_verify,
};
use stm_wire::Rig;

/// The CRC of an image's bytes, by rising address: of whole words the one that the chip's own unit
/// computes.
fn image_sum(image: &Image) -> u32
    ensures { result ≡ image_sum image.now }
{
    sum_of_page(image.bytes())
}

/// Writes an image.
pub fn write<L: Rig>(
    alloc: Global,
    rig: &mut L,
    table: &Table,
    image: Image,
) -> Result<Answer, Fault>
    ensures runs { let old = L.view rig.old in let new = L.view rig.new in
        RunsTold table.now (writes image ∷ []) old new result }
    ensures told { IfOk result (λ answer. (segment : ℕ) × (pages : ℕ)
        × (answer ≡ Answer.Written segment pages (length image) (image_sum image) None)) }
{
    let (bytes, crc) = (image.len(), image_sum(&image));
    let commands = [Command::Write(image)];
    let report = run(alloc, rig, table, &commands)?;
    let mut outcomes = report.outcomes;
    let Some(Outcome::Written { segment, pages }) = outcomes.pop() else {
        unreachable!()
    };
    Ok(Answer::Written {
        segment,
        pages,
        bytes,
        crc,
        again: None,
    })
}

/// Writes an image, and compares the part of it with the flash that it may have changed, in the same
/// session.
pub fn write_and_verify<L: Rig>(
    alloc: Global,
    rig: &mut L,
    table: &Table,
    image: Image,
) -> Result<Answer, Fault>
    ensures runs { let old = L.view rig.old in let new = L.view rig.new in
        WritesVerified table.now image old new result }
    ensures told { IfOk result (λ answer. (segment : ℕ) × (pages : ℕ) × (again : ℕ)
        × (answer ≡ Answer.Written segment pages (length image) (image_sum image) (Some again))) }
{
    a_verified_write_saw_each_byte::<L>();
    let (bytes, crc) = (image.len(), image_sum(&image));
    let written = session_write_and_verify(alloc, rig, table, image)?;
    Ok(Answer::Written {
        segment: written.segment,
        pages: written.pages,
        bytes,
        crc,
        again: Some(written.again),
    })
}

/// Compares the flash with an image.
pub fn verify<L: Rig>(
    alloc: Global,
    rig: &mut L,
    table: &Table,
    image: Image,
) -> Result<Answer, Fault>
    ensures runs { let old = L.view rig.old in let new = L.view rig.new in
        RunsTold table.now (verifies image ∷ []) old new result }
    ensures told { IfOk result (λ answer. answer ≡ Answer.Verified (length image) (image_sum image)) }
{
    let (bytes, crc) = (image.len(), image_sum(&image));
    let commands = [Command::Verify(image)];
    let _ = run(alloc, rig, table, &commands)?;
    Ok(Answer::Verified { bytes, crc })
}

/// Erases pages.
pub fn erase<L: Rig>(
    alloc: Global,
    rig: &mut L,
    table: &Table,
    pages: Vec<u16>,
) -> Result<Answer, Fault>
    ensures runs { let old = L.view rig.old in let new = L.view rig.new in
        RunsTold table.now (erases pages.items ∷ []) old new result }
    ensures told { IfOk result (λ answer. (segment : ℕ) × (count : ℕ)
        × (answer ≡ Answer.Erased segment count)) }
{
    let commands = [Command::Erase(pages)];
    let report = run(alloc, rig, table, &commands)?;
    let mut outcomes = report.outcomes;
    let Some(Outcome::Erased { segment, pages }) = outcomes.pop() else {
        unreachable!()
    };
    Ok(Answer::Erased { segment, pages })
}

/// Erases every page; the device is asked how many it has.
pub fn erase_all<L: Rig>(alloc: Global, rig: &mut L, table: &Table) -> Result<Answer, Fault>
    ensures { ErasesAll L.view table.now rig.old rig.new result }
{
    let told = info(alloc, rig, table)?;
    erase(alloc, rig, table, first_pages(alloc, told.pages)?)
}

/// So many pages, from the first on.
#[tactic(auto, using(crate::proofs::Telling::first_more))]
fn first_pages(alloc: Global, count: u16) -> Result<Vec<u16>, AllocError>
    ensures { IfOk result (λ pages. pages.items ≡ range_with_len 0 count) }
{
    let mut pages = Vec::new(alloc);
    for page in 0..count {
        pages.push(page)?;
    }
    Ok(pages)
}
