// Journals that calls write, longer than a loader reads at once, and with the longest page.
ghost use Rattle.std.specs.Prelude.{◌<◌, length, AllPairs};

use crate::journal::call_order::write_pages;
use crate::journal::{KeptRow, first_kept, rig_with};
use crate::verdicts::passes;
use std::alloc::{AllocError, Global};
use std::test::Fail;
use stm_journal::{Journal, JournalFault};
use stm_sim::MemoryRig;

/// The bytes of a page, each another one than its neighbours: from 0 to 250, and again.
fn page(alloc: Global, count: u32) -> Result<Vec<u8>, AllocError> {
    let mut bytes = Vec::new(alloc);
    let mut byte: u8 = 0;
    for _ in 0..count {
        bytes.push(byte)?;
        byte = if byte == 250 { 0 } else { byte.wrapping_add(1) };
    }
    Ok(bytes)
}

/// What a journal tells: how many segments there are, whether the newest is unfinished, and pages.
type Large = (u32, bool, &'static [KeptRow]);

/// Whether a Rig's journal is loaded so.
fn is_loaded_as(alloc: Global, rig: &mut MemoryRig, due: Large) -> bool {
    match Journal::load(alloc, rig) {
        Ok(journal) => {
            journal.depth() == due.0
                && journal.is_unfinished() == due.1
                && first_kept(&journal, due.2).is_none()
        }
        Err(_) => false,
    }
}

/// Writes these pages by a command; no fault where none can begin.
fn command(
    journal: &mut Journal,
    rig: &mut MemoryRig,
    pages: &[u16],
    held: &[u8],
) -> Result<(), JournalFault>
    requires rising { AllPairs (λ m n. m < n) pages.now }
    requires some { 0 < length held.now }
{
    if journal.depth() >= 65535 || journal.is_unfinished() {
        return Ok(());
    }
    write_pages(journal, rig, pages, held)
}

/// Writes these pages by a command behind a Rig's journal.
fn write(alloc: Global, rig: &mut MemoryRig, pages: &[u16], held: &[u8]) -> Result<(), JournalFault>
    requires rising { AllPairs (λ m n. m < n) pages.now }
    requires some { 0 < length held.now }
{
    let mut journal = Journal::load(alloc, rig)?;
    command(&mut journal, rig, pages, held)
}

const TWO_PAGES: Large = (1, false, &[(1, 0, Some((0, 3))), (1, 1, Some((1, 6)))]);

/// Whether two pages of these bytes are loaded as they were written.
fn are_loaded(alloc: Global, rig: &mut MemoryRig, held: &[u8]) -> bool
    requires some { 0 < length held.now }
{
    write(alloc, rig, &[0, 1], held) == Ok(())
        && rig.journal().len() == 4179
        && is_loaded_as(alloc, rig, TWO_PAGES)
}

/// Whether two pages of 1,024 bytes are loaded as they were written.
fn are_two_pages_loaded(alloc: Global) -> Result<bool, Fail> {
    let held = page(alloc, 1024)?;
    let mut rig = rig_with(alloc, b"")?;
    Ok(held.len() == 1024 && are_loaded(alloc, &mut rig, &held))
}

#[test]
fn two_pages_of_1024_bytes(rt: HostRuntime) -> Result<(), Fail> {
    passes(are_two_pages_loaded(rt.alloc())?)
}

const LONGEST_PAGE: Large = (1, false, &[(1, 0, Some((5, 3)))]);

/// The journal of a command that wrote these bytes as page 5.
fn text_of(alloc: Global, held: &[u8]) -> Result<Vec<u8>, AllocError> {
    let mut text = Vec::from_slice(alloc, b"stmjournal 1 0412\nopen 1\npage 5 ")?;
    text.extend_from_slice(hex::encode_upper(alloc, held)?.as_bytes())?;
    text.extend_from_slice(b"\nerase 5\nprogram 5\nend 1\n")?;
    Ok(text)
}

/// Whether a page of these bytes is written as this text, and loaded as it was written.
fn is_loaded(alloc: Global, rig: &mut MemoryRig, held: &[u8], text: &[u8]) -> bool
    requires some { 0 < length held.now }
{
    write(alloc, rig, &[5], held) == Ok(())
        && rig.journal() == text
        && is_loaded_as(alloc, rig, LONGEST_PAGE)
}

/// Whether the longest page is written, and loaded as it was written.
fn is_longest_page_loaded(alloc: Global) -> Result<bool, Fail> {
    let held = page(alloc, 131_072)?;
    let text = text_of(alloc, &held)?;
    let mut rig = rig_with(alloc, b"stmjournal 1 0412\n")?;
    Ok(held.len() == 131_072 && is_loaded(alloc, &mut rig, &held, &text))
}

#[test]
fn a_page_of_131072_bytes(rt: HostRuntime) -> Result<(), Fail> {
    passes(is_longest_page_loaded(rt.alloc())?)
}
