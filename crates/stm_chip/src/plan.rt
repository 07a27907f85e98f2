// How a page of flash comes to hold new bytes.
ghost use Rattle.std.specs.Prelude.{◌≡◌, ◌↔◌, ◌^◌, ◌+◌, ◌*◌, ◌/◌, ◌%◌, ◌<◌, ◌≤◌, ◌++◌, length};
ghost use Rattle.std.specs.Prelude.{replicate, IfOk, IsOkUnless, Ok, option_to_list};
ghost use Rattle.stm_chip.specs.Plan.{AreFrames, IsPlan, frame_of, frames_in, frames_of, planned};
ghost use Rattle.stm_chip.specs.Plan.{used_length, written};

use crate::PlanFault;
use std::alloc::{AllocError, Global};

/// How many bytes a frame carries at most, and a block has.
const BLOCK: usize = 256;

/// Bytes that are written by one command: `length` of them, from `offset` of their page on.
#[derive(Clone, Copy, Debug, PartialEq, Eq)]
pub struct Frame {
    /// Where it begins, in bytes from the page's start; a multiple of 256.
    pub offset: u32,
    /// How many bytes it carries: 4 to 256, a multiple of 4.
    pub length: u16,
}

/// How a page comes to hold new bytes.
#[derive(Debug, Drop)]
pub enum PagePlan {
    /// It holds them already.
    Same,
    /// It is erased, and then these frames of the new bytes are written, by rising offset.
    Erase(Vec<Frame>),
}

/// How many bytes of a block there are up to its last that isn't the erased one.
fn used_length(block: &[u8], erased: u8) -> usize
    ensures used { result ≡ used_length erased block.now }
    ensures within { result ≤ length block.now }
{
    let mut used = 0;
    for (place, byte) in block.iter().enumerate() {
        if *byte != erased {
            used = place + 1;
        }
    }
    used
}

/// The frame of a block at this offset; None where each byte is the erased one.
fn frame_of(offset: u32, block: &[u8], erased: u8) -> Option<Frame>
    requires { length block.now ≡ 256 }
    ensures { option_to_list result ≡ frame_of erased offset block.now }
{
    let used = used_length(block, erased);
    if used == 0 {
        return None;
    }
    Some(Frame {
        offset,
        length: used.div_ceil(4) as u16 * 4,
    })
}

/// The frames that give an erased page these bytes, where an erased place holds `erased`: of each
/// block of 256 bytes, from the page's start, one, cut after its last byte that isn't `erased` and
/// rounded up to a multiple of 4 bytes; of a block of erased bytes alone none.
pub fn page_frames(alloc: Global, page: &[u8], erased: u8) -> Result<Vec<Frame>, AllocError>
    requires blocks { length page.now % 256 ≡ 0 }
    requires size { length page.now ≤ 2 ^ 32 }
    ensures frames { IfOk result (λ frames. frames.items
        ≡ frames_of erased page.now (length page.now / 256)) }
    // The frames, written over an erased page, give the page.
    ensures gives { IfOk result (λ frames.
        written page.now frames.items (replicate (length page.now) erased) ≡ page.now) }
    // They may be sent one after another: each fits one command, and lies
    // where no earlier one wrote.
    ensures fits { IfOk result (λ frames. AreFrames 0 (length page.now) frames.items) }
{
    let mut frames = Vec::new(alloc);
    for n in 0..page.len() / BLOCK {
        let offset = BLOCK * n;
        if let Some(frame) = frame_of(offset as u32, &page[offset..offset + BLOCK], erased) {
            frames.push(frame)?;
        }
    }
    Ok(frames)
}

/// The plan that makes a page of bytes `old` one of bytes `new`, where an
/// erased place holds `erased`.
///
/// The page is erased, and its frames are those of `page_frames`.
pub fn page_plan(alloc: Global, old: &[u8], new: &[u8], erased: u8) -> Result<PagePlan, PlanFault>
    requires lengths { length old.now ≡ length new.now }
    requires blocks { length new.now % 256 ≡ 0 }
    requires size { length new.now ≤ 2 ^ 32 }
    ensures same { (result ≡ Ok PagePlan.Same) ↔ (old.now ≡ new.now) }
    ensures plan { IfOk result (IsPlan erased old.now new.now) }
    // The frames, written over an erased page, give the new page.
    ensures gives_new { IfOk result (λ plan. planned erased old.now new.now plan ≡ new.now) }
    // They may be sent one after another: each fits one command, and lies
    // where no earlier one wrote.
    ensures fits { IfOk result (λ plan. AreFrames 0 (length new.now) (frames_in plan)) }
    ensures memory { IsOkUnless result PlanFault.Memory }
{
    if old == new {
        return Ok(PagePlan::Same);
    }
    let frames = page_frames(alloc, new, erased)?;
    Ok(PagePlan::Erase(frames))
}
