//! Raw bytes as an image.
ghost use Rattle.std.specs.Prelude.{◌≡◌, ◌<◌, ◌+◌, ◌^◌, ◌↔◌, length, IfOk, Err};
ghost use Rattle.stm_image.specs.Pairs.{raw_pairs};

use crate::pieces::Pieces;
use crate::{Image, RawFault};
use std::alloc::Global;

/// The image of raw bytes: byte `i` at address `start + i`.
///
/// Answers `PastEnd` exactly where the bytes would go on past address 0xFFFFFFFF.
pub fn read_raw(alloc: Global, bytes: &[u8], start: u32) -> Result<Image, RawFault>
    ensures ok { IfOk result (λ image. image ≡ raw_pairs start bytes.now) }
    ensures past_end { (result ≡ Err RawFault.PastEnd) ↔ (2 ^ 32 < start + length bytes.now) }
{
    let room = (1u64 << 32) - u64::from(start);
    if bytes.len() as u64 > room {
        return Err(RawFault::PastEnd);
    }
    let mut runs = Pieces::new(alloc);
    match runs.add(start, bytes) {
        Ok(()) => Ok(Image::from_runs(runs)),
        Err(_) => Err(RawFault::Memory),
    }
}
