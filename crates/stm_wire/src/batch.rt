// Settling bytes in batches: a host waits once for many bytes.
ghost use Rattle.std.specs.Prelude.{◌≡◌, ◌≤◌, ◌<◌, ◌+◌, ℕ, List, IfOk, IfErr, replicate};
ghost use Rattle.stm_wire.specs.Device.{Device};
ghost use Rattle.stm_wire.specs.Dialogue.{GoesOn};
ghost use Rattle.stm_wire.specs.Settling.{IsGoing, Speaks, SpeaksBatches, SendsBatch, SendsBatches};
ghost use Rattle.stm_wire.specs.SettlingCalls.{batch_size, IsBatch, IsBatched, Floods, Never};
ghost use Rattle.stm_wire.specs.SettlingCalls.{FailsAs};

use crate::draining::drain;
use crate::{Rig, WireFault};

/// How many bytes the first batch has, and each of the last two of a limit at most. A stopped read,
/// and an erase of a few pages, await fewer.
const BATCH: u32 = 256;

/// How many bytes are sent in the first batch and the second. More than this a device awaits only in
/// an erase of hundreds of pages: the byte of each write, 02, is a count of 515.
const BEGINNING: u32 = 1_280;

/// How many bytes a later batch has at most. Their replies, and what a completed command sends, are
/// fewer bytes than one draining takes.
const LARGE_BATCH: u32 = 7_168;

/// How many bytes are kept back. They end an exchange that the last byte of a batch has completed.
const KEPT_BACK: u32 = 2;

/// How many bytes a batch has, where so many were sent in others before it, and so many of the limit
/// are left.
fn batch_size(sent: u32, left: u32) -> u32
    requires { 2 < left }
    ensures is { result ≡ batch_size sent left }
    ensures some { 1 ≤ result }
    ensures kept { result + 2 ≤ left }
    ensures most { result ≤ 7168 }
{
    if sent < BATCH || left <= 2 * BATCH {
        (left - KEPT_BACK).min(BATCH)
    } else if sent < BEGINNING {
        (left - BATCH).min(BEGINNING - BATCH)
    } else {
        (left - BATCH).min(LARGE_BATCH)
    }
}

/// Sends the byte so many times with no get between, then takes what is owed, and answers whether
/// NACK was among it.
fn send_batch<R: Rig>(rig: &mut R, byte: u8, count: u32) -> Result<bool, WireFault>
    requires { count ≤ 7168 }
    ensures speaks { Speaks (replicate count byte) (count + 4097) result
        (R.view rig.old) (R.view rig.new) }
    ensures brief { (R.view rig.new).long_gets ≡ (R.view rig.old).long_gets }
    ensures batch { IfOk result
        (λ seen. GoesOn (IsBatch byte count seen) (R.view rig.old).calls (R.view rig.new).calls) }
    ensures fails { IfErr result
        (FailsAs Never Floods (R.view rig.old).calls (R.view rig.new).calls) }
    ensures honest { (R.view rig.old).is_honest
        → (pages : List ℕ) (start : Device) (left : ℕ) → 2 ≤ left
        → IsGoing byte pages start (left + count) (R.view rig.old).device
        → SendsBatch byte pages start left result (R.view rig.old) (R.view rig.new) }
{
    for _sent in 0..count {
        rig.put(byte)?;
    }
    drain(rig)
}

/// Sends batches of the byte until NACK is among the replies, or all bytes of the limit were sent
/// but those that are kept back; answers how many are left.
pub fn send_batches<R: Rig>(rig: &mut R, byte: u8, limit: u32) -> Result<u32, WireFault>
    ensures speaks { SpeaksBatches byte limit result (R.view rig.old) (R.view rig.new) }
    ensures brief { (R.view rig.new).long_gets ≡ (R.view rig.old).long_gets }
    ensures batches { IfOk result
        (λ left. GoesOn (IsBatched byte limit left)
        (R.view rig.old).calls (R.view rig.new).calls) }
    ensures fails { IfErr result
        (FailsAs Never Floods (R.view rig.old).calls (R.view rig.new).calls) }
    ensures honest { (R.view rig.old).is_honest → (pages : List ℕ) (start : Device)
        → IsGoing byte pages start limit (R.view rig.old).device
        → SendsBatches byte pages start result (R.view rig.old) (R.view rig.new) }
{
    let mut left = limit;
    while left > KEPT_BACK {
        let count = batch_size(limit - left, left);
        left -= count;
        if send_batch(rig, byte, count)? {
            return Ok(left);
        }
    }
    Ok(left)
}
