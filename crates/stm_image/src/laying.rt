//! An image laid over bytes, and where the two differ.
ghost use Rattle.std.specs.Prelude.{◌≡◌, ◌≤◌, ◌+◌, ◌^◌, MatchOption, length};
ghost use Rattle.stm_image.specs.Lay.{lay, AgreesWith, AreAlike, IsFirstDifference, IsFirstOther};
ghost use Rattle.stm_image.specs.Lay.{IsPutAt};

use crate::Image;

impl Image {
    /// Lays the image over bytes that stand from an address on: its byte where it names the place,
    /// the old byte elsewhere. The bytes end by the last address of 32 bits.
    pub fn lay(&self, address: u32, bytes: &mut [u8])
        requires { address + length bytes.old ≤ 2 ^ 32 }
        ensures { bytes.new ≡ lay self.now address bytes.old }
    {
        self.rises();
        let end = u64::from(address) + bytes.len() as u64;
        let mut at = u64::from(address);
        'runs: while at < end {
            match self.run_from(at as u32) {
                None => return,
                Some((start, held)) => {
                    let skip = (start - address) as usize;
                    if skip >= bytes.len() {
                        return;
                    }
                    put_at(held, bytes, skip);
                    at = u64::from(start) + held.len() as u64;
                }
            }
        }
    }

    /// The least place at which the image has another byte than these, which stand from an address
    /// on.
    pub fn first_difference(&self, address: u32, bytes: &[u8]) -> Option<u32>
        ensures { MatchOption result (AgreesWith self.now address bytes.now)
            (IsFirstDifference self.now address bytes.now) }
    {
        // So each place of the image has 32 bits.
        self.rises();
        let end = u64::from(address) + bytes.len() as u64;
        let mut at = u64::from(address);
        'runs: while at < end {
            if at > 0xFFFF_FFFF {
                return None;
            }
            match self.run_from(at as u32) {
                None => return None,
                Some((start, held)) => {
                    let skip = (start - address) as usize;
                    if skip >= bytes.len() {
                        return None;
                    }
                    let (_before, here) = bytes.split_at(skip);
                    match first_other(held, here) {
                        Some(place) => return Some(start + place as u32),
                        None => at = u64::from(start) + held.len() as u64,
                    }
                }
            }
        }
        None
    }
}

// The first place where two lists differ, as far as both go.
fn first_other(run: &[u8], bytes: &[u8]) -> Option<usize>
    ensures { MatchOption result (AreAlike run.now bytes.now) (IsFirstOther run.now bytes.now) }
{
    for (i, byte) in run.iter().enumerate() {
        if i == bytes.len() {
            return None;
        }
        if bytes[i] != *byte {
            return Some(i);
        }
    }
    None
}

/// Puts bytes over others from a place on, as far as both go.
pub fn put_at(from: &[u8], to: &mut [u8], skip: usize)
    requires { skip ≤ length to.old }
    ensures { IsPutAt from.now to.old skip to.new }
{
    let room = to.len() - skip;
    for (i, byte) in from.iter().enumerate() {
        if i >= room {
            return;
        }
        to[skip + i] = *byte;
    }
}
