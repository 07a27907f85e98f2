// Bytes of an image that a device which lost power in the midst of them would take for an erase.
ghost use Rattle.std.specs.Prelude.{◌≡◌};
ghost use Rattle.stm_work.specs.FalseErase.{begins_erase, has_erase, has_false_erase};

use crate::content::Content;
use crate::hint::Hint;
use stm_image::Image;

/// What connects a device that is fresh from reset (AN3155, section 2).
const CONNECT: u8 = 0x7F;

/// How many bytes a write command has at most, and how its place is aligned.
const BLOCK: usize = 256;

/// Whether bytes begin with the code of an erase command and its complement
/// (AN3155, sections 3.7 and 3.8).
fn begins_erase(bytes: &[u8]) -> bool
    ensures { result ≡ begins_erase bytes.now }
{
    match bytes {
        [code, check, ..] => {
            (*code == 0x43 && *check == 0xBC) || (*code == 0x44 && *check == 0xBB)
        }
        _ => false,
    }
}

/// Whether an erase command begins at one of these bytes.
fn has_erase(bytes: &[u8]) -> bool
    ensures { result ≡ has_erase bytes.now }
{
    match bytes {
        [_, rest @ ..] => begins_erase(bytes) || has_erase(rest),
        _ => false,
    }
}

/// Whether an erase command begins behind a 7F in a block, so that a device which loses power
/// within it may take the rest of the block for one.
pub fn has_false_erase(block: &[u8]) -> bool
    ensures { result ≡ has_false_erase block.now }
{
    match block {
        [byte, rest @ ..] => {
            if *byte == CONNECT {
                has_erase(rest)
            } else {
                has_false_erase(rest)
            }
        }
        _ => false,
    }
}

/// The address of a placed image's first block that has such bytes. What the image doesn't name
/// within a block is left as 0xFF.
fn first_placed(image: &Image) -> Option<u32> {
    let mut block = [0xFF_u8; BLOCK];
    let mut block_at = 0_u32;
    let mut from = 0_u32;
    for _ in 0..image.len() {
        let Some((address, byte)) = image.next_from(from) else {
            break;
        };
        let begin = address - address % 256;
        if begin != block_at {
            if has_false_erase(&block) {
                return Some(block_at);
            }
            block = [0xFF; BLOCK];
            block_at = begin;
        }
        block[(address % 256) as usize] = byte;
        match address.checked_add(1) {
            Some(next) => from = next,
            None => break,
        }
    }
    if has_false_erase(&block) {
        return Some(block_at);
    }
    None
}

/// Where an image's first block lies that has such bytes. The flash is taken to begin at the beginning
/// of a block.
pub fn first_false_erase(content: &Content) -> Option<Hint> {
    match content {
        Content::Placed(image, _) => match first_placed(image) {
            Some(address) => Some(Hint::LikeErase(address)),
            None => None,
        },
        Content::AtBase(bytes, _) => {
            let mut at = 0_u32;
            for block in bytes.chunks(BLOCK) {
                if has_false_erase(block) {
                    return Some(Hint::LikeEraseBehind(at));
                }
                at = at.saturating_add(256);
            }
            None
        }
    }
}
