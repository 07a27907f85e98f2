// The CRC of a kept page.
ghost use Rattle.std.specs.Prelude.{◌≡◌, ◌<◌, length};
ghost use Rattle.stm_files.specs.Crc.{crc_from};
ghost use Rattle.stm_files.specs.PageSum.{IsOfTheFlash, TellsAChange, page_sum, whole_words_of};

use crate::crc::{START, feed, word};

/// The CRC of a page's bytes, of which zeros make the last word whole.
pub fn page_sum(bytes: &[u8]) -> u32
    ensures { result ≡ page_sum bytes.now }
{
    let mut register = START;
    let mut left = bytes;
    while let [a, b, c, d, rest @ ..] = left {
        register = feed(register, word(*a, *b, *c, *d));
        left = rest;
    }
    feed_rest(register, left)
}

/// The register after fewer than four bytes, which zeros make a word; none are no word.
fn feed_rest(register: u32, left: &[u8]) -> u32
    requires { length left.now < 4 }
    ensures { result ≡ crc_from register (whole_words_of left.now) }
{
    match left {
        [a] => feed(register, word(*a, 0, 0, 0)),
        [a, b] => feed(register, word(*a, *b, 0, 0)),
        [a, b, c] => feed(register, word(*a, *b, *c, 0)),
        _ => register,
    }
}

/// Where one byte of a page is another one, its CRC is another one too.
pub fn a_changed_byte_is_told()
    ensures { TellsAChange }
{}

/// Of whole words it is the CRC that `crc` tells of a flash.
pub fn a_page_has_the_crc_of_its_flash()
    ensures { IsOfTheFlash }
{}
