// What a done list does to the simulator's flash.
ghost use Rattle.std.specs.Prelude.{◌≡◌, ◌+◌, ◌<◌, ◌≤◌, length, take, drop, replicate, IsTrue};
ghost use Rattle.stm_wire.specs.Chip.{erased_page, flash_size, page_count, with_bytes, with_page};
ghost use Rattle.stm_wire.specs.Exchange.{two_byte_numbers};
ghost use Rattle.stm_wire.specs.Effect.{change_of, write_change, erase_change};
ghost use Rattle.stm_wire.specs.Effect.{extended_change, erased_pages};
ghost use Rattle.stm_sim.specs.Simulator.{stored_byte, stored_bytes, changed_flash, Fits};

use stm_wire::{Chip, part};

/// What a place holds that held `old` once `sent` is written over it: a write can only turn bits
/// from what an erase has made of them.
fn stored_byte(erased: u8, old: u8, sent: u8) -> u8
    ensures { result ≡ stored_byte erased old sent }
{
    if erased == 0 { old | sent } else { old & sent }
}

/// Stores bytes over others, place by place.
fn store_over(erased: u8, part: &mut [u8], sent: &[u8])
    requires { length part.old ≡ length sent.now }
    ensures { part.new ≡ stored_bytes erased part.old sent.now }
{
    for (i, byte) in sent.iter().enumerate() {
        part[i] = stored_byte(erased, part[i], *byte);
    }
}

/// Writes bytes over those from a place on.
fn write_over(erased: u8, flash: &mut [u8], at: usize, sent: &[u8])
    requires { at + length sent.now ≤ length flash.old }
    ensures { let olds = take (length sent.now) (drop at flash.old) in
        flash.new ≡ with_bytes at (stored_bytes erased olds sent.now) flash.old }
{
    store_over(erased, &mut flash[at..at + sent.len()], sent);
}

/// Erases a page.
fn erase_page(chip: &Chip, flash: &mut [u8], page: u16)
    requires exists { page < page_count chip.now }
    requires size { length flash.old ≡ flash_size chip.now }
    ensures erased { flash.new ≡ with_page chip.now page (erased_page chip.now page) flash.old }
    ensures length { length flash.new ≡ length flash.old }
{
    let at = (chip.page_start(page) - chip.base()) as usize;
    let size = chip.page_size(page) as usize;
    flash[at..at + size].fill(chip.erased());
}

/// Erases a page, where it is there.
fn erase_existing(chip: &Chip, flash: &mut [u8], page: u16)
    requires { length flash.old ≡ flash_size chip.now }
    ensures erased { flash.new ≡ with_page chip.now page (erased_page chip.now page) flash.old }
    ensures length { length flash.new ≡ length flash.old }
{
    if page < chip.pages() {
        erase_page(chip, flash, page);
    }
}

/// Erases pages, each named by a byte.
fn erase_bytes(chip: &Chip, flash: &mut [u8], pages: &[u8])
    requires { length flash.old ≡ flash_size chip.now }
    ensures { flash.new ≡ erased_pages chip.now pages.now flash.old }
{
    for page in pages {
        erase_existing(chip, flash, u16::from(*page));
    }
}

/// Erases pages, each named by two bytes.
fn erase_pairs(chip: &Chip, flash: &mut [u8], pages: &[u8])
    requires { length flash.old ≡ flash_size chip.now }
    ensures { flash.new ≡ erased_pages chip.now (two_byte_numbers pages.now) flash.old }
{
    let mut rest = pages;
    while let [high, low, after @ ..] = rest {
        erase_existing(chip, flash, u16::from(*high) * 256 + u16::from(*low));
        rest = after;
    }
}

/// Does a Write Memory, from its address on.
fn write_memory(chip: &Chip, flash: &mut [u8], bytes: &[u8])
    requires size { length flash.old ≡ flash_size chip.now }
    requires fits { Fits chip.now (write_change bytes.now) }
    ensures { flash.new ≡ changed_flash chip.now (write_change bytes.now) flash.old }
{
    if let [a, b, c, d, _, n, data @ ..] = bytes {
        let address = u32::from_be_bytes([*a, *b, *c, *d]);
        let sent = part(data, 0, usize::from(*n) + 1);
        write_over(chip.erased(), flash, (address - chip.base()) as usize, sent);
    }
}

/// Does an Erase Memory, from its count on.
fn erase_memory(chip: &Chip, flash: &mut [u8], bytes: &[u8])
    requires { length flash.old ≡ flash_size chip.now }
    ensures { flash.new ≡ changed_flash chip.now (erase_change bytes.now) flash.old }
{
    match bytes {
        [0xFF, ..] => flash.fill(chip.erased()),
        [n, pages @ ..] => erase_bytes(chip, flash, part(pages, 0, usize::from(*n) + 1)),
        [] => {}
    }
}

/// Does an Extended Erase Memory, from its count on.
fn extended_erase_memory(chip: &Chip, flash: &mut [u8], bytes: &[u8])
    requires { length flash.old ≡ flash_size chip.now }
    ensures { flash.new ≡ changed_flash chip.now (extended_change bytes.now) flash.old }
{
    if let [high, low, pages @ ..] = bytes {
        let count = usize::from(*high) * 256 + usize::from(*low);
        if count == 0xFFFF {
            flash.fill(chip.erased());
        } else {
            erase_pairs(chip, flash, part(pages, 0, 2 * (count + 1)));
        }
    }
}

/// Does what a done list asks.
pub fn change_flash(chip: &Chip, flash: &mut [u8], bytes: &[u8])
    requires size { length flash.old ≡ flash_size chip.now }
    requires fits { Fits chip.now (change_of bytes.now) }
    ensures { flash.new ≡ changed_flash chip.now (change_of bytes.now) flash.old }
{
    match bytes {
        [0x31, _, rest @ ..] => write_memory(chip, flash, rest),
        [0x43, _, rest @ ..] => erase_memory(chip, flash, rest),
        [0x44, _, rest @ ..] => extended_erase_memory(chip, flash, rest),
        _ => {}
    }
}
