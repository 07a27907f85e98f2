// What a done list makes of what is known of the flash.
ghost use Rattle.std.specs.Prelude.{◌≡◌, ◌+◌, ◌<◌, ◌≤◌, length, take, drop, replicate, Some};
ghost use Rattle.stm_wire.specs.Chip.{erased_byte, flash_size, page_count, page_offset, page_size};
ghost use Rattle.stm_wire.specs.Exchange.{two_byte_numbers};
ghost use Rattle.stm_wire.specs.Effect.{change_of, write_change, erase_change, extended_change};
ghost use Rattle.stm_sim.specs.Simulator.{Fits};
ghost use Rattle.stm_watch.specs.Known.{stored, stored_all, with_items, erased_known};
ghost use Rattle.stm_watch.specs.Known.{changed_known};

use stm_wire::{Chip, part};

/// What is known of a place over which this byte was written.
fn stored(erased: u8, old: Option<u8>, sent: u8) -> Option<u8>
    ensures { result ≡ stored erased old sent }
{
    match old {
        Some(old) => { if old == erased { Some(sent) } else { None } }
        None => None,
    }
}

/// Stores bytes over others, place by place.
fn store_over(erased: u8, part: &mut [Option<u8>], sent: &[u8])
    requires { length part.old ≡ length sent.now }
    ensures { part.new ≡ stored_all erased part.old sent.now }
{
    for (i, byte) in sent.iter().enumerate() {
        part[i] = stored(erased, part[i], *byte);
    }
}

/// Writes bytes over those from a place on.
fn write_over(erased: u8, flash: &mut [Option<u8>], at: usize, sent: &[u8])
    requires { at + length sent.now ≤ length flash.old }
    ensures { let olds = take (length sent.now) (drop at flash.old) in
        flash.new ≡ with_items at (stored_all erased olds sent.now) flash.old }
{
    store_over(erased, &mut flash[at..at + sent.len()], sent);
}

/// Erases a page.
fn erase_page(chip: &Chip, flash: &mut [Option<u8>], page: u16)
    requires exists { page < page_count chip.now }
    requires size { length flash.old ≡ flash_size chip.now }
    ensures erased { flash.new ≡ with_items (page_offset chip.now page)
        (replicate (page_size chip.now page) (Some (erased_byte chip.now))) flash.old }
    ensures length { length flash.new ≡ length flash.old }
{
    let at = (chip.page_start(page) - chip.base()) as usize;
    let size = chip.page_size(page) as usize;
    flash[at..at + size].fill(Some(chip.erased()));
}

/// Erases a page, where it is there.
fn erase_existing(chip: &Chip, flash: &mut [Option<u8>], page: u16)
    requires { length flash.old ≡ flash_size chip.now }
    ensures erased { flash.new ≡ with_items (page_offset chip.now page)
        (replicate (page_size chip.now page) (Some (erased_byte chip.now))) flash.old }
    ensures length { length flash.new ≡ length flash.old }
{
    if page < chip.pages() {
        erase_page(chip, flash, page);
    }
}

/// Erases pages, each named by a byte.
fn erase_bytes(chip: &Chip, flash: &mut [Option<u8>], pages: &[u8])
    requires { length flash.old ≡ flash_size chip.now }
    ensures erased { flash.new ≡ erased_known chip.now pages.now flash.old }
    ensures length { length flash.new ≡ length flash.old }
{
    for page in pages {
        erase_existing(chip, flash, u16::from(*page));
    }
}

/// Erases pages, each named by two bytes.
fn erase_pairs(chip: &Chip, flash: &mut [Option<u8>], pages: &[u8])
    requires { length flash.old ≡ flash_size chip.now }
    ensures erased { flash.new ≡ erased_known chip.now (two_byte_numbers pages.now) flash.old }
    ensures length { length flash.new ≡ length flash.old }
{
    let mut rest = pages;
    while let [high, low, after @ ..] = rest {
        erase_existing(chip, flash, u16::from(*high) * 256 + u16::from(*low));
        rest = after;
    }
}

/// Does a Write Memory, from its address on.
fn write_memory(chip: &Chip, flash: &mut [Option<u8>], bytes: &[u8])
    requires size { length flash.old ≡ flash_size chip.now }
    requires fits { Fits chip.now (write_change bytes.now) }
    ensures changed { flash.new ≡ changed_known chip.now (write_change bytes.now) flash.old }
    ensures length { length flash.new ≡ length flash.old }
{
    if let [a, b, c, d, _, n, data @ ..] = bytes {
        let address = u32::from_be_bytes([*a, *b, *c, *d]);
        let sent = part(data, 0, usize::from(*n) + 1);
        write_over(chip.erased(), flash, (address - chip.base()) as usize, sent);
    }
}

/// Does an Erase Memory, from its count on.
fn erase_memory(chip: &Chip, flash: &mut [Option<u8>], bytes: &[u8])
    requires { length flash.old ≡ flash_size chip.now }
    ensures changed { flash.new ≡ changed_known chip.now (erase_change bytes.now) flash.old }
    ensures length { length flash.new ≡ length flash.old }
{
    match bytes {
        [0xFF, ..] => flash.fill(Some(chip.erased())),
        [n, pages @ ..] => erase_bytes(chip, flash, part(pages, 0, usize::from(*n) + 1)),
        [] => {}
    }
}

/// Does an Extended Erase Memory, from its count on.
fn extended_erase_memory(chip: &Chip, flash: &mut [Option<u8>], bytes: &[u8])
    requires { length flash.old ≡ flash_size chip.now }
    ensures changed { flash.new ≡ changed_known chip.now (extended_change bytes.now) flash.old }
    ensures length { length flash.new ≡ length flash.old }
{
    if let [high, low, pages @ ..] = bytes {
        let count = usize::from(*high) * 256 + usize::from(*low);
        if count == 0xFFFF {
            flash.fill(Some(chip.erased()));
        } else {
            erase_pairs(chip, flash, part(pages, 0, 2 * (count + 1)));
        }
    }
}

/// Does what a done list asks.
fn change_known(chip: &Chip, flash: &mut [Option<u8>], bytes: &[u8])
    requires size { length flash.old ≡ flash_size chip.now }
    requires fits { Fits chip.now (change_of bytes.now) }
    ensures changed { flash.new ≡ changed_known chip.now (change_of bytes.now) flash.old }
    ensures length { length flash.new ≡ length flash.old }
{
    match bytes {
        [0x31, _, rest @ ..] => write_memory(chip, flash, rest),
        [0x43, _, rest @ ..] => erase_memory(chip, flash, rest),
        [0x44, _, rest @ ..] => extended_erase_memory(chip, flash, rest),
        _ => {}
    }
}

/// The same of all that is known of the flash.
pub fn change_all(chip: &Chip, flash: &mut Vec<Option<u8>>, bytes: &[u8])
    requires size { length flash.old.items ≡ flash_size chip.now }
    requires fits { Fits chip.now (change_of bytes.now) }
    ensures changed { flash.new.items
        ≡ changed_known chip.now (change_of bytes.now) flash.old.items }
    ensures length { length flash.new.items ≡ flash_size chip.now }
{
    change_known(chip, flash, bytes);
}
