// What the codes of a device of the model are like.
ghost use Rattle.std.specs.Prelude.{◌≡◌, ◌↔◌, IsTrue};
ghost use Rattle.stm_wire.specs.Device.{ListsKind};
ghost use Rattle.stm_wire.specs.Exchange.{is_listed};
ghost use Rattle.stm_watch.specs.Laws.{IsListing};

use stm_wire::{Chip, EraseKind};

/// Whether a code is one of these.
fn is_listed(codes: &[u8], code: u8) -> bool
    ensures { result ≡ is_listed codes.now code }
{
    codes.iter().any(|c| *c == code)
}

/// Whether these have the code by which a chip of this kind erases pages, and not the other one.
fn lists_kind(kind: EraseKind, codes: &[u8]) -> bool
    ensures { IsTrue result ↔ ListsKind kind codes.now }
{
    let is_page = is_listed(codes, 0x43);
    let is_extended = is_listed(codes, 0x44);
    match kind {
        EraseKind::Page => is_page && !is_extended,
        EraseKind::Extended => is_extended && !is_page,
    }
}

/// Whether a device of the model with this chip could tell this version, and these codes.
pub fn is_listing(chip: &Chip, version: u8, codes: &[u8]) -> bool
    ensures { IsTrue result ↔ IsListing chip.now version codes.now }
{
    codes.len() < 256
        && is_listed(codes, 0x00)
        && is_listed(codes, 0x02)
        && is_listed(codes, 0x11)
        && is_listed(codes, 0x31)
        && lists_kind(chip.kind(), codes)
        && !is_listed(codes, 0x7F)
}
