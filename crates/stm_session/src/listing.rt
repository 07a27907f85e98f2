// Whether a device lists the command by which its chip's pages are erased.
ghost use Rattle.std.specs.Prelude.{◌≡◌, take};
ghost use Rattle.stm_wire.specs.Exchange.{is_listed};
ghost use Rattle.stm_session.specs.Refusals.{erase_code};

use stm_wire::{Chip, Commands, EraseKind};

/// The code of the command that erases pages.
fn erase_code(kind: EraseKind) -> u8
    ensures { result ≡ erase_code kind }
{
    match kind {
        EraseKind::Page => 0x43,
        EraseKind::Extended => 0x44,
    }
}

/// Whether a code is one of these.
fn is_listed(codes: &[u8], code: u8) -> bool
    ensures { result ≡ is_listed codes.now code }
{
    codes.iter().any(|c| *c == code)
}

/// Whether what a device told has the command by which the chip's pages are erased.
pub fn lists_erase(chip: &Chip, told: &Commands) -> bool
    ensures { result ≡ is_listed (take told.now.count told.now.codes) (erase_code chip.now.kind) }
{
    let codes = &told.codes[..usize::from(told.count)];
    is_listed(codes, erase_code(chip.kind()))
}
