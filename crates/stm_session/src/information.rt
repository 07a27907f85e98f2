// What a bootloader tells of its device, and the table of its chip.

use stm_wire::{Commands, EraseKind};

/// What a bootloader tells of its device, and the table of its chip.
#[derive(Clone, Copy, Debug)]
pub struct Info {
    /// The product id of the chip.
    pub id: u16,
    /// The address of the flash's first byte.
    pub base: u32,
    /// How many pages the flash has.
    pub pages: u16,
    /// How many bytes the flash has.
    pub size: u32,
    /// The command that erases pages of it.
    pub kind: EraseKind,
    /// What an erased place of the flash holds: FF, or 00.
    pub erased: u8,
    /// The bootloader's version and the codes of its commands.
    pub commands: Commands,
}
