// What a line of JSON tells of a device: what it is, what it says itself, and which board it is.
ghost use Rattle.std.specs.Prelude.{◌≡◌, ◌++◌, IfOk, OnOk, string_bytes};
ghost use Rattle.std.specs.List.{flat_map};
ghost use Rattle.stm_work.specs.DeviceJson.{board_members, code_line, commands_members};
ghost use Rattle.stm_work.specs.DeviceJson.{erase_members, flash_members, info_members};
ghost use Rattle.stm_work.specs.DeviceJson.{size_members, told_members, unique_members};
ghost use Rattle.stm_work.specs.UpperHex.{upper_hex};

use crate::device_text::erase_code_text;
use crate::json_line::JsonLine;
use std::alloc::{AllocError, Global};
use stm_files::BoardName;
use stm_session::{Board, Info, Told};
use stm_wire::{Commands, UniqueId};

/// A byte in base 16, in two digits.
#[tactic(auto, using(crate::proofs::UpperHex::hex_2))]
fn two_digits(alloc: Global, n: u8) -> Result<String, AllocError>
    ensures { IfOk result (λ text. string_bytes text ≡ upper_hex 2 n) }
{
    format!(in alloc; "{n:02X}")
}

/// 16 bits in base 16, in four digits.
#[tactic(auto, using(crate::proofs::UpperHex::hex_4))]
fn four_digits(alloc: Global, n: u16) -> Result<String, AllocError>
    ensures { IfOk result (λ text. string_bytes text ≡ upper_hex 4 n) }
{
    format!(in alloc; "{n:04X}")
}

/// 32 bits in base 16, in eight digits.
#[tactic(auto, using(crate::proofs::UpperHex::hex_8))]
pub fn eight_digits(alloc: Global, n: u32) -> Result<String, AllocError>
    ensures { IfOk result (λ text. string_bytes text ≡ upper_hex 8 n) }
{
    format!(in alloc; "{n:08X}")
}

/// Adds what a device is, in the words of `info`.
#[tactic(auto, using(crate::proofs::TextParts::goes_on))]
pub fn add_info(alloc: Global, line: &mut JsonLine, info: &Info) -> Result<(), AllocError>
    ensures { OnOk result (line.new.text.items
        ≡ line.old.text.items ++ info_members info.now) }
{
    line.text("id", four_digits(alloc, info.id)?.as_str())?;
    add_flash(alloc, line, info)?;
    add_erase(alloc, line, info)?;
    add_commands(alloc, line, &info.commands)
}

/// Adds where the flash lies, and its size.
#[tactic(auto, using(crate::proofs::TextParts::goes_on))]
fn add_flash(alloc: Global, line: &mut JsonLine, info: &Info) -> Result<(), AllocError>
    ensures { OnOk result (line.new.text.items
        ≡ line.old.text.items ++ flash_members info.now) }
{
    line.text("base", eight_digits(alloc, info.base)?.as_str())?;
    line.number("pages", u64::from(info.pages))?;
    line.number("size", u64::from(info.size))
}

/// Adds the code of the command that erases, and what it leaves.
#[tactic(auto, using(crate::proofs::TextParts::goes_on))]
fn add_erase(alloc: Global, line: &mut JsonLine, info: &Info) -> Result<(), AllocError>
    ensures { OnOk result (line.new.text.items
        ≡ line.old.text.items ++ erase_members info.now) }
{
    line.text("erase", erase_code_text(info.kind))?;
    line.text("erased", two_digits(alloc, info.erased)?.as_str())
}

/// Adds what a device says itself.
#[tactic(auto, using(crate::proofs::TextParts::goes_on))]
pub fn add_told(alloc: Global, line: &mut JsonLine, told: &Told) -> Result<(), AllocError>
    ensures { OnOk result (line.new.text.items
        ≡ line.old.text.items ++ told_members told.now) }
{
    line.text("id", four_digits(alloc, told.id)?.as_str())?;
    add_commands(alloc, line, &told.commands)
}

/// Adds the bootloader's version and the codes of its commands.
#[tactic(auto, using(crate::proofs::TextParts::goes_on))]
fn add_commands(alloc: Global, line: &mut JsonLine, told: &Commands) -> Result<(), AllocError>
    ensures { OnOk result (line.new.text.items
        ≡ line.old.text.items ++ commands_members told.now) }
{
    line.text("version", two_digits(alloc, told.version)?.as_str())?;
    let codes = code_lines(alloc, &told.codes[..usize::from(told.count)])?;
    line.lines("codes", codes.as_slice())
}

/// Codes, a line each.
fn code_lines(alloc: Global, codes: &[u8]) -> Result<Vec<u8>, AllocError>
    ensures { IfOk result (λ text. text.items ≡ flat_map code_line codes.now) }
{
    let mut text = Vec::new(alloc);
    for code in codes {
        add_code(alloc, &mut text, *code)?;
    }
    Ok(text)
}

/// Adds a code in its line.
fn add_code(alloc: Global, text: &mut Vec<u8>, code: u8) -> Result<(), AllocError>
    ensures { OnOk result (text.new.items ≡ text.old.items ++ code_line code) }
{
    text.extend_from_slice(two_digits(alloc, code)?.as_bytes())?;
    text.push(b'\n')?;
    Ok(())
}

/// Adds which board it is and the size that it told, where it told them, and its chip.
#[tactic(auto, using(crate::proofs::TextParts::goes_on))]
pub fn add_board(
    alloc: Global,
    line: &mut JsonLine,
    board: &Option<Board>,
) -> Result<(), AllocError>
    ensures { OnOk result (line.new.text.items
        ≡ line.old.text.items ++ board_members board.now) }
{
    let Some(board) = board else {
        return Ok(());
    };
    add_unique(alloc, line, board.unique)?;
    add_size(line, board.size)?;
    line.text("chip", four_digits(alloc, board.id)?.as_str())
}

/// Adds the unique id of a board, where it told one.
fn add_unique(alloc: Global, line: &mut JsonLine, unique: UniqueId) -> Result<(), AllocError>
    ensures { OnOk result (line.new.text.items
        ≡ line.old.text.items ++ unique_members unique) }
{
    if unique.is_none() {
        return Ok(());
    }
    line.text(
        "board",
        format!(in alloc; "{}", BoardName(unique))?.as_str(),
    )
}

/// Adds the size of a flash in KiB, where the board told one.
fn add_size(line: &mut JsonLine, size: Option<u16>) -> Result<(), AllocError>
    ensures { OnOk result (line.new.text.items
        ≡ line.old.text.items ++ size_members size) }
{
    let Some(kib) = size else {
        return Ok(());
    };
    line.number("flash_kib", u64::from(kib))
}
