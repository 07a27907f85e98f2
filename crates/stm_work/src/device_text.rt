// What is printed of a device: what it is, what it says itself, and which board it is.
ghost use Rattle.std.specs.Prelude.{◌≡◌, ◌++◌, OnOk};
ghost use Rattle.std.specs.Io.KnownBytes.{Appends};
ghost use Rattle.stm_work.specs.DeviceText.{base_text, beside_text, blank_text, board_text};
ghost use Rattle.stm_work.specs.DeviceText.{bytes_text, code_text, codes_text, commands_text};
ghost use Rattle.stm_work.specs.DeviceText.{erase_code_text, erase_text, flash_text, id_text};
ghost use Rattle.stm_work.specs.DeviceText.{info_text, kind_text, pages_text, size_text};
ghost use Rattle.stm_work.specs.DeviceText.{table_text, told_text, unique_text, version_text};

use std::io;
use std::io::Write;
use stm_files::BoardName;
use stm_session::{Board, Info, Told};
use stm_wire::{Commands, EraseKind};

/// Prints what a device is, a line each.
#[tactic(auto, using(crate::proofs::TextParts::ends))]
pub fn print_info<O: Write>(info: &Info, out: &mut O) -> io::Result<()>
    ensures { OnOk result (Appends (O.contents out.old) (O.contents out.new)
        (info_text info.now)) }
{
    print_id(info.id, out)?;
    print_flash(info, out)?;
    print_erase(info, out)?;
    print_commands(&info.commands, out)
}

/// Prints what a device says itself, a line each.
#[tactic(auto, using(crate::proofs::TextParts::ends))]
pub fn print_told<O: Write>(told: &Told, out: &mut O) -> io::Result<()>
    ensures { OnOk result (Appends (O.contents out.old) (O.contents out.new)
        (told_text told.now)) }
{
    print_id(told.id, out)?;
    print_commands(&told.commands, out)
}

/// Prints the same, and the chip table's name.
#[tactic(auto, using(crate::proofs::TextParts::ends))]
pub fn print_beside<O: Write>(told: &Told, table: &str, out: &mut O) -> io::Result<()>
    ensures { OnOk result (Appends (O.contents out.old) (O.contents out.new)
        (told_text told.now ++ table_text table.now)) }
{
    print_told(told, out)?;
    print_table(table, out)
}

/// Prints the line of the chip table.
fn print_table<O: Write>(table: &str, out: &mut O) -> io::Result<()>
    ensures { OnOk result (Appends (O.contents out.old) (O.contents out.new)
        (table_text table.now)) }
{
    writeln!(out, "table {table}")
}

/// Prints the line of the product id.
#[tactic(auto, using(crate::proofs::UpperHex::hex_4))]
fn print_id<O: Write>(id: u16, out: &mut O) -> io::Result<()>
    ensures { OnOk result (Appends (O.contents out.old) (O.contents out.new)
        (id_text id)) }
{
    writeln!(out, "id {id:04X}")
}

/// Prints where the flash lies, and its size.
#[tactic(auto, using(crate::proofs::TextParts::ends))]
fn print_flash<O: Write>(info: &Info, out: &mut O) -> io::Result<()>
    ensures { OnOk result (Appends (O.contents out.old) (O.contents out.new)
        (flash_text info.now)) }
{
    print_base(info.base, out)?;
    print_pages(info.pages, out)?;
    print_bytes(info.size, out)
}

/// Prints the line of the address of the flash.
#[tactic(auto, using(crate::proofs::UpperHex::hex_8))]
fn print_base<O: Write>(base: u32, out: &mut O) -> io::Result<()>
    ensures { OnOk result (Appends (O.contents out.old) (O.contents out.new)
        (base_text base)) }
{
    writeln!(out, "base {base:08X}")
}

/// Prints the line of the number of pages.
fn print_pages<O: Write>(pages: u16, out: &mut O) -> io::Result<()>
    ensures { OnOk result (Appends (O.contents out.old) (O.contents out.new)
        (pages_text pages)) }
{
    writeln!(out, "pages {pages}")
}

/// Prints the line of the number of bytes.
fn print_bytes<O: Write>(bytes: u32, out: &mut O) -> io::Result<()>
    ensures { OnOk result (Appends (O.contents out.old) (O.contents out.new)
        (bytes_text bytes)) }
{
    writeln!(out, "size {bytes}")
}

/// Prints the code of the command that erases, and what it leaves.
#[tactic(auto, using(crate::proofs::TextParts::ends))]
fn print_erase<O: Write>(info: &Info, out: &mut O) -> io::Result<()>
    ensures { OnOk result (Appends (O.contents out.old) (O.contents out.new)
        (erase_text info.now)) }
{
    print_kind(info.kind, out)?;
    print_blank(info.erased, out)
}

/// Prints the line of the command that erases.
fn print_kind<O: Write>(kind: EraseKind, out: &mut O) -> io::Result<()>
    ensures { OnOk result (Appends (O.contents out.old) (O.contents out.new)
        (kind_text kind)) }
{
    writeln!(out, "erase {}", erase_code_text(kind))
}

/// The code of the command that erases.
pub fn erase_code_text(kind: EraseKind) -> &'static str
    ensures { result.now ≡ erase_code_text kind }
{
    match kind {
        EraseKind::Page => "43",
        EraseKind::Extended => "44",
    }
}

/// Prints the line of what an erased place holds.
#[tactic(auto, using(crate::proofs::UpperHex::hex_2))]
fn print_blank<O: Write>(blank: u8, out: &mut O) -> io::Result<()>
    ensures { OnOk result (Appends (O.contents out.old) (O.contents out.new)
        (blank_text blank)) }
{
    writeln!(out, "erased {blank:02X}")
}

/// Prints the bootloader's version and the codes of its commands.
#[tactic(auto, using(crate::proofs::TextParts::ends))]
fn print_commands<O: Write>(commands: &Commands, out: &mut O) -> io::Result<()>
    ensures { OnOk result (Appends (O.contents out.old) (O.contents out.new)
        (commands_text commands.now)) }
{
    print_version(commands.version, out)?;
    print_codes(&commands.codes[..usize::from(commands.count)], out)
}

/// Prints the line of the version.
#[tactic(auto, using(crate::proofs::UpperHex::hex_2))]
fn print_version<O: Write>(version: u8, out: &mut O) -> io::Result<()>
    ensures { OnOk result (Appends (O.contents out.old) (O.contents out.new)
        (version_text version)) }
{
    writeln!(out, "version {version:02X}")
}

/// Prints the line of the codes.
fn print_codes<O: Write>(codes: &[u8], out: &mut O) -> io::Result<()>
    ensures { OnOk result (Appends (O.contents out.old) (O.contents out.new)
        (codes_text codes.now)) }
{
    write!(out, "codes")?;
    for code in codes {
        print_code(*code, out)?;
    }
    writeln!(out)
}

/// Prints one of the codes.
#[tactic(auto, using(crate::proofs::UpperHex::hex_2))]
fn print_code<O: Write>(code: u8, out: &mut O) -> io::Result<()>
    ensures { OnOk result (Appends (O.contents out.old) (O.contents out.new)
        (code_text code)) }
{
    write!(out, " {code:02X}")
}

/// Prints which board a device is, and the size that it told beside that of its pages.
#[tactic(auto, using(crate::proofs::TextParts::ends))]
pub fn print_board<O: Write>(board: &Board, pages: Option<u32>, out: &mut O) -> io::Result<()>
    ensures { OnOk result (Appends (O.contents out.old) (O.contents out.new)
        (board_text board.now pages)) }
{
    print_unique(board, out)?;
    print_size(board, pages, out)
}

/// Prints the line of a unique id, where one was told.
fn print_unique<O: Write>(board: &Board, out: &mut O) -> io::Result<()>
    ensures { OnOk result (Appends (O.contents out.old) (O.contents out.new)
        (unique_text board.now.unique)) }
{
    if board.unique.is_none() {
        return Ok(());
    }
    writeln!(out, "board {}", BoardName(board.unique))
}

/// Prints the line of the size that a device told of its flash, beside that of its pages.
fn print_size<O: Write>(board: &Board, pages: Option<u32>, out: &mut O) -> io::Result<()>
    ensures { OnOk result (Appends (O.contents out.old) (O.contents out.new)
        (size_text board.now.size pages)) }
{
    let Some(kib) = board.size else {
        return Ok(());
    };
    let beside = beside_pages(u32::from(kib) * 1024, pages);
    writeln!(out, "flash {kib} KiB{beside}")
}

/// What is told of so many bytes of flash beside those of its pages.
fn beside_pages(told: u32, pages: Option<u32>) -> &'static str
    ensures { result.now ≡ beside_text told pages }
{
    match pages {
        Some(size) if told > size => ", more than the pages",
        Some(size) if told < size => ", less than the pages",
        _ => "",
    }
}
