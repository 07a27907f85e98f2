// The chips that are measured.
use std::{fs, io};
use stm_chip::{Table, read_table};
use stm_wire::Chip;

/// The table of a file, or `None` once it is told that it is none.
pub fn table_of(rt: &HostRuntime, name: &str) -> io::Result<Option<Table>> {
    let text = fs::read(rt, name)?;
    if let Ok(table) = read_table(rt.alloc(), text.as_slice()) {
        return Ok(Some(table));
    }
    println!(rt; "{name}: no table")?;
    Ok(None)
}

/// A copy of the chip with this number, in decimal, in the table of this file, or `None` once it is
/// told that there is none.
pub fn chip_of(rt: &HostRuntime, name: &str, table: &Table, id: &str) -> io::Result<Option<Chip>> {
    if let Some(chip) = table.find(id.parse::<u16>().unwrap_or(0)) {
        return Ok(Some(chip.clone()?));
    }
    println!(rt; "{name}: no chip {id}")?;
    Ok(None)
}

/// A copy of the chip with this number in the table of a file, or `None` once it is told that there
/// is none.
pub fn chip_in(rt: &HostRuntime, name: &str, id: &str) -> io::Result<Option<Chip>> {
    match table_of(rt, name)? {
        Some(table) => chip_of(rt, name, &table, id),
        None => Ok(None),
    }
}
