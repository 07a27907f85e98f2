// Chips of words, `ID BASE page|extended ERASED COUNTxSIZE..`, and tables of words, the bytes of a text.
//
// `limits CHIP` tells the chip, or that these are none; `page N CHIP` where a page of its copy begins,
// and its size; `cut KIB UNIQUE-AT SIZE-AT UNIQUE CHIP` how many pages it has on a board of that size, and
// where they end; `find ID TABLE` a chip of a table and where it tells its board; `put-in CHIP | TABLE` the
// table's chips with that one in its place; `beginnings TABLE` how many of a text's beginnings are read,
// have no chip, and have another fault than a beginning has; `tried ID TABLE` on how many boards a chip
// was tried, or nothing; `touches CHIP | IMAGE` the pages that an image touches; `plans ERASED BYTES.. | BYTES..` the
// frames that make one page of another. A fault is told by its text.
use crate::bytes::{byte_of, bytes_of, count_of, hexadecimal, id_of, page, parts};
use crate::images::image_of;
use crate::stopping::Stop;
use std::alloc::Global;
use stm_chip::{
    Frame, PagePlan, PlanFault, Table, TableFault, is_inside_flash, page_plan, read_table, touched,
    tried_boards,
};
use stm_image::Image;
use stm_wire::{BoardPlaces, Chip, EraseKind, UniqueId, UniquePlace};

fn add_sizes(sizes: &mut Vec<u32>, words: &[&str]) -> Result<(), Stop> {
    for word in words {
        let (count, size) = word.split_once('x').ok_or(Stop::Words)?;
        let size = count_of(size)?;
        for _i in 0..page(count)? {
            sizes.push(size)?;
        }
    }
    Ok(())
}

fn sizes_of(alloc: Global, words: &[&str]) -> Result<Vec<u32>, Stop> {
    let mut sizes = Vec::new(alloc);
    add_sizes(&mut sizes, words)?;
    Ok(sizes)
}

pub fn kind_of(word: &str) -> Result<EraseKind, Stop> {
    match word {
        "page" => Ok(EraseKind::Page),
        "extended" => Ok(EraseKind::Extended),
        _ => Err(Stop::Words),
    }
}

/// The chip of these words; None: they break a limit.
fn chip_of(alloc: Global, words: &[&str]) -> Result<Option<Chip>, Stop> {
    let [id, base, kind, erased, sizes @ ..] = words else {
        return Err(Stop::Words);
    };
    let (id, base) = (id_of(id)?, hexadecimal(base)?);
    let (kind, erased) = (kind_of(kind)?, byte_of(&[*erased])?);
    Ok(Chip::new(id, base, sizes_of(alloc, sizes)?, kind, erased))
}

fn chip(alloc: Global, words: &[&str]) -> Result<Chip, Stop> {
    chip_of(alloc, words)?.ok_or(Stop::Words)
}

fn tell(chip: &Chip, told: &mut String) -> Result<(), Stop> {
    let kind = match chip.kind() {
        EraseKind::Page => "page",
        EraseKind::Extended => "extended",
    };
    let (id, base, end, pages) = (chip.id(), chip.base(), chip.end(), chip.pages());
    let (size, erased) = (chip.flash_size(), chip.erased());
    Ok(write!(
        told,
        "{id:04X} {base:08X} {end:X} {pages} {size} {kind} {erased:02X}"
    )?)
}

fn limits(alloc: Global, words: &[&str], told: &mut String) -> Result<(), Stop> {
    match chip_of(alloc, words)? {
        Some(chip) => tell(&chip, told),
        None => Ok(told.push_str("no chip")?),
    }
}

fn tell_page(chip: &Chip, n: u16, told: &mut String) -> Result<(), Stop> {
    chip.keeps_limits();
    if n >= chip.pages() {
        return Err(Stop::Words);
    }
    let (start, size) = (chip.page_start(n), chip.page_size(n));
    Ok(write!(told, "{start:08X} {size}")?)
}

/// Where a board tells its unique id of eight bytes, and its size.
fn places_at(unique_at: &str, size_at: &str) -> Result<BoardPlaces, Stop> {
    Ok(BoardPlaces {
        unique: Some(UniquePlace {
            address: hexadecimal(unique_at)?,
            length: 8,
        }),
        size: Some(hexadecimal(size_at)?),
    })
}

/// Tells a chip that is cut for a board of this size.
fn tell_cut(chip: Chip, kib: u32, unique: UniqueId, told: &mut String) -> Result<(), Stop> {
    let places = chip.places();
    let cut = chip.of_board(unique).cut(kib);
    let (pages, end) = (cut.pages(), cut.end());
    let same = if cut.places() == places && cut.unique().is(&unique) {
        "the same board"
    } else {
        "another board"
    };
    Ok(write!(told, "{pages} {end:X} {same}")?)
}

fn cut(alloc: Global, words: &[&str], told: &mut String) -> Result<(), Stop> {
    let [kib, unique_at, size_at, unique, words @ ..] = words else {
        return Err(Stop::Words);
    };
    let (kib, places) = (count_of(kib)?, places_at(unique_at, size_at)?);
    let unique = UniqueId::of(&bytes_of(alloc, &[*unique])?).ok_or(Stop::Words)?;
    let chip = chip(alloc, words)?.at_places(places).ok_or(Stop::Words)?;
    tell_cut(chip, kib, unique, told)
}

/// Where a chip tells its board.
fn tell_places(places: BoardPlaces, told: &mut String) -> Result<(), Stop> {
    match places.unique {
        Some(UniquePlace { address, length }) => write!(told, ", {address:08X} {length}")?,
        None => told.push_str(", -")?,
    }
    match places.size {
        Some(size) => Ok(write!(told, ", {size:08X}")?),
        None => Ok(told.push_str(", -")?),
    }
}

fn table_of(alloc: Global, words: &[&str]) -> Result<Table, Stop> {
    Ok(read_table(alloc, &bytes_of(alloc, words)?)?)
}

fn tell_found(table: &Table, id: u16, told: &mut String) -> Result<(), Stop> {
    match table.find(id) {
        Some(chip) => {
            tell(chip, told)?;
            tell_places(chip.places(), told)
        }
        None => Ok(told.push_str("no such chip")?),
    }
}

fn tell_chips(chips: &[Chip], told: &mut String) -> Result<(), Stop> {
    for chip in chips {
        if !told.is_empty() {
            told.push(' ')?;
        }
        let (id, pages) = (chip.id(), chip.pages());
        write!(told, "{id:04X}:{pages}")?;
    }
    Ok(())
}

fn put_in(alloc: Global, words: &[&str], told: &mut String) -> Result<(), Stop> {
    let (own, text) = parts(words);
    let table = table_of(alloc, text)?;
    tell_chips(table.with_chip(chip(alloc, own)?).chips(), told)
}

fn beginnings(alloc: Global, bytes: &[u8], told: &mut String) -> Result<(), Stop> {
    let (mut read, mut empty, mut others) = (0_u32, 0_u32, 0_u32);
    for end in 0..=bytes.len() {
        match read_table(alloc, &bytes[..end]) {
            Ok(_) => read = read.saturating_add(1),
            Err(TableFault::Missing(0)) => empty = empty.saturating_add(1),
            Err(TableFault::Missing(_) | TableFault::Syntax) => {}
            Err(_) => others = others.saturating_add(1),
        }
    }
    Ok(write!(told, "{read} {empty} {others}")?)
}

fn tried(alloc: Global, bytes: &[u8], id: u16, told: &mut String) -> Result<(), Stop> {
    match tried_boards(alloc, bytes, id)? {
        Some(Some(count)) => Ok(write!(told, "{count}")?),
        Some(None) => Ok(told.push_str("nothing")?),
        None => Ok(told.push_str("no such chip")?),
    }
}

/// Numbers of pages, of which those that follow each other are told as FIRST-LAST.
fn tell_numbers(pages: &[u16], told: &mut String) -> Result<(), Stop> {
    told.push_str("pages")?;
    let mut last = None;
    for (place, n) in pages.iter().enumerate() {
        let goes_on = place > 0 && last == n.checked_sub(1);
        let next = pages.get(place.saturating_add(1)).copied();
        let is_last = next.is_none() || next != n.checked_add(1);
        if !goes_on {
            write!(told, " {n}")?;
        } else if is_last {
            write!(told, "-{n}")?;
        }
        last = Some(*n);
    }
    Ok(())
}

fn tell_touched(alloc: Global, chip: &Chip, image: &Image, told: &mut String) -> Result<(), Stop> {
    let is_inside = is_inside_flash(chip, image);
    match touched(alloc, chip, image) {
        Ok(pages) if is_inside => tell_numbers(&pages, told),
        Err(PlanFault::OutOfFlash) if !is_inside => Ok(told.push_str("outside")?),
        _ => Ok(told.push_str("not as it lies")?),
    }
}

/// Frames as OFFSET+LENGTH; so many whole blocks that follow each other as OFFSET+256*COUNT.
fn tell_frames(frames: &[Frame], told: &mut String) -> Result<(), Stop> {
    told.push_str("erase")?;
    let mut blocks = 0_u32;
    for (place, frame) in frames.iter().enumerate() {
        let (offset, length) = (frame.offset, frame.length);
        if blocks == 0 {
            write!(told, " {offset}+{length}")?;
        }
        let is_followed = match frames.get(place.saturating_add(1)) {
            Some(next) => {
                length == 256 && next.length == 256 && next.offset == offset.saturating_add(256)
            }
            None => false,
        };
        blocks = blocks.saturating_add(1);
        if !is_followed {
            if blocks > 1 {
                write!(told, "*{blocks}")?;
            }
            blocks = 0;
        }
    }
    Ok(())
}

fn tell_plan(
    alloc: Global,
    old: &[u8],
    new: &[u8],
    erased: u8,
    told: &mut String,
) -> Result<(), Stop> {
    if old.len() != new.len() || new.len() % 256 != 0 || new.len() > 131_072 {
        return Err(Stop::Words);
    }
    match page_plan(alloc, old, new, erased) {
        Ok(PagePlan::Same) => Ok(told.push_str("same")?),
        Ok(PagePlan::Erase(frames)) => tell_frames(&frames, told),
        Err(_) => Err(Stop::Memory),
    }
}

/// Tells what is asked of two lists of bytes, or of a chip or a table and what is to be done with it.
fn tell_two(
    alloc: Global,
    verb: &str,
    first: &str,
    words: &[&str],
    told: &mut String,
) -> Result<(), Stop> {
    match verb {
        "page" => tell_page(&chip(alloc, words)?.clone()?, page(first)?, told),
        "find" => tell_found(&table_of(alloc, words)?, id_of(first)?, told),
        "tried" => tried(alloc, &bytes_of(alloc, words)?, id_of(first)?, told),
        _ => {
            let (old, new) = parts(words);
            let (old, new) = (bytes_of(alloc, old)?, bytes_of(alloc, new)?);
            tell_plan(alloc, &old, &new, byte_of(&[first])?, told)
        }
    }
}

/// Tells what is asked of a chip or a table; false: it's another word.
pub fn tell_chip(
    alloc: Global,
    verb: &str,
    words: &[&str],
    told: &mut String,
) -> Result<bool, Stop> {
    match verb {
        "limits" => limits(alloc, words, told)?,
        "cut" => cut(alloc, words, told)?,
        "put-in" => put_in(alloc, words, told)?,
        "beginnings" => beginnings(alloc, &bytes_of(alloc, words)?, told)?,
        "touches" => {
            let (own, image) = parts(words);
            tell_touched(alloc, &chip(alloc, own)?, &image_of(alloc, image)?, told)?;
        }
        "page" | "find" | "tried" | "plans" => {
            let [first, words @ ..] = words else {
                return Err(Stop::Words);
            };
            tell_two(alloc, verb, first, words, told)?;
        }
        _ => return Ok(false),
    }
    Ok(true)
}
