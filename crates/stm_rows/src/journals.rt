// What a loaded journal tells, and segments that are begun.
//
// Of the device's journal: `says` its header's version, line, product id and unique id, how many segments
// there are, the intent, and whether the newest is unfinished; `kept K I` the page and the line of the I-th
// page line of segment K; `placed K N` and `placed-as K I` where such a page stands, by its number and by its
// place; `counts K` how many pages segment K keeps, and how many all of them;
// `begin ID [UNIQUE]` begins a segment for a device. A fault is told by its text.
use crate::bytes::{bytes_of, count_of, id_of, number, page};
use crate::line::Line;
use crate::stopping::Stop;
use std::alloc::Global;
use stm_journal::{Intent, Journal, PagePlace};
use stm_wire::UniqueId;

/// Bytes as hex digits.
pub fn tell_bytes(bytes: &[u8], told: &mut String) -> Result<(), Stop> {
    for byte in bytes {
        write!(told, "{byte:02X}")?;
    }
    Ok(())
}

fn tell_header(journal: &Journal, told: &mut String) -> Result<(), Stop> {
    let Some((version, line)) = journal.header() else {
        return Ok(told.push_str("no header")?);
    };
    let Some(id) = journal.id() else {
        return Ok(told.push_str("a header without an id")?);
    };
    write!(told, "{version} in line {line}: {id:04X}")?;
    match journal.unique() {
        Some(unique) => {
            told.push(' ')?;
            tell_bytes(unique.as_bytes(), told)
        }
        None => Ok(()),
    }
}

fn tell_intent(intent: Option<Intent>, told: &mut String) -> Result<(), Stop> {
    match intent {
        Some(Intent::Erase(n)) => Ok(write!(told, "erase {n}")?),
        Some(Intent::Program(n)) => Ok(write!(told, "program {n}")?),
        None => Ok(told.push_str("no intent")?),
    }
}

fn says(journal: &Journal, told: &mut String) -> Result<(), Stop> {
    tell_header(journal, told)?;
    let depth = journal.depth();
    write!(told, ", {depth}, ")?;
    tell_intent(journal.last_intent(), told)?;
    let newest = match (journal.is_open(), journal.is_unfinished()) {
        (true, true) => ", unfinished",
        (true, false) => ", finished",
        (false, false) => ", none",
        (false, true) => ", none, but unfinished",
    };
    Ok(told.push_str(newest)?)
}

fn tell_place(place: Option<PagePlace>, told: &mut String) -> Result<(), Stop> {
    match place {
        Some(PagePlace { at, length, line }) => {
            Ok(write!(told, "at {at}, {length} bytes, line {line}")?)
        }
        None => Ok(told.push_str("none")?),
    }
}

fn tell_kept(kept: Option<(u16, u64)>, told: &mut String) -> Result<(), Stop> {
    match kept {
        Some((n, line)) => Ok(write!(told, "{n} in line {line}")?),
        None => Ok(told.push_str("none")?),
    }
}

/// Tells of a segment, and of a page or a place in it.
fn of_segment(
    journal: &Journal,
    verb: &str,
    words: &[&str],
    told: &mut String,
) -> Result<(), Stop> {
    let k = count_of(words.first().ok_or(Stop::Words)?)?;
    let at = words.get(1).unwrap_or(&"0");
    match verb {
        "kept" => tell_kept(journal.kept(k, number(at)? as usize), told),
        "placed" => tell_place(journal.page(k, page(at)?), told),
        "placed-as" => tell_place(journal.kept_place(k, number(at)? as usize), told),
        _ => {
            let (count, all) = (journal.kept_count(k), journal.entries());
            Ok(write!(told, "{count} of {all}")?)
        }
    }
}

fn begin(
    journal: &mut Journal,
    line: &mut Line,
    id: u16,
    unique: UniqueId,
    told: &mut String,
) -> Result<(), Stop> {
    if journal.depth() >= 65535 || journal.is_unfinished() {
        return Err(Stop::Words);
    }
    let segment = journal.begin(line, id, &unique)?;
    Ok(write!(told, "{segment}")?)
}

fn unique_of(alloc: Global, words: &[&str]) -> Result<UniqueId, Stop> {
    match words {
        [] => Ok(UniqueId::none()),
        _ => UniqueId::of(&bytes_of(alloc, words)?).ok_or(Stop::Words),
    }
}

fn of_journal(
    alloc: Global,
    journal: &mut Journal,
    line: &mut Line,
    verb: &str,
    words: &[&str],
    told: &mut String,
) -> Result<bool, Stop> {
    match (verb, words) {
        ("says", _) => says(journal, told)?,
        ("begin", [id, unique @ ..]) => {
            begin(journal, line, id_of(id)?, unique_of(alloc, unique)?, told)?;
        }
        _ => of_segment(journal, verb, words, told)?,
    }
    Ok(true)
}

/// Tells what is asked of the device's journal; false: it's another word.
pub fn tell_journal(
    alloc: Global,
    line: &mut Line,
    verb: &str,
    words: &[&str],
    told: &mut String,
) -> Result<bool, Stop> {
    if !matches!(
        verb,
        "begin" | "says" | "kept" | "placed" | "placed-as" | "counts"
    ) {
        return Ok(false);
    }
    let mut journal = Journal::load(alloc, line)?;
    of_journal(alloc, &mut journal, line, verb, words, told)
}
