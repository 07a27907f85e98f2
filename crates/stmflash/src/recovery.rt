// The end of a journal that a crash of the PC left and no session counts on: it's found, and cut off.
ghost use Rattle.std.specs.Prelude.{◌≡◌, IfOk, Ok};

use std::alloc::Global;
use std::fs::Files;
use std::io::Write;
use stm_chip::Table;
use stm_disk::{lines_size, unsynced_end};
use stm_files::{Escaped, JournalFile, JournalRig, Locks, TextSource, read_file};
use stm_journal::{Journal, JournalFault};
use stm_session::Fault;
use stm_wire::Chip;
use stm_words::{Extent, Options};
use stm_work::{Failure, Steps, find_damaged};

/// How many bytes an append has at most beside the digits of a page, with a torn line in front.
const WORDS: u64 = 192;

/// What ends a line.
const LF: u8 = b'\n';

/// Where a journal's text is to be cut, and the number of the line that begins there.
#[derive(Clone, Copy)]
struct End {
    line: u64,
    at: usize,
}

/// Reads a journal's text, or a beginning of it.
fn load(alloc: Global, bytes: &[u8]) -> Result<Journal, JournalFault> {
    Journal::load(alloc, &mut JournalRig::new(TextSource { bytes }))
}

/// The line of the first page that segment `k` keeps and the chip hasn't in that size.
fn find_misfit(journal: &Journal, chip: &Chip, k: u32) -> Option<u64> {
    for i in 0..journal.kept_count(k) {
        let (Some((page, line)), Some(place)) = (journal.kept(k, i), journal.kept_place(k, i))
        else {
            break;
        };
        if page >= chip.pages() || place.length != u64::from(chip.page_size(page)) {
            return Some(line);
        }
    }
    None
}

/// The line of a page that is refused, for its size or as the last one for its CRC, where no line
/// behind it says that a page changes: nobody touched that page, nor one behind it.
fn find_untouched(
    alloc: Global,
    bytes: &[u8],
    journal: &Journal,
    misfit: Option<u64>,
) -> Result<Option<u64>, JournalFault> {
    if let Some(line) = misfit {
        return Ok(unless_changed(bytes, line));
    }
    let segment = journal.depth();
    let last = journal.kept_count(segment).saturating_sub(1);
    let Some((page, line)) = journal.kept(segment, last) else {
        return Ok(None);
    };
    let mut rig = JournalRig::new(TextSource { bytes });
    match find_damaged(alloc, &mut rig, Extent::Newest(1))? {
        Some(found) if found.page == page => Ok(unless_changed(bytes, line)),
        _ => Ok(None),
    }
}

/// A line, where none behind it says that a page changes.
fn unless_changed(bytes: &[u8], line: u64) -> Option<u64> {
    if says_a_change(bytes.get(lines_size(bytes, line)..).unwrap_or(&[])) {
        None
    } else {
        Some(line)
    }
}

/// Whether a whole line of these says that a page is erased or programmed.
fn says_a_change(lines: &[u8]) -> bool {
    let mut start = 0usize;
    for i in 0..lines.len() {
        if lines[i] != LF {
            continue;
        }
        let line = lines.get(start..i).unwrap_or(&[]);
        if line.starts_with(b"erase ") || line.starts_with(b"program ") {
            return true;
        }
        start = i + 1;
    }
    false
}

/// The lines before this one.
fn before(bytes: &[u8], line: u64) -> &[u8] {
    let size = lines_size(bytes, line.saturating_sub(1));
    bytes.get(..size).unwrap_or(bytes)
}

/// How many bytes an append to a journal of this chip has at most, with a torn line in front.
fn longest_append(chip: Option<&Chip>) -> u64 {
    let mut longest = 0;
    if let Some(chip) = chip {
        for page in 0..chip.pages() {
            longest = longest.max(u64::from(chip.page_size(page)));
        }
    }
    longest.saturating_mul(2).saturating_add(WORDS)
}

/// Whether a line is as long as one that keeps a page of the chip, whole: a digit of it rotted.
fn is_whole_page(line: &[u8], chip: Option<&Chip>) -> bool {
    let Some(chip) = chip else {
        return false;
    };
    for page in 0..chip.pages() {
        // the word, its blanks and the LF, beside its number
        let words = if page < 10 {
            8
        } else if page < 100 {
            9
        } else {
            10
        };
        let digits = u64::from(chip.page_size(page)).saturating_mul(2);
        if line.len() as u64 == digits.saturating_add(words) {
            return line.starts_with(b"page ");
        }
    }
    false
}

/// Where a journal's text is to be cut since a crash of the PC may have left what stands from there
/// on, and nothing that was acknowledged; none where it's good, or it may be another's.
fn find_end(alloc: Global, bytes: &[u8], table: &Table) -> Result<Option<End>, JournalFault> {
    let (bad, journal) = match load(alloc, bytes) {
        Ok(journal) => (None, journal),
        Err(JournalFault::Bad(line)) => (Some(line), load(alloc, before(bytes, line))?),
        Err(fault) => return Err(fault),
    };
    let mut chip = None;
    let mut misfit = None;
    if let Some(id) = journal.id() {
        let Some(named) = table.find(id) else {
            return Ok(None);
        };
        for below in 0..journal.depth() {
            misfit = misfit.or(find_misfit(&journal, named, below + 1));
        }
        chip = Some(named);
    }
    let line = match bad {
        Some(line) => misfit.unwrap_or(line),
        None => match find_untouched(alloc, bytes, &journal, misfit)? {
            Some(line) => line,
            None => return Ok(None),
        },
    };
    let Some(at) = unsynced_end(bytes, line, longest_append(chip)) else {
        return Ok(None);
    };
    let rest = bytes.get(at..).unwrap_or(&[]);
    if bad.is_some() && is_whole_page(before(rest, 2), chip) {
        return Ok(None);
    }
    Ok(Some(End { line, at }))
}

/// Cuts off what a crash of the PC may have left at the end of the journal, where that keeps it from
/// being read, puts it into a file beside, and tells so. Any other journal stays as it is.
pub fn recover<'a, R: Locks + AllocGlobal, E: Write>(
    rt: &R,
    options: &Options<'a>,
    table: &Table,
    err: &mut E,
) -> Result<(), Failure<'a>> {
    let name = options.journal;
    let mut journal = match JournalFile::open(
        rt,
        name,
        options.without_lock,
        options.trusts_others,
    ) {
        Ok(journal) => journal,
        Err(why) => return Err(Failure::of_journal(why, name)),
    };
    let bytes = match journal.read() {
        Ok(bytes) => bytes,
        Err(e) => return Err(Failure::of_file(&e, Failure::CannotRead(name))),
    };
    let end = match find_end(rt.alloc(), bytes.as_slice(), table) {
        Ok(Some(end)) => end,
        Ok(None) => return Ok(()),
        Err(fault) => return Err(Failure::Session(Fault::from(fault))),
    };
    match journal.cut_off(name, bytes.as_slice(), end.at) {
        Ok(beside) => {
            let count = bytes.len().saturating_sub(end.at);
            let _ = writeln!(
                err,
                "note: journal {} cut before line {}: {count} bytes that no session counts on are in {}",
                Escaped(name),
                end.line,
                Escaped(beside)
            );
            Ok(())
        }
        Err(e) => Err(Failure::of_reason(Some(e))),
    }
}

/// Whether the journal of this name has such an end.
fn has_end<R: Files + AllocGlobal>(rt: &R, name: &str, table: &Table) -> bool {
    match read_file(rt, name, u32::MAX) {
        Ok(bytes) => matches!(find_end(rt.alloc(), bytes.as_slice(), table), Ok(Some(_))),
        Err(_) => false,
    }
}

/// The same failure, where the journal of this name or of a folder is bad, and has such an end.
pub fn told_end<'a, R: Files + AllocGlobal>(
    rt: &R,
    name: &str,
    table: &Table,
    failure: Failure<'a>,
) -> Failure<'a> {
    match failure {
        Failure::Session(Fault::BadJournal(line)) if has_end(rt, name, table) => {
            Failure::UnsyncedEnd(line)
        }
        Failure::InJournal(name, Fault::BadJournal(line)) if has_end(rt, name, table) => {
            Failure::UnsyncedEndIn(name, line)
        }
        failure => failure,
    }
}

/// The same, of what came of a use of the journal of this name.
pub fn done_or_end<'a, R: Files + AllocGlobal>(
    rt: &R,
    name: &str,
    table: &Table,
    done: Result<Steps<'a>, Failure<'a>>,
) -> Result<Steps<'a>, Failure<'a>>
    ensures { IfOk result (λ steps. done.entry ≡ Ok steps) }
{
    match done {
        Ok(steps) => Ok(steps),
        Err(failure) => Err(told_end(rt, name, table, failure)),
    }
}
