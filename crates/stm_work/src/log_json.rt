// The segments of a journal as JSON, beside the lines that `log` prints.
use crate::json_line::JsonLine;
use std::alloc::{AllocError, Global};
use stm_files::{Begun, Note};
use stm_journal::{Journal, Stage};

/// The segments of a journal, the oldest first, as a list of objects.
pub fn list_segments(
    alloc: Global,
    journal: &Journal,
    begun: &Begun,
) -> Result<Vec<u8>, AllocError> {
    let mut list = Vec::new(alloc);
    let mut mark = b'[';
    for k in 0..journal.depth() {
        if let Some(stage) = journal.stage(k + 1) {
            list.push(mark)?;
            list.extend_from_slice(&object_of(alloc, journal, begun.notes(), k + 1, stage)?)?;
            mark = b',';
        }
    }
    if mark == b'[' {
        list.push(mark)?;
    }
    list.push(b']')?;
    Ok(list)
}

/// Segment `k` as an object.
fn object_of(
    alloc: Global,
    journal: &Journal,
    notes: &[Note],
    k: u32,
    stage: Stage,
) -> Result<Vec<u8>, AllocError> {
    let state = match stage {
        Stage::Open(_) => "open",
        Stage::Ended => "ended",
        Stage::Returning(_) => "returning",
    };
    let mut line = JsonLine::of(alloc, "state", state)?;
    line.number("segment", u64::from(k))?;
    let mut pages = Vec::new(alloc);
    for i in 0..journal.kept_count(k) {
        if let Some((page, _)) = journal.kept(k, i) {
            pages.push(u32::from(page))?;
        }
    }
    line.numbers("pages", &pages)?;
    let mut images = Vec::new(alloc);
    for note in notes {
        if note.segment != k {
            continue;
        }
        if let Some(name) = note.words.strip_prefix(b"image ") {
            images.extend_from_slice(name)?;
            images.push(b'\n')?;
        }
    }
    line.lines("images", &images)?;
    if let Some(time) = time_of(notes, k) {
        line.text("time", time)?;
    }
    let mut object = line.end()?;
    // it stands among others
    object.pop();
    Ok(object)
}

/// When segment `k` was begun.
fn time_of(notes: &[Note], k: u32) -> Option<&str> {
    for note in notes {
        if let (true, Some(time)) = (note.segment == k, note.words.strip_prefix(b"time ")) {
            return str::from_utf8(time).ok();
        }
    }
    None
}
