// What is told of steps beside their lines, on standard error: what changed nothing.
use crate::answer::Answer;
use crate::numbers::{add_number, add_numbers};
use crate::steps::Steps;
use std::alloc::{AllocError, Global};

/// The note on steps, a line; empty where there is nothing to note.
pub fn note_of(alloc: Global, steps: &Steps) -> Result<Vec<u8>, AllocError> {
    match &steps.answer {
        Answer::UndoneBeside {
            unchanged,
            left,
            ..
        } if !unchanged.is_empty() => { unchanged_note(alloc, unchanged.as_slice(), *left) }
        Answer::Written {
            segment,
            pages: 0,
            ..
        }
        | Answer::Erased { segment, pages: 0 }
            if steps.kept.is_none() => { nothing_note(alloc, *segment) }
        _ => Ok(Vec::new(alloc)),
    }
}

/// The note on an undo: which of the segments that it undid had changed nothing, and how many can still
/// be undone.
fn unchanged_note(alloc: Global, unchanged: &[u32], left: u32) -> Result<Vec<u8>, AllocError> {
    let mut text = Vec::new(alloc);
    let begins = if unchanged.len() == 1 {
        "note: segment "
    } else {
        "note: segments "
    };
    text.extend_from_slice(begins.as_bytes())?;
    add_numbers(alloc, &mut text, ", ", unchanged)?;
    add_number(alloc, &mut text, " had changed nothing; ", left)?;
    text.extend_from_slice(b" more can be undone\n")?;
    Ok(text)
}

/// The note on a write or an erase that changed no page, and behind which the journal wasn't kept.
fn nothing_note(alloc: Global, segment: u32) -> Result<Vec<u8>, AllocError> {
    let mut text = Vec::new(alloc);
    add_number(alloc, &mut text, "note: segment ", segment)?;
    text.extend_from_slice(b" changed nothing: there is nothing new to undo\n")?;
    Ok(text)
}
