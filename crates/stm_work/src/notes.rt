// What is to be known before a device is opened, and behind it: notes on a terminal.

use crate::work::Work;
use std::fs::Files;
use std::io::{IsTerminal, Write};
use stm_files::{Escaped, is_there};
use stm_words::{Options, Progress};

/// Whether it begins a journal: a write or an erase does whose journal isn't there yet.
pub fn begins_journal<R: Files>(rt: &R, options: &Options, work: &Work) -> bool {
    work.is_change() && !is_there(rt, options.journal)
}

/// Whether it undoes by a journal that isn't there.
pub fn lacks_journal<R: Files>(rt: &R, options: &Options, work: &Work) -> bool {
    work.is_undo() && !is_there(rt, options.journal)
}

/// Tells that the journal isn't there: its name may have been mistyped.
pub fn tell_lacking<E: Write>(options: &Options, err: &mut E) {
    let name = Escaped(options.journal);
    let _ = writeln!(err, "note: journal {name} isn't there");
}

/// Whether notes are told: on a terminal, unless nothing is to be said.
fn are_notes_told<E: IsTerminal>(options: &Options, err: &E) -> bool {
    options.progress != Progress::Silent && err.is_terminal()
}

/// Tells on a terminal what is to be known before a device is opened: that a journal is begun, as
/// one is whose name was mistyped; and of an image's bytes of an erase.
pub fn tell_notes<E: Write + IsTerminal>(
    options: &Options,
    is_begun: bool,
    work: &Work,
    err: &mut E,
) {
    if !are_notes_told(options, err) {
        return;
    }
    if is_begun {
        let _ = writeln!(err, "note: journal {} is new", Escaped(options.journal));
    }
    if let Some(hint) = work.false_erase() {
        let _ = writeln!(err, "note: {hint}");
    }
}

/// Tells on a terminal that a journal was begun at a board that told no unique id, so that it names
/// none, and is refused at no other board of its kind.
pub fn tell_nameless<E: Write + IsTerminal>(options: &Options, err: &mut E) {
    if are_notes_told(options, err) {
        let name = Escaped(options.journal);
        let _ = writeln!(
            err,
            "note: this board told no unique id: use journal {name} at no other"
        );
    }
}
