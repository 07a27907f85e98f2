//! Plays rows of text over the calls that the libraries show to everyone, and tells which of them
//! differ.
//!
//! A word is a file of rows, `crates/stm_rows/data/`. In it stand, with empty lines between them:
//! - `# ..`, a comment.
//! - `let NAME WORDS..`: in each line behind it `$NAME` stands for these words.
//! - `table NAME FILE [ID UNIQUE [KIB]]`: a table of chips, of a file; or that of a board of one of its
//!   chips, which told its unique id and how many KiB its flash has. A row begins with the first one.
//! - `row NAME..`, and its lines up to an empty one: its loops (`loops.rt`), and what is done, one act a
//!   line: `WORD WORDS.. [= ANSWER [| ANSWER]..]`. An act is a call of a session (`sessions.rt`), which
//!   answers one of these texts (*: any), `after STEPS` and a call, which is stopped so; what else is
//!   done (`acts.rt`); what is to be so then (`looks.rt`); a call of the line (`wire.rt`); or a call of
//!   the libraries of images, chips and journals (`images.rt`, `chips.rt`, `journals.rt`).
//!
//! It writes a line for each row that differs, with the values of its loops, and how many rows each
//! file has, how often they were played, and how many differ. Its status is 1 where one does.
#![tactic(auto)]

mod acts;
mod bytes;
mod chips;
mod commands;
mod images;
mod journals;
mod kept;
mod line;
mod looks;
mod loops;
mod names;
mod power;
mod rows;
mod sent_lists;
mod sessions;
mod stage;
mod stopping;
mod wire;

use rows::play_file;
use std::process::ExitCode;
use std::{env, io};

fn play(rt: &HostRuntime) -> io::Result<bool> {
    let files: Vec<String> = env::args(rt)?.skip(1).collect(rt.alloc())?;
    let mut is_right = true;
    for file in &files {
        is_right = play_file(rt, file.as_str())? && is_right;
    }
    Ok(is_right)
}

fn main(rt: HostRuntime) -> ExitCode {
    match play(&rt) {
        Ok(true) => ExitCode::from(0),
        _ => ExitCode::from(1),
    }
}
