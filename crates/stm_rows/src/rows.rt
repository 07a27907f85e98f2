// A file of rows, and how it is played.
use crate::acts::act;
use crate::bytes::number;
use crate::chips::tell_chip;
use crate::images::tell_image;
use crate::journals::tell_journal;
use crate::looks::{look, tell};
use crate::loops::{Loops, is_loop};
use crate::names::{Names, words_of};
use crate::sessions::{call, tell_board};
use crate::stage::{Stage, Tables};
use crate::stopping::Stop;
use crate::wire::wire;
use std::alloc::Global;
use std::{fs, io};
use stm_session::ask_board;

/// What all rows of a file share, and what came of them.
#[derive(Drop)]
struct Played {
    alloc: Global,
    names: Names,
    tables: Tables,
    rows: u64,
    times: u64,
    differ: u64,
}

/// Whether the answer is one of those that are due.
fn is_due(answer: &str, due: &str) -> bool {
    for one in due.split('|') {
        let one = one.trim();
        if one == answer || one == "*" {
            return true;
        }
    }
    false
}

/// Does a call of a session or of the line, and tells what it answers; false: it's none.
fn called(
    stage: &mut Stage,
    tables: &Tables,
    verb: &str,
    words: &[&str],
    told: &mut String,
) -> Result<bool, Stop> {
    let Some(line) = &mut stage.line else {
        return Ok(false);
    };
    if tell_journal(stage.alloc, line, verb, words, told)? {
        return Ok(true);
    }
    let before = line.memory.calls().len();
    let is_called = if verb == "wire" {
        wire(stage.alloc, line, words, told).map(|()| true)
    } else {
        let table = match &stage.own {
            Some(table) => table,
            None => tables.at(stage.table)?,
        };
        call(stage.alloc, line, table, verb, words, told)
    };
    if !matches!(is_called, Ok(false)) {
        stage.before = before;
    }
    is_called
}

/// Asks which board it is, which makes a chip of the table its own; tells that, and its pages.
fn own(stage: &mut Stage, tables: &Tables, words: &[&str], told: &mut String) -> Result<(), Stop> {
    let id = words.first().ok_or(Stop::Words)?;
    let (alloc, place) = (stage.alloc, stage.table);
    let board = ask_board(alloc, stage.line()?, tables.at(place)?)?;
    tell_board(&board, told)?;
    let table = tables.own(place, id, board)?;
    let pages = table.find(board.id).ok_or(Stop::Words)?.pages();
    stage.own = Some(table);
    Ok(write!(told, " {pages}")?)
}

/// The same of a call that is stopped after so many steps; the stop is lifted then.
fn stopped(
    stage: &mut Stage,
    tables: &Tables,
    words: &[&str],
    told: &mut String,
) -> Result<bool, Stop> {
    let [steps, verb, rest @ ..] = words else {
        return Err(Stop::Words);
    };
    stage.line()?.memory.stop_after(number(steps)?);
    let is_called = called(stage, tables, verb, rest, told);
    stage.line()?.memory.stop_after(u64::MAX);
    is_called
}

/// Does an act that isn't answered by a text, and tells where it isn't so.
fn act_or_look(
    stage: &mut Stage,
    tables: &Tables,
    verb: &str,
    words: &[&str],
    told: &mut String,
) -> Result<(), Stop> {
    let is_so = match act(stage, tables, verb, words)? {
        Some(is_done) => is_done,
        None => look(stage, verb, words)?.ok_or(Stop::Words)?,
    };
    if !is_so {
        told.push_str("not so")?;
    }
    Ok(())
}

/// Does an act, and tells what it answers.
fn answer(
    stage: &mut Stage,
    tables: &Tables,
    words: &[&str],
    told: &mut String,
) -> Result<(), Stop> {
    let [verb, rest @ ..] = words else {
        return Err(Stop::Words);
    };
    let alloc = stage.alloc;
    if *verb == "own" {
        return own(stage, tables, rest, told);
    }
    let is_told = if *verb == "after" {
        stopped(stage, tables, rest, told)?
    } else {
        tell_image(alloc, verb, rest, told)?
            || tell_chip(alloc, verb, rest, told)?
            || called(stage, tables, verb, rest, told)?
            || tell(stage, verb, rest, told)?
    };
    if is_told {
        return Ok(());
    }
    act_or_look(stage, tables, verb, rest, told)
}

/// Whether a line is as it is due; and what it answers.
fn play_line(
    stage: &mut Stage,
    tables: &Tables,
    line: &str,
    told: &mut String,
) -> Result<bool, Stop> {
    let (done, due) = line.split_once(" =").unwrap_or((line, ""));
    let words = words_of(stage.alloc, done)?;
    told.clear();
    match answer(stage, tables, &words, told) {
        Err(Stop::Words) => return Err(Stop::Words),
        Err(Stop::Memory) => return Err(Stop::Memory),
        Err(stop) => {
            told.clear();
            stop.tell(told)?;
        }
        Ok(()) => {}
    }
    Ok(is_due(told.as_str(), due))
}

/// The first line of a row that isn't as it is due; what it is with its values, and what came.
fn play_lines(
    stage: &mut Stage,
    names: &Names,
    tables: &Tables,
    lines: &[&str],
    (expanded, told): (&mut String, &mut String),
) -> Result<bool, Stop> {
    for line in lines {
        if line.starts_with('#') {
            continue;
        }
        names.expand(line, expanded)?;
        if !play_line(stage, tables, expanded.as_str(), told)? {
            return Ok(false);
        }
    }
    expanded.clear();
    Ok(true)
}

impl Played {
    fn new(alloc: Global) -> Played {
        Played {
            alloc,
            names: Names::new(alloc),
            tables: Tables::new(alloc),
            rows: 0,
            times: 0,
            differ: 0,
        }
    }

    /// Tells what differs.
    fn tell(&mut self, rt: &HostRuntime, row: &str, values: &str, came: &str) -> io::Result<()> {
        self.differ = self.differ.saturating_add(1);
        println!(rt; "{row}: {values}: {came}")
    }

    /// Plays a row once.
    fn play_once(&mut self, rt: &HostRuntime, row: &str, lines: &[&str]) -> io::Result<()> {
        self.times = self.times.saturating_add(1);
        let mut stage = Stage::new(self.alloc);
        let mut line = String::new(self.alloc);
        let mut told = String::new(self.alloc);
        let texts = (&mut line, &mut told);
        match play_lines(&mut stage, &self.names, &self.tables, lines, texts) {
            Ok(true) => Ok(()),
            Ok(false) => self.tell(rt, row, line.as_str(), told.as_str()),
            Err(stop) => self.tell(rt, row, line.as_str(), stop.text()),
        }
    }

    /// Plays a row for each value of its loops, up to the first at which it differs.
    fn play_row(&mut self, rt: &HostRuntime, row: &str, lines: &[&str]) -> Result<(), Stop> {
        self.rows = self.rows.saturating_add(1);
        let loops = lines.iter().take_while(|line| is_loop(line)).count();
        let acts = lines.get(loops..).unwrap_or(&[]);
        let loops = lines.get(..loops).unwrap_or(&[]);
        let (kept, before) = (self.names.count(), self.differ);
        let mut places = Loops::new(self.alloc);
        for _i in 0..u64::MAX {
            if self.differ > before || !places.next(&mut self.names, loops, kept)? {
                break;
            }
            self.play_once(rt, row, acts)?;
        }
        self.names.keep(kept);
        Ok(())
    }

    /// A line outside of rows, whose words these are.
    fn read_words(&mut self, rt: &HostRuntime, line: &str) -> Result<(), Stop> {
        match line.split_once(' ') {
            Some(("let", rest)) => {
                let (name, words) = rest.split_once(' ').unwrap_or((rest, ""));
                self.names.name(name, words)
            }
            Some(("table", rest)) => {
                let words = words_of(self.alloc, rest)?;
                self.tables.read(rt, &words)
            }
            _ => Err(Stop::Words),
        }
    }

    /// A line outside of rows.
    fn read(&mut self, rt: &HostRuntime, line: &str) -> Result<(), Stop> {
        let mut text = String::new(self.alloc);
        self.names.expand(line, &mut text)?;
        self.read_words(rt, text.as_str())
    }

    /// Plays a block of lines: a row, or lines outside of rows.
    fn play_block(&mut self, rt: &HostRuntime, lines: &[&str]) -> Result<(), Stop> {
        let mut left = lines;
        for _i in 0..lines.len() {
            match left {
                [line, rest @ ..] => {
                    if let Some(row) = line.strip_prefix("row ") {
                        return self.play_row(rt, row, rest);
                    }
                    if !line.starts_with('#') {
                        self.read(rt, line)?;
                    }
                    left = rest;
                }
                [] => return Ok(()),
            }
        }
        Ok(())
    }

    /// Plays all blocks, with empty lines between them.
    fn play_text(&mut self, rt: &HostRuntime, text: &str) -> Result<(), Stop> {
        let lines: Vec<&str> = text.split('\n').collect(self.alloc)?;
        for block in lines.as_slice().split(|line| line.is_empty()) {
            if let Err(stop) = self.play_block(rt, block) {
                self.tell(rt, block.first().unwrap_or(&""), "", stop.text())?;
            }
        }
        Ok(())
    }
}

/// Plays a file of rows; whether none differs.
pub fn play_file(rt: &HostRuntime, file: &str) -> io::Result<bool> {
    let text = fs::read_to_string(rt, file)?;
    let mut played = Played::new(rt.alloc());
    let is_read = played.play_text(rt, text.as_str()).is_ok();
    let (rows, times, differ) = (played.rows, played.times, played.differ);
    println!(rt; "{file}: {rows} rows, played {times} times, {differ} differ")?;
    Ok(is_read && differ == 0)
}
