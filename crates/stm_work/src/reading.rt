// Reading the flash, or a part of it.
ghost use Rattle.std.specs.Prelude.{◌≡◌, ◌∷◌, [], IfOk};
ghost use Rattle.stm_session.specs.Meaning.{reads};
ghost use Rattle.stm_work.specs.Answer.{IsReadAnswer};
ghost use Rattle.stm_work.specs.Conduct.{RunsTold};
ghost use Rattle.stm_work.specs.Reading.{ReadsRange, part_given, start_given, to_the_end};

use crate::answer::Answer;
use std::alloc::Global;
use stm_chip::Table;
use stm_session::{Command, Fault, Outcome, info, run};
use stm_wire::Rig;
use stm_words::Range;

/// Reads the whole flash, or a part of it; the device is asked where its flash lies, where that has
/// to be known.
pub fn read<L: Rig>(
    alloc: Global,
    rig: &mut L,
    table: &Table,
    range: Option<Range>,
) -> Result<Answer, Fault>
    ensures { ReadsRange L.view table.now range rig.old rig.new result }
{
    if let Some((start, length)) = part_given(range) {
        return read_bytes(alloc, rig, table, start, length);
    }
    let told = info(alloc, rig, table)?;
    match to_the_end(start_given(range), told.base, told.size) {
        Some((start, length)) => read_bytes(alloc, rig, table, start, length),
        None => Err(Fault::OutOfFlash),
    }
}

/// The part that a range names, where it has a length.
pub fn part_given(range: Option<Range>) -> Option<(u32, u32)>
    ensures { result ≡ part_given range }
{
    match range {
        Some(
            Range {
                start,
                length: Some(length),
            },
        ) => Some((start, length)),
        _ => None,
    }
}

/// Where a range starts.
pub fn start_given(range: Option<Range>) -> Option<u32>
    ensures { result ≡ start_given range }
{
    match range {
        Some(Range { start, .. }) => Some(start),
        None => None,
    }
}

/// The part of a flash from a place on, or the whole; none where it would start outside.
pub fn to_the_end(start: Option<u32>, base: u32, size: u32) -> Option<(u32, u32)>
    ensures { result ≡ to_the_end start base size }
{
    let start = start.unwrap_or(base);
    let end = u64::from(base) + u64::from(size);
    if start < base || u64::from(start) >= end {
        return None;
    }
    Some((start, (end - u64::from(start)) as u32))
}

/// Reads a part of the flash.
pub fn read_bytes<L: Rig>(
    alloc: Global,
    rig: &mut L,
    table: &Table,
    start: u32,
    length: u32,
) -> Result<Answer, Fault>
    ensures runs { let old = L.view rig.old in let new = L.view rig.new in
        RunsTold table.now (reads start length ∷ []) old new result }
    ensures told { IfOk result (IsReadAnswer length) }
{
    let commands = [Command::Read { start, length }];
    let report = run(alloc, rig, table, &commands)?;
    let mut outcomes = report.outcomes;
    let Some(Outcome::Read(bytes)) = outcomes.pop() else {
        unreachable!()
    };
    Ok(Answer::Bytes(bytes))
}
