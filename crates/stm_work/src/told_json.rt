// What came of the words as JSON, one line for each step and one for a fault.
ghost use Rattle.std.specs.Prelude.{◌≡◌, ◌++◌, ℕ, List, IfOk, OnOk, codes};
ghost use Rattle.stm_work.specs.Answer.{is_flash};
ghost use Rattle.stm_work.specs.DeviceJson.{info_members};
ghost use Rattle.stm_work.specs.JsonLine.{number_member, numbers_member, text_member};
ghost use Rattle.stm_work.specs.ToldJson.{beside_members, crc_member, segments_member, time_member, used_members};
ghost use Rattle.stm_work.specs.ToldJson.{AreLines, again_members, answer_line, answer_name, change_members};
ghost use Rattle.stm_work.specs.ToldJson.{kept_line, members_of, next_line};
ghost use Rattle.stm_work.specs.ToldJson.{next_told, refusal_line, steps_lines, undone_members};
ghost use Rattle.stm_work.specs.ToldJson.{undone_name};

use crate::answer::Answer;
use crate::behind::Behind;
use crate::device_json::{add_board, add_info, add_told, eight_digits};
use crate::failure::Failure;
use crate::hint::Hint;
use crate::json_line::JsonLine;
use crate::steps::{Steps, Used};
use std::alloc::{AllocError, Global};
use stm_files::Escaped;
use stm_session::{Board, Info};

/// The member that names what was done.
const ANSWER: &str = "answer";

/// The member that names a fault.
const FAULT: &str = "fault";

/// The lines of what was done, a line each step.
fn json_of_steps(alloc: Global, steps: &Steps) -> Result<Vec<u8>, AllocError>
    ensures { IfOk result (λ text. text.items ≡ steps_lines steps.now) }
{
    let mut text = json_of(alloc, &steps.answer, &steps.board, &steps.used)?;
    add_kept(alloc, &mut text, steps.kept)?;
    Ok(text)
}

/// Adds the line of what stays, where the journal was kept.
fn add_kept(alloc: Global, text: &mut Vec<u8>, kept: Option<u32>) -> Result<(), AllocError>
    ensures { OnOk result (text.new.items ≡ text.old.items ++ kept_line kept) }
{
    match kept {
        Some(count) => {
            text.extend_from_slice(json_of(
                alloc,
                &Answer::Kept { count, left: None },
                &None,
                &None,
            )?.as_slice())
        }
        None => Ok(()),
    }
}

/// The same, or the line of what was done with what is to be done then, where the hint says that.
pub fn json_of_done(alloc: Global, steps: &Steps, hint: Option<Hint>) -> Result<Vec<u8>, AllocError>
    ensures { IfOk result (λ text. AreLines hint steps.now text.items) }
{
    match told_next(hint) {
        Some(next) => {
            let mut text = json_of_next(alloc, steps, next)?;
            add_kept(alloc, &mut text, steps.kept)?;
            Ok(text)
        }
        None => json_of_steps(alloc, steps),
    }
}

/// What is told to be done behind what was done.
fn told_next(hint: Option<Hint>) -> Option<Hint>
    ensures { result ≡ next_told hint }
{
    match hint {
        Some(hint) => hint.in_line(),
        None => None,
    }
}

/// The line of what was done, with what is to be done then.
fn json_of_next(alloc: Global, steps: &Steps, hint: Hint) -> Result<Vec<u8>, AllocError>
    ensures { IfOk result (λ line. (says : List ℕ) × (line.items ≡ next_line says steps.now)) }
{
    let mut line = JsonLine::of(alloc, ANSWER, name_of(&steps.answer))?;
    add_members(alloc, &mut line, &steps.answer)?;
    add_beside(alloc, &mut line, &steps.board, &steps.used)?;
    add_hint(alloc, &mut line, Behind::Hint(hint))?;
    line.end()
}

/// The line of an answer, with the board, where the device was asked which it is, and with what it was
/// used.
fn json_of(
    alloc: Global,
    answer: &Answer,
    board: &Option<Board>,
    used: &Option<Used>,
) -> Result<Vec<u8>, AllocError>
    ensures { IfOk result (λ line. line.items ≡ answer_line answer.now board.now used.now) }
{
    let mut line = JsonLine::of(alloc, ANSWER, name_of(answer))?;
    add_members(alloc, &mut line, answer)?;
    add_beside(alloc, &mut line, board, used)?;
    line.end()
}

/// Adds which board it was, and with what it was used.
#[tactic(auto, using(crate::proofs::TextParts::goes_on))]
fn add_beside(
    alloc: Global,
    line: &mut JsonLine,
    board: &Option<Board>,
    used: &Option<Used>,
) -> Result<(), AllocError>
    ensures { OnOk result (line.new.text.items
        ≡ line.old.text.items ++ beside_members board.now used.now) }
{
    add_board(alloc, line, board)?;
    add_used(line, used)
}

/// Adds with what a device was used, where that is told.
#[tactic(auto, using(crate::proofs::TextParts::goes_on))]
fn add_used(line: &mut JsonLine, used: &Option<Used>) -> Result<(), AllocError>
    ensures { OnOk result (line.new.text.items ≡ line.old.text.items ++ used_members used.now) }
{
    match used {
        Some(used) => {
            line.text("journal", used.journal)?;
            add_time(line, used.milliseconds)
        }
        None => Ok(()),
    }
}

/// Adds how long that took, where a clock told it.
fn add_time(line: &mut JsonLine, milliseconds: Option<u64>) -> Result<(), AllocError>
    ensures { OnOk result (line.new.text.items ≡ line.old.text.items ++ time_member milliseconds) }
{
    match milliseconds {
        Some(milliseconds) => line.number("milliseconds", milliseconds),
        None => Ok(()),
    }
}

/// The name that an answer has wherever programs read it.
pub fn name_of(answer: &Answer) -> &'static str
    ensures { result.now ≡ answer_name answer.now }
{
    match answer {
        Answer::Nothing | Answer::Bytes(_) | Answer::Filed { .. } => "done",
        Answer::Told { .. } => "info",
        Answer::Identified { .. } => "identified",
        Answer::Sum(_) => "crc",
        Answer::Written { again: Some(_), .. } => "written_and_verified",
        Answer::Written { .. } => "written",
        Answer::Verified { .. } => "verified",
        Answer::Erased { .. } => "erased",
        Answer::Undone { bytes, .. } | Answer::UndoneBeside { bytes, .. } => undone_name(*bytes),
        Answer::Logged { .. } => "log",
        Answer::Kept { .. } => "kept",
    }
}

/// The name of an undo, by whether bytes were read again.
fn undone_name(bytes: Option<u64>) -> &'static str
    ensures { result.now ≡ undone_name bytes }
{
    match bytes {
        None => "undone",
        Some(_) => "undone_and_verified",
    }
}

/// Whether an answer is what was read of the flash, which is no line of JSON.
pub fn is_flash(answer: &Answer) -> bool
    ensures { result ≡ is_flash answer.now }
{
    matches!(answer, Answer::Bytes(_))
}

/// Adds what an answer tells.
#[tactic(auto, using(crate::proofs::TextParts::goes_on))]
fn add_members(alloc: Global, line: &mut JsonLine, answer: &Answer) -> Result<(), AllocError>
    ensures { OnOk result (line.new.text.items
        ≡ line.old.text.items ++ members_of answer.now) }
{
    match answer {
        Answer::Nothing | Answer::Bytes(_) => Ok(()),
        Answer::Told {
            info,
            tried: Some(tried),
        } => add_info_beside(alloc, line, info, *tried),
        Answer::Told { info, .. } => add_info_beside(alloc, line, info, 0),
        Answer::Identified {
            told,
            table: Some(table),
        } => {
            add_told(alloc, line, told)?;
            line.text("table", table.as_str())
        }
        Answer::Identified { told, .. } => add_told(alloc, line, told),
        Answer::Sum(crc) => add_crc(alloc, line, *crc),
        Answer::Filed { bytes, crc } | Answer::Verified { bytes, crc } => {
            add_summed(alloc, line, *bytes, *crc)
        }
        Answer::Erased { segment, pages } => add_change(line, *segment, *pages),
        Answer::Written {
            segment,
            pages,
            bytes,
            crc,
            again,
        } => {
            add_change(line, *segment, *pages)?;
            line.number("bytes", *bytes as u64)?;
            add_again(line, *again)?;
            add_crc(alloc, line, *crc)
        }
        Answer::Undone { count, bytes } => add_undone(line, *count, *bytes),
        Answer::UndoneBeside {
            count,
            bytes,
            unchanged,
            ..
        } => add_undone_beside(line, *count, *bytes, unchanged.as_slice()),
        Answer::Logged { text, segments } => {
            line.lines("lines", text.as_slice())?;
            add_segments(line, segments.as_slice())
        }
        Answer::Kept {
            count,
            left: Some(left),
        } => {
            line.number("count", u64::from(*count))?;
            line.number("left", u64::from(*left))
        }
        Answer::Kept { count, .. } => line.number("count", u64::from(*count)),
    }
}

/// Adds a CRC.
fn add_crc(alloc: Global, line: &mut JsonLine, crc: u32) -> Result<(), AllocError>
    ensures { OnOk result (line.new.text.items ≡ line.old.text.items ++ crc_member crc) }
{
    line.text("crc", eight_digits(alloc, crc)?.as_str())
}

/// Adds how many bytes there are, and their CRC.
#[tactic(auto, using(crate::proofs::TextParts::goes_on))]
fn add_summed(alloc: Global, line: &mut JsonLine, bytes: usize, crc: u32) -> Result<(), AllocError>
    ensures { OnOk result (line.new.text.items ≡ line.old.text.items
        ++ (number_member (codes "bytes") bytes ++ crc_member crc)) }
{
    line.number("bytes", bytes as u64)?;
    add_crc(alloc, line, crc)
}

/// Adds the segments of a journal, where they are told.
fn add_segments(line: &mut JsonLine, segments: &[u8]) -> Result<(), AllocError>
    ensures { OnOk result
        (line.new.text.items ≡ line.old.text.items ++ segments_member segments.now) }
{
    if segments.is_empty() {
        return Ok(());
    }
    line.made("segments", segments)
}

/// Adds what a device is, and how many real boards with its chip were tried.
#[tactic(auto, using(crate::proofs::TextParts::goes_on))]
fn add_info_beside(
    alloc: Global,
    line: &mut JsonLine,
    info: &Info,
    tried: usize,
) -> Result<(), AllocError>
    ensures { OnOk result (line.new.text.items ≡ line.old.text.items
        ++ (info_members info.now ++ number_member (codes "tried") tried)) }
{
    add_info(alloc, line, info)?;
    line.number("tried", tried as u64)
}

/// Adds how many segments were undone, and how many bytes were read again, where that is told.
#[tactic(auto, using(crate::proofs::TextParts::goes_on))]
fn add_undone(line: &mut JsonLine, count: u32, bytes: Option<u64>) -> Result<(), AllocError>
    ensures { OnOk result (line.new.text.items
        ≡ line.old.text.items ++ undone_members count bytes) }
{
    line.number("count", u64::from(count))?;
    match bytes {
        Some(bytes) => line.number("bytes", bytes),
        None => Ok(()),
    }
}

/// Adds the same, and which of them had changed nothing.
#[tactic(auto, using(crate::proofs::TextParts::goes_on))]
fn add_undone_beside(
    line: &mut JsonLine,
    count: u32,
    bytes: Option<u64>,
    unchanged: &[u32],
) -> Result<(), AllocError>
    ensures { OnOk result (line.new.text.items ≡ line.old.text.items
        ++ (undone_members count bytes ++ numbers_member (codes "unchanged") unchanged.now)) }
{
    add_undone(line, count, bytes)?;
    line.numbers("unchanged", unchanged)
}

/// Adds the number of a segment, and how many pages it changed.
#[tactic(auto, using(crate::proofs::TextParts::goes_on))]
fn add_change(line: &mut JsonLine, segment: u32, pages: u32) -> Result<(), AllocError>
    ensures { OnOk result (line.new.text.items
        ≡ line.old.text.items ++ change_members segment pages) }
{
    line.number("segment", u64::from(segment))?;
    line.number("pages", u64::from(pages))
}

/// Adds how many bytes were read again, where that is told.
fn add_again(line: &mut JsonLine, again: Option<usize>) -> Result<(), AllocError>
    ensures { OnOk result (line.new.text.items ≡ line.old.text.items ++ again_members again) }
{
    match again {
        Some(again) => line.number("again", again as u64),
        None => Ok(()),
    }
}

/// The line of a fault: its name, its text as it is told on standard error, what came where that
/// tells more of it, and the exit status.
pub fn json_of_failure(
    alloc: Global,
    failure: &Failure,
    hint: Option<Hint>,
) -> Result<Vec<u8>, AllocError> {
    let mut line = JsonLine::of(alloc, FAULT, failure.name())?;
    line.text("says", format!(in alloc; "{}", Escaped(failure))?.as_str())?;
    if let Some(told) = Behind::failure(failure, hint) {
        add_hint(alloc, &mut line, told)?;
    }
    line.number("status", u64::from(failure.status()))?;
    line.end()
}

/// Adds what came, or what is to be done.
fn add_hint(alloc: Global, line: &mut JsonLine, told: Behind) -> Result<(), AllocError>
    ensures { OnOk result ((says : List ℕ) × (line.new.text.items
        ≡ line.old.text.items ++ text_member (codes "hint") says)) }
{
    line.text("hint", format!(in alloc; "{}", Escaped(told))?.as_str())
}

/// The line of words that `clap` refuses, with its text.
pub fn json_of_refusal(alloc: Global, text: &str) -> Result<Vec<u8>, AllocError>
    ensures { IfOk result (λ line. line.items ≡ refusal_line text.now) }
{
    let mut line = JsonLine::of(alloc, FAULT, "usage")?;
    line.text("says", text)?;
    line.number("status", 2)?;
    line.end()
}
