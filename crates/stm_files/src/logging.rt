// What a journal says, told in lines.
ghost use Rattle.std.specs.Prelude.{◌≡◌, ◌/◌, ◌%◌, ◌∷◌, ◌++◌, ◌==◌, ◌+◌, [], IfOk, OnOk, Some};
ghost use Rattle.std.specs.Prelude.{codes, decimal};
ghost use Rattle.hex.specs.Hex.{encode_upper};
ghost use Rattle.stm_journal.specs.States.{intent_at, segment_of};
ghost use Rattle.stm_files.specs.Logging.{logged_device, end_text, intent_text, kept_pages_text, logged_line};
ghost use Rattle.stm_files.specs.Logging.{log_text, noted_line, numbers_of, range_text, stage_text};

use crate::begun::Begun;
use std::alloc::{AllocError, Global};
use stm_journal::{Intent, Journal, Stage};
use stm_wire::UniqueId;

/// Adds a word and a number.
pub fn add_number(
    out: &mut Vec<u8>,
    alloc: Global,
    word: &[u8],
    number: usize,
) -> Result<(), AllocError>
    ensures { OnOk result (out.new.items ≡ out.old.items ++ word.now ++ decimal number) }
{
    out.extend_from_slice(word)?;
    let digits = format!(in alloc; "{number}")?;
    out.extend_from_slice(digits.as_bytes())
}

/// Adds pages from one to another.
fn add_range(out: &mut Vec<u8>, alloc: Global, first: u16, last: u16) -> Result<(), AllocError>
    ensures { OnOk result (out.new.items ≡ out.old.items ++ range_text first last) }
{
    add_number(out, alloc, b" ", usize::from(first))?;
    if first != last {
        add_number(out, alloc, b"-", usize::from(last))?;
    }
    Ok(())
}

/// Whether a page is the one behind another.
fn follows(last: u16, page: u16) -> bool
    ensures { result ≡ (page == last + 1) }
{
    u32::from(page) == u32::from(last) + 1
}

/// Adds the pages that segment `k` keeps.
fn add_pages(out: &mut Vec<u8>, alloc: Global, journal: &Journal, k: u32) -> Result<(), AllocError>
    ensures { (segment : _) → segment_of journal.now.state k ≡ Some segment
        → OnOk result (out.new.items ≡ out.old.items ++ kept_pages_text (numbers_of segment)) }
{
    let Some((page, _)) = journal.kept(k, 0) else {
        return Ok(());
    };
    out.push(b':')?;
    let mut first = page;
    let mut last = page;
    for i in 1..journal.kept_count(k) {
        let Some((page, _)) = journal.kept(k, i) else {
            unreachable!()
        };
        if !follows(last, page) {
            add_range(out, alloc, first, last)?;
            first = page;
        }
        last = page;
    }
    add_range(out, alloc, first, last)
}

/// Adds the word of a stage.
fn add_stage(out: &mut Vec<u8>, stage: Stage) -> Result<(), AllocError>
    ensures { OnOk result (out.new.items ≡ out.old.items ++ stage_text stage) }
{
    match stage {
        Stage::Open(_) => out.extend_from_slice(b"open"),
        Stage::Ended => out.extend_from_slice(b"ended"),
        Stage::Returning(_) => out.extend_from_slice(b"returning"),
    }
}

/// The newest intent of a segment that hasn't ended.
fn intent_of(stage: Stage) -> Option<Intent>
    ensures { result ≡ intent_at stage }
{
    match stage {
        Stage::Open(intent) => intent,
        Stage::Ended => None,
        Stage::Returning(intent) => Some(intent),
    }
}

/// Adds what is being done.
fn add_intent(out: &mut Vec<u8>, alloc: Global, intent: Option<Intent>) -> Result<(), AllocError>
    ensures { OnOk result (out.new.items ≡ out.old.items ++ intent_text intent) }
{
    match intent {
        None => Ok(()),
        Some(Intent::Erase(n)) => add_number(out, alloc, b", erasing ", usize::from(n)),
        Some(Intent::Program(n)) => add_number(out, alloc, b", writing ", usize::from(n)),
    }
}

/// Adds where segment `k` stands, and how many pages it keeps.
fn add_standing(
    out: &mut Vec<u8>,
    alloc: Global,
    stage: Stage,
    count: usize,
) -> Result<(), AllocError>
    ensures { OnOk result (out.new.items
        ≡ out.old.items
        ++ (codes ": " ++ stage_text stage ++ (codes ", " ++ decimal count ++ codes " pages"))) }
{
    out.extend_from_slice(b": ")?;
    add_stage(out, stage)?;
    add_number(out, alloc, b", ", count)?;
    out.extend_from_slice(b" pages")
}

/// Adds the line of segment `k`, where there is one.
pub fn add_segment(
    out: &mut Vec<u8>,
    alloc: Global,
    journal: &Journal,
    k: u32,
) -> Result<(), AllocError>
    ensures { OnOk result (out.new.items ≡ out.old.items ++ logged_line journal.now.state k) }
{
    let Some(stage) = journal.stage(k) else {
        return Ok(());
    };
    add_number(out, alloc, b"segment ", k as usize)?;
    add_standing(out, alloc, stage, journal.kept_count(k))?;
    add_pages(out, alloc, journal, k)?;
    add_intent(out, alloc, intent_of(stage))?;
    out.push(b'\n')?;
    Ok(())
}

/// Adds the line of the device.
fn add_id(out: &mut Vec<u8>, alloc: Global, id: u16) -> Result<(), AllocError>
    ensures { OnOk result (out.new.items
        ≡ out.old.items ++ (codes "id " ++ encode_upper (id / 256 ∷ id % 256 ∷ []) ++ 10 ∷ [])) }
{
    out.extend_from_slice(b"id ")?;
    let digits = hex::encode_upper(alloc, &[(id / 256) as u8, (id % 256) as u8])?;
    out.extend_from_slice(digits.as_bytes())?;
    out.push(b'\n')?;
    Ok(())
}

/// Adds the line of the board.
fn add_board(out: &mut Vec<u8>, alloc: Global, unique: UniqueId) -> Result<(), AllocError>
    ensures { OnOk result (out.new.items ≡ out.old.items
        ++ (codes "board " ++ encode_upper unique ++ 10 ∷ [])) }
{
    out.extend_from_slice(b"board ")?;
    let digits = hex::encode_upper(alloc, unique.as_bytes())?;
    out.extend_from_slice(digits.as_bytes())?;
    out.push(b'\n')?;
    Ok(())
}

/// Adds the lines of the device and of its board, where the journal names them.
pub fn add_device(out: &mut Vec<u8>, alloc: Global, journal: &Journal) -> Result<(), AllocError>
    ensures { OnOk result (out.new.items ≡ out.old.items ++ logged_device journal.now.state) }
{
    if let Some(id) = journal.id() {
        add_id(out, alloc, id)?;
    }
    match journal.unique() {
        Some(unique) => add_board(out, alloc, unique),
        None => Ok(()),
    }
}

/// Adds what can be done next.
pub fn add_end(out: &mut Vec<u8>, alloc: Global, journal: &Journal) -> Result<(), AllocError>
    ensures { OnOk result (out.new.items ≡ out.old.items ++ end_text journal.now.state) }
{
    if journal.is_unfinished() {
        return out.extend_from_slice(b"unfinished, undo first\n");
    }
    add_number(out, alloc, b"", journal.depth() as usize)?;
    out.extend_from_slice(b" can be undone\n")
}

/// Adds the line of segment `k`, where there is one, and what is said of its beginning.
fn add_noted_segment(
    out: &mut Vec<u8>,
    alloc: Global,
    journal: &Journal,
    begun: &Begun,
    k: u32,
) -> Result<(), AllocError>
    ensures { OnOk result (out.new.items
        ≡ out.old.items ++ noted_line begun.now.notes.items journal.now.state k) }
{
    add_segment(out, alloc, journal, k)?;
    begun.add_text(out, k)
}

/// What a journal says: the device and its board, a line for each segment, the oldest first, and behind
/// it what is said of its beginning; then what can be done next.
pub fn log_lines(alloc: Global, journal: &Journal, begun: &Begun) -> Result<Vec<u8>, AllocError>
    ensures { IfOk result
        (λ text. text.items ≡ log_text begun.now.notes.items journal.now.state) }
{
    let mut out = Vec::new(alloc);
    add_device(&mut out, alloc, journal)?;
    for k in 0..journal.depth() {
        add_noted_segment(&mut out, alloc, journal, begun, k + 1)?;
    }
    add_end(&mut out, alloc, journal)?;
    Ok(out)
}
