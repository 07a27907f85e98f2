// A journal that is read whole: its lines, and every digit of the pages that it keeps.
ghost use Rattle.std.specs.Prelude.{◌≡◌, ℕ, ◌<◌, ◌≤◌, ◌-◌, ◌^◌, ◌++◌, ◌∷◌, [], List, length};
ghost use Rattle.std.specs.Prelude.{IfErr, IfOk, OnOk, Some};
ghost use Rattle.std.specs.Int.{to_be_bytes, w32};
ghost use Rattle.std.specs.List.{flat_map, range_with_len};
ghost use Rattle.hex.specs.Hex.{encode_upper};
ghost use Rattle.stm_wire.specs.Rig.{StaysHonest};
ghost use Rattle.stm_journal.specs.declared.kept.Kept.{Kept};
ghost use Rattle.stm_journal.specs.KeptPlaces.{IsPlaceIn, kept_entry, place_of};
ghost use Rattle.stm_journal.specs.States.{StateData, depth};
ghost use Rattle.stm_journal.specs.InMemory.{forget_state};
ghost use Rattle.stm_files.specs.Checking.{IsCheckFault, IsTied, ReadsJournal, TellsState, page_line, page_text};
ghost use Rattle.stm_files.specs.Checking.{check_text, checked_pages, checked_segment, tally_line};
ghost use Rattle.stm_files.specs.PageSum.{page_sum};
ghost use Rattle.stm_files.specs.Tally.{IsTallyOf};

use crate::logging::{add_device, add_end, add_number, add_segment};
use crate::page_sum::page_sum;
use crate::tally::Tally;
use std::alloc::{AllocError, Global};
use stm_journal::{Journal, JournalFault, PagePlace};
use stm_wire::Rig;

/// How many bytes are read at once.
const BUFFER: usize = 512;

/// Reads bytes of the journal from a place on, and answers how many.
pub fn fetch<L: Rig>(rig: &mut L, at: u64, buf: &mut [u8]) -> Result<usize, JournalFault>
    ensures within { IfOk result (λ n. n ≤ length buf.old) }
    ensures last { 2 ^ 63 - 1 ≤ at → IfOk result (λ n. n ≡ 0) }
    ensures fault { IfErr result (λ e. e ≡ JournalFault.File) }
    ensures honest { let old = L.view rig.old in let new = L.view rig.new in
        old.is_honest → IfOk result (λ n. ReadsJournal at buf.old buf.new n old new) }
{
    match rig.fetch(at, buf) {
        Ok(n) => Ok(n),
        Err(_) => Err(JournalFault::File),
    }
}

/// Reads all bytes of the journal through a buffer, and counts its lines.
fn count_by<L: Rig>(rig: &mut L, buf: &mut [u8]) -> Result<Tally, JournalFault>
    requires { 0 < length buf.old }
    ensures fault { IfErr result (λ e. e ≡ JournalFault.File) }
    ensures honest { let old = L.view rig.old in let new = L.view rig.new in
        old.is_honest → IfOk result (λ tally. StaysHonest old new × IsTallyOf old.journal tally) }
{
    let mut tally = Tally::new();
    let mut at = 0u64;
    loop {
        let n = fetch(rig, at, buf)?;
        if n == 0 {
            return Ok(tally);
        }
        tally = tally.with(&buf[..n]);
        at = at.saturating_add(n as u64);
    }
}

/// Reads all bytes of the journal, and counts its lines.
fn count_lines<L: Rig>(rig: &mut L) -> Result<Tally, JournalFault>
    ensures fault { IfErr result (λ e. e ≡ JournalFault.File) }
    ensures honest { let old = L.view rig.old in let new = L.view rig.new in
        old.is_honest → IfOk result (λ tally. StaysHonest old new × IsTallyOf old.journal tally) }
{
    let mut buf = [0u8; BUFFER];
    count_by(rig, &mut buf)
}

/// The CRC of a kept page, whose digits stand at this place of the journal.
pub fn sum_at<L: Rig>(
    alloc: Global,
    rig: &mut L,
    journal: &Journal,
    place: PagePlace,
) -> Result<u32, JournalFault>
    requires { IsPlaceIn journal.now.state place }
    ensures honest { (bytes : List ℕ) (s : StateData)
        → IsTied bytes s journal.now (L.view rig.old)
        → IfOk result (λ sum. IsTied bytes s journal.now (L.view rig.new)
        × ((k i : ℕ) (kept : Kept) → kept_entry s k i ≡ Some kept → place_of kept ≡ place
        → sum ≡ page_sum kept.bytes)) }
    ensures faults { (bytes : List ℕ) (s : StateData)
        → IsTied bytes s journal.now (L.view rig.old) → IfErr result (IsCheckFault bytes) }
{
    let mut page = Vec::from_elem(alloc, 0, place.length as usize)?;
    journal.fetch_page(rig, place, &mut page)?;
    Ok(page_sum(&page))
}

/// Adds the digits of a CRC.
fn add_sum(out: &mut Vec<u8>, alloc: Global, sum: u32) -> Result<(), AllocError>
    ensures { OnOk result (out.new.items ≡ out.old.items ++ encode_upper (to_be_bytes w32 sum)) }
{
    let digits = hex::encode_upper(alloc, &sum.to_be_bytes())?;
    out.extend_from_slice(digits.as_bytes())
}

/// Adds the line of a page.
fn add_line(
    out: &mut Vec<u8>,
    alloc: Global,
    page: u16,
    place: PagePlace,
    sum: u32,
) -> Result<(), AllocError>
    ensures { OnOk result (out.new.items
        ≡ out.old.items ++ page_line page place.line place.length sum) }
{
    add_number(out, alloc, b"page ", usize::from(page))?;
    add_number(out, alloc, b", line ", place.line as usize)?;
    add_number(out, alloc, b", ", place.length as usize)?;
    out.extend_from_slice(b" bytes, crc ")?;
    add_sum(out, alloc, sum)?;
    out.push(b'\n')?;
    Ok(())
}

/// Adds the line of the i-th page of segment `k`, where there is one.
fn add_page<L: Rig>(
    out: &mut Vec<u8>,
    alloc: Global,
    rig: &mut L,
    journal: &Journal,
    k: u32,
    i: usize,
) -> Result<(), JournalFault>
    ensures honest { (bytes : List ℕ) (s : StateData)
        → IsTied bytes s journal.now (L.view rig.old)
        → OnOk result (IsTied bytes s journal.now (L.view rig.new)
        × (out.new.items ≡ out.old.items ++ page_text s k i)) }
    ensures faults { (bytes : List ℕ) (s : StateData)
        → IsTied bytes s journal.now (L.view rig.old) → IfErr result (IsCheckFault bytes) }
{
    let Some((page, _)) = journal.kept(k, i) else {
        return Ok(());
    };
    let Some(place) = journal.kept_place(k, i) else {
        return Ok(());
    };
    let sum = sum_at(alloc, rig, journal, place)?;
    add_line(out, alloc, page, place, sum)?;
    Ok(())
}

/// Adds the lines of the pages that segment `k` keeps.
fn add_pages<L: Rig>(
    out: &mut Vec<u8>,
    alloc: Global,
    rig: &mut L,
    journal: &Journal,
    k: u32,
) -> Result<(), JournalFault>
    ensures honest { (bytes : List ℕ) (s : StateData)
        → IsTied bytes s journal.now (L.view rig.old)
        → OnOk result (IsTied bytes s journal.now (L.view rig.new)
        × (out.new.items ≡ out.old.items ++ checked_pages s k)) }
    ensures faults { (bytes : List ℕ) (s : StateData)
        → IsTied bytes s journal.now (L.view rig.old) → IfErr result (IsCheckFault bytes) }
{
    for i in 0..journal.kept_count(k) {
        add_page(out, alloc, rig, journal, k, i)?;
    }
    Ok(())
}

/// Adds the line of segment `k`, and those of its pages.
fn add_whole_segment<L: Rig>(
    out: &mut Vec<u8>,
    alloc: Global,
    rig: &mut L,
    journal: &Journal,
    k: u32,
) -> Result<(), JournalFault>
    ensures honest { (bytes : List ℕ) (s : StateData)
        → IsTied bytes s journal.now (L.view rig.old)
        → OnOk result (IsTied bytes s journal.now (L.view rig.new)
        × (out.new.items ≡ out.old.items ++ checked_segment s k)) }
    ensures faults { (bytes : List ℕ) (s : StateData)
        → IsTied bytes s journal.now (L.view rig.old) → IfErr result (IsCheckFault bytes) }
{
    add_segment(out, alloc, journal, k)?;
    add_pages(out, alloc, rig, journal, k)
}

/// Adds the lines of all segments, the oldest first, and of their pages.
fn add_segments<L: Rig>(
    out: &mut Vec<u8>,
    alloc: Global,
    rig: &mut L,
    journal: &Journal,
) -> Result<(), JournalFault>
    ensures honest { (bytes : List ℕ) (s : StateData)
        → IsTied bytes s journal.now (L.view rig.old)
        → OnOk result (IsTied bytes s journal.now (L.view rig.new)
        × (out.new.items ≡ out.old.items
        ++ flat_map (checked_segment s) (range_with_len 1 (depth (forget_state s))))) }
    ensures faults { (bytes : List ℕ) (s : StateData)
        → IsTied bytes s journal.now (L.view rig.old) → IfErr result (IsCheckFault bytes) }
{
    for k in 0..journal.depth() {
        add_whole_segment(out, alloc, rig, journal, k + 1)?;
    }
    Ok(())
}

/// Adds the line of a text's lines.
fn add_tally(out: &mut Vec<u8>, alloc: Global, tally: Tally) -> Result<(), AllocError>
    ensures { OnOk result (out.new.items
        ≡ out.old.items ++ tally_line tally.lines tally.voids tally.tail) }
{
    add_number(out, alloc, b"", tally.lines as usize)?;
    add_number(out, alloc, b" lines, ", tally.voids as usize)?;
    add_number(out, alloc, b" of them void, ", tally.tail as usize)?;
    out.extend_from_slice(b" bytes behind them\n")
}

/// What a journal says that was read, and of what it is made.
fn check_lines<L: Rig>(
    alloc: Global,
    rig: &mut L,
    journal: &Journal,
    tally: Tally,
) -> Result<Vec<u8>, JournalFault>
    ensures honest { (bytes : List ℕ) (s : StateData)
        → IsTied bytes s journal.now (L.view rig.old) → IsTallyOf bytes tally
        → IfOk result (λ text. text.items ≡ check_text bytes s) }
    ensures faults { (bytes : List ℕ) (s : StateData)
        → IsTied bytes s journal.now (L.view rig.old) → IfErr result (IsCheckFault bytes) }
{
    let mut out = Vec::new(alloc);
    add_device(&mut out, alloc, journal)?;
    add_segments(&mut out, alloc, rig, journal)?;
    add_tally(&mut out, alloc, tally)?;
    add_end(&mut out, alloc, journal)?;
    Ok(out)
}

/// Reads the journal of a Rig whole, and answers what `log` tells, each kept page with the number
/// of its line and its CRC, and how many lines there are. Of an honest Rig the answer is a function
/// of the journal's bytes, and `Bad` comes with the number of their first bad line.
pub fn check_journal<L: Rig>(alloc: Global, rig: &mut L) -> Result<Vec<u8>, JournalFault>
    ensures honest { let old = L.view rig.old in
        old.is_honest → IfOk result (λ text. TellsState old.journal text.items) }
    ensures faults { let old = L.view rig.old in
        old.is_honest → IfErr result (IsCheckFault old.journal) }
{
    let tally = count_lines(rig)?;
    let journal = Journal::load(alloc, rig)?;
    check_lines(alloc, rig, &journal, tally)
}
