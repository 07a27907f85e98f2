// Kept pages whose digits don't agree with the CRC that stands behind them.
ghost use Rattle.std.specs.Prelude.{◌≡◌, ℕ, ◌≤◌, ◌==◌, List, Some, IfOk, IfErr, true, false, drop, length, take};
ghost use Rattle.std.specs.List.{list_all};
ghost use Rattle.stm_wire.specs.Rig.{StaysHonest};
ghost use Rattle.stm_journal.specs.Entries.{is_upper_digit};
ghost use Rattle.stm_journal.specs.declared.kept.Kept.{Kept};
ghost use Rattle.stm_journal.specs.KeptPlaces.{IsPlaceIn, kept_entry, place_of};
ghost use Rattle.stm_journal.specs.States.{StateData, depth};
ghost use Rattle.stm_files.specs.Checking.{IsCheckFault, IsTied};
ghost use Rattle.stm_files.specs.Damage.{FindsDamage, FindsIn, IsReadFault, TellsWhether, are_digits, is_sum};

use crate::checking::{fetch, sum_at};
use crate::page_seal::{SEAL, sum_line};
use std::alloc::Global;
use stm_journal::{Journal, JournalFault, PagePlace};
use stm_wire::Rig;

/// A kept page whose digits aren't those that were kept.
#[derive(Clone, Copy, Debug, PartialEq, Eq)]
pub struct Damage {
    /// The page's number.
    pub page: u16,
    /// The number of the segment that keeps it.
    pub segment: u32,
}

/// Whether a byte is a digit of a CRC.
fn is_digit(c: u8) -> bool
    ensures { result ≡ is_upper_digit c }
{
    (48 <= c && c <= 57) || (65 <= c && c <= 70)
}

/// Whether all of them are.
fn are_all_digits(bytes: &[u8]) -> bool
    ensures { result ≡ list_all is_upper_digit bytes.now }
{
    bytes.iter().all(|c| is_digit(*c))
}

/// Whether these are the digits of a CRC.
fn are_digits(digits: &[u8]) -> bool
    ensures { result ≡ are_digits (Some digits.now) }
{
    digits.len() == 8 && are_all_digits(digits)
}

/// Whether a line says a CRC.
pub fn is_sum(line: &[u8]) -> bool
    ensures { result ≡ is_sum line.now }
{
    match line.strip_prefix(b"crc ") {
        Some(rest) => match rest.strip_suffix(b"!\n") {
            Some(digits) => are_digits(digits),
            None => false,
        },
        None => false,
    }
}

/// Reads what stands behind a page, byte by byte, as far as the line of a CRC would.
fn read_behind<L: Rig>(alloc: Global, rig: &mut L, at: u64) -> Result<Vec<u8>, JournalFault>
    ensures fault { IfErr result IsReadFault }
    ensures honest { let old = L.view rig.old in let new = L.view rig.new in
        old.is_honest → IfOk result (λ line. StaysHonest old new
        × (line.items ≡ take 14 (drop at old.journal))) }
{
    let mut line = Vec::new(alloc);
    for i in 0..SEAL {
        let mut byte = [0u8];
        if fetch(rig, at.saturating_add(i), &mut byte)? == 0 {
            return Ok(line);
        }
        line.extend_from_slice(&byte)?;
    }
    Ok(line)
}

/// Whether a page is right, whose digits stand at this place of the journal: behind it stands no CRC,
/// or that of its bytes.
fn agrees<L: Rig>(
    alloc: Global,
    rig: &mut L,
    journal: &Journal,
    place: PagePlace,
) -> Result<bool, JournalFault>
    requires { IsPlaceIn journal.now.state place }
    ensures honest { (bytes : List ℕ) (s : StateData)
        → IsTied bytes s journal.now (L.view rig.old)
        → IfOk result (λ is_right. IsTied bytes s journal.now (L.view rig.new)
        × ((k i : ℕ) (kept : Kept) → kept_entry s k i ≡ Some kept → place_of kept ≡ place
        → TellsWhether bytes kept is_right)) }
    ensures faults { (bytes : List ℕ) (s : StateData)
        → IsTied bytes s journal.now (L.view rig.old) → IfErr result (IsCheckFault bytes) }
{
    let sum = sum_at(alloc, rig, journal, place)?;
    let size = place.length.saturating_mul(2);
    let line = read_behind(alloc, rig, place.at.saturating_add(size).saturating_add(1))?;
    if !is_sum(&line) {
        return Ok(true);
    }
    let right = sum_line(alloc, sum)?;
    Ok(line.as_slice() == right.as_slice())
}

/// The first page of segment `k` that isn't right.
fn find_in<L: Rig>(
    alloc: Global,
    rig: &mut L,
    journal: &Journal,
    k: u32,
) -> Result<Option<Damage>, JournalFault>
    ensures honest { (bytes : List ℕ) (s : StateData)
        → IsTied bytes s journal.now (L.view rig.old)
        → IfOk result (λ found. IsTied bytes s journal.now (L.view rig.new)
        × FindsIn bytes s k found) }
    ensures faults { (bytes : List ℕ) (s : StateData)
        → IsTied bytes s journal.now (L.view rig.old) → IfErr result (IsCheckFault bytes) }
{
    for i in 0..journal.kept_count(k) {
        let Some((page, _)) = journal.kept(k, i) else {
            unreachable!()
        };
        let Some(place) = journal.kept_place(k, i) else {
            unreachable!()
        };
        if !agrees(alloc, rig, journal, place)? {
            return Ok(Some(Damage { page, segment: k }));
        }
    }
    Ok(None)
}

/// The first page that isn't right of so many of the newest segments, the newest first. Of an honest
/// Rig: where none is found, each page of these has the CRC that stands behind it, if one does; and
/// what is found has another.
pub fn find_damage<L: Rig>(
    alloc: Global,
    rig: &mut L,
    journal: &Journal,
    taken: u32,
) -> Result<Option<Damage>, JournalFault>
    requires { taken ≤ length journal.now.state.stack }
    ensures honest { (bytes : List ℕ) (s : StateData)
        → IsTied bytes s journal.now (L.view rig.old)
        → IfOk result (λ found. FindsDamage bytes s taken found) }
    ensures faults { (bytes : List ℕ) (s : StateData)
        → IsTied bytes s journal.now (L.view rig.old) → IfErr result (IsCheckFault bytes) }
{
    let depth = journal.depth();
    for newer in 0..taken {
        let found = find_in(alloc, rig, journal, depth - newer)?;
        if found.is_some() {
            return Ok(found);
        }
    }
    Ok(None)
}
