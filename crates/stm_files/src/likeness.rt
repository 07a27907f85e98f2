// Whether a journal is another one without its oldest segments.
ghost use Rattle.std.specs.Prelude.{◌≡◌, ◌+◌, ◌-◌, ◌≤◌, true, length, map, option_map};
ghost use Rattle.stm_journal.specs.States.{segment_of};
ghost use Rattle.stm_journal.specs.KeptPlaces.{kept_entry};
ghost use Rattle.stm_files.specs.Cutting.{IsCut, outline, page_outline, header_outline};

use crate::cut_text::{fetch_some, piece_of};
use crate::file_fault::FileFault;
use crate::journal_rig::Source;
use stm_journal::{Journal, PagePlace};
use stm_wire::UniqueId;

/// Whether the i-th page of one journal's segment `k` and of another's segment `j` have one number,
/// and as many bytes.
fn is_same_page(old: &Journal, k: u32, new: &Journal, j: u32, i: usize) -> bool
    ensures { result ≡ true → option_map page_outline (kept_entry old.now.state k i)
        ≡ option_map page_outline (kept_entry new.now.state j i) }
{
    let (Some((page, _)), Some((other, _))) = (old.kept(k, i), new.kept(j, i)) else {
        return false;
    };
    let (Some(place), Some(place_of_other)) = (old.kept_place(k, i), new.kept_place(j, i)) else {
        return false;
    };
    page == other && place.length == place_of_other.length
}

/// Whether one journal's segment `k` and another's segment `j` stand alike, and keep pages of the
/// same numbers and sizes in the same order.
fn is_same_segment(old: &Journal, k: u32, new: &Journal, j: u32) -> bool
    ensures { result ≡ true → option_map outline (segment_of old.now.state k)
        ≡ option_map outline (segment_of new.now.state j) }
{
    let (Some(stage), Some(other)) = (old.stage(k), new.stage(j)) else {
        return false;
    };
    if stage != other || old.kept_count(k) != new.kept_count(j) {
        return false;
    }
    for i in 0..old.kept_count(k) {
        if !is_same_page(old, k, new, j, i) {
            return false;
        }
    }
    true
}

/// Whether two headers name one board, or none.
fn is_same_board(one: Option<UniqueId>, other: Option<UniqueId>) -> bool
    ensures { result ≡ true → one ≡ other }
{
    match (one, other) {
        (None, None) => true,
        (Some(one), Some(other)) => one.is(&other),
        _ => false,
    }
}

/// Whether two journals name one device, in one version, and one board.
fn is_same_header(old: &Journal, new: &Journal) -> bool
    ensures { result ≡ true → header_outline old.now.state.header
        ≡ header_outline new.now.state.header }
{
    let (Some((version, _)), Some((other, _))) = (old.header(), new.header()) else {
        return old.header().is_none() && new.header().is_none();
    };
    let (Some(id), Some(other_id)) = (old.id(), new.id()) else {
        return false;
    };
    version == other && id == other_id && is_same_board(old.unique(), new.unique())
}

/// Whether a journal has the header of another one, and of its segments all but so many, the oldest.
pub fn is_cut(old: &Journal, new: &Journal, given_up: u32) -> bool
    ensures { result ≡ true → IsCut given_up old.now.state new.now.state }
{
    if !is_same_header(old, new) || given_up > old.depth() {
        return false;
    }
    if new.depth() != old.depth() - given_up {
        return false;
    }
    for k in 0..new.depth() {
        if !is_same_segment(old, k + given_up + 1, new, k + 1) {
            return false;
        }
    }
    true
}

/// Whether the digits of a page of one journal are those of a page of another one.
fn has_same_digits<'a, S: Source, T: Source>(
    source: &mut S,
    place: PagePlace,
    other: &mut T,
    place_of_other: PagePlace,
    name: &'a str,
) -> Result<bool, FileFault<'a>> {
    if place.length != place_of_other.length {
        return Ok(false);
    }
    let mut one = [0u8; 4096];
    let mut two = [0u8; 4096];
    let size = place.length.saturating_mul(2);
    let mut done = 0u64;
    while done < size {
        let room = piece_of(size - done);
        let count = fetch_some(
            source,
            name,
            place.at.saturating_add(done),
            &mut one[..room],
        )?;
        let got = fetch_some(
            other,
            name,
            place_of_other.at.saturating_add(done),
            &mut two[..count],
        )?;
        if one[..got] != two[..got] {
            return Ok(false);
        }
        done += got as u64;
    }
    Ok(true)
}

/// Whether each page of a journal without so many of its oldest segments stands in another one with
/// the same digits.
pub fn has_same_pages<'a, S: Source, T: Source>(
    old: &Journal,
    source: &mut S,
    new: &Journal,
    other: &mut T,
    given_up: u32,
    name: &'a str,
) -> Result<bool, FileFault<'a>> {
    for k in 0..new.depth() {
        let number = k.saturating_add(1);
        for i in 0..new.kept_count(number) {
            let (Some(place), Some(place_of_other)) = (
                old.kept_place(number.saturating_add(given_up), i),
                new.kept_place(number, i),
            ) else {
                return Ok(false);
            };
            if !has_same_digits(source, place, other, place_of_other, name)? {
                return Ok(false);
            }
        }
    }
    Ok(true)
}
