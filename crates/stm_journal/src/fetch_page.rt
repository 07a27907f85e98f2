// The bytes of a kept page, read from the journal.
ghost use Rattle.std.specs.Prelude.{◌≡◌, ◌+◌, ◌*◌, ◌<◌, ◌≤◌, true, length, take, drop, List, ℕ, Ok};
ghost use Rattle.std.specs.Prelude.{Some, IfOk, IfErr, OnOk};
ghost use Rattle.std.specs.List.{list_all};
ghost use Rattle.hex.specs.Hex.{decode_sized, encode_upper};
ghost use Rattle.stm_wire.specs.Dialogue.{GoesOn};
ghost use Rattle.stm_journal.specs.Entries.{is_upper_digit, hex_bytes_of};
ghost use Rattle.stm_journal.specs.KeptPlaces.{IsPlaceIn};
ghost use Rattle.stm_journal.specs.Places.{cut};
ghost use Rattle.stm_journal.specs.Journals.{IsLoaded};
ghost use Rattle.stm_journal.specs.PageFetching.{Brings, FillsFrom, FetchesBytes, SaysAt};
ghost use Rattle.stm_journal.specs.Calls.{HasJournalCause, AreFetches, IsFetchAnswer, FetchesPage};

use crate::line::decode_upper;
use crate::load::fetch;
use crate::{Journal, JournalFault, PagePlace};
use stm_wire::Rig;

/// How many bytes are read at once, two digits each.
const PIECE: usize = 256;

/// Reads bytes of the journal until the buffer is full, and answers whether it is. A fetch may
/// bring fewer bytes than asked for, one at the least, and none only where the journal ends.
fn fill<R: Rig>(rig: &mut R, at: u64, buf: &mut [u8]) -> Result<bool, JournalFault>
    ensures answers { IfErr result (λ e. e ≡ JournalFault.File) }
    ensures cause { HasJournalCause (R.view rig.old) (R.view rig.new) result }
    ensures calls { GoesOn AreFetches (R.view rig.old).calls (R.view rig.new).calls }
    ensures told { IfOk result (λ full. full ≡ true
        → Brings buf.new (R.view rig.old).told (R.view rig.new).told) }
    ensures honest { let old = R.view rig.old in let new = R.view rig.new in
        old.is_honest → at + length buf.old ≤ length old.journal
        → FillsFrom at buf.old buf.new old new result }
{
    let mut done = 0usize;
    while done < buf.len() {
        let n = fetch(rig, at.saturating_add(done as u64), &mut buf[done..])?;
        if n == 0 {
            return Ok(false);
        }
        done += n;
    }
    Ok(true)
}

/// Reads the digits of a few bytes of a page, from a place on.
fn fetch_piece<R: Rig>(rig: &mut R, at: u64, line: u64, out: &mut [u8]) -> Result<(), JournalFault>
    requires { length out.old ≤ 256 }
    ensures answers { IfErr result (IsFetchAnswer line) }
    ensures cause { HasJournalCause (R.view rig.old) (R.view rig.new) result }
    ensures calls { GoesOn AreFetches (R.view rig.old).calls (R.view rig.new).calls }
    ensures told { OnOk result
        (Brings (encode_upper out.new) (R.view rig.old).told (R.view rig.new).told) }
    ensures honest { let old = R.view rig.old in let new = R.view rig.new in
        old.is_honest → (bytes : List ℕ) → length bytes ≡ length out.old
        → SaysAt at bytes old.journal → FetchesBytes bytes out.new old new result }
{
    let mut digits = [0u8; 2 * PIECE];
    let size = 2 * out.len();
    let is_full = fill(rig, at, &mut digits[..size])?;
    if is_full && decode_upper(&digits[..size], out) {
        return Ok(());
    }
    Err(JournalFault::Bad(line))
}

/// Reads the digits of a page, piece by piece.
fn fetch_digits<R: Rig>(rig: &mut R, place: PagePlace, buf: &mut [u8]) -> Result<(), JournalFault>
    requires { length buf.old ≡ place.length }
    ensures answers { IfErr result (IsFetchAnswer place.line) }
    ensures cause { HasJournalCause (R.view rig.old) (R.view rig.new) result }
    ensures calls { GoesOn AreFetches (R.view rig.old).calls (R.view rig.new).calls }
    ensures told { OnOk result
        (Brings (encode_upper buf.new) (R.view rig.old).told (R.view rig.new).told) }
    ensures honest { (R.view rig.old).is_honest → (page : List ℕ) → length page ≡ place.length
        → place.at + 2 * place.length ≤ length (R.view rig.old).journal
        → hex_bytes_of (cut place.at (2 * place.length) (R.view rig.old).journal) ≡ Some page
        → FetchesBytes page buf.new (R.view rig.old) (R.view rig.new) result }
{
    let mut done = 0usize;
    while done < buf.len() {
        let count = PIECE.min(buf.len() - done);
        let behind = (done as u64).saturating_add(done as u64);
        let at = place.at.saturating_add(behind);
        fetch_piece(rig, at, place.line, &mut buf[done..done + count])?;
        done += count;
    }
    Ok(())
}

impl Journal {
    /// Reads the bytes of a kept page, whose place came from `page` or `kept_place`,
    /// into a buffer of its length.
    ///
    /// The digits are read in pieces of at most 512, and decoded; no memory is taken. On any Rig it
    /// answers Ok only where what the fetches brought is just the bytes' digits, upper-case and two
    /// a byte. `File` comes only where the Rig's count of journal failures rose. `Bad` with the
    /// page's line says that no such digits stand there any more, which never happens on an honest
    /// Rig. Nothing is added; after a fault the buffer may hold anything.
    pub fn fetch_page<R: Rig>(
        &self,
        rig: &mut R,
        place: PagePlace,
        buf: &mut [u8],
    ) -> Result<(), JournalFault>
        requires kept { IsPlaceIn self.now.state place }
        requires whole { length buf.old ≡ place.length }
        ensures answers { IfErr result (IsFetchAnswer place.line) }
        ensures cause { HasJournalCause (R.view rig.old) (R.view rig.new) result }
        ensures calls { GoesOn AreFetches (R.view rig.old).calls (R.view rig.new).calls }
        ensures told { OnOk result
            (Brings (encode_upper buf.new) (R.view rig.old).told (R.view rig.new).told) }
        ensures honest { (R.view rig.old).is_honest → IsLoaded self.now (R.view rig.old).journal
            → FetchesPage place buf.new (R.view rig.old) (R.view rig.new) result }
    {
        fetch_digits(rig, place, buf)
    }
}
