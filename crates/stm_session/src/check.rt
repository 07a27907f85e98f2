// What is checked before the first command is done.
ghost use Rattle.std.specs.Prelude.{◌≡◌, ◌<◌, ◌++◌, None, Some, MatchResult};
ghost use Rattle.stm_wire.specs.Chip.{page_count};
ghost use Rattle.stm_journal.specs.States.{IsSound, names_other_board};
ghost use Rattle.stm_session.specs.Refusal.{segment_pages, first_of, fits_as_kept, header_misfits};
ghost use Rattle.stm_session.specs.Refusal.{lacks_companion, lesser, least, least_with};
ghost use Rattle.stm_session.specs.Refusal.{line_refusal, misfit_lines, misfit_lines_of};
ghost use Rattle.stm_session.specs.Refusal.{misfit_refusal};
ghost use Rattle.stm_session.specs.Unasked.{fits_fewer, is_never_told, names_no_board, unasked_refusal};

use crate::Fault;
use stm_journal::Journal;
use stm_wire::{Chip, UniqueId};

/// How many pages the chip has, of its first `most`.
fn pages_of(chip: &Chip, most: u16) -> u16
    ensures { result ≡ page_count (first_of most chip.now) }
{
    chip.pages().min(most)
}

/// Whether segment `k` lacks page 257, which has to be kept with page `n`: where that is page
/// 1 and the chip has both among its first `most`.
fn lacks_companion(journal: &Journal, chip: &Chip, most: u16, k: u32, n: u16) -> bool
    ensures { result
        ≡ lacks_companion (first_of most chip.now) (segment_pages journal.now.state k) n }
{
    if n != 1 || pages_of(chip, most) <= 257 {
        return false;
    }
    match journal.page(k, 257) {
        Some(_) => false,
        None => true,
    }
}

/// Whether the chip has page `n` among its first `most`, in the size in which segment `k` keeps it,
/// and what has to be kept with it is.
fn fits(journal: &Journal, chip: &Chip, most: u16, k: u32, n: u16) -> bool
    ensures value { result
        ≡ fits_as_kept (first_of most chip.now) (segment_pages journal.now.state k) n }
    // A page number has 16 bits, so that a segment, which keeps a page once, has no more pages
    // than an index can count.
    ensures number { n < 65536 }
{
    if n >= pages_of(chip, most) {
        return false;
    }
    match journal.page(k, n) {
        Some(place) => {
            let alone = lacks_companion(journal, chip, most, k, n);
            let size = u64::from(chip.page_size(n));
            place.length == size && !alone
        }
        None => false,
    }
}

/// The lesser of a line and the least so far.
fn lesser(so_far: Option<u64>, line: u64) -> u64
    ensures { result ≡ lesser so_far line }
{
    match so_far {
        Some(least) => least.min(line),
        None => line,
    }
}

/// The least line of segment `k` that keeps a page which the chip hasn't among its first `most`, or
/// has in another size, or the least so far.
fn misfit_line_of(
    journal: &Journal,
    chip: &Chip,
    most: u16,
    k: u32,
    so_far: Option<u64>,
) -> Option<u64>
    requires { IsSound journal.now.state }
    ensures { let pages = segment_pages journal.now.state k in
        result ≡ least_with so_far (misfit_lines_of (first_of most chip.now) pages pages) }
{
    let mut least = so_far;
    let mut i = 0;
    while let Some((n, line)) = journal.kept(k, i) {
        if !fits(journal, chip, most, k, n) {
            least = Some(lesser(least, line));
        }
        i += 1;
    }
    least
}

/// The line of the journal's header, where its version is none of a chip with so many pages, of its
/// first `most`.
fn header_misfit(journal: &Journal, chip: &Chip, most: u16) -> Option<u64>
    ensures { result ≡ least (header_misfits (first_of most chip.now) journal.now.state.header) }
{
    let (version, line) = journal.header()?;
    if pages_of(chip, most) > 256 && version < 2 {
        return Some(line);
    }
    None
}

/// The least line of the journal that can't be of the chip with its first `most` pages: that of its
/// header, or one that keeps a page which the chip hasn't, has in another size, or hasn't without
/// another.
fn misfit_line(journal: &Journal, chip: &Chip, most: u16) -> Option<u64>
    ensures { let state = journal.now.state in let first = first_of most chip.now in
        result ≡ least (header_misfits first state.header ++ misfit_lines first state.stack) }
{
    let depth = journal.depth();
    let mut least = header_misfit(journal, chip, most);
    // The newest segment has none that are newer.
    for newer in 0..depth {
        least = misfit_line_of(journal, chip, most, depth - newer, least);
    }
    least
}

/// The journal's header must be one of such a chip, and each page that the journal keeps must be one
/// of the chip, in its size.
fn check_lines(journal: &Journal, chip: &Chip) -> Result<(), Fault>
    ensures { MatchResult result
        (λ _. line_refusal chip.now journal.now.state ≡ None)
        (λ fault. line_refusal chip.now journal.now.state ≡ Some fault) }
{
    match misfit_line(journal, chip, chip.pages()) {
        None => Ok(()),
        Some(line) => Err(Fault::BadJournal(line)),
    }
}

/// Whether the journal's header names another board than the chip: a device with another unique id.
fn is_of_other_board(journal: &Journal, chip: &Chip) -> bool
    ensures { result ≡ names_other_board chip.now.unique journal.now.state }
{
    match journal.unique() {
        Some(board) => !board.is(&chip.unique()),
        None => false,
    }
}

/// The journal's header must name no other board and be one of such a chip, and each page that the
/// journal keeps must be one of the chip, in its size.
pub fn check_kept(journal: &Journal, chip: &Chip) -> Result<(), Fault>
    ensures { MatchResult result
        (λ _. misfit_refusal chip.now journal.now.state ≡ None)
        (λ fault. misfit_refusal chip.now journal.now.state ≡ Some fault) }
{
    if is_of_other_board(journal, chip) {
        return Err(Fault::OtherBoard);
    }
    check_lines(journal, chip)
}

/// Whether no such chip tells this unique id: it tells none, or one of another length.
fn is_never_told(chip: &Chip, unique: &UniqueId) -> bool
    ensures { result ≡ is_never_told chip.now unique.now }
{
    let told = match chip.places().unique {
        Some(place) => usize::from(place.length),
        None => 0,
    };
    let length = unique.as_bytes().len();
    length != 0 && length != told
}

/// Whether the journal's header names a board of no such chip.
fn names_no_board(journal: &Journal, chip: &Chip) -> bool
    ensures { result ≡ names_no_board chip.now journal.now.state }
{
    match journal.unique() {
        Some(board) => is_never_told(chip, &board),
        None => false,
    }
}

/// Whether the journal fits a board with fewer pages than the chip, where that tells how large its
/// flash is: with 257, of which page 1 has no companion, or with 256, of which a header of version 1
/// may be.
fn fits_fewer(journal: &Journal, chip: &Chip) -> bool
    ensures { result ≡ fits_fewer chip.now journal.now.state }
{
    chip.places().size.is_some()
        && (misfit_line(journal, chip, 257).is_none() || misfit_line(journal, chip, 256).is_none())
}

/// What `check_kept` refuses whatever board of the chip a device is, before that is asked.
pub fn check_unasked(journal: &Journal, chip: &Chip) -> Result<(), Fault>
    ensures { MatchResult result
        (λ _. unasked_refusal chip.now journal.now.state ≡ None)
        (λ fault. unasked_refusal chip.now journal.now.state ≡ Some fault) }
{
    if names_no_board(journal, chip) {
        return Err(Fault::OtherBoard);
    }
    if fits_fewer(journal, chip) {
        return Ok(());
    }
    check_lines(journal, chip)
}
