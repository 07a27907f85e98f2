// How many bytes segments keep.
ghost use Rattle.std.specs.Prelude.{◌≡◌, ◌+◌, ◌≤◌, length};
ghost use Rattle.stm_journal.specs.Fits.{AllFit};
ghost use Rattle.stm_journal.specs.Journals.{capped};
ghost use Rattle.stm_journal.specs.Newest.{pages_of_segments};
ghost use Rattle.stm_session.specs.Refusal.{segment_pages};
ghost use Rattle.stm_session.specs.ReturnedBytes.{bytes_of_pages, kept_bytes};

use stm_journal::Journal;
use stm_wire::Chip;

/// So many bytes, and those of the pages that segment `k` keeps.
fn with_segment(journal: &Journal, chip: &Chip, k: u32, bytes: u64) -> u64
    requires fits { AllFit chip.now journal.now.state.stack }
    ensures { let own = bytes_of_pages chip.now (segment_pages journal.now.state k) in
        result ≡ capped (bytes + own) }
{
    let mut sum = bytes;
    let count = journal.kept_count(k);
    for i in 0..count {
        let Some((n, _)) = journal.kept(k, i) else {
            unreachable!()
        };
        sum = sum.saturating_add(u64::from(chip.page_size(n)));
    }
    sum
}

/// How many bytes the pages have that so many of the newest segments keep: those of one page in
/// each segment that keeps it.
pub fn kept_bytes(journal: &Journal, chip: &Chip, taken: u32) -> u64
    requires some { taken ≤ length journal.now.state.stack }
    requires fits { AllFit chip.now journal.now.state.stack }
    ensures { let segments = pages_of_segments journal.now.state.stack in
        result ≡ capped (kept_bytes chip.now taken segments) }
{
    let depth = journal.depth();
    let mut sum = 0;
    for newer in 0..taken {
        sum = with_segment(journal, chip, depth - newer, sum);
    }
    sum
}
