// What a command makes of one page.
ghost use Rattle.std.specs.Prelude.{◌≡◌, ◌==◌, ◌<◌, List, ℕ, length, IfOk, vec_len, true, false};
ghost use Rattle.std.specs.List.{list_any};
ghost use Rattle.stm_wire.specs.Chip.{page_count, page_size};
ghost use Rattle.stm_session.specs.Contents.{content, MayTouch};

use crate::change::Change;
use std::alloc::{AllocError, Global};
use stm_image::{laying_by_parts, laying_keeps_places};
use stm_wire::Chip;

/// Whether this page is one of these.
fn names(pages: &[u16], n: u16) -> bool
    ensures { result ≡ list_any (λ m. m == n) pages.now }
{
    pages.iter().any(|page| *page == n)
}

/// Whether the command is for page `n`; any other page it leaves as it is.
pub fn touches(change: &Change<'_>, chip: &Chip, n: u16) -> bool
    requires exists { n < page_count chip.now }
    ensures may { result ≡ true → MayTouch chip.now change.now n }
    ensures same { result ≡ false → (held : List ℕ) → length held ≡ page_size chip.now n
        → content chip.now change.now n held ≡ held }
{
    laying_keeps_places();
    match change {
        Change::Write(image) => {
            let start = chip.page_start(n);
            let size = chip.page_size(n);
            match image.next_from(start) {
                Some((address, _byte)) => address - start < size,
                None => false,
            }
        }
        Change::Erase(pages) => names(pages, n),
    }
}

/// What page `n`, which the command is for, is to hold, where it holds these bytes.
pub fn content(
    alloc: Global,
    change: &Change<'_>,
    chip: &Chip,
    n: u16,
    held: &[u8],
) -> Result<Vec<u8>, AllocError>
    requires exists { n < page_count chip.now }
    requires held { length held.now ≡ page_size chip.now n }
    requires may { MayTouch chip.now change.now n }
    ensures bytes { IfOk result (λ bytes. bytes.items ≡ content chip.now change.now n held.now) }
    ensures size { IfOk result (λ bytes. vec_len bytes ≡ page_size chip.now n) }
{
    chip.keeps_limits();
    laying_by_parts();
    let start = chip.page_start(n);
    match change {
        Change::Write(image) => {
            let mut page = Vec::from_slice(alloc, held)?;
            image.lay(start, &mut page);
            Ok(page)
        }
        Change::Erase(_pages) => {
            let size = chip.page_size(n);
            let page = Vec::from_elem(alloc, chip.erased(), size as usize)?;
            Ok(page)
        }
    }
}
