// A chip with as many pages as its device has.
ghost use Rattle.std.specs.Prelude.{◌≡◌, ◌*◌};
ghost use Rattle.stm_wire.specs.Chip.{IsChip};
ghost use Rattle.stm_wire.specs.Cut.{pages_within, first_pages, cut_to, EndInside};

use crate::Chip;
use crate::chip::size_of;

/// How many of these pages, from the first on, lie wholly inside so many bytes.
fn pages_within(sizes: &[u32], bytes: u64) -> usize
    ensures { result ≡ pages_within sizes.now bytes }
{
    let mut within = 0;
    let mut left = bytes;
    for size in sizes {
        if u64::from(*size) > left {
            return within;
        }
        left -= u64::from(*size);
        within += 1;
    }
    within
}

/// The first of these pages, so many, and all of them where that is none.
fn first_pages(sizes: Vec<u32>, count: usize) -> Vec<u32>
    ensures { result.items ≡ first_pages count sizes.items }
{
    let mut first = sizes;
    if count > 0 {
        first.truncate(count);
    }
    first
}

impl Chip {
    /// The chip with the pages that lie wholly inside so many KiB of its flash, from the first on:
    /// that of a device which tells this size. Where no page lies inside, and where the size is
    /// larger than its flash, it stays as it is.
    pub fn cut(self, kib: u32) -> Chip
        ensures pages { result ≡ cut_to kib self }
        ensures inside { EndInside self (kib * 1024) }
        ensures limits { IsChip result }
    {
        let within = pages_within(&self.sizes, u64::from(kib) * 1024);
        let sizes = first_pages(self.sizes, within);
        let total = size_of(&sizes);
        Chip {
            sizes,
            total,
            ..self
        }
    }
}
