//! A part of an image.
ghost use Rattle.std.specs.Prelude.{◌≡◌, ℕ, [], ◌<◌, ◌≤◌, ◌+◌, ◌^◌, Contains, IfOk, OnOk};
ghost use Rattle.stm_image.specs.Part.{IsWithPart};
ghost use Rattle.stm_image.specs.Pieces.{AllStand, Apart, next_apart, pairs_in};

use crate::Image;
use crate::pieces::Pieces;
use std::alloc::{AllocError, Global};

impl Image {
    /// The image of no place.
    pub fn empty(alloc: Global) -> Image
        ensures { result ≡ [] }
    {
        Image::from_runs(Pieces::new(alloc))
    }

    /// The same, and what another image has in so many places from an address on, which stand
    /// behind all of its own.
    pub fn with_part(self, other: &Image, start: u32, size: u32) -> Result<Image, AllocError>
        requires behind { (p : ℕ × ℕ) → Contains self p → p.0 < start }
        requires fits { start + size ≤ 2 ^ 32 }
        ensures { IfOk result (IsWithPart self other.now start size) }
    {
        let mut runs = self.runs;
        add_part(&mut runs, other, start, size)?;
        Ok(Image::from_runs(runs))
    }
}

// Adds what an image has in so many places from an address on.
fn add_part(runs: &mut Pieces, image: &Image, start: u32, size: u32) -> Result<(), AllocError>
    requires stand { AllStand runs.old }
    requires apart { Apart 0 runs.old.list.items }
    requires behind { next_apart 0 runs.old.list.items ≤ start + 1 }
    requires fits { start + size ≤ 2 ^ 32 }
    ensures stand { OnOk result (AllStand runs.new) }
    ensures apart { OnOk result (Apart 0 runs.new.list.items) }
    ensures part { OnOk result (IsWithPart (pairs_in runs.old) image.now start size
        (pairs_in runs.new)) }
{
    image.rises();
    let end = u64::from(start) + u64::from(size);
    let mut at = u64::from(start);
    'runs: while at < end {
        match image.run_from(at as u32) {
            None => return Ok(()),
            Some((first, held)) => {
                if end <= u64::from(first) {
                    return Ok(());
                }
                let room = (end - u64::from(first)) as usize;
                let (here, _behind) = held.split_at(held.len().min(room));
                runs.add(first, here)?;
                at = u64::from(first) + here.len() as u64;
            }
        }
    }
    Ok(())
}
