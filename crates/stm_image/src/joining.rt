//! Several images as one.
ghost use Rattle.std.specs.Prelude.{◌≡◌, ◌<◌, ◌++◌, IfErr, IfOk, MatchOption, OnOk, length};
ghost use Rattle.stm_image.specs.Joined.{AreUnlike, DifferAt, IsLikeAll, all_pairs_of};
ghost use Rattle.stm_image.specs.Pairs.{Agree, IsSetOf};
ghost use Rattle.stm_image.specs.Pieces.{AllStand, pairs_in};

use crate::layout::{first_unlike, set_of};
use crate::pieces::Pieces;
use crate::{Image, Unjoined};
use std::alloc::{AllocError, Global};

/// The image that has the bytes of each of these. Two of them that differ at an address are refused.
pub fn join(alloc: Global, images: &[Image]) -> Result<Image, Unjoined>
    ensures ok { IfOk result (λ image. IsSetOf image (all_pairs_of images.now)) }
    ensures err { IfErr result (AreUnlike images.now) }
{
    let Ok(pieces) = pieces_of(alloc, images) else {
        return Err(Unjoined::Memory);
    };
    let Ok(found) = set_of(alloc, pieces) else {
        return Err(Unjoined::Memory);
    };
    match found {
        Ok(image) => Ok(image),
        Err(_place) => Err(first_unlike_two(images)),
    }
}

// The runs of images, one image behind the other.
fn pieces_of(alloc: Global, images: &[Image]) -> Result<Pieces, AllocError>
    ensures stand { IfOk result AllStand }
    ensures pairs { IfOk result (λ pieces. pairs_in pieces ≡ all_pairs_of images.now) }
{
    let mut pieces = Pieces::new(alloc);
    for image in images {
        add_runs(&mut pieces, image)?;
    }
    Ok(pieces)
}

// Adds the runs of an image.
fn add_runs(pieces: &mut Pieces, image: &Image) -> Result<(), AllocError>
    requires { AllStand pieces.old }
    ensures stand { OnOk result (AllStand pieces.new) }
    ensures pairs { OnOk result (pairs_in pieces.new ≡ pairs_in pieces.old ++ image.now) }
{
    let runs = image.runs();
    let bytes = runs.bytes.as_slice();
    for run in runs.list.as_slice() {
        pieces.add(run.first, run.bytes_in(bytes))?;
    }
    Ok(())
}

// The first image that differs from one before it, the first of those, and where.
fn first_unlike_two(images: &[Image]) -> Unjoined
    requires { ¬ Agree (all_pairs_of images.now) }
    ensures { AreUnlike images.now result }
{
    for second in 0..images.len() {
        if let Some((first, address)) = unlike_before(images, second) {
            return Unjoined::Differ {
                first,
                second,
                address,
            };
        }
    }
    unreachable!()
}

// The first image before this one that differs from it, and where.
fn unlike_before(images: &[Image], second: usize) -> Option<(usize, u32)>
    requires { second < length images.now }
    ensures { MatchOption result (IsLikeAll images.now second)
        (λ p. DifferAt images.now p.0 second p.1) }
{
    let runs = images[second].runs();
    let bytes = runs.bytes.as_slice();
    for first in 0..second {
        if let Some(address) = first_unlike(&images[first], bytes, runs.list.as_slice()) {
            return Some((first, address));
        }
    }
    None
}
