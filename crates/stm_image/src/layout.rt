//! The set of pieces that may overlap.
ghost use Rattle.std.specs.Prelude.{IfOk, IsTrue, MatchOption, MatchResult, length};
ghost use Rattle.std.specs.List.Sorted.{IsNonDecreasingBy, IsPermutation};
ghost use Rattle.stm_image.specs.Clash.{IsClash};
ghost use Rattle.stm_image.specs.Layout.{AllAgree, AllWithin, Covers, HasDifference, IsAmong};
ghost use Rattle.stm_image.specs.Pairs.{Agree, IsSetOf};
ghost use Rattle.stm_image.specs.Pieces.{AllStand, Apart, pairs_at, pairs_in};
ghost use Rattle.stm_image.specs.declared.pieces.Piece.{Piece};

use crate::Image;
use crate::clash::first_clash;
use crate::pieces::{Piece, Pieces};
use std::alloc::{AllocError, Global};

/// The set of the pairs of some pieces; or, where an address has two bytes among them, the first
/// place of a byte that differs from one before it.
pub fn set_of(alloc: Global, pieces: Pieces) -> Result<Result<Image, usize>, AllocError>
    requires { AllStand pieces }
    ensures { IfOk result (λ found. MatchResult found
        (λ set. IsSetOf set (pairs_in pieces) × Agree (pairs_in pieces))
        (IsClash (pairs_in pieces))) }
{
    if are_apart(pieces.list.as_slice()) {
        return Ok(Ok(Image::from_runs(pieces)));
    }
    sorted_set(alloc, pieces)
}

// The set of the pairs of some pieces, which are sorted for it.
fn sorted_set(alloc: Global, mut pieces: Pieces) -> Result<Result<Image, usize>, AllocError>
    requires { AllStand pieces }
    ensures { IfOk result (λ found. MatchResult found
        (λ set. IsSetOf set (pairs_in pieces) × Agree (pairs_in pieces))
        (IsClash (pairs_in pieces))) }
{
    sort_pieces(&mut pieces.list);
    let bytes = pieces.bytes.as_slice();
    let list = pieces.list.as_slice();
    let set = lay_out(alloc, bytes, list)?;
    set.rises();
    if let Some(_place) = first_unlike(&set, bytes, list) {
        sort_back(&mut pieces.list);
        return Ok(Err(first_clash(set, &pieces)));
    }
    Ok(Ok(set))
}

// Whether each piece begins after a gap behind the one before it.
fn are_apart(list: &[Piece]) -> bool
    ensures { IsTrue result → Apart 0 list.now }
{
    let mut least = 0u64;
    for piece in list {
        if u64::from(piece.first) < least {
            return false;
        }
        least = u64::from(piece.last) + 2;
    }
    true
}

// Sorts pieces by their first addresses, in their place.
fn sort_pieces(list: &mut Vec<Piece>)
    ensures moved { IsPermutation list.old.items list.new.items }
    ensures order { IsNonDecreasingBy (λ (p : Piece). p.first) list.new.items }
{
    list.sort_unstable_by_key(|p| p.first);
}

// Sorts pieces by their places, in which order they were added.
fn sort_back(list: &mut Vec<Piece>)
    ensures moved { IsPermutation list.old.items list.new.items }
    ensures order { IsNonDecreasingBy (λ (p : Piece). p.place) list.new.items }
{
    list.sort_unstable_by_key(|p| p.place);
}

// The set of sorted pieces, in which an address that two of them have keeps the byte of the first.
fn lay_out(alloc: Global, bytes: &[u8], list: &[Piece]) -> Result<Image, AllocError>
    requires within { AllWithin (length bytes.now) list.now }
    requires order { IsNonDecreasingBy (λ (p : Piece). p.first) list.now }
    ensures among { IfOk result (λ set. IsAmong set (pairs_at bytes.now list.now)) }
    ensures covers { IfOk result (λ set. Covers set (pairs_at bytes.now list.now)) }
{
    let mut laid = Pieces::new(alloc);
    // One more than the last address so far.
    let mut next = 0u64;
    for piece in list {
        let data = piece.bytes_in(bytes);
        let skip = next.saturating_sub(u64::from(piece.first));
        if skip < data.len() as u64 {
            let (_there, rest) = data.split_at(skip as usize);
            laid.add(piece.first + skip as u32, rest)?;
            next = u64::from(piece.last) + 1;
        }
    }
    Ok(Image::from_runs(laid))
}

/// Where the set has another byte than the first piece that differs from it.
pub fn first_unlike(set: &Image, bytes: &[u8], list: &[Piece]) -> Option<u32>
    requires { AllWithin (length bytes.now) list.now }
    ensures { MatchOption result (AllAgree set.now bytes.now list.now)
        (HasDifference set.now bytes.now list.now) }
{
    for piece in list {
        match set.first_difference(piece.first, piece.bytes_in(bytes)) {
            Some(place) => return Some(place),
            None => {}
        }
    }
    None
}
