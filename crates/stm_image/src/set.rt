//! A set of addresses with a byte each.
ghost use Rattle.std.specs.Prelude.{◌≡◌, ◌==◌, ◌<◌, All, MatchOption, length, map};
ghost use Rattle.stm_image.specs.Clash.{IsPutOver, Names};
ghost use Rattle.stm_image.specs.Pairs.{Pairs, IsImage, byte_at, IsNext, HasNone};
ghost use Rattle.stm_image.specs.Pieces.{AllStand, Apart, AreRuns, pairs_in};
ghost use Rattle.stm_image.specs.Runs.{IsRunFrom};

use crate::laying::put_at;
use crate::pieces::{Piece, Pieces, first_ending_from};
use std::alloc::AllocError;
use std::marker::Model;

/// A set of addresses of 32 bits with a byte each, every address once.
///
/// Contracts see it as the list of its (address, byte) pairs by strictly rising address. It is kept
/// as runs of bytes at consecutive addresses, with a gap between any two.
#[derive(Debug, Drop)]
pub struct Image {
    pub(crate) runs: Pieces,
}

impl Model for Image {
    ghost Value = { Pairs };

    ghost view = { λ i. pairs_in i.runs };

    ghost invariant = { λ i. AreRuns i.runs };
}

impl Image {
    /// How many addresses have a byte.
    pub fn len(&self) -> usize
        ensures count { result ≡ length self.now }
        ensures image { IsImage self.now }
    {
        self.runs.bytes.len()
    }

    /// Whether no address has a byte.
    pub fn is_empty(&self) -> bool
        ensures { result ≡ (length self.now == 0) }
    {
        self.len() == 0
    }

    /// The bytes, by rising address.
    pub fn bytes(&self) -> &[u8]
        ensures { result.now ≡ map (λ p. p.1) self.now }
    {
        self.runs.bytes.as_slice()
    }

    /// The byte at an address.
    pub fn get(&self, address: u32) -> Option<u8>
        ensures { result ≡ byte_at self.now address }
    {
        let _ = &self.runs;
        match self.next_from(address) {
            Some((found, byte)) => { if found == address { Some(byte) } else { None } }
            None => None,
        }
    }

    /// The pair of least address at or after `address`, if any.
    pub fn next_from(&self, address: u32) -> Option<(u32, u8)>
        ensures { MatchOption result (HasNone self.now address) (IsNext self.now address) }
    {
        let _ = &self.runs;
        match self.run_from(address) {
            Some((start, bytes)) => Some((start, bytes[0])),
            None => None,
        }
    }

    /// A law, which does nothing: the addresses of an image rise and have 32 bits.
    pub fn rises(&self)
        ensures { IsImage self.now }
    {
        let _runs = &self.runs;
    }

    // The bytes that stand together from the least place at or after `address` on, if any: the
    // address of the first, and they.
    pub(crate) fn run_from<'a>(&'a self, address: u32) -> Option<(u32, &'a [u8])>
        ensures { MatchOption result (HasNone self.now address)
            (λ run. IsRunFrom self.now address run.0 run.1.now) }
    {
        let list = self.runs.list.as_slice();
        let place = first_ending_from(list, address);
        if place == list.len() {
            return None;
        }
        let piece = list[place];
        let bytes = piece.bytes_in(self.runs.bytes.as_slice());
        let skip = address.saturating_sub(piece.first);
        let (_before, rest) = bytes.split_at(skip as usize);
        Some((piece.first + skip, rest))
    }

    // Puts bytes over those that stand from an address on, each of which the image has.
    pub(crate) fn put_over(&mut self, address: u32, bytes: &[u8])
        requires { Names self.old address (length bytes.now) }
        ensures { IsPutOver self.old address bytes.now self.new }
    {
        if bytes.is_empty() {
            return;
        }
        let place = first_ending_from(self.runs.list.as_slice(), address);
        let piece = self.runs.list[place];
        let skip = piece.place + (address - piece.first) as usize;
        put_at(bytes, self.runs.bytes.as_mut_slice(), skip);
        are_bytes(self.runs.bytes.as_slice());
    }

    // The runs by rising address.
    pub(crate) fn runs(&self) -> &Pieces
        ensures value { pairs_in result.now ≡ self.now }
        ensures runs { AreRuns result.now }
    {
        &self.runs
    }

    // The image of pieces that are apart.
    pub(crate) fn from_runs(runs: Pieces) -> Image
        requires stand { AllStand runs }
        requires apart { Apart 0 runs.list.items }
        ensures { result ≡ pairs_in runs }
    {
        are_bytes(runs.bytes.as_slice());
        Image { runs }
    }
}

// Each byte is below 256.
fn are_bytes(bytes: &[u8])
    ensures { All (λ b. b < 256) bytes.now }
{}

impl Clone for Image {
    ghost is_clone = { λ image clone. clone ≡ image };

    fn clone(&self) -> Result<Self, AllocError> {
        let bytes = self.runs.bytes.clone()?;
        let list = self.runs.list.clone()?;
        Ok(Image {
            runs: Pieces { bytes, list },
        })
    }
}
