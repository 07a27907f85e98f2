//! Bytes in pieces, each of which stands at consecutive addresses.
ghost use Rattle.std.specs.Prelude.{◌≡◌, ◌≢◌, [], ◌<◌, ◌≤◌, ◌+◌, ◌^◌, length, OnOk, OnErr};
ghost use Rattle.std.specs.List.{AllWithin};
ghost use Rattle.std.specs.List.Sorted.{IsNonDecreasingBy};
ghost use Rattle.stm_image.specs.declared.pieces.Piece.{Piece};
ghost use Rattle.stm_image.specs.Pieces.{IsWithin, piece_bytes, next_apart, AllStand, AreAdded};
ghost use Rattle.stm_image.specs.Pieces.{AreAsBefore, IsBack, IsMark};

use std::alloc::{AllocError, Global};

/// Bytes at consecutive addresses.
#[derive(Debug, Drop, Clone, Copy, PartialEq, Eq)]
pub struct Piece {
    /// The address of the first.
    pub first: u32,
    /// The address of the last.
    pub last: u32,
    /// Where the first stands among the bytes of all pieces.
    pub place: usize,
}

/// How many bytes and pieces there are, and the last piece, if any.
#[derive(Debug, Drop, Clone, Copy, PartialEq, Eq)]
pub struct Mark {
    pub bytes: usize,
    pub count: usize,
    pub last: Piece,
}

/// The bytes of some pieces, in their order, and where each piece lies.
#[derive(Debug, Drop)]
pub struct Pieces {
    pub bytes: Vec<u8>,
    pub list: Vec<Piece>,
}

impl Piece {
    /// Its bytes, among those of all pieces.
    pub fn bytes_in<'a>(&self, bytes: &'a [u8]) -> &'a [u8]
        requires { IsWithin (length bytes.now) self.now }
        ensures { result.now ≡ piece_bytes bytes.now self.now }
    {
        let count = (self.last - self.first) as usize + 1;
        &bytes[self.place..self.place + count]
    }
}

impl Pieces {
    /// No piece.
    pub fn new(alloc: Global) -> Pieces
        ensures stand { AllStand result }
        ensures none { result.list.items ≡ [] }
    {
        Pieces {
            bytes: Vec::new(alloc),
            list: Vec::new(alloc),
        }
    }

    /// Adds bytes from an address on, or leaves all as it is. They go to the last piece, where it
    /// ends there.
    pub fn add(&mut self, start: u32, bytes: &[u8]) -> Result<(), AllocError>
        requires stand { AllStand self.old }
        requires fits { start + length bytes.now ≤ 2 ^ 32 }
        ensures ok { OnOk result (AreAdded self.old self.new start bytes.now) }
        ensures err { OnErr result (AreAsBefore self.old self.new) }
    {
        if bytes.is_empty() {
            return Ok(());
        }
        let last = start + (bytes.len() - 1) as u32;
        let count = self.list.len();
        if count > 0 {
            let piece = self.list[count - 1];
            if start > 0 && piece.last == start - 1 {
                self.bytes.extend_from_slice(bytes)?;
                self.list[count - 1] = Piece {
                    first: piece.first,
                    last,
                    place: piece.place,
                };
                return Ok(());
            }
        }
        self.add_piece(start, last, bytes)
    }

    /// What it takes to return to these pieces once bytes were added.
    pub fn mark(&self) -> Mark
        ensures { IsMark self.now result }
    {
        let count = self.list.len();
        let mut last = Piece {
            first: 0,
            last: 0,
            place: 0,
        };
        if count > 0 {
            last = self.list[count - 1];
        }
        Mark {
            bytes: self.bytes.len(),
            count,
            last,
        }
    }

    /// Returns to the pieces of a mark.
    pub fn return_to(&mut self, mark: Mark)
        requires { mark.count ≤ length self.old.list.items }
        ensures { IsBack self.old mark self.new }
    {
        self.bytes.truncate(mark.bytes);
        self.list.truncate(mark.count);
        if mark.count > 0 {
            self.list[mark.count - 1] = mark.last;
        }
    }

    // Adds bytes as a piece of their own.
    fn add_piece(&mut self, first: u32, last: u32, bytes: &[u8]) -> Result<(), AllocError>
        requires stand { AllStand self.old }
        requires long { first + length bytes.now ≡ last + 1 }
        requires some { 0 < length bytes.now }
        requires apart { next_apart 0 self.old.list.items ≢ first + 1 }
        ensures ok { OnOk result (AreAdded self.old self.new first bytes.now) }
        ensures err { OnErr result (AreAsBefore self.old self.new) }
    {
        let place = self.bytes.len();
        self.bytes.extend_from_slice(bytes)?;
        let Ok(()) = self.list.push(Piece { first, last, place }) else {
            self.bytes.truncate(place);
            return Err(AllocError);
        };
        Ok(())
    }
}

/// The first piece that ends at an address or after it, or else how many pieces there are.
pub fn first_ending_from(list: &[Piece], address: u32) -> usize
    requires { IsNonDecreasingBy (λ (p : Piece). p.last) list.now }
    ensures before { AllWithin (λ (p : Piece). p.last < address) list.now 0 result }
    ensures here { AllWithin (λ (p : Piece). address ≤ p.last) list.now result (length list.now) }
    ensures within { result ≤ length list.now }
{
    list.partition_point(|p| p.last < address)
}
