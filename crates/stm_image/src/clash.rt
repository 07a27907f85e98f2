//! Where bytes of pieces first disagree.
ghost use Rattle.std.specs.Prelude.{length};
ghost use Rattle.stm_image.specs.Clash.{HasFirsts, IsClash};
ghost use Rattle.stm_image.specs.Layout.{AllWithin, Covers};
ghost use Rattle.stm_image.specs.Pairs.{Agree};
ghost use Rattle.stm_image.specs.Pieces.{AllStand, Stand, pairs_at, pairs_in};

use crate::Image;
use crate::pieces::{Piece, Pieces};

/// Where the first byte of the pieces stands that differs from one before it at the same address.
/// The set has each of these addresses; its bytes make room for those of the first pieces.
pub fn first_clash(mut set: Image, pieces: &Pieces) -> usize
    requires stand { AllStand pieces.now }
    requires covers { Covers set (pairs_in pieces.now) }
    requires differs { ¬ Agree (pairs_in pieces.now) }
    ensures { IsClash (pairs_in pieces.now) result }
{
    let bytes = pieces.bytes.as_slice();
    let list = pieces.list.as_slice();
    put_firsts(&mut set, bytes, list);
    clash_with(&set, bytes, list)
}

// Puts the pieces over a set from the last to the first, so that the first
// byte at each address stays.
fn put_firsts(set: &mut Image, bytes: &[u8], list: &[Piece])
    requires within { AllWithin (length bytes.now) list.now }
    requires covers { Covers set.old (pairs_at bytes.now list.now) }
    ensures { HasFirsts set.new (pairs_at bytes.now list.now) }
{
    let mut left = list.len();
    'pieces: while left > 0 {
        left -= 1;
        let piece = list[left];
        set.put_over(piece.first, piece.bytes_in(bytes));
    }
}

// The first place where a piece has another byte than the set, which has the first at each address.
fn clash_with(set: &Image, bytes: &[u8], list: &[Piece]) -> usize
    requires stand { Stand 0 (length bytes.now) list.now }
    requires firsts { HasFirsts set.now (pairs_at bytes.now list.now) }
    requires differs { ¬ Agree (pairs_at bytes.now list.now) }
    ensures { IsClash (pairs_at bytes.now list.now) result }
{
    for piece in list {
        match set.first_difference(piece.first, piece.bytes_in(bytes)) {
            Some(address) => return piece.place + (address - piece.first) as usize,
            None => {}
        }
    }
    unreachable!()
}
