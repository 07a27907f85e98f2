// A chip: its number, where its flash begins, the sizes of the flash's pages, where it tells its
// board, and which board it is.
ghost use Rattle.std.specs.Prelude.{◌≡◌, ◌+◌, ◌^◌, ◌<◌, ◌≤◌, ◌↔◌, IsTrue, sum, All};
ghost use Rattle.std.specs.Option.{SomeIff};
ghost use Rattle.stm_wire.specs.Chip.{ChipData, chip_of, of_board, at_places, erased_byte, IsChip};
ghost use Rattle.stm_wire.specs.Chip.{IsErasedByte, IsPageSize, page_count};
ghost use Rattle.stm_wire.specs.Chip.{is_outside, are_places};
ghost use Rattle.stm_wire.specs.Chip.{page_size, page_offset, page_limit, flash_size};

mod cut;

use crate::{BoardPlaces, UniqueId};
use std::alloc::AllocError;
use std::marker::Model;

/// The code of the command that erases pages.
#[derive(Clone, Copy, Debug, PartialEq, Eq)]
pub enum EraseKind {
    /// 43: pages by one byte.
    Page,
    /// 44: pages by two bytes.
    Extended,
}

/// How many bytes a flash may have.
const FLASH_LIMIT: u32 = 2097152;

/// How many pages a chip of this kind may have.
fn page_limit(kind: EraseKind) -> usize
    ensures { result ≡ page_limit kind }
{
    match kind {
        EraseKind::Page => 256,
        EraseKind::Extended => 512,
    }
}

/// Whether each of these is the size of a page: a multiple of 256 bytes, and not none.
fn are_page_sizes(sizes: &[u32]) -> bool
    ensures { IsTrue result ↔ All IsPageSize sizes.now }
{
    sizes.iter().all(|size| *size >= 256 && *size % 256 == 0)
}

/// Whether an erased place may hold this byte: it has all bits set, or none.
fn is_erased_byte(byte: u8) -> bool
    ensures { IsTrue result ↔ IsErasedByte byte }
{
    byte == 0 || byte == 0xFF
}

/// How many bytes these pages have, or None where those are more than a flash may have.
fn flash_size_of(sizes: &[u32]) -> Option<u32>
    ensures { SomeIff result (sum sizes.now ≤ FLASH_LIMIT) (sum sizes.now) }
{
    let mut total = 0;
    for size in sizes {
        if *size > FLASH_LIMIT - total {
            return None;
        }
        total += *size;
    }
    Some(total)
}

/// How many bytes these pages have.
fn size_of(sizes: &[u32]) -> u32
    requires { sum sizes.now < 2 ^ 32 }
    ensures { result ≡ sum sizes.now }
{
    sizes.iter().sum()
}

/// One of the chips whose bootloader and flash this workspace knows: at most 256 pages, or 512
/// where they are erased by 44, each a multiple of 256 bytes, 2 MiB at most in all.
#[derive(Debug, Drop)]
pub struct Chip {
    id: u16,
    base: u32,
    sizes: Vec<u32>,
    /// The sum of the sizes, since the flash's end is asked for with each address.
    total: u32,
    kind: EraseKind,
    erased: u8,
    places: BoardPlaces,
    unique: UniqueId,
}

impl Model for Chip {
    ghost Value = { ChipData };

    ghost view = { λ c. of_board c.unique
        (at_places c.places (chip_of c.id c.base c.sizes.items c.kind c.erased)) };

    ghost invariant = { λ c. IsChip (of_board c.unique
        (at_places c.places (chip_of c.id c.base c.sizes.items c.kind c.erased)))
        × (c.total ≡ sum c.sizes.items) };
}

impl Chip {
    /// A chip of these values, which tells its board at no place that is known and whose device
    /// told no unique id, or None where one of its limits is broken.
    ///
    /// `base` is the address of the flash's first byte, `sizes` has the bytes of each page from
    /// there on, and `erased` is what an erased place holds: FF, or 00.
    pub fn new(id: u16, base: u32, sizes: Vec<u32>, kind: EraseKind, erased: u8) -> Option<Chip>
        ensures { let chip = chip_of id base sizes.items kind erased in
            SomeIff result (IsChip chip) chip }
    {
        if sizes.is_empty() || sizes.len() > page_limit(kind) {
            return None;
        }
        if base < 0x0100_0000 || base % 256 != 0 {
            return None;
        }
        if !are_page_sizes(&sizes) || !is_erased_byte(erased) {
            return None;
        }
        let total = flash_size_of(&sizes)?;
        if u64::from(base) + u64::from(total) > 0x1_0000_0000 {
            return None;
        }
        Some(Chip {
            id,
            base,
            sizes,
            total,
            kind,
            erased,
            places: BoardPlaces::none(),
            unique: UniqueId::none(),
        })
    }

    /// Whether these bytes lie outside the flash, and end at 2^32 at the latest.
    fn is_outside(&self, address: u32, length: u32) -> bool
        ensures { result ≡ is_outside self.now address length }
    {
        let start = u64::from(address);
        let end = start + u64::from(length);
        end <= 0x1_0000_0000 && (end <= u64::from(self.base) || self.end() <= start)
    }

    /// The chip that tells its board at these places, or None where one of them lies in its flash or
    /// ends behind 2^32, or where the unique id has fewer than 8 bytes or more than 32.
    pub fn at_places(self, places: BoardPlaces) -> Option<Chip>
        ensures { SomeIff result (IsTrue (are_places self places)) (at_places places self) }
    {
        let unique = match places.unique {
            None => true,
            Some(place) => {
                UniqueId::is_length(usize::from(place.length))
                    && self.is_outside(place.address, u32::from(place.length))
            }
        };
        let size = match places.size {
            None => true,
            Some(address) => self.is_outside(address, 2),
        };
        if unique && size {
            Some(Chip { places, ..self })
        } else {
            None
        }
    }

    /// Where it tells its board.
    pub fn places(&self) -> BoardPlaces
        ensures { result ≡ self.now.places }
    {
        self.places
    }

    /// The chip of a device that told this unique id.
    pub fn of_board(self, unique: UniqueId) -> Chip
        ensures { result ≡ of_board unique self }
    {
        Chip { unique, ..self }
    }

    /// The unique id that its device told, or none.
    pub fn unique(&self) -> UniqueId
        ensures { result ≡ self.now.unique }
    {
        self.unique
    }

    pub fn id(&self) -> u16
        ensures { result ≡ self.now.id }
    {
        self.id
    }

    /// The address of the flash's first byte.
    pub fn base(&self) -> u32
        ensures { result ≡ self.now.base }
    {
        self.base
    }

    pub fn kind(&self) -> EraseKind
        ensures { result ≡ self.now.kind }
    {
        self.kind
    }

    /// What an erased place of its flash holds: FF, or 00.
    pub fn erased(&self) -> u8
        ensures byte { result ≡ erased_byte self.now }
        ensures one { IsErasedByte result }
    {
        self.erased
    }

    pub fn pages(&self) -> u16
        ensures { result ≡ page_count self.now }
    {
        self.sizes.len() as u16
    }

    /// The address of the first byte of page `n`. It walks the pages before it.
    #[tactic(auto, using(crate::specs::lemmas::PageLaws::offset_within, crate::specs::lemmas::PageLaws::page_within))]
    pub fn page_start(&self, n: u16) -> u32
        requires { n < page_count self.now }
        ensures address { result ≡ self.now.base + page_offset self.now n }
        ensures inside { result + page_size self.now n ≤ self.now.base + flash_size self.now }
    {
        self.base + size_of(&self.sizes[..usize::from(n)])
    }

    /// How many bytes page `n` has.
    pub fn page_size(&self, n: u16) -> u32
        requires { n < page_count self.now }
        ensures bytes { result ≡ page_size self.now n }
        ensures blocks { IsPageSize result }
    {
        self.sizes[usize::from(n)]
    }

    /// How many bytes the flash has.
    pub fn flash_size(&self) -> u32
        ensures size { result ≡ flash_size self.now }
        ensures limits { IsChip self.now }
    {
        self.total
    }

    /// The address behind the flash's last byte, 2^32 at most.
    pub fn end(&self) -> u64
        ensures end { result ≡ self.now.base + flash_size self.now }
        ensures limit { result ≤ 2 ^ 32 }
    {
        u64::from(self.base) + u64::from(self.total)
    }

    /// A law, which does nothing: each chip keeps the limits, so it has no more pages than its kind
    /// allows.
    pub fn keeps_limits(&self)
        ensures chip { IsChip self.now }
        ensures pages { page_count self.now ≤ page_limit self.now.kind }
    {
        let _chip = &self.sizes;
    }
}

impl Clone for Chip {
    ghost is_clone = { λ chip clone. clone ≡ chip };

    fn clone(&self) -> Result<Self, AllocError> {
        Ok(Chip {
            id: self.id,
            base: self.base,
            sizes: self.sizes.clone()?,
            total: self.total,
            kind: self.kind,
            erased: self.erased,
            places: self.places,
            unique: self.unique,
        })
    }
}
