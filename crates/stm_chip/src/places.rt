// Where a chip tells its board, by the keys of its entry.
ghost use Rattle.std.specs.Prelude.{◌≡◌, MatchOption};
ghost use Rattle.stm_wire.specs.Chip.{ChipData, IsChip};
ghost use Rattle.stm_chip.specs.Entry.{ArePlacesOf, HaveNoPlaces, places_with, key_of_unique};
ghost use Rattle.stm_chip.specs.Entry.{key_of_size};

use crate::keys::PlaceKeys;
use stm_wire::{BoardPlaces, UniquePlace};

/// The places of these keys, or None where no chip tells its board there.
pub(crate) fn board_places(keys: &PlaceKeys) -> Option<BoardPlaces>
    ensures { let values = places_with keys.now.unique keys.now.size_at in
        MatchOption result (HaveNoPlaces values) (ArePlacesOf values) }
{
    let unique = match keys.unique {
        None => None,
        Some((address, length)) => match (u32::try_from(address), u8::try_from(length)) {
            (Ok(address), Ok(length)) => Some(UniquePlace { address, length }),
            _ => return None,
        },
    };
    let size = match keys.size_at {
        None => None,
        Some(address) => match u32::try_from(address) {
            Ok(address) => Some(address),
            Err(_) => return None,
        },
    };
    Some(BoardPlaces { unique, size })
}
