// Where a chip tells which board it is.
ghost use Rattle.std.specs.Prelude.{◌≡◌};
ghost use Rattle.stm_wire.specs.Places.{no_places};

/// Where a chip tells the unique id of its device.
#[derive(Clone, Copy, Debug, PartialEq, Eq)]
pub struct UniquePlace {
    /// The address of its first byte.
    pub address: u32,
    /// How many bytes it has: 8 to 32.
    pub length: u8,
}

/// Where a chip tells its board: each of the places may be unknown.
#[derive(Clone, Copy, Debug, PartialEq, Eq)]
pub struct BoardPlaces {
    /// Where the unique id of the device stands.
    pub unique: Option<UniquePlace>,
    /// The address of the size of the flash in KiB: 2 bytes, the lower one first.
    pub size: Option<u32>,
}

impl BoardPlaces {
    /// Those of a chip of which no place is known.
    pub fn none() -> BoardPlaces
        ensures { result ≡ no_places }
    {
        BoardPlaces {
            unique: None,
            size: None,
        }
    }
}
