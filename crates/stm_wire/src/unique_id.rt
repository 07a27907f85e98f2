// The number that a device alone has.
ghost use Rattle.std.specs.Prelude.{◌≡◌, ◌==◌, [], length, bytes_eq, IsTrue};
ghost use Rattle.std.specs.Option.{SomeIff};
ghost use Rattle.stm_wire.specs.UniqueId.{IsUniqueId, is_unique_length};

use std::marker::Model;

/// The unique id of a device: 8 to 32 bytes, as it told them, or none where it told none.
#[derive(Clone, Copy, Debug)]
pub struct UniqueId {
    // Behind its bytes stand zeros.
    bytes: [u8; 32],
    length: u8,
}

impl Model for UniqueId {
    ghost use Rattle.std.specs.Prelude.{ℕ, List};

    ghost Value = { List ℕ };

    ghost use Rattle.stm_wire.specs.UniqueIdFields.{id_bytes_told, fields_of, AreFields};
    ghost use Rattle.stm_wire.specs.lemmas.UniqueIdLaws.{fields-back};

    ghost view = { id_bytes_told };

    ghost invariant = { AreFields };

    ghost inverse = { fields_of };

    ghost inverse_ok = { fields-back };
}

impl UniqueId {
    /// That of a device which told none.
    pub fn none() -> UniqueId
        ensures { result ≡ [] }
    {
        UniqueId {
            bytes: [0; 32],
            length: 0,
        }
    }

    /// Whether a unique id may have so many bytes: 8 to 32.
    pub(crate) fn is_length(length: usize) -> bool
        ensures { result ≡ is_unique_length length }
    {
        8 <= length && length <= 32
    }

    /// These bytes as a unique id, where they are 8 to 32.
    pub fn of(bytes: &[u8]) -> Option<UniqueId>
        ensures { SomeIff result (IsTrue (is_unique_length (length bytes.now))) bytes.now }
    {
        if bytes.len() < 8 || bytes.len() > 32 {
            return None;
        }
        let mut held = [0u8; 32];
        held[..bytes.len()].copy_from_slice(bytes);
        Some(UniqueId {
            bytes: held,
            length: bytes.len() as u8,
        })
    }

    /// Its bytes, as the device told them.
    pub fn as_bytes(&self) -> &[u8]
        ensures bytes { result.now ≡ self.now }
        ensures limits { IsUniqueId self.now }
    {
        &self.bytes[..usize::from(self.length)]
    }

    /// Whether none was told.
    pub fn is_none(&self) -> bool
        ensures { result ≡ (length self.now == 0) }
    {
        self.length == 0
    }

    /// Whether it is the other one, byte for byte; none is none.
    pub fn is(&self, other: &UniqueId) -> bool
        ensures { result ≡ bytes_eq self.now other.now }
    {
        self.as_bytes() == other.as_bytes()
    }
}
