// The unique id of a board as it is printed.
ghost use Rattle.std.specs.Prelude.{Some};
ghost use Rattle.hex.specs.Hex.{encode_upper};

use std::fmt;
use std::fmt::{Display, Formatter, Write};
use stm_wire::UniqueId;

/// The unique id of a board, printed in upper-case digits, byte for byte as the device told it.
#[derive(Clone, Copy, Debug)]
pub struct BoardName(pub UniqueId);

impl Display for BoardName {
    ghost output = { λ name. Some (encode_upper name.0) };

    fn fmt<W: fmt::Write>(&self, f: &mut Formatter<W>) -> fmt::Result {
        for byte in self.0.as_bytes() {
            write!(f, "{byte:02X}")?;
        }
        Ok(())
    }
}
