// The word that names a device.
ghost use Rattle.std.specs.Prelude.{◌≡◌, IfSome, None, Some, drop, if◌then◌else◌, option_map};
ghost use Rattle.stm_words.specs.Request.{NamesDevice};
ghost use Rattle.stm_words.specs.Given.{cut_at, chip_id_of, is_of_simulator, simulator_of};

use crate::cut::cut_at;
use crate::number::hex_number;

/// A device, as a word names it.
#[derive(Clone, Copy)]
pub enum Device<'a> {
    /// A simulator in the process, `sim:ID:FILE`.
    Simulator {
        /// The number of its chip: four hexadecimal digits of either case.
        id: u16,
        /// The file that holds its flash.
        file: &'a str,
    },
    /// What listens at the Unix socket of this path.
    Socket(&'a str),
}

impl<'a> Device<'a> {
    /// The device that the word names. A word that begins `sim:` is cut at its first two colons,
    /// and the file's name is not empty; any other word but the empty one is a path.
    pub fn parse(word: &'a str) -> Option<Device<'a>>
        ensures { IfSome result (NamesDevice word.entry.now) }
    {
        match behind_sim(word) {
            Some(rest) => {
                let (id, file) = simulator(rest)?;
                Some(Device::Simulator { id, file })
            }
            None if word.is_empty() => None,
            None => Some(Device::Socket(word)),
        }
    }
}

/// What stands behind `sim:`.
fn behind_sim<'a>(word: &'a str) -> Option<&'a str>
    ensures { option_map (λ rest. rest.now) result
        ≡ (if is_of_simulator word.entry.now then Some (drop 4 word.entry.now) else None) }
{
    word.strip_prefix("sim:")
}

/// The id and the file of the simulator that stands behind `sim:`.
fn simulator<'a>(rest: &'a str) -> Option<(u16, &'a str)>
    ensures { IfSome result
        (λ p. simulator_of (cut_at 58 rest.entry.now) ≡ Some (p.0, p.1.now)) }
{
    let (id, file) = cut_at(rest, ':')?;
    if file.is_empty() {
        return None;
    }
    Some((parse_id(id)?, file))
}

/// The number of a chip, in four hexadecimal digits of either case.
pub fn parse_id(text: &str) -> Option<u16>
    ensures { IfSome result (λ id. chip_id_of text.now ≡ Some id) }
{
    if text.len() != 4 {
        return None;
    }
    u16::try_from(hex_number(text.as_bytes())?).ok()
}
