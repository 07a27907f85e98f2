// The CRC that STM32's own unit computes.
ghost use Rattle.std.specs.Prelude.{◌≡◌};
ghost use Rattle.stm_files.specs.Crc.{crc_of, fed_word, moved, shifted, shifts, word_of};

/// The polynomial: the bits behind the highest, which is x to the power of 32.
const POLYNOMIAL: u32 = 0x04C1_1DB7;

/// What the register is before the first word.
pub(crate) const START: u32 = 0xFFFF_FFFF;

/// The register after one bit.
fn shift(register: u32) -> u32
    ensures { result ≡ shifted register }
{
    moved(register)
}

/// The register moved up by one bit.
fn moved(register: u32) -> u32
    ensures { result ≡ moved register }
{
    let moved = register << 1;
    if register >= 0x8000_0000 {
        moved ^ POLYNOMIAL
    } else {
        moved
    }
}

/// The register after eight bits.
fn shift_byte(register: u32) -> u32
    ensures { result ≡ shifts 8 register }
{
    let half = shift(shift(shift(shift(register))));
    shift(shift(shift(shift(half))))
}

/// The register after a word: all of its bits are put in at once, and then shifted out.
pub(crate) fn feed(register: u32, word: u32) -> u32
    ensures { result ≡ fed_word register word }
{
    let half = shift_byte(shift_byte(register ^ word));
    shift_byte(shift_byte(half))
}

/// The CRC of bytes, word by word, each of which has its lowest byte first. A rest of
/// fewer than four bytes isn't counted.
#[tactic(auto, using(crate::proofs::NoWord::none_left))]
pub fn crc(bytes: &[u8]) -> u32
    ensures { result ≡ crc_of bytes.now }
{
    let mut register = START;
    let mut left = bytes;
    while let [a, b, c, d, rest @ ..] = left {
        register = feed(register, word(*a, *b, *c, *d));
        left = rest;
    }
    register
}

/// The word of four bytes, the lowest first.
pub(crate) fn word(a: u8, b: u8, c: u8, d: u8) -> u32
    ensures { result ≡ word_of a b c d }
{
    u32::from(a) + u32::from(b) * 0x100 + u32::from(c) * 0x1_0000 + u32::from(d) * 0x100_0000
}
