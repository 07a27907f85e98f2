// The protections, by the words that name them.
ghost use Rattle.std.specs.Prelude.{◌≡◌};
ghost use Rattle.stm_work.specs.Protections.{protection_of};

use stm_wire::Protection;

/// The protection that a word names; none for any word but its three.
pub fn protection(word: &str) -> Option<Protection>
    ensures { result ≡ protection_of word.now }
{
    match word {
        "write-unprotect" => Some(Protection::WriteUnprotect),
        "readout-protect" => Some(Protection::ReadoutProtect),
        "readout-unprotect" => Some(Protection::ReadoutUnprotect),
        _ => None,
    }
}
