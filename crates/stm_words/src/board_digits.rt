// The digits that name a board, or the unique id of one.
ghost use Rattle.std.specs.Prelude.{◌≡◌, IfOk, IfSome, IsTrue, codes};
ghost use Rattle.clap.specs.Words.{found_of};
ghost use Rattle.stm_words.specs.Given.{NamesBoard, NamesText, are_board_digits, are_unique_digits};

use crate::given::{flag, is_word};
use crate::number::are_hex_digits;
use crate::usage_fault::UsageFault;
use clap::ArgMatches;

/// Whether a text may be the unique id of a board, or its last digits: 1 to 64 hexadecimal digits,
/// of either case.
fn are_board_digits(text: &[u8]) -> bool
    ensures { result ≡ are_board_digits text.now }
{
    1 <= text.len() && text.len() <= 64 && are_hex_digits(text)
}

/// Whether a text is the unique id of a device, whole: the digits of 8 to 32 bytes.
fn are_unique_digits(text: &[u8]) -> bool
    ensures { result ≡ are_unique_digits text.now }
{
    16 <= text.len() && text.len() % 2 == 0 && are_board_digits(text)
}

/// The unique id that a simulator gets, where one is given.
pub fn unique_digits<'a>(given: &ArgMatches<'a>) -> Result<Option<&'a str>, UsageFault<'a>>
    ensures given { IfOk result (NamesText (found_of given.now) (codes "unique")) }
    ensures digits { IfOk result (λ unique.
        IfSome unique (λ text. IsTrue (are_unique_digits text.now))) }
{
    let Some(text) = given.get_str("unique") else {
        return Ok(None);
    };
    if are_unique_digits(text.as_bytes()) {
        Ok(Some(text))
    } else {
        Err(UsageFault::BadUnique(text))
    }
}

/// The board that is wanted, where one is: the word that says that none is goes before the
/// environment.
pub fn board_digits<'a>(given: &ArgMatches<'a>) -> Result<Option<&'a str>, UsageFault<'a>>
    ensures given { IfOk result (NamesBoard (found_of given.now)) }
    ensures digits { IfOk result (λ board.
        IfSome board (λ text. IsTrue (are_board_digits text.now))) }
{
    if flag(given, "no-board") && !is_word(given, "board") {
        return Ok(None);
    }
    let Some(text) = given.get_str("board") else {
        return Ok(None);
    };
    if are_board_digits(text.as_bytes()) {
        Ok(Some(text))
    } else {
        Err(UsageFault::BadBoard(text))
    }
}
