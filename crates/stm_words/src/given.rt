// The values that `clap` found, each read as what it stands for.
ghost use Rattle.std.specs.Prelude.{◌≡◌, IfOk, Some, codes};
ghost use Rattle.clap.specs.Words.{first_value, found_of};
ghost use Rattle.stm_words.specs.Given.{Gives, has, is_word, number_to, range_of, texts_of, word_range_of};
ghost use Rattle.stm_words.specs.Number.{word_number};
ghost use Rattle.stm_words.specs.Pages.{NameAll};

use crate::number::{parse_number, parse_number_to};
use crate::pages::pages_of;
use crate::range::Range;
use crate::unfit::Unfit;
use crate::usage_fault::UsageFault;
use clap::ArgMatches;
use clap::parser::ValueSource;
use std::alloc::Global;

/// The word that was given under this name.
pub fn word<'a>(given: &ArgMatches<'a>, id: &str) -> Result<&'a str, UsageFault<'a>>
    ensures { IfOk result (λ word. first_value (found_of given.now) id.now ≡ Some word.now) }
{
    match given.get_str(id) {
        Some(word) => Ok(word),
        None => Err(UsageFault::UnknownWords),
    }
}

/// Whether the flag of this name was given.
pub fn flag(given: &ArgMatches, id: &str) -> bool
    ensures { result ≡ has (found_of given.now) id.now }
{
    match given.get_str(id) {
        Some(word) => word == "true",
        None => false,
    }
}

/// Whether the value of this name is a word that was given.
pub fn is_word(given: &ArgMatches, id: &str) -> bool
    ensures { result ≡ is_word (found_of given.now) id.now }
{
    matches!(given.value_source(id), Some(ValueSource::CommandLine))
}

/// The number that was given under this name, where one was.
pub fn spare_number<'a>(given: &ArgMatches<'a>, id: &str) -> Result<Option<u32>, UsageFault<'a>>
    ensures { IfOk result (Gives word_number (found_of given.now) id.now) }
{
    let Some(text) = given.get_str(id) else {
        return Ok(None);
    };
    match parse_number(text) {
        Some(n) => Ok(Some(n)),
        None => Err(UsageFault::BadNumber(text)),
    }
}

/// The same, from 1 to a limit.
pub fn spare_number_to<'a>(
    given: &ArgMatches<'a>,
    id: &str,
    limit: u32,
) -> Result<Option<u32>, UsageFault<'a>>
    ensures { IfOk result (Gives (number_to limit) (found_of given.now) id.now) }
{
    let Some(text) = given.get_str(id) else {
        return Ok(None);
    };
    match parse_number_to(text, limit) {
        Some(n) => Ok(Some(n)),
        None => Err(UsageFault::BadNumber(text)),
    }
}

/// The number that was given under this name.
pub fn number<'a>(given: &ArgMatches<'a>, id: &str) -> Result<u32, UsageFault<'a>>
    ensures { IfOk result (λ n. Gives word_number (found_of given.now) id.now (Some n)) }
{
    spare_number(given, id)?.ok_or(UsageFault::UnknownWords)
}

/// The same, from 1 to a limit.
pub fn number_to<'a>(given: &ArgMatches<'a>, id: &str, limit: u32) -> Result<u32, UsageFault<'a>>
    ensures { IfOk result (λ n. Gives (number_to limit) (found_of given.now) id.now (Some n)) }
{
    spare_number_to(given, id, limit)?.ok_or(UsageFault::UnknownWords)
}

/// The part of the flash, where one is named.
pub fn range<'a>(given: &ArgMatches<'a>) -> Result<Option<Range>, UsageFault<'a>>
    ensures { IfOk result (Gives range_of (found_of given.now) (codes "range")) }
{
    let Some(text) = given.get_str("range") else {
        return Ok(None);
    };
    match Range::parse(text) {
        Some(range) => Ok(Some(range)),
        None => Err(UsageFault::BadNumber(text)),
    }
}

/// The same, which has to be whole words of 4 bytes.
pub fn word_range<'a>(given: &ArgMatches<'a>) -> Result<Option<Range>, UsageFault<'a>>
    ensures { IfOk result (Gives word_range_of (found_of given.now) (codes "range")) }
{
    let Some(text) = given.get_str("range") else {
        return Ok(None);
    };
    match Range::parse(text) {
        Some(range) if range.is_whole_words() => Ok(Some(range)),
        Some(_) => Err(UsageFault::NotWholeWords(text)),
        None => Err(UsageFault::BadNumber(text)),
    }
}

/// The pages that were given under this name, in their order.
pub fn pages<'a>(alloc: Global, given: &ArgMatches<'a>, id: &str) -> Result<Vec<u16>, Unfit<'a>>
    ensures { IfOk result (λ pages. NameAll (texts_of (found_of given.now) id.now) pages.items) }
{
    match given.get_strs(id) {
        Some(words) => pages_of(alloc, words),
        None => Ok(Vec::new(alloc)),
    }
}
