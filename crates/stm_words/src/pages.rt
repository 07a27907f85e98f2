// The pages that words name.
ghost use Rattle.std.specs.Prelude.{◌≡◌, ◌++◌, ◌∷◌, ◌<◌, IfOk, IfSome, List, OnOk, Some, ℕ, map};
ghost use Rattle.stm_words.specs.Number.{word_number};
ghost use Rattle.stm_words.specs.Pages.{IsFromTo, NameAll, NamesPages};

use crate::number::parse_number;
use crate::unfit::Unfit;
use crate::usage_fault::UsageFault;
use std::alloc::Global;

/// The page that a word names by its number, which is at most 65535.
fn page(word: &str) -> Option<u16>
    ensures { IfSome result (λ n. word_number word.now ≡ Some n) }
{
    match parse_number(word) {
        Some(n) if n <= 0xFFFF => Some(n as u16),
        _ => None,
    }
}

/// What stands before the first `-` of a word, and what behind it.
fn parts(word: &str) -> Option<(&str, &str)>
    ensures { IfSome result (λ p. word.now ≡ p.0.now ++ 45 ∷ p.1.now) }
{
    word.split_once('-')
}

/// The first and the last of the pages that a word names.
fn first_and_last(word: &str) -> Option<(u16, u16)>
    ensures { IfSome result (λ p. IsFromTo word.now p.0 p.1) }
{
    let Some((front, back)) = parts(word) else {
        let n = page(word)?;
        return Some((n, n));
    };
    let first = page(front)?;
    let last = page(back)?;
    if first <= last {
        Some((first, last))
    } else {
        None
    }
}

/// Adds the pages that a word names.
fn add_pages<'a>(pages: &mut Vec<u16>, word: &'a str) -> Result<(), Unfit<'a>>
    ensures { OnOk result ((some : List ℕ) × NamesPages word.entry.now some
        × (pages.new.items ≡ pages.old.items ++ some)) }
{
    let Some((first, last)) = first_and_last(word) else {
        return Err(Unfit::Usage(UsageFault::BadNumber(word)));
    };
    for n in u32::from(first)..u32::from(last) + 1 {
        pages.push(n as u16)?;
    }
    Ok(())
}

/// The pages that words name, in their order: `N`, or from one to another, `N-M`.
pub fn pages_of<'a>(alloc: Global, words: &[&'a str]) -> Result<Vec<u16>, Unfit<'a>>
    ensures { IfOk result (λ pages. NameAll (map (λ w. w.now) words.now) pages.items) }
{
    let mut pages = Vec::new(alloc);
    for word in words {
        add_pages(&mut pages, word)?;
    }
    Ok(pages)
}
