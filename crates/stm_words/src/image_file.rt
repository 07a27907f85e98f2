// An image, as words name it.
ghost use Rattle.std.specs.Prelude.{IfOk, MatchOption, map};
ghost use Rattle.clap.specs.Words.{found_of};
ghost use Rattle.stm_words.specs.Images.{AreImagesNamed, HasNoAt, IsCutAtLast, IsImageNamed};
ghost use Rattle.stm_words.specs.Request.{AreImageFiles};

use crate::given::{flag, range};
use crate::range::Range;
use crate::unfit::Unfit;
use clap::ArgMatches;
use std::alloc::Global;

/// An image, as words name it.
#[derive(Clone, Copy)]
pub struct ImageFile<'a> {
    /// The file that holds it.
    pub name: &'a str,
    /// Whether it is raw bytes, also where its first byte is a colon.
    pub is_raw: bool,
    /// Where raw bytes lie.
    pub range: Option<Range>,
}

impl<'a> ImageFile<'a> {
    /// The images that the words of a subcommand name.
    pub fn parse_all(alloc: Global, given: &ArgMatches<'a>) -> Result<Vec<ImageFile<'a>>, Unfit<'a>>
        ensures { IfOk result (λ images. AreImageFiles (found_of given.now) images.items) }
    {
        let is_raw = flag(given, "force");
        let range = range(given)?;
        match given.get_strs("IMAGE") {
            Some(words) => images_of(alloc, words, is_raw, range),
            None => Ok(Vec::new(alloc)),
        }
    }

    /// The image that a word names. A part of the flash behind its last `@` is where it lies; nothing
    /// there leaves the name without that `@`; and of every other word all is the name.
    fn named(word: &'a str, is_raw: bool, range: Option<Range>) -> ImageFile<'a>
        ensures { IsImageNamed is_raw range word.entry.now result }
    {
        let Some((name, place)) = cut_at_last(word) else {
            return ImageFile {
                name: word,
                is_raw,
                range,
            };
        };
        match Range::parse(place) {
            Some(own) => ImageFile {
                name,
                is_raw,
                range: Some(own),
            },
            None => ImageFile {
                name: if place.is_empty() { name } else { word },
                is_raw,
                range,
            },
        }
    }
}

/// What stands before the last `@` of a word, and what behind it.
fn cut_at_last(word: &str) -> Option<(&str, &str)>
    ensures { MatchOption result (HasNoAt word.now)
        (λ parts. IsCutAtLast word.now parts.0.now parts.1.now) }
{
    word.rsplit_once('@')
}

/// The images that words name, in their order.
fn images_of<'a>(
    alloc: Global,
    words: &[&'a str],
    is_raw: bool,
    range: Option<Range>,
) -> Result<Vec<ImageFile<'a>>, Unfit<'a>>
    ensures { IfOk result (λ images. AreImagesNamed is_raw range (map (λ w. w.now) words.now) images.items) }
{
    let mut images = Vec::new(alloc);
    for word in words {
        images.push(ImageFile::named(word, is_raw, range))?;
    }
    Ok(images)
}
