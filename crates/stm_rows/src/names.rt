// The words that names stand for: of a `let`, and of the loops of a row.
use crate::stopping::Stop;
use std::alloc::Global;

/// A name, and its words.
#[derive(Drop)]
struct Named {
    name: String,
    words: String,
}

/// All names, of which a later one hides an earlier one.
#[derive(Drop)]
pub struct Names {
    alloc: Global,
    all: Vec<Named>,
}

/// The words of a line; two of them may have more than one space between them.
pub fn words_of(alloc: Global, line: &str) -> Result<Vec<&str>, Stop> {
    let mut words = Vec::new(alloc);
    for word in line.split(' ') {
        if !word.is_empty() {
            words.push(word)?;
        }
    }
    Ok(words)
}

impl Names {
    pub fn new(alloc: Global) -> Names {
        Names {
            alloc,
            all: Vec::new(alloc),
        }
    }

    pub fn count(&self) -> usize {
        self.all.len()
    }

    /// Forgets all but the first names.
    pub fn keep(&mut self, count: usize) {
        self.all.truncate(count);
    }

    pub fn name(&mut self, name: &str, words: &str) -> Result<(), Stop> {
        let named = Named {
            name: String::from_str(self.alloc, name)?,
            words: String::from_str(self.alloc, words)?,
        };
        self.all.push(named)?;
        Ok(())
    }

    fn find(&self, name: &str) -> Result<&str, Stop> {
        for named in self.all.iter().rev() {
            if named.name.as_str() == name {
                return Ok(named.words.as_str());
            }
        }
        Err(Stop::Words)
    }

    /// Adds a word, or the words of `$NAME` at its end.
    fn add(&self, word: &str, text: &mut String) -> Result<(), Stop> {
        let Some((before, name)) = word.split_once('$') else {
            return Ok(text.push_str(word)?);
        };
        text.push_str(before)?;
        Ok(text.push_str(self.find(name)?)?)
    }

    /// Makes the text a line with the words of each `$NAME`, at the end of a word, in its place.
    pub fn expand(&self, line: &str, text: &mut String) -> Result<(), Stop> {
        text.clear();
        for word in line.split(' ') {
            if !text.is_empty() {
                text.push(' ')?;
            }
            self.add(word, text)?;
        }
        Ok(())
    }
}
