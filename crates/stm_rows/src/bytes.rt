// Bytes as words: hex digits; `'TEXT`, in which _ is a space and / ends a line; each may have `*COUNT`
// behind it, so many times. `%FIRST*COUNT`: so many bytes, each the rest of its place by 251, from a
// place on. `#*COUNT`: the lines of so many segments that keep nothing; `##*COUNT`: that keep and write a
// page of three bytes each. `^COUNT`: no more than so many of the bytes before it.
use crate::stopping::Stop;
use std::alloc::Global;

/// A number of hex digits.
pub fn hexadecimal(word: &str) -> Result<u32, Stop> {
    let mut number = 0_u32;
    for c in word.chars() {
        let digit = c.to_digit(16).ok_or(Stop::Words)?;
        number = number.saturating_mul(16).saturating_add(digit);
    }
    if word.is_empty() {
        Err(Stop::Words)
    } else {
        Ok(number)
    }
}

/// A decimal number.
pub fn number(word: &str) -> Result<u64, Stop> {
    word.parse::<u64>().ok().ok_or(Stop::Words)
}

/// A decimal number of a page.
pub fn page(word: &str) -> Result<u16, Stop> {
    u16::try_from(number(word)?).ok().ok_or(Stop::Words)
}

/// A decimal number of 32 bits.
pub fn count_of(word: &str) -> Result<u32, Stop> {
    u32::try_from(number(word)?).ok().ok_or(Stop::Words)
}

/// The product id of hex digits.
pub fn id_of(word: &str) -> Result<u16, Stop> {
    u16::try_from(hexadecimal(word)?).ok().ok_or(Stop::Words)
}

/// The byte of hex digits that the first word has.
pub fn byte_of(words: &[&str]) -> Result<u8, Stop> {
    let number = hexadecimal(words.first().ok_or(Stop::Words)?)?;
    u8::try_from(number).ok().ok_or(Stop::Words)
}

/// The number in this place of the words.
pub fn number_at(words: &[&str], place: usize) -> Result<u64, Stop> {
    number(words.get(place).ok_or(Stop::Words)?)
}

/// The words before a bar, and those behind it.
pub fn parts<'w, 'a>(words: &'w [&'a str]) -> (&'w [&'a str], &'w [&'a str]) {
    for (place, word) in words.iter().enumerate() {
        if *word == "|" {
            let behind = words.get(place.saturating_add(1)..).unwrap_or(&[]);
            return (words.get(..place).unwrap_or(&[]), behind);
        }
    }
    (words, &[])
}

/// A word without its count, and that: 1 where there is none.
fn counted(word: &str) -> Result<(&str, u64), Stop> {
    match word.split_once('*') {
        Some((unit, count)) => Ok((unit, number(count)?)),
        None => Ok((word, 1)),
    }
}

fn text_byte(byte: u8) -> u8 {
    match byte {
        b'_' => b' ',
        b'/' => b'\n',
        _ => byte,
    }
}

fn add_text(bytes: &mut Vec<u8>, letters: &str) -> Result<(), Stop> {
    for byte in letters.bytes() {
        bytes.push(text_byte(byte))?;
    }
    Ok(())
}

fn add_counting(bytes: &mut Vec<u8>, first: u64, count: u64) -> Result<(), Stop> {
    for place in 0..count {
        bytes.push((first.saturating_add(place) % 251) as u8)?;
    }
    Ok(())
}

/// Adds the lines of a segment that keeps nothing, or a page of three bytes.
fn add_segment(lines: &mut String, k: u64, keeps: bool) -> Result<(), Stop> {
    write!(lines, "open {k}\n")?;
    if keeps {
        let n = k % 32;
        write!(lines, "page {n} 00FF5A\nerase {n}\nprogram {n}\n")?;
    }
    Ok(write!(lines, "end {k}\n")?)
}

fn add_segments(
    lines: &mut String,
    bytes: &mut Vec<u8>,
    count: u64,
    keeps: bool,
) -> Result<(), Stop> {
    for before in 0..count {
        lines.clear();
        add_segment(lines, before.saturating_add(1), keeps)?;
        bytes.extend_from_slice(lines.as_bytes())?;
    }
    Ok(())
}

fn add_times(bytes: &mut Vec<u8>, unit: &[u8], count: u64) -> Result<(), Stop> {
    for _i in 0..count {
        bytes.extend_from_slice(unit)?;
    }
    Ok(())
}

fn add_digits(alloc: Global, bytes: &mut Vec<u8>, digits: &str, count: u64) -> Result<(), Stop> {
    match hex::decode(alloc, digits) {
        Ok(unit) => add_times(bytes, &unit, count),
        Err(_) => Err(Stop::Words),
    }
}

fn add_letters(alloc: Global, bytes: &mut Vec<u8>, letters: &str, count: u64) -> Result<(), Stop> {
    let mut unit = Vec::new(alloc);
    add_text(&mut unit, letters)?;
    add_times(bytes, &unit, count)
}

fn add_word(alloc: Global, bytes: &mut Vec<u8>, word: &str) -> Result<(), Stop> {
    let (unit, count) = counted(word)?;
    match unit.get(..1) {
        Some("#") => {
            let mut lines = String::new(alloc);
            add_segments(&mut lines, bytes, count, unit.len() > 1)
        }
        Some("%") => add_counting(bytes, number(unit.get(1..).unwrap_or(""))?, count),
        Some("'") => add_letters(alloc, bytes, unit.get(1..).unwrap_or(""), count),
        _ => add_digits(alloc, bytes, unit, count),
    }
}

/// Adds the bytes of these words.
fn add(alloc: Global, bytes: &mut Vec<u8>, words: &[&str]) -> Result<(), Stop> {
    for word in words {
        match word.strip_prefix('^') {
            Some(most) => bytes.truncate(number(most)? as usize),
            None => add_word(alloc, bytes, word)?,
        }
    }
    Ok(())
}

/// The bytes of these words.
pub fn bytes_of(alloc: Global, words: &[&str]) -> Result<Vec<u8>, Stop> {
    let mut bytes = Vec::new(alloc);
    add(alloc, &mut bytes, words)?;
    Ok(bytes)
}
