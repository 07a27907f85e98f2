// The loops of a row: its acts are played once for each of their values.
//
// `each NAME[,HEX] FROM TO [STEP [BASE]]`: the numbers from one up to another, but not it; and the
// sum of each and a base in eight hex digits.
// `of NAME,NAME.. VALUE,VALUE.. VALUE,VALUE..`: each of these lists of words.
// `stops NAME,NAME,NAME FROM TO NEAR STRIDE PART..`: the steps of a run after which it may be stopped,
// from one up to another; what it answers; and how many segments it has begun. A part is a count of
// steps behind a letter: l of the line, j of the journal, o of the journal with an `open` line. Only
// those at most NEAR from where a part begins or ends, or that STRIDE divides.
use crate::bytes::{hexadecimal, number};
use crate::names::{Names, words_of};
use crate::stopping::Stop;
use std::alloc::Global;

/// Gives each of the names its value, and tells where the loop is.
fn name_all(
    names: &mut Names,
    listed: &str,
    values: &str,
    place: u64,
) -> Result<Option<u64>, Stop> {
    let mut left = values.split(',');
    for name in listed.split(',') {
        names.name(name, left.next().ok_or(Stop::Words)?)?;
    }
    Ok(Some(place))
}

/// Names the number of `NAME[,HEX] FROM TO [STEP [BASE]]` in this place, if there is one.
fn name_number(
    alloc: Global,
    names: &mut Names,
    listed: &str,
    words: &[&str],
    place: u64,
) -> Result<Option<u64>, Stop> {
    let [from, to, rest @ ..] = words else {
        return Err(Stop::Words);
    };
    let step = number(rest.first().unwrap_or(&"1"))?;
    let base = hexadecimal(rest.get(1).unwrap_or(&"0"))?;
    let value = place.saturating_mul(step).saturating_add(number(from)?);
    if value >= number(to)? {
        return Ok(None);
    }
    let sum = u64::from(base).saturating_add(value);
    let values = format!(in alloc; "{value},{sum:08X}")?;
    name_all(names, listed, values.as_str(), place)
}

/// A part of a run.
#[derive(Clone, Copy)]
struct Part {
    steps: u64,
    /// What a run answers that is stopped in it.
    answer: &'static str,
    begins: bool,
}

fn part_of(word: &str) -> Result<Part, Stop> {
    let (answer, begins) = match word.get(..1) {
        Some("l") => ("line failed", false),
        Some("j") => ("journal failed", false),
        Some("o") => ("journal failed", true),
        _ => return Err(Stop::Words),
    };
    let steps = number(word.get(1..).unwrap_or(""))?;
    Ok(Part {
        steps,
        answer,
        begins,
    })
}

/// A stop of a run.
#[derive(Clone, Copy)]
struct Stopped {
    steps: u64,
    answer: &'static str,
    begun: u64,
    is_near: bool,
}

/// The stop of a run of these parts after so many steps.
fn stopped_after(parts: &[&str], steps: u64, near: u64) -> Result<Stopped, Stop> {
    let mut stop = Stopped {
        steps,
        answer: "done",
        begun: 0,
        is_near: steps <= near,
    };
    let mut turn = 0_u64;
    for word in parts {
        let part = part_of(word)?;
        let end = turn.saturating_add(part.steps);
        if turn <= steps && steps < end {
            stop.answer = part.answer;
        }
        if part.begins && end <= steps {
            stop.begun = stop.begun.saturating_add(1);
        }
        turn = end;
        stop.is_near = stop.is_near || turn.abs_diff(steps) <= near;
    }
    Ok(stop)
}

/// The first stop of `FROM TO NEAR STRIDE PART..` that is this one or behind it.
fn stop_from(words: &[&str], first: u64) -> Result<Option<Stopped>, Stop> {
    let [from, to, near, stride, parts @ ..] = words else {
        return Err(Stop::Words);
    };
    let (near, stride) = (number(near)?, number(stride)?);
    for steps in number(from)?.max(first)..number(to)? {
        let stop = stopped_after(parts, steps, near)?;
        if stop.is_near || steps.checked_rem(stride) == Some(0) {
            return Ok(Some(stop));
        }
    }
    Ok(None)
}

/// Names the first stop from one on, and tells after how many steps it is.
fn name_stop(
    alloc: Global,
    names: &mut Names,
    listed: &str,
    words: &[&str],
    first: u64,
) -> Result<Option<u64>, Stop> {
    let Some(stop) = stop_from(words, first)? else {
        return Ok(None);
    };
    let (steps, answer, begun) = (stop.steps, stop.answer, stop.begun);
    let values = format!(in alloc; "{steps},{answer},{begun}")?;
    name_all(names, listed, values.as_str(), steps)
}

/// Gives the names of a loop of these words their values in this place or the next one that has any,
/// and tells that place.
fn name_words(
    alloc: Global,
    names: &mut Names,
    words: &[&str],
    place: u64,
) -> Result<Option<u64>, Stop> {
    let [verb, listed, rest @ ..] = words else {
        return Err(Stop::Words);
    };
    match *verb {
        "stops" => name_stop(alloc, names, listed, rest, place),
        "each" => name_number(alloc, names, listed, rest, place),
        _ => match rest.get(place as usize) {
            Some(values) => name_all(names, listed, values, place),
            None => Ok(None),
        },
    }
}

/// The same of a line.
fn name_at(alloc: Global, names: &mut Names, line: &str, place: u64) -> Result<Option<u64>, Stop> {
    let mut text = String::new(alloc);
    names.expand(line, &mut text)?;
    let words = words_of(alloc, text.as_str())?;
    name_words(alloc, names, &words, place)
}

/// Whether a line is a loop.
pub fn is_loop(line: &str) -> bool {
    line.starts_with("each ") || line.starts_with("of ") || line.starts_with("stops ")
}

/// The loops of a row, and where each of them is.
#[derive(Drop)]
pub struct Loops {
    alloc: Global,
    places: Vec<u64>,
    is_begun: bool,
}

impl Loops {
    pub fn new(alloc: Global) -> Loops {
        Loops {
            alloc,
            places: Vec::new(alloc),
            is_begun: false,
        }
    }

    /// Names all values where the loops are; or tells the first loop that is at its end.
    fn name(&mut self, names: &mut Names, lines: &[&str]) -> Result<Option<usize>, Stop> {
        for (i, line) in lines.iter().enumerate() {
            if i >= self.places.len() {
                self.places.push(0)?;
            }
            let Some(place) = self.places.get_mut(i) else {
                return Ok(Some(i));
            };
            match name_at(self.alloc, names, line, *place)? {
                Some(found) => *place = found,
                None => return Ok(Some(i)),
            }
        }
        Ok(None)
    }

    /// The loop before this one goes on, and those behind that begin anew; false: there is none.
    fn go_on_before(&mut self, i: usize) -> bool {
        self.places.truncate(i);
        match self.places.last_mut() {
            Some(place) => {
                *place = place.saturating_add(1);
                true
            }
            None => false,
        }
    }

    /// Goes to the next values, and names them; false: there are none.
    pub fn next(&mut self, names: &mut Names, lines: &[&str], kept: usize) -> Result<bool, Stop> {
        if self.is_begun && !self.go_on_before(lines.len()) {
            return Ok(false);
        }
        self.is_begun = true;
        for _i in 0..u64::MAX {
            names.keep(kept);
            match self.name(names, lines)? {
                None => return Ok(true),
                Some(i) => {
                    if !self.go_on_before(i) {
                        return Ok(false);
                    }
                }
            }
        }
        Ok(false)
    }
}
