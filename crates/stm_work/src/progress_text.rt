// What is shown of a session that goes on.

use crate::progress_course::Place;
use crate::progress_watch::Doing;
use std::fmt;
use std::fmt::{Display, Formatter};

/// What is shown of a session that goes on.
#[derive(Clone, Copy)]
pub enum Status {
    /// No page is done yet, and so many bytes were sent.
    Settling(u64),
    /// So many bytes were sent, and nothing came for some time.
    Quiet(u64),
    /// What is done with a page, and how many seconds are left, where that can be told.
    At(Place, Option<u64>),
    /// The same of a page with which all is done.
    Done(Place, Option<u64>),
}

impl Doing {
    /// What was done with the page then.
    fn done(self) -> &'static str {
        match self {
            Doing::Reading => "read",
            Doing::Erasing => "erased",
            Doing::Writing => "written",
        }
    }
}

impl Display for Doing {
    fn fmt<W: fmt::Write>(&self, f: &mut Formatter<W>) -> fmt::Result {
        match self {
            Doing::Reading => f.write_str("reading"),
            Doing::Erasing => f.write_str("erasing"),
            Doing::Writing => f.write_str("writing"),
        }
    }
}

impl Display for Status {
    fn fmt<W: fmt::Write>(&self, f: &mut Formatter<W>) -> fmt::Result {
        match self {
            Status::Settling(sent) => write!(f, "settling, {sent} bytes sent"),
            Status::Quiet(sent) => write!(
                f,
                "no answer yet: is the board in its bootloader? {sent} bytes sent"
            ),
            Status::At(place, left) => {
                write!(f, "{} page {}", place.doing, place.page)?;
                write_turn(f, place, *left)
            }
            Status::Done(place, left) => {
                write!(f, "page {} {}", place.page, place.doing.done())?;
                write_turn(f, place, *left)
            }
        }
    }
}

/// The how manieth page of how many it is, and how many seconds are left.
fn write_turn<W: fmt::Write>(
    f: &mut Formatter<W>,
    place: &Place,
    left: Option<u64>,
) -> fmt::Result {
    match place.count {
        Some(count) => write!(f, ", {} of {count} pages", place.turn)?,
        None => write!(f, ", {} so far", place.turn)?,
    }
    match left {
        Some(seconds) => write!(f, ", {seconds} s left"),
        None => Ok(()),
    }
}
