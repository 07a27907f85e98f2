// What a board does otherwise than the model, and what watching a session came to.

use std::fmt;
use std::fmt::{Display, Formatter};
use stm_watch::Refusal;
use thiserror::Error;

/// What a board does that no device of the model does.
#[derive(Clone, Copy, Debug, PartialEq, Eq, Error)]
pub enum Otherwise {
    /// A reply came that wasn't due.
    #[error("{}", Reply(*.0))]
    Reply(Refusal),
    /// It lists codes as no device with its chip.
    #[error("no device with its chip lists the codes that it lists")]
    Codes,
}

/// A reply that wasn't due, as it is told.
#[derive(Clone, Copy)]
struct Reply(Refusal);

impl Display for Reply {
    fn fmt<W: fmt::Write>(&self, f: &mut Formatter<W>) -> fmt::Result {
        let came = self.0.came;
        match (self.0.due, self.0.address) {
            (Some(due), Some(address)) => write!(
                f,
                "{came:02X} stands at {address:08X}, and {due:02X} was read or written there before"
            ),
            (Some(due), None) => write!(f, "{came:02X} came, and {due:02X} was due"),
            (None, _) => write!(f, "{came:02X} came unasked"),
        }
    }
}

/// What is told where watching didn't begin.
const NOTHING: &str =
    "watched: nothing, since no chip of the table had told its id and codes by then";

/// What watching a session came to in which no reply was refused.
#[derive(Clone, Copy, PartialEq, Eq)]
pub struct Watched {
    /// Whether it began.
    pub has_begun: bool,
    /// How many bytes of replies came, each as a device of the model sends it.
    pub passed: u64,
    /// How many came behind these of which nothing can be told.
    pub unjudged: u64,
}

impl Display for Watched {
    fn fmt<W: fmt::Write>(&self, f: &mut Formatter<W>) -> fmt::Result {
        if !self.has_begun {
            return f.write_str(NOTHING);
        }
        write!(
            f,
            "watched: {} bytes of replies, each as a device of the model sends it",
            self.passed
        )?;
        if self.unjudged == 0 {
            return Ok(());
        }
        write!(
            f,
            "; {} more that it leaves open, behind a protection or where memory failed",
            self.unjudged
        )
    }
}
