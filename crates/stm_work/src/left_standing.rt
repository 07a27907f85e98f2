// What a journal says of the write that was begun, and how that is told.
ghost use Rattle.std.specs.Prelude.{◌≡◌};
ghost use Rattle.stm_work.specs.LeftStanding.{begun_since, stands_since};

use std::fmt;
use std::fmt::{Display, Formatter, Write};

/// What a journal says of the write that was begun behind so many segments.
#[derive(Clone, Copy)]
pub struct Standing {
    /// How many segments there are.
    pub depth: u32,
    /// Whether the newest is unfinished.
    pub is_unfinished: bool,
}

impl Standing {
    /// How many segments came since.
    pub fn begun_since(self, before: Standing) -> u32
        ensures { result ≡ begun_since self before }
    {
        self.depth.saturating_sub(before.depth)
    }
}

/// Which segments stand behind those that there were.
#[derive(Clone, Copy)]
pub enum Stands {
    /// None.
    Nothing,
    /// The newest, which can be undone.
    Newest(u32),
    /// From one to the newest, which can be undone.
    Several { first: u32, newest: u32 },
    /// The newest, which is unfinished.
    Unfinished(u32),
    /// From one to the newest, which is unfinished.
    SeveralUnfinished { first: u32, newest: u32 },
}

impl Stands {
    /// Which stand behind those that there were, and an unfinished one also where it was there
    /// before.
    pub fn of(before: Standing, now: Standing) -> Stands
        ensures { result ≡ stands_since before now }
    {
        let newest = now.depth;
        match (now.begun_since(before), now.is_unfinished) {
            (0 | 1, true) => Stands::Unfinished(newest),
            (_, true) => Stands::SeveralUnfinished {
                first: before.depth.saturating_add(1),
                newest,
            },
            (0, false) => Stands::Nothing,
            (1, false) => Stands::Newest(newest),
            (_, false) => Stands::Several {
                first: before.depth.saturating_add(1),
                newest,
            },
        }
    }
}

impl Display for Stands {
    fn fmt<W: Write>(&self, f: &mut Formatter<W>) -> fmt::Result {
        match self {
            Stands::Nothing => f.write_str("nothing of this write"),
            Stands::Newest(newest) => { write!(f, "segment {newest}, which can be undone") }
            Stands::Several { first, newest } => write!(
                f,
                "segments {first}-{newest}, which can be undone"
            ),
            Stands::Unfinished(newest) => {
                write!(f, "segment {newest} is unfinished, undo first")
            }
            Stands::SeveralUnfinished { first, newest } => write!(
                f,
                "segments {first}-{newest}, of which {newest} is unfinished, undo first"
            ),
        }
    }
}
