// A line to a Rig in memory, which may be bad: what comes on it may be another byte, or nothing, or
// what another device says. It follows no model.
ghost use Rattle.stm_sim.specs.Memory.{rig_state};
ghost use Rattle.stm_sim.specs.Unmodelled.{unmodelled};

use stm_sim::MemoryRig;
use stm_wire::{Patience, Rig, RigFault};

/// What befalls what comes.
#[derive(Clone, Copy)]
pub enum Trouble {
    None,
    /// One byte comes complemented, or as this one, or gets lost; or it's the first of those that
    /// don't come.
    Complemented,
    Becomes(u8),
    Lost,
    Silence,
    /// In place of what the device says comes: this byte for each that was put; the byte that was
    /// put; this byte, whether one was put or not; or what stands in a list.
    Answers(u8),
    Echoes,
    Chatters(u8),
    Lists,
}

/// What comes in place of what the device says.
#[derive(Drop)]
pub struct Other {
    last: u8,
    owed: u64,
    /// A list of bytes, or of None where it is quiet.
    pub list: Vec<Option<u8>>,
    place: usize,
}

impl Other {
    /// A byte was put.
    fn hears(&mut self, byte: u8) {
        self.last = byte;
        self.owed = self.owed.saturating_add(1);
    }

    /// One of the replies that are owed is taken; whether there was one.
    fn takes(&mut self) -> bool {
        let is_owed = self.owed > 0;
        self.owed = self.owed.saturating_sub(1);
        is_owed
    }

    /// The next of the list.
    fn listed(&mut self) -> Option<u8> {
        let next = *self.list.get(self.place)?;
        self.place = self.place.saturating_add(1);
        next
    }

    fn says(&mut self, trouble: Trouble) -> Option<u8> {
        match trouble {
            Trouble::Answers(byte) => self.takes().then_some(byte),
            Trouble::Echoes => self.takes().then_some(self.last),
            Trouble::Chatters(byte) => Some(byte),
            _ => self.listed(),
        }
    }
}

/// How many gets waited briefly, long, and long behind 7F, since the line turned last.
#[derive(Clone, Copy)]
pub struct Waits {
    pub brief: u64,
    pub long: u64,
    pub connecting: u64,
}

impl Waits {
    /// Counts a get, behind this byte that was put last.
    fn add(&mut self, patience: Patience, last: u8) {
        match patience {
            Patience::Brief => self.brief = self.brief.saturating_add(1),
            Patience::Long => {
                self.long = self.long.saturating_add(1);
                if last == 0x7F {
                    self.connecting = self.connecting.saturating_add(1);
                }
            }
        }
    }
}

const NO_WAITS: Waits = Waits {
    brief: 0,
    long: 0,
    connecting: 0,
};

#[derive(Drop)]
pub struct Line {
    pub memory: MemoryRig,
    trouble: Trouble,
    /// Which byte that comes is befallen, from 1.
    due: u64,
    came: u64,
    pub other: Other,
    pub waits: Waits,
}

impl Line {
    /// A line on which nothing is bad; the list is empty.
    pub fn new(memory: MemoryRig, list: Vec<Option<u8>>) -> Line {
        Line {
            memory,
            trouble: Trouble::None,
            due: 0,
            came: 0,
            other: Other {
                last: 0x00,
                owed: 0,
                list,
                place: 0,
            },
            waits: NO_WAITS,
        }
    }

    /// What is bad from now on.
    pub fn turn(&mut self, trouble: Trouble, due: u64) {
        self.trouble = trouble;
        self.due = due;
        self.came = 0;
        self.waits = NO_WAITS;
    }

    fn is_listened_to(&self) -> bool {
        !matches!(
            self.trouble,
            Trouble::Answers(_) | Trouble::Echoes | Trouble::Chatters(_) | Trouble::Lists
        )
    }

    /// What is handed on of a byte that the device sent; None: it is lost.
    fn given(&self, byte: u8) -> Option<u8> {
        if self.came < self.due {
            return Some(byte);
        }
        let is_due = self.came == self.due;
        match self.trouble {
            Trouble::Complemented if is_due => Some(!byte),
            Trouble::Becomes(other) if is_due => Some(other),
            Trouble::Lost if is_due => None,
            Trouble::Silence => None,
            _ => Some(byte),
        }
    }
}

impl Rig for Line {
    ghost view = { λ line. unmodelled (rig_state line.memory).line_failures
        (rig_state line.memory).journal_failures };

    ghost model = { λ line honest. absurd honest };

    ghost places = { λ line. tt };

    fn put(&mut self, byte: u8) -> Result<(), RigFault> {
        self.other.hears(byte);
        self.memory.put(byte)
    }

    fn get(&mut self, patience: Patience) -> Result<Option<u8>, RigFault> {
        self.waits.add(patience, self.other.last);
        let sent = self.memory.get(patience)?;
        if !self.is_listened_to() {
            return Ok(self.other.says(self.trouble));
        }
        let Some(byte) = sent else {
            return Ok(None);
        };
        self.came = self.came.saturating_add(1);
        match self.given(byte) {
            Some(given) => Ok(Some(given)),
            None => match self.trouble {
                Trouble::Lost => self.memory.get(patience),
                _ => Ok(None),
            },
        }
    }

    fn append(&mut self, bytes: &[u8]) -> Result<(), RigFault> {
        self.memory.append(bytes)
    }

    fn fetch(&mut self, at: u64, buf: &mut [u8]) -> Result<usize, RigFault> {
        self.memory.fetch(at, buf)
    }
}
