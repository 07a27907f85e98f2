// The bytes that Read Memory brought last (AN3155, section 3.4).

ghost use Rattle.std.specs.Prelude.{◌≡◌, true};
ghost use Rattle.stm_work.specs.PageGuard.{ReadsAs};

use crate::kept_pages::Left;
use std::alloc::Global;
use stm_files::sum_of_page;

/// The code of Read Memory.
const READ: u8 = 0x11;

const ACK: u8 = 0x79;

/// How far a command has come.
#[derive(Clone, Copy, PartialEq, Eq)]
enum Step {
    /// It is no read.
    Other,
    /// The code of a read was put.
    Code,
    /// Its address was.
    Address,
    /// And its count: so many bytes follow the ACK.
    Count(u16),
    /// So many bytes are to come.
    Data(u16),
}

/// What was read since this was emptied, byte by byte.
#[derive(Drop)]
pub struct PageReads {
    held: Vec<u8>,
    is_lost: bool,
    step: Step,
    /// How many bytes were put since the last get, and the first two of them.
    put: u8,
    first: u8,
    second: u8,
}

impl PageReads {
    pub fn new(alloc: Global) -> PageReads {
        PageReads {
            held: Vec::new(alloc),
            is_lost: false,
            step: Step::Other,
            put: 0,
            first: 0,
            second: 0,
        }
    }

    /// Nothing was read.
    pub fn clear(&mut self) {
        self.held.clear();
        self.is_lost = false;
    }

    /// A byte is put.
    pub fn put(&mut self, byte: u8) {
        match self.put {
            0 => self.first = byte,
            1 => self.second = byte,
            _ => {}
        }
        self.put = self.put.saturating_add(1);
    }

    /// A get answered.
    pub fn get(&mut self, answer: Option<u8>) {
        if self.put != 0 {
            self.step = self.step_behind();
            self.put = 0;
        }
        match (self.step, answer) {
            (Step::Count(count), Some(ACK)) => self.step = Step::Data(count),
            (Step::Count(_), _) => self.step = Step::Other,
            (Step::Data(count), Some(byte)) if count != 0 => {
                self.step = Step::Data(count - 1);
                if self.held.extend_from_slice(&[byte]).is_err() {
                    self.is_lost = true;
                }
            }
            _ => {}
        }
    }

    /// What the bytes put since the last get are.
    fn step_behind(&self) -> Step {
        match (self.step, self.put) {
            (Step::Address, 2) => Step::Count(u16::from(self.first) + 1),
            (_, 2) if self.first == READ && self.second == !READ => Step::Code,
            (Step::Code, 5) => Step::Address,
            _ => Step::Other,
        }
    }

    /// Whether the last bytes that were read are as a page was left.
    pub fn reads_as(&self, left: Left) -> bool
        ensures { result ≡ true → ReadsAs self.now left }
    {
        let size = left.size as usize;
        if self.is_lost || self.held.len() < size {
            return false;
        }
        sum_of_page(&self.held[self.held.len() - size..]) == left.sum
    }
}
