// How long a brief get waits for a byte.
ghost use Rattle.std.specs.Prelude.{◌≡◌, ◌≤◌, None};
ghost use Rattle.stm_files.specs.BatchWait.{wait_behind};
ghost use Rattle.stm_files.specs.Silence.{SilenceData, after_get, at_first, beyond_now, bytes_heard};
ghost use Rattle.stm_files.specs.Silence.{bytes_held, due_wait, is_lone_ack, is_refusal, is_reply};
ghost use Rattle.stm_files.specs.Silence.{known_after, known_behind, known_heard, known_held, known_long};
ghost use Rattle.stm_files.specs.Silence.{known_unmeasured, longer_of, quiet_after, refuses_pair};
ghost use Rattle.stm_files.specs.Silence.{rest_of_pairs, unless_batched, wait_now};
ghost use Rattle.stm_files.specs.Silence.{with_answer, with_held, with_long, with_put};

use crate::batch_wait::{time_beyond, wait_behind};
use std::marker::Model;
use stm_wire::Patience;

const ACK: u8 = 0x79;

const NACK: u8 = 0x1F;

/// How many milliseconds are waited where silence is due, above four times the longest answer.
const MARGIN: u64 = 20;

/// What is known of the bytes that a device may still owe.
#[derive(Clone, Copy, PartialEq, Eq, Debug)]
pub enum Known {
    /// Nothing: any byte may be on its way.
    Nothing,
    /// Nothing either, and a batch was put, whose replies may come late.
    Batched,
    /// A batch was put to a device at rest, which refused two of its bytes by each byte that came since.
    Paired,
    /// The line was quiet for a whole wait, or its device was just reset.
    Quiet,
    /// The one byte that was put to a quiet line was answered by 79 or 1F, as 79 alone where the reply
    /// was waited for long; or each two bytes of a batch by 1F.
    Answered,
    /// Behind that it was quiet, or a command was answered, or all of a batch was refused: the device
    /// is connected, has nothing begun, and owes nothing.
    Rested,
    /// A byte was put to a device at rest, and it was silent: the first of a pair is begun.
    Begun,
}

/// How long a brief get waits. It is the whole wait, as long as a reply may take, wherever one may
/// still come, and longer behind a large batch; and a shorter one where silence is due: behind the one
/// answer of a byte, and behind the first byte of a pair. What shorter is, is measured on this line.
#[derive(Drop)]
pub struct Silence {
    whole: u64,
    known: Known,
    puts: u8,
    longest: Option<u32>,
    baud: Option<u32>,
    bytes: u32,
}

impl Model for Silence {
    ghost Value = { SilenceData };

    ghost view = { λ s. record {
      whole = s.whole;
      known = s.known;
      puts = s.puts;
      longest = s.longest;
      baud = s.baud;
      bytes = s.bytes;
    } };

    ghost invariant = { λ s. s.puts ≤ 2 };
}

/// The longer one of two times, where there are two.
fn longer_of(longest: Option<u32>, taken: Option<u32>) -> Option<u32>
    ensures { result ≡ longer_of longest taken }
{
    match (longest, taken) {
        (Some(longest), Some(taken)) => Some(longest.max(taken)),
        (Some(longest), None) => Some(longest),
        (None, taken) => taken,
    }
}

/// What a byte says that came for one that was put to a quiet line.
fn is_reply(byte: u8) -> Known
    ensures { result ≡ is_reply byte }
{
    if byte == ACK || byte == NACK {
        Known::Answered
    } else {
        Known::Nothing
    }
}

/// What a byte says that came for the second one of a pair.
fn is_refusal(byte: u8) -> Known
    ensures { result ≡ is_refusal byte }
{
    if byte == NACK {
        Known::Rested
    } else {
        Known::Nothing
    }
}

/// What is known where two more of a batch were refused, of which so many bytes were not.
fn rest_of_pairs(bytes: u32) -> Known
    ensures { result ≡ rest_of_pairs bytes }
{
    if bytes <= 2 {
        Known::Answered
    } else {
        Known::Paired
    }
}

impl Known {
    /// What is known behind a get that stayed quiet.
    fn quiet_after(self, puts: u8) -> Known
        ensures { result ≡ quiet_after self puts }
    {
        match self {
            Known::Answered if puts == 0 => Known::Rested,
            Known::Rested if puts == 0 => Known::Rested,
            Known::Rested => Known::Begun,
            _ => Known::Quiet,
        }
    }

    /// What is known behind a byte that came.
    fn known_after(self, puts: u8, byte: u8) -> Known
        ensures { result ≡ known_after self puts byte }
    {
        match self {
            Known::Quiet if puts == 1 => is_reply(byte),
            Known::Begun if puts == 1 => is_refusal(byte),
            _ => Known::Nothing,
        }
    }

    /// What is known behind a brief get.
    fn after_get(self, puts: u8, answer: Option<u8>) -> Known
        ensures { result ≡ after_get self puts answer }
    {
        match answer {
            Some(byte) => self.known_after(puts, byte),
            None => self.quiet_after(puts),
        }
    }

    /// The same as `known`, unless a batch was put before.
    fn unless_batched(self, known: Known) -> Known
        ensures { result ≡ unless_batched self known }
    {
        match self {
            Known::Batched | Known::Paired => Known::Batched,
            _ => known,
        }
    }

    /// The same as `known`, unless a batch was put, now or before.
    fn known_behind(self, puts: u8, known: Known) -> Known
        ensures { result ≡ known_behind self puts known }
    {
        if puts >= 2 {
            return Known::Batched;
        }
        self.unless_batched(known)
    }

    /// Whether a byte refuses two of a batch that was put to a device at rest, of which so many bytes
    /// aren't refused yet.
    fn refuses_pair(self, puts: u8, bytes: u32, byte: u8) -> bool
        ensures { result ≡ refuses_pair self puts bytes byte }
    {
        match self {
            Known::Rested => puts >= 2 && byte == NACK,
            Known::Paired => puts == 0 && (bytes >= 2 && byte == NACK),
            _ => false,
        }
    }

    /// What is known behind a brief get that had to wait, where so many bytes are on their way.
    fn known_heard(self, puts: u8, bytes: u32, answer: Option<u8>) -> Known
        ensures { result ≡ known_heard self puts bytes answer }
    {
        match answer {
            Some(byte) if self.refuses_pair(puts, bytes, byte) => rest_of_pairs(bytes),
            _ => self.known_behind(puts, self.after_get(puts, answer)),
        }
    }

    /// How many bytes may still be on their way behind such a get: none, where it stayed quiet.
    fn bytes_heard(self, puts: u8, bytes: u32, answer: Option<u8>) -> u32
        ensures { result ≡ bytes_heard self puts bytes answer }
    {
        match answer {
            Some(byte) if self.refuses_pair(puts, bytes, byte) => bytes.saturating_sub(2),
            Some(_) => bytes,
            None => 0,
        }
    }

    /// Whether a get that waits long answered 79 for the one byte that was put to a quiet line. `bytes`
    /// were put since it was quiet, which behind a batch is a wait as long as all its bytes need.
    fn is_lone_ack(self, puts: u8, bytes: u32, answer: Option<u8>) -> bool
        ensures { result ≡ is_lone_ack self puts bytes answer }
    {
        match (self, answer) {
            (Known::Quiet | Known::Batched, Some(byte)) => puts == 1 && bytes == 1 && byte == ACK,
            _ => false,
        }
    }

    /// What is known behind a get that waits long, where its answer isn't measured.
    fn known_unmeasured(self, puts: u8, answer: Option<u8>) -> Known
        ensures { result ≡ known_unmeasured self puts answer }
    {
        match answer {
            Some(_) if puts >= 2 => Known::Rested,
            Some(_) if puts == 0 => self,
            _ => self.unless_batched(Known::Nothing),
        }
    }

    /// What is known behind a get that waits long.
    fn known_long(self, puts: u8, bytes: u32, answer: Option<u8>) -> Known
        ensures { result ≡ known_long self puts bytes answer }
    {
        if self.is_lone_ack(puts, bytes, answer) {
            Known::Answered
        } else {
            self.known_unmeasured(puts, answer)
        }
    }

    /// What is known behind a byte that was there.
    #[inline(always)]
    fn known_held(self, patience: Patience, puts: u8, bytes: u32, byte: u8) -> Known
        ensures { result ≡ known_held patience self puts bytes byte }
    {
        match patience {
            Patience::Long if puts == 0 => self,
            Patience::Long => self.unless_batched(Known::Nothing),
            Patience::Brief if puts == 0 && self.refuses_pair(puts, bytes, byte) => {
                rest_of_pairs(bytes)
            }
            Patience::Brief => self.known_behind(puts, Known::Nothing),
        }
    }

    /// How many of so many bytes may still be on their way behind it: none, where the reply to a
    /// command was asked for.
    #[inline(always)]
    fn bytes_held(self, patience: Patience, puts: u8, bytes: u32, byte: u8) -> u32
        ensures { result ≡ bytes_held patience self puts bytes byte }
    {
        match patience {
            Patience::Brief if puts == 0 && self.refuses_pair(puts, bytes, byte) => {
                bytes.saturating_sub(2)
            }
            Patience::Brief => bytes,
            Patience::Long => 0,
        }
    }
}

/// What is waited where silence is due, in milliseconds.
fn due_wait(whole: u64, longest: Option<u32>) -> u64
    ensures { result ≡ due_wait whole longest }
{
    match longest {
        Some(longest) => whole.min(4 * u64::from(longest) + MARGIN),
        None => whole,
    }
}

impl Silence {
    /// On a line where a reply may take so many milliseconds, and of which nothing else is known, but
    /// maybe how many bits a second it has, and that it is quiet, as where its device was just reset.
    pub fn new(whole: u64, baud: Option<u32>, is_quiet: bool) -> Silence
        ensures { result ≡ at_first whole baud is_quiet }
    {
        Silence {
            whole,
            known: if is_quiet {
                Known::Quiet
            } else {
                Known::Nothing
            },
            puts: 0,
            longest: None,
            baud,
            bytes: 0,
        }
    }

    /// A byte is put.
    #[inline(always)]
    pub fn put(&mut self)
        ensures { self.new ≡ with_put self.old }
    {
        self.puts = (self.puts + 1).min(2);
        self.bytes = self.bytes.saturating_add(1);
    }

    /// How many milliseconds a brief get waits now.
    pub fn wait_now(&self) -> u64
        ensures is { result ≡ wait_now self.now }
        ensures most { result ≤ wait_behind self.now.whole self.now.baud self.now.bytes }
        ensures few { self.now.baud ≡ None → self.now.bytes ≤ 256 → result ≤ self.now.whole }
    {
        match self.known {
            Known::Answered if self.puts == 0 => due_wait(self.whole, self.longest),
            Known::Quiet | Known::Rested if self.puts == 0 => self.whole.min(1),
            Known::Rested if self.puts == 1 => due_wait(self.whole, self.longest),
            _ => wait_behind(self.whole, self.baud, self.bytes),
        }
    }

    /// How many milliseconds longer than otherwise a draining may go on now.
    pub fn beyond_now(&self) -> u64
        ensures is { result ≡ beyond_now self.now }
        ensures few { self.now.baud ≡ None → self.now.bytes ≤ 256 → result ≡ 0 }
    {
        time_beyond(self.whole, self.baud, self.bytes)
    }

    /// A brief get that had to wait has answered: a byte after so many milliseconds, or none.
    pub fn hear(&mut self, answer: Option<u8>, taken: Option<u32>)
        ensures { self.new ≡ with_answer answer taken self.old }
    {
        let bytes = self.known.bytes_heard(self.puts, self.bytes, answer);
        self.known = self.known.known_heard(self.puts, self.bytes, answer);
        self.puts = 0;
        self.longest = longer_of(self.longest, taken);
        self.bytes = bytes;
    }

    /// A get that waits long, and had to wait, has answered: a byte after so many milliseconds, or
    /// none.
    pub fn hear_long(&mut self, answer: Option<u8>, taken: Option<u32>)
        ensures { self.new ≡ with_long answer taken self.old }
    {
        if self.known.is_lone_ack(self.puts, self.bytes, answer) {
            self.longest = longer_of(self.longest, taken);
        }
        self.known = self.known.known_long(self.puts, self.bytes, answer);
        self.puts = 0;
        self.bytes = 0;
    }

    /// A get answered a byte that was there: it came before what was put was sent, and is no answer to
    /// it.
    #[inline(always)]
    pub fn hold(&mut self, patience: Patience, byte: u8)
        ensures { self.new ≡ with_held patience byte self.old }
    {
        let bytes = self.known.bytes_held(patience, self.puts, self.bytes, byte);
        self.known = self.known.known_held(patience, self.puts, self.bytes, byte);
        self.puts = 0;
        self.bytes = bytes;
    }
}
