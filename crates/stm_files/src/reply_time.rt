// How long the reply to a command is waited for.
ghost use Rattle.std.specs.Prelude.{◌≡◌};
ghost use Rattle.stm_files.specs.ReplyTime.{ReplyData, begun_silence, is_ack, is_slow_code};
ghost use Rattle.stm_files.specs.ReplyTime.{left_limit, no_reply, reply_asked, reply_came, reply_put};
ghost use Rattle.stm_files.specs.ReplyTime.{reply_wait, silence_before, silence_then, silent_behind};

use std::marker::Model;

/// How long the slowest command may take, in milliseconds.
const SLOWEST: u64 = 40_000;

const ACK: u8 = 0x79;

/// The byte that connects a device.
const CONNECT: u8 = 0x7F;

/// How many bytes an address has, with its check.
const ADDRESS: u8 = 5;

/// How long the reply to a command is waited for, by its code. One that erases, writes or protects
/// may take as long as the slowest. To any other a byte of its reply has to come within a limit: a
/// device that is silent for so long is gone. Where 7F alone was sent, the silence before it counts too:
/// of the limit just what is left is waited, but no less than a reply may be late.
#[derive(Drop)]
pub struct ReplyTime {
    limit: Option<u64>,
    /// How many milliseconds late a reply may be.
    late: u64,
    first: u8,
    puts: u8,
    is_pair: bool,
    sent: u8,
    has_address: bool,
    is_slow: bool,
    /// How many milliseconds were waited in vain since the first byte was asked for, or since the last
    /// one that came; None where nothing was put yet.
    silent: Option<u64>,
}

impl Model for ReplyTime {
    ghost Value = { ReplyData };

    ghost view = { λ r. record {
      limit = r.limit;
      late = r.late;
      first = r.first;
      puts = r.puts;
      is_pair = r.is_pair;
      sent = r.sent;
      has_address = r.has_address;
      is_slow = r.is_slow;
      silent = r.silent;
    } };
}

/// Whether this is the code of a command that writes, erases or protects.
fn is_slow_code(code: u8) -> bool
    ensures { result ≡ is_slow_code code }
{
    code == 0x31
        || code == 0x43
        || code == 0x44
        || code == 0x63
        || code == 0x73
        || code == 0x82
        || code == 0x92
}

/// Whether it is an acknowledgement.
fn is_ack(answer: Option<u8>) -> bool
    ensures { result ≡ is_ack answer }
{
    match answer {
        Some(byte) => byte == ACK,
        None => false,
    }
}

/// The silence since the first byte, which is asked for at the latest now.
fn begun_silence(silent: Option<u64>) -> Option<u64>
    ensures { result ≡ begun_silence silent }
{
    match silent {
        None => Some(0),
        Some(silent) => Some(silent),
    }
}

/// The silence behind an answer, or behind none for so many milliseconds.
fn silent_behind(answer: Option<u8>, waited: u64, silent: Option<u64>) -> Option<u64>
    ensures { result ≡ silent_behind answer waited silent }
{
    match (answer, silent) {
        (_, None) => None,
        (None, Some(silent)) => Some(silent.saturating_add(waited)),
        (Some(_), Some(_)) => Some(0),
    }
}

/// What is left of the limit behind such a silence, but no less than a reply may be late.
fn left_limit(limit: Option<u64>, late: u64, silent: u64) -> Option<u64>
    ensures { result ≡ left_limit limit late silent }
{
    match limit {
        None => None,
        Some(limit) => Some(limit.saturating_sub(silent).max(late.min(limit))),
    }
}

impl ReplyTime {
    /// No command was sent yet. A reply that comes at once may take so many milliseconds; None: as
    /// many as any. No reply is later than so many.
    pub fn new(limit: Option<u64>, late: u64) -> ReplyTime
        ensures { result ≡ no_reply limit late }
    {
        ReplyTime {
            limit,
            late,
            first: 0,
            puts: 0,
            is_pair: false,
            sent: 0,
            has_address: false,
            is_slow: false,
            silent: None,
        }
    }

    /// A byte is put.
    #[inline(always)]
    pub fn put(&mut self, byte: u8)
        ensures { self.new ≡ reply_put byte self.old }
    {
        self.is_pair = self.puts == 1 && byte == !self.first;
        if self.puts == 0 {
            self.first = byte;
        }
        self.puts = self.puts.saturating_add(1);
    }

    /// A get waits for what was put.
    pub fn ask(&mut self)
        ensures { self.new ≡ reply_asked self.old }
    {
        if self.puts == 0 {
            return;
        }
        if self.is_pair && !self.has_address {
            self.is_slow = is_slow_code(self.first);
        } else if self.puts == 1 {
            self.is_slow = false;
        }
        self.sent = self.puts;
        self.puts = 0;
        self.is_pair = false;
        self.has_address = false;
        self.silent = begun_silence(self.silent);
    }

    /// A get answers this, or nothing for so many milliseconds.
    pub fn came(&mut self, answer: Option<u8>, waited: u64)
        ensures { self.new ≡ reply_came answer waited self.old }
    {
        self.has_address = self.sent == ADDRESS && !self.is_slow && is_ack(answer);
        self.sent = 0;
        self.silent = silent_behind(answer, waited, self.silent);
    }

    /// For how long it was silent before, as far as that counts: where 7F alone was sent.
    fn silence_before(&self) -> u64
        ensures { result ≡ silence_before self.now }
    {
        match self.silent {
            Some(silent) if self.sent == 1 && self.first == CONNECT => silent,
            _ => 0,
        }
    }

    /// How many milliseconds a byte of the reply is waited for.
    pub fn wait(&self) -> u64
        ensures { result ≡ reply_wait self.now }
    {
        if self.is_slow {
            return SLOWEST;
        }
        match left_limit(self.limit, self.late, self.silence_before()) {
            Some(limit) => SLOWEST.min(limit),
            None => SLOWEST,
        }
    }

    /// For how many milliseconds it was silent, as far as that counts, once this wait was in vain too.
    #[tactic(auto, unfolding(crate::specs::ReplyTime::silence_then))]
    pub fn silence_then(&self) -> u64
        ensures { result ≡ silence_then self.now }
    {
        self.silence_before().saturating_add(self.wait())
    }
}
