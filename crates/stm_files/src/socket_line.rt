// A line to a device behind a Unix socket.
ghost use Rattle.std.specs.Prelude.{◌≡◌, ◌⊎◌, ◌<◌, ◌*◌, ◌^◌, ℕ, [], IfOk, IfSome, IsErr, IsOk};
ghost use Rattle.std.specs.Prelude.{MatchOption};
ghost use Rattle.std.specs.Prelude.{OnErr, OnOk, Some, length};
ghost use Rattle.std.specs.Io.KnownBytes.{ReadConsumes};
ghost use Rattle.std.specs.Io.{ReadsAtMost};
ghost use Rattle.stm_files.specs.LineTimes.{GivesUp, HasSameTimes, IsTimeAskedFor, IsNewLine};
ghost use Rattle.stm_files.specs.LineTimes.{PutsInTime, WaitsInTime, given_up, having_heard};
ghost use Rattle.stm_files.specs.LineTimes.{time_of, waiting_for};
ghost use Rattle.stm_files.specs.ReplyTime.{silence_then};
ghost use Rattle.stm_files.specs.ShortWaits.{is_over_in};
ghost use Rattle.stm_files.specs.SocketLine.{Comes, HasToWait, LineState, PutsOnLine, ReadsNothing};
ghost use Rattle.stm_files.specs.SocketLine.{SendsAll, SendsNothing, TakesFromLine};

use crate::incoming::Incoming;
use crate::outgoing::Outgoing;
use crate::reply_time::ReplyTime;
use crate::short_waits::ShortWaits;
use crate::silence::Silence;
use std::io;
use std::io::{ErrorKind, Read, Write};
use std::marker::Model;
use std::net::Net;
use std::os::unix::net::UnixStream;
use std::time::{Clock, Duration, Instant};
use stm_wire::Patience;

/// A stream on which a read that has to wait longer than a time fails with `ErrorKind::WouldBlock`.
pub trait Timed: Read + Write {
    /// That a read of it waits so many milliseconds at the most. Only a call shows it.
    ghost waits: { Self → ℕ → Type 0 };

    /// Sets that time, in milliseconds.
    fn set_limit(&mut self, millis: u64) -> io::Result<()>
        ensures set { OnOk result (waits self.new millis) }
        ensures unread { Self.remaining self.new ≡ Self.remaining self.old };

    /// Reads what came, within the time that was set last.
    fn read_within(&mut self, millis: u64, buf: &mut [u8]) -> io::Result<usize>
        requires { waits self.old millis }
        ensures still { waits self.new millis }
        ensures bound { ReadsAtMost result buf.new }
        ensures bytes { ReadConsumes
            (Self.remaining self.old) (Self.remaining self.new) result buf.new };
}

impl Timed for UnixStream {
    // the system's own socket shows nothing; code over any stream can't have it without that call
    ghost waits = { λ stream millis. IsTimeAskedFor };

    fn set_limit(&mut self, millis: u64) -> io::Result<()> {
        self.set_read_timeout(Some(Duration::from_millis(millis)))
    }

    fn read_within(&mut self, _millis: u64, buf: &mut [u8]) -> io::Result<usize> {
        self.read(buf)
    }
}

/// A line to a device behind a Unix socket. Bytes put go out together before the next byte is asked
/// for; bytes that come are taken as many as there are. Where a device is silent for so long that
/// none can be there, the line has failed.
#[derive(Drop)]
pub struct SocketLine<'a, S: Timed, C> {
    /// The socket, as it is read.
    reader: S,
    /// The same socket, as it is written.
    writer: S,
    clock: &'a C,
    silence: Silence,
    /// How many milliseconds the socket's own timeout has.
    waits: Option<u64>,
    incoming: Incoming,
    outgoing: Outgoing,
    short_waits: ShortWaits,
    reply_time: ReplyTime,
    /// The device was given up.
    has_given_up: bool,
}

impl<'a, S: Timed, C> Model for SocketLine<'a, S, C> {
    ghost Value = { LineState };

    ghost view = { λ l. record {
      sent = S.Write.contents l.writer;
      waiting = l.outgoing;
      ahead = S.Read.remaining l.reader;
      held = l.incoming;
      waits = l.waits;
      silence = l.silence;
      row = l.short_waits;
      reply = l.reply_time;
      has_given_up = l.has_given_up;
    } };

    ghost invariant = { λ l. IfSome l.waits (S.waits l.reader) };
}

/// The socket of this name, to be read and to be written; a write waits no longer than this.
fn open<R: Net>(
    rt: &R,
    name: &str,
    limit: Option<Duration>,
) -> io::Result<(UnixStream, UnixStream)> {
    let reader = UnixStream::connect(rt, name)?;
    let writer = reader.try_clone()?;
    writer.set_write_timeout(limit)?;
    Ok((reader, writer))
}

impl<'a, C: Clock> SocketLine<'a, UnixStream, C> {
    /// A line to the socket of this name, on which a brief wait is so many milliseconds, and longer
    /// behind many bytes, by its speed, where that is known; which is quiet, where its device is said
    /// to be fresh from reset; and which is given up after so many seconds without an answer; 0: never.
    pub fn connect<R: Net>(
        rt: &R,
        clock: &'a C,
        name: &str,
        brief: u64,
        baud: Option<u32>,
        is_quiet: bool,
        give_up: u64,
    ) -> io::Result<SocketLine<'a, UnixStream, C>>
        ensures { IfOk result (IsNewLine brief baud is_quiet give_up) }
    {
        let (limit, at_once) = match give_up {
            0 => (None, None),
            seconds => (
                Some(Duration::from_secs(seconds)),
                Some(seconds.saturating_mul(1000)),
            ),
        };
        let (reader, writer) = open(rt, name, limit)?;
        Ok(SocketLine {
            reader,
            writer,
            clock,
            silence: Silence::new(brief, baud, is_quiet),
            waits: None,
            incoming: Incoming::new(),
            outgoing: Outgoing::new(),
            short_waits: ShortWaits::new(limit),
            reply_time: ReplyTime::new(at_once, brief),
            has_given_up: false,
        })
    }
}

impl<'a, S: Timed, C: Clock> SocketLine<'a, S, C> {
    /// Whether the device was given up: it answered nothing for too long, or
    /// didn't take what was sent.
    pub fn has_given_up(&self) -> bool
        ensures { result ≡ self.now.has_given_up }
    {
        self.has_given_up
    }

    /// Gives the device up.
    fn give_up(&mut self) -> io::Error
        ensures { self.new ≡ given_up self.old }
    {
        self.has_given_up = true;
        io::Error::from(ErrorKind::TimedOut)
    }

    /// Hands a sending on; where the socket took nothing for too long, the device is given up.
    fn sent(&mut self, done: io::Result<()>) -> io::Result<()>
        ensures same { (self.new ≡ self.old) ⊎ (self.new ≡ given_up self.old) }
        ensures done { OnOk result (IsOk done × (self.new ≡ self.old)) }
        ensures err { OnErr result (IsErr done) }
    {
        match done {
            Err(e) if e.kind() == ErrorKind::WouldBlock => Err(self.give_up()),
            done => done,
        }
    }

    /// Sends a byte, with those that wait, before the next one is asked for.
    pub fn put(&mut self, byte: u8) -> io::Result<()>
        ensures on_line { OnOk result (PutsOnLine byte self.old self.new) }
        ensures in_time { PutsInTime byte self.old self.new }
        ensures given_up { OnOk result (self.new.has_given_up ≡ self.old.has_given_up) }
    {
        self.short_waits.put();
        self.silence.put();
        self.reply_time.put(byte);
        let done = self.outgoing.put(&mut self.writer, byte);
        self.sent(done)
    }

    /// Sends the bytes that were put.
    pub fn flush(&mut self) -> io::Result<()>
        ensures sent { OnOk result (SendsAll self.old self.new) }
        ensures unread { ReadsNothing self.old self.new }
        ensures times { HasSameTimes self.old self.new }
        ensures given_up { OnOk result (self.new.has_given_up ≡ self.old.has_given_up) }
        ensures unsent { OnErr result (0 < length self.old.waiting) }
    {
        let done = self.outgoing.send(&mut self.writer);
        self.sent(done)
    }

    /// How many milliseconds a get of this patience waits.
    fn time_of(&self, patience: Patience) -> u64
        ensures { result ≡ time_of patience self.now }
    {
        match patience {
            Patience::Brief => self.silence.wait_now(),
            Patience::Long => self.reply_time.wait(),
        }
    }

    /// Sets how long the socket waits.
    fn wait(&mut self, patience: Patience) -> io::Result<u64>
        ensures set { IfOk result (λ time. (time ≡ time_of patience self.old)
            × (self.new ≡ waiting_for time self.old)) }
        ensures given_up { self.new.has_given_up ≡ self.old.has_given_up }
    {
        let time = self.time_of(patience);
        if self.waits != Some(time) {
            self.waits = None;
            self.reader.set_limit(time)?;
            self.waits = Some(time);
        }
        Ok(time)
    }

    /// Reads what comes, by the time that was set.
    fn receive(&mut self, time: u64) -> io::Result<Option<u8>>
        requires held { self.old.held ≡ [] }
        requires set { self.old.waits ≡ Some time }
        ensures comes { IfOk result (λ answer. Comes answer self.old self.new) }
        ensures sent { SendsNothing self.old self.new }
        ensures waits { self.new.waits ≡ self.old.waits }
        ensures times { HasSameTimes self.old self.new }
        ensures given_up { self.new.has_given_up ≡ self.old.has_given_up }
    {
        self.incoming.receive(&mut self.reader, time)
    }

    /// The time now, where the clock tells it.
    fn now(&self) -> Option<Instant> {
        Instant::now(self.clock).ok()
    }

    /// Whether the device is gone where a get that waits long, which is at work, stays quiet.
    fn is_silent(&self) -> bool
        ensures { result ≡ is_over_in (silence_then self.now.reply * 10 ^ 6) self.now.row.limit }
    {
        let silent = Duration::from_millis(self.reply_time.silence_then());
        self.short_waits.are_over_in(silent)
    }

    /// The next byte that is held; None where none is, or others have to be sent before. This is
    /// asked at each byte, and calls nothing.
    #[inline(always)]
    pub fn pop(&mut self, patience: Patience) -> Option<u8>
        ensures { MatchOption result
            ((self.new ≡ self.old) × HasToWait self.old)
            (λ byte. TakesFromLine (Some byte) self.old self.new) }
    {
        if !self.outgoing.is_empty() {
            return None;
        }
        let byte = self.incoming.pop()?;
        self.short_waits.get(patience, None);
        self.silence.hold(patience, byte);
        Some(byte)
    }

    /// The next byte that came, or None where it stayed quiet.
    #[inline(never)]
    pub fn take(&mut self, patience: Patience) -> io::Result<Option<u8>>
        ensures takes { IfOk result (λ answer. TakesFromLine answer self.old self.new) }
        ensures in_time { OnOk result (WaitsInTime patience self.old self.new) }
        ensures given_up { GivesUp patience self.old self.new }
    {
        self.flush()?;
        self.reply_time.ask();
        if let Some(byte) = self.incoming.pop() {
            self.reply_time.came(Some(byte), 0);
            self.short_waits.get(patience, None);
            self.silence.hold(patience, byte);
            return Ok(Some(byte));
        }
        let time = self.wait(patience)?;
        let began = self.now();
        self.short_waits.get(patience, began);
        self.short_waits.allow(self.silence.beyond_now());
        let answer = self.receive(time)?;
        if answer.is_none() && patience == Patience::Long && self.is_silent() {
            return Err(self.give_up());
        }
        let ended = self.now();
        if let Some(ended) = ended {
            if self.short_waits.are_over(ended) {
                return Err(self.give_up());
            }
        }
        self.reply_time.came(answer, time);
        self.hear(patience, answer, began, ended);
        Ok(answer)
    }

    /// Takes note of what a get answered that had to wait, from one time to another.
    fn hear(
        &mut self,
        patience: Patience,
        answer: Option<u8>,
        began: Option<Instant>,
        ended: Option<Instant>,
    )
        ensures { self.new ≡ having_heard self.new.silence self.old }
    {
        match patience {
            Patience::Brief if answer.is_some() => {
                self.silence.hear(answer, millis_between(began, ended));
            }
            Patience::Brief => self.silence.hear(None, None),
            Patience::Long => self.silence.hear_long(answer, millis_between(began, ended)),
        }
    }
}

/// How many milliseconds lie between two times at most, where both are known.
fn millis_between(began: Option<Instant>, ended: Option<Instant>) -> Option<u32> {
    let (Some(began), Some(ended)) = (began, ended) else {
        return None;
    };
    match u32::try_from(ended.duration_since(began).as_millis()) {
        Ok(millis) => Some(millis.saturating_add(1)),
        Err(_) => Some(u32::MAX),
    }
}
