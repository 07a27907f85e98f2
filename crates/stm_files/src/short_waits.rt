// How long short waits on a line may go on.
ghost use Rattle.std.specs.Prelude.{◌≡◌, ◌*◌, option_map};
ghost use Rattle.std.specs.Duration.{as_nanos};
ghost use Rattle.std.specs.Time.{instant_nanos};
ghost use Rattle.stm_files.specs.ShortWaits.{WaitsData, no_waits, one_put_more, with_get, is_over_at};
ghost use Rattle.stm_files.specs.ShortWaits.{is_over_in, with_spare};

use std::marker::Model;
use std::mem;
use std::time::{Duration, Instant};
use stm_wire::Patience;

/// How many gets go on before anything is over: one for what is owed, and one for each byte that
/// settles. A bootloader that is settled byte by byte has refused one before the eighth.
const FEWEST: u32 = 9;

const NANOS_IN_MILLI: u128 = 1_000_000;

/// The short gets on a line that follow one another, with one byte put between two of them or none,
/// as draining and settling byte by byte have them. They are over once there were 9 and they have
/// gone on for so long, or for longer behind many bytes: no bootloader needs as many. A get that waits
/// long ends them, and so does a batch of bytes, to which a device may owe no reply.
#[derive(Drop)]
pub struct ShortWaits {
    limit: Option<Duration>,
    puts: u32,
    gets: u32,
    since: Option<Instant>,
    /// How many milliseconds longer they may go on.
    spare: u64,
}

impl Model for ShortWaits {
    ghost Value = { WaitsData };

    ghost view = { λ w. record {
      limit = option_map as_nanos w.limit;
      puts = w.puts;
      gets = w.gets;
      since = option_map instant_nanos w.since;
      spare = w.spare * 1000000;
    } };
}

impl ShortWaits {
    /// None yet, which may go on for so long; None: for ever.
    pub fn new(limit: Option<Duration>) -> ShortWaits
        ensures { result ≡ no_waits (option_map as_nanos limit) }
    {
        ShortWaits {
            limit,
            puts: 0,
            gets: 0,
            since: None,
            spare: 0,
        }
    }

    /// A byte is put.
    #[inline(always)]
    pub fn put(&mut self)
        ensures { self.new ≡ one_put_more self.old }
    {
        self.puts = self.puts.saturating_add(1);
    }

    /// A get begins; where it has to wait, at this time.
    #[inline(always)]
    pub fn get(&mut self, patience: Patience, at: Option<Instant>)
        ensures { self.new ≡ with_get patience (option_map instant_nanos at) self.old }
    {
        let is_one = self.puts <= 1;
        self.puts = 0;
        if patience == Patience::Brief && is_one {
            self.gets = self.gets.saturating_add(1);
            self.since = self.since.or(at);
        } else {
            self.gets = 0;
            self.since = None;
            self.spare = 0;
        }
    }

    /// They may go on for so many milliseconds longer, or for as long as before.
    pub fn allow(&mut self, millis: u64)
        ensures { self.new ≡ with_spare millis self.old }
    {
        self.spare = self.spare.max(millis);
    }

    /// Whether they are over now.
    pub fn are_over(&self, now: Instant) -> bool
        ensures { result ≡ is_over_at (instant_nanos now) self.now }
    {
        let (Some(limit), Some(since)) = (self.limit, self.since) else {
            return false;
        };
        let most = limit.as_nanos() + u128::from(self.spare) * NANOS_IN_MILLI;
        self.gets >= FEWEST && now.duration_since(since).as_nanos() >= most
    }

    /// Whether one wait of this length is over it alone.
    pub fn are_over_in(&self, time: Duration) -> bool
        ensures { result ≡ is_over_in (as_nanos time) self.now.limit }
    {
        match self.limit {
            Some(limit) => time.as_nanos() >= limit.as_nanos(),
            None => false,
        }
    }
}
