// Where a session is shown as it goes on.
ghost use Rattle.std.specs.Prelude.{◌≡◌};
ghost use Rattle.stm_words.specs.declared.progress.Progress.TheVariants.{Silent};
ghost use Rattle.stm_work.specs.declared.progress_screen.Style.TheVariants.{Hidden};

use crate::otherwise::Watched;
use crate::progress_course::Place;
use crate::progress_text::Status;
use crate::progress_watch::Doing;
use std::alloc::Global;
use std::io::{IsTerminal, Write};
use std::time::{Clock, Instant};
use stm_words::{Options, Progress};

/// How a session is shown.
#[derive(Clone, Copy, PartialEq, Eq)]
pub enum Style {
    /// Not at all.
    Hidden,
    /// As one line of a terminal, which is written again and again.
    Line,
    /// As lines of their own, one a page.
    Lines,
}

impl Style {
    /// How a session is shown on standard error. Nothing is where that can't be written, as where it is
    /// closed: a file that is opened later has its number.
    pub fn of<E: Write + IsTerminal>(options: &Options, err: &mut E) -> Style
        ensures silent { options.now.progress ≡ Silent → result ≡ Hidden }
    {
        match options.progress {
            Progress::OnTerminal if err.is_terminal() => Style::Line,
            Progress::Lines if err.write(&[]).is_ok() => Style::Lines,
            _ => Style::Hidden,
        }
    }
}

/// After how many milliseconds without a byte that is said.
const QUIET: u128 = 3000;

/// How many milliseconds a line of a terminal stays at least while nothing comes.
const STAYS: u128 = 200;

/// How many milliseconds have to be gone before it is told how many are left.
const TELLING: u128 = 1000;

/// What stands behind a page's line on a terminal once pages are changed. A program that is stopped
/// by Ctrl-C says nothing more, and leaves this line there.
const IF_STOPPED: &str = "; if stopped: undo 1";

/// Where a session is shown as it goes on. What can't be written, or has no memory, is left out.
#[derive(Drop)]
pub struct Screen<'a, W: Drop, C> {
    out: W,
    clock: &'a C,
    alloc: Global,
    style: Style,
    /// A line of a terminal stands there.
    is_written: bool,
    /// It was said that nothing comes.
    is_quiet: bool,
    /// When the last byte came, or all began.
    came: Option<Instant>,
    /// When the line was written last.
    written: Option<Instant>,
    /// When the first page was begun.
    began: Option<Instant>,
    /// Pages are changed, and that isn't finished.
    is_changing: bool,
}

/// The milliseconds from one time to another; none where one of them isn't known.
fn between(from: Option<Instant>, to: Option<Instant>) -> Option<u128> {
    let (Some(from), Some(to)) = (from, to) else {
        return None;
    };
    Some(to.duration_since(from).as_millis())
}

/// How many seconds are left, where so many of so many pages took this time.
fn seconds_left(done: u32, count: u32, millis: u128) -> Option<u64> {
    if done == 0 || done >= count || millis < TELLING {
        return None;
    }
    let millis = u64::try_from(millis).ok()?;
    let left = u64::from(count.saturating_sub(done));
    let seconds = millis.checked_mul(left)? / u64::from(done) / 1000;
    Some(seconds.saturating_add(1))
}

impl<'a, W: Write + Drop, C: Clock> Screen<'a, W, C> {
    pub fn new(out: W, clock: &'a C, alloc: Global, style: Style) -> Screen<'a, W, C> {
        let mut screen = Screen {
            out,
            clock,
            alloc,
            style,
            is_written: false,
            is_quiet: false,
            came: None,
            written: None,
            began: None,
            is_changing: false,
        };
        if style != Style::Hidden {
            screen.came = screen.now();
        }
        screen
    }

    /// Whether anything is shown.
    pub fn is_shown(&self) -> bool {
        self.style != Style::Hidden
    }

    fn now(&self) -> Option<Instant> {
        Instant::now(self.clock).ok()
    }

    /// The seconds since 1970, where the clock tells them.
    pub fn seconds(&self) -> Option<u64> {
        Some(self.clock.since_1970().ok()?.as_secs())
    }

    /// A byte came.
    pub fn came(&mut self)
        ensures hidden { self.old.style ≡ Hidden → self.new.out ≡ self.old.out }
        ensures style { self.new.style ≡ self.old.style }
    {
        self.came = self.now();
        self.is_quiet = false;
    }

    /// No byte came, before the first page; so many were sent.
    pub fn wait(&mut self, sent: u64)
        ensures hidden { self.old.style ≡ Hidden → self.new.out ≡ self.old.out }
        ensures style { self.new.style ≡ self.old.style }
    {
        let now = self.now();
        let is_quiet = match between(self.came, now) {
            Some(millis) => millis >= QUIET,
            None => false,
        };
        match self.style {
            Style::Line => {
                if let Some(millis) = between(self.written, now) {
                    if millis < STAYS {
                        return;
                    }
                }
                self.written = now;
                self.write(&if is_quiet {
                    Status::Quiet(sent)
                } else {
                    Status::Settling(sent)
                });
            }
            Style::Lines if is_quiet && !self.is_quiet => {
                self.is_quiet = true;
                self.write(&Status::Quiet(sent));
            }
            _ => {}
        }
    }

    /// Another page is begun, or something else is done with the same one.
    pub fn turn(&mut self, before: Option<Place>, place: Place)
        ensures hidden { self.old.style ≡ Hidden → self.new.out ≡ self.old.out }
        ensures style { self.new.style ≡ self.old.style }
    {
        let is_begun = match before {
            Some(before) => before.turn != place.turn,
            None => true,
        };
        if is_begun && self.style == Style::Lines {
            if let Some(before) = before {
                self.end(before);
            }
        }
        if is_begun && place.turn <= 1 {
            self.began = self.now();
        }
        self.is_changing = self.is_changing || place.doing != Doing::Reading;
        if self.style == Style::Line {
            let left = self.left(place, place.turn.saturating_sub(1));
            self.write(&Status::At(place, left));
        }
    }

    /// What was begun is finished.
    pub fn finish(&mut self)
        ensures hidden { self.new.out ≡ self.old.out }
        ensures style { self.new.style ≡ self.old.style }
    {
        self.is_changing = false;
    }

    /// All was done with a page.
    pub fn end(&mut self, place: Place)
        ensures hidden { self.old.style ≡ Hidden → self.new.out ≡ self.old.out }
        ensures style { self.new.style ≡ self.old.style }
    {
        if self.style == Style::Lines {
            let left = self.left(place, place.turn);
            self.write(&Status::Done(place, left));
        }
    }

    /// How many seconds are left once so many pages are done.
    fn left(&self, place: Place, done: u32) -> Option<u64> {
        let millis = between(self.began, self.now())?;
        seconds_left(done, place.count?, millis)
    }

    /// Shows a line, in one write. What is wider than the terminal is cut at its edge: the terminal
    /// wraps nothing meanwhile, so that the next line is written over this one.
    fn write(&mut self, status: &Status)
        ensures hidden { self.old.style ≡ Hidden → self.new.out ≡ self.old.out }
        ensures style { self.new.style ≡ self.old.style }
    {
        let text = match self.style {
            Style::Hidden => return,
            Style::Line => {
                let hint = if self.is_changing { IF_STOPPED } else { "" };
                format!(in self.alloc; "\x1b[?7l\r{status}{hint}\x1b[K\x1b[?7h")
            }
            Style::Lines => format!(in self.alloc; "{status}\n"),
        };
        if let Ok(text) = text {
            self.is_written = self.style == Style::Line;
            let _ = self.out.write_all(text.as_bytes());
        }
    }

    /// Tells what watching came to, also where nothing else is shown. Where there is no memory for
    /// the line, it is written in parts.
    pub fn tell(&mut self, watched: &Watched) {
        let _ = match format!(in self.alloc; "{watched}\n") {
            Ok(line) => self.out.write_all(line.as_bytes()),
            Err(_) => writeln!(self.out, "{watched}"),
        };
    }

    /// Clears the line of a terminal.
    pub fn clear(&mut self) {
        if self.is_written {
            self.is_written = false;
            let _ = self.out.write_all(b"\r\x1b[K");
        }
    }
}
