// A Rig whose calls are shown as they go on, and looked back at where they came to no good end.
ghost use Rattle.std.specs.Prelude.{◌≡◌};
ghost use Rattle.stm_work.specs.Steps.{Stays};

use crate::failure::Failure;
use crate::hint::Hint;
use crate::hinting::hint_of;
use crate::keeper::{Guarded, Keeper};
use crate::otherwise::Watched;
use crate::page_guard::PageGuard;
use crate::progress_course::Course;
use crate::progress_screen::Screen;
use crate::progress_watch::{Seen, Watch, page_named};
use std::alloc::Global;
use std::io::Write;
use std::time::Clock;
use stm_files::Turns;
use stm_wire::{Patience, Rig, RigFault};

/// A Rig whose calls are shown as they go on, and whose last turns are kept. Each call is the inner
/// Rig's, and so is what it tells of itself: what is promised on the inner one is promised on this
/// one.
#[derive(Drop)]
pub struct ProgressRig<'a, L: Rig + Drop, W: Drop, C> {
    inner: L,
    turns: Turns,
    watch: Watch,
    guard: PageGuard<'a>,
    progress: Course<'a>,
    screen: Screen<'a, W, C>,
    sent: u64,
    has_heard: bool,
}

impl<'a, L: Guarded + Drop, W: Write + Drop, C: Clock> ProgressRig<'a, L, W, C> {
    pub fn new(
        inner: L,
        guard: PageGuard<'a>,
        progress: Course<'a>,
        screen: Screen<'a, W, C>,
    ) -> ProgressRig<'a, L, W, C>
        ensures { result.inner ≡ inner }
    {
        ProgressRig {
            inner,
            turns: Turns::new(),
            watch: Watch::new(),
            guard,
            progress,
            screen,
            sent: 0,
            has_heard: false,
        }
    }

    /// What the last turns tell, where a session was broken off behind them.
    pub fn hint(&self) -> Option<Hint> {
        hint_of(&self.turns)
    }

    /// The page that an undo didn't touch, as it holds something else than this segment left.
    pub fn changed(&self) -> Option<(u16, u32)> {
        self.guard.changed()
    }

    /// Says in the journal's file what the pages were left with of a segment that ended, where all was done.
    pub fn note_left(&mut self, is_done: bool)
        ensures { Stays (L.view self.old.inner) (L.view self.new.inner) }
    {
        let lines = self.guard.take_lines(is_done);
        self.inner.note(&lines);
    }

    /// Says in the journal's file when a segment was begun, and which images it writes.
    fn note_begun(&mut self)
        ensures { Stays (L.view self.old.inner) (L.view self.new.inner) }
    {
        let lines = self.guard.begun(self.screen.seconds());
        self.inner.note(&lines);
    }

    /// The inner Rig. Nothing is shown any more; where all was done, the last page is told, and then
    /// what watching came to, where that is to be.
    pub fn finish(self, is_done: bool, watched: Option<Watched>) -> L
        ensures { result ≡ self.entry.inner }
    {
        let ProgressRig {
            inner,
            turns: _,
            watch: _,
            guard: _,
            progress,
            mut screen,
            sent: _,
            has_heard: _,
        } = self;
        if is_done {
            if let Some(place) = progress.place() {
                screen.end(place);
            }
        }
        screen.clear();
        if let Some(watched) = watched {
            screen.tell(&watched);
        }
        inner
    }

    /// Shows what a call told.
    fn show(&mut self, seen: Option<Seen>)
        ensures { self.new.inner ≡ self.old.inner }
    {
        let Some(seen) = seen else {
            return;
        };
        let before = self.progress.place();
        if matches!(seen, Seen::Finished) {
            self.screen.finish();
        }
        if self.progress.see(seen, self.guard.kept()) {
            if let Some(place) = self.progress.place() {
                self.screen.turn(before, place);
            }
        }
    }

    /// Keeps what a get answered.
    fn hear(&mut self, answer: Option<u8>)
        ensures { self.new.inner ≡ self.old.inner }
    {
        self.turns.get(answer);
        self.guard.get(answer);
        self.has_heard = self.has_heard || answer.is_some();
    }

    /// Shows what the bytes put told, before a get.
    #[inline(never)]
    fn show_put(&mut self)
        ensures { self.new.inner ≡ self.old.inner }
    {
        let seen = self.watch.get();
        self.show(seen);
    }

    /// Shows what a get answered.
    #[inline(never)]
    fn show_get(&mut self, answer: Option<u8>)
        ensures { self.new.inner ≡ self.old.inner }
    {
        let is_before = self.progress.place().is_none();
        if let Some(byte) = answer {
            if is_before {
                self.screen.came();
            }
            let seen = self.watch.reply(byte);
            self.show(seen);
        } else if is_before {
            self.screen.wait(self.sent);
        }
    }
}

impl<'a, L: Guarded + Drop, W: Write + Drop, C: Clock> Rig for ProgressRig<'a, L, W, C> {
    ghost view = { λ rig. L.view rig.inner };

    ghost model = { λ rig honest. L.model rig.inner honest };

    ghost places = { λ rig. L.places rig.inner };

    fn put(&mut self, byte: u8) -> Result<(), RigFault> {
        if self.screen.is_shown() {
            self.watch.put(byte);
            self.sent = self.sent.saturating_add(1);
        }
        self.turns.put(byte);
        self.guard.put(byte);
        self.inner.put(byte)
    }

    #[inline(always)]
    fn get(&mut self, patience: Patience) -> Result<Option<u8>, RigFault> {
        // Where nothing is shown, a byte's way is the inner Rig's, but for the turn that it is of.
        if !self.screen.is_shown() {
            let answer = self.inner.get(patience)?;
            self.hear(answer);
            return Ok(answer);
        }
        self.show_put();
        let answer = self.inner.get(patience)?;
        self.hear(answer);
        self.show_get(answer);
        Ok(answer)
    }

    fn append(&mut self, bytes: &[u8]) -> Result<(), RigFault> {
        if self.screen.is_shown() {
            let seen = page_named(bytes);
            self.show(seen);
        }
        if !self.guard.may_add(bytes) {
            return self.inner.refuse_append(bytes);
        }
        self.inner.append(bytes)?;
        if self.guard.added(bytes) {
            self.note_begun();
        }
        Ok(())
    }

    fn fetch(&mut self, at: u64, buf: &mut [u8]) -> Result<usize, RigFault> {
        let count = self.inner.fetch(at, buf)?;
        self.guard.fetch(at, &buf[..count]);
        Ok(count)
    }
}

impl<'a, L: Guarded + Drop, W: Write + Drop, C: Clock> Keeper for ProgressRig<'a, L, W, C> {
    fn hear_size(&mut self, kib: Option<u16>) {
        self.progress.hear_size(kib);
    }

    fn has_heard(&self) -> bool {
        self.has_heard || self.inner.has_heard()
    }

    fn keep<'w>(
        &mut self,
        alloc: Global,
        name: &'w str,
        to: Option<&'w str>,
    ) -> Result<u32, Failure<'w>> {
        self.note_left(true);
        self.inner.keep(alloc, name, to)
    }
}
