// A Rig whose replies are watched.
ghost use Rattle.std.specs.Prelude.{◌≡◌, ◌+◌, ◌-◌, ◌≤◌, ℕ, OnOk, IfOk, IfSome, IsTrue, None, Ok, Err};
ghost use Rattle.std.specs.Prelude.{is_some};
ghost use Rattle.stm_wire.specs.Call.{Put, Fetch};
ghost use Rattle.stm_wire.specs.Rig.{HasCause, Records, RecordsAppend, Enters, EntersAppend};
ghost use Rattle.stm_wire.specs.Rig.{PutsAside, GetsAside, FetchesAside, FetchesWithin};
ghost use Rattle.stm_wire.specs.Rig.{PutsHonestly, GetsHonestly, AppendsHonestly, Rises};
ghost use Rattle.stm_wire.specs.Rig.{FetchesHonestly, entry_of_get};
ghost use Rattle.stm_watch.specs.Known.{IsFed, lost};
ghost use Rattle.stm_watch.specs.Seen.{IsSeen};
ghost use Rattle.stm_watch.specs.Watching.{watched, IsHeard, IsByteRefused};
ghost use Rattle.stm_watch.specs.lemmas.Watched.{watched-model, watched-places};

use crate::Watch;
use stm_wire::{Patience, Rig, RigFault};

/// A byte that no device of the model could send where it came.
#[derive(Clone, Copy, Debug, PartialEq, Eq)]
pub struct Refusal {
    /// The byte that was due; None: no byte was due.
    pub due: Option<u8>,
    /// The byte that came.
    pub came: u8,
    /// The address from which it was read, where a byte of the flash was due.
    pub address: Option<u32>,
}

/// A Rig whose replies are watched. Each call is the inner Rig's, until a get brings a byte that no
/// device of the model could send there: that get fails, and so does each call behind it, with
/// nothing handed on.
#[derive(Drop)]
pub struct WatchRig<R: Rig + Drop> {
    /// The inner Rig.
    pub inner: R,
    watch: Watch,
    refusal: Option<Refusal>,
    has_begun: bool,
    is_counting: bool,
    passed: u64,
    came: u64,
    line_failures: u64,
    journal_failures: u64,
}

impl<R: Rig + Drop> WatchRig<R> {
    /// This Rig, watched from here on; by a watch that knows nothing it passes each reply.
    pub fn new(inner: R, watch: Watch) -> WatchRig<R>
        ensures inner { result.inner ≡ inner }
        ensures watch { result.watch ≡ watch }
        ensures refusal { result.refusal ≡ None }
        ensures passed { result.passed ≡ 0 }
        ensures came { result.came ≡ 0 }
        ensures line { result.line_failures ≡ 0 }
        ensures journal { result.journal_failures ≡ 0 }
    {
        WatchRig {
            inner,
            watch,
            refusal: None,
            has_begun: false,
            is_counting: false,
            passed: 0,
            came: 0,
            line_failures: 0,
            journal_failures: 0,
        }
    }

    /// The same Rig, watched by this from here on. Where the device may be one of which this is
    /// known, it follows the model as before.
    pub fn begin(&mut self, watch: Watch)
        ensures inner { self.new.inner ≡ self.old.inner }
        ensures watch { self.new.watch ≡ watch }
        ensures refusal { self.new.refusal ≡ self.old.refusal }
        ensures passed { self.new.passed ≡ self.old.passed }
        ensures came { self.new.came ≡ self.old.came }
        ensures line { self.new.line_failures ≡ self.old.line_failures }
        ensures journal { self.new.journal_failures ≡ self.old.journal_failures }
        ensures honest { let old = R.view self.old.inner in
            old.is_honest → IsSeen watch old.device → self.old.refusal ≡ None
            → (watched self.new.watch self.new.refusal self.new.line_failures
            self.new.journal_failures (R.view self.new.inner)).is_honest }
    {
        self.watch = watch;
        self.has_begun = true;
        self.is_counting = true;
    }

    /// Nothing is known from here on, until watching begins again.
    pub fn lose(&mut self)
        ensures inner { self.new.inner ≡ self.old.inner }
        ensures watch { self.new.watch ≡ lost self.old.watch }
        ensures refusal { self.new.refusal ≡ self.old.refusal }
        ensures line { self.new.line_failures ≡ self.old.line_failures }
        ensures journal { self.new.journal_failures ≡ self.old.journal_failures }
    {
        self.watch.lose();
        self.is_counting = false;
    }

    /// Whether watching began.
    pub fn has_begun(&self) -> bool
        ensures { result ≡ self.now.has_begun }
    {
        self.has_begun
    }

    /// How many bytes of replies came, each as a device of the model could send it.
    pub fn passed(&self) -> u64
        ensures { result ≡ self.now.passed }
    {
        self.passed
    }

    /// How many came behind these where nothing was known.
    pub fn unjudged(&self) -> u64
        ensures { result ≡ self.now.came - self.now.passed }
    {
        self.came.saturating_sub(self.passed)
    }

    /// The byte that was refused, if one was.
    pub fn refusal(&self) -> Option<Refusal>
        ensures { result ≡ self.now.refusal }
    {
        self.refusal
    }

    /// What is known of the device.
    pub fn watch(&self) -> &Watch
        ensures { result.now ≡ self.now.watch }
    {
        &self.watch
    }

    /// The inner Rig.
    pub fn into_inner(self) -> R
        ensures { result ≡ self.inner }
    {
        let WatchRig {
            inner,
            watch: _,
            refusal: _,
            has_begun: _,
            is_counting: _,
            passed: _,
            came: _,
            line_failures: _,
            journal_failures: _,
        } = self;
        inner
    }
}

/// Counts a failure; a count stays at 2^64 - 1.
fn count_more(count: &mut u64)
    ensures risen { (before : ℕ) → Rises (before + count.old) (before + count.new) }
    ensures later { count.old ≤ count.new }
{
    *count = count.saturating_add(1);
}

impl<R: Rig + Drop> Rig for WatchRig<R> {
    ghost view = { λ rig. watched rig.watch rig.refusal rig.line_failures rig.journal_failures
        (R.view rig.inner) };

    ghost model = { λ rig honest. watched-model rig.watch rig.refusal rig.line_failures
        rig.journal_failures (R.view rig.inner) (R.model rig.inner) honest };

    ghost places = { λ rig. watched-places rig.watch rig.refusal rig.line_failures
        rig.journal_failures (R.view rig.inner) (R.places rig.inner) };

    fn put(&mut self, byte: u8) -> Result<(), RigFault>
        ensures cause { let old = watched self.old.watch self.old.refusal
            self.old.line_failures self.old.journal_failures (R.view self.old.inner) in
            let new = watched self.new.watch self.new.refusal
            self.new.line_failures self.new.journal_failures (R.view self.new.inner) in
            HasCause old.line_failures new.line_failures result }
        ensures journal_count { let old = watched self.old.watch self.old.refusal
            self.old.line_failures self.old.journal_failures (R.view self.old.inner) in
            let new = watched self.new.watch self.new.refusal
            self.new.line_failures self.new.journal_failures (R.view self.new.inner) in
            new.journal_failures ≡ old.journal_failures }
        ensures recorded { let old = watched self.old.watch self.old.refusal
            self.old.line_failures self.old.journal_failures (R.view self.old.inner) in
            let new = watched self.new.watch self.new.refusal
            self.new.line_failures self.new.journal_failures (R.view self.new.inner) in
            Records (Put byte) result old.calls new.calls }
        ensures entered { let old = watched self.old.watch self.old.refusal
            self.old.line_failures self.old.journal_failures (R.view self.old.inner) in
            let new = watched self.new.watch self.new.refusal
            self.new.line_failures self.new.journal_failures (R.view self.new.inner) in
            Enters (Put byte) old new }
        ensures aside { let old = watched self.old.watch self.old.refusal
            self.old.line_failures self.old.journal_failures (R.view self.old.inner) in
            let new = watched self.new.watch self.new.refusal
            self.new.line_failures self.new.journal_failures (R.view self.new.inner) in
            PutsAside old new }
        ensures honest { let old = watched self.old.watch self.old.refusal
            self.old.line_failures self.old.journal_failures (R.view self.old.inner) in
            let new = watched self.new.watch self.new.refusal
            self.new.line_failures self.new.journal_failures (R.view self.new.inner) in
            old.is_honest → PutsHonestly byte result old new }
        ensures fed { OnOk result (IsFed byte self.old.watch self.new.watch) }
        ensures refused { IsTrue (is_some self.old.refusal)
            → (self.new.inner ≡ self.old.inner) × OnOk result ⊥ }
    {
        if self.refusal.is_some() {
            count_more(&mut self.line_failures);
            return Err(RigFault::Line);
        }
        let answer = self.inner.put(byte);
        match answer {
            Ok(()) => self.watch.feed(byte),
            Err(_) => self.watch.lose(),
        }
        answer
    }

    fn get(&mut self, patience: Patience) -> Result<Option<u8>, RigFault>
        ensures cause { let old = watched self.old.watch self.old.refusal
            self.old.line_failures self.old.journal_failures (R.view self.old.inner) in
            let new = watched self.new.watch self.new.refusal
            self.new.line_failures self.new.journal_failures (R.view self.new.inner) in
            HasCause old.line_failures new.line_failures result }
        ensures journal_count { let old = watched self.old.watch self.old.refusal
            self.old.line_failures self.old.journal_failures (R.view self.old.inner) in
            let new = watched self.new.watch self.new.refusal
            self.new.line_failures self.new.journal_failures (R.view self.new.inner) in
            new.journal_failures ≡ old.journal_failures }
        ensures recorded { let old = watched self.old.watch self.old.refusal
            self.old.line_failures self.old.journal_failures (R.view self.old.inner) in
            let new = watched self.new.watch self.new.refusal
            self.new.line_failures self.new.journal_failures (R.view self.new.inner) in
            Records (entry_of_get result) result old.calls new.calls }
        ensures entered { let old = watched self.old.watch self.old.refusal
            self.old.line_failures self.old.journal_failures (R.view self.old.inner) in
            let new = watched self.new.watch self.new.refusal
            self.new.line_failures self.new.journal_failures (R.view self.new.inner) in
            Enters (entry_of_get result) old new }
        ensures aside { let old = watched self.old.watch self.old.refusal
            self.old.line_failures self.old.journal_failures (R.view self.old.inner) in
            let new = watched self.new.watch self.new.refusal
            self.new.line_failures self.new.journal_failures (R.view self.new.inner) in
            GetsAside patience old new }
        ensures honest { let old = watched self.old.watch self.old.refusal
            self.old.line_failures self.old.journal_failures (R.view self.old.inner) in
            let new = watched self.new.watch self.new.refusal
            self.new.line_failures self.new.journal_failures (R.view self.new.inner) in
            old.is_honest → GetsHonestly result old new }
        ensures heard { IfOk result (λ answer. IsHeard answer self.old.watch self.new.watch) }
        ensures refused { IsTrue (is_some self.old.refusal)
            → (self.new.inner ≡ self.old.inner) × OnOk result ⊥ }
        ensures told { self.old.refusal ≡ None
            → IfSome self.new.refusal (λ r. IsByteRefused r.due r.came r.address self.old.watch) }
    {
        if self.refusal.is_some() {
            count_more(&mut self.line_failures);
            return Err(RigFault::Line);
        }
        match self.inner.get(patience) {
            Ok(Some(byte)) => {
                let due = self.watch.due();
                let address = self.watch.address();
                if self.watch.hear(byte) {
                    let is_watched = self.watch.is_watching();
                    self.passed = self.passed.saturating_add(u64::from(is_watched));
                    self.came = self.came.saturating_add(u64::from(self.is_counting));
                    Ok(Some(byte))
                } else {
                    self.refusal = Some(Refusal {
                        due,
                        came: byte,
                        address,
                    });
                    count_more(&mut self.line_failures);
                    Err(RigFault::Line)
                }
            }
            Ok(None) => Ok(None),
            Err(fault) => {
                self.watch.lose();
                Err(fault)
            }
        }
    }

    fn append(&mut self, bytes: &[u8]) -> Result<(), RigFault>
        ensures cause { let old = watched self.old.watch self.old.refusal
            self.old.line_failures self.old.journal_failures (R.view self.old.inner) in
            let new = watched self.new.watch self.new.refusal
            self.new.line_failures self.new.journal_failures (R.view self.new.inner) in
            HasCause old.journal_failures new.journal_failures result }
        ensures line_count { let old = watched self.old.watch self.old.refusal
            self.old.line_failures self.old.journal_failures (R.view self.old.inner) in
            let new = watched self.new.watch self.new.refusal
            self.new.line_failures self.new.journal_failures (R.view self.new.inner) in
            new.line_failures ≡ old.line_failures }
        ensures recorded { let old = watched self.old.watch self.old.refusal
            self.old.line_failures self.old.journal_failures (R.view self.old.inner) in
            let new = watched self.new.watch self.new.refusal
            self.new.line_failures self.new.journal_failures (R.view self.new.inner) in
            RecordsAppend bytes.now result old.calls new.calls }
        ensures entered { let old = watched self.old.watch self.old.refusal
            self.old.line_failures self.old.journal_failures (R.view self.old.inner) in
            let new = watched self.new.watch self.new.refusal
            self.new.line_failures self.new.journal_failures (R.view self.new.inner) in
            EntersAppend bytes.now old new }
        ensures aside { let old = watched self.old.watch self.old.refusal
            self.old.line_failures self.old.journal_failures (R.view self.old.inner) in
            let new = watched self.new.watch self.new.refusal
            self.new.line_failures self.new.journal_failures (R.view self.new.inner) in
            PutsAside old new }
        ensures honest { let old = watched self.old.watch self.old.refusal
            self.old.line_failures self.old.journal_failures (R.view self.old.inner) in
            let new = watched self.new.watch self.new.refusal
            self.new.line_failures self.new.journal_failures (R.view self.new.inner) in
            old.is_honest → AppendsHonestly bytes.now result old new }
        ensures same { OnOk result (self.new.watch ≡ self.old.watch) }
        ensures refused { IsTrue (is_some self.old.refusal)
            → (self.new.inner ≡ self.old.inner) × OnOk result ⊥ }
    {
        if self.refusal.is_some() {
            count_more(&mut self.journal_failures);
            return Err(RigFault::File);
        }
        let answer = self.inner.append(bytes);
        if answer.is_err() {
            self.watch.lose();
        }
        answer
    }

    fn fetch(&mut self, at: u64, buf: &mut [u8]) -> Result<usize, RigFault>
        ensures within { FetchesWithin at buf.old buf.new result }
        ensures cause { let old = watched self.old.watch self.old.refusal
            self.old.line_failures self.old.journal_failures (R.view self.old.inner) in
            let new = watched self.new.watch self.new.refusal
            self.new.line_failures self.new.journal_failures (R.view self.new.inner) in
            HasCause old.journal_failures new.journal_failures result }
        ensures line_count { let old = watched self.old.watch self.old.refusal
            self.old.line_failures self.old.journal_failures (R.view self.old.inner) in
            let new = watched self.new.watch self.new.refusal
            self.new.line_failures self.new.journal_failures (R.view self.new.inner) in
            new.line_failures ≡ old.line_failures }
        ensures recorded { let old = watched self.old.watch self.old.refusal
            self.old.line_failures self.old.journal_failures (R.view self.old.inner) in
            let new = watched self.new.watch self.new.refusal
            self.new.line_failures self.new.journal_failures (R.view self.new.inner) in
            Records Fetch result old.calls new.calls }
        ensures entered { let old = watched self.old.watch self.old.refusal
            self.old.line_failures self.old.journal_failures (R.view self.old.inner) in
            let new = watched self.new.watch self.new.refusal
            self.new.line_failures self.new.journal_failures (R.view self.new.inner) in
            Enters Fetch old new }
        ensures aside { let old = watched self.old.watch self.old.refusal
            self.old.line_failures self.old.journal_failures (R.view self.old.inner) in
            let new = watched self.new.watch self.new.refusal
            self.new.line_failures self.new.journal_failures (R.view self.new.inner) in
            FetchesAside buf.new result old new }
        ensures honest { let old = watched self.old.watch self.old.refusal
            self.old.line_failures self.old.journal_failures (R.view self.old.inner) in
            let new = watched self.new.watch self.new.refusal
            self.new.line_failures self.new.journal_failures (R.view self.new.inner) in
            old.is_honest → FetchesHonestly at buf.old buf.new result old new }
        ensures same { OnOk result (self.new.watch ≡ self.old.watch) }
        ensures refused { IsTrue (is_some self.old.refusal)
            → (self.new.inner ≡ self.old.inner) × OnOk result ⊥ }
    {
        if self.refusal.is_some() {
            count_more(&mut self.journal_failures);
            return Err(RigFault::File);
        }
        let answer = self.inner.fetch(at, buf);
        if answer.is_err() {
            self.watch.lose();
        }
        answer
    }
}
