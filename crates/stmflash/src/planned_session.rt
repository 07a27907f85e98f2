// A session by a plan, over any Rig: it is shown, its last turns are kept, and it may be watched.
ghost use Rattle.stmflash.specs.DeviceUse.{TakesAround, greeting_for};
ghost use Rattle.stm_work.specs.Plan.{TellsSteps};

use crate::call::Call;
use crate::greeted_session::{greeting_for, take_greeted};
use std::fs::Files;
use std::io::{IsTerminal, Write};
use std::os::unix::net::UnixStream;
use std::time::Clock;
use stm_files::{SimulatorRig, SocketRig};
use stm_watch::{Watch, WatchRig};
use stm_wire::Rig;
use stm_words::{Extent, Options};
use stm_work::{
    Course, Failure, Guarded, Hint, PageGuard, Plan, ProgressRig, Screen, Steps, Style, Work,
    done_watched, failed_by, failure_of, watched,
};

/// A Rig that is shown and watched.
pub type Shown<'s, L, W, C> = WatchRig<ProgressRig<'s, L, W, C>>;

/// A simulator in the process that is shown and watched.
pub type ShownSimulator<'r, 'e, R, E> = Shown<'r, SimulatorRig<'r, 'r, R>, &'e mut E, R>;

/// A device behind a socket that is shown and watched.
pub type ShownSocket<'r, 'e, R, E> = Shown<'r, SocketRig<'r, UnixStream, R>, &'e mut E, R>;

/// A Rig behind a session, and what came of that.
#[derive(Drop)]
pub struct Taken<'a, L> {
    pub rig: L,
    pub done: Result<Steps<'a>, Failure<'a>>,
}

/// How far back a work undoes, of which the journal is checked: one that is trusted isn't.
pub fn checked_extent(work: &Work, options: &Options) -> Option<Extent> {
    if options.trusts_others {
        None
    } else {
        work.extent()
    }
}

/// Does what a plan says, on a Rig; it is shown, and its last turns are kept. What they tell of a
/// session that was broken off becomes `hint`.
pub fn take_on<
    'a,
    'r,
    'e,
    L: Guarded + Drop,
    R: Files + Clock + AllocGlobal,
    E: Write + IsTerminal,
>(
    rt: &'r R,
    call: Call<'_, 'a>,
    rig: L,
    plan: Plan<'a>,
    watch: Watch,
    err: &'e mut E,
    hint: &mut Option<Hint>,
) -> Taken<'a, L>
    ensures { TakesAround ⟦<Shown<'r, L, &'e mut E, R> as Rig>⟧.view (λ shown. shown.inner.inner)
        L.view watch (greeting_for plan.entry.job.work call.entry.options.now) plan.entry rig
        result.rig result.done }
{
    let alloc = rt.alloc();
    let chips = call.tables.chips();
    let style = Style::of(call.options, err);
    let screen = Screen::new(err, rt, alloc, style);
    let course = Course::new(chips, plan.job.work.goal());
    let guard = PageGuard::of(alloc, chips, &plan.job.work, call.options.trusts_others);
    let is_watched = plan.is_watched();
    let mut rig = WatchRig::new(ProgressRig::new(rig, guard, course, screen), watch);
    let greeting = greeting_for(&plan.job.work, call.options);
    let done = take_greeted(alloc, &mut rig, plan, greeting);
    let done = done_watched(&rig, done);
    let told = watched(&rig, is_watched, failure_of(&done));
    let mut rig = rig.into_inner();
    *hint = rig.hint();
    let done = failed_on(rig.changed(), done);
    rig.note_left(failure_of(&done).is_none());
    let rig = rig.finish(done.is_ok(), told);
    Taken { rig, done }
}

/// The same steps, where one failed since this page isn't as this segment left it.
fn failed_on<'a>(
    changed: Option<(u16, u32)>,
    done: Result<Steps<'a>, Failure<'a>>,
) -> Result<Steps<'a>, Failure<'a>>
    ensures { TellsSteps done.entry result }
{
    match changed {
        Some((page, segment)) => failed_by(done, Failure::PageChanged(page, segment)),
        None => done,
    }
}

/// The same steps, where one failed by this failure if that is so.
pub fn failed_if<'a>(
    is_so: bool,
    done: Result<Steps<'a>, Failure<'a>>,
    failure: Failure<'a>,
) -> Result<Steps<'a>, Failure<'a>>
    ensures { TellsSteps done.entry result }
{
    if is_so {
        failed_by(done, failure)
    } else {
        done
    }
}
