// A session by a plan, whose undo is greeted first: a device that was reset takes its speed from the
// first byte that it hears, which has to be 7F.
ghost use Rattle.std.specs.Prelude.{◌≡◌, true, Err};
ghost use Rattle.stm_session.specs.declared.fault.Fault.TheVariants.{Line};
ghost use Rattle.stm_work.specs.declared.failure.Failure.TheVariants.{Session};
ghost use Rattle.stmflash.specs.DeviceUse.{TakesAhead, TakesGreeted, TakesUnlessSilent};
ghost use Rattle.stmflash.specs.DeviceUse.{greeting_at, greeting_for};

use std::alloc::Global;
use stm_session::{Fault, Greeting, greet, tell_silence};
use stm_words::{Device, Options};
use stm_work::{Action, Failure, Plan, Steps, Watchable, Work, take_watched};

/// Where an undo is greeted: at a socket, on a line of this speed.
fn greeting_at(device: Device, is_fresh: bool, baud: Option<u32>) -> Option<Greeting>
    ensures { result ≡ greeting_at device.entry is_fresh baud }
{
    match (device, is_fresh, baud) {
        (Device::Simulator { .. }, _, _) => None,
        (Device::Socket(_), true, _) => Some(Greeting::Fresh),
        (Device::Socket(_), false, None) => Some(Greeting::Brief),
        (Device::Socket(_), false, Some(_)) => Some(Greeting::Plain),
    }
}

/// Where a work is greeted, by the options: an undo, and what takes the write protection off ahead of
/// one. One that follows a write which failed is of a device that isn't fresh from reset any more.
pub fn greeting_for(work: &Work, options: &Options) -> Option<Greeting>
    ensures { result ≡ greeting_for work.now options.now }
{
    match work {
        Work::Undo { .. } => greeting_at(options.device, options.is_fresh, options.baud),
        Work::Act(Action::Undo(_))
        | Work::Act(Action::UndoVerified(_))
        | Work::Act(Action::UnprotectBegun) => greeting_at(options.device, false, options.baud),
        _ => None,
    }
}

/// Whether a session failed by its line.
fn is_of_line(done: &Result<Steps, Failure>) -> bool
    ensures { result ≡ true → done.now ≡ Err (Session Line) }
{
    matches!(done, Err(Failure::Session(Fault::Line)))
}

/// Does what a plan says, behind a greeting. Where its line was given up, and no byte had come, nothing
/// waited there for the greeting either, and another one may come: the journal says so.
fn take_unless_silent<'a, L: Watchable>(
    alloc: Global,
    rig: &mut L,
    plan: Plan<'a>,
) -> Result<Steps<'a>, Failure<'a>>
    ensures { TakesUnlessSilent L.view plan.entry rig.old rig.new result }
{
    let done = take_watched(alloc, rig, plan);
    if rig.has_heard() || !is_of_line(&done) {
        return done;
    }
    match tell_silence(alloc, rig) {
        Ok(()) => done,
        Err(fault) => Err(Failure::Session(fault)),
    }
}

/// The same behind a greeting where one comes, ahead of all else that is sent.
fn greet_and_take<'a, L: Watchable>(
    alloc: Global,
    rig: &mut L,
    plan: Plan<'a>,
    greeting: Greeting,
) -> Result<Steps<'a>, Failure<'a>>
    ensures { TakesGreeted greeting L.view plan.entry rig.old rig.new result }
{
    match greet(alloc, rig, &plan.table, greeting) {
        Ok(true) => take_unless_silent(alloc, rig, plan),
        Ok(false) => take_watched(alloc, rig, plan),
        Err(fault) => Err(Failure::Session(fault)),
    }
}

/// Does what a plan says, on a Rig that can be watched, greeted so or not.
pub fn take_greeted<'a, L: Watchable>(
    alloc: Global,
    rig: &mut L,
    plan: Plan<'a>,
    greeting: Option<Greeting>,
) -> Result<Steps<'a>, Failure<'a>>
    ensures { TakesAhead greeting L.view plan.entry rig.old rig.new result }
{
    match greeting {
        Some(greeting) => greet_and_take(alloc, rig, plan, greeting),
        None => take_watched(alloc, rig, plan),
    }
}
