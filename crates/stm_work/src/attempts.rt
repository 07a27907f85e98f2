// A write that is done again where its line or its protocol failed: the loop, over what does it.
ghost use Rattle.std.specs.Prelude.{◌≡◌, ◌≤◌, ℕ, List, Some, Ok};
ghost use Rattle.stm_work.specs.Again.{Act, DoesAgain, InTurns, IsTurn, LeadTo, Retries, UndoesSince};
ghost use Rattle.stm_work.specs.Again.{TellsStanding};
ghost use Rattle.stm_work.specs.Action.{IsDoneAgain};

use crate::failure::Failure;
use crate::left_standing::Standing;
use crate::steps::Steps;
use crate::work::Work;
use std::alloc::Global;

/// What does a write, as the loop sees it: each call is an act with its answer.
pub trait Attempts<'a> {
    ghost use Rattle.stm_work.specs.Again.Act.{Attempted, Read, ToldStanding, ToldTurn, Undone};

    /// Which acts, each with its answer, lead from which to which.
    ghost does: { Act → Self → Self → Type 0 };

    /// Does this work once, with what follows it.
    fn attempt(&mut self, work: Work) -> Result<Steps<'a>, Failure<'a>>
        ensures { does (Attempted work result) self.old self.new };

    /// What the journal says by now.
    fn read(&mut self) -> Result<Standing, Failure<'a>>
        ensures { does (Read result) self.old self.new };

    /// Undoes the newest segments, so many, and answers how many it were.
    fn undo(&mut self, count: u32) -> Result<u32, Failure<'a>>
        ensures { does (Undone count result) self.old self.new };

    /// Tells that a turn is done, which failure is the reason, and what was undone.
    fn tell_turn(
        &mut self,
        turn: u32,
        most: u32,
        failure: &Failure<'a>,
        back: &Result<u32, Failure<'a>>,
    )
        ensures { does (ToldTurn turn most failure.now back.now) self.old self.new };

    /// Tells what stands behind the segments that there were.
    fn tell_standing(&mut self, before: Standing, now: Standing)
        ensures { does (ToldStanding before now) self.old self.new };
}

/// Undoes just the segments that came since, and answers how many.
fn undo_since<'a, A: Attempts<'a>>(all: &mut A, before: Standing) -> Result<u32, Failure<'a>>
    ensures { (acts : List Act) × LeadTo A.does acts all.old all.new
        × UndoesSince before acts result }
{
    let now = match all.read() {
        Ok(now) => now,
        Err(failure) => return Err(failure),
    };
    let count = now.begun_since(before);
    if count == 0 {
        return Ok(0);
    }
    all.undo(count)
}

/// Does the same work once more, or answers its last failure where it is none that is done again.
fn attempt_copy<'a, A: Attempts<'a>>(
    alloc: Global,
    all: &mut A,
    work: &Work,
    failure: Failure<'a>,
) -> Result<Steps<'a>, Failure<'a>>
    ensures { (acts : List Act) × LeadTo A.does acts all.old all.new
        × ((count : ℕ) → Retries work.now failure.entry (Ok count) acts result) }
{
    match work.copy(alloc) {
        Ok(Some(same)) => all.attempt(same),
        Ok(None) => Err(failure),
        Err(_) => Err(Failure::Memory),
    }
}

/// A turn behind a failure: undoes what came since, tells that, and does the same work once
/// more.
fn take_turn<'a, A: Attempts<'a>>(
    alloc: Global,
    all: &mut A,
    work: &Work,
    before: Standing,
    turn: u32,
    most: u32,
    failure: Failure<'a>,
) -> Result<Steps<'a>, Failure<'a>>
    ensures { (acts : List Act) × LeadTo A.does acts all.old all.new
        × IsTurn work.now before turn most failure.entry acts result }
{
    let back = undo_since(all, before);
    all.tell_turn(turn, most, &failure, &back);
    match back {
        Ok(_) => attempt_copy(alloc, all, work, failure),
        Err(why) => Err(why),
    }
}

/// Does the work, and behind each failure of its line or its protocol takes a turn, so many at the
/// most.
fn attempt_in_turns<'a, A: Attempts<'a>>(
    alloc: Global,
    all: &mut A,
    work: &Work,
    same: Work,
    before: Standing,
    most: u32,
) -> Result<Steps<'a>, Failure<'a>>
    requires { IsDoneAgain work.now (Some same) }
    ensures { InTurns A.does work.now before most all.old all.new result }
{
    let mut done = all.attempt(same);
    for turn in 0..most {
        let failure = match done {
            Ok(steps) => return Ok(steps),
            Err(failure) => failure,
        };
        if !failure.is_broken_off() {
            return Err(failure);
        }
        done = take_turn(alloc, all, work, before, turn + 1, most, failure);
    }
    done
}

/// Tells what stands behind a failure.
fn tell_failed<'a, A: Attempts<'a>>(
    all: &mut A,
    before: Standing,
    done: &Result<Steps<'a>, Failure<'a>>,
)
    ensures { (acts : List Act) × LeadTo A.does acts all.old all.new
        × TellsStanding before acts done.now }
{
    match done {
        Ok(_) => {}
        Err(_) => match all.read() {
            Ok(now) => all.tell_standing(before, now),
            Err(_) => {}
        },
    }
}

/// Does a work, and again where its line or its protocol failed: what came since is undone, and
/// the same is done once more, so many times at the most. Behind a failure it is told what stands.
pub fn attempt_again<'a, A: Attempts<'a>>(
    alloc: Global,
    all: &mut A,
    work: Work,
    most: u32,
) -> Result<Steps<'a>, Failure<'a>>
    ensures { DoesAgain A.does work most all.old all.new result }
{
    let before = match all.read() {
        Ok(before) => before,
        Err(failure) => return Err(failure),
    };
    match work.copy(alloc) {
        Ok(Some(same)) => {
            let done = attempt_in_turns(alloc, all, &work, same, before, most);
            tell_failed(all, before, &done);
            done
        }
        Ok(None) => all.attempt(work),
        Err(_) => Err(Failure::Memory),
    }
}
