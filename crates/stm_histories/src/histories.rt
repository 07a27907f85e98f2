// What the program does with a device is a history of the headline: each law is the contract of a
// function that does nothing.
ghost use Rattle.stm_histories.specs.Histories.{
  ActionsAreHistories,
  IdentifyingIsHistory,
  StoppedActionsAreUndone,
};
ghost use Rattle.stm_histories.specs.Histories.{StoredCanBegin, StoredGoesOn};
ghost use Rattle.stm_histories.specs.Histories.{UnprotectedActionsAreUndone};

use stm_session::{
    a_ready_device_can_begin, a_run_is_known_by_its_outcomes, a_session_can_be_undone,
};
use stm_wire::Rig;
use stm_work::Answer;

/// Each action, from any state that can be undone, is a history of the headline, and so is the
/// question who a device is. An action that was stopped is undone, after a loss of power too, by
/// an undo of everything that answers Ok; and so is one that write-protected pages refused, after a
/// reset and Write Unprotect.
pub fn actions_are_histories<L: Rig>()
    ensures history { ActionsAreHistories L L.view }
    ensures identifies { IdentifyingIsHistory L L.view }
    ensures back { StoppedActionsAreUndone L L.view }
    ensures unprotected { UnprotectedActionsAreUndone L L.view }
{
    a_session_can_be_undone::<L>();
    a_run_is_known_by_its_outcomes::<L, Answer>();
}

/// A simulator that starts ready beside an empty journal is where a session can begin; and one that
/// starts as another was left by a run of the program has lost owed bytes alone.
pub fn a_stored_simulator_goes_on()
    ensures begins { StoredCanBegin }
    ensures goes_on { StoredGoesOn }
{
    a_ready_device_can_begin();
}
