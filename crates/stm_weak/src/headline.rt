//! The headline over a device with weak pages: the contract of a function that does nothing.
ghost use Rattle.stm_weak.specs.WeakHeadline.{WeakHeadline, WeakHistoriesAreSessions};

use crate::weak_pages_are_at_work;
use stm_session::a_session_can_be_undone;
use stm_wire::Rig;

/// Runs, undos and calls that ask for the board befall a device with weak pages, each at success or
/// stopped anywhere, with losses of power in an erase or a write. The line follows the model as
/// long as no byte completes a read of a weak page, as `WeakRig` does. Then an undo of everything
/// that reports success leaves no page weak, and every byte of the flash as it was at first.
pub fn a_weak_history_can_be_undone<R: Rig>()
    ensures undone { WeakHeadline R.view }
    // Behind each run or undo that answers Ok no page is weak, and the device is just that to which
    // a session of the headline led: all that is promised of that one is so of this.
    ensures sessions { WeakHistoriesAreSessions R.view }
{
    weak_pages_are_at_work::<R>();
    a_session_can_be_undone::<R>();
}
