// What one call of the program comes to, step behind step: the law is the contract of a function
// that does nothing.
ghost use Rattle.stm_work.specs.OneCall.{CallsEndAsAsked};
ghost use Rattle.stm_work.specs.WholeCalls.{WholeCallsEndAsAsked};

use stm_image::{laying_by_parts, laying_keeps_places};
use stm_session::{
    a_ready_device_can_begin, an_unrefused_journal_can_be_undone, told_board_is_the_devices,
};
use stm_wire::Rig;

/// A write that is verified, and what follows it, on a device whose chip the table has: where it
/// answers Ok and no step failed, the image is in its places, every other byte is as it was, each
/// byte of it was read after the last change to its page, a journal that is kept is empty, and Go was sent whole to a settled device
/// with that flash.
pub fn a_call_ends_as_asked<L: Rig>()
    ensures { CallsEndAsAsked L L.view }
{
    an_unrefused_journal_can_be_undone();
    a_ready_device_can_begin();
    laying_by_parts();
    laying_keeps_places();
}

/// The same of a whole call, in which the device may be asked first which board it is, beside a
/// finished journal: the table has the device's chip, or one that becomes its own by what it tells.
pub fn a_whole_call_ends_as_asked<L: Rig>()
    ensures { WholeCallsEndAsAsked L L.view }
{
    a_call_ends_as_asked::<L>();
    told_board_is_the_devices();
}
