//! Laws of a device with weak pages: each is the contract of a function that does nothing.
ghost use Rattle.stm_weak.specs.WeakLaws.{FedAsOrdinary, LedAsOrdinary, OneIsLeft, SoundIsOrdinary};
ghost use Rattle.stm_weak.specs.WeakBelieved.{MayPutIsUnread};
ghost use Rattle.stm_weak.specs.WeakFrames.{FramesAreUnread, FreshSettlingIsUnread};
ghost use Rattle.stm_weak.specs.WeakMeaning.{EraseHeals, ReadsAnything};
ghost use Rattle.stm_weak.specs.WeakEvents.{EventsAreOrdinary, HistoriesAreOrdinary};
ghost use Rattle.stm_weak.specs.FedEvents.{StoppedIsTame, StoppedSettlingIsUnread};
ghost use Rattle.stm_weak.specs.FedHistory.{FedHistoriesAreOrdinary};
ghost use Rattle.stm_weak.specs.SettledBatches.{BatchesLeaveItWaiting};

use crate::weak_pages_are_at_work;
use stm_wire::Rig;

/// A device may have weak pages: as each byte comes they hold anything anew, until an erase of
/// them is done. As long as no byte completes a read of one, it does what an ordinary device does
/// that differs from it in bytes of these pages alone. Bytes may be fed and taken meanwhile, and
/// it may be reset or lose its power, by which more pages may become weak. Where no page is weak,
/// both have one flash.
pub fn a_weak_device_is_ordinary_while_unread()
    ensures fed { FedAsOrdinary }
    ensures led { LedAsOrdinary }
    ensures one { OneIsLeft }
    ensures sound { SoundIsOrdinary }
{}

/// A device with weak pages that waits for a command may be sent a frame of Get or Get ID, a read
/// where it tells its unique id, or a frame that erases a page or writes into the flash. No byte
/// of it completes a read of a weak page, wherever the host stops in it.
pub fn frames_that_ask_or_change_are_unread()
    ensures unread { FramesAreUnread }
    // So is each frame that a session may send while pages may be weak.
    ensures may_put { MayPutIsUnread }
    // So is the settling of a device that was reset, or lost its power.
    ensures settling { FreshSettlingIsUnread }
    // And so is that of one which was stopped in such a frame.
    ensures stopped { StoppedSettlingIsUnread }
{}

/// A device with weak pages that settling in batches leaves at Ok waits for a command and owes
/// nothing, by what it answered: where no list by which the byte goes on with what it has is loose.
/// So it is of one that was stopped in a frame which may be sent while some page may be weak.
pub fn settling_in_batches_leaves_it_waiting()
    ensures waits { BatchesLeaveItWaiting }
    ensures tame { StoppedIsTame }
{}

/// A read of weak places may answer any bytes, so also other ones each time. The last byte of a
/// frame that erases a page heals it.
pub fn a_weak_page_reads_anything_until_it_is_erased()
    ensures reads { ReadsAnything }
    ensures heals { EraseHeals }
{}

/// Events by which no page is believed that may be weak befall a device with weak pages. Each frame
/// is sent as it waits for a command, and settling it completes no read of a weak page: then they
/// are events of an ordinary device, no frame reads a weak page, and each page that is weak is
/// among those that may be.
pub fn events_that_believe_no_weak_page_are_ordinary()
    ensures events { EventsAreOrdinary }
{}

/// Runs, undos and calls that ask for the board, one behind another, at a device with weak pages,
/// which may lose its power before each. Each frame is sent as it waits for a command, and settling
/// it completes no read of a weak page: then no frame reads one, and all that befalls it may befall
/// an ordinary device. Where a run or an undo answered Ok, that one is just what this is, with each
/// byte of its flash.
pub fn a_history_is_that_of_an_ordinary_device<R: Rig>()
    ensures ordinary { HistoriesAreOrdinary R.view }
    // The same by what is fed to the device alone: each frame is fed to it whatever it has, and
    // settling feeds it one byte, or whichever while it is fresh. Under an intent it answers as
    // settling in batches does that ends well, or waits for a command then. Behind each Ok no page
    // is weak.
    ensures fed { FedHistoriesAreOrdinary R.view }
{
    weak_pages_are_at_work::<R>();
}
