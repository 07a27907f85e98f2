//! Laws of stopped hosts: each is the contract of a function that does nothing.
ghost use Rattle.stm_wire.specs.Awaited.{AwaitedIsLimited, FedAwaitsNoMore, MoreSuffice};
ghost use Rattle.stm_wire.specs.Greeting.{FreshMayBeGreeted, MorePagesMayBeGreeted};
ghost use Rattle.stm_wire.specs.Greeting.{LossMayBeGreeted, ResetMayBeGreeted};
ghost use Rattle.stm_wire.specs.Greeting.{SendingMayBeGreeted, StoppedMayBeGreeted};
ghost use Rattle.stm_wire.specs.Stopped.{AskingChangesNothing, FreshIsHarmless};
ghost use Rattle.stm_wire.specs.Stopped.{SendingIsHarmless, StoppedAwaitsFew, StoppedIsHarmless};
ghost use Rattle.stm_wire.specs.Stopped.{FedStaysHarmless, LossStaysHarmless};
ghost use Rattle.stm_wire.specs.Stopped.{MorePagesStayHarmless, ResetStaysHarmless};
ghost use Rattle.stm_wire.specs.Stopped.{PageIsInside, SameOutsideNoneIsSame};

/// Whatever beginning of a frame a stopped host has left, the settling byte of its intent changes
/// nothing outside the intent's page, however often it is sent and whenever the device is reset
/// meanwhile; and the device refuses one of so many as the intent asks for.
pub fn stopped_is_harmless()
    ensures stopped { StoppedIsHarmless }
    ensures awaits { StoppedAwaitsFew }
    ensures fresh { FreshIsHarmless }
{}

/// Whatever beginning of a frame a stopped host has left, one 7F may come ahead of the settling bytes
/// of its intent: nothing changes outside the intent's page, before or behind it.
pub fn stopped_may_be_greeted()
    ensures stopped { StoppedMayBeGreeted }
    ensures fresh { FreshMayBeGreeted }
    ensures sending { SendingMayBeGreeted }
{}

/// A device that may be greeted still may where it is reset, where owed bytes are lost, and for more
/// pages.
pub fn greeting_is_kept()
    ensures reset { ResetMayBeGreeted }
    ensures lost { LossMayBeGreeted }
    ensures more_pages { MorePagesMayBeGreeted }
{}

/// A host that sends a settled device a frame, under the intent that it wrote down before, may be
/// stopped at any byte: the device is harmless for that intent's settling byte. Where the frame
/// only asks, the flash is the same, and no byte is harmful.
pub fn sending_is_harmless()
    ensures sending { SendingIsHarmless }
    ensures asking { AskingChangesNothing }
{}

/// A harmless device stays so: fed with the byte, reset, with owed bytes lost, and for more pages.
pub fn harmless_is_kept()
    ensures fed { FedStaysHarmless }
    ensures reset { ResetStaysHarmless }
    ensures lost { LossStaysHarmless }
    ensures more_pages { MorePagesStayHarmless }
{}

/// How many bytes of a kind a device awaits at most before it refuses one, wherever it is in its
/// exchange: 267 where its pages are erased by numbers of one byte, and
/// 131,047 where they have two. Where so many are enough, more are too; and of a harmless device
/// they still are once the byte was fed.
pub fn awaited_is_limited()
    ensures limited { AwaitedIsLimited }
    ensures more { MoreSuffice }
    ensures fed { FedAwaitsNoMore }
{}

/// The pages of a chip are its flash: what lies in one lies in the flash, and two flashes that
/// agree outside no page are equal.
pub fn pages_are_the_flash()
    ensures inside { PageIsInside }
    ensures same { SameOutsideNoneIsSame }
{}
