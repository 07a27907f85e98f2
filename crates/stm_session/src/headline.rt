//! What a session promises wherever it is stopped, and what its words mean: each law is the
//! contract of a function that does nothing.
ghost use Rattle.stm_session.specs.Answers.{FirstDifferenceIsFirst, NoDifferenceAgrees};
ghost use Rattle.stm_session.specs.Headline.{AllIsUndone, EachCanFollow, Headline, WritesWhole};

use crate::{
    a_power_loss_keeps_what_can_be_undone, a_ready_device_can_begin,
    a_reset_keeps_what_can_be_undone, asking_keeps_what_can_be_undone,
    lost_bytes_keep_what_can_be_undone,
};
use stm_journal::a_journal_is_sound;
use stm_wire::Rig;

/// Whatever calls, stops, resets and losses of power follow a state that can be undone: each
/// call holds what is promised of it, and what was begun can be undone. An undo of everything
/// that reports success leaves the flash as it was at the start of the oldest segment, or when the
/// way back was last given up; and a write that reports success leaves the image in its places and
/// every other byte as it was. After each of them another can follow.
pub fn a_session_can_be_undone<R: Rig>()
    ensures headline { Headline R.view }
    ensures whole { AllIsUndone R.view }
    ensures writes { WritesWhole R.view }
    ensures follows { EachCanFollow R.view }
{
    lost_bytes_keep_what_can_be_undone();
    a_journal_is_sound();
    a_ready_device_can_begin();
    a_reset_keeps_what_can_be_undone();
    a_power_loss_keeps_what_can_be_undone();
    asking_keeps_what_can_be_undone();
}

/// The first difference of an image from a flash is the first place where the image has another
/// byte; with none the image agrees with the flash.
pub fn the_first_difference_is_the_first()
    ensures first { FirstDifferenceIsFirst }
    ensures none { NoDifferenceAgrees }
{}
