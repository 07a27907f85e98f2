//! Laws of what is known of a watched device: each is the contract of a function that does nothing.
ghost use Rattle.stm_watch.specs.Laws.{SettledIsSeen, FedIsSeen, SentIsDue, WatchedIsHeardOf};

/// A device that follows the model is as what is known of it says, from where it is settled, and
/// sends nothing but what is due.
pub fn honest_passes()
    ensures first { SettledIsSeen }
    ensures fed { FedIsSeen }
    ensures sent { SentIsDue }
{}

/// Whatever the line: bytes of which each that came was due, up to where something is still known,
/// are an exchange of a device of the model.
pub fn watched_is_heard_of()
    ensures { WatchedIsHeardOf }
{}
