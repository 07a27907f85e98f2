// By which of a folder's journals a device is begun with, before it has told which board it is.
ghost use Rattle.std.specs.Prelude.{◌≡◌};
ghost use Rattle.stm_files.specs.JournalChoice.{chosen, has_unfinished};

use stm_wire::UniqueId;

/// A journal of a folder, as it was looked at.
#[derive(Clone, Copy, Debug)]
pub struct Looked {
    /// The board whose name it has.
    pub board: UniqueId,
    /// Whether its newest segment has not ended, or can't be read.
    pub is_unfinished: bool,
}

/// How a device is begun with whose journal is in a folder.
#[derive(Clone, Copy, Debug)]
pub enum Choice {
    /// It is asked which board it is, beside an empty journal: no board of the folder awaits more
    /// than 7F settles without harm.
    Ask,
    /// It is connected, as one that is fresh from reset, and then asked so.
    Connect,
    /// It is said to be the board that is wanted: its session is begun by that one's journal.
    Take,
    /// It is left alone: it may be a board that awaits the rest of a command.
    Refuse,
}

/// Whether a journal of these is unfinished.
fn has_unfinished(looked: &[Looked]) -> bool
    ensures { result ≡ has_unfinished looked.now }
{
    looked.iter().any(|one| one.is_unfinished)
}

/// How a device is begun with, by all journals of its folder, the board that is wanted, or none, and
/// whether the device is said to be fresh from reset.
pub fn choose(looked: &[Looked], wanted: &UniqueId, is_fresh: bool) -> Choice
    ensures { result ≡ chosen looked.now wanted.now is_fresh }
{
    if !has_unfinished(looked) {
        Choice::Ask
    } else if !wanted.is_none() {
        Choice::Take
    } else if is_fresh {
        Choice::Connect
    } else {
        Choice::Refuse
    }
}
