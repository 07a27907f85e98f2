// A Rig that can be watched.
ghost use Rattle.stm_work.specs.Watching.{IsWatchingBegun};

use crate::keeper::Keeper;
use stm_watch::{Watch, WatchRig};

/// A Rig whose replies can be watched.
pub trait Watchable: Keeper {
    /// Holds each reply against this from here on.
    fn watch_by(&mut self, watch: Watch)
        ensures { IsWatchingBegun watch (Self.view self.old) (Self.view self.new) };
}

impl<L: Keeper + Drop> Watchable for WatchRig<L> {
    fn watch_by(&mut self, watch: Watch) {
        self.begin(watch);
    }
}
