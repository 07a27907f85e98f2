// The stops, failures and counts of a Rig in memory.
ghost use Rattle.std.specs.Prelude.{◌≡◌, ℕ, ◌≤◌, ◌==◌};
ghost use Rattle.stm_wire.specs.Rig.{Rises};
ghost use Rattle.stm_sim.specs.Memory.{runs_into_stop, steps_left, steps_of_get, stopped};
ghost use Rattle.stm_sim.specs.Memory.{takes_steps, counts_put, counts_get};
ghost use Rattle.stm_sim.specs.Memory.{counts_append, counts_line, counts_journal, Fails};

use crate::Stop;
use crate::memory_rig::MemoryRig;
use crate::stop::{after_steps, runs_into_stop, steps_left};
use stm_wire::RigCall;

impl MemoryRig {
    /// Whether so many steps more run into the stop.
    pub(super) fn runs_into(&self, steps: u64) -> bool
        ensures { result ≡ runs_into_stop steps self.now.plan.stop }
    {
        runs_into_stop(self.plan.stop, steps)
    }

    /// How many steps a get is: one where a byte is owed.
    pub(super) fn steps_of_get(&self) -> u64
        ensures { result ≡ steps_of_get self.now }
    {
        if self.simulator.owes() { 1 } else { 0 }
    }

    /// How many steps are done before the stop.
    pub(super) fn left(&self) -> u64
        ensures { result ≡ steps_left self.now.plan.stop }
    {
        steps_left(self.plan.stop)
    }

    /// Lets the stop fall.
    pub(super) fn stop(&mut self)
        ensures { self.new ≡ stopped self.old }
    {
        self.plan.stop = Stop::Fallen;
    }

    /// Counts steps that were done.
    pub(super) fn take_steps(&mut self, steps: u64)
        ensures { self.new ≡ takes_steps steps self.old }
    {
        self.plan.stop = after_steps(self.plan.stop, steps);
    }

    /// Counts a put, and answers whether it is to fail.
    pub(super) fn count_put(&mut self) -> bool
        ensures counted { self.new ≡ counts_put self.old }
        ensures fails { result ≡ (self.old.plan.put_fails == 1) }
    {
        let fails = self.plan.put_fails == 1;
        self.plan.put_fails = self.plan.put_fails.saturating_sub(1);
        fails
    }

    /// Counts a get, and answers whether it is to fail.
    pub(super) fn count_get(&mut self) -> bool
        ensures counted { self.new ≡ counts_get self.old }
        ensures fails { result ≡ (self.old.plan.get_fails == 1) }
    {
        let fails = self.plan.get_fails == 1;
        self.plan.get_fails = self.plan.get_fails.saturating_sub(1);
        fails
    }

    /// Counts an append, and answers whether it is to fail.
    pub(super) fn count_append(&mut self) -> bool
        ensures counted { self.new ≡ counts_append self.old }
        ensures fails { result ≡ (self.old.plan.append_fails == 1) }
    {
        let fails = self.plan.append_fails == 1;
        self.plan.append_fails = self.plan.append_fails.saturating_sub(1);
        fails
    }

    /// Counts a failure of the line.
    pub(super) fn count_line(&mut self)
        ensures counted { self.new ≡ counts_line self.old }
        ensures later { self.old.line_failures ≤ self.new.line_failures }
    {
        self.line_failures = self.line_failures.saturating_add(1);
    }

    /// Counts a failure of the journal.
    pub(super) fn count_journal(&mut self)
        ensures counted { self.new ≡ counts_journal self.old }
        ensures later { self.old.journal_failures ≤ self.new.journal_failures }
    {
        self.journal_failures = self.journal_failures.saturating_add(1);
    }

    /// Counts a call of the line that did nothing.
    pub(super) fn fail_line(&mut self, call: RigCall)
        ensures fails { Fails call (counts_line self.old) self.new }
        ensures later { self.old.line_failures ≤ self.new.line_failures }
    {
        self.count_line();
        self.add_failed(call);
    }

    /// Counts a call of the journal that did nothing.
    pub(super) fn fail_journal(&mut self, call: RigCall)
        ensures fails { Fails call (counts_journal self.old) self.new }
        ensures later { self.old.journal_failures ≤ self.new.journal_failures }
    {
        self.count_journal();
        self.add_failed(call);
    }
}
