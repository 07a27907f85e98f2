// An action on a simulator in the process that is stopped, a loss of power, and an undo in the next
// run of the program.
ghost use Rattle.std.specs.Prelude.{◌≡◌, Contains, ℕ, [], List, IfOk, IsTrue, OnOk};
ghost use Rattle.stm_wire.specs.Device.{IsReady};
ghost use Rattle.stm_sim.specs.Memory.{rig_state};
ghost use Rattle.stm_session.specs.Events.{Leads, lost_power, now_of};
ghost use Rattle.stm_session.specs.Headline.{IsStart, oldest_start};
ghost use Rattle.stm_session.specs.Undoable.{risked_pages};
ghost use Rattle.stm_files.specs.SimulatorFile.{StandsSo, simulator_at};
ghost use Rattle.stm_files.specs.Standing.{standing_phase};
ghost use Rattle.stm_histories.specs.Unpowered.{DoesOnFiles, IsUndoneUnpowered, SpoilsOnly, SuitsWorld, found};

use crate::histories::{a_stored_simulator_goes_on, actions_are_histories};
use std::alloc::Global;
use stm_chip::Table;
use stm_files::{JournalFile, Locks, SimulatorFiles, SimulatorRig, StoredSimulator};
use stm_journal::Journal;
use stm_session::Fault;
use stm_sim::MemoryRig;
use stm_work::{Action, Answer, Failure};

/// The names of the simulator's file and of the journal.
#[derive(Clone, Copy)]
pub struct Names<'a> {
    pub simulator: &'a str,
    pub journal: &'a str,
}

/// A page, and the bytes that a loss of power leaves in it.
#[derive(Drop)]
pub struct SpoiltPage {
    pub number: u16,
    pub bytes: Vec<u8>,
}

/// Whether a command that was stopped may have left this page half erased or half written.
fn is_at_risk(journal: &Journal, n: u16) -> bool
    ensures { IsTrue result → Contains (risked_pages journal.now.state) n }
{
    journal.is_unfinished() && journal.page(journal.depth(), n).is_some()
}

/// Spoils pages that are at risk, where the chip has them and there are as many bytes as they have.
fn spoil(memory: &mut MemoryRig, journal: &Journal, spoilt: &[SpoiltPage])
    ensures { SpoilsOnly (risked_pages journal.now.state) memory.old memory.new }
{
    for page in spoilt {
        let n = page.number;
        if n < memory.chip().pages()
            && page.bytes.len() == memory.chip().page_size(n) as usize
            && is_at_risk(journal, n)
        {
            memory.lose_power(n, page.bytes.as_slice());
        }
    }
}

/// Takes the device's power away, after which pages at risk hold these bytes.
fn lose_power(alloc: Global, memory: &mut MemoryRig, spoilt: &[SpoiltPage]) -> Result<(), Fault>
    ensures lost { let old = rig_state memory.old in let new = rig_state memory.new in
        old.is_honest → OnOk result (Leads rig_state lost_power (now_of old) (now_of new)) }
    ensures honest { let old = rig_state memory.old in let new = rig_state memory.new in
        old.is_honest → OnOk result new.is_honest }
{
    let journal = Journal::load(alloc, memory)?;
    spoil(memory, &journal, spoilt);
    memory.reset();
    Ok(())
}

/// The simulator as it was left, beside a journal of these bytes.
fn start<'a>(
    alloc: Global,
    names: Names<'a>,
    stored: StoredSimulator,
    journal: Vec<u8>,
) -> Result<MemoryRig, Failure<'a>>
    ensures { IfOk result (StandsSo
        (simulator_at stored.chip stored.flash.items (standing_phase stored.standing)) journal.items) }
{
    match stored.start(alloc, journal)? {
        Some(memory) => Ok(memory),
        None => Err(Failure::BadSimulatorFile(names.simulator)),
    }
}

/// The simulator as the next run of the program finds it, beside the journal that was left. Bytes
/// that it owed are lost.
fn start_again<'a>(
    alloc: Global,
    names: Names<'a>,
    left: &MemoryRig,
) -> Result<MemoryRig, Failure<'a>>
    ensures { let old = left.now in (rig_state old).is_honest → IfOk result (StandsSo
        (simulator_at old.device.chip old.device.flash old.device.phase) old.journal) }
{
    let Some(stored) = StoredSimulator::left(alloc, left)? else {
        return Err(Failure::BadSimulatorFile(names.simulator));
    };
    let journal = Vec::from_slice(alloc, left.journal())?;
    start(alloc, names, stored, journal)
}

/// Does an action on the program's own Rig, whose files have these names.
fn act<'a, R: Locks + AllocGlobal>(
    rt: &R,
    names: Names<'a>,
    memory: MemoryRig,
    action: Action,
    table: &Table,
) -> Result<(MemoryRig, Result<Answer, Failure<'a>>), Failure<'a>>
    ensures { IfOk result (λ left. DoesOnFiles table.now action memory left.0 left.1) }
{
    let journal = match JournalFile::open(rt, names.journal, false, false) {
        Ok(journal) => journal,
        Err(why) => return Err(Failure::of_journal(why, names.journal)),
    };
    let files = SimulatorFiles::open(rt, names.simulator, false)?;
    let mut rig = SimulatorRig::new(memory, journal, files);
    let said = action.run(rt.alloc(), &mut rig, table);
    let (memory, _journal, _files) = rig.into_parts();
    Ok((memory, said))
}

/// Starts a simulator as its files hold it, beside a journal; does an action on it, which is
/// stopped after so many steps; takes its power away, after which pages at risk hold these bytes;
/// starts it again from what that left; and undoes everything.
pub fn undo_stored<'a, R: Locks + AllocGlobal>(
    rt: &R,
    names: Names<'a>,
    stored: StoredSimulator,
    journal: Vec<u8>,
    action: Action,
    table: &Table,
    steps: u64,
    spoilt: &[SpoiltPage],
) -> Result<MemoryRig, Failure<'a>>
    ensures done { let w = found stored journal.items in
        (starts : List (List ℕ)) → IsStart starts w → SuitsWorld table.now action w
        → IfOk result (IsUndoneUnpowered table.now action steps w) }
    ensures back { let w = found stored journal.items in
        (starts : List (List ℕ)) → IsStart starts w → SuitsWorld table.now action w
        → IfOk result (λ rig. rig.device.flash ≡ oldest_start starts w) }
    ensures first { let w = found stored journal.items in
        journal.items ≡ [] → IsReady w.device → SuitsWorld table.now action w
        → IfOk result (λ rig. rig.device.flash ≡ stored.flash.items) }
{
    actions_are_histories::<SimulatorRig<'_, '_, R>>();
    a_stored_simulator_goes_on();
    let alloc = rt.alloc();
    let mut memory = start(alloc, names, stored, journal)?;
    memory.stop_after(steps);
    let (mut memory, _stopped) = act(rt, names, memory, action, table)?;
    memory.stop_after(u64::MAX);
    lose_power(alloc, &mut memory, spoilt)?;
    let memory = start_again(alloc, names, &memory)?;
    let (memory, said) = act(rt, names, memory, Action::Undo(0), table)?;
    said?;
    Ok(memory)
}
