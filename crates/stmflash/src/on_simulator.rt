// A simulator in the process: its files and its journal are opened, and it is stored, whatever came of
// it.
ghost use Rattle.std.specs.Prelude.{◌≡◌, IfOk, Ok};
ghost use Rattle.stmflash.specs.DeviceUse.{AreLeft, goes_out};

use crate::output::{Output, write_done};
use crate::planned_session::{Taken, checked_extent, failed_if};
use stm_chip::Table;
use stm_files::{FileFault, JournalFile, Locks, SimulatorFiles, SimulatorRig, Unusable};
use stm_session::Fault;
use stm_words::Options;
use stm_work::{Failure, Steps, Work, done_on, read_journal};

/// A simulator of the chip with this id in a file, which is stored where its journal can't be read.
pub fn open_simulator<'a: 'r, 'r, R: Locks + AllocGlobal>(
    rt: &'r R,
    options: &Options<'a>,
    work: &Work,
    chips: &Table,
    id: u16,
    file: &'a str,
) -> Result<SimulatorRig<'r, 'a, R>, Failure<'a>> {
    let name = options.journal;
    let Some(chip) = chips.find(id) else {
        return Err(Failure::Session(Fault::UnknownChip(id)));
    };
    let opened = match JournalFile::open(rt, name, options.without_lock, options.trusts_others) {
        // a simulator of which nothing else is known is fresh
        Err(Unusable::Unread(e)) => Err(Unusable::Unread(e)),
        Err(why) => return Err(Failure::of_journal(why, name)),
        opened => opened,
    };
    let mut files = SimulatorFiles::open(rt, file, options.without_lock)?.beside(name);
    let loaded = files.load(chip.clone()?)?;
    match read_journal(rt, opened, name, checked_extent(work, options)) {
        Ok((journal, bytes)) => {
            let mut rig = SimulatorRig::new(files.begin(loaded, bytes)?, journal, files);
            if let Some(steps) = options.stop {
                rig.stop_after(u64::from(steps));
            }
            Ok(rig)
        }
        Err(failure) => {
            let memory = files.begin(loaded, Vec::new(rt.alloc()))?;
            files.store_rig(&memory)?;
            Err(failure)
        }
    }
}

/// Closes the journal behind a session, and stores the simulator; what was read goes out before.
pub fn close_simulator<'a, 'r, R: Locks + AllocGlobal>(
    rt: &'r R,
    name: &'a str,
    taken: Taken<'a, SimulatorRig<'r, 'a, R>>,
    output: Output<'a, R>,
) -> Result<Steps<'a>, Failure<'a>>
    ensures { IfOk result (AreLeft (goes_out output.entry) taken.entry.done) }
{
    let Taken { rig, done } = taken;
    let is_unstored = rig.is_unstored();
    let (memory, journal, mut files) = rig.into_parts();
    let done = done_on(journal, name, done);
    let done = failed_if(memory.has_stopped(), done, Failure::Stopped);
    let done = write_done(rt, done, output);
    let stored = files.store_rig(&memory);
    done_stored(done, stored, is_unstored)
}

/// The same, where the simulator was stored. It's told first why a line of the journal wasn't added.
fn done_stored<'a>(
    done: Result<Steps<'a>, Failure<'a>>,
    stored: Result<(), FileFault<'a>>,
    is_unstored: bool,
) -> Result<Steps<'a>, Failure<'a>>
    ensures { IfOk result (λ steps. done.entry ≡ Ok steps) }
{
    if is_unstored {
        stored?;
        return done;
    }
    let steps = done?;
    stored?;
    Ok(steps)
}
