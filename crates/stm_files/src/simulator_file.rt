// A simulator between two runs of the program: its flash is in a file, and where it
// stands in another beside it.
ghost use Rattle.std.specs.Prelude.{◌≡◌, length, IfOk, IfSome};
ghost use Rattle.stm_wire.specs.Chip.{flash_size};
ghost use Rattle.stm_sim.specs.Memory.{rig_state};
ghost use Rattle.stm_files.specs.SimulatorFile.{StandsSo, simulator_at};
ghost use Rattle.stm_files.specs.Standing.{standing_phase};

use crate::file_fault::FileFault;
use crate::files::{open_to_hold, read_up_to, remove_if_there};
use crate::held::lock_if_any;
use crate::locks::Locks;
use crate::names::{is_named, is_same_file};
use crate::replacement::{ALONE, Replacement, remove_leftovers};
use crate::restoring::stand;
use crate::simulated_board::simulated_chip;
use crate::simulator_names::line_name;
use crate::standing::{Standing, read_standing, standing_line};
use crate::unusable::Unusable;
use std::alloc::{AllocError, Global};
use std::fs::Files;
use stm_sim::MemoryRig;
use stm_wire::Chip;

/// A simulator between two runs, as its two files hold it.
#[derive(Drop)]
pub struct StoredSimulator {
    chip: Chip,
    flash: Vec<u8>,
    standing: Standing,
    ghost is_whole: { length flash.items ≡ flash_size chip },
}

/// The two files of a simulator, which this program has for itself: the flash's is locked from
/// before it is read until this is dropped.
#[derive(Drop)]
pub struct SimulatorFiles<'r, 'a, R: Files> {
    rt: &'r R,
    file: &'a str,
    line: String,
    /// The flash's file, once it is there. This handle has the lock.
    flash: Option<R::File>,
    /// The journal that is used beside them.
    journal: Option<&'a str>,
}

impl StoredSimulator {
    /// The simulator, standing as it was left, beside a journal of these bytes. None where
    /// a device never stands so.
    pub fn start(self, alloc: Global, journal: Vec<u8>) -> Result<Option<MemoryRig>, AllocError>
        ensures { IfOk result (λ started. IfSome started (λ rig.
            StandsSo (simulator_at self.chip self.flash.items (standing_phase self.standing))
            journal.items rig)) }
    {
        let StoredSimulator {
            chip,
            flash,
            standing,
        } = self;
        let base = chip.base();
        let Some(mut rig) = MemoryRig::new(alloc, chip, flash, journal) else {
            unreachable!()
        };
        if stand(&mut rig, &standing, base)? {
            Ok(Some(rig))
        } else {
            Ok(None)
        }
    }

    /// The simulator that the two files hold once this one is stored: the text of its line is
    /// written, and read. Bytes that it owes are lost. None where the files hold no simulator.
    pub fn left(alloc: Global, rig: &MemoryRig) -> Result<Option<StoredSimulator>, AllocError>
        ensures { (rig_state rig.now).is_honest → IfOk result (λ left. IfSome left (λ stored.
            simulator_at stored.chip stored.flash.items (standing_phase stored.standing)
            ≡ simulator_at rig.now.device.chip rig.now.device.flash rig.now.device.phase)) }
    {
        let line = standing_line(alloc, rig.is_gone(), rig.rest())?;
        let Some(standing) = Standing::parse(alloc, line.as_slice())? else {
            return Ok(None);
        };
        let chip = rig.chip().clone()?;
        let flash = Vec::from_slice(alloc, rig.flash())?;
        if flash.len() != chip.flash_size() as usize {
            return Ok(None);
        }
        Ok(Some(StoredSimulator {
            chip,
            flash,
            standing,
        }))
    }
}

impl<'r, 'a, R: Locks + AllocGlobal> SimulatorFiles<'r, 'a, R> {
    /// The files of the simulator of this name, which no other program has then. Where it's said
    /// that none has, they need no lock on a file system that has none. What a program left
    /// beside them that was killed is removed.
    pub fn open(
        rt: &'r R,
        file: &'a str,
        without_lock: bool,
    ) -> Result<SimulatorFiles<'r, 'a, R>, FileFault<'a>> {
        let line = line_name(rt.alloc(), file)?;
        let flash = match open_alone(rt, file, without_lock) {
            Ok(flash) => flash,
            Err(why) => return Err(FileFault::SimulatorUnusable(file, why)),
        };
        let files = SimulatorFiles {
            rt,
            file,
            line,
            flash,
            journal: None,
        };
        if files.flash.is_some() {
            files.tidy();
        }
        Ok(files)
    }

    /// Removes what a program left beside the files that was killed. Who has them for itself alone
    /// may do so.
    fn tidy(&self) {
        remove_leftovers(self.rt, self.file);
        remove_leftovers(self.rt, self.line.as_str());
    }

    /// The same files beside a journal of this name, whose place neither takes.
    pub fn beside(self, journal: &'a str) -> SimulatorFiles<'r, 'a, R> {
        let SimulatorFiles {
            rt,
            file,
            line,
            flash,
            ..
        } = self;
        SimulatorFiles {
            rt,
            file,
            line,
            flash,
            journal: Some(journal),
        }
    }

    /// The simulator that the two files hold, as the board that the file beside them says.
    pub fn load(&mut self, chip: Chip) -> Result<StoredSimulator, FileFault<'a>> {
        let chip = simulated_chip(self.rt, self.file, chip)?;
        self.load_as(chip)
    }

    /// The simulator of this chip that the two files hold. A flash that isn't there is erased, and
    /// without the other file the device is fresh.
    pub fn load_as(&mut self, chip: Chip) -> Result<StoredSimulator, FileFault<'a>> {
        let flash = self.load_flash(&chip)?;
        match self.load_standing()? {
            Some(standing) if flash.len() == chip.flash_size() as usize => Ok(StoredSimulator {
                chip,
                flash,
                standing,
            }),
            _ => Err(FileFault::BadSimulatorFile(self.file)),
        }
    }

    /// The flash's bytes, up to one more than the chip has.
    fn load_flash(&mut self, chip: &Chip) -> Result<Vec<u8>, FileFault<'a>> {
        let alloc = self.rt.alloc();
        let size = chip.flash_size();
        match &mut self.flash {
            Some(file) => match read_up_to(alloc, file, u64::from(size) + 1) {
                Ok(flash) => Ok(flash),
                Err(e) => Err(FileFault::of_file(&e, FileFault::CannotRead(self.file))),
            },
            None => Ok(vec![in alloc; chip.erased(); size as usize]?),
        }
    }

    /// Where the simulator stands; none where the line's file has another form.
    fn load_standing(&self) -> Result<Option<Standing>, FileFault<'a>> {
        match read_standing(self.rt, self.line.as_str()) {
            Ok(standing) => Ok(standing),
            Err(e) => Err(FileFault::of_file(&e, FileFault::CannotReadLine(self.file))),
        }
    }

    /// The simulator, standing as it was left, beside a journal of these bytes.
    pub fn start(
        &self,
        loaded: StoredSimulator,
        journal: Vec<u8>,
    ) -> Result<MemoryRig, FileFault<'a>> {
        match loaded.start(self.rt.alloc(), journal)? {
            Some(memory) => Ok(memory),
            None => Err(FileFault::BadSimulatorFile(self.file)),
        }
    }

    /// The same, and its flash's file is there from now on.
    pub fn begin(
        &mut self,
        loaded: StoredSimulator,
        journal: Vec<u8>,
    ) -> Result<MemoryRig, FileFault<'a>> {
        let memory = self.start(loaded, journal)?;
        self.make(memory.flash())?;
        Ok(memory)
    }

    /// Makes the flash's file, where it wasn't there, so that this program has it.
    pub fn make(&mut self, flash: &[u8]) -> Result<(), FileFault<'a>> {
        if self.flash.is_some() {
            return Ok(());
        }
        let beside = self.prepare(flash)?;
        match beside.place_new(self.rt) {
            Ok(Some(file)) => {
                self.flash = Some(file);
                self.tidy();
                Ok(())
            }
            Ok(None) => Err(FileFault::SimulatorUnusable(self.file, Unusable::InUse)),
            Err(e) => Err(FileFault::of_file(&e, FileFault::CannotWrite(self.file))),
        }
    }

    /// The flash, beside its file, so that no other program has it once it takes the place.
    fn prepare(&self, flash: &[u8]) -> Result<Replacement<R>, FileFault<'a>> {
        match Replacement::prepare(self.rt, self.file, flash, ALONE) {
            Ok(beside) => {
                let _ = self.rt.lock(beside.file());
                Ok(beside)
            }
            Err(e) => Err(FileFault::of_file(&e, FileFault::CannotWrite(self.file))),
        }
    }

    /// Writes both files of a Rig in memory. Bytes owed are lost.
    pub fn store_rig(&mut self, rig: &MemoryRig) -> Result<(), FileFault<'a>> {
        let line = standing_line(self.rt.alloc(), rig.is_gone(), rig.rest())?;
        self.store(rig.flash(), line.as_slice())
    }

    /// Writes both files. All bytes stand on the disk before either is replaced. Then the line's
    /// file is removed, the flash's replaced, and the line's made again: whatever is left by a
    /// program that was killed in between, no line stands beside a flash that it isn't of, and a
    /// device without a line is fresh.
    pub fn store(&mut self, flash: &[u8], line: &[u8]) -> Result<(), FileFault<'a>> {
        let flash = self.prepare(flash)?;
        match Replacement::prepare(self.rt, self.line.as_str(), line, ALONE) {
            Ok(line) => self.replace(flash, line),
            Err(e) => {
                flash.discard(self.rt);
                Err(FileFault::of_file(&e, FileFault::CannotWriteLine(self.file)))
            }
        }
    }

    /// Puts in their places what stands beside both files.
    fn replace(
        &mut self,
        flash: Replacement<R>,
        line: Replacement<R>,
    ) -> Result<(), FileFault<'a>> {
        match self.remove_line(flash.target(), line.target()) {
            Ok(()) => self.place(flash, line),
            Err(fault) => {
                flash.discard(self.rt);
                line.discard(self.rt);
                Err(fault)
            }
        }
    }

    /// Removes the line's file, unless a place is the journal's.
    fn remove_line(&self, flash: &str, line: &str) -> Result<(), FileFault<'a>> {
        self.check(flash, line)?;
        match remove_if_there(self.rt, line) {
            Ok(()) => Ok(()),
            Err(e) => Err(FileFault::of_file(&e, FileFault::CannotWriteLine(self.file))),
        }
    }

    /// Puts the flash in its place, and then the line.
    fn place(&mut self, flash: Replacement<R>, line: Replacement<R>) -> Result<(), FileFault<'a>> {
        match flash.place(self.rt) {
            Ok(file) => self.flash = Some(file),
            Err(e) => {
                line.discard(self.rt);
                return Err(FileFault::of_file(&e, FileFault::CannotWrite(self.file)));
            }
        }
        match line.place(self.rt) {
            Ok(_) => Ok(()),
            Err(e) => Err(FileFault::of_file(&e, FileFault::CannotWriteLine(self.file))),
        }
    }

    /// Refuses to take the place of the journal: since names were compared it was made,
    /// and links may have been.
    fn check(&self, flash: &str, line: &str) -> Result<(), FileFault<'a>> {
        let Some(journal) = self.journal else {
            return Ok(());
        };
        if is_same_file(self.rt, journal, flash) {
            return Err(FileFault::CannotWrite(self.file));
        }
        if is_same_file(self.rt, journal, line) {
            return Err(FileFault::CannotWriteLine(self.file));
        }
        Ok(())
    }
}

/// Opens the file of this name for this program alone; none where there is none.
fn open_alone<R: Locks>(
    rt: &R,
    name: &str,
    without_lock: bool,
) -> Result<Option<R::File>, Unusable> {
    let file = match open_to_hold(rt, name) {
        Ok(Some(file)) => file,
        Ok(None) => return Ok(None),
        Err(e) => return Err(Unusable::Unread(e)),
    };
    let _is_locked = lock_if_any(rt, &file, without_lock)?;
    if is_named(rt, &file, name) {
        Ok(Some(file))
    } else {
        Err(Unusable::InUse)
    }
}
