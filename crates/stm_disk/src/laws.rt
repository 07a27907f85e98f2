// What holds of journals on a disk, as functions whose contracts are the laws.
ghost use Rattle.stm_disk.specs.Appends.{AppendsAreOne, StoppedAppendsFollow};
ghost use Rattle.stm_disk.specs.DiskRig.{CrashesInSessionsAreStops};
ghost use Rattle.stm_disk.specs.Folder.{LockedBeforeTheFirstByte, ProgramsAreOne};
ghost use Rattle.stm_disk.specs.Folder.{ProgramsTakeTurns, UnkeptIsEmpty};
ghost use Rattle.stm_disk.specs.Stops.{CrashesAreGood, CrashesAreStops};
ghost use Rattle.stm_disk.specs.UnsyncedEnd.{CutsKeepAcknowledged};

use crate::GrowingFile;
use stm_journal::a_stopped_append_is_good;
use stm_wire::Rig;

/// What a crash of the PC leaves of lines that were being added to a journal comes to the same
/// journal as what a stop leaves of them.
pub fn a_crash_is_a_stop()
    ensures { CrashesAreStops }
{}

/// Wherever a crash of the PC comes into the append of entries that are allowed, the journal is
/// good, and its state is the one before with a beginning of the entries added.
pub fn a_crash_in_an_append_is_good()
    ensures { CrashesAreGood }
{
    a_crash_is_a_stop();
    a_stopped_append_is_good();
}

/// Of what a crash of the PC left, whatever stands where nothing was synced, all that was
/// acknowledged is in front of the first bad line and, where its pages fit the chip, of each line of a
/// page that doesn't: it's there behind a cut.
pub fn a_cut_keeps_what_was_acknowledged()
    ensures { CutsKeepAcknowledged }
{}

/// Appends that follow one another, each behind one that answered Ok, are one append of all their
/// bytes.
pub fn appends_are_one<F: GrowingFile, E>()
    ensures { AppendsAreOne F E F.view }
{}

/// Behind appends that were stopped or have failed, each taken up before the next, a crash leaves
/// what is there of those before, and a beginning of the lines of the one that it came into.
pub fn stopped_appends_follow<F: GrowingFile>()
    ensures { StoppedAppendsFollow F F.view }
{}

/// What several programs do to a file, each adding only while it holds the lock, can be done by one
/// program, and leaves the same.
pub fn programs_are_one()
    ensures { ProgramsAreOne }
{}

/// Where a program adds to the file behind another, that one has let the lock go since its own
/// bytes, and this one has got it.
pub fn programs_take_turns()
    ensures { ProgramsTakeTurns }
{}

/// Before a program adds its first byte it got the lock, and the name of a file that was just made
/// was put on the disk.
pub fn a_file_is_locked_before_its_first_byte()
    ensures { LockedBeforeTheFirstByte }
{}

/// A crash of the PC leaves the file under its name, but where the folder wasn't synced yet: then
/// it leaves no file, or an empty one.
pub fn an_unkept_name_is_empty()
    ensures { UnkeptIsEmpty }
{}

/// Where a crash of the PC in a call is a stop in it, as on a Rig with its journal on a disk, it is
/// one in a session that makes the call: it leaves a device that a stop in the session may leave,
/// and a file that comes to the journal which that stop leaves with it.
pub fn a_crash_in_a_session_is_a_stop<R: Rig, F: GrowingFile>()
    ensures { CrashesInSessionsAreStops R.view F.view }
{}
