// A run on any line, whatever it answers and wherever it fails.
ghost use Rattle.stm_any_line.specs.Calls.{RunTracks};

use crate::a_run_keeps_pages_as_they_were_read;
use std::alloc::Global;
use stm_chip::Table;
use stm_session::{Command, Fault, Report, run};
use stm_wire::Rig;

/// Does commands. On any Rig, whatever it answers, and also where it fails: it keeps a page as it
/// was read, and only then says that the page is changed, erases it and writes it; and it takes no
/// segment off.
pub fn change<R: Rig>(
    alloc: Global,
    rig: &mut R,
    table: &Table,
    commands: &[Command],
) -> Result<Report, Fault>
    ensures tracks { RunTracks (R.view rig.old) (R.view rig.new) }
{
    a_run_keeps_pages_as_they_were_read::<R>();
    run(alloc, rig, table, commands)
}
