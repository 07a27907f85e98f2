// A Rig whose line and whose disk are both in memory.
ghost use Rattle.std.specs.Prelude.{◌≡◌, []};

use crate::{DiskRig, MemoryFile};
use std::alloc::Global;
use stm_sim::MemoryRig;
use stm_wire::Rig;

/// A Rig with this line and an empty file in memory. With an empty journal it is honest: so what is
/// promised of an honest one is promised of some.
pub fn memory_disk(alloc: Global, line: MemoryRig) -> DiskRig<MemoryRig, MemoryFile>
    ensures honest { (⟦<MemoryRig as Rig>⟧.view line).is_honest → line.journal ≡ []
        → (⟦<DiskRig<MemoryRig, MemoryFile> as Rig>⟧.view result).is_honest }
{
    DiskRig::new(line, MemoryFile::new(alloc), 0)
}
