// A Rig in memory as a Rig. Beside the clauses of every Rig, each call says what it leaves of the
// whole value.
ghost use Rattle.std.specs.Prelude.{◌≡◌};
ghost use Rattle.std.proofs.Common.{sym};
ghost use Rattle.stm_wire.specs.Call.{Put, Fetch};
ghost use Rattle.stm_sim.specs.lemmas.Recorded.{length_told};
ghost use Rattle.stm_wire.specs.Rig.{PutsAside, GetsAside, FetchesAside};
ghost use Rattle.stm_wire.specs.Rig.{HasCause, Records, RecordsAppend, Enters};
ghost use Rattle.stm_wire.specs.Rig.{EntersAppend, entry_of_get, PutsHonestly};
ghost use Rattle.stm_wire.specs.Rig.{GetsHonestly};
ghost use Rattle.stm_wire.specs.Rig.{AppendsHonestly, FetchesHonestly, FetchesWithin};
ghost use Rattle.stm_sim.specs.Memory.{rig_state, PutsInMemory, GetsInMemory};
ghost use Rattle.stm_sim.specs.Memory.{AppendsInMemory, FetchesInMemory};
ghost use Rattle.stm_sim.specs.lemmas.Past.{model};

use crate::memory_rig::MemoryRig;
use stm_wire::{Patience, Rig, RigFault};

impl Rig for MemoryRig {
    ghost view = { rig_state };

    ghost model = { λ rig honest. model rig honest };

    ghost places = { λ rig. sym (length_told rig.journal rig.calls) };

    fn put(&mut self, byte: u8) -> Result<(), RigFault>
        ensures cause { HasCause
            (rig_state self.old).line_failures (rig_state self.new).line_failures result }
        ensures journal_count { (rig_state self.new).journal_failures
            ≡ (rig_state self.old).journal_failures }
        ensures recorded { Records (Put byte) result
            (rig_state self.old).calls (rig_state self.new).calls }
        ensures entered { Enters (Put byte) (rig_state self.old) (rig_state self.new) }
        ensures aside { PutsAside (rig_state self.old) (rig_state self.new) }
        ensures honest { (rig_state self.old).is_honest
            → PutsHonestly byte result (rig_state self.old) (rig_state self.new) }
        ensures simulated { PutsInMemory byte result self.old self.new }
    {
        self.put_byte(byte)
    }

    fn get(&mut self, patience: Patience) -> Result<Option<u8>, RigFault>
        ensures cause { HasCause
            (rig_state self.old).line_failures (rig_state self.new).line_failures result }
        ensures journal_count { (rig_state self.new).journal_failures
            ≡ (rig_state self.old).journal_failures }
        ensures recorded { Records (entry_of_get result) result
            (rig_state self.old).calls (rig_state self.new).calls }
        ensures entered { Enters (entry_of_get result) (rig_state self.old) (rig_state self.new) }
        ensures aside { GetsAside patience (rig_state self.old) (rig_state self.new) }
        ensures honest { (rig_state self.old).is_honest
            → GetsHonestly result (rig_state self.old) (rig_state self.new) }
        ensures simulated { GetsInMemory result self.old self.new }
    {
        self.get_byte()
    }

    fn append(&mut self, bytes: &[u8]) -> Result<(), RigFault>
        ensures cause { HasCause
            (rig_state self.old).journal_failures (rig_state self.new).journal_failures result }
        ensures line_count { (rig_state self.new).line_failures
            ≡ (rig_state self.old).line_failures }
        ensures recorded { RecordsAppend bytes.now result
            (rig_state self.old).calls (rig_state self.new).calls }
        ensures entered { EntersAppend bytes.now (rig_state self.old) (rig_state self.new) }
        ensures aside { PutsAside (rig_state self.old) (rig_state self.new) }
        ensures honest { (rig_state self.old).is_honest
            → AppendsHonestly bytes.now result (rig_state self.old) (rig_state self.new) }
        ensures simulated { AppendsInMemory bytes.now result self.old self.new }
    {
        self.append_bytes(bytes)
    }

    fn fetch(&mut self, at: u64, buf: &mut [u8]) -> Result<usize, RigFault>
        ensures within { FetchesWithin at buf.old buf.new result }
        ensures cause { HasCause
            (rig_state self.old).journal_failures (rig_state self.new).journal_failures result }
        ensures line_count { (rig_state self.new).line_failures
            ≡ (rig_state self.old).line_failures }
        ensures recorded { Records Fetch result
            (rig_state self.old).calls (rig_state self.new).calls }
        ensures entered { Enters Fetch (rig_state self.old) (rig_state self.new) }
        ensures aside { FetchesAside buf.new result (rig_state self.old) (rig_state self.new) }
        ensures honest { (rig_state self.old).is_honest
            → FetchesHonestly at buf.old buf.new result
            (rig_state self.old) (rig_state self.new) }
        ensures simulated { FetchesInMemory at buf.old buf.new result self.old self.new }
    {
        self.fetch_bytes(at, buf)
    }
}
