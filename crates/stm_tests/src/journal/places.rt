// Kept pages found by their places, over Rigs that bring few bytes at once, or
// other bytes than before.
ghost use Rattle.std.specs.Prelude.{◌≡◌, ◌^◌, ◌-◌};
ghost use Rattle.stm_sim.specs.Unmodelled.{unmodelled};
ghost use Rattle.stm_journal.specs.KeptPlaces.{IsPlaceIn};

use crate::journal::rig_with;
use crate::verdicts::ends_as;
use std::test::Fail;
use stm_journal::{Journal, JournalFault, PagePlace};
use stm_sim::MemoryRig;
use stm_wire::{Patience, Rig, RigFault};

/// What a Rig does to the bytes that it fetches.
#[derive(Clone, Copy)]
enum Lie {
    No,
    LowerCase,
    Ends,
    Fails,
}

/// The Rig in memory, whose fetches bring few bytes at once.
#[derive(Drop)]
struct Piecemeal {
    rig: MemoryRig,
    most: usize,
    lie: Lie,
}

impl Rig for Piecemeal {
    ghost view = { λ rig. unmodelled (2 ^ 64 - 1) (2 ^ 64 - 1) };

    ghost model = { λ rig honest. absurd honest };

    ghost places = { λ rig. tt };

    fn put(&mut self, byte: u8) -> Result<(), RigFault> {
        self.rig.put(byte)
    }

    fn get(&mut self, patience: Patience) -> Result<Option<u8>, RigFault> {
        self.rig.get(patience)
    }

    fn append(&mut self, bytes: &[u8]) -> Result<(), RigFault> {
        self.rig.append(bytes)
    }

    fn fetch(&mut self, at: u64, buf: &mut [u8]) -> Result<usize, RigFault> {
        let count = self.most.min(buf.len());
        let n = self.rig.fetch(at, &mut buf[..count])?;
        match self.lie {
            Lie::No => Ok(n),
            Lie::LowerCase => {
                if !buf.is_empty() {
                    buf[0] = b'a';
                }
                Ok(n)
            }
            Lie::Ends => Ok(0),
            Lie::Fails => Err(RigFault::File),
        }
    }
}

/// A segment with a page of three bytes.
const THREE: &[u8] = b"stmjournal 1 0412\nopen 1\npage 5 FF0A07\nend 1\n";

/// That journal over a Rig whose fetches bring so many bytes at once.
fn by_pieces(rt: &HostRuntime, most: usize) -> Result<(Journal, Piecemeal), Fail> {
    let mut rig = Piecemeal {
        rig: rig_with(rt.alloc(), THREE)?,
        most,
        lie: Lie::No,
    };
    let journal = Journal::load(rt.alloc(), &mut rig)?;
    Ok((journal, rig))
}

/// The bytes of a page of three that stands there.
fn fetched(
    journal: &Journal,
    rig: &mut Piecemeal,
    place: PagePlace,
) -> Result<[u8; 3], JournalFault>
    requires kept { IsPlaceIn journal.now.state place }
    requires three { place.length ≡ 3 }
{
    let mut buf = [0u8; 3];
    journal.fetch_page(rig, place, &mut buf)?;
    Ok(buf)
}

/// Where that page stands.
const PAGE: PagePlace = PagePlace {
    at: 32,
    length: 3,
    line: 3,
};

/// Whether the page is kept alone, stands in its place, and has its bytes.
fn is_brought(journal: &Journal, rig: &mut Piecemeal) -> bool {
    let Some(place) = journal.page(1, 5) else {
        return false;
    };
    if place.length != 3 {
        return false;
    }
    fetched(journal, rig, place) == Ok([0xFF, 0x0A, 0x07])
        && place == PAGE
        && journal.entries() == 1
}

/// Whether a Rig that gives so many bytes at once brings them.
fn brings(rt: &HostRuntime, most: usize) -> Result<bool, Fail> {
    let (journal, mut rig) = by_pieces(rt, most)?;
    Ok(is_brought(&journal, &mut rig))
}

/// The first count of bytes at once of which something else is brought.
fn first_other(rt: &HostRuntime) -> Result<Option<usize>, Fail> {
    for most in 1..8 {
        if !brings(rt, most)? {
            return Ok(Some(most));
        }
    }
    Ok(None)
}

/// Whether a lie gives this fault, and the page is told as it was before then.
fn is_answered(journal: &Journal, rig: &mut Piecemeal, lie: Lie, fault: JournalFault) -> bool {
    let Some(place) = journal.kept_place(1, 0) else {
        return false;
    };
    if place.length != 3 {
        return false;
    }
    rig.lie = lie;
    let lied = fetched(journal, rig, place);
    rig.lie = Lie::No;
    lied == Err(fault) && fetched(journal, rig, place) == Ok([0xFF, 0x0A, 0x07])
}

/// Lies, and the fault that each gives.
const LIES: &[(Lie, JournalFault)] = &[
    (Lie::LowerCase, JournalFault::Bad(3)),
    (Lie::Ends, JournalFault::Bad(3)),
    (Lie::Fails, JournalFault::File),
];

/// Whether a Rig that lies gives this fault, and then the page.
fn answers(rt: &HostRuntime, lie: Lie, fault: JournalFault) -> Result<bool, Fail> {
    let (journal, mut rig) = by_pieces(rt, 4)?;
    Ok(is_answered(&journal, &mut rig, lie, fault))
}

/// The first of `LIES` with other answers.
fn first_lie(rt: &HostRuntime) -> Result<Option<usize>, Fail> {
    for (place, (lie, fault)) in LIES.iter().enumerate() {
        if !answers(rt, *lie, *fault)? {
            return Ok(Some(place));
        }
    }
    Ok(None)
}

#[test]
fn pages_are_placed_and_fetched(rt: HostRuntime) -> Result<(), Fail> {
    ends_as("few bytes at once are no fault", first_other(&rt)?)?;
    ends_as("other bytes than before are told", first_lie(&rt)?)
}
