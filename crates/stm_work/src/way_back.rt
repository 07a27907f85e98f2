// How far back an undo goes, by the journal as it is before it, and which of the segments that it
// undoes had changed nothing: the journal keeps no page of theirs.
ghost use Rattle.std.specs.Prelude.{◌≡◌, ◌++◌, ◌∷◌, [], IfOk, OnOk};
ghost use Rattle.stm_work.specs.WayBack.{FindsWay, IsCount, IsToChange, IsWayBack, beside_way};
ghost use Rattle.stm_work.specs.WayBack.{unchanged_above, unchanged_in};

use crate::answer::Answer;
use std::alloc::{AllocError, Global};
use stm_journal::Journal;
use stm_session::Fault;
use stm_wire::Rig;
use stm_words::Extent;

/// What a journal says of an undo, before it.
#[derive(Drop)]
pub struct WayBack {
    /// How many of the newest segments it undoes.
    pub count: u32,
    /// How many can still be undone behind it.
    pub left: u32,
    /// The numbers of those that it undoes and that had changed nothing, the oldest first.
    pub unchanged: Vec<u32>,
}

/// How many of the newest segments an undo takes that goes back to the newest that changed something:
/// that is the last of them. All, where none changed anything.
pub fn count_to_change(journal: &Journal) -> u32
    ensures { IsToChange journal.now.state result }
{
    let depth = journal.depth();
    for newer in 0..depth {
        if journal.kept_count(depth - newer) != 0 {
            return newer + 1;
        }
    }
    depth
}

/// How many of the newest segments an undo takes that goes back so far.
pub fn count_of(journal: &Journal, extent: Extent) -> u32
    ensures { IsCount extent journal.now.state result }
{
    let depth = journal.depth();
    match extent {
        Extent::Newest(count) if count == 0 || depth < count => depth,
        Extent::Newest(count) => count,
        Extent::ToChange => count_to_change(journal),
    }
}

/// Adds the number of a segment to others, if it changed nothing.
fn add_unchanged(numbers: &mut Vec<u32>, journal: &Journal, segment: u32) -> Result<(), AllocError>
    ensures { OnOk result (numbers.new.items
        ≡ numbers.old.items ++ unchanged_in journal.now.state (segment ∷ [])) }
{
    if journal.kept_count(segment) == 0 {
        numbers.push(segment)?;
    }
    Ok(())
}

/// The numbers of the segments above the oldest, so many, that changed nothing, the oldest first.
pub fn unchanged_above(alloc: Global, journal: &Journal, left: u32) -> Result<Vec<u32>, AllocError>
    ensures { IfOk result (λ numbers. numbers.items ≡ unchanged_above journal.now.state left) }
{
    let mut numbers = Vec::new(alloc);
    let above = journal.depth().saturating_sub(left);
    for i in 0..above {
        add_unchanged(&mut numbers, journal, left + 1 + i)?;
    }
    Ok(numbers)
}

impl WayBack {
    /// What a journal says of an undo that goes back so far.
    fn of(alloc: Global, journal: &Journal, extent: Extent) -> Result<WayBack, AllocError>
        ensures { IfOk result (IsWayBack extent journal.now.state) }
    {
        let count = count_of(journal, extent);
        let left = journal.depth() - count;
        let unchanged = unchanged_above(alloc, journal, left)?;
        Ok(WayBack {
            count,
            left,
            unchanged,
        })
    }

    /// The same of the journal of a Rig, which is read, and nothing more.
    pub fn find<L: Rig>(alloc: Global, rig: &mut L, extent: Extent) -> Result<WayBack, Fault>
        ensures { FindsWay extent (L.view rig.old) (L.view rig.new) result }
    {
        let journal = Journal::load(alloc, rig)?;
        Ok(WayBack::of(alloc, &journal, extent)?)
    }

    /// The answer of the undo, with what the journal said before it.
    pub fn beside(self, answer: Answer) -> Answer
        ensures { result ≡ beside_way self answer }
    {
        match answer {
            Answer::Undone { count, bytes } => Answer::UndoneBeside {
                count,
                bytes,
                unchanged: self.unchanged,
                left: self.left,
            },
            answer => answer,
        }
    }
}
