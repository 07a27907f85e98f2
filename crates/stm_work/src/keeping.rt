// Which writes and erases may stay.
ghost use Rattle.std.specs.Prelude.{◌≡◌, false, true, MatchResult};
ghost use Rattle.stm_journal.specs.States.{depth, is_unfinished};

use stm_journal::Journal;
use stm_session::Fault;

/// How many writes and erases of a journal stay, where its way back is given up. A stopped one
/// has to be undone first.
pub fn count_kept(journal: &Journal) -> Result<u32, Fault>
    ensures { let state = journal.now.state in
        MatchResult result
        (λ count. (is_unfinished state ≡ false) × (count ≡ depth state))
        (λ fault. (is_unfinished state ≡ true) × (fault ≡ Fault.Unfinished)) }
{
    if journal.is_unfinished() {
        return Err(Fault::Unfinished);
    }
    Ok(journal.depth())
}
