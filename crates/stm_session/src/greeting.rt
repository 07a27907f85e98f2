// A greeting ahead of an undo: 7F once, to a device that may be fresh from reset.
ghost use Rattle.std.specs.Prelude.{◌≡◌, ◌&&◌, true, false, List, ℕ, [], Ok, IfErr, IfOk};
ghost use Rattle.stm_wire.specs.Command.{with_rest};
ghost use Rattle.stm_wire.specs.Dialogue.{GoesOn};
ghost use Rattle.stm_journal.specs.Calls.{AreFetches};
ghost use Rattle.stm_session.specs.Fault.{HasSessionCause, IsRefusal};
ghost use Rattle.stm_session.specs.Greeting.{GreetsBy, GreetsInPartBy, GreetsSafely, IsConnectable};
ghost use Rattle.stm_session.specs.Greeting.{IsGreetableAs, ReadsFirst, greets, greets_loaded};
ghost use Rattle.stm_session.specs.Greeting.{is_erase, is_extended, wants_loaded};
ghost use Rattle.stm_session.specs.Undoable.{Undoable};

use crate::Fault;
use crate::journal_chip::find_unasked;
use crate::laws_of_steps::step_laws;
use std::alloc::Global;
use stm_chip::Table;
use stm_journal::{Journal, a_greeting_counts_as_nothing};
use stm_wire::{
    Chip, EraseKind, Intent, Rig, connect, greeting_is_kept, settling_byte, stopped_may_be_greeted,
};

/// Where a greeting comes.
#[derive(Clone, Copy)]
pub enum Greeting {
    /// Where it may, unless 7F may make a list of 65,000 bytes of what was begun: on a line whose
    /// speed isn't said they would be waited for as long as on the slowest.
    Brief,
    /// Where it may.
    Plain,
    /// Always: the device is said to be fresh from reset.
    Fresh,
}

/// Whether a page was about to be erased.
fn is_erase(intent: Option<Intent>) -> bool
    ensures { result ≡ is_erase intent }
{
    matches!(intent, Some(Intent::Erase(_)))
}

/// Whether pages that are erased so have numbers of two bytes.
fn is_extended(kind: EraseKind) -> bool
    ensures { result ≡ is_extended kind }
{
    matches!(kind, EraseKind::Extended)
}

/// Whether the journal has an intent, under which no 80 is sent, and doesn't say that 7F may have
/// been sent since.
fn wants_greeting(journal: &Journal) -> bool
    ensures { result ≡ wants_loaded journal.now }
{
    let intent = journal.last_intent();
    intent.is_some() && (settling_byte(intent) != 0x80 && journal.may_greet())
}

/// Whether such a greeting comes, by the journal, which is of this chip.
fn comes(greeting: Greeting, journal: &Journal, chip: &Chip) -> bool
    ensures { result ≡ greets_loaded greeting chip.now journal.now }
{
    match greeting {
        Greeting::Brief => {
            wants_greeting(journal)
                && !(is_erase(journal.last_intent()) && is_extended(chip.kind()))
        }
        Greeting::Plain => wants_greeting(journal),
        Greeting::Fresh => journal.last_intent().is_some(),
    }
}

/// Sends 7F once ahead of all that an undo sends, where the journal has an intent and doesn't say
/// yet that 7F may have been sent; and says so in a line of the journal first. So the first byte
/// that a device hears which is fresh from reset is 7F, by which many a bootloader finds its speed;
/// and a device that waits elsewhere is harmed in no page but those that the undo gives back. One
/// that is said to be fresh is sent it in any case, and where no line can say so, it has to answer.
/// Answers whether 7F was sent. What the question before an undo refuses before a byte is sent is
/// refused here too: no board has been asked which it is yet.
pub fn greet<R: Rig>(
    alloc: Global,
    rig: &mut R,
    table: &Table,
    greeting: Greeting,
) -> Result<bool, Fault>
    ensures cause { HasSessionCause (R.view rig.old) (R.view rig.new) result }
    ensures silent { let old = R.view rig.old in let new = R.view rig.new in
        result ≡ Ok false → GoesOn AreFetches old.calls new.calls }
    ensures order { let old = R.view rig.old in let new = R.view rig.new in
        result ≡ Ok true → GoesOn (ReadsFirst (GreetsBy greeting)) old.calls new.calls }
    ensures stops { let old = R.view rig.old in let new = R.view rig.new in
        IfErr result (λ fault. GoesOn (ReadsFirst (GreetsInPartBy greeting)) old.calls new.calls) }
    ensures unsent { let old = R.view rig.old in let new = R.view rig.new in
        IfErr result (λ fault. IsRefusal fault → GoesOn AreFetches old.calls new.calls) }
    ensures answer { let old = R.view rig.old in
        IfOk result (λ greeted. old.is_honest → greeted ≡ greets greeting table.now old.journal) }
    ensures honest { let old = R.view rig.old in let new = R.view rig.new in
        old.is_honest → (flashes : List (List ℕ)) → Undoable flashes old.device old.journal
        → IsGreetableAs greeting old.device old.journal
        → GreetsSafely table.now flashes old new result }
    ensures connected { let old = R.view rig.old in let new = R.view rig.new in
        old.is_honest → IsConnectable greeting old.device → result ≡ Ok true
        → new.device ≡ with_rest [] old.device }
{
    step_laws();
    a_greeting_counts_as_nothing();
    greeting_is_kept();
    stopped_may_be_greeted();
    let mut journal = Journal::load(alloc, rig)?;
    let depth = journal.depth();
    if depth == 0 {
        return Ok(false);
    }
    let Some(id) = journal.id() else {
        unreachable!()
    };
    if journal.last_intent().is_none() {
        return Ok(false);
    }
    let chip = find_unasked(&journal, table, id)?;
    if !comes(greeting, &journal, chip) {
        return Ok(false);
    }
    if !journal.may_greet() {
        connect(rig)?;
        return Ok(true);
    }
    journal.greet(rig)?;
    stm_wire::greet(rig)?;
    Ok(true)
}
