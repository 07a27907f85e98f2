// Settling a device by the journal's intent.
ghost use Rattle.std.specs.Prelude.{◌≡◌, ◌≤◌, ◌+◌, ◌*◌, if◌then◌else◌, [], List, ℕ, ⊤, length, OnOk, IfErr};
ghost use Rattle.stm_wire.specs.Dialogue.{GoesOn};
ghost use Rattle.stm_wire.specs.Harmless.{Harmless};
ghost use Rattle.stm_wire.specs.Settling.{SettlesWithin};
ghost use Rattle.stm_journal.specs.Journals.{IsLoaded};
ghost use Rattle.stm_journal.specs.States.{intent_of};
ghost use Rattle.stm_session.specs.Fault.{HasSessionCause, IsOfLine};
ghost use Rattle.stm_session.specs.Fresh.{EndsWell, byte_of, limit_for, limit_of};
ghost use Rattle.stm_session.specs.Fresh.{settling_limit, settling_way};
ghost use Rattle.stm_session.specs.JournalDevice.{Strays};
ghost use Rattle.stm_session.specs.Steps.{Goes};
ghost use Rattle.stm_session.specs.Undoable.{Undoable};
ghost use Rattle.stm_session.specs.Undoes.{IsWithinLimit, byte_at_journal, risked_at};

use crate::Fault;
use crate::laws_of_steps::step_laws;
use stm_journal::Journal;
use stm_wire::{Chip, EraseKind, Intent, Rig, settle_under, settling_byte};

/// How often the settling byte is sent at most: more often than any device awaits it.
const SETTLING_LIMIT: u32 = 131_072;

/// And behind a write, or where the chip's pages are erased by numbers of one byte: two batches, and
/// nothing that was begun there is as long.
const SHORT_LIMIT: u32 = 512;

/// No fewer are sent of a byte of an erase where pages have numbers of two bytes. Behind `44 BB` a 7F
/// that was sent once ahead of the byte is the high byte of the list's count.
fn least_for(byte: u8, is_greeted: bool) -> u32
    ensures { let least = if is_greeted then byte * 2 + 65030 else 512 in result ≡ least }
{
    if is_greeted {
        u32::from(byte) * 2 + 65_030
    } else {
        SHORT_LIMIT
    }
}

/// How often this byte of an erase is sent at most where pages have numbers of two bytes. The
/// longest list that a frame of ours began, and the byte goes on with, is behind `44 BB`: the byte
/// twice is its count. 7F is also the byte of a host without an intent, which may wait for any list.
fn limit_for(byte: u8, is_greeted: bool) -> u32
    ensures { result ≡ limit_for is_greeted byte }
{
    if byte == 0x7F {
        return SETTLING_LIMIT;
    }
    (u32::from(byte) * 514 + 8)
        .max(least_for(byte, is_greeted))
        .min(SETTLING_LIMIT)
}

/// How often the settling byte of the journal's intent is sent at most, to a device that may be
/// this chip. Without an intent it is 7F, of which a fresh device refuses the third.
fn settling_limit(journal: &Journal, chip: &Chip) -> u32
    ensures { result
        ≡ settling_limit chip.now.kind journal.now.is_greeted (intent_of journal.now.state) }
{
    match journal.last_intent() {
        None => SETTLING_LIMIT,
        Some(Intent::Program(_)) => SHORT_LIMIT,
        Some(Intent::Erase(page)) => match chip.kind() {
            EraseKind::Page => SHORT_LIMIT,
            EraseKind::Extended => limit_for(
                settling_byte(Some(Intent::Erase(page))),
                journal.is_greeted(),
            ),
        },
    }
}

/// Settles a device by the intent of the journal that was loaded, from wherever a session was
/// stopped: in batches where there is one. The journal is one of a device that is erased as this
/// chip is.
pub fn settle_intended<R: Rig>(rig: &mut R, journal: &Journal, chip: &Chip) -> Result<(), Fault>
    ensures cause { HasSessionCause (R.view rig.old) (R.view rig.new) result }
    ensures calls { let way = settling_way chip.now.kind journal.now.is_greeted (intent_of journal.now.state) in
        GoesOn (SettlesWithin (byte_of way) (limit_of way)) (R.view rig.old).calls
        (R.view rig.new).calls }
    ensures settled { let way = settling_way chip.now.kind journal.now.is_greeted (intent_of journal.now.state) in
        OnOk result (GoesOn (EndsWell way) (R.view rig.old).calls (R.view rig.new).calls) }
    ensures sent { IfErr result IsOfLine }
    ensures honest { let old = R.view rig.old in let new = R.view rig.new in
        old.is_honest → (flashes : List (List ℕ))
        → IsLoaded journal.now old.journal → Undoable flashes old.device old.journal
        → old.device.chip.kind ≡ chip.now.kind
        → Goes flashes [] journal.now old new result (λ _. ⊤) }
    ensures strays { let old = R.view rig.old in let new = R.view rig.new in
        old.is_honest → IsLoaded journal.now old.journal
        → Harmless old.device (byte_at_journal old.journal) (risked_at old.journal)
        → length old.device.owed ≤ 4096 → IsWithinLimit chip.now old → Strays old new result }
{
    step_laws();
    let limit = settling_limit(journal, chip);
    settle_under(rig, journal.last_intent(), limit)?;
    Ok(())
}
