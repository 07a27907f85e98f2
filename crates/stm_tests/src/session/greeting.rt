// A greeting ahead of an undo, behind stops of a write, and behind stops of a greeting.
use std::test::Fail;
use stm_chip::{Table, read_table};
use stm_image::read_raw;
use stm_session::{Command, Greeting, greet, run, tell_silence, undo};
use stm_sim::MemoryRig;

/// A table of chip 0414, whose pages are erased by numbers of two bytes.
const TABLE: &str =
    "[[chip]]\nid = 0x414\nbase = 0x08000000\npages = [[4, 256]]\nerase = \"extended\"\n";

/// How many stops are tried, eleven steps apart: a write of one page has some 1,100.
const TURNS: u64 = 110;

/// The table of that text.
pub fn the_table(rt: &HostRuntime) -> Result<Table, Fail> {
    match read_table(rt.alloc(), TABLE.as_bytes()) {
        Ok(table) => Ok(table),
        Err(_) => Err(Fail::new("no table")),
    }
}

/// A test's failure at a number of steps.
pub fn failed_at(steps: u64) -> Fail {
    Fail::new(format_args!("something else than is due at {steps}"))
}

/// A flash of 1,024 bytes, of which byte i is i modulo 251.
pub fn counting(rt: &HostRuntime) -> Result<Vec<u8>, Fail> {
    let mut bytes = Vec::new(rt.alloc());
    for place in 0..1_024_u32 {
        bytes.push((place % 251) as u8)?;
    }
    Ok(bytes)
}

/// Whether byte i is i modulo 251.
pub fn is_counting(bytes: &[u8]) -> bool {
    let mut due = 0_u8;
    for byte in bytes {
        if *byte != due {
            return false;
        }
        due = if due < 250 { due + 1 } else { 0 };
    }
    true
}

/// A device on which a write was stopped after so many steps, and that may be reset then.
fn stopped(rt: &HostRuntime, table: &Table, steps: u64, resets: bool) -> Result<MemoryRig, Fail> {
    let chip = table.find(0x0414).ok_or("no chip")?.clone()?;
    let journal = Vec::new(rt.alloc());
    let mut rig = MemoryRig::new(rt.alloc(), chip, counting(rt)?, journal).ok_or("no rig")?;
    let Ok(image) = read_raw(rt.alloc(), &[1, 2, 3], 0x0800_0000) else {
        return Err(Fail::new("no image"));
    };
    rig.stop_after(steps);
    let _stop = run(rt.alloc(), &mut rig, table, &[Command::Write(image)]);
    rig.stop_after(u64::MAX);
    if resets {
        rig.reset();
    }
    Ok(rig)
}

/// Whether a journal has this line, with an LF before it and behind it.
fn has_line(journal: &[u8], line: &[u8]) -> bool {
    for place in 0..journal.len() {
        if journal.get(place..).unwrap_or(&[]).starts_with(line) {
            return true;
        }
    }
    false
}

/// Whether an intent stands in the journal of a write that was stopped, and no part of another line
/// behind it.
fn is_intent_last(journal: &[u8]) -> bool {
    journal.ends_with(b"\n")
        && has_line(journal, b"\nerase 0\n")
        && !has_line(journal, b"\nend 1\n")
}

/// Whether a greeting comes where it should, says so in the journal, leaves a device waiting that
/// was reset, and is the only one.
fn greets_once(rt: &HostRuntime, rig: &mut MemoryRig, table: &Table, resets: bool) -> bool {
    let due = is_intent_last(rig.journal());
    if rig.journal().ends_with(b"\nerase 0\n")
        && greet(rt.alloc(), rig, table, Greeting::Brief) != Ok(false)
    {
        return false;
    }
    if greet(rt.alloc(), rig, table, Greeting::Plain) != Ok(due) {
        return false;
    }
    let waits = !resets || rig.rest() == Some(&[]);
    let says = rig.journal().ends_with(b"\nconnect!\n");
    !due || (waits && says && greet(rt.alloc(), rig, table, Greeting::Plain) == Ok(false))
}

/// Whether a greeted device that was reset again is greeted once more where that is said, and where
/// the journal says that nothing answered.
fn greets_again(rt: &HostRuntime, rig: &mut MemoryRig, table: &Table) -> bool {
    rig.reset();
    let is_said = greet(rt.alloc(), rig, table, Greeting::Fresh) == Ok(true);
    let waits = rig.rest() == Some(&[]);
    let told = tell_silence(rt.alloc(), rig) == Ok(());
    let says = rig.journal().ends_with(b"\nconnect!\nsilent!\n");
    rig.reset();
    let is_due = greet(rt.alloc(), rig, table, Greeting::Plain) == Ok(true);
    is_said && waits && told && says && is_due
}

/// Whether all is given back behind a greeting that was stopped after so many steps.
fn gives_back(rt: &HostRuntime, rig: &mut MemoryRig, table: &Table, steps: u64) -> bool {
    rig.stop_after(steps);
    let _greeted = greet(rt.alloc(), rig, table, Greeting::Plain);
    rig.stop_after(u64::MAX);
    let greeted = greet(rt.alloc(), rig, table, Greeting::Plain).is_ok();
    let undone = undo(rt.alloc(), rig, table, 0).is_ok();
    greeted && undone && is_counting(rig.flash())
}

#[test]
fn a_greeting_is_one_where_a_write_was_stopped(rt: HostRuntime) -> Result<(), Fail> {
    let table = the_table(&rt)?;
    let mut last = false;
    for turn in 0..TURNS {
        let steps = turn.saturating_mul(11);
        for resets in [false, true] {
            let mut rig = stopped(&rt, &table, steps, resets)?;
            last = last || is_intent_last(rig.journal());
            if !greets_once(&rt, &mut rig, &table, resets) {
                return Err(failed_at(steps));
            }
        }
    }
    if last {
        Ok(())
    } else {
        Err(Fail::new("no stop was behind the intent"))
    }
}

#[test]
fn an_undo_behind_a_greeting_gives_all_back(rt: HostRuntime) -> Result<(), Fail> {
    let table = the_table(&rt)?;
    for turn in 0..TURNS {
        let steps = turn.saturating_mul(11);
        for resets in [false, true] {
            let mut rig = stopped(&rt, &table, steps, resets)?;
            let due = is_intent_last(rig.journal());
            if due && resets {
                let _greeted = greet(rt.alloc(), &mut rig, &table, Greeting::Plain);
                if !greets_again(&rt, &mut rig, &table) {
                    return Err(failed_at(steps));
                }
            }
            if !gives_back(&rt, &mut rig, &table, steps % 40) {
                return Err(failed_at(steps));
            }
        }
    }
    Ok(())
}
