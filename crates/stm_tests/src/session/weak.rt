// A write whose page a loss of power leaves weak, and its undo: it reads that page only once it was
// erased whole, so the line that answers no such read doesn't fail.
use crate::session::greeting::{counting, failed_at, is_counting, the_table};
use std::test::Fail;
use stm_chip::Table;
use stm_image::read_raw;
use stm_journal::Journal;
use stm_session::{Command, run, undo};
use stm_sim::MemoryRig;
use stm_weak::WeakRig;
use stm_wire::{Intent, Rig};

/// How many stops are tried, 47 steps apart: a write into two pages has some 1,900.
const TURNS: u64 = 41;

/// A device on which a write into two pages was stopped after so many steps.
fn stopped(rt: &HostRuntime, table: &Table, steps: u64) -> Result<WeakRig, Fail> {
    let chip = table.find(0x0414).ok_or("no chip")?.clone()?;
    let journal = Vec::new(rt.alloc());
    let memory = MemoryRig::new(rt.alloc(), chip, counting(rt)?, journal).ok_or("no rig")?;
    let mut rig = WeakRig::new(memory);
    let Ok(image) = read_raw(rt.alloc(), &[1, 2, 3, 4], 0x0800_00FE) else {
        return Err(Fail::new("no image"));
    };
    rig.stop_after(steps);
    let _stop = run(rt.alloc(), &mut rig, table, &[Command::Write(image)]);
    rig.stop_after(u64::MAX);
    Ok(rig)
}

/// Takes the power while the page of the journal's intent is changed, and answers whether there is
/// one.
fn lose_power(rt: &HostRuntime, rig: &mut WeakRig) -> Result<bool, Fail> {
    let Ok(journal) = Journal::load(rt.alloc(), rig) else {
        return Err(Fail::new("no journal"));
    };
    let Some(Intent::Erase(n) | Intent::Program(n)) = journal.last_intent() else {
        return Ok(false);
    };
    let chip = rig.memory().chip();
    if n >= chip.pages() {
        return Ok(false);
    }
    let page = vec![in rt.alloc(); 0xA5; chip.page_size(n) as usize]?;
    rig.lose_power(n, &page);
    Ok(true)
}

/// Whether all is given back behind an undo that was stopped after so many steps, where the power
/// may be lost once more; and no page is weak then.
fn gives_back(
    rt: &HostRuntime,
    rig: &mut WeakRig,
    table: &Table,
    steps: u64,
    again: bool,
) -> Result<bool, Fail> {
    rig.stop_after(steps);
    let _undone = undo(rt.alloc(), rig, table, 0);
    rig.stop_after(u64::MAX);
    if again {
        let _weak = lose_power(rt, rig)?;
    }
    let is_undone = undo(rt.alloc(), rig, table, 0).is_ok();
    Ok(is_undone && rig.weak().is_none() && is_counting(rig.memory().flash()))
}

/// Whether the line takes each of these bytes.
fn takes(rig: &mut WeakRig, bytes: &[u8]) -> bool {
    for byte in bytes {
        if rig.put(*byte).is_err() {
            return false;
        }
    }
    true
}

#[test]
fn a_weak_page_is_erased_before_it_is_read(rt: HostRuntime) -> Result<(), Fail> {
    let table = the_table(&rt)?;
    let mut cut = 0_u32;
    for turn in 0..TURNS {
        let steps = turn.saturating_mul(47);
        for again in [false, true] {
            let mut rig = stopped(&rt, &table, steps)?;
            if lose_power(&rt, &mut rig)? {
                cut = cut.saturating_add(1);
                if rig.weak().is_none() || !gives_back(&rt, &mut rig, &table, steps, again)? {
                    return Err(failed_at(steps));
                }
            }
        }
    }
    if cut > 20 {
        Ok(())
    } else {
        Err(Fail::new("no page was weak"))
    }
}

/// A device whose page 0 is weak, by the first stop that leaves its intent.
fn weak_first_page(rt: &HostRuntime, table: &Table) -> Result<WeakRig, Fail> {
    for turn in 0..TURNS {
        let mut rig = stopped(rt, table, turn.saturating_mul(47))?;
        if lose_power(rt, &mut rig)? && rig.weak() == Some(0) {
            return Ok(rig);
        }
    }
    Err(Fail::new("page 0 is never weak"))
}

#[test]
fn a_read_of_a_weak_page_fails(rt: HostRuntime) -> Result<(), Fail> {
    let table = the_table(&rt)?;
    let mut rig = weak_first_page(&rt, &table)?;
    let sound = [0x7F, 0x11, 0xEE, 0x08, 0x00, 0x01, 0x00, 0x09, 0xFF, 0x00];
    let both = [0x11, 0xEE, 0x08, 0x00, 0x00, 0xFF, 0xF7, 0xFF];
    if takes(&mut rig, &sound) && takes(&mut rig, &both) && !takes(&mut rig, &[0x00]) {
        Ok(())
    } else {
        Err(Fail::new("a weak page was read"))
    }
}
