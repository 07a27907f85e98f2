// What is to be so of a device, its journal, and the calls of its newest session.
//
// `flash BYTES..`, `journal BYTES..`; the journal `ends BYTES..`, `begins BYTES..`; `rest BYTES..`: since
// the last verdict; the device is `gone`, or it `stays`, or is `fresh`: it isn't connected. Of what was put:
// `put BYTES..` is all of it, `put-last BYTES..`, `put-first BYTES..`, `never BYTE`, `asked BYTES..` behind
// settling, `asked-first BYTES..` last before the first append; it is a `sent-list`; `fetches`: no other call.
// How many there are: `length` of the journal, `puts`, `gets`, `came`, `batches` of more than one put with no
// get between, and `appends` of all its sessions; `brief`, `long`, `connecting`: gets that waited so since the
// line turned, the last behind 7F. `replies`: each byte that came behind PUTS as `PUTS:BYTE*COUNT`; `calls`:
// all from the first one on; `others BYTE`: in how many places of the flash another byte stands, and where
// first.
use crate::bytes::{byte_of, bytes_of};
use crate::kept::others;
use crate::line::Line;
use crate::sent_lists::is_sent_list;
use crate::stage::Stage;
use crate::stopping::Stop;
use std::alloc::Global;
use stm_sim::MemoryRig;
use stm_wire::RigCall;

/// The bytes put in these calls.
fn puts(alloc: Global, calls: &[RigCall]) -> Result<Vec<u8>, Stop> {
    let mut bytes = Vec::new(alloc);
    for call in calls {
        if let RigCall::Put(byte) = call {
            bytes.push(*byte)?;
        }
    }
    Ok(bytes)
}

/// A kind of calls.
#[derive(Clone, Copy)]
enum Kind {
    Put,
    Get,
    Came,
    Append,
    Other,
}

fn is_of(call: &RigCall, kind: Kind) -> bool {
    match call {
        RigCall::Put(_) => matches!(kind, Kind::Put | Kind::Other),
        RigCall::Get(None) => matches!(kind, Kind::Get | Kind::Other),
        RigCall::Get(Some(_)) => matches!(kind, Kind::Get | Kind::Came | Kind::Other),
        RigCall::Append(_) => matches!(kind, Kind::Append | Kind::Other),
        RigCall::Fetch => false,
    }
}

/// How many of these calls are of a kind.
fn count(calls: &[RigCall], kind: Kind) -> u64 {
    let mut count = 0_u64;
    for call in calls {
        if is_of(call, kind) {
            count = count.saturating_add(1);
        }
    }
    count
}

/// The calls before the first append.
fn before_append(calls: &[RigCall]) -> &[RigCall] {
    for (place, call) in calls.iter().enumerate() {
        if matches!(call, RigCall::Append(_)) {
            return calls.get(..place).unwrap_or(calls);
        }
    }
    calls
}

/// Whether these frames were put behind settling, of which the first is 00.
fn is_asked(bytes: &[u8], frames: &[u8]) -> bool {
    for (place, byte) in bytes.iter().enumerate() {
        if *byte == 0x00 {
            return bytes.get(place..).unwrap_or(&[]).starts_with(frames);
        }
    }
    false
}

/// How many runs of more than one byte were put, each up to a get.
fn batches(calls: &[RigCall]) -> u64 {
    let (mut count, mut run) = (0_u64, 0_u64);
    for call in calls {
        match call {
            RigCall::Put(_) => run = run.saturating_add(1),
            RigCall::Get(_) => {
                if run > 1 {
                    count = count.saturating_add(1);
                }
                run = 0;
            }
            _ => {}
        }
    }
    count
}

/// Replies of one kind: behind so many puts, this byte came so often.
#[derive(Clone, Copy)]
struct Replies {
    puts: u64,
    byte: u8,
    count: u64,
}

impl Replies {
    fn tell(self, told: &mut String) -> Result<(), Stop> {
        let (puts, byte, count) = (self.puts, self.byte, self.count);
        if count == 0 {
            return Ok(());
        }
        if !told.is_empty() {
            told.push(' ')?;
        }
        Ok(write!(told, "{puts}:{byte:02X}*{count}")?)
    }

    /// One more, or the first of another kind.
    fn and(self, puts: u64, byte: u8) -> Replies {
        let count = if self.puts == puts && self.byte == byte {
            self.count
        } else {
            0
        };
        Replies {
            puts,
            byte,
            count: count.saturating_add(1),
        }
    }
}

/// Tells the replies to what was put; what comes before that was owed.
fn tell_replies(calls: &[RigCall], told: &mut String) -> Result<(), Stop> {
    let mut last = Replies {
        puts: 0,
        byte: 0x00,
        count: 0,
    };
    let mut puts = 0_u64;
    for call in calls {
        match call {
            RigCall::Put(_) => puts = puts.saturating_add(1),
            RigCall::Get(Some(byte)) if puts > 0 => {
                let next = last.and(puts, *byte);
                if next.count == 1 {
                    last.tell(told)?;
                }
                last = next;
            }
            _ => {}
        }
    }
    last.tell(told)
}

fn tell_calls(calls: &[RigCall], told: &mut String) -> Result<(), Stop> {
    for call in calls {
        if !told.is_empty() {
            told.push_str(", ")?;
        }
        match call {
            RigCall::Put(byte) => write!(told, "put {byte:02X}")?,
            RigCall::Get(Some(byte)) => write!(told, "get {byte:02X}")?,
            RigCall::Get(None) => told.push_str("get -")?,
            RigCall::Append(count) => write!(told, "append {count}")?,
            RigCall::Fetch => told.push_str("fetch")?,
        }
    }
    Ok(())
}

/// How many of something there are; None: it's another word.
fn counted(line: &Line, calls: &[RigCall], verb: &str) -> Option<u64> {
    match verb {
        "length" => Some(line.memory.journal().len() as u64),
        "appends" => Some(count(line.memory.calls(), Kind::Append)),
        "puts" => Some(count(calls, Kind::Put)),
        "gets" => Some(count(calls, Kind::Get)),
        "came" => Some(count(calls, Kind::Came)),
        "batches" => Some(batches(calls)),
        "brief" => Some(line.waits.brief),
        "long" => Some(line.waits.long),
        "connecting" => Some(line.waits.connecting),
        _ => None,
    }
}

/// In how many places of a flash another byte stands, and where first.
fn tell_others(flash: &[u8], byte: u8, told: &mut String) -> Result<(), Stop> {
    let (count, first) = others(flash, byte);
    write!(told, "{count}")?;
    if count > 0 {
        write!(told, " at {first}")?;
    }
    Ok(())
}

/// Tells what there is, or how many of it; false: it's another word.
pub fn tell(stage: &Stage, verb: &str, words: &[&str], told: &mut String) -> Result<bool, Stop> {
    let Some(line) = &stage.line else {
        return Ok(false);
    };
    let all = line.memory.calls();
    let calls = all.get(stage.before..).unwrap_or(&[]);
    match verb {
        "others" => tell_others(line.memory.flash(), byte_of(words)?, told)?,
        "replies" => tell_replies(calls, told)?,
        "calls" => tell_calls(all, told)?,
        _ => match counted(line, calls, verb) {
            Some(count) => write!(told, "{count}")?,
            None => return Ok(false),
        },
    }
    Ok(true)
}

/// Of the device and its journal.
fn of_device(memory: &MemoryRig, verb: &str, due: &[u8]) -> Option<bool> {
    Some(match verb {
        "flash" => memory.flash() == due,
        "journal" => memory.journal() == due,
        "ends" => memory.journal().ends_with(due),
        "begins" => memory.journal().starts_with(due),
        "rest" => memory.rest() == Some(due),
        "gone" => memory.is_gone(),
        "stays" => !memory.is_gone(),
        "fresh" => memory.rest().is_none(),
        _ => return None,
    })
}

/// Of the bytes that were put.
fn of_puts(put: &[u8], verb: &str, due: &[u8]) -> Option<bool> {
    Some(match verb {
        "put" => put == due,
        "put-last" => put.ends_with(due),
        "put-first" => put.starts_with(due),
        "never" => !put.contains(due.first()?),
        "asked" => is_asked(put, due),
        "sent-list" => is_sent_list(put, put.first().copied().unwrap_or(0x7F)),
        _ => return None,
    })
}

/// Of the calls of the newest session.
fn of_calls(
    alloc: Global,
    calls: &[RigCall],
    verb: &str,
    due: &[u8],
) -> Result<Option<bool>, Stop> {
    match verb {
        "fetches" => Ok(Some(count(calls, Kind::Other) == 0)),
        "asked-first" => Ok(Some(puts(alloc, before_append(calls))?.ends_with(due))),
        _ => Ok(of_puts(&puts(alloc, calls)?, verb, due)),
    }
}

/// Whether what is to be is so; None: it's another word.
pub fn look(stage: &Stage, verb: &str, words: &[&str]) -> Result<Option<bool>, Stop> {
    let Some(line) = &stage.line else {
        return Ok(None);
    };
    let calls = line.memory.calls().get(stage.before..).unwrap_or(&[]);
    let due = bytes_of(stage.alloc, words)?;
    match of_device(&line.memory, verb, &due) {
        Some(is_so) => Ok(Some(is_so)),
        None => of_calls(stage.alloc, calls, verb, &due),
    }
}
