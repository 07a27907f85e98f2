// The question before what erases the whole flash for good.
ghost use Rattle.std.specs.Prelude.{◌≡◌, ◌+◌, ◌++◌, ◌∷◌, [], length, min, take, false, true};
ghost use Rattle.std.specs.Prelude.{◌≤◌, IfErr, IfSome, IsTrue, Ok, OnOk};
ghost use Rattle.std.specs.Io.KnownBytes.{Appends, Consumes};
ghost use Rattle.stm_work.specs.declared.failure.Failure.TheVariants.{Unconfirmed};
ghost use Rattle.stmflash.specs.Confirmation.{IsConfirmed, SaysYes, TakesLine, erases_for_good};
ghost use Rattle.stmflash.specs.Confirmation.{is_yes, question};

use std::io::{Read, Write};
use stm_words::Task;
use stm_work::Failure;

/// What is said on a terminal before the readout protection is taken off.
const ERASES: &str = "this erases the whole flash, and no journal keeps it: it can't be undone";

/// How many bytes of an answer are looked at: one more than any that goes on has.
const ANSWER: usize = 4;

/// Whether a task erases the whole flash so that no journal leads back, and nobody said before that
/// this is meant.
pub fn erases_for_good(task: &Task) -> bool
    ensures { result ≡ erases_for_good task.now }
{
    match task {
        Task::Protect { kind, is_sure, .. } => *kind == "readout-unprotect" && !*is_sure,
        _ => false,
    }
}

/// Whether an answer goes on: `y` or `yes`, and nothing else.
fn is_yes(answer: &[u8]) -> bool
    ensures { result ≡ is_yes answer.now }
{
    answer == b"y".as_slice() || answer == b"yes".as_slice()
}

/// Reads the line that is typed, up to the LF that ends it, and answers how many bytes of it are in
/// the buffer: as many as fit. An input that ends or fails before the line does is no answer.
fn read_answer<I: Read>(input: &mut I, answer: &mut [u8]) -> Option<usize>
    ensures length { length answer.new ≡ length answer.old }
    ensures line { IfSome result
        (TakesLine (I.remaining input.old) (I.remaining input.new) answer.new) }
{
    let mut count = 0usize;
    for _ in 0..u64::MAX {
        let byte = read_byte(input)?;
        if byte == b'\n' {
            return Some(count);
        }
        count = keep_byte(answer, count, byte);
    }
    None
}

/// Reads a byte; None where the input ended or failed.
fn read_byte<I: Read>(input: &mut I) -> Option<u8>
    ensures { IfSome result (λ byte.
        Consumes (I.remaining input.old) (I.remaining input.new) (byte ∷ [])) }
{
    let mut buf = [0u8];
    match input.read(&mut buf) {
        Ok(1) => Some(buf[0]),
        _ => None,
    }
}

/// Keeps a byte behind as many as there are, where there is room, and answers how many there are.
fn keep_byte(answer: &mut [u8], count: usize, byte: u8) -> usize
    requires { count ≤ length answer.old }
    ensures length { length answer.new ≡ length answer.old }
    ensures count { result ≡ min (count + 1) (length answer.old) }
    ensures bytes { take result answer.new ≡ take result (take count answer.old ++ byte ∷ []) }
{
    if count < answer.len() {
        answer[count] = byte;
        count + 1
    } else {
        count
    }
}

/// Asks whether to go on, and answers whether that is so.
fn ask<I: Read, E: Write>(input: &mut I, err: &mut E) -> bool
    ensures yes { IsTrue result → SaysYes (I.remaining input.old) (I.remaining input.new) }
    ensures asked { IsTrue result → Appends (E.contents err.old) (E.contents err.new) question }
{
    let asked = write!(err, "{ERASES}\ngo on? [y/N] ");
    if asked.is_err() {
        return false;
    }
    let mut answer = [0u8; ANSWER];
    match read_answer(input, &mut answer[..]) {
        Some(count) => is_yes(&answer[..count.min(ANSWER)]),
        None => {
            // the line of the question isn't ended by what was typed
            let _ = writeln!(err);
            false
        }
    }
}

/// Asks before the whole flash is erased for good, and refuses that where the answer isn't yes.
/// Where it isn't due, nobody is asked, and nothing is read.
pub fn confirm<'a, I: Read, E: Write>(
    is_due: bool,
    input: &mut I,
    err: &mut E,
) -> Result<(), Failure<'a>>
    ensures unasked { is_due ≡ false
        → (result ≡ Ok tt) × (input.new ≡ input.old) × (err.new ≡ err.old) }
    ensures asked { is_due ≡ true
        → OnOk result (Appends (E.contents err.old) (E.contents err.new) question) }
    ensures confirmed { let left = I.remaining in
        OnOk result (IsConfirmed is_due (left input.old) (left input.new)) }
    ensures refused { IfErr result (λ failure. failure ≡ Unconfirmed) }
{
    if !is_due {
        return Ok(());
    }
    if ask(input, err) {
        Ok(())
    } else {
        Err(Failure::Unconfirmed)
    }
}
