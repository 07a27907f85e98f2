// The program: what its words ask for.
ghost use Rattle.std.specs.Io.KnownBytes.{Appends};
ghost use Rattle.std.specs.Prelude.{◌≡◌, ◌≤◌, ◌⊎◌, ◌&&◌, ◌||◌, IfOk, None, OnErr, OnOk, map};
ghost use Rattle.std.specs.Prelude.{false, not};
ghost use Rattle.stm_words.specs.Json.{wants_json};
ghost use Rattle.stm_work.specs.Answer.{is_flash};
ghost use Rattle.stm_work.specs.ExitStatus.{status_of};
ghost use Rattle.stmflash.specs.Confirmation.{IsConfirmed, WantNoYes, wants_yes};
ghost use Rattle.stmflash.specs.Printed.{ArePrinted, AreStepsOf, IsDone, IsFailed, IsStatusOf};
ghost use Rattle.stmflash.specs.Printed.{CameToSteps, IsWell};
ghost use Rattle.stm_work.specs.ShortLine.{short_line};
ghost use Rattle.stm_work.specs.StepsText.{steps_text};

use crate::confirmation::{confirm, erases_for_good};
use crate::first_question::Place;
use crate::journal_tasks::{check, keep, log};
use crate::on_device::{Prepared, use_prepared};
use crate::planned_session::{ShownSimulator, ShownSocket};
use crate::serving::serve;
use crate::system::System;
use std::alloc::AllocError;
use std::io;
use std::io::{IsTerminal, Read, Write};
use stm_files::Escaped;
use stm_wire::Rig;
use stm_words::{Environment, Request, Unread, read_request, wants_json};
use stm_work::{
    Answer, Behind, Failure, Hint, Steps, is_flash, json_of_done, json_of_failure, json_of_refusal,
    name_of, note_of,
};

/// Runs the program on its words, the first of which is its name, and on what stands in the place
/// of words. It answers the exit status: 0 where all was done or help was asked for, 1 after a
/// fault, 2 where the words can't be done, 3 where a simulator was stopped. A fault is one line on
/// `err`, whatever the names in it, and one more where what came tells why; of words that `clap`
/// refuses its text stands there. While a line or a journal is open nothing is printed but what goes
/// on, where that is shown. `input` is read only where it is asked whether to go on, and that only
/// where someone is there who can answer. Where JSON is asked for, what was done is told on `out`
/// as lines of it, and a fault there too.
pub fn program<'a, 'r, 'e, R: System, I: Read, O: Write, E: Write + IsTerminal>(
    rt: &'r R,
    environment: Environment<'a>,
    words: &'a [&'a str],
    is_there: bool,
    input: &mut I,
    out: &mut O,
    err: &'e mut E,
) -> u8
    ensures well { result ≡ 0 → IsWell
        ⟦<ShownSimulator<'r, 'e, R, E> as Rig>⟧.view ⟦<ShownSocket<'r, 'e, R, E> as Rig>⟧.view
        environment.entry (map (λ s. s.now) words.entry.now) is_there
        (I.remaining input.old) (I.remaining input.new) (O.contents out.old) (O.contents out.new) }
    ensures unasked { WantNoYes environment.entry (map (λ s. s.now) words.entry.now) is_there
        → input.new ≡ input.old }
{
    let is_json = is_json_wanted(environment, words);
    match read_request(rt.alloc(), environment, words) {
        Ok(request) => answer(rt, request, is_json, is_there, input, out, err),
        Err(Unread::Help(text)) => print_help(rt, text.as_str(), out, err),
        Err(Unread::Refused(text)) => refuse(rt, text.as_str(), is_json, out, err),
        Err(Unread::Usage(fault)) => {
            fail_told(rt, &Failure::Usage(fault), None, is_json, out, err)
        }
        Err(Unread::Memory) => fail_told(rt, &Failure::Memory, None, is_json, out, err),
    }
}

/// Whether what was done is told as JSON: the environment says so, or the words.
fn is_json_wanted(environment: Environment<'_>, words: &[&str]) -> bool
    ensures { result ≡ environment.entry.is_json || wants_json (map (λ s. s.now) words.entry.now) }
{
    environment.is_json || wants_json(words)
}

/// Tells that `clap` refuses the words, in its own text.
fn refuse<R: AllocGlobal, O: Write, E: Write>(
    rt: &R,
    text: &str,
    is_json: bool,
    out: &mut O,
    err: &mut E,
) -> u8
    ensures { result ≡ 2 }
{
    let _ = write!(err, "{text}");
    if is_json {
        let _ = print_line(json_of_refusal(rt.alloc(), text), "fault", "usage", out);
    }
    2
}

/// Does what the words ask for, and tells what came of it.
fn answer<'a, 'r, 'e, R: System, I: Read, O: Write, E: Write + IsTerminal>(
    rt: &'r R,
    request: Request<'a>,
    is_json: bool,
    is_there: bool,
    input: &mut I,
    out: &mut O,
    err: &'e mut E,
) -> u8
    ensures told { IsFailed result ⊎ CameToSteps
        ⟦<ShownSimulator<'r, 'e, R, E> as Rig>⟧.view ⟦<ShownSocket<'r, 'e, R, E> as Rig>⟧.view
        request.entry is_json (O.contents out.old) (O.contents out.new) result }
    ensures done { result ≡ 0 → IsDone
        ⟦<ShownSimulator<'r, 'e, R, E> as Rig>⟧.view ⟦<ShownSocket<'r, 'e, R, E> as Rig>⟧.view
        request.entry is_json (O.contents out.old) (O.contents out.new) }
    ensures confirmed { result ≡ 0 → IsConfirmed (wants_yes request.entry is_there)
        (I.remaining input.old) (I.remaining input.new) }
    ensures unasked { wants_yes request.entry is_there ≡ false → input.new ≡ input.old }
{
    // the name of a journal that the words leave to the device's board
    let mut place = Place::new(rt.alloc());
    let mut hint = None;
    match run_request(rt, request, &mut place, is_there, input, err, &mut hint) {
        Ok(steps) => print_steps(rt, &steps, hint, is_json, out, err),
        Err(failure) => fail_told(rt, &failure, hint, is_json, out, err),
    }
}

/// Does what the words ask for. Where a task takes the readout protection off, and someone is there who
/// can be asked, that is done before a file of the session is opened.
fn run_request<'a, 'r, 'e, R: System, I: Read, E: Write + IsTerminal>(
    rt: &'r R,
    request: Request<'a>,
    place: &'a mut Place,
    is_there: bool,
    input: &mut I,
    err: &'e mut E,
    hint: &mut Option<Hint>,
) -> Result<Steps<'a>, Failure<'a>>
    ensures steps { IfOk result (AreStepsOf
        ⟦<ShownSimulator<'r, 'e, R, E> as Rig>⟧.view ⟦<ShownSocket<'r, 'e, R, E> as Rig>⟧.view
        request.entry) }
    ensures confirmed { OnOk result (IsConfirmed (wants_yes request.entry is_there)
        (I.remaining input.old) (I.remaining input.new)) }
    ensures unasked { wants_yes request.entry is_there ≡ false → input.new ≡ input.old }
{
    match request {
        Request::Use(options, task, sequel) => {
            let is_due = is_there && erases_for_good(&task);
            let prepared = Prepared::of(rt, &options, task)?;
            confirm(is_due, input, err)?;
            use_prepared(rt, &options, prepared, sequel, place, err, hint)
        }
        Request::Log(journal, false) => Ok(alone(log(rt, journal)?)),
        Request::Log(journal, true) => Ok(alone(check(rt, journal)?)),
        Request::Keep(kept) => Ok(alone(keep(rt, &kept)?)),
        Request::Serve(served) => Ok(alone(serve(rt, &served)?)),
    }
}

/// What nothing follows.
fn alone<'a>(answer: Answer) -> Steps<'a>
    ensures { result.answer ≡ answer }
{
    Steps {
        board: None,
        answer,
        kept: None,
        failure: None,
        used: None,
    }
}

/// Tells a fault, in one line that is written at once. Where there is no memory for the
/// line, it is written in parts.
pub fn fail<R: AllocGlobal, E: Write>(rt: &R, failure: &Failure, err: &mut E) -> u8
    ensures status { result ≡ status_of failure.now }
    ensures failed { 1 ≤ result }
{
    let _ = match format!(in rt.alloc(); "stmflash: {}\n", Escaped(failure)) {
        Ok(line) => err.write_all(line.as_bytes()),
        Err(_) => writeln!(err, "stmflash: {}", Escaped(failure)),
    };
    failure.status()
}

/// Tells a fault, and in a line behind it what came, where that tells more of it. Where JSON is asked
/// for, it is told on `out` too. Nothing is told where it would be told into a file of the call.
fn fail_told<R: AllocGlobal, O: Write, E: Write>(
    rt: &R,
    failure: &Failure,
    hint: Option<Hint>,
    is_json: bool,
    out: &mut O,
    err: &mut E,
) -> u8
    ensures status { result ≡ status_of failure.now }
    ensures failed { 1 ≤ result }
{
    if matches!(failure, Failure::ErrLeads(_)) {
        return failure.status();
    }
    let status = fail(rt, failure, err);
    print_behind(rt, Behind::failure(failure, hint), err);
    if is_json && !matches!(failure, Failure::OutLeads(_)) {
        let line = json_of_failure(rt.alloc(), failure, hint);
        let _ = print_line(line, "fault", failure.name(), out);
    }
    status
}

/// Prints lines of JSON at once. Where there was no memory for them, it is one line that names what
/// was done, or the fault, and says no more.
fn print_line<O: Write>(
    lines: Result<Vec<u8>, AllocError>,
    member: &str,
    name: &str,
    out: &mut O,
) -> io::Result<()>
    ensures lines { IfOk lines (λ text. OnOk result
        (Appends (O.contents out.old) (O.contents out.new) text.items)) }
    ensures short { OnErr lines (OnOk result
        (Appends (O.contents out.old) (O.contents out.new) (short_line member.now name.now))) }
{
    match lines {
        Ok(text) => out.write_all(text.as_slice()),
        Err(_) => writeln!(out, "{{\"{member}\":\"{name}\"}}"),
    }
}

/// Tells what came, or what is to be done, where that tells more, in one line that is written at
/// once. Where there is no memory for the line, it is written in parts.
fn print_behind<R: AllocGlobal, E: Write>(rt: &R, told: Option<Behind>, err: &mut E) {
    let Some(told) = told else {
        return;
    };
    let _ = match format!(in rt.alloc(); "hint: {}\n", Escaped(told)) {
        Ok(line) => err.write_all(line.as_bytes()),
        Err(_) => writeln!(err, "hint: {}", Escaped(told)),
    };
}

/// Tells what changed nothing, in one line that is written at once, if there is memory for it.
fn print_note<R: AllocGlobal, E: Write>(rt: &R, steps: &Steps, err: &mut E) {
    if let Ok(note) = note_of(rt.alloc(), steps) {
        let _ = err.write_all(note.as_slice());
    }
}

/// Prints what came of the words, and where a step failed, why; what changed nothing, and what is to be
/// done then.
fn print_steps<R: AllocGlobal, O: Write, E: Write>(
    rt: &R,
    steps: &Steps,
    hint: Option<Hint>,
    is_json: bool,
    out: &mut O,
    err: &mut E,
) -> u8
    ensures status { IsStatusOf is_json hint steps.now (O.contents out.old) (O.contents out.new) result }
    ensures whole { result ≡ 0 → steps.now.failure ≡ None }
{
    match (print_as(rt, steps, hint, is_json, out), &steps.failure) {
        (Ok(()), None) => {
            print_note(rt, steps, err);
            print_behind(rt, Behind::done(hint), err);
            0
        }
        (_, Some(failure)) => fail_told(rt, failure, hint, is_json, out, err),
        (Err(_), None) => fail(rt, &Failure::CannotWrite("standard output"), err),
    }
}

/// Prints the steps, as text or as JSON. What was read of the flash is printed as it is, alone.
fn print_as<R: AllocGlobal, O: Write>(
    rt: &R,
    steps: &Steps,
    hint: Option<Hint>,
    is_json: bool,
    out: &mut O,
) -> io::Result<()>
    ensures { OnOk result
        (ArePrinted is_json hint steps.now (O.contents out.old) (O.contents out.new)) }
{
    if is_told_as_json(steps, is_json) {
        let lines = json_of_done(rt.alloc(), steps, hint);
        return print_line(lines, "answer", name_of(&steps.answer), out);
    }
    print_at_once(rt, steps, out)
}

/// Whether steps are told as JSON: what was read of the flash is not.
fn is_told_as_json(steps: &Steps, is_json: bool) -> bool
    ensures { result ≡ is_json && not (is_flash steps.now.answer) }
{
    is_json && !is_flash(&steps.answer)
}

/// Prints the steps as one text, so that who takes a line of it and goes has taken none of its
/// parts. Where there is no memory for the text, it is printed in parts.
fn print_at_once<R: AllocGlobal, O: Write>(rt: &R, steps: &Steps, out: &mut O) -> io::Result<()>
    ensures { OnOk result (Appends (O.contents out.old) (O.contents out.new)
        (steps_text steps.now)) }
{
    let mut text = Vec::new(rt.alloc());
    match steps.print(&mut text) {
        Ok(()) => out.write_all(text.as_slice()),
        Err(_) => steps.print(out),
    }
}

/// Prints what was asked for: help or the version.
fn print_help<R: AllocGlobal, O: Write, E: Write>(
    rt: &R,
    text: &str,
    out: &mut O,
    err: &mut E,
) -> u8
    ensures { result ≡ 0 → Appends (O.contents out.old) (O.contents out.new) text.now }
{
    match out.write_all(text.as_bytes()) {
        Ok(()) => 0,
        Err(_) => fail(rt, &Failure::CannotWrite("standard output"), err),
    }
}
