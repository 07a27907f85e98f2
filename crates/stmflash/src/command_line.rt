// The words of a command line, beside the variables of the environment, and how the program ends.
ghost use Rattle.std.specs.Prelude.{◌≡◌, ◌≤◌, IfErr, IfOk, map};
ghost use Rattle.std.specs.Process.{exit_status};
ghost use Rattle.stmflash.specs.Printed.{IsWellBy};

use crate::planned_session::{ShownSimulator, ShownSocket};
use crate::program::program;
use crate::system::System;
use crate::tables::{standing_tables, users_table};
use crate::variables::Variables;
use std::alloc::AllocError;
use std::io;
use std::io::{ErrorKind, IsTerminal, Read, Write};
use std::process::ExitCode;
use stm_wire::Rig;

/// Runs the program on these words, the first of which is its name, and on what the variables say;
/// `is_there` says whether who typed the words can be asked.
pub fn run_words<'a, 'r, 'e, R: System, I: Read, O: Write, E: Write + IsTerminal>(
    rt: &'r R,
    variables: &Variables,
    words: &[&str],
    is_there: bool,
    input: &mut I,
    out: &mut O,
    err: &'e mut E,
) -> Result<u8, AllocError>
    ensures { IfOk result (λ status. status ≡ 0 → IsWellBy
        ⟦<ShownSimulator<'r, 'e, R, E> as Rig>⟧.view ⟦<ShownSocket<'r, 'e, R, E> as Rig>⟧.view
        variables.now (map (λ s. s.now) words.now) is_there
        (I.remaining input.old) (I.remaining input.new) (O.contents out.old) (O.contents out.new)) }
{
    let users = users_table(rt.alloc(), &variables.config_home, &variables.home)?;
    let tables = standing_tables(rt, &users)?;
    let environment = variables.environment(tables.as_slice());
    let status = program(rt, environment, words, is_there, input, out, err);
    Ok(status)
}

/// How the program ends: by the status, or where there was none, by why on standard error.
pub fn end<E: Write>(came: io::Result<u8>, err: &mut E) -> ExitCode
    ensures ended { IfOk came (λ status. exit_status result ≡ status) }
    ensures failed { IfErr came (λ fault. 1 ≤ exit_status result) }
{
    match came {
        Ok(answered) => ExitCode::from(answered),
        Err(e) if e.kind() == ErrorKind::OutOfMemory => {
            let _ = writeln!(err, "stmflash: out of memory");
            ExitCode::from(1)
        }
        Err(_) => {
            let _ = writeln!(err, "stmflash: usage: the words are not text");
            ExitCode::from(2)
        }
    }
}
