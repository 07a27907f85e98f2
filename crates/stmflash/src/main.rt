//! Flashes an STM32 through the bootloader in its ROM (ST AN3155), over a Unix
//! socket or a simulator of one.
#![tactic(auto)]

mod again;
mod call;
mod command_line;
mod confirmation;
mod cut_journal;
mod first_question;
mod given_board;
mod greeted_session;
mod journal_folder;
mod journal_tasks;
mod named_files;
mod on_device;
mod on_simulator;
mod on_socket;
mod output;
mod planned_session;
mod program;
mod protections;
mod recovery;
mod serving;
mod system;
mod tables;
mod variable;
mod variables;

use command_line::{end, run_words};
use program::fail;
use std::io::IsTerminal;
use std::process::ExitCode;
use std::{env, io};
use variables::Variables;

/// Runs the program on the words that the system hands in. Who typed them can be asked where
/// standard input and standard error are a terminal.
fn run(rt: &HostRuntime) -> io::Result<u8> {
    let variables = match Variables::read(rt) {
        Ok(variables) => variables,
        Err(failure) => return Ok(fail(rt, &failure, &mut rt.stderr())),
    };
    let given: Vec<String> = env::args(rt)?.collect(rt.alloc())?;
    let mut words = Vec::new(rt.alloc());
    for word in &given {
        words.push(word.as_str())?;
    }
    let is_there = rt.stdin().is_terminal() && rt.stderr().is_terminal();
    let status = run_words(
        rt,
        &variables,
        words.as_slice(),
        is_there,
        &mut rt.stdin(),
        &mut rt.stdout(),
        &mut rt.stderr(),
    )?;
    Ok(status)
}

fn main(rt: HostRuntime) -> ExitCode {
    end(run(&rt), &mut rt.stderr())
}
