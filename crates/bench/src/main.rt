//! Does one job that a script of `bench/` times, or several, with the word `then` between them.
//!
//! - `hex ..` reads and writes texts of HEX: `hex.rt`.
//! - `layers ..` does one job of a layer: `layers.rt`.
//! - `sessions ..` does sessions over a simulator in memory: `sessions.rt`.
#![tactic(auto)]

mod hex;
mod layers;
mod sessions;
mod tables;

use std::{env, io};

const USAGE: &str = "usage: hex, layers or sessions, and the words of one";

// Does the job that these words name.
fn work(rt: &HostRuntime, words: &[String]) -> io::Result<()> {
    match words {
        [which, job @ ..] if which.as_str() == "hex" => hex::work(rt, job),
        [which, job @ ..] if which.as_str() == "layers" => layers::work(rt, job),
        [which, job @ ..] if which.as_str() == "sessions" => sessions::work(rt, job),
        _ => println!(rt; "{USAGE}"),
    }
}

fn main(rt: HostRuntime) -> io::Result<()> {
    let words: Vec<String> = env::args(&rt)?.skip(1).collect(rt.alloc())?;
    for job in words.as_slice().split(|word| word.as_str() == "then") {
        work(&rt, job)?;
    }
    Ok(())
}
