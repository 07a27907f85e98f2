//! Tests of what is no row of `stm_rows`: laws, what each fault says, journals whose calls follow one
//! another, and lines, files and watches that no session has. This crate holds nothing else.
#![tactic(auto)]

#[cfg(test)]
mod bad_lines;
#[cfg(test)]
mod disk;
#[cfg(test)]
mod faults;
#[cfg(test)]
mod journal;
#[cfg(test)]
mod laws;
#[cfg(test)]
mod session;
#[cfg(test)]
mod verdicts;
#[cfg(test)]
mod watch;
