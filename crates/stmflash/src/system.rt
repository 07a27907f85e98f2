// What the program has of the system.

use std::net::Net;
use std::time::Clock;
use stm_files::Locks;

/// Files with locks, sockets, a clock and memory.
pub trait System: Locks + Net + Clock + AllocGlobal + Clone + Drop {}

impl<R: Locks + Net + Clock + AllocGlobal + Clone + Drop> System for R {}
