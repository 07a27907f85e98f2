// Files that a program has for itself while it runs, and who runs it.
ghost use Rattle.stm_files.specs.Locks.{Asked};

use libc::net::{POLLERR, POLLOUT, poll};
use libc::types::pollfd;
use std::fs::{File, Files, TryLockError};
use std::os::fd::AsRawFd;
use std::{env, io};

/// What the system answers to a program that asks for a lock.
#[derive(Drop)]
pub enum LockAnswer {
    /// The program has the file for itself.
    Ours,
    /// Another program has a lock on it.
    Taken,
    /// There is no lock on this file to be had.
    Refused(io::Error),
}

/// Files that can be locked, whole. A lock ends with its handle, and with its process, however that
/// ended. It holds against programs that ask for one.
pub trait Locks: Files {
    ghost use Rattle.stm_files.specs.declared.locks.LockAnswer.{LockAnswer};

    /// That the system was asked for a lock on this file, and answered so. Only a call shows it.
    ghost answered: { Self.File → LockAnswer → Type 0 };

    /// Asks for a lock on a file for this program alone. Some file systems give it only on a handle
    /// that may write.
    fn lock(&self, file: &Self::File) -> LockAnswer
        ensures { answered file.now result };

    /// The number of the user who called sudo, where it is told.
    fn caller(&self) -> Option<u32>;

    /// Whether somebody reads a pipe that is open to be written.
    fn is_read(&self, pipe: &Self::File) -> bool;
}

impl Locks for HostRuntime {
    ghost answered = { λ file answer. Asked };

    fn lock(&self, file: &File) -> LockAnswer {
        match file.try_lock() {
            Ok(()) => LockAnswer::Ours,
            Err(TryLockError::WouldBlock) => LockAnswer::Taken,
            Err(TryLockError::Error(e)) => LockAnswer::Refused(e),
        }
    }

    fn caller(&self) -> Option<u32> {
        match env::var(self, "SUDO_UID") {
            Ok(text) => text.as_str().parse::<u32>().ok(),
            Err(_) => None,
        }
    }

    fn is_read(&self, pipe: &File) -> bool {
        let mut asked = [pollfd {
            fd: pipe.as_raw_fd(),
            events: POLLOUT,
            revents: 0,
        }];
        poll(&mut asked, 0) >= 0 && asked[0].revents & POLLERR == 0
    }
}
