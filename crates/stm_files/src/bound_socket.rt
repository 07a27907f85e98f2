// A Unix socket that this program made.

use crate::names::is_one;
use std::fs::{Files, Metadata, Permissions};
use std::io::ErrorKind;
use std::net::Net;
use std::os::unix::fs::{FileTypeExt, PermissionsExt};
use std::os::unix::net::{UnixListener, UnixStream};
use std::{fs, io};

/// A Unix socket that this program made, and on which it listens.
#[derive(Drop)]
pub struct BoundSocket<'a> {
    path: &'a str,
    listener: UnixListener,
    /// What was made.
    made: Metadata,
}

impl<'a> BoundSocket<'a> {
    /// Makes a socket at this path, with this mode: who may connect. One that is there and on which
    /// nobody listens is removed first.
    pub fn bind<R: Files + Net>(rt: &R, path: &'a str, mode: u32) -> io::Result<BoundSocket<'a>> {
        let listener = listen(rt, path)?;
        let made = restrict(rt, path, mode)?;
        Ok(BoundSocket {
            path,
            listener,
            made,
        })
    }

    pub fn listener(&self) -> &UnixListener {
        &self.listener
    }

    /// Removes the socket, where it is still the one that was made.
    pub fn remove<R: Files>(self, rt: &R) {
        if let Ok(told) = fs::symlink_metadata(rt, self.path) {
            if is_one(&told, &self.made) {
                let _ = fs::remove_file(rt, self.path);
            }
        }
    }
}

/// Listens at this path, in the place of a socket on which nobody does.
fn listen<R: Files + Net>(rt: &R, path: &str) -> io::Result<UnixListener> {
    match UnixListener::bind(rt, path) {
        Err(e) if e.kind() == ErrorKind::AddrInUse && is_dead(rt, path) => {
            fs::remove_file(rt, path)?;
            UnixListener::bind(rt, path)
        }
        bound => bound,
    }
}

/// Gives a socket its mode, and tells what was made.
fn restrict<R: Files>(rt: &R, path: &str, mode: u32) -> io::Result<Metadata> {
    fs::set_permissions(rt, path, Permissions::from_mode(mode))?;
    fs::symlink_metadata(rt, path)
}

/// Whether a path is that of a socket on which nobody listens.
fn is_dead<R: Files + Net>(rt: &R, path: &str) -> bool {
    match fs::metadata(rt, path) {
        Ok(told) if told.file_type().is_socket() => match UnixStream::connect(rt, path) {
            Err(e) => e.kind() == ErrorKind::ConnectionRefused,
            Ok(_) => false,
        },
        _ => false,
    }
}
