// A journal that is only looked at.
ghost use Rattle.std.specs.Prelude.{◌≡◌, ◌≤◌, ◌-◌, ◌^◌, length, IfOk};

use crate::beginning::refuse_other;
use crate::fetching::fetch_from;
use crate::files::open_if_there;
use crate::journal_rig::Source;
use crate::unusable::Unusable;
use std::fs::{Files, OpenFile};
use std::io;
use std::io::ErrorKind;

/// A journal that is only looked at, also while another program adds to it: what was added by then
/// is read.
#[derive(Drop)]
pub struct Shown<R: Files> {
    file: R::File,
    /// Where it ends for who looks at it.
    end: u64,
}

impl<R: Files> Shown<R> {
    /// The journal in the file of this name, which has to be there.
    pub fn open(rt: &R, name: &str) -> Result<Shown<R>, Unusable> {
        match open_if_there(rt, name) {
            Ok(Some(mut file)) => {
                refuse_other(&mut file)?;
                Ok(Shown {
                    file,
                    end: i64::MAX as u64,
                })
            }
            Ok(None) => Err(Unusable::Unread(io::Error::from(ErrorKind::NotFound))),
            Err(e) => Err(Unusable::Unread(e)),
        }
    }

    /// The same, with the bytes that it has by now: what is added from here on isn't read.
    pub fn open_by_now(rt: &R, name: &str) -> Result<Shown<R>, Unusable> {
        let mut shown = Shown::open(rt, name)?;
        match shown.file.metadata() {
            Ok(told) => {
                shown.end = told.len();
                Ok(shown)
            }
            Err(e) => Err(Unusable::Unread(e)),
        }
    }
}

impl<R: Files> Source for Shown<R> {
    fn fetch(&mut self, at: u64, buf: &mut [u8]) -> io::Result<usize>
        ensures length { length buf.new ≡ length buf.old }
        ensures within { IfOk result (λ n. n ≤ length buf.old) }
        ensures last { 2 ^ 63 - 1 ≤ at → IfOk result (λ n. n ≡ 0) }
    {
        if at >= self.end || at >= i64::MAX as u64 {
            return Ok(0);
        }
        let room = room_before(self.end - at, buf.len());
        fetch_from(&mut self.file, at, &mut buf[..room])
    }
}

/// How many of so many bytes are read, where so many are left.
fn room_before(left: u64, wanted: usize) -> usize
    ensures { result ≤ wanted }
{
    if left < wanted as u64 {
        left as usize
    } else {
        wanted
    }
}
