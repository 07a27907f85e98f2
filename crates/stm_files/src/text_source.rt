// A journal's text in memory, or a beginning of it.
ghost use Rattle.std.specs.Prelude.{◌≡◌, ◌≤◌, ◌-◌, ◌^◌, length, IfOk};

use crate::journal_rig::Source;
use std::io;

/// A journal's text in memory, or a beginning of it.
#[derive(Clone, Copy)]
pub struct TextSource<'b> {
    pub bytes: &'b [u8],
}

impl Source for TextSource<'_> {
    fn fetch(&mut self, at: u64, buf: &mut [u8]) -> io::Result<usize>
        ensures length { length buf.new ≡ length buf.old }
        ensures within { IfOk result (λ n. n ≤ length buf.old) }
        ensures last { 2 ^ 63 - 1 ≤ at → IfOk result (λ n. n ≡ 0) }
    {
        if at >= i64::MAX as u64 || at >= self.bytes.len() as u64 {
            return Ok(0);
        }
        let rest = &self.bytes[at as usize..];
        let count = rest.len().min(buf.len());
        buf[..count].copy_from_slice(&rest[..count]);
        Ok(count)
    }
}
