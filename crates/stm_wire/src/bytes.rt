// Parts of slices.
ghost use Rattle.std.specs.Prelude.{◌≡◌, ◌-◌, ◌++◌, length, take, drop, min};

/// The bytes from a place on, at most so many.
pub fn part(bytes: &[u8], at: usize, size: usize) -> &[u8]
    ensures { result.now ≡ take size (drop at bytes.now) }
{
    let rest = &bytes[at.min(bytes.len())..];
    &rest[..size.min(rest.len())]
}

/// Copies the bytes from a place on into a buffer, as many as are there and fit, and answers how
/// many.
pub fn copy_from(bytes: &[u8], at: u64, buf: &mut [u8]) -> usize
    ensures count { result ≡ min (length buf.old) (length bytes.now - at) }
    ensures copied { buf.new ≡ take result (drop at bytes.now) ++ drop result buf.old }
{
    let found = part(bytes, at as usize, buf.len());
    let size = found.len();
    buf[..size].copy_from_slice(found);
    size
}
