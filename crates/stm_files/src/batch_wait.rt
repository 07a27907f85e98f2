// How long silence is waited for behind bytes that were put.
ghost use Rattle.std.specs.Prelude.{◌≡◌, ◌≤◌, None};
ghost use Rattle.stm_files.specs.BatchWait.{line_time, time_beyond, wait_behind};

/// Behind how many bytes one wait is long enough at a line whose speed isn't known.
const BATCH: u32 = 256;

/// How many bits a byte has on the line: the start bit, eight of data, the parity, the stop bit.
const BITS: u64 = 11;

/// How many milliseconds so many bytes are on a line of so many baud, rounded up.
fn line_time(baud: u32, bytes: u32) -> u64
    ensures { result ≡ line_time baud bytes }
{
    (u64::from(bytes) * BITS * 1000).div_ceil(u64::from(baud.max(1)))
}

/// How many milliseconds silence is waited for behind so many bytes, where a reply may take `whole`
/// milliseconds: so long once more as the bytes are on the line, or, where its speed isn't known, a
/// wait for each 256 bytes that were begun.
pub fn wait_behind(whole: u64, baud: Option<u32>, bytes: u32) -> u64
    ensures is { result ≡ wait_behind whole baud bytes }
    ensures least { whole ≤ result }
    ensures few { baud ≡ None → bytes ≤ 256 → result ≡ whole }
{
    match baud {
        Some(baud) => whole.saturating_add(line_time(baud, bytes)),
        None => whole.saturating_mul(u64::from(bytes.div_ceil(BATCH).max(1))),
    }
}

/// How many milliseconds longer than otherwise a draining behind so many bytes may go on: while
/// their replies come, and then for the silence behind them.
pub fn time_beyond(whole: u64, baud: Option<u32>, bytes: u32) -> u64
    ensures is { result ≡ time_beyond whole baud bytes }
    ensures few { baud ≡ None → bytes ≤ 256 → result ≡ 0 }
{
    (wait_behind(whole, baud, bytes) - whole).saturating_mul(2)
}
