// A plain checker of what a session may put on a line to chip 0A01, 256 pages of 256 bytes from
// 08000000 on: a settling run, and then frames of Get, Get ID, reads and writes that stay in a
// page, and erases of one page; the last piece may be cut short.

/// Whether these are bytes of one value.
fn is_all(bytes: &[u8], byte: u8) -> bool {
    for found in bytes {
        if *found != byte {
            return false;
        }
    }
    true
}

/// The byte at a place, or 00 past the end.
fn byte_at(bytes: &[u8], place: usize) -> u8 {
    match bytes.get(place) {
        Some(byte) => *byte,
        None => 0x00,
    }
}

/// Whether the list begins as the frame does, as far as it goes.
fn agrees(frame: &[u8], list: &[u8]) -> bool {
    for (due, byte) in frame.iter().zip(list.iter()) {
        if *due != *byte {
            return false;
        }
    }
    true
}

/// The exclusive-or of so many bytes behind the first ones.
fn exclusive_or(list: &[u8], from: usize, count: usize) -> u8 {
    let mut value = 0x00;
    for byte in list.iter().skip(from).take(count) {
        value ^= *byte;
    }
    value
}

/// The first two bytes and the address step of a frame with this code, where the address is the
/// list's.
fn address_step(list: &[u8], code: u8) -> [u8; 7] {
    let (a, b) = (byte_at(list, 2), byte_at(list, 3));
    let (c, d) = (byte_at(list, 4), byte_at(list, 5));
    [code, code ^ 0xFF, a, b, c, d, a ^ b ^ c ^ d]
}

/// Whether the bytes of a read or write lie in one page, where address and count were sent.
fn lies_in_a_page(list: &[u8]) -> bool {
    if list.len() < 8 {
        return true;
    }
    let known = byte_at(list, 2) == 0x08 && byte_at(list, 3) == 0x00;
    known && u32::from(byte_at(list, 5)) + u32::from(byte_at(list, 7)) < 256
}

/// How long the read frame is that the list begins with.
fn read_size(list: &[u8]) -> Option<usize> {
    let count = byte_at(list, 7);
    let step = [count, count ^ 0xFF];
    let ends = match list.get(7..) {
        Some(behind) => agrees(&step, behind),
        None => true,
    };
    if agrees(&address_step(list, 0x11), list) && ends && lies_in_a_page(list) {
        Some(9)
    } else {
        None
    }
}

/// How long the write frame is that the list begins with.
fn write_size(list: &[u8]) -> Option<usize> {
    if !agrees(&address_step(list, 0x31), list) || !lies_in_a_page(list) {
        return None;
    }
    let data = usize::from(byte_at(list, 7)) + 1;
    if list.len() < 9 + data || exclusive_or(list, 7, data + 2) == 0x00 {
        Some(9 + data)
    } else {
        None
    }
}

/// How long the erase frame is that the list begins with.
fn erase_size(list: &[u8]) -> Option<usize> {
    let page = byte_at(list, 5);
    if agrees(&[0x44, 0xBB, 0x00, 0x00, 0x00, page, page], list) {
        Some(7)
    } else {
        None
    }
}

/// How long the frame is that the list begins with, or a beginning of it; None where it is none.
fn frame_size(list: &[u8]) -> Option<usize> {
    match byte_at(list, 0) {
        0x00 => agrees(&[0x00, 0xFF], list).then_some(2),
        0x02 => agrees(&[0x02, 0xFD], list).then_some(2),
        0x11 => read_size(list),
        0x31 => write_size(list),
        0x44 => erase_size(list),
        _ => None,
    }
}

fn are_frames(list: &[u8]) -> bool {
    let mut at = 0_usize;
    for _i in 0..list.len() {
        let left = list.get(at..).unwrap_or(&[]);
        if left.is_empty() {
            return true;
        }
        let Some(size) = frame_size(left) else {
            return false;
        };
        at = at.saturating_add(size);
    }
    at >= list.len()
}

/// How often the settling byte of an erase is put at most: 7F as often as the longest list needs,
/// any other as often as its own longest one.
fn most_puts(byte: u8) -> usize {
    if byte == 0x7F {
        return 131_072;
    }
    (usize::from(byte) * 514 + 8).max(512).min(131_072)
}

/// Whether this is a beginning of: the byte so often, 7F, and the byte twice.
fn is_run_of(list: &[u8], byte: u8, most: usize) -> bool {
    let end = [0x7F, byte, byte];
    let behind = list.get(most..).unwrap_or(&[]);
    let run = list.get(..most).unwrap_or(list);
    is_all(run, byte) && behind.len() <= 3 && agrees(&end, behind)
}

/// Whether it is one of an erase, or, with 02, of a write.
fn is_settling_run(list: &[u8], byte: u8) -> bool {
    is_run_of(list, byte, most_puts(byte)) || byte == 0x02 && is_run_of(list, byte, 512)
}

/// Whether there is a settling run before this place, and frames from it on.
fn has_frames_from(list: &[u8], byte: u8, place: usize) -> bool {
    let settling = list.get(..place).unwrap_or(&[]);
    is_settling_run(settling, byte) && are_frames(list.get(place..).unwrap_or(&[]))
}

/// Whether this is a settling run and the first byte of Get.
fn is_begun(list: &[u8], byte: u8) -> bool {
    let settling = list.get(..list.len().saturating_sub(1)).unwrap_or(&[]);
    list.last() == Some(&0x00) && is_settling_run(settling, byte)
}

/// Where the first byte FF stands.
fn place_of_ff(list: &[u8]) -> Option<usize> {
    for (place, put) in list.iter().enumerate() {
        if *put == 0xFF {
            return Some(place);
        }
    }
    None
}

/// Whether a session that settles with this byte, which isn't FF, may put this list. Get, 00 FF, is
/// its first frame.
pub fn is_sent_list(list: &[u8], byte: u8) -> bool {
    match place_of_ff(list) {
        Some(0) => false,
        Some(place) => has_frames_from(list, byte, place.saturating_sub(1)),
        None => is_settling_run(list, byte) || is_begun(list, byte),
    }
}
