// Writing a line of the journal.
ghost use Rattle.std.specs.Prelude.{◌≡◌, ◌++◌, ◌∷◌, [], ◌/◌, ◌%◌, List, ℕ, OnOk, codes, decimal};
ghost use Rattle.hex.specs.Hex.{encode_upper};
ghost use Rattle.stm_journal.specs.Entries.{header_word, id_digits, device_text, line_of};
ghost use Rattle.stm_journal.specs.Entries.{line_text};
ghost use Rattle.stm_journal.specs.InMemory.{filled};

use crate::Entry;
use std::alloc::{AllocError, Global};
use stm_wire::UniqueId;

/// Adds a word and a number.
fn print_number(out: &mut Vec<u8>, alloc: Global, word: &[u8], n: u16) -> Result<(), AllocError>
    ensures { OnOk result (out.new.items ≡ out.old.items ++ word.now ++ decimal n) }
{
    out.extend_from_slice(word)?;
    let digits = format!(in alloc; "{n}")?;
    out.extend_from_slice(digits.as_bytes())
}

/// Adds bytes as upper-case digits.
fn print_hex(out: &mut Vec<u8>, alloc: Global, bytes: &[u8]) -> Result<(), AllocError>
    ensures { OnOk result (out.new.items ≡ out.old.items ++ encode_upper bytes.now) }
{
    let digits = hex::encode_upper(alloc, bytes)?;
    out.extend_from_slice(digits.as_bytes())
}

/// Adds an id as four digits.
fn print_id(out: &mut Vec<u8>, alloc: Global, id: u16) -> Result<(), AllocError>
    ensures { OnOk result (out.new.items ≡ out.old.items ++ id_digits id) }
{
    print_hex(out, alloc, &[(id / 256) as u8, (id % 256) as u8])
}

/// Adds the device that a header of this version names.
fn print_device(
    out: &mut Vec<u8>,
    alloc: Global,
    version: u8,
    id: u16,
    unique: &UniqueId,
) -> Result<(), AllocError>
    ensures { OnOk result (out.new.items
        ≡ out.old.items ++ device_text version id unique.now) }
{
    print_id(out, alloc, id)?;
    if version == 3 {
        out.push(b' ')?;
        print_hex(out, alloc, unique.as_bytes())?;
    }
    Ok(())
}

/// Adds what a header of this version begins with.
fn print_header_word(out: &mut Vec<u8>, version: u8) -> Result<(), AllocError>
    ensures { OnOk result (out.new.items ≡ out.old.items ++ header_word version) }
{
    if version == 3 {
        out.extend_from_slice(b"stmjournal 3 ")
    } else if version == 2 {
        out.extend_from_slice(b"stmjournal 2 ")
    } else {
        out.extend_from_slice(b"stmjournal 1 ")
    }
}

fn print_words(
    out: &mut Vec<u8>,
    alloc: Global,
    entry: &Entry,
    held: &[u8],
) -> Result<(), AllocError>
    ensures { OnOk result (out.new.items ≡ out.old.items ++ line_of (filled entry.now held.now)) }
{
    match entry {
        Entry::Names(version, id, unique) => {
            print_header_word(out, *version)?;
            print_device(out, alloc, *version, *id, unique)
        }
        Entry::Opens(k) => print_number(out, alloc, b"open ", *k),
        Entry::Keeps(n, _) => {
            print_number(out, alloc, b"page ", *n)?;
            out.push(b' ')?;
            print_hex(out, alloc, held)
        }
        Entry::Erases(n) => print_number(out, alloc, b"erase ", *n),
        Entry::Programs(n) => print_number(out, alloc, b"program ", *n),
        Entry::Ends(k) => print_number(out, alloc, b"end ", *k),
        Entry::Undoes(k) => print_number(out, alloc, b"undone ", *k),
    }
}

/// Adds the line that says it, with its LF; that of a page with these bytes.
pub(crate) fn print(
    out: &mut Vec<u8>,
    alloc: Global,
    entry: &Entry,
    held: &[u8],
) -> Result<(), AllocError>
    ensures { OnOk result (out.new.items ≡ out.old.items ++ line_text (filled entry.now held.now)) }
{
    print_words(out, alloc, entry, held)?;
    out.push(b'\n')?;
    Ok(())
}
