// Numbers in the decimal system, one behind the other.
ghost use Rattle.std.specs.Prelude.{◌≡◌, ◌++◌, OnOk, decimal};
ghost use Rattle.stm_work.specs.Numbers.{more_text, numbers_text};

use std::alloc::{AllocError, Global};

/// Adds numbers to a text, with this text between them.
pub fn add_numbers(
    alloc: Global,
    out: &mut Vec<u8>,
    between: &str,
    numbers: &[u32],
) -> Result<(), AllocError>
    ensures { OnOk result (out.new.items
        ≡ out.old.items ++ numbers_text between.now numbers.now) }
{
    match numbers {
        [] => Ok(()),
        [first, more @ ..] => {
            add_number(alloc, out, "", *first)?;
            add_more(alloc, out, between, more)
        }
    }
}

/// Adds numbers to a text, each behind this text.
fn add_more(
    alloc: Global,
    out: &mut Vec<u8>,
    between: &str,
    numbers: &[u32],
) -> Result<(), AllocError>
    ensures { OnOk result (out.new.items ≡ out.old.items ++ more_text between.now numbers.now) }
{
    for number in numbers {
        add_number(alloc, out, between, *number)?;
    }
    Ok(())
}

/// Adds a number behind a text.
pub fn add_number(
    alloc: Global,
    out: &mut Vec<u8>,
    before: &str,
    number: u32,
) -> Result<(), AllocError>
    ensures { OnOk result (out.new.items ≡ out.old.items ++ (before.now ++ decimal number)) }
{
    out.extend_from_slice(before.as_bytes())?;
    let digits = format!(in alloc; "{number}")?;
    out.extend_from_slice(digits.as_bytes())
}
