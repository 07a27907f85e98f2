// How a test ends. A test only asks whether something is as it is due, since its proof then costs
// little.
use std::test::Fail;

/// Ends a test that fails where something isn't so.
pub fn passes(is_right: bool) -> Result<(), Fail> {
    if is_right {
        Ok(())
    } else {
        Err(Fail::new("something isn't as it is due"))
    }
}

/// Goes on with a test of several: it ends where this isn't so.
pub fn passes_as(name: &str, is_right: bool) -> Result<(), Fail> {
    if is_right {
        Ok(())
    } else {
        Err(Fail::new(format_args!("{name}: it isn't so")))
    }
}

/// Goes on with a test of several tables: it ends where a place of this one is another than is due.
pub fn ends_as(name: &str, other: Option<usize>) -> Result<(), Fail> {
    match other {
        None => Ok(()),
        Some(place) => Err(Fail::new(format_args!("{name}: row {place} is another"))),
    }
}
