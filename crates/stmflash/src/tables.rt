// The chip tables: which are read where no word names one, and which names are theirs.
ghost use Rattle.std.specs.Prelude.{◌≡◌, ◌++◌, IfOk, IfSome, OnOk, option_map, string_bytes};
ghost use Rattle.stmflash.specs.Tables.{AreStanding, IsInstalled, IsNamed, IsUsers, IsUsersName, listed};

use crate::variable::Variable;
use std::alloc::{AllocError, Global};
use std::fs;
use std::fs::Files;
use std::io::ErrorKind;
use stm_files::is_same_file;
use stm_words::TableNames;

/// Where a chip table is installed by hand; the first that is there is taken.
const OWN_INSTALLED: &str = "/usr/local/share/stmflash/chips.toml";

/// Where a chip table is installed by a package.
const INSTALLED: &str = "/usr/share/stmflash/chips.toml";

/// The machine's own table, which is read over the installed one.
const MACHINES: &str = "/etc/stmflash/chips.toml";

/// The name of the user's own table, which is read over both, in the folder of what users set.
pub fn users_table(
    alloc: Global,
    config_home: &Variable,
    home: &Variable,
) -> Result<Option<String>, AllocError>
    ensures { IfOk result (λ name. IsUsersName config_home.now home.now (option_map string_bytes name)) }
{
    if let Some(folder) = config_home.folder()? {
        return Ok(Some(format!(in alloc; "{folder}/stmflash/chips.toml")?));
    }
    match home.folder()? {
        Some(folder) => Ok(Some(format!(in alloc; "{folder}/.config/stmflash/chips.toml")?)),
        None => Ok(None),
    }
}

/// The names of the tables that stand where neither a word nor a variable names one, the lowest
/// first: the installed one, the machine's and the user's, each where it is there.
pub fn standing_tables<'a, R: Files + AllocGlobal>(
    rt: &R,
    users: &'a Option<String>,
) -> Result<Vec<&'a str>, AllocError>
    ensures { IfOk result (λ names. AreStanding (option_map string_bytes users.now) names.items) }
{
    let mut names: Vec<&'a str> = Vec::new(rt.alloc());
    add(&mut names, installed_table(rt))?;
    add(&mut names, unless_missing(rt, MACHINES))?;
    add(&mut names, users_own(rt, users))?;
    Ok(names)
}

/// The user's own table, where it has a name.
fn users_own<'a, R: Files>(rt: &R, users: &'a Option<String>) -> Option<&'a str>
    ensures { IsUsers (option_map string_bytes users.now) result }
{
    match users {
        Some(name) => unless_missing(rt, name.as_str()),
        None => None,
    }
}

/// Adds a name, if there is one.
fn add<'a>(names: &mut Vec<&'a str>, name: Option<&'a str>) -> Result<(), AllocError>
    ensures { OnOk result (names.new.items ≡ names.old.items ++ listed name.entry) }
{
    if let Some(name) = name {
        names.push(name)?;
    }
    Ok(())
}

/// The installed chip table.
fn installed_table<R: Files>(rt: &R) -> Option<&'static str>
    ensures { IfSome result IsInstalled }
{
    match existing(rt, OWN_INSTALLED) {
        Some(name) => Some(name),
        None => existing(rt, INSTALLED),
    }
}

/// A name, where a file of it is there.
fn existing<'a, R: Files>(rt: &R, name: &'a str) -> Option<&'a str>
    ensures { IfSome result (IsNamed name.now) }
{
    if matches!(fs::exists(rt, name), Ok(true)) {
        Some(name)
    } else {
        None
    }
}

/// A name, unless no file of it is there. One that can't be looked at is none of these: it is refused
/// when it is read.
fn unless_missing<'a, R: Files>(rt: &R, name: &'a str) -> Option<&'a str>
    ensures { IfSome result (IsNamed name.now) }
{
    match fs::metadata(rt, name) {
        Err(e) if matches!(e.kind(), ErrorKind::NotFound | ErrorKind::NotADirectory) => None,
        _ => Some(name),
    }
}

/// Whether a name is that of one of these tables.
pub fn is_table<R: Files + AllocGlobal>(rt: &R, name: &str, tables: TableNames) -> bool {
    if is_same_file(rt, name, tables.lowest) {
        return true;
    }
    if let Some(over) = tables.over {
        for table in over {
            if is_same_file(rt, name, *table) {
                return true;
            }
        }
    }
    false
}
