// A variable of the environment: its name, and what the system tells of it.
ghost use Rattle.std.specs.Prelude.{◌≡◌, IfErr, IfOk, Ok, option_map, true};
ghost use Rattle.stmflash.specs.Variable.{IsVariableUnread, folder_of, is_one, is_variable_read, variable_text};

use std::alloc::AllocError;
use std::env;
use std::env::{Env, VarError};
use stm_words::UsageFault;
use stm_work::Failure;

/// A variable of the environment: its name, and what the system tells of it.
#[derive(Drop)]
pub struct Variable {
    name: &'static str,
    told: Result<String, VarError>,
}

impl Variable {
    /// The variable of this name. The system is asked for it.
    pub fn ask<R: Env + AllocGlobal>(rt: &R, name: &'static str) -> Variable
        ensures { result.name.now ≡ name.now }
    {
        Variable {
            name,
            told: env::var(rt, name),
        }
    }

    /// Refuses one that is set and is no text.
    pub fn check<'a>(&self) -> Result<(), Failure<'a>>
        ensures read { IfOk result (λ _. is_variable_read self.now ≡ true) }
        ensures unread { IfErr result (IsVariableUnread self.now) }
    {
        match &self.told {
            Err(VarError::NotUnicode) => Err(Failure::Usage(UsageFault::NotText(self.name))),
            Err(VarError::OutOfMemory) => Err(Failure::Memory),
            Ok(_) | Err(VarError::NotPresent) => Ok(()),
        }
    }

    /// Its text, where it is set and not empty.
    pub fn text(&self) -> Option<&str>
        ensures { option_map (λ text. text.now) result ≡ variable_text self.now }
    {
        match &self.told {
            Ok(text) if !text.is_empty() => Some(text.as_str()),
            _ => None,
        }
    }

    /// Whether it is set to 1.
    pub fn is_one(&self) -> bool
        ensures { result ≡ is_one self.now }
    {
        match self.text() {
            Some(text) => text == "1",
            None => false,
        }
    }

    /// The folder that it names; none where it isn't text that begins at the root.
    pub fn folder(&self) -> Result<Option<&str>, AllocError>
        ensures { IfOk result (λ folder. folder_of self.now ≡ Ok (option_map (λ name. name.now) folder)) }
    {
        match &self.told {
            Ok(text) if text.starts_with('/') => Ok(Some(text.as_str())),
            Err(VarError::OutOfMemory) => Err(AllocError),
            _ => Ok(None),
        }
    }
}
