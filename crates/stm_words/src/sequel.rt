// What follows a write in the same call.
ghost use Rattle.std.specs.Prelude.{IfOk};
ghost use Rattle.clap.specs.Words.{found_of};
ghost use Rattle.stm_words.specs.Request.{IsAlone, IsFollowedBy, IsSequel};

use crate::given::{flag, spare_number, spare_number_to};
use crate::usage_fault::UsageFault;
use clap::ArgMatches;

/// What follows a write in the same call.
#[derive(Clone, Copy)]
pub struct Sequel<'a> {
    /// Whether the journal is kept: removed, or moved.
    pub keeps: bool,
    /// Where the journal goes that is kept; without a name it is removed.
    pub to: Option<&'a str>,
    /// The address at which the device is let go then.
    pub go: Option<u32>,
    /// How often a write whose session was broken off is undone and done again.
    pub again: u32,
}

impl<'a> Sequel<'a> {
    /// Nothing follows.
    pub fn none() -> Sequel<'a>
        ensures { IsAlone result }
    {
        Sequel {
            keeps: false,
            to: None,
            go: None,
            again: 0,
        }
    }

    /// What follows the subcommand of this name: only a write is followed.
    pub fn behind(name: &str, given: &ArgMatches<'a>) -> Result<Sequel<'a>, UsageFault<'a>>
        ensures { IfOk result (IsFollowedBy name.now (found_of given.now)) }
    {
        match name {
            "write" => Sequel::parse(given),
            _ => Ok(Sequel::none()),
        }
    }

    /// What the words of `write` say that follows. A Go wants a journal that is kept, since a write
    /// always leaves a segment there.
    pub fn parse(given: &ArgMatches<'a>) -> Result<Sequel<'a>, UsageFault<'a>>
        ensures { IfOk result (IsSequel (found_of given.now)) }
    {
        let to = given.get_str("keep-to");
        let keeps = flag(given, "keep") || to.is_some();
        let go = spare_number(given, "go")?;
        let again = spare_number_to(given, "again", 1000)?.unwrap_or(0);
        if go.is_some() && !keeps {
            return Err(UsageFault::GoNeedsKeep);
        }
        Ok(Sequel {
            keeps,
            to,
            go,
            again,
        })
    }
}
