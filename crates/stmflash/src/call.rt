// What each use of a device by one call is made of.

use stm_words::{Options, Sequel};
use stm_work::ChipTables;

/// The options of a call, its chip tables, and what follows its work.
#[derive(Clone, Copy)]
pub struct Call<'b, 'a> {
    pub options: &'b Options<'a>,
    pub tables: &'b ChipTables<'a>,
    pub sequel: Sequel<'a>,
}
