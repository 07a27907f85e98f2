// What stands in the place of options that the words don't give.

/// What stands in the place of options that the words don't give: values of environment variables,
/// or names of installed files. A word goes before it.
#[derive(Clone, Copy)]
pub struct Environment<'a> {
    /// The file of the chip table; of several the lowest.
    pub table: Option<&'a str>,
    /// The files of those that are read over it, the lower first; None where a variable names the
    /// table.
    pub over: Option<&'a [&'a str]>,
    /// The word that names the device.
    pub device: Option<&'a str>,
    /// The file of the journal.
    pub journal: Option<&'a str>,
    /// The folder of the journals, each of which has the name of its board.
    pub journals: Option<&'a str>,
    /// The unique id of the board that is wanted, or its last digits.
    pub board: Option<&'a str>,
    /// How long a reply may take, in milliseconds.
    pub wait: Option<&'a str>,
    /// How many bits a second the line has.
    pub baud: Option<&'a str>,
    /// Whether a device isn't asked which board it is.
    pub without_board: bool,
    /// Whether the device was reset since the last session.
    pub is_fresh: bool,
    /// Whether no other program has the files, so that they need no lock.
    pub without_lock: bool,
    /// Whether what came of the words is told as JSON.
    pub is_json: bool,
}
