// What is shown while a session runs.
ghost use Rattle.std.specs.Prelude.{◌≡◌, if◌then◌else◌};

/// What is shown of a session while it runs, on standard error.
#[derive(Clone, Copy)]
pub enum Progress {
    /// One line that is rewritten, where that is a terminal; else nothing.
    OnTerminal,
    /// A line for each page, wherever it goes.
    Lines,
    /// Nothing.
    Silent,
}

impl Progress {
    /// What the words ask for; to show nothing goes before lines.
    pub fn of(lines: bool, quiet: bool) -> Progress
        ensures { result ≡ (if quiet then Progress.Silent
            else (if lines then Progress.Lines else Progress.OnTerminal)) }
    {
        if quiet {
            Progress::Silent
        } else if lines {
            Progress::Lines
        } else {
            Progress::OnTerminal
        }
    }
}
