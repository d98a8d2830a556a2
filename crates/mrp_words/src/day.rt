//! The commands that make a day of a bundle.

ghost use Rattle.std.specs.Prelude.{◌≡◌};
ghost use Rattle.mrp_words.specs.Words.{IsDayWord, word_of};

/// A command that makes a day of a bundle.
#[derive(Clone, Copy, Debug, PartialEq, Eq)]
pub enum DayCommand {
    /// The script is answered record by record, in row order.
    Plan,
    /// The desks of the script make their calls concurrently.
    Live,
}

impl DayCommand {
    /// The word of the command.
    pub fn word<'a>(self) -> &'a str
        ensures { result.now ≡ word_of self }
    {
        match self {
            DayCommand::Plan => "plan",
            DayCommand::Live => "live",
        }
    }

    /// The command of a word. The caller guarantees that it is one of those words.
    pub fn of(word: &str) -> DayCommand
        requires { IsDayWord word.now }
        ensures { word.now ≡ word_of result }
    {
        if word == "live" {
            DayCommand::Live
        } else {
            DayCommand::Plan
        }
    }
}
