//! What the words of the command line ask for, the files of a folder, and hints at what was probably meant.
#![tactic(auto)]

mod carry_words;
mod check_words;
mod command;
mod day;
mod desk_words;
mod files;
mod hint;
mod inspect_words;
pub mod laws;
mod options;
mod page_words;
mod sights;

pub use carry_words::CarryWords;
pub use command::{MOST_WORKERS, NoRequest, Request, read_words};
pub use day::DayCommand;
pub use files::{FileStore, join_tables, read_folder, read_tables};
pub use hint::{Hint, has_stray_word};
pub use page_words::PageWords;
pub use sights::{QuietErrors, SeenInput, SeenOutput, Sights, begins_utf16};
