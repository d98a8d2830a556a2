//! What `page`, `carry` and `inspect` do, as the words of the command line ask, and how a command ends.
#![tactic(auto)]

mod carry;
mod ending;
mod inspect;
mod page;
mod status;

pub use carry::carry_asked;
pub use ending::{Ending, write_line, write_whole};
pub use inspect::inspect_asked;
pub use page::make_page;
pub use status::Status;
