//! An order desk that stays open on a folder: its start, its batches of calls, its runs beside them, and its end.
#![tactic(auto)]

mod batches;
mod beginning;
mod beside;
mod disk;
mod finding;
mod handing;
pub mod laws;
mod notes;
mod opening;
mod place;
mod start;
mod sum;
mod whole_lines;

pub use batches::{RunTaker, hand_over, serve};
pub use beginning::{BegunDesk, begin_desk};
pub use beside::{hand_over_missing, open_desk, serve_begun};
pub use disk::{DeskFolder, LockFault};
pub use finding::{Found, find};
pub use handing::{RunKind, RunSource, make_all};
pub use opening::{begin_journal, cut_number, tell_cut};
pub use place::JournalPlace;
pub use start::{Prepared, answer_journal, is_sealed, prepare};
pub use sum::sum_text;
pub use whole_lines::WholeLines;
