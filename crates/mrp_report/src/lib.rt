//! The text of a day, section by section: the history of the order book, and the report of each
//! run.
#![tactic(auto)]

mod fault;
pub mod laws;
mod page;
mod report;
mod section;
mod wave;

pub use fault::ReportFault;
pub use page::{Page, is_quoted_text};
pub use report::{MOST_WORKERS, write_report};
pub use section::{HistoryRows, LONGEST_ROW, write_history};
