//! All that is wrong with the tables of a folder, each fault with its file, line and column.
#![tactic(auto)]

mod begun;
mod bill_lines;
mod calendar;
mod early;
mod finding;
mod finding_loops;
mod form;
mod found_loop;
mod front;
mod header;
mod kind;
mod known;
pub mod laws;
mod likes;
mod lines;
mod record;
mod rows;
mod rule;
mod seen;
mod sheet;
mod source;
mod surveyed;
mod table;
mod tables;
mod tell;

pub use begun::Progress;
pub use finding::{Finding, What};
pub use form::cell_in;
pub use found_loop::FoundLoop;
pub use front::Front;
pub use header::{HEADER_CELLS, are_columns, are_like, column_names, is_like};
pub use kind::{Kind, Words};
pub use lines::{ends_own_line, record_lines};
pub use record::are_empty_from;
pub use source::Source;
pub use surveyed::Survey;
pub use tables::{begin_survey, finish_survey};
