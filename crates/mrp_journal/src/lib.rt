//! The journal of an order desk: a file whose records are durable before their answers are written, and
//! what a crash leaves of it.
#![tactic(auto)]

mod beginning;
mod file;
mod keeping;
pub mod laws;
mod lines;
mod memory;
mod settling;
mod store;
mod table;

pub use beginning::begin;
pub use file::JournalFile;
pub use lines::whole_lines;
pub use memory::MemoryStore;
pub use settling::settle;
pub use store::Store;
pub use table::{SCRIPT_HEADER, header_for, takes_records};
