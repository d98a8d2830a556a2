//! Files that are put into a folder whole: each has its name once all of it is durable.
#![tactic(auto)]

mod disk;
mod fault;
mod folder;
mod keeping;
mod memory;
mod sealing;

pub use disk::{DiskFolder, DiskPart};
pub use fault::KeepFault;
pub use folder::Folder;
pub use keeping::{begin_file, finish_file, keep_text};
pub use memory::{MemoryFile, MemoryFolder, MemoryPart};
pub use sealing::SealedJournal;
