//! A journal in a file of the operating system.

ghost use Rattle.std.specs.Prelude.{◌≡◌, None, OnOk, is_ok};
ghost use Rattle.std.specs.Io.KnownBytes.{Appends};
ghost use Rattle.mrp_journal.specs.File.{failures_told, file_of};
ghost use Rattle.mrp_journal.specs.Held.{TellsFailure};

use crate::store::Store;
use mrp_rows::WriteFault;
use std::fs::OpenFile;
use std::io;
use std::io::Write;

/// A file that is open to append. No contract can say which bytes the operating system keeps.
#[derive(Drop)]
pub struct JournalFile<F: Drop> {
    file: F,
    failures: u64,
}

impl<F: Drop> JournalFile<F> {
    /// A file of which no call failed yet.
    pub fn new(file: F) -> JournalFile<F>
        ensures file { file_of result ≡ file }
        ensures failures { failures_told result ≡ 0 }
    {
        JournalFile { file, failures: 0 }
    }

    // Counts a call that failed.
    fn told(&mut self, outcome: io::Result<()>) -> Result<(), WriteFault>
        ensures told { TellsFailure (failures_told self.old) (failures_told self.new) result }
        ensures outcome { is_ok result ≡ is_ok outcome }
        ensures file { file_of self.new ≡ file_of self.old }
    {
        match outcome {
            Ok(()) => Ok(()),
            Err(_) => {
                self.failures = self.failures.saturating_add(1);
                Err(WriteFault)
            }
        }
    }
}

// Cuts a file, and makes that durable.
fn cut_file<F: OpenFile>(file: &F, count: usize) -> io::Result<()> {
    file.set_len(count as u64)?;
    file.sync_all()
}

impl<F: Write + OpenFile + Drop> Store for JournalFile<F> {
    ghost held = { λ _. None };

    ghost failures = { failures_told };

    fn append(&mut self, bytes: &[u8]) -> Result<(), WriteFault>
        ensures told { TellsFailure (failures_told self.old) (failures_told self.new) result }

        // Where it is known what the file has, all of them are behind that.
        ensures written { OnOk result (Appends (F.contents (file_of self.old)) (F.contents (file_of self.new)) bytes.now) }
    {
        let outcome = self.file.write_all(bytes);
        self.told(outcome)
    }

    fn sync(&mut self) -> Result<(), WriteFault>
        ensures told { TellsFailure (failures_told self.old) (failures_told self.new) result }

        // It writes nothing.
        ensures file { file_of self.new ≡ file_of self.old }
    {
        let outcome = self.file.sync_data();
        self.told(outcome)
    }

    fn cut(&mut self, count: usize) -> Result<(), WriteFault>
        ensures told { TellsFailure (failures_told self.old) (failures_told self.new) result }

        // It writes nothing.
        ensures file { file_of self.new ≡ file_of self.old }
    {
        let outcome = cut_file(&self.file, count);
        self.told(outcome)
    }
}
