//! A folder of the operating system.

ghost use Rattle.std.specs.Prelude.{◌≡◌, IfOk, None};
ghost use Rattle.std.specs.Path.{path_buf_bytes, path_join};
ghost use Rattle.mrp_folder.specs.Disk.{KeepsPlace, failures_told, part_of, path_of};
ghost use Rattle.mrp_folder.specs.Named.{TellsFailure};

use crate::folder::Folder;
use mrp_rows::WriteFault;
use std::alloc::{AllocError, Global};
use std::fs::{File, OpenFile};
use std::io::Write;
use std::path::{Path, PathBuf};
use std::rt::Files;
use std::{fs, io};

/// A file of the operating system that was begun. No contract can say which bytes the operating system keeps.
#[derive(Drop)]
pub struct DiskPart<F> {
    file: F,
}

impl<F: Write> Write for DiskPart<F> {
    ghost use Rattle.std.specs.Io.{WritesAtMost};
    ghost use Rattle.std.specs.Io.KnownBytes.{WriteAppends};
    ghost use Rattle.std.specs.Prelude.{None};
    ghost use Rattle.mrp_folder.specs.Disk.{file_of};

    fn write(&mut self, buf: &[u8]) -> io::Result<usize>
        ensures bound { WritesAtMost result buf.now }
        ensures bytes { WriteAppends None None result buf.now }

        // Where it is known what the file has, they are behind that.
        ensures written { WriteAppends (F.contents (file_of self.old)) (F.contents (file_of self.new)) result buf.now }
    {
        self.file.write(buf)
    }

    fn flush(&mut self) -> io::Result<()> {
        self.file.flush()
    }
}

/// A folder of the operating system, by its path, and the name that a file is begun with.
#[derive(Drop)]
pub struct DiskFolder<'a, R> {
    files: &'a R,
    alloc: Global,
    folder: &'a str,
    part: &'a str,
    failures: u64,
}

// Makes the names of a folder durable. An empty path is the folder that the program runs in.
fn sync_names<R: Files>(files: &R, folder: &str) -> io::Result<()> {
    let path = if folder.is_empty() { "." } else { folder };
    File::open(files, path)?.sync_all()
}

impl<'a, R> DiskFolder<'a, R> {
    /// A folder of which no call failed yet.
    pub fn new(files: &'a R, alloc: Global, folder: &'a str, part: &'a str) -> DiskFolder<'a, R>
        ensures path { path_of result ≡ folder.now }
        ensures part { part_of result ≡ part.now }
        ensures failures { failures_told result ≡ 0 }
    {
        DiskFolder {
            files,
            alloc,
            folder,
            part,
            failures: 0,
        }
    }

    // The path of a file with a name.
    fn path_to(&self, name: &str) -> Result<PathBuf, AllocError>
        ensures { IfOk result (λ path. path_buf_bytes path ≡ path_join (path_of self.now) name.now) }
    {
        Path::new(self.folder).join(self.alloc, name)
    }

    // The path of the file that was begun.
    fn path_to_part(&self) -> Result<PathBuf, AllocError>
        ensures { IfOk result (λ path. path_buf_bytes path ≡ path_join (path_of self.now) (part_of self.now)) }
    {
        self.path_to(self.part)
    }

    // Counts a call that failed.
    fn told<X>(&mut self, outcome: io::Result<X>) -> Result<X, WriteFault>
        ensures told { TellsFailure (failures_told self.old) (failures_told self.new) result }
        ensures place { KeepsPlace self.old self.new }
    {
        match outcome {
            Ok(x) => Ok(x),
            Err(_) => {
                self.failures = self.failures.saturating_add(1);
                Err(WriteFault)
            }
        }
    }
}

impl<'a, R: Files> DiskFolder<'a, R> {
    // Begins a file.
    fn begin_part(&self) -> io::Result<DiskPart<R::File>> {
        let path = self.path_to_part()?;
        let file = File::create(self.files, path.as_str())?;
        Ok(DiskPart { file })
    }

    // Gives the file that was begun a name.
    fn rename_part(&self, name: &str) -> io::Result<()> {
        let from = self.path_to_part()?;
        let to = self.path_to(name)?;
        fs::rename(self.files, from.as_str(), to.as_str())
    }
}

impl<'a, R: Files> Folder for DiskFolder<'a, R> {
    type Part = DiskPart<R::File>;

    ghost durable = { λ _. None };

    ghost named = { λ _. None };

    ghost lasting = { λ _. None };

    ghost failures = { failures_told };

    fn begin(&mut self) -> Result<DiskPart<R::File>, WriteFault> {
        let outcome = self.begin_part();
        self.told(outcome)
    }

    fn sync(&mut self, part: &mut DiskPart<R::File>) -> Result<(), WriteFault> {
        let outcome = part.file.sync_all();
        self.told(outcome)
    }

    fn name(&mut self, _part: DiskPart<R::File>, name: &str) -> Result<(), WriteFault> {
        let outcome = self.rename_part(name);
        self.told(outcome)
    }

    fn settle(&mut self) -> Result<(), WriteFault> {
        let outcome = sync_names(self.files, self.folder);
        self.told(outcome)
    }
}
