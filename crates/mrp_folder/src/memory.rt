//! A folder in memory.

ghost use Rattle.std.specs.Prelude.{◌≡◌, ◌++◌, ◌∷◌, [], OnErr, OnOk, Some, map, string_bytes};
ghost use Rattle.mrp_folder.specs.Memory.{memory_durable, memory_file};

use crate::folder::Folder;
use mrp_qty::NoMemory;
use mrp_rows::WriteFault;
use std::alloc::Global;
use std::io;
use std::io::{ErrorKind, Write};

/// A file in memory, whose writes fail from some write on.
#[derive(Drop)]
pub struct MemoryPart {
    bytes: Vec<u8>,
    durable: usize,
    writes: u64,
}

impl Write for MemoryPart {
    ghost use Rattle.std.specs.Prelude.{◌≡◌, ◌<◌, ◌-◌, ◌+◌, ◌⊎◌, IfOk, OnErr, OnOk, Some, length};
    ghost use Rattle.std.specs.Io.{WritesAtMost};
    ghost use Rattle.std.specs.Io.KnownBytes.{WriteAppends};
    ghost use Rattle.mrp_folder.specs.Memory.{durable_len, part_bytes, part_room, writes_left};

    ghost contents = { λ part. Some (part_bytes part) };

    fn write(&mut self, buf: &[u8]) -> io::Result<usize>
        ensures bound { WritesAtMost result buf.now }
        ensures bytes { WriteAppends (Some (part_bytes self.old)) (Some (part_bytes self.new)) result buf.now }
        ensures whole { IfOk result (λ count. count ≡ length buf.now) }
        ensures undurable { durable_len self.new ≡ durable_len self.old }
        ensures fewer { writes_left self.new ≡ writes_left self.old - 1 }
        ensures taken { OnOk result (0 < writes_left self.old) }

        // It fails only where no write is left, or there is no memory for the bytes yet.
        ensures fails { OnErr result ((writes_left self.old ≡ 0) ⊎ (part_room self.old < length (part_bytes self.old) + length buf.now)) }
    {
        match self.writes.checked_sub(1) {
            Some(left) => self.writes = left,
            None => return Err(io::Error::from(ErrorKind::Other)),
        }
        self.bytes.extend_from_slice(buf)?;
        Ok(buf.len())
    }

    fn flush(&mut self) -> io::Result<()>
        ensures { self.new ≡ self.old }
    {
        Ok(())
    }
}

/// A file in memory that has a name.
#[derive(Drop)]
pub struct MemoryFile {
    name: String,
    part: MemoryPart,
}

impl MemoryFile {
    ghost use Rattle.std.specs.Prelude.{◌≡◌, string_bytes};

    /// Its name.
    pub fn name(&self) -> &str
        ensures { result.now ≡ string_bytes self.now.name }
    {
        self.name.as_str()
    }

    /// Its bytes.
    pub fn bytes(&self) -> &[u8]
        ensures { result.now ≡ self.now.part.bytes.items }
    {
        self.part.bytes.as_slice()
    }
}

/// A folder in memory, whose calls fail from some call on, and the writes of each of its files from some write on.
#[derive(Drop)]
pub struct MemoryFolder {
    alloc: Global,
    files: Vec<MemoryFile>,
    // How many of the names are durable.
    lasting: usize,
    // How many calls are left before they fail.
    calls: u64,
    // How many writes of each file do not fail.
    writes: u64,
    failures: u64,
}

// Adds a file.
fn push_file(
    alloc: Global,
    files: &mut Vec<MemoryFile>,
    part: MemoryPart,
    name: &str,
) -> Result<(), NoMemory>
    ensures added { OnOk result (map memory_file files.new.items ≡ map memory_file files.old.items ++ record { name = name.now; file = record { bytes = part.bytes.items; durable = memory_durable part } } ∷ []) }
    ensures same { OnErr result (files.new.items ≡ files.old.items) }
{
    let name = String::from_str(alloc, name)?;
    Ok(files.push(MemoryFile { name, part })?)
}

impl MemoryFolder {
    ghost use Rattle.std.specs.Prelude.{◌≡◌, ◌<◌, ◌↔◌, ◌-◌, [], IsErr, IsTrue, Some, map};
    ghost use Rattle.mrp_rows.specs.Told.{counted};
    ghost use Rattle.mrp_folder.specs.Memory.{KeepsNames, calls_left, lasting_len, memory_failures, memory_files, writes_given};

    /// A folder without files, whose calls fail after so many, and the writes of each of its files after so many.
    pub fn new(alloc: Global, calls: u64, writes: u64) -> MemoryFolder
        ensures files { memory_files result ≡ [] }
        ensures lasting { lasting_len result ≡ 0 }
        ensures calls { calls_left result ≡ calls }
        ensures writes { writes_given result ≡ writes }
        ensures failures { memory_failures result ≡ 0 }
    {
        MemoryFolder {
            alloc,
            files: Vec::new(alloc),
            lasting: 0,
            calls,
            writes,
            failures: 0,
        }
    }

    /// The files that were named, in order.
    pub fn files(&self) -> &[MemoryFile]
        ensures { result.now ≡ self.now.files.items }
    {
        &self.files
    }

    // Counts a call that fails.
    fn fail<X>(&mut self) -> Result<X, WriteFault>
        ensures names { KeepsNames self.old self.new }
        ensures files { memory_files self.new ≡ memory_files self.old }
        ensures calls { calls_left self.new ≡ calls_left self.old }
        ensures told { memory_failures self.new ≡ counted 1 (memory_failures self.old) }
        ensures fails { IsErr result }
    {
        self.failures = self.failures.saturating_add(1);
        Err(WriteFault)
    }

    // Takes one of the calls that are left; false if none is.
    fn takes_call(&mut self) -> bool
        ensures takes { IsTrue result ↔ (0 < calls_left self.old) }
        ensures fewer { calls_left self.new ≡ calls_left self.old - 1 }
        ensures names { KeepsNames self.old self.new }
        ensures files { memory_files self.new ≡ memory_files self.old }
        ensures told { memory_failures self.new ≡ memory_failures self.old }
    {
        match self.calls.checked_sub(1) {
            Some(left) => {
                self.calls = left;
                true
            }
            None => false,
        }
    }
}

impl Folder for MemoryFolder {
    ghost use Rattle.std.specs.Prelude.{◌≡◌, ◌<◌, ◌-◌, ◌⊎◌, [], IfOk, OnErr, OnOk, Some, length};
    ghost use Rattle.std.specs.Io.KnownBytes.{Keeps};
    ghost use Rattle.mrp_journal.specs.Memory.{TakesCall};
    ghost use Rattle.mrp_folder.specs.Memory.{KeepsNames, calls_left, durable_len, lasting_len, memory_durable, memory_failures, memory_files, memory_lasting, part_bytes, writes_given, writes_left};
    ghost use Rattle.mrp_folder.specs.Named.{TellsFailure, with_name};

    type Part = MemoryPart;

    ghost durable = { λ part. Some (memory_durable part) };

    ghost named = { λ folder. Some (memory_files folder) };

    ghost lasting = { λ folder. Some (memory_lasting folder) };

    ghost failures = { memory_failures };

    fn begin(&mut self) -> Result<MemoryPart, WriteFault>
        ensures empty { IfOk result (λ part. part_bytes part ≡ []) }
        ensures undurable { IfOk result (λ part. durable_len part ≡ 0) }
        ensures writes { IfOk result (λ part. writes_left part ≡ writes_given self.old) }
        ensures same { memory_files self.new ≡ memory_files self.old }
        ensures names { KeepsNames self.old self.new }
        ensures told { TellsFailure (memory_failures self.old) (memory_failures self.new) result }
        ensures call { TakesCall (calls_left self.old) (calls_left self.new) result }
    {
        if !self.takes_call() {
            return self.fail();
        }
        Ok(MemoryPart {
            bytes: Vec::new(self.alloc),
            durable: 0,
            writes: self.writes,
        })
    }

    fn sync(&mut self, part: &mut MemoryPart) -> Result<(), WriteFault>
        ensures bytes { part_bytes part.new ≡ part_bytes part.old }
        ensures synced { OnOk result (memory_durable part.new ≡ part_bytes part.new) }
        ensures all { OnOk result (durable_len part.new ≡ length (part_bytes part.new)) }
        ensures none { OnErr result (durable_len part.new ≡ durable_len part.old) }
        ensures same { memory_files self.new ≡ memory_files self.old }
        ensures names { KeepsNames self.old self.new }
        ensures told { TellsFailure (memory_failures self.old) (memory_failures self.new) result }
        ensures call { TakesCall (calls_left self.old) (calls_left self.new) result }
    {
        if !self.takes_call() {
            return self.fail();
        }
        part.durable = part.bytes.len();
        Ok(())
    }

    fn name(&mut self, part: MemoryPart, name: &str) -> Result<(), WriteFault>
        ensures named { OnOk result (Some (memory_files self.new) ≡ with_name name.now (Some (part_bytes part)) (Some (memory_durable part)) (Some (memory_files self.old))) }
        ensures same { OnErr result (memory_files self.new ≡ memory_files self.old) }
        ensures names { KeepsNames self.old self.new }
        ensures told { TellsFailure (memory_failures self.old) (memory_failures self.new) result }
        ensures fewer { calls_left self.new ≡ calls_left self.old - 1 }
        ensures taken { OnOk result (0 < calls_left self.old) }
    {
        if !self.takes_call() {
            return self.fail();
        }
        match push_file(self.alloc, &mut self.files, part, name) {
            Ok(()) => Ok(()),
            Err(_) => self.fail(),
        }
    }

    fn settle(&mut self) -> Result<(), WriteFault>
        ensures lasting { OnOk result (memory_lasting self.new ≡ memory_files self.new) }
        ensures all { OnOk result (lasting_len self.new ≡ length (memory_files self.new)) }
        ensures none { OnErr result (lasting_len self.new ≡ lasting_len self.old) }
        ensures writes { writes_given self.new ≡ writes_given self.old }
        ensures same { memory_files self.new ≡ memory_files self.old }
        ensures told { TellsFailure (memory_failures self.old) (memory_failures self.new) result }
        ensures call { TakesCall (calls_left self.old) (calls_left self.new) result }
    {
        if !self.takes_call() {
            return self.fail();
        }
        self.lasting = self.files.len();
        Ok(())
    }
}
