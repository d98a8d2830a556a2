//! Files that are put into folders whole, whose calls and writes fail in turn, and journals that are sealed.

use super::same;
use mrp_folder::{KeepFault, MemoryFolder, SealedJournal, keep_text};
use mrp_journal::{MemoryStore, Store};
use std::alloc::Global;

// Whether a file is put into a folder whose calls fail after so many, and its writes after so many; how many files
// have a name then.
fn kept(alloc: Global, calls: u64, writes: u64) -> (bool, usize) {
    let mut folder = MemoryFolder::new(alloc, calls, writes);
    let done = keep_text(&mut folder, b"some text", "run-7.day").is_ok();
    let named = folder.files().len();
    drop(folder);
    (done, named)
}

#[test]
fn each_call_of_a_folder_fails(rt: HostRuntime) {
    const WANT: [(bool, usize); 4] = [(false, 0), (false, 0), (false, 0), (true, 1)];
    let mut calls = 0;
    for want in WANT {
        same(&rt, kept(rt.alloc(), calls, 1), want);
        calls = calls.wrapping_add(1);
    }
    same(&rt, kept(rt.alloc(), 9, 0), (false, 0));
}

#[test]
fn a_file_that_failed_comes_back(rt: HostRuntime) {
    let mut folder = MemoryFolder::new(rt.alloc(), 9, 0);
    let failures = match keep_text(&mut folder, b"some text", "run-7.day") {
        Err(KeepFault::Part(part)) => part.failures(),
        _ => 0,
    };
    same(&rt, failures, 1);
    drop(folder);
}

// Whether a record is appended to a journal where the calls of the folder of its seal fail after so many; how many bytes
// the journal has then.
fn sealed(alloc: Global, calls: u64, is_sealed: bool) -> (bool, usize) {
    let journal = MemoryStore::new(Vec::new(alloc), 9);
    let folder = MemoryFolder::new(alloc, calls, 1);
    let mut sealed = SealedJournal::new(journal, folder, b"a sum", "desk.tables", is_sealed);
    let done = sealed.append(b"1,run,,,,\n").is_ok();
    let left = sealed.journal().bytes().len();
    drop(sealed);
    (done, left)
}

#[test]
fn a_journal_waits_for_its_seal(rt: HostRuntime) {
    const WANT: [(bool, usize); 5] = [(false, 0), (false, 0), (false, 0), (false, 0), (true, 10)];
    let mut calls = 0;
    for want in WANT {
        same(&rt, sealed(rt.alloc(), calls, false), want);
        calls = calls.wrapping_add(1);
    }
    same(&rt, sealed(rt.alloc(), 0, true), (true, 10));
}
