//! What a start does with a folder of the operating system. No contract can say what its files have.

ghost use Rattle.std.specs.Prelude.{◌≡◌, IfOk, OnOk, ⊤, true};
ghost use Rattle.std.specs.Fs.{new_options, with_append, with_create};
ghost use Rattle.std.specs.Path.{path_buf_bytes, path_join};
ghost use Rattle.mrp_rows.specs.declared.fault.Table.TheVariants as t;
ghost use Rattle.mrp_words.specs.Folder.{IsThere, path_in};
ghost use Rattle.mrp_open.specs.Disk.{has_handle, is_taken, path_to_open};
ghost use Rattle.mrp_open.specs.Locks.{Answer, HasHandle, IsHeldBy, IsLocked};

use crate::place::JournalPlace;
use mrp_commands::Ending;
use mrp_journal::JournalFile;
use mrp_qty::NoMemory;
use mrp_words::FileStore;
use std::alloc::{AllocError, Global};
use std::fs::{File, OpenFile, OpenOptions, TryLockError};
use std::io;
use std::io::ErrorKind;
use std::path::{Path, PathBuf};
use std::rt::Files;

/// Why a folder was not locked.
#[derive(Clone, Copy, Debug, PartialEq, Eq)]
pub enum LockFault {
    /// Another desk has it.
    InUse,
    /// It could not be opened or locked.
    Read,
}

// A handle whose lock can be asked for. The lock goes with the handle.
trait CanLock {
    // What the operating system may answer.
    ghost answers: { Self → Answer → Type 0 };

    // Asks for the lock, without waiting.
    fn ask_lock(&self) -> Result<(), TryLockError>
        ensures { answers self.now result };
}

// No contract can say what the operating system answers.
impl CanLock for File {
    ghost answers = { λ _ _. ⊤ };

    fn ask_lock(&self) -> Result<(), TryLockError> {
        self.try_lock()
    }
}

// A file of which nothing is kept.
const NULL: &str = "/dev/null";

// Three open handles. Where standard streams are closed they have taken their numbers, so that no file of a folder gets
// one, and what is written to a stream never gets into a file.
fn open_null<R: Files>(files: &R) -> io::Result<[R::File; 3]> {
    let first = File::open(files, NULL)?;
    let second = File::open(files, NULL)?;
    let third = File::open(files, NULL)?;
    Ok([first, second, third])
}

// The path of a folder. An empty one is the folder that the program runs in.
fn folder_path(folder: &str) -> &str
    ensures { result.now ≡ path_to_open folder.now }
{
    if folder.is_empty() { "." } else { folder }
}

// The lock of a folder.
#[derive(Drop)]
enum Lock<F> {
    // It was not taken.
    Free,
    // There is no such folder.
    Absent,
    // The folder's own handle, which has the lock.
    Held(F),
}

// A folder is locked by its handle, or why not, by what the operating system answered.
fn held<F: Drop>(handle: F, answer: Result<(), TryLockError>) -> Result<Lock<F>, LockFault>
    ensures { IsHeldBy handle answer result }
{
    match answer {
        Ok(()) => Ok(Lock::Held(handle)),
        Err(TryLockError::WouldBlock) => Err(LockFault::InUse),
        Err(TryLockError::Error(_)) => Err(LockFault::Read),
    }
}

// The handle of a folder, by what opening it came to; `None` if there is no such folder.
fn handle_of<F>(outcome: io::Result<F>) -> Result<Option<F>, LockFault>
    ensures { HasHandle outcome result }
{
    match outcome {
        Ok(handle) => Ok(Some(handle)),
        Err(error) if matches!(error.kind(), ErrorKind::NotFound | ErrorKind::NotADirectory) => {
            Ok(None)
        }
        Err(_) => Err(LockFault::Read),
    }
}

// Takes the lock of a folder, by what opening it came to, without waiting; there is none if there is no such folder.
//
// Errors: `InUse` if another process has the lock; `Read` if the folder can't be opened or locked.
fn lock_opened<F: CanLock + Drop>(outcome: io::Result<F>) -> Result<Lock<F>, LockFault>
    ensures locked { IsLocked F.answers outcome result }
    ensures taken { IfOk result (λ lock. is_taken lock ≡ true) }
{
    match handle_of(outcome)? {
        Some(handle) => {
            let answer = handle.ask_lock();
            held(handle, answer)
        }
        None => Ok(Lock::Absent),
    }
}

// Opens a folder, and takes its lock.
//
// Errors: as `lock_opened`.
fn lock_folder(files: &impl Files<File = File>, folder: &str) -> Result<Lock<File>, LockFault>
    ensures { IfOk result (λ lock. is_taken lock ≡ true) }
{
    lock_opened(File::open(files, folder_path(folder)))
}

// The path of a folder's journal.
fn journal_path(alloc: Global, folder: &str) -> Result<PathBuf, AllocError>
    ensures { IfOk result (λ path. path_buf_bytes path ≡ path_in folder.now t.Script) }
{
    Path::new(folder).join(alloc, "script.csv")
}

// How a journal is opened: to be appended to, and it is made if it is not there.
fn to_append() -> OpenOptions
    ensures { result ≡ with_create (with_append new_options true) true }
{
    let mut how = OpenOptions::new();
    how.append(true);
    how.create(true);
    how
}

// The journal of a folder, opened.
fn open_journal<R: Files>(
    files: &R,
    alloc: Global,
    folder: &str,
) -> io::Result<JournalFile<R::File>> {
    let path = journal_path(alloc, folder)?;
    Ok(JournalFile::new(to_append().open(files, path.as_str())?))
}

// Makes the names in a folder durable that is locked.
fn sync_folder<F: OpenFile>(lock: &Lock<F>) -> io::Result<()>
    ensures { OnOk result (has_handle lock.now ≡ true) }
{
    match lock {
        Lock::Held(handle) => handle.sync_all(),
        Lock::Free | Lock::Absent => Err(io::Error::from(ErrorKind::NotFound)),
    }
}

/// A folder of the operating system that an order desk is opened on. What its calls answered is told: whether it is
/// locked, its journal was opened and its names are durable, how often another desk had the lock, and how many calls
/// failed, of the folder or of its journal.
#[derive(Drop)]
pub struct DeskFolder<'a, R> {
    files: &'a R,
    alloc: Global,
    path: &'a str,
    lock: Lock<File>,
    is_opened: bool,
    is_lasting: bool,
    in_use: u64,
    failures: u64,
}

impl<'a, R> DeskFolder<'a, R> {
    ghost use Rattle.std.specs.Prelude.{◌≡◌};
    ghost use Rattle.mrp_open.specs.Disk.{opening_of, path_of};
    ghost use Rattle.mrp_open.specs.Opening.{HasFailed, unopened, with_failure};

    /// A folder of which no call was made yet.
    pub fn new(files: &'a R, alloc: Global, path: &'a str) -> DeskFolder<'a, R>
        ensures path { path_of result ≡ path.now }
        ensures unopened { opening_of result ≡ unopened }
    {
        DeskFolder {
            files,
            alloc,
            path,
            lock: Lock::Free,
            is_opened: false,
            is_lasting: false,
            in_use: 0,
            failures: 0,
        }
    }

    /// Its path.
    pub fn path(&self) -> &'a str
        ensures { result.now ≡ path_of self.now }
    {
        self.path
    }

    // Counts a call that failed.
    pub(crate) fn fail(&mut self)
        ensures counted { opening_of self.new ≡ with_failure (opening_of self.old) }
        ensures failed { HasFailed (opening_of self.old) (opening_of self.new) }
        ensures unopened { (opening_of self.new).is_opened ≡ (opening_of self.old).is_opened }
        ensures path { path_of self.new ≡ path_of self.old }
    {
        self.failures = self.failures.saturating_add(1);
    }
}

impl<'a, R: Files<File = File>> DeskFolder<'a, R> {
    ghost use Rattle.std.specs.Prelude.{◌≡◌, IfOk, OnErr, OnOk, true};
    ghost use Rattle.mrp_open.specs.Disk.{KeepsLock, TellsLock, is_taken, opening_of, path_of};
    ghost use Rattle.mrp_open.specs.Opening.{HasFailed};

    /// Takes the numbers of closed standard streams, so that no file of the folder gets one, and what is written to a
    /// stream never gets into a file. They are held as long as the handles.
    ///
    /// Errors: a handle could not be opened.
    pub fn hold_streams(&mut self) -> Result<[File; 3], LockFault>
        ensures sound { OnOk result (opening_of self.new ≡ opening_of self.old) }
        ensures failed { OnErr result (HasFailed (opening_of self.old) (opening_of self.new)) }
        ensures unopened { (opening_of self.new).is_opened ≡ (opening_of self.old).is_opened }
        ensures path { path_of self.new ≡ path_of self.old }
    {
        match open_null(self.files) {
            Ok(handles) => Ok(handles),
            Err(_) => {
                self.fail();
                Err(LockFault::Read)
            }
        }
    }

    // Keeps the lock that was taken, or counts why there is none.
    fn keep_lock(&mut self, locked: Result<Lock<File>, LockFault>) -> Result<(), LockFault>
        requires { IfOk locked (λ lock. is_taken lock ≡ true) }
        ensures kept { KeepsLock locked self.new result }
        ensures told { TellsLock (opening_of self.old) (opening_of self.new) result }
        ensures unopened { (opening_of self.new).is_opened ≡ (opening_of self.old).is_opened }
        ensures path { path_of self.new ≡ path_of self.old }
    {
        match locked {
            Ok(lock) => {
                self.lock = lock;
                Ok(())
            }
            Err(LockFault::InUse) => {
                self.in_use = self.in_use.saturating_add(1);
                Err(LockFault::InUse)
            }
            Err(LockFault::Read) => {
                self.fail();
                Err(LockFault::Read)
            }
        }
    }

    /// Takes its lock, without waiting, if there is such a folder. The lock goes with this value.
    ///
    /// Errors: `InUse` if another process has the lock; `Read` if the folder can't be opened or locked.
    pub fn lock(&mut self) -> Result<(), LockFault>
        ensures told { TellsLock (opening_of self.old) (opening_of self.new) result }
        ensures unopened { (opening_of self.new).is_opened ≡ (opening_of self.old).is_opened }
        ensures path { path_of self.new ≡ path_of self.old }
    {
        let locked = lock_folder(self.files, self.path);
        self.keep_lock(locked)
    }
}

// No contract can say which bytes the operating system keeps.
impl<'a, R: Files<File = File>> JournalPlace for DeskFolder<'a, R> {
    ghost use Rattle.std.specs.Prelude.{None};
    ghost use Rattle.mrp_open.specs.Disk.{opening_of};

    type Journal = JournalFile<File>;

    ghost left = { λ _. None };

    ghost opening = { λ folder. opening_of folder };

    fn open_journal(&mut self) -> Result<JournalFile<File>, Ending> {
        match open_journal(self.files, self.alloc, self.path) {
            Ok(journal) => {
                self.is_opened = true;
                self.is_lasting = false;
                Ok(journal)
            }
            Err(error) if error.kind() == ErrorKind::OutOfMemory => Err(Ending::NoMemory),
            Err(_) => {
                self.fail();
                Err(Ending::Write)
            }
        }
    }

    fn count_failed(&mut self, _journal: &JournalFile<File>) {
        self.fail();
    }

    fn take_back(&mut self, _journal: JournalFile<File>) {}

    fn sync_names(&mut self) -> Result<(), Ending> {
        match sync_folder(&self.lock) {
            Ok(()) => {
                self.is_lasting = true;
                Ok(())
            }
            Err(_) => {
                self.fail();
                Err(Ending::Write)
            }
        }
    }
}

/// Whether a folder has a file with a name.
///
/// Errors: `NoMemory` if an allocation fails.
pub fn has_file<F: FileStore>(
    files: &F,
    alloc: Global,
    folder: &str,
    name: &str,
) -> Result<bool, NoMemory>
    ensures { IfOk result (IsThere (F.known files.now) (path_join folder.now name.now)) }
{
    let path = Path::new(folder).join(alloc, name)?;
    Ok(files.can_be_opened(path.as_str()))
}
