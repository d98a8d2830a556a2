//! A bundle as the files of a folder.

ghost use Rattle.std.specs.Prelude.{◌≡◌, ◌≤◌, ◌<◌, ◌+◌, ◌++◌, ◌∷◌, [], Err, IfErr, IfOk, IfSome, OnOk, length, map, option_map, vec_len};
ghost use Rattle.std.specs.Result.{result_map_both};
ghost use Rattle.std.specs.Path.{path_buf_bytes};
ghost use Rattle.mrp_rows.specs.Joined.{joined, section_bytes, section_of};
ghost use Rattle.mrp_rows.specs.declared.streams.ReadFault.TheVariants as read;
ghost use Rattle.mrp_words.specs.Folder.{AreParts, HasTooMuch, IsAt, IsReadFrom, IsThere, IsTooLongAt, Known, is_absent, nothing_known, path_in};

use mrp_qty::NoMemory;
use mrp_rows::{GREATEST_BUNDLE, READ_CALLS, ReadFault, Table, Told, join_bundle, read_within};
use std::alloc::{AllocError, Global};
use std::fs::File;
use std::io::ErrorKind;
use std::path::{Path, PathBuf};
use std::rt::Files;

// The tables, in the order of a bundle.
const TABLES: [Table; 9] = [
    Table::Calendar,
    Table::Items,
    Table::Centres,
    Table::Stock,
    Table::Receipts,
    Table::Bills,
    Table::Routings,
    Table::Master,
    Table::Script,
];

/// Files that are read whole.
pub trait FileStore {
    ghost known: { Self → Known };

    /// The bytes of the file at a path, at most `most`; `None` if there is no such file.
    ///
    /// Errors: `Read` if the file exists and cannot be read, or has more bytes; `NoMemory` if an
    /// allocation fails.
    fn read_file(
        &self,
        alloc: Global,
        path: &str,
        most: usize,
    ) -> Result<Option<Vec<u8>>, ReadFault>
        ensures bytes { IfOk result (λ file. IsAt (known self.now) path.now (option_map (λ bytes. bytes.items) file)) }
        ensures within { IfOk result (λ file. IfSome file (λ bytes. vec_len bytes ≤ most)) }
        ensures past { result ≡ Err read.Read → IsTooLongAt (known self.now) path.now most };

    /// Whether the file at a path can be opened.
    fn can_be_opened(&self, path: &str) -> bool
        ensures { IsThere (known self.now) path.now result };
}

// Whether a file cannot be opened because it does not exist, or its folder does not.
fn is_absent(kind: ErrorKind) -> bool
    ensures { result ≡ is_absent kind }
{
    matches!(kind, ErrorKind::NotFound | ErrorKind::NotADirectory)
}

// No contract can say which bytes the files of the operating system have.
impl<F: Files> FileStore for F {
    ghost known = { λ _. nothing_known };

    fn read_file(
        &self,
        alloc: Global,
        path: &str,
        most: usize,
    ) -> Result<Option<Vec<u8>>, ReadFault> {
        match File::open(self, path) {
            Ok(file) => {
                let mut file = Told::new(file);
                Ok(Some(read_within(alloc, &mut file, most, READ_CALLS)?))
            }
            Err(error) if is_absent(error.kind()) => Ok(None),
            Err(_) => Err(ReadFault::Read),
        }
    }

    fn can_be_opened(&self, path: &str) -> bool {
        File::open(self, path).is_ok()
    }
}

// The path of a table's file in a folder: `items.csv` and so on.
fn path_of(alloc: Global, folder: &str, table: Table) -> Result<PathBuf, AllocError>
    ensures { IfOk result (λ path. path_buf_bytes path ≡ path_in folder.now table) }
{
    let name = table.name();
    let file = format!(in alloc; "{name}.csv")?;
    Path::new(folder).join(alloc, file)
}

// The bytes of a table's file, at most `most`; `None` if there is no such file.
fn read_table<F: FileStore>(
    files: &F,
    alloc: Global,
    folder: &str,
    table: Table,
    most: usize,
) -> Result<Option<Vec<u8>>, ReadFault>
    ensures bytes { IfOk result (λ file. IsAt (F.known files.now) (path_in folder.now table) (option_map (λ bytes. bytes.items) file)) }
    ensures within { IfOk result (λ file. IfSome file (λ bytes. vec_len bytes ≤ most)) }
    ensures past { result ≡ Err read.Read → IsTooLongAt (F.known files.now) (path_in folder.now table) most }
{
    let path = path_of(alloc, folder, table)?;
    files.read_file(alloc, path.as_str(), most)
}

// Appends a table with its bytes.
fn push_table(
    tables: &mut Vec<(Table, Vec<u8>)>,
    table: Table,
    bytes: Vec<u8>,
) -> Result<(), ReadFault>
    ensures pushed { OnOk result (tables.new.items ≡ tables.old.items ++ (table, bytes) ∷ []) }
    ensures memory { IfErr result (λ fault. fault ≡ read.NoMemory) }
{
    match tables.push((table, bytes)) {
        Ok(()) => Ok(()),
        Err(_) => Err(ReadFault::NoMemory),
    }
}

// How many of the bytes that a bundle may still have are left after a table's section.
//
// Errors: `Read` if the section has more.
#[tactic(auto, using(crate::proofs::Folders::section_length))]
fn left_by(left: usize, table: Table, bytes: &[u8]) -> Result<usize, ReadFault>
    ensures leaves { IfOk result (λ rest. rest + length (section_bytes (section_of (table, bytes.now))) ≡ left) }
    ensures past { IfErr result (λ fault. (fault ≡ read.Read) × (left < length (section_bytes (section_of (table, bytes.now))))) }
{
    // Two brackets and two line feeds.
    let frame = table.name().len() + 4;
    match left.checked_sub(bytes.len()) {
        Some(rest) if rest >= frame => Ok(rest - frame),
        _ => Err(ReadFault::Read),
    }
}

/// The tables that have a file in a folder, in the order of the tables, each with its bytes. Their sections
/// together have at most as many bytes as a bundle may have.
///
/// Errors, at the first file that has one: `Read` if a file exists and cannot be read, or makes the bundle of
/// the files so far longer than 67,108,864 bytes; `NoMemory` if an allocation fails.
pub fn read_tables<F: FileStore>(
    files: &F,
    alloc: Global,
    folder: &str,
) -> Result<Vec<(Table, Vec<u8>)>, ReadFault>
    ensures parts { IfOk result (λ tables. AreParts (F.known files.now) folder.now (map (λ part. (part.0, part.1.items)) tables.items)) }
    ensures past { result ≡ Err read.Read → HasTooMuch (F.known files.now) folder.now }
{
    let mut left = GREATEST_BUNDLE;
    let mut tables = Vec::new(alloc);
    for table in TABLES {
        let file = read_table(files, alloc, folder, table, left)?;
        if let Some(bytes) = file {
            left = left_by(left, table, bytes.as_slice())?;
            push_table(&mut tables, table, bytes)?;
        }
    }
    Ok(tables)
}

/// The bundle of tables with their bytes, in the order given: for each its section line, as `[items]`, its
/// bytes and a line feed.
///
/// Errors: `NoMemory` if an allocation fails.
pub fn join_tables(alloc: Global, tables: &[(Table, Vec<u8>)]) -> Result<Vec<u8>, NoMemory>
    ensures { IfOk result (λ bundle. bundle.items ≡ joined (map (λ part. (part.0, part.1.items)) tables.now)) }
{
    let mut parts = Vec::with_capacity(alloc, tables.len())?;
    for (table, bytes) in tables {
        parts.push((*table, bytes.as_slice()))?;
    }
    join_bundle(alloc, &parts)
}

/// The bundle of a folder's files `calendar.csv`, `items.csv` and so on: a section for each file
/// that exists, in the order of the tables.
///
/// Errors, at the first file that has one: `Read` if a file exists and cannot be read, or makes the bundle of
/// the files so far longer than 67,108,864 bytes; `NoMemory` if an allocation fails.
pub fn read_folder<F: FileStore>(
    files: &F,
    alloc: Global,
    folder: &str,
) -> Result<Vec<u8>, ReadFault>
    ensures { IsReadFrom (F.known files.now) folder.now (result_map_both (λ bundle. bundle.items) (λ fault. fault) result) }
{
    let tables = read_tables(files, alloc, folder)?;
    match join_tables(alloc, &tables) {
        Ok(bundle) => Ok(bundle),
        Err(NoMemory) => Err(ReadFault::NoMemory),
    }
}
