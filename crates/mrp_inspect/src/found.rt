//! The files of a folder, and what is there in place of those that are not.

ghost use Rattle.std.specs.Prelude.{◌≡◌, IfOk, is_none};
ghost use Rattle.std.specs.List.{list_all};
ghost use Rattle.std.specs.Path.{path_buf_bytes};
ghost use Rattle.mrp_words.specs.Folder.{IsThere};
ghost use Rattle.mrp_inspect.specs.Found.{AreOthers, Finds, FindsBeside, IsPathKind, IsPathKindIf, IsOther, IsOtherBeside, are_none, has_part, is_bare, other_path, own_path};

use crate::names::{NAMINGS, Naming, other_name};
use crate::piece::same_table;
use crate::stray::TABLES;
use mrp_qty::NoMemory;
use mrp_rows::{ReadFault, Table};
use mrp_words::{FileStore, read_tables};
use std::alloc::{AllocError, Global};
use std::path::{Path, PathBuf};

/// What is at the path of a folder that has none of the tables.
#[derive(Clone, Copy)]
pub enum PathKind {
    /// A folder.
    Folder,
    /// A file.
    File,
    /// Nothing that can be opened.
    Absent,
}

/// The files of a folder, and what is there in place of those that are not.
#[derive(Drop)]
pub struct Found {
    /// The tables that have a file, in the order of the tables, each with its bytes.
    pub tables: Vec<(Table, Vec<u8>)>,
    /// Of each table without a file, the first other name under which there is one, in the order of the tables.
    pub others: Vec<Option<Naming>>,
    /// What is at the folder's path, where no table has a file under any name.
    pub path_kind: PathKind,
}

// The path of a table's file under another name.
fn other_path(
    alloc: Global,
    folder: &str,
    table: Table,
    naming: Naming,
) -> Result<PathBuf, AllocError>
    ensures { IfOk result (λ path. path_buf_bytes path ≡ other_path folder.now table naming) }
{
    let name = other_name(alloc, table, naming)?;
    Path::new(folder).join(alloc, name)
}

// Whether a table's file is there under another name.
fn is_there<F: FileStore>(
    files: &F,
    alloc: Global,
    folder: &str,
    table: Table,
    naming: Naming,
) -> Result<bool, NoMemory>
    ensures { IfOk result (IsThere (F.known files.now) (other_path folder.now table naming)) }
{
    let path = other_path(alloc, folder, table, naming)?;
    Ok(files.can_be_opened(path.as_str()))
}

// The first other name under which a table's file is there.
fn find_other<F: FileStore>(
    files: &F,
    alloc: Global,
    folder: &str,
    table: Table,
) -> Result<Option<Naming>, NoMemory>
    ensures { IfOk result (IsOther (F.known files.now) folder.now table) }
{
    for naming in NAMINGS {
        let there = is_there(files, alloc, folder, table, naming)?;
        if there {
            return Ok(Some(naming));
        }
    }
    Ok(None)
}

// Whether a table has a file.
fn has_part(tables: &[(Table, Vec<u8>)], table: Table) -> bool
    ensures { result ≡ has_part tables.now table }
{
    tables.iter().any(|part| same_table(part.0, table))
}

// The same of a table that has no file.
fn find_beside<F: FileStore>(
    files: &F,
    alloc: Global,
    folder: &str,
    tables: &[(Table, Vec<u8>)],
    table: Table,
) -> Result<Option<Naming>, NoMemory>
    ensures { IfOk result (IsOtherBeside (F.known files.now) folder.now tables.now table) }
{
    if has_part(tables, table) {
        return Ok(None);
    }
    find_other(files, alloc, folder, table)
}

// The same of each table, in the order of the tables.
fn find_others<F: FileStore>(
    files: &F,
    alloc: Global,
    folder: &str,
    tables: &[(Table, Vec<u8>)],
) -> Result<Vec<Option<Naming>>, NoMemory>
    ensures { IfOk result (λ others. AreOthers (F.known files.now) folder.now tables.now others.items) }
{
    let mut others = Vec::with_capacity(alloc, TABLES.len())?;
    for table in TABLES {
        let other = find_beside(files, alloc, folder, tables, table)?;
        others.push(other)?;
    }
    Ok(others)
}

// The path `D/.` of a folder D, at which nothing can be opened where D is a file.
fn own_path(alloc: Global, folder: &str) -> Result<PathBuf, AllocError>
    ensures { IfOk result (λ path. path_buf_bytes path ≡ own_path folder.now) }
{
    Path::new(folder).join(alloc, ".")
}

// Whether there is a folder at a path.
fn is_folder<F: FileStore>(files: &F, alloc: Global, folder: &str) -> Result<bool, NoMemory>
    ensures { IfOk result (IsThere (F.known files.now) (own_path folder.now)) }
{
    let path = own_path(alloc, folder)?;
    Ok(files.can_be_opened(path.as_str()))
}

// What is at the path of a folder.
fn path_kind_of<F: FileStore>(files: &F, alloc: Global, folder: &str) -> Result<PathKind, NoMemory>
    ensures { IfOk result (IsPathKind (F.known files.now) folder.now) }
{
    if folder.is_empty() {
        return Ok(PathKind::Folder);
    }
    let folder_is_there = is_folder(files, alloc, folder)?;
    if folder_is_there {
        return Ok(PathKind::Folder);
    }
    let file_is_there = files.can_be_opened(folder);
    if file_is_there {
        Ok(PathKind::File)
    } else {
        Ok(PathKind::Absent)
    }
}

// Whether no other name was found.
fn is_no_other(others: &[Option<Naming>]) -> bool
    ensures { result ≡ list_all (λ other. is_none other) others.now }
{
    others.iter().all(|other| other.is_none())
}

// Whether no table has a file, under any name.
fn are_none(tables: &[(Table, Vec<u8>)], others: &[Option<Naming>]) -> bool
    ensures { result ≡ are_none tables.now others.now }
{
    tables.is_empty() && is_no_other(others)
}

// The same of what was found.
pub(crate) fn is_bare(found: &Found) -> bool
    ensures { result ≡ is_bare found.now }
{
    are_none(found.tables.as_slice(), found.others.as_slice())
}

// What is at the path of a folder, if no table has a file, under any name.
fn path_kind_if<F: FileStore>(
    files: &F,
    alloc: Global,
    folder: &str,
    bare: bool,
) -> Result<PathKind, NoMemory>
    ensures { IfOk result (IsPathKindIf bare (F.known files.now) folder.now) }
{
    if bare {
        path_kind_of(files, alloc, folder)
    } else {
        Ok(PathKind::Folder)
    }
}

// What is there in place of the files that a folder does not have.
fn find_rest<F: FileStore>(
    files: &F,
    alloc: Global,
    folder: &str,
    tables: Vec<(Table, Vec<u8>)>,
) -> Result<Found, NoMemory>
    ensures { IfOk result (λ found. (found.tables ≡ tables) × FindsBeside (F.known files.now) folder.now found) }
{
    let others = find_others(files, alloc, folder, &tables)?;
    let path_kind = path_kind_if(files, alloc, folder, are_none(&tables, &others))?;
    Ok(Found {
        tables,
        others,
        path_kind,
    })
}

/// The files of a folder, `calendar.csv`, `items.csv` and so on. Of those that are not there it is looked
/// whether they are there under another name.
///
/// Errors: `Read` if a file exists and cannot be read, or makes the bundle of the files longer than
/// 67,108,864 bytes; `NoMemory` if an allocation fails.
pub fn find_files<F: FileStore>(files: &F, alloc: Global, folder: &str) -> Result<Found, ReadFault>
    ensures { Finds (F.known files.now) folder.now result }
{
    let tables = read_tables(files, alloc, folder)?;
    match find_rest(files, alloc, folder, tables) {
        Ok(found) => Ok(found),
        Err(NoMemory) => Err(ReadFault::NoMemory),
    }
}
