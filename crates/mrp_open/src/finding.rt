//! What a folder has at a start.

ghost use Rattle.std.specs.Prelude.{◌≡◌, ◌++◌, ◌∷◌, [], Err, IfOk, map};
ghost use Rattle.mrp_rows.specs.declared.fault.Table.TheVariants as t;
ghost use Rattle.mrp_rows.specs.declared.streams.ReadFault.TheVariants as read;
ghost use Rattle.mrp_rows.specs.Joined.{joined};
ghost use Rattle.mrp_journal.specs.Journal.{begun};
ghost use Rattle.mrp_open.specs.Start.{HasFound, IsFoundOf, IsTooLong, TakesScript};

use crate::sum::sum_text;
use mrp_journal::{header_for, takes_records, whole_lines};
use mrp_qty::NoMemory;
use mrp_rows::{GREATEST_BUNDLE, ReadFault, Table};
use mrp_words::{FileStore, join_tables, read_tables};
use std::alloc::Global;

/// What a folder has at a start. Nothing of it was changed.
#[derive(Drop)]
pub struct Found {
    /// The bytes of the journal, whatever stands behind its last whole line.
    pub script: Vec<u8>,
    /// What is to stand behind its whole lines: the header, where no record is left.
    pub header: &'static [u8],
    /// Whether a record can be appended then.
    pub takes_records: bool,
    /// The text of the file `desk.tables` of the other tables.
    pub sum: String,
    /// How many bytes more the folder's bundle may have.
    pub room: usize,
}

// Takes the bytes of the script from tables, of which it is the last if it is there.
fn take_script(alloc: Global, tables: &mut Vec<(Table, Vec<u8>)>) -> Result<Vec<u8>, NoMemory>
    ensures { IfOk result (λ script. TakesScript (map (λ part. (part.0, part.1.items)) tables.old.items) (map (λ part. (part.0, part.1.items)) tables.new.items) script.items) }
{
    match tables.pop() {
        Some((Table::Script, bytes)) => Ok(bytes),
        Some(other) => {
            tables.push(other)?;
            Ok(Vec::new(alloc))
        }
        None => Ok(Vec::new(alloc)),
    }
}

// The journal as it will stand.
fn begun(alloc: Global, script: &[u8], header: &[u8]) -> Result<Vec<u8>, NoMemory>
    ensures { IfOk result (λ journal. journal.items ≡ begun script.now header.now) }
{
    let mut text = Vec::new(alloc);
    text.extend_from_slice(whole_lines(script))?;
    text.extend_from_slice(header)?;
    Ok(text)
}

// The bundle of tables with a journal.
fn bundle_with(
    alloc: Global,
    mut tables: Vec<(Table, Vec<u8>)>,
    journal: Vec<u8>,
) -> Result<Vec<u8>, NoMemory>
    ensures { IfOk result (λ bundle. bundle.items ≡ joined (map (λ part. (part.0, part.1.items)) tables.items ++ (t.Script, journal.items) ∷ [])) }
{
    tables.push((Table::Script, journal))?;
    join_tables(alloc, &tables)
}

// What is found, by a script and the other tables, and the bundle of all.
fn found_in(
    alloc: Global,
    script: Vec<u8>,
    others: Vec<(Table, Vec<u8>)>,
) -> Result<(Found, Vec<u8>), NoMemory>
    ensures { IfOk result (λ found. IsFoundOf (map (λ part. (part.0, part.1.items)) others.items) script.items found.0 found.1.items) }
{
    let sum = sum_text(alloc, &others)?;
    let header = header_for(whole_lines(&script));
    let journal = begun(alloc, &script, header)?;
    let takes_records = takes_records(&journal);
    let bundle = bundle_with(alloc, others, journal)?;
    let found = Found {
        script,
        header,
        takes_records,
        sum,
        room: GREATEST_BUNDLE.saturating_sub(bundle.len()),
    };
    Ok((found, bundle))
}

/// Reads the tables of a folder: what it has, and its bundle with its journal as it will stand.
///
/// Errors: `Read` if a file is there and can't be read, or the bundle of the files, or that with the journal as it will
/// stand, would be longer than 67,108,864 bytes; `NoMemory` if an allocation fails.
pub fn find<F: FileStore>(
    files: &F,
    alloc: Global,
    folder: &str,
) -> Result<(Found, Vec<u8>), ReadFault>
    ensures found { IfOk result (λ found. HasFound (F.known files.now) folder.now found.0 found.1.items) }
    ensures past { result ≡ Err read.Read → IsTooLong (F.known files.now) folder.now }
{
    let mut tables = read_tables(files, alloc, folder)?;
    let Ok(script) = take_script(alloc, &mut tables) else {
        return Err(ReadFault::NoMemory);
    };
    match found_in(alloc, script, tables) {
        Ok((found, bundle)) => {
            if bundle.len() > GREATEST_BUNDLE {
                return Err(ReadFault::Read);
            }
            Ok((found, bundle))
        }
        Err(NoMemory) => Err(ReadFault::NoMemory),
    }
}
