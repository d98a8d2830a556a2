//! The start of a desk, up to the first change of its folder.

ghost use Rattle.std.specs.Prelude.{◌≡◌, ◌⊎◌, Err, Some, None, true, false, IfErr, IfOk, IsTrue, OnOk, option_map};
ghost use Rattle.std.specs.Path.{path_buf_bytes};
ghost use Rattle.mrp_rows.specs.declared.fault.Table.TheVariants as t;
ghost use Rattle.mrp_rows.specs.declared.streams.ReadFault.TheVariants as read;
ghost use Rattle.mrp_rows.specs.Next.{columns_fault};
ghost use Rattle.mrp_words.specs.Folder.{IsAt, IsTooLongAt};
ghost use Rattle.mrp_commands.specs.Refusal.{TellsFault};
ghost use Rattle.mrp_commands.specs.declared.ending.Ending.TheVariants as ending;
ghost use Rattle.mrp_open.specs.Start.{AnswersJournal, AreUnchanged, FailsToOpen, HasOtherSum, IsPrepared, TakesNoMore, TellsRefused, sum_path};
ghost use Rattle.mrp_script.specs.Opened.{IsAccepted};

use crate::finding::{Found, find};
use mrp_bill::Shop;
use mrp_calls::OpenDesk;
use mrp_commands::Ending;
use mrp_item::ShopRows;
use mrp_qty::NoMemory;
use mrp_rows::faults::COLUMNS;
use mrp_rows::{Fault, ReadFault, Table, fault_text};
use mrp_script::open_shop;
use mrp_words::FileStore;
use std::alloc::{AllocError, Global};
use std::path::{Path, PathBuf};
use std::sync::Arc;
use std::thread::Threads;

/// The name of the file that has the sum of the tables.
pub const SUM_NAME: &str = "desk.tables";

/// The most bytes of a file of sums that are read.
pub const MOST_SUM: usize = 4_096;

/// What a folder has, and its shop. Nothing of the folder was changed.
#[derive(Drop)]
pub struct Prepared {
    /// What the folder has.
    pub found: Found,
    /// The rows of its shop.
    pub rows: Arc<ShopRows>,
}

// A shop with its rows.
fn rows_of(alloc: Global, shop: Shop) -> Result<Arc<ShopRows>, NoMemory>
    ensures { IfOk result (λ rows. rows.value ≡ shop) }
{
    ShopRows::of(alloc, Arc::new(alloc, shop)?)
}

// What a folder has, with its shop.
fn prepared_with(alloc: Global, found: Found, shop: Shop) -> Result<Prepared, Ending>
    ensures found { IfOk result (λ prepared. prepared.found ≡ found) }
    ensures tables { IfOk result (λ prepared. prepared.rows.value.tables ≡ shop.tables) }
    ensures memory { IfErr result (λ end. end ≡ ending.NoMemory) }
{
    match rows_of(alloc, shop) {
        Ok(rows) => Ok(Prepared { found, rows }),
        Err(NoMemory) => Err(Ending::NoMemory),
    }
}

// Opens the shop of what a folder has, whose bundle this is.
fn open_found(
    rt: &impl Threads,
    alloc: Global,
    found: Found,
    bundle: &[u8],
) -> Result<Prepared, Ending>
    ensures found { IfOk result (λ prepared. prepared.found ≡ found) }
    ensures accepted { IfOk result (λ prepared. IsAccepted bundle.now prepared.rows.value.tables) }
    ensures refused { IfErr result (TellsRefused bundle.now) }
{
    match open_shop(rt, alloc, bundle) {
        Ok(shop) => prepared_with(alloc, found, shop),
        Err(fault) => Err(Ending::of_open(alloc, &fault)),
    }
}

/// Reads the tables of a folder, and opens its shop.
///
/// Errors: how the desk ends.
pub fn prepare<F: FileStore>(
    rt: &impl Threads,
    alloc: Global,
    files: &F,
    folder: &str,
) -> Result<Prepared, Ending>
    ensures prepared { IfOk result (λ prepared. IsPrepared (F.known files.now) folder.now prepared.found prepared.rows.value.tables) }
    ensures unopened { IfErr result (FailsToOpen (F.known files.now) folder.now) }
{
    match find(files, alloc, folder) {
        Ok((found, bundle)) => open_found(rt, alloc, found, &bundle),
        Err(fault) => Err(Ending::of_read(fault)),
    }
}

// How a desk ends whose journal takes no record behind its last one.
fn no_more(alloc: Global, last: u32) -> Ending
    ensures { TellsFault (columns_fault t.Script last) result }
{
    let fault = Fault {
        code: COLUMNS,
        table: Table::Script,
        row: last,
    };
    Ending::of_text(fault_text(alloc, &fault))
}

/// Answers the calls of the journal of a folder that was prepared.
///
/// Errors: how the desk ends.
pub fn answer_journal(alloc: Global, prepared: &Prepared) -> Result<OpenDesk<'_>, Ending>
    ensures answers { IfOk result (AnswersJournal prepared.now.rows.value.tables prepared.now.found.room) }
    ensures takes { OnOk result (IsTrue prepared.now.found.takes_records) }
    ensures closed { IfErr result (TakesNoMore prepared.now.rows.value.tables prepared.now.found.takes_records) }
{
    match OpenDesk::open(alloc, prepared.rows.shop(), prepared.found.room) {
        Ok(desk) => {
            let records = desk.entries().len();
            if prepared.found.takes_records {
                Ok(desk)
            } else {
                Err(no_more(alloc, records as u32))
            }
        }
        Err(NoMemory) => Err(Ending::NoMemory),
    }
}

// The path of the file that has the sum of a folder's tables.
fn sum_path(alloc: Global, folder: &str) -> Result<PathBuf, AllocError>
    ensures { IfOk result (λ path. path_buf_bytes path ≡ sum_path folder.now) }
{
    Path::new(folder).join(alloc, SUM_NAME)
}

// The text of that file; `None` if there is no such file.
fn read_sum<F: FileStore>(
    files: &F,
    alloc: Global,
    folder: &str,
) -> Result<Option<Vec<u8>>, ReadFault>
    ensures file { IfOk result (λ file. IsAt (F.known files.now) (sum_path folder.now) (option_map (λ bytes. bytes.items) file)) }
    ensures past { result ≡ Err read.Read → IsTooLongAt (F.known files.now) (sum_path folder.now) MOST_SUM }
{
    let path = sum_path(alloc, folder)?;
    files.read_file(alloc, path.as_str(), MOST_SUM)
}

/// Whether the sum of a folder's tables stands in it already: never before its first record.
///
/// Errors: how the desk ends, where there are records and another sum stands there.
pub fn is_sealed<F: FileStore>(
    files: &F,
    alloc: Global,
    folder: &str,
    records: usize,
    sum: &str,
) -> Result<bool, Ending>
    ensures sealed { IfOk result (λ sealed. sealed ≡ true → IsAt (F.known files.now) (sum_path folder.now) (Some sum.now)) }
    ensures open { IfOk result (λ sealed. sealed ≡ false → (records ≡ 0) ⊎ IsAt (F.known files.now) (sum_path folder.now) None) }
    ensures unchanged { OnOk result (AreUnchanged (F.known files.now) folder.now records sum.now) }
    ensures other { IfErr result (HasOtherSum (F.known files.now) folder.now records sum.now) }
{
    if records == 0 {
        return Ok(false);
    }
    match read_sum(files, alloc, folder) {
        Ok(Some(text)) => {
            if text.as_slice() == sum.as_bytes() {
                Ok(true)
            } else {
                Err(Ending::TablesChanged)
            }
        }
        Ok(None) => Ok(false),
        Err(fault) => Err(Ending::of_read(fault)),
    }
}
