//! The beginning of a desk: the calls of its journal are answered, and its journal is begun and gets its seal.

ghost use Rattle.std.specs.Prelude.{◌≡◌, ◌⊎◌, None, Some, false, true, IfErr, IfOk, IfSome, IsTrue, OnOk, codes, length, string_bytes};
ghost use Rattle.std.specs.Int.{IsInRange};
ghost use Rattle.mrp_journal.specs.Journal.{IsFound};
ghost use Rattle.mrp_folder.specs.Disk.{part_of, path_of as folder_path};
ghost use Rattle.mrp_folder.specs.Sealed.{folder_of, has_seal, journal_of, name_of, text_of};
ghost use Rattle.mrp_engine.specs.declared.day.run.TheConstants.{MOST_WORKERS};
ghost use Rattle.mrp_words.specs.Folder.{IsAt};
ghost use Rattle.mrp_commands.specs.declared.ending.Ending.TheVariants as ending;
ghost use Rattle.mrp_open.specs.Ends.{FailsToBegin, begun_held, cut_of};
ghost use Rattle.mrp_open.specs.Opening.{IsUntouched, IsUnwritten, lasting, with_journal};
ghost use Rattle.mrp_open.specs.Start.{AnswersJournal, AreUnchanged, sum_path};

use crate::opening::{begin_journal, cut_number};
use crate::place::JournalPlace;
use crate::start::{Prepared, SUM_NAME, answer_journal, is_sealed};
use mrp_calls::OpenDesk;
use mrp_commands::Ending;
use mrp_engine::MOST_WORKERS;
use mrp_folder::{DiskFolder, SealedJournal};
use mrp_journal::Store;
use mrp_qty::NoMemory;
use mrp_runs::RunMaker;
use mrp_words::FileStore;
use std::alloc::Global;
use std::rt::Files;

// The name that the file of the sum is begun with.
const SUM_PART: &str = "desk.part";

/// An order desk whose journal was begun.
#[derive(Drop)]
pub struct BegunDesk<'a, R, S> {
    /// The desk. The calls of the journal are answered.
    pub desk: OpenDesk<'a>,
    /// The journal, durable, as it is begun, and its seal.
    pub journal: SealedJournal<'a, S, DiskFolder<'a, R>>,
    /// The maker of the shop's runs.
    pub maker: RunMaker<'a>,
    /// The record that half a line would have been that was cut off: 0 for the header.
    pub cut: Option<u64>,
}

// The maker of a shop's runs.
fn maker_of<'a>(
    alloc: Global,
    prepared: &'a Prepared,
    workers: usize,
) -> Result<RunMaker<'a>, Ending>
    requires { IsInRange 1 MOST_WORKERS workers }
    ensures maker { IfOk result (λ maker. maker ≡ prepared.now.rows.value.tables) }
    ensures memory { IfErr result (λ end. end ≡ ending.NoMemory) }
{
    match RunMaker::of(alloc, &prepared.rows, workers) {
        Ok(maker) => Ok(maker),
        Err(NoMemory) => Err(Ending::NoMemory),
    }
}

// A journal whose seal is the file `desk.tables` of its folder: that is put there before anything is appended.
fn seal_journal<'a, R: Files, S: Store>(
    rt: &'a R,
    alloc: Global,
    folder: &'a str,
    journal: S,
    sum: &'a str,
    is_sealed: bool,
) -> SealedJournal<'a, S, DiskFolder<'a, R>>
    ensures journal { journal_of result ≡ journal }
    ensures folder { folder_path (folder_of result) ≡ folder.now }
    ensures part { part_of (folder_of result) ≡ codes "desk.part" }
    ensures name { name_of result ≡ codes "desk.tables" }
    ensures text { text_of result ≡ sum.now }
    ensures sealed { has_seal result ≡ is_sealed }
{
    let sums = DiskFolder::new(rt, alloc, folder, SUM_PART);
    SealedJournal::new(journal, sums, sum.as_bytes(), SUM_NAME, is_sealed)
}

/// Begins the desk of a folder that was prepared. Before the first record, the sum of its tables is put into its file
/// `desk.tables`.
///
/// Errors: how the desk ends. The journal is then as it was; or a write has failed, and it is what a crash may leave while
/// it begins.
pub fn begin_desk<'a, F: FileStore, R: Files, P: JournalPlace>(
    files: &F,
    rt: &'a R,
    alloc: Global,
    folder: &'a str,
    place: &mut P,
    prepared: &'a Prepared,
    workers: usize,
) -> Result<BegunDesk<'a, R, P::Journal>, Ending>
    requires workers { IsInRange 1 MOST_WORKERS workers }
    requires left { IfSome (P.left place.old) (IsFound prepared.now.found.script.items) }
    ensures desk { IfOk result (λ begun. AnswersJournal prepared.now.rows.value.tables prepared.now.found.room begun.desk) }
    ensures maker { IfOk result (λ begun. begun.maker ≡ prepared.now.rows.value.tables) }
    ensures takes { OnOk result (IsTrue prepared.now.found.takes_records) }
    ensures cut { IfOk result (λ begun. begun.cut ≡ cut_of prepared.now.found (length begun.desk.entries)) }
    ensures sum { IfOk result (λ begun. text_of begun.journal ≡ string_bytes prepared.now.found.sum) }
    ensures name { IfOk result (λ begun. name_of begun.journal ≡ codes "desk.tables") }
    ensures folder { IfOk result (λ begun. folder_path (folder_of begun.journal) ≡ folder.now) }
    ensures part { IfOk result (λ begun. part_of (folder_of begun.journal) ≡ codes "desk.part") }
    ensures begun { IfOk result (λ begun. P.Journal.held (journal_of begun.journal) ≡ begun_held prepared.now.found (P.left place.old)) }
    ensures lasts { OnOk result (P.opening place.new ≡ lasting (with_journal (P.opening place.old))) }
    ensures held { (P.opening place.new).is_held ≡ (P.opening place.old).is_held }
    ensures sealed { IfOk result (λ begun. has_seal begun.journal ≡ true → IsAt (F.known files.now) (sum_path folder.now) (Some (string_bytes prepared.now.found.sum))) }
    ensures unsealed { IfOk result (λ begun. has_seal begun.journal ≡ false → (length begun.desk.entries ≡ 0) ⊎ IsAt (F.known files.now) (sum_path folder.now) None) }
    ensures unchanged { IfOk result (λ begun. AreUnchanged (F.known files.now) folder.now (length begun.desk.entries) (string_bytes prepared.now.found.sum)) }
    ensures untouched { IfErr result (IsUntouched (P.opening place.old) (P.opening place.new)) }
    ensures unwritten { IfErr result (IsUnwritten prepared.now.found (P.left place.old) (P.left place.new)) }
    ensures unbegun { IfErr result (FailsToBegin (P.opening place.old) (P.opening place.new) (F.known files.now) folder.now prepared.now.found prepared.now.rows.value.tables) }
{
    let desk = answer_journal(alloc, prepared)?;
    let records = desk.entries().len();
    let sealed = is_sealed(files, alloc, folder, records, &prepared.found.sum)?;
    let maker = maker_of(alloc, prepared, workers)?;
    let journal = begin_journal(place, &prepared.found)?;
    Ok(BegunDesk {
        desk,
        journal: seal_journal(rt, alloc, folder, journal, &prepared.found.sum, sealed),
        maker,
        cut: cut_number(&prepared.found, records),
    })
}
