//! Making the page of a day, as the words of the command line ask.

ghost use Rattle.std.specs.Prelude.{◌≡◌, ℕ, List, Err, IfErr, IfOk, OnOk, Some, false, option_map, string_bytes};
ghost use Rattle.std.specs.Io.KnownBytes.{Appends};
ghost use Rattle.mrp_rows.specs.Told.{inner_of};
ghost use Rattle.mrp_rows.specs.Streams.{WritesFront};
ghost use Rattle.mrp_report.specs.Written.{HasGivenUp, HasGoneOn};
ghost use Rattle.mrp_page.specs.Reading.{HasStopped, IsNoDay, is_write_fault};
ghost use Rattle.std.specs.Option.{option_copied};
ghost use Rattle.mrp_commands.specs.PageEnds.{AskedPageEnds, BundlePageEnds, FolderPageEnds, IsOfOthersBy, IsPageBy, LacksRunBy, PageEnds, TablesPageEnds, names_in, title_of};

use crate::ending::Ending;
use mrp_facts::Facts;
use mrp_page::{ItemNames, PageFault, PageOptions, write_page};
use mrp_qty::NoMemory;
use mrp_rows::{Told, WRITE_TRIES};
use mrp_script::open_shop;
use mrp_tables::Tables;
use mrp_words::{FileStore, PageWords, read_folder};
use std::alloc::Global;
use std::io::{Read, Write};
use std::thread::Threads;

// The names of the items that are asked for.
fn names_in(alloc: Global, items: &Option<String>) -> Result<ItemNames, NoMemory>
    ensures { IfOk result (λ names. names ≡ names_in (option_map string_bytes items.now)) }
{
    match items {
        Some(line) => ItemNames::read(alloc, line.as_bytes()),
        None => Ok(ItemNames::new(alloc)),
    }
}

// The title that is asked for.
fn title_of(title: &Option<String>) -> &str
    ensures { result.now ≡ title_of (option_map string_bytes title.now) }
{
    match title {
        Some(title) => title.as_str(),
        None => "Plan",
    }
}

// Writes the page of the day on an input, with what its tables say if they are given.
fn write_asked<R: Read, W: Write>(
    alloc: Global,
    words: &PageWords,
    tables: Option<&Facts<'_>>,
    input: &mut Told<R>,
    output: &mut Told<W>,
) -> Result<(), PageFault>
    ensures whole { OnOk result ((text : List ℕ) → R.remaining (inner_of input.old) ≡ Some text → IsPageBy words.now (option_copied tables.entry) text (λ page. Appends (W.contents (inner_of output.old)) (W.contents (inner_of output.new)) page)) }
    ensures gone_on { OnOk result (HasGoneOn output.old output.new WRITE_TRIES) }
    ensures wrong { result ≡ Err PageFault.Shape → (text : List ℕ) → R.remaining (inner_of input.old) ≡ Some text → IsNoDay text }
    ensures run { result ≡ Err PageFault.NoRun → (text : List ℕ) → R.remaining (inner_of input.old) ≡ Some text → LacksRunBy words.now text }
    ensures tables { result ≡ Err PageFault.Tables → (text : List ℕ) → R.remaining (inner_of input.old) ≡ Some text → IsOfOthersBy words.now (option_copied tables.entry) text }
    ensures stopped { result ≡ Err PageFault.Read → HasStopped input.old input.new }
    ensures untouched { IfErr result (λ fault. is_write_fault fault ≡ false → output.new ≡ output.old) }
    ensures gave_up { result ≡ Err PageFault.Write → HasGivenUp output.old output.new WRITE_TRIES }
    ensures front { result ≡ Err PageFault.Write → (text : List ℕ) → R.remaining (inner_of input.old) ≡ Some text → IsPageBy words.now (option_copied tables.entry) text (λ page. WritesFront (W.contents (inner_of output.old)) (W.contents (inner_of output.new)) page) }
{
    let names = names_in(alloc, &words.items)?;
    let slices = names.slices(alloc)?;
    let options = PageOptions {
        title: title_of(&words.title).as_bytes(),
        run: words.run,
        items: slices.as_slice(),
        tables,
    };
    write_page(alloc, input, &options, output)
}

// Makes the page of the day on an input, with what its tables say if they are given.
fn make_page_with<R: Read, W: Write>(
    alloc: Global,
    words: &PageWords,
    tables: Option<&Facts<'_>>,
    input: &mut Told<R>,
    output: &mut Told<W>,
) -> Ending
    ensures { PageEnds words.now (option_copied tables.entry) R.remaining W.contents input.old input.new output.old output.new result }
{
    Ending::of_page(write_asked(alloc, words, tables, input, output))
}

// Makes the page of the day on an input, with what tables say.
fn make_page_of_tables<R: Read, W: Write>(
    alloc: Global,
    tables: &Tables,
    words: &PageWords,
    input: &mut Told<R>,
    output: &mut Told<W>,
) -> Ending
    ensures { TablesPageEnds words.now tables.now R.remaining W.contents input.old input.new output.old output.new result }
{
    match Facts::of(alloc, tables) {
        Ok(facts) => make_page_with(alloc, words, Some(&facts), input, output),
        Err(_) => Ending::NoMemory,
    }
}

// Makes the page of the day on an input, with what the tables of a bundle say.
fn make_page_of_bundle<R: Read, W: Write>(
    rt: &impl Threads,
    alloc: Global,
    bundle: &[u8],
    words: &PageWords,
    input: &mut Told<R>,
    output: &mut Told<W>,
) -> Ending
    ensures { BundlePageEnds words.now bundle.now R.remaining W.contents input.old input.new output.old output.new result }
{
    match open_shop(rt, alloc, bundle) {
        Ok(shop) => make_page_of_tables(alloc, shop.tables(), words, input, output),
        Err(fault) => Ending::of_open(alloc, &fault),
    }
}

// Makes the page of the day on an input, with what the tables of a folder's files say.
fn make_page_of_folder<F: FileStore, R: Read, W: Write>(
    rt: &impl Threads,
    alloc: Global,
    files: &F,
    folder: &str,
    words: &PageWords,
    input: &mut Told<R>,
    output: &mut Told<W>,
) -> Ending
    ensures { FolderPageEnds (F.known files.now) folder.now words.now R.remaining W.contents input.old input.new output.old output.new result }
{
    match read_folder(files, alloc, folder) {
        Ok(bundle) => { make_page_of_bundle(rt, alloc, bundle.as_slice(), words, input, output) }
        Err(fault) => Ending::of_read(fault),
    }
}

/// Makes the page of the day on an input, with what the tables of a folder's files say if one is named, and
/// returns how that ended. The folder is read first.
pub fn make_page<F: FileStore, R: Read, W: Write>(
    rt: &impl Threads,
    alloc: Global,
    files: &F,
    words: &PageWords,
    input: &mut Told<R>,
    output: &mut Told<W>,
) -> Ending
    ensures { AskedPageEnds (F.known files.now) words.now (option_map string_bytes words.now.folder) R.remaining W.contents input.old input.new output.old output.new result }
{
    match &words.folder {
        Some(folder) => make_page_of_folder(rt, alloc, files, folder, words, input, output),
        None => make_page_with(alloc, words, None, input, output),
    }
}
