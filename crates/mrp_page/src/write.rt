//! The page of a day.

ghost use Rattle.std.specs.Prelude.{◌≡◌, ◌≢◌, ◌≤◌, ◌+◌, ◌⊎◌, ℕ, List, Err, IfErr, IfOk, OnOk, Some, false};
ghost use Rattle.std.specs.Io.KnownBytes.{Appends};
ghost use Rattle.std.specs.Option.{option_copied};
ghost use Rattle.mrp_page.specs.Reading.{HasNotFailed, HasStopped, IsNoDay, LacksRun, is_write_fault};
ghost use Rattle.mrp_page.specs.Written.{HasPage, IsOfOtherTables, IsPageOf};
ghost use Rattle.mrp_rows.specs.Streams.{WritesFront};
ghost use Rattle.mrp_rows.specs.Told.{HasRisenBy, failures_of, inner_of, interrupted_of};

use crate::fault::PageFault;
use crate::fits::fits;
use crate::html::Html;
use crate::page::put_page;
use crate::read::read_day;
use mrp_facts::Facts;
use mrp_rows::{Told, Tries, WRITE_TRIES, write_text};
use std::alloc::Global;
use std::io::{Read, Write};

/// What a page should show.
#[derive(Clone, Copy)]
pub struct PageOptions<'a> {
    /// Its title.
    pub title: &'a [u8],
    /// The run whose report is shown, counted from 1; the last if none is named.
    pub run: Option<u64>,
    /// The names of the items to show; all items if none is named. The page shows at most 200, those with
    /// messages first.
    pub items: &'a [&'a [u8]],
    /// What the tables of the day say, if they are known: the page then has dates, and what they say of items
    /// and open orders.
    pub tables: Option<&'a Facts<'a>>,
}

// A page's text.
fn page_of<R: Read>(
    alloc: Global,
    input: &mut Told<R>,
    options: &PageOptions<'_>,
) -> Result<Html, PageFault>
    ensures page { IfOk result (λ page. (text : List ℕ) → R.remaining (inner_of input.old) ≡ Some text → HasPage options.now.title.now (option_copied options.now.tables) options.now.items.now options.now.run text page) }
    ensures wrong { result ≡ Err PageFault.Shape → (text : List ℕ) → R.remaining (inner_of input.old) ≡ Some text → IsNoDay text }
    ensures run { result ≡ Err PageFault.NoRun → (text : List ℕ) → R.remaining (inner_of input.old) ≡ Some text → LacksRun options.now.items.now options.now.run text }
    ensures tables { result ≡ Err PageFault.Tables → (text : List ℕ) → R.remaining (inner_of input.old) ≡ Some text → IsOfOtherTables (option_copied options.now.tables) options.now.items.now options.now.run text }
    ensures stopped { result ≡ Err PageFault.Read → HasStopped input.old input.new }
    ensures read { result ≢ Err PageFault.Read → HasNotFailed input.old input.new }
    ensures fault { IfErr result (λ fault. is_write_fault fault ≡ false) }
{
    let notes = read_day(alloc, input, options.items, options.run)?;
    if fits(options.tables, options.items, &notes) {
        let mut page = Html::new(alloc);
        put_page(
            alloc,
            &mut page,
            options.title,
            options.tables,
            options.items,
            &notes,
        )?;
        Ok(page)
    } else {
        Err(PageFault::Tables)
    }
}

/// Writes the page of a day: one file of HTML, which fetches nothing and runs nothing.
///
/// The day is read once, record by record, in at most 100,000,000 calls of `read`; an interrupted read is
/// tried again and counts as a call. Nothing is written before the whole day has been read.
///
/// Errors, with nothing written: `Shape` if the text is no day; `NoRun` if it has fewer runs than the number
/// asked for; `Tables` if the tables cannot be those of the day: they have other weeks than its plan or loads,
/// lack an item of the plan, or, unless items are named, have another number of items, or, where all orders or
/// pegs are kept, of firm rows, open receipts or service rows of at least one piece; `Read` if the reader failed in this call or needed more calls; `NoMemory` if an allocation
/// fails, and then no read failed. `Write` if a write failed in this call, or was interrupted more than
/// 1,000,000 times; a prefix of the page has been written then.
pub fn write_page<R: Read, W: Write>(
    alloc: Global,
    input: &mut Told<R>,
    options: &PageOptions<'_>,
    writer: &mut Told<W>,
) -> Result<(), PageFault>
    ensures whole { OnOk result ((text : List ℕ) → R.remaining (inner_of input.old) ≡ Some text → IsPageOf options.now.title.now (option_copied options.now.tables) options.now.items.now options.now.run text (λ page. Appends (W.contents (inner_of writer.old)) (W.contents (inner_of writer.new)) page)) }
    ensures unfailed { OnOk result (failures_of writer.new ≡ failures_of writer.old) }
    ensures interrupted { OnOk result (interrupted_of writer.new ≤ interrupted_of writer.old + WRITE_TRIES) }
    ensures wrong { result ≡ Err PageFault.Shape → (text : List ℕ) → R.remaining (inner_of input.old) ≡ Some text → IsNoDay text }
    ensures run { result ≡ Err PageFault.NoRun → (text : List ℕ) → R.remaining (inner_of input.old) ≡ Some text → LacksRun options.now.items.now options.now.run text }
    ensures tables { result ≡ Err PageFault.Tables → (text : List ℕ) → R.remaining (inner_of input.old) ≡ Some text → IsOfOtherTables (option_copied options.now.tables) options.now.items.now options.now.run text }
    ensures stopped { result ≡ Err PageFault.Read → HasStopped input.old input.new }
    ensures read { result ≢ Err PageFault.Read → HasNotFailed input.old input.new }
    ensures untouched { IfErr result (λ fault. is_write_fault fault ≡ false → writer.new ≡ writer.old) }
    ensures refused { result ≡ Err PageFault.Write → HasRisenBy 1 (failures_of writer.old) (failures_of writer.new) ⊎ HasRisenBy (WRITE_TRIES + 1) (interrupted_of writer.old) (interrupted_of writer.new) }
    ensures front { result ≡ Err PageFault.Write → (text : List ℕ) → R.remaining (inner_of input.old) ≡ Some text → IsPageOf options.now.title.now (option_copied options.now.tables) options.now.items.now options.now.run text (λ page. WritesFront (W.contents (inner_of writer.old)) (W.contents (inner_of writer.new)) page) }
{
    let page = page_of(alloc, input, options)?;
    write_text(writer, page.as_bytes(), &mut Tries::new())?;
    Ok(())
}
