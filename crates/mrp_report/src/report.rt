//! The report of a run.

ghost use Rattle.std.specs.Prelude.{◌≡◌, ◌<◌, ◌++◌, OnOk, length};
ghost use Rattle.std.specs.Int.{IsInRange};
ghost use Rattle.mrp_report.specs.ReportText.{report_text};
ghost use Rattle.mrp_report.specs.section.RunText.{run_text};
ghost use Rattle.mrp_report.specs.wave.Chunks.{rows_in, text_of};
ghost use Rattle.mrp_report.specs.Written.{Passes, WritesWhole};

use crate::fault::ReportFault;
use crate::page::Page;
use crate::section::{Readings, SECTIONS, run_section};
use crate::wave::{Chunks, Pages, write_in_turn, write_waves};
use mrp_item::Plan;
use mrp_qty::NoMemory;
use mrp_rows::{Told, Tries, WRITE_TRIES};
use std::alloc::Global;
use std::io::Write;
use std::thread::Threads;

/// The most workers that make the rows of a report. Workers are numbered like desks, so it is the
/// most desks.
pub const MOST_WORKERS: u64 = mrp_tables::limits::MOST_DESKS;

// Adds the section `run`.
fn write_run(page: &mut Page, plan: &Plan) -> Result<(), NoMemory>
    ensures { OnOk result (page.new ≡ page.old ++ run_text plan.now.inputs.front (length plan.now.inputs.standing)) }
{
    let snapshot = plan.inputs().snapshot();
    run_section(page, snapshot.front(), snapshot.count() as u64)
}

// Writes what is on the page and then the rows of a section, in chunks that are made in parallel.
fn write_parallel<W: Write>(
    rt: &(impl Threads + Sync),
    alloc: Global,
    chunks: &Chunks<'_>,
    pages: &mut Pages,
    page: &mut Page,
    writer: &mut Told<W>,
    tries: &mut Tries,
) -> Result<(), ReportFault>
    ensures { Passes W.contents writer.old writer.new (page.old ++ rows_in chunks.now) page.new tries.old tries.new result }
{
    page.hand_over(writer, tries)?;
    write_waves(rt, alloc, chunks, pages, writer, tries)
}

// Adds the rows of a section, and hands full pages over. The rows are made in parallel if they are
// more than one chunk, and if there are several workers.
fn write_rows<W: Write>(
    rt: &(impl Threads + Sync),
    alloc: Global,
    chunks: &Chunks<'_>,
    pages: &mut Pages,
    page: &mut Page,
    writer: &mut Told<W>,
    tries: &mut Tries,
) -> Result<(), ReportFault>
    ensures { Passes W.contents writer.old writer.new (page.old ++ rows_in chunks.now) page.new tries.old tries.new result }
{
    if pages.workers > 1 && chunks.are_many() {
        write_parallel(rt, alloc, chunks, pages, page, writer, tries)
    } else {
        write_in_turn(alloc, chunks, page, writer, tries)
    }
}

// Adds a section, and hands full pages over.
fn write_section<W: Write>(
    rt: &(impl Threads + Sync),
    alloc: Global,
    chunks: &Chunks<'_>,
    pages: &mut Pages,
    page: &mut Page,
    writer: &mut Told<W>,
    tries: &mut Tries,
) -> Result<(), ReportFault>
    ensures { Passes W.contents writer.old writer.new (page.old ++ text_of chunks.now) page.new tries.old tries.new result }
{
    chunks.section.begin(page)?;
    write_rows(rt, alloc, chunks, pages, page, writer, tries)
}

/// Writes the report of a run: the sections `run`, `promises`, `plan`, `orders`, `pegs`, `messages`
/// and `loads`. The loads of the work centres are computed in parallel before anything is written.
///
/// `workers` (1 to 64, as the caller guarantees) is how many threads make the rows. A section with
/// more rows than one of them makes at a time is made by all of them in parallel, any other section
/// by one. With one worker no thread is started for rows.
///
/// An interrupted write is tried again, at most 1,000,000 times. Errors: `Write` if a write failed in this
/// call or was interrupted more often; otherwise `NoMemory` if an allocation fails. A prefix of the text has
/// been written then.
pub fn write_report<W: Write>(
    rt: &(impl Alloc + Threads + Sync),
    alloc: Global,
    plan: &Plan,
    writer: &mut Told<W>,
    workers: usize,
) -> Result<(), ReportFault>
    requires workers { IsInRange 1 MOST_WORKERS workers }
    ensures { WritesWhole W.contents writer.old writer.new (report_text plan.now.inputs) result }
{
    let mut tries = Tries::new();
    let mut page = Page::new(alloc);
    let mut pages = Pages::of(alloc, workers)?;
    let readings = Readings::of(rt, alloc, plan)?;
    write_run(&mut page, plan)?;
    for section in SECTIONS {
        let chunks = Chunks::of(&readings, section);
        write_section(
            rt, alloc, &chunks, &mut pages, &mut page, writer, &mut tries,
        )?;
    }
    page.hand_over(writer, &mut tries)
}
