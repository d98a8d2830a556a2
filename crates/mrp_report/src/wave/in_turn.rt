//! The rows of a section, made in turn on one thread.

ghost use Rattle.std.specs.Prelude.{◌<◌, ◌++◌};
ghost use Rattle.mrp_item.specs.Inputs.{count};
ghost use Rattle.mrp_item.specs.Plan.{outcome_of, plan_in};
ghost use Rattle.mrp_report.specs.wave.Chunks.{count_of, row_of, rows_in};
ghost use Rattle.mrp_report.specs.ReportText.{pegged_text};
ghost use Rattle.mrp_report.specs.Written.{Passes};

use crate::fault::ReportFault;
use crate::page::Page;
use crate::section::{PegRows, Readings, Section};
use crate::wave::cut::Chunks;
use mrp_rows::{Told, Tries};
use std::alloc::Global;
use std::io::Write;

// Adds an item's pegs, and hands full pages over: an item may have more of them than fit into
// memory.
fn write_pegged<W: Write>(
    alloc: Global,
    readings: &Readings<'_>,
    item: usize,
    page: &mut Page,
    writer: &mut Told<W>,
    tries: &mut Tries,
) -> Result<(), ReportFault>
    requires { item < count readings.now.plan.now.inputs }
    ensures { Passes W.contents writer.old writer.new (page.old ++ pegged_text readings.now.plan.now.inputs item (plan_in (outcome_of readings.now.plan.now.inputs item))) page.new tries.old tries.new result }
{
    let mut rows = PegRows::of(alloc, readings, item)?;
    while rows.add_next(page)? {
        page.pass_on(writer, tries)?;
    }
    Ok(())
}

// Adds the rows of a place, and hands full pages over.
fn write_place<W: Write>(
    alloc: Global,
    chunks: &Chunks<'_>,
    place: usize,
    page: &mut Page,
    writer: &mut Told<W>,
    tries: &mut Tries,
) -> Result<(), ReportFault>
    requires { place < count_of chunks.now }
    ensures { Passes W.contents writer.old writer.new (page.old ++ row_of chunks.now place) page.new tries.old tries.new result }
{
    if let Section::Pegs = chunks.section {
        return write_pegged(alloc, chunks.readings, place, page, writer, tries);
    }
    chunks.section.add(alloc, page, chunks.readings, place)?;
    page.pass_on(writer, tries)
}

// Adds the rows of a section in turn, and hands full pages over.
pub(crate) fn write_in_turn<W: Write>(
    alloc: Global,
    chunks: &Chunks<'_>,
    page: &mut Page,
    writer: &mut Told<W>,
    tries: &mut Tries,
) -> Result<(), ReportFault>
    ensures { Passes W.contents writer.old writer.new (page.old ++ rows_in chunks.now) page.new tries.old tries.new result }
{
    for place in 0..chunks.count() {
        write_place(alloc, chunks, place, page, writer, tries)?;
    }
    Ok(())
}
