//! What is kept of a day while it is read.

ghost use Rattle.std.specs.Prelude.{◌≡◌, ◌++◌, ◌∷◌, [], OnOk};
ghost use Rattle.mrp_page.specs.Row.{same_text};
ghost use Rattle.mrp_page.specs.Notes.{counts_at, history_rows, is_shown, none_noted, noted, report_rows};

use crate::counts::Counts;
use crate::row::Row;
use crate::section::is_history;
use crate::spot::{Place, Spot};
use mrp_day::Section;
use mrp_lines::Cells;
use mrp_qty::NoMemory;
use std::alloc::Global;
use std::marker::Model;

// Where the last record stands and its first cell, the rows of the history, those of the report of
// the run that is shown, and how many of both are not kept.
#[derive(Drop)]
pub(crate) struct Notes {
    alloc: Global,
    spot: Spot,
    last: Vec<u8>,
    history: Vec<Row>,
    report: Vec<Row>,
    counts: Counts,
}

impl Model for Notes {
    ghost use Rattle.mrp_page.specs.Notes.{Noted};

    ghost Value = { Noted };

    ghost view = { λ n. record { spot = n.spot; last = n.last.items; history = n.history.items; report = n.report.items; counts = n.counts } };
}

// Adds a row with a copy of these cells.
fn add_row<C: Cells>(
    alloc: Global,
    rows: &mut Vec<Row>,
    section: Section,
    cells: &C,
) -> Result<(), NoMemory>
    ensures { OnOk result (rows.new.items ≡ rows.old.items ++ (record { section = section; cells = C.cells cells.now } ∷ [])) }
{
    let copy = cells.to_record(alloc)?;
    let row = Row::new(section, copy);
    rows.push(row)?;
    Ok(())
}

// Whether a run is the one asked for: by its number, or as the last so far.
fn is_shown(asked: Option<u64>, run: u64) -> bool
    ensures { result ≡ is_shown asked run }
{
    match asked {
        Some(number) => number == run,
        None => true,
    }
}

// Adds the row of the history that a record is, if it is one.
fn note_history<C: Cells>(
    alloc: Global,
    history: &mut Vec<Row>,
    takes: Option<Section>,
    cells: &C,
) -> Result<(), NoMemory>
    ensures { OnOk result (history.new.items ≡ history.old.items ++ history_rows takes (C.cells cells.now)) }
{
    match takes {
        Some(Section::History) => add_row(alloc, history, Section::History, cells),
        _ => Ok(()),
    }
}

// Adds the row of the report that a record is, if it is one and is of the run that is shown.
fn note_report<C: Cells>(
    alloc: Global,
    report: &mut Vec<Row>,
    asked: Option<u64>,
    spot: Spot,
    cells: &C,
) -> Result<(), NoMemory>
    ensures { OnOk result (report.new.items ≡ report.old.items ++ report_rows asked spot (C.cells cells.now)) }
{
    match spot.takes {
        Some(Section::History) => Ok(()),
        Some(section) if is_shown(asked, spot.run) => add_row(alloc, report, section, cells),
        _ => Ok(()),
    }
}

// Counts the rows of a section that are not kept, if it is the history or a section of the run that is shown.
fn note_counts(counts: &mut Counts, asked: Option<u64>, spot: Spot)
    ensures { counts.new ≡ counts_at asked spot spot.place counts.old }
{
    match spot.place {
        Place::Header(section) | Place::Row(section)
            if is_history(section) || is_shown(asked, spot.run) => {
            counts.note(section, spot);
        }
        _ => {}
    }
}

// Keeps the first cell of a record, given whether it is that of the record before it.
fn note_name(last: &mut Vec<u8>, same: bool, name: &[u8]) -> Result<(), NoMemory>
    requires { same ≡ same_text last.old.items name.now }
    ensures { OnOk result (last.new.items ≡ name.now) }
{
    if same {
        return Ok(());
    }
    last.clear();
    last.extend_from_slice(name)?;
    Ok(())
}

impl Notes {
    // The notes before the first record.
    pub(crate) fn new(alloc: Global) -> Notes
        ensures { result ≡ none_noted }
    {
        Notes {
            alloc,
            spot: Spot::start(),
            last: Vec::new(alloc),
            history: Vec::new(alloc),
            report: Vec::new(alloc),
            counts: Counts::none(),
        }
    }

    pub(crate) fn spot(&self) -> Spot
        ensures { result ≡ self.now.spot }
    {
        self.spot
    }

    pub(crate) fn history(&self) -> &[Row]
        ensures { result.now ≡ self.now.history }
    {
        self.history.as_slice()
    }

    pub(crate) fn report(&self) -> &[Row]
        ensures { result.now ≡ self.now.report }
    {
        self.report.as_slice()
    }

    pub(crate) fn counts(&self) -> Counts
        ensures { result ≡ self.now.counts }
    {
        self.counts
    }

    // Takes the next record, and keeps its row if the page has room for it. If the last run is
    // asked for, the rows of a run are dropped when the next run begins.
    pub(crate) fn note<C: Cells>(
        &mut self,
        items: &[&[u8]],
        asked: Option<u64>,
        cells: &C,
    ) -> Result<(), NoMemory>
        ensures { OnOk result (self.new ≡ noted items.now asked self.old (C.cells cells.now)) }
    {
        let name = cells.cell(0);
        let same = self.last.as_slice() == name;
        let spot = self.spot.after(items, same, cells);
        if asked.is_none() && spot.begins_run() {
            self.report.clear();
        }
        note_history(self.alloc, &mut self.history, spot.takes, cells)?;
        note_report(self.alloc, &mut self.report, asked, spot, cells)?;
        note_counts(&mut self.counts, asked, spot);
        self.spot = spot;
        note_name(&mut self.last, same, name)?;
        Ok(())
    }
}
