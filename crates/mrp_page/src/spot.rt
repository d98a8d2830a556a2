//! Where the records of a day stand.

ghost use Rattle.std.specs.Prelude.{◌≡◌};
ghost use Rattle.mrp_page.specs.Spot.{begun, begins_run, counted, has_room, inside, is_among, is_end, is_row, is_wanted, is_wrong, leads_if, place_after, room_at, run_at, section_if, spot_if, start, starts_at, wants, weeks_with};

use crate::cells::are_texts;
use crate::limits::MOST_ITEMS;
use crate::section::{is_by_weeks, is_of_items, is_plan, items_of, next_of, room_of};
use mrp_cal::MOST_WEEKS;
use mrp_day::Section;
use mrp_lines::Cells;

// What a record is within a day.
#[derive(Clone, Copy, Debug, PartialEq, Eq)]
pub(crate) enum Place {
    // No record yet.
    Front,
    // The line that a section begins with.
    Line(Section),
    // A section's header.
    Header(Section),
    // A row of a section.
    Row(Section),
    // Not a record of a day, or after such a record.
    Wrong,
}

// Where a record of a day stands, and whether its page has room for it.
#[derive(Clone, Copy)]
pub(crate) struct Spot {
    pub(crate) place: Place,
    // How many runs have begun.
    pub(crate) run: u64,
    // How many rows of the section were taken.
    pub(crate) taken: u64,
    // How many rows of the section that the page should show were not taken.
    pub(crate) missed: u64,
    // How many items, or work centres, have begun in the section.
    pub(crate) items: u64,
    // How many of these have an order that starts in the first week.
    pub(crate) urgent: u64,
    // How many rows of the item, or work centre, were taken, if the last of them was.
    pub(crate) weeks: u64,
    // The section of the record, if it is taken as a row.
    pub(crate) takes: Option<Section>,
}

// What a record is where a section has to begin.
fn begun<C: Cells>(section: Section, cells: &C) -> Place
    ensures { result ≡ begun section (C.cells cells.now) }
{
    if are_texts(cells, &[section.line()]) {
        Place::Line(section)
    } else {
        Place::Wrong
    }
}

// What a record is after a section's header: a row, or the line of the next section.
fn inside<C: Cells>(section: Section, cells: &C) -> Place
    ensures { result ≡ inside section (C.cells cells.now) }
{
    if cells.len() == section.columns().len() && cells.is_line() {
        Place::Row(section)
    } else {
        begun(next_of(section), cells)
    }
}

// Whether a name is among these.
fn is_among(items: &[&[u8]], name: &[u8]) -> bool
    ensures { result ≡ is_among items.now name.now }
{
    items.iter().any(|item| *item == name)
}

// Whether a page should show a row of a section: if items are named, only rows of these items.
fn wants<C: Cells>(items: &[&[u8]], section: Section, cells: &C) -> bool
    ensures { result ≡ wants items.now section (C.cells cells.now) }
{
    if items.is_empty() || !is_of_items(section) {
        return true;
    }
    is_among(items, cells.cell(0))
}

impl Place {
    // Whether it is the place of a row.
    fn is_row(self) -> bool
        ensures { result ≡ is_row self }
    {
        matches!(self, Place::Row(_))
    }

    // What the next record is.
    fn after<C: Cells>(self, cells: &C) -> Place
        ensures { result ≡ place_after self (C.cells cells.now) }
    {
        match self {
            Place::Front => begun(Section::History, cells),
            Place::Line(section) => {
                if are_texts(cells, section.columns()) {
                    Place::Header(section)
                } else {
                    Place::Wrong
                }
            }
            Place::Header(section) => inside(section, cells),
            Place::Row(section) => inside(section, cells),
            Place::Wrong => Place::Wrong,
        }
    }
}

// Whether a record is a row that a page should show.
fn is_wanted<C: Cells>(items: &[&[u8]], place: Place, cells: &C) -> bool
    ensures { result ≡ is_wanted items.now place (C.cells cells.now) }
{
    match place {
        Place::Row(section) => wants(items, section, cells),
        _ => false,
    }
}

// Whether a row of a plan says that an order starts in its week.
fn starts_at<C: Cells>(place: Place, cells: &C) -> bool
    ensures { result ≡ starts_at place (C.cells cells.now) }
{
    match place {
        Place::Row(section) => is_plan(section) && cells.cell(6) != b"0".as_slice(),
        _ => false,
    }
}

// The section of a row that is taken.
fn section_if(takes: bool, place: Place) -> Option<Section>
    ensures { result ≡ section_if takes place }
{
    match place {
        Place::Row(section) if takes => Some(section),
        _ => None,
    }
}

// How many rows were taken of an item, or work centre, with one more if it is taken.
fn weeks_with(weeks: u64, leads: bool, takes: bool) -> u64
    ensures { result ≡ weeks_with weeks leads takes }
{
    if !takes {
        0
    } else if leads {
        1
    } else {
        weeks.saturating_add(1)
    }
}

// A count of rows, plus one if `more`. It starts again from 0 at a record that is no row.
fn counted(row: bool, count: u64, more: bool) -> u64
    ensures { result ≡ counted row count more }
{
    if row {
        count.saturating_add(u64::from(more))
    } else {
        0
    }
}

impl Spot {
    // The spot before the first record.
    pub(crate) fn start() -> Spot
        ensures { result ≡ start }
    {
        Spot {
            place: Place::Front,
            run: 0,
            taken: 0,
            missed: 0,
            items: 0,
            urgent: 0,
            weeks: 0,
            takes: None,
        }
    }

    // Whether a run begins here.
    pub(crate) fn begins_run(self) -> bool
        ensures { result ≡ begins_run self.place }
    {
        matches!(self.place, Place::Line(Section::Run))
    }

    // Whether no day has this record here, or had one before it.
    pub(crate) fn is_wrong(self) -> bool
        ensures { result ≡ is_wrong self.place }
    {
        matches!(self.place, Place::Wrong)
    }

    // Whether a day may end here: in the last section of a report.
    pub(crate) fn is_end(self) -> bool
        ensures { result ≡ is_end self.place }
    {
        matches!(
            self.place,
            Place::Header(Section::Loads) | Place::Row(Section::Loads)
        )
    }

    // Whether a record is not of the same item, or work centre, as the row before it, given whether
    // its first cell is that of the record before it.
    fn leads(self, same: bool) -> bool
        ensures { result ≡ leads_if self same }
    {
        !(self.place.is_row() && same)
    }

    // Whether a page has room for a row of a section: while the section is not full; for the first
    // items; for the first items with an order that starts in the first week; and for the other
    // weeks of an item that it has begun, as many as a plan may have.
    fn has_room(self, section: Section, leads: bool, urgent: bool) -> bool
        ensures { result ≡ has_room section self leads urgent }
    {
        if self.taken < room_of(section) {
            return true;
        }
        if leads {
            self.items < items_of(section) || urgent && self.urgent < MOST_ITEMS
        } else {
            is_by_weeks(section) && self.takes.is_some() && self.weeks < MOST_WEEKS
        }
    }

    // The same for a record.
    fn room_at(self, place: Place, leads: bool, urgent: bool) -> bool
        ensures { result ≡ room_at place self leads urgent }
    {
        match place {
            Place::Row(section) => self.has_room(section, leads, urgent),
            _ => false,
        }
    }

    // How many runs have begun at the next place.
    fn run_at(self, place: Place) -> u64
        ensures { result ≡ run_at self.run place }
    {
        match place {
            Place::Line(Section::Run) => self.run.saturating_add(1),
            _ => self.run,
        }
    }

    // Where the next record stands, given whether its first cell is that of the last one.
    pub(crate) fn after<C: Cells>(self, items: &[&[u8]], same: bool, cells: &C) -> Spot
        ensures { result ≡ spot_if items.now self (place_after self.place (C.cells cells.now)) same (C.cells cells.now) }
    {
        let place = self.place.after(cells);
        let row = place.is_row();
        let wanted = is_wanted(items, place, cells);
        let leads = wanted && self.leads(same);
        let urgent = leads && starts_at(place, cells);
        let takes = wanted && self.room_at(place, leads, urgent);
        Spot {
            place,
            run: self.run_at(place),
            taken: counted(row, self.taken, takes),
            missed: counted(row, self.missed, wanted && !takes),
            items: counted(row, self.items, leads),
            urgent: counted(row, self.urgent, urgent),
            weeks: weeks_with(self.weeks, leads, takes),
            takes: section_if(takes, place),
        }
    }
}
