//! The calendar's table.

ghost use Rattle.std.specs.Prelude.{◌≡◌, ◌==◌, ◌||◌, Option, Some, None, if◌then◌else◌, length, true, IfOk};
ghost use Rattle.std.specs.Int.{IsInRange};
ghost use Rattle.std.specs.List.{list_all};
ghost use Rattle.mrp_cal.specs.Calendar.{has_workday, is_monday};
ghost use Rattle.mrp_cal.specs.DateText.{IsPlanningYear};
ghost use Rattle.mrp_rows.specs.Cell.{blame, cell_at};
ghost use Rattle.mrp_tables.specs.Calendar.{IsEntry, are_flags, first_cells, first_entry, flags_of, holiday_cells, missing_record, start_cell, start_cells, version_cell, weeks_cells, workdays_cells};

use crate::limits::MOST_CALENDAR_RECORDS;
use crate::reading::{TableRows, read_table};
use crate::version::{MOST_VERSION, Version};
use jiff::civil::{Date, Weekday};
use mrp_cal::{Calendar, MOST_WEEKS};
use mrp_rows::faults::{COLUMNS, NO_MEMORY, RANGE, WORD};
use mrp_rows::{Fault, Row, Sections, Table};
use std::alloc::Global;
use std::marker::Model;

/// The entry of one record of the calendar's table.
#[derive(Clone, Copy)]
pub(crate) enum Entry {
    /// Which version the bundle has.
    OfVersion(Version),
    /// The day on which the horizon begins, a Monday.
    Start(Date),
    /// The weeks of the horizon.
    Weeks(u64),
    /// Which weekdays are worked, from Monday.
    Workdays([bool; 7]),
    /// A day on which nobody works.
    Holiday(Date),
}

/// What the table says.
#[derive(Drop)]
pub(crate) struct CalendarTable {
    pub(crate) version: Version,
    pub(crate) calendar: Calendar,
}

/// The entries so far: a version, which may be left out, and those that follow it.
#[derive(Drop)]
pub(crate) struct Entries {
    version: Option<Version>,
    dated: Dated,
}

impl Model for Entries {
    ghost use Rattle.std.specs.Prelude.{List};
    ghost use Rattle.mrp_tables.specs.declared.calendar.Entry.{Entry};
    ghost use Rattle.mrp_tables.specs.Calendar.{AreDated, after_version};

    ghost Value = { List Entry };

    ghost view = { λ t. after_version t.version t.dated };

    ghost invariant = { λ t. AreDated t.dated };
}

impl TableRows for Entries {
    type Line = Entry;

    ghost use Rattle.std.specs.Prelude.{◌≡◌};
    ghost use Rattle.mrp_tables.specs.Calendar.{calendar_reads};
    ghost use Rattle.mrp_tables.specs.Gathered.{nothing};

    ghost takes = { λ given count. count ≡ 2 };

    ghost rows = { λ t. t };

    ghost reads = { λ t. calendar_reads };

    ghost beside = { λ t. nothing };

    fn most_records(&self) -> Option<u32> {
        // (what `is_empty` ensures: these entries do not begin with a version)
        let _dated = self.dated.is_empty();
        match self.version {
            Some(_) => Some(MOST_CALENDAR_RECORDS + 1),
            None => Some(MOST_CALENDAR_RECORDS),
        }
    }

    fn add(&mut self, row: &Row) -> Result<(), Fault> {
        if self.version.is_some() || !self.dated.is_empty() {
            return self.dated.add(row);
        }
        match first_of(row)? {
            First::OfVersion(version) => self.version = Some(version),
            First::Start(date) => self.dated.begin(date),
        }
        Ok(())
    }
}

impl Entries {
    ghost use Rattle.std.specs.Prelude.{◌≡◌, []};
    ghost use Rattle.mrp_tables.specs.Calendar.{calendar_from};
    ghost use Rattle.mrp_tables.specs.Readers.{GivesTable};

    pub(crate) fn read(alloc: Global, sections: &Sections<'_>) -> Result<CalendarTable, Fault>
        ensures { GivesTable sections.now Table.Calendar result (λ table. table) }
    {
        read_table(alloc, sections, Table::Calendar, Entries::new(alloc))?.into_table()
    }

    fn new(alloc: Global) -> Entries
        ensures { result ≡ [] }
    {
        Entries {
            version: None,
            dated: Dated::new(alloc),
        }
    }

    // What the entries make.
    fn into_table(self) -> Result<CalendarTable, Fault>
        ensures { result ≡ calendar_from self }
    {
        let Entries { version, dated } = self;
        match version {
            Some(version) => dated.into_table(version, 1),
            None => dated.into_table(Version::One, 0),
        }
    }
}

/// The entries that follow a version: the start, the weeks, the workdays, and then holidays.
#[derive(Drop)]
struct Dated {
    start: Option<Date>,
    weeks: Option<u64>,
    workdays: Option<[bool; 7]>,
    holidays: Vec<Date>,
}

impl Model for Dated {
    ghost use Rattle.std.specs.Prelude.{List};
    ghost use Rattle.mrp_tables.specs.declared.calendar.Entry.{Entry};
    ghost use Rattle.mrp_tables.specs.Calendar.{AreKept, entries_of};

    ghost Value = { List Entry };

    ghost view = { λ t. entries_of t.start t.weeks t.workdays t.holidays.items };

    ghost invariant = { λ t. AreKept t.start t.weeks t.workdays t.holidays.items };
}

impl Dated {
    ghost use Rattle.std.specs.Prelude.{◌≡◌, ◌≤◌, ◌+◌, ◌∷◌, ◌==◌, [], length, IfOk};
    ghost use Rattle.mrp_tables.specs.declared.calendar.Entry.TheVariants as entry;
    ghost use Rattle.mrp_tables.specs.Calendar.{AddsEntry, AreDated, IsEntry, dated_from, dated_row};

    fn new(alloc: Global) -> Dated
        ensures none { result ≡ [] }
        ensures dated { AreDated result }
    {
        Dated {
            start: None,
            weeks: None,
            workdays: None,
            holidays: Vec::new(alloc),
        }
    }

    // Whether there are none.
    fn is_empty(&self) -> bool
        ensures none { result ≡ (length self.now == 0) }
        ensures dated { AreDated self.now }
    {
        self.start.is_none()
    }

    // Adds the start, which comes first.
    fn begin(&mut self, start: Date)
        requires none { self.old ≡ [] }
        requires start { IsEntry (entry.Start start) }
        ensures added { self.new ≡ entry.Start start ∷ [] }
        ensures dated { AreDated self.new }
    {
        self.start = Some(start);
    }

    // Adds the entry of a record that follows these.
    fn add(&mut self, row: &Row) -> Result<(), Fault>
        requires { length row.now.cells ≡ 2 }
        ensures added { AddsEntry self.old row.now result self.new }
        ensures dated { AreDated self.new }
    {
        match self.entry(row)? {
            Entry::OfVersion(_) => unreachable!(),
            Entry::Start(date) => self.start = Some(date),
            Entry::Weeks(weeks) => self.weeks = Some(weeks),
            Entry::Workdays(workdays) => self.workdays = Some(workdays),
            Entry::Holiday(date) => {
                if self.holidays.push(date).is_err() {
                    return Err(row.fault(NO_MEMORY));
                }
            }
        }
        Ok(())
    }

    // The entry of a record that follows these.
    fn entry(&self, row: &Row) -> Result<Entry, Fault>
        requires { length row.now.cells ≡ 2 }
        ensures cells { result ≡ dated_row self.now row.now }
        ensures within { IfOk result IsEntry }
    {
        if self.start.is_none() {
            Ok(Entry::Start(start_of(row)?))
        } else if self.weeks.is_none() {
            Ok(Entry::Weeks(weeks_of(row)?))
        } else if self.workdays.is_none() {
            Ok(Entry::Workdays(workdays_of(row)?))
        } else {
            Ok(Entry::Holiday(holiday_of(row)?))
        }
    }

    // What the entries make with a version, before which there are so many records.
    #[tactic(auto, unfolding(mrp_cal::specs::Calendar::calendar_of))]
    fn into_table(self, version: Version, before: u32) -> Result<CalendarTable, Fault>
        requires { before ≤ 1 }
        ensures made { result ≡ dated_from version (before + length self + 1) self }
        ensures dated { AreDated self }
    {
        let Some(start) = self.start else {
            return Err(missing_record(before + 1));
        };
        let Some(weeks) = self.weeks else {
            return Err(missing_record(before + 2));
        };
        let Some(workdays) = self.workdays else {
            return Err(missing_record(before + 3));
        };
        match Calendar::new(start, weeks, workdays, self.holidays.as_slice()) {
            Ok(calendar) => Ok(CalendarTable { version, calendar }),
            Err(_) => unreachable!(),
        }
    }
}

// What a first record says.
#[derive(Clone, Copy)]
enum First {
    OfVersion(Version),
    Start(Date),
}

fn missing_record(number: u32) -> Fault
    ensures { result ≡ missing_record number }
{
    Fault {
        code: COLUMNS,
        table: Table::Calendar,
        row: number,
    }
}

// The version or the start.
#[tactic(auto, unfolding(crate::specs::Calendar::first_cells))]
fn first_of(row: &Row) -> Result<First, Fault>
    requires { length row.now.cells ≡ 2 }
    ensures cells { result ≡ first_cells row.now }
    ensures within { IfOk result (λ first. IsEntry (first_entry first)) }
{
    let key = row.word(0, &["version", "start"])?;
    if key == 0 {
        Ok(First::OfVersion(version_in(row)?))
    } else {
        Ok(First::Start(start_date(row)?))
    }
}

fn version_in(row: &Row) -> Result<Version, Fault>
    requires { length row.now.cells ≡ 2 }
    ensures { result ≡ version_cell row.now }
{
    let number = row.number(1, 1, MOST_VERSION)?;
    Ok(Version::of(number))
}

fn start_of(row: &Row) -> Result<Date, Fault>
    requires { length row.now.cells ≡ 2 }
    ensures start { result ≡ start_cells row.now }
    ensures monday { IfOk result (λ d. is_monday d ≡ true) }
    ensures year { IfOk result (λ d. IsPlanningYear d.year) }
{
    row.word(0, &["start"])?;
    start_date(row)
}

#[tactic(auto, unfolding(crate::specs::Calendar::start_cell))]
fn start_date(row: &Row) -> Result<Date, Fault>
    requires { length row.now.cells ≡ 2 }
    ensures start { result ≡ start_cell row.now }
    ensures monday { IfOk result (λ d. is_monday d ≡ true) }
    ensures year { IfOk result (λ d. IsPlanningYear d.year) }
{
    let date = row.date(1)?;
    if date.weekday() == Weekday::Monday {
        Ok(date)
    } else {
        Err(row.fault(RANGE))
    }
}

#[tactic(auto, unfolding(crate::specs::Calendar::weeks_cells))]
fn weeks_of(row: &Row) -> Result<u64, Fault>
    requires { length row.now.cells ≡ 2 }
    ensures weeks { result ≡ weeks_cells row.now }
    ensures within { IfOk result (IsInRange 1 MOST_WEEKS) }
{
    row.word(0, &["weeks"])?;
    row.number(1, 1, MOST_WEEKS)
}

#[tactic(auto, unfolding(crate::specs::Calendar::workdays_cells))]
fn workdays_of(row: &Row) -> Result<[bool; 7], Fault>
    requires { length row.now.cells ≡ 2 }
    ensures workdays { result ≡ workdays_cells row.now }
    ensures worked { IfOk result (λ w. has_workday w ≡ true) }
{
    row.word(0, &["workdays"])?;
    let Some(workdays) = flags(row.cell(1)) else {
        return Err(row.fault(WORD));
    };
    if has_workday(&workdays) {
        Ok(workdays)
    } else {
        Err(row.fault(RANGE))
    }
}

fn has_workday(workdays: &[bool; 7]) -> bool
    ensures { result ≡ has_workday workdays.now }
{
    workdays.iter().any(|worked| *worked)
}

// Seven flags, each `0` or `1`.
fn flags(cell: &[u8]) -> Option<[bool; 7]>
    ensures { result ≡ (if are_flags cell.now then Some (flags_of cell.now) else None) }
{
    if !are_flag_bytes(cell) {
        return None;
    }
    match *cell {
        [a, b, c, d, e, f, g] => Some([
            a == b'1',
            b == b'1',
            c == b'1',
            d == b'1',
            e == b'1',
            f == b'1',
            g == b'1',
        ]),
        _ => None,
    }
}

fn are_flag_bytes(cell: &[u8]) -> bool
    ensures { result ≡ list_all (λ byte. (byte == 48) || (byte == 49)) cell.now }
{
    cell.iter().all(|byte| *byte == b'0' || *byte == b'1')
}

#[tactic(auto, unfolding(crate::specs::Calendar::holiday_cells))]
fn holiday_of(row: &Row) -> Result<Date, Fault>
    requires { length row.now.cells ≡ 2 }
    ensures { result ≡ holiday_cells row.now }
{
    row.word(0, &["holiday"])?;
    row.date(1)
}
