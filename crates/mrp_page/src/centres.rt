//! The section of the work centres.

ghost use Rattle.std.specs.Prelude.{◌≡◌, ◌++◌, OnOk, flat_map, map, IfOk};
ghost use Rattle.mrp_page.specs.Centres.{all_loads, centre_html, centres_back, each_centre, explained_note, framed_centre, later_loads, load_section, loads_html, loads_table, over_or_none, shares_html, times_html, work_in};
ghost use Rattle.std.specs.Option.{option_copied};
ghost use Rattle.mrp_page.specs.Explained.{explained_or_plain, plain_html};
ghost use Rattle.mrp_page.specs.Shares.{minutes_at, overloads_first};
ghost use Rattle.mrp_page.specs.Work.{works_of};

use crate::draw::{cut_weeks, put_more, put_table};
use crate::explained::{put_explained, put_over_words};
use crate::folded::{Lines, cut_rows, put_capped};
use crate::frame::put_count_row;
use crate::html::Html;
use crate::layout::centres::{
    capacity_label, centre_head, centre_open, centres_open, load_label, none_over, over_front,
    over_label, over_open, share_cell, share_label,
};
use crate::layout::lists::{bullet_end, bullet_open, grid_end, list_end, rest_end, section_end};
use crate::layout::records::later_open;
use crate::layout::work::work_note;
use crate::limits::{MOST_EXPLAINED, SOME_ROWS};
use crate::pictured::{centre_frame, put_load_picture};
use crate::places::Places;
use crate::row::Row;
use crate::rows::leaders;
use crate::scene::Scene;
use crate::shares::{overloads_first, put_minutes, share_rows};
use crate::template::put_row;
use crate::weeks::put_weeks;
use crate::work::{LoadWork, work_of};
use mrp_facts::Facts;
use mrp_qty::NoMemory;
use std::alloc::Global;

// Adds the minutes of a column, week by week.
fn put_each_time(page: &mut Html, column: usize, rows: &[Row]) -> Result<(), NoMemory>
    ensures { OnOk result (page.new ≡ page.old ++ flat_map (minutes_at column) rows.now) }
{
    for row in rows {
        put_minutes(page, row.cell(column))?;
    }
    Ok(())
}

// Adds a row of minutes over the weeks.
#[tactic(auto, unfolding(crate::specs::Centres::times_html))]
fn put_times(page: &mut Html, label: &[u8], column: usize, rows: &[Row]) -> Result<(), NoMemory>
    ensures { OnOk result (page.new ≡ page.old ++ times_html label.now column rows.now) }
{
    page.markup(label)?;
    put_each_time(page, column, rows)?;
    page.markup(b"</tr>\n")
}

// Adds the shares of a table.
#[tactic(auto, unfolding(crate::specs::Centres::shares_html))]
fn put_shares(alloc: Global, page: &mut Html, rows: &[Row]) -> Result<(), NoMemory>
    ensures { OnOk result (page.new ≡ page.old ++ shares_html rows.now) }
{
    let shares = share_rows(alloc, rows)?;
    put_table(
        page,
        share_label(),
        share_cell(),
        shares.as_slice(),
        b"</tr>\n",
    )
}

// Adds the rows of a work centre's table.
#[tactic(auto, unfolding(crate::specs::Centres::loads_html))]
fn put_loads(alloc: Global, page: &mut Html, rows: &[Row]) -> Result<(), NoMemory>
    ensures { OnOk result (page.new ≡ page.old ++ loads_html rows.now) }
{
    put_times(page, load_label(), 2, rows)?;
    put_times(page, capacity_label(), 3, rows)?;
    put_shares(alloc, page, rows)?;
    put_times(page, over_label(), 4, rows)?;
    page.markup(grid_end())
}

// Adds a table of some weeks of a work centre.
#[tactic(auto, unfolding(crate::specs::Centres::loads_table))]
fn put_loads_table(
    alloc: Global,
    page: &mut Html,
    tables: Option<&Facts<'_>>,
    frame: &Row,
    rows: &[Row],
) -> Result<(), NoMemory>
    ensures { OnOk result (page.new ≡ page.old ++ loads_table (option_copied tables.entry) frame.now rows.now) }
{
    put_row(page, centre_head(), frame)?;
    put_weeks(page, tables, rows)?;
    put_loads(alloc, page, rows)
}

// Adds a table of a work centre's further weeks, folded.
#[tactic(auto, unfolding(crate::specs::Centres::later_loads))]
fn put_later_loads(
    alloc: Global,
    page: &mut Html,
    tables: Option<&Facts<'_>>,
    frame: &Row,
    rows: &[Row],
) -> Result<(), NoMemory>
    ensures { OnOk result (page.new ≡ page.old ++ later_loads (option_copied tables.entry) frame.now rows.now) }
{
    if rows.is_empty() {
        return Ok(());
    }
    page.markup(later_open())?;
    put_loads_table(alloc, page, tables, frame, rows)?;
    page.markup(rest_end())
}

// Adds the weeks of a work centre.
#[tactic(auto, unfolding(crate::specs::Centres::all_loads))]
fn put_all_loads(
    alloc: Global,
    page: &mut Html,
    tables: Option<&Facts<'_>>,
    frame: &Row,
    rows: &[Row],
) -> Result<(), NoMemory>
    ensures { OnOk result (page.new ≡ page.old ++ all_loads (option_copied tables.entry) frame.now rows.now) }
{
    let (first, later) = cut_weeks(rows);
    put_loads_table(alloc, page, tables, frame, first)?;
    put_later_loads(alloc, page, tables, frame, later)
}

// Adds a work centre, given its frame.
#[tactic(auto, unfolding(crate::specs::Centres::framed_centre))]
fn put_framed_centre(
    alloc: Global,
    page: &mut Html,
    tables: Option<&Facts<'_>>,
    frame: &Row,
    rows: &[Row],
) -> Result<(), NoMemory>
    ensures { OnOk result (page.new ≡ page.old ++ framed_centre (option_copied tables.entry) frame.now rows.now) }
{
    put_row(page, centre_open(), frame)?;
    put_load_picture(alloc, page, frame, rows)?;
    put_all_loads(alloc, page, tables, frame, rows)?;
    page.markup(section_end())
}

// Adds a work centre: its loads against its capacities.
#[tactic(auto, unfolding(crate::specs::Centres::centre_html))]
fn put_centre(
    alloc: Global,
    page: &mut Html,
    tables: Option<&Facts<'_>>,
    loads: &Places<'_>,
    leader: &Row,
) -> Result<(), NoMemory>
    ensures { OnOk result (page.new ≡ page.old ++ centre_html (option_copied tables.entry) loads.now leader.now) }
{
    let rows = loads.named(leader.name());
    let frame = centre_frame(alloc, leader.name(), rows)?;
    put_framed_centre(alloc, page, tables, &frame, rows)
}

// Adds work centres.
fn put_each_centre(
    alloc: Global,
    page: &mut Html,
    tables: Option<&Facts<'_>>,
    loads: &Places<'_>,
    leaders: &[&Row],
) -> Result<(), NoMemory>
    ensures { OnOk result (page.new ≡ page.old ++ each_centre (option_copied tables.entry) loads.now (map (λ r. r.now) leaders.now)) }
{
    for leader in leaders {
        put_centre(alloc, page, tables, loads, *leader)?;
    }
    Ok(())
}

// The list of the weeks of work centres that are over their capacity.
#[derive(Clone, Copy)]
struct Overloads<'o, 'k, 's, 'a> {
    alloc: Global,
    scene: &'o Scene<'s, 'a>,
    work: Option<&'o LoadWork<'k, 's, 'a>>,
}

// Adds an overload without the operations that load it.
#[tactic(auto, unfolding(crate::specs::Explained::plain_html))]
fn put_plain(
    alloc: Global,
    page: &mut Html,
    tables: Option<&Facts<'_>>,
    load: &Row,
) -> Result<(), NoMemory>
    ensures { OnOk result (page.new ≡ page.old ++ plain_html (option_copied tables.entry) load.now) }
{
    page.markup(bullet_open())?;
    put_over_words(alloc, page, tables, load)?;
    page.markup(bullet_end())
}

// Adds an overload, with the operations that load it if it was asked for.
fn put_asked(
    alloc: Global,
    page: &mut Html,
    scene: &Scene<'_, '_>,
    work: &LoadWork<'_, '_, '_>,
    load: &Row,
) -> Result<(), NoMemory>
    ensures { OnOk result (page.new ≡ page.old ++ explained_or_plain scene.now work.now.orders load.now (works_of work.now load.now)) }
{
    match work.works(load) {
        Some(works) => put_explained(alloc, page, scene, work.orders(), load, works),
        None => put_plain(alloc, page, scene.tables(), load),
    }
}

impl Lines for Overloads<'_, '_, '_, '_> {
    ghost use Rattle.std.specs.Option.{option_copied};
    ghost use Rattle.mrp_page.specs.Centres.{over_listing};

    ghost drawn = { λ lines. over_listing lines.scene.now (option_copied lines.work) };

    fn put(&self, page: &mut Html, load: &Row) -> Result<(), NoMemory> {
        match self.work {
            Some(work) => put_asked(self.alloc, page, self.scene, work, load),
            None => put_plain(self.alloc, page, self.scene.tables(), load),
        }
    }

    fn front(&self) -> &'static [u8] {
        over_front()
    }

    fn back(&self) -> &'static [u8] {
        list_end()
    }
}

// Adds what is said of the overloads, if the first are explained.
fn put_explained_note(page: &mut Html, work: Option<&LoadWork<'_, '_, '_>>) -> Result<(), NoMemory>
    ensures { OnOk result (page.new ≡ page.old ++ explained_note (option_copied work.entry)) }
{
    match work {
        Some(_) => page.markup(work_note()),
        None => Ok(()),
    }
}

// Adds weeks of work centres that are over their capacity, or that there are none if all weeks are kept.
#[tactic(auto, unfolding(crate::specs::Centres::over_or_none))]
fn put_over_or_none(
    alloc: Global,
    page: &mut Html,
    scene: &Scene<'_, '_>,
    work: Option<&LoadWork<'_, '_, '_>>,
    missed: u64,
    rows: &[&Row],
) -> Result<(), NoMemory>
    ensures { OnOk result (page.new ≡ page.old ++ over_or_none scene.now (option_copied work.entry) missed (map (λ r. r.now) rows.now)) }
{
    if rows.is_empty() && missed == 0 {
        return page.markup(none_over());
    }
    put_count_row(alloc, page, over_open(), rows.len() as u64, b"", b"")?;
    put_explained_note(page, work)?;
    let lines = Overloads { alloc, scene, work };
    put_capped(alloc, page, &lines, SOME_ROWS, rows)
}

// Adds the overloads, the first of them with the operations that load them if the tables are given.
fn put_overloads(
    alloc: Global,
    page: &mut Html,
    scene: &Scene<'_, '_>,
    loads: &[Row],
    missed: u64,
) -> Result<(), NoMemory>
    ensures { OnOk result (page.new ≡ page.old ++ over_or_none scene.now (work_in scene.now loads.now) missed (overloads_first loads.now)) }
{
    let over = overloads_first(alloc, loads)?;
    let (asked, _) = cut_rows(over.as_slice(), MOST_EXPLAINED);
    let work = work_of(alloc, scene, asked)?;
    put_over_or_none(alloc, page, scene, work.as_ref(), missed, over.as_slice())
}

// Adds for how many more weeks there are loads.
#[tactic(auto, unfolding(crate::specs::Centres::centres_back))]
fn put_centres_back(alloc: Global, page: &mut Html, missed: u64) -> Result<(), NoMemory>
    ensures { OnOk result (page.new ≡ page.old ++ centres_back missed) }
{
    put_more(
        alloc,
        page,
        missed,
        b"week of a work centre is",
        b"weeks of work centres are",
    )?;
    page.markup(section_end())
}

// Adds the section of the work centres.
#[tactic(auto, unfolding(crate::specs::Centres::load_section))]
pub(crate) fn put_centres(
    alloc: Global,
    page: &mut Html,
    scene: &Scene<'_, '_>,
    loads: &[Row],
    missed: u64,
) -> Result<(), NoMemory>
    ensures { OnOk result (page.new ≡ page.old ++ load_section scene.now loads.now missed) }
{
    page.markup(centres_open())?;
    put_overloads(alloc, page, scene, loads, missed)?;
    let places = Places::of(alloc, loads)?;
    let centres = leaders(alloc, loads)?;
    put_each_centre(alloc, page, scene.tables(), &places, centres.as_slice())?;
    put_centres_back(alloc, page, missed)
}
