//! A page, drawn from what was kept of a day.

ghost use Rattle.std.specs.Prelude.{◌≡◌, ◌++◌, IfOk, OnOk, flat_map, map, take};
ghost use Rattle.mrp_page.specs.ItemRows.{item_lists};
ghost use Rattle.std.specs.Option.{option_copied};
ghost use Rattle.mrp_page.specs.Page.{glance_html, head_html, is_told, items_of, page_html, page_of, rest_html, shown_html, told_first, top_html, untold_rows, AreRisksIn};
ghost use Rattle.mrp_page.specs.AtRisk.{RisksView};
ghost use Rattle.mrp_page.specs.Scene.{scene_of};

use crate::centres::put_centres;
use crate::counts::Counts;
use crate::draw::{put_history, put_more_items};
use crate::frame::{heading, put_count_row};
use crate::html::Html;
use crate::item_rows::ItemRows;
use crate::items::{put_index, put_items};
use crate::kinds::put_todo;
use crate::layout::glance::glance_open;
use crate::layout::head::{head_end, page_end, page_head, page_items, page_shown, page_top, style};
use crate::layout::lists::section_end;
use crate::limits::MOST_ITEMS;
use crate::notes::Notes;
use crate::outs::put_outs_section;
use crate::overloaded::put_most_overloaded;
use crate::places::Places;
use crate::promises::{Risks, put_risks};
use crate::refused::put_refused;
use crate::row::Row;
use crate::rows::{leaders, rows_in};
use crate::scene::Scene;
use crate::summary::put_summary;
use crate::template::put_row;
use crate::unshown::unshown;
use crate::weeks::put_start;
use mrp_day::Section;
use mrp_facts::Facts;
use mrp_qty::NoMemory;
use std::alloc::Global;

// Adds the head of a page.
#[tactic(auto, unfolding(crate::specs::Page::head_html))]
fn put_head(page: &mut Html, tables: Option<&Facts<'_>>, heading: &Row) -> Result<(), NoMemory>
    ensures { OnOk result (page.new ≡ page.old ++ head_html (option_copied tables.entry) heading.now) }
{
    put_row(page, page_top(), heading)?;
    page.markup(style())?;
    put_row(page, page_head(), heading)?;
    put_start(page, tables)?;
    put_row(page, page_items(), heading)
}

// Whether the item of a row has messages.
fn is_told(messages: &Places<'_>, row: &Row) -> bool
    ensures { result ≡ is_told messages.now row.now }
{
    !messages.named(row.name()).is_empty()
}

// Adds a row if its item has no messages.
fn add_if_untold<'a>(
    rows: &mut Vec<&'a Row>,
    row: &'a Row,
    messages: &Places<'_>,
) -> Result<(), NoMemory>
    ensures { OnOk result (map (λ r. r.now) rows.new.items ≡ map (λ r. r.now) rows.old.items ++ untold_rows messages.now row.now) }
{
    if !is_told(messages, row) {
        rows.push(row)?;
    }
    Ok(())
}

// Adds the rows whose items have no messages.
fn add_untold<'a>(
    rows: &mut Vec<&'a Row>,
    leaders: &[&'a Row],
    messages: &Places<'_>,
) -> Result<(), NoMemory>
    ensures { OnOk result (map (λ r. r.now) rows.new.items ≡ map (λ r. r.now) rows.old.items ++ flat_map (untold_rows messages.now) (map (λ r. r.now) leaders.now)) }
{
    for leader in leaders {
        add_if_untold(rows, *leader, messages)?;
    }
    Ok(())
}

// The first row of each item with messages, and then those of the other items in the plan.
#[tactic(auto, unfolding(crate::specs::Page::told_first))]
fn told_first<'a>(
    alloc: Global,
    messages: &Places<'a>,
    plan: &'a [Row],
) -> Result<Vec<&'a Row>, NoMemory>
    ensures { IfOk result (λ rows. map (λ r. r.now) rows.items ≡ told_first messages.now plan.now) }
{
    let mut rows = leaders(alloc, messages.rows())?;
    let planned = leaders(alloc, plan)?;
    add_untold(&mut rows, planned.as_slice(), messages)?;
    Ok(rows)
}

// The first of these rows, as many as a page has room for.
fn first_rows<'a, 'b>(rows: &'b [&'a Row]) -> &'b [&'a Row]
    ensures { map (λ r. r.now) result.now ≡ take MOST_ITEMS (map (λ r. r.now) rows.now) }
{
    let count = (MOST_ITEMS as usize).min(rows.len());
    let (first, _) = rows.split_at(count);
    first
}

// Adds an index of items, the items, and how many more there are.
#[tactic(auto, unfolding(crate::specs::Page::items_of))]
fn put_items_of(
    alloc: Global,
    page: &mut Html,
    scene: &Scene<'_, '_>,
    rows: &ItemRows<'_>,
    counts: Counts,
) -> Result<(), NoMemory>
    ensures { OnOk result (page.new ≡ page.old ++ items_of scene.now rows.now counts) }
{
    let shown = scene.shown();
    put_index(alloc, page, rows.messages(), shown)?;
    put_items(alloc, page, scene, rows, counts.promises, shown)?;
    put_more_items(alloc, page, unshown(rows, shown, counts), shown)
}

// Adds the items and the history.
#[tactic(auto, unfolding(crate::specs::Page::rest_html))]
fn put_rest(
    alloc: Global,
    page: &mut Html,
    scene: &Scene<'_, '_>,
    rows: &ItemRows<'_>,
    counts: Counts,
) -> Result<(), NoMemory>
    ensures { OnOk result (page.new ≡ page.old ++ rest_html scene.now rows.now counts) }
{
    put_items_of(alloc, page, scene, rows, counts)?;
    put_history(alloc, page, scene.tables(), scene.history(), counts.history)?;
    page.markup(page_end())
}

// Adds how many items are on the page, if these are not all.
#[tactic(auto, unfolding(crate::specs::Page::shown_html))]
fn put_shown(alloc: Global, page: &mut Html, items: u64, shown: u64) -> Result<(), NoMemory>
    ensures { OnOk result (page.new ≡ page.old ++ shown_html items shown) }
{
    if items <= shown {
        return Ok(());
    }
    put_count_row(alloc, page, page_shown(), shown, b"", b"")
}

// Adds the head of a page: its title, the entry that its run plans from, and its items.
#[tactic(auto, unfolding(crate::specs::Page::top_html))]
fn put_top(
    alloc: Global,
    page: &mut Html,
    title: &[u8],
    tables: Option<&Facts<'_>>,
    report: &[Row],
    items: u64,
    shown: u64,
) -> Result<(), NoMemory>
    ensures { OnOk result (page.new ≡ page.old ++ top_html title.now (option_copied tables.entry) report.now items shown) }
{
    let heading = heading(alloc, title, report, items)?;
    put_head(page, tables, &heading)?;
    put_shown(alloc, page, items, shown)?;
    page.markup(head_end())
}

// Adds what stands at a glance: the items that run out first, and the most overloaded work centres.
#[tactic(auto, unfolding(crate::specs::Page::glance_html))]
fn put_glance(
    alloc: Global,
    page: &mut Html,
    scene: &Scene<'_, '_>,
    report: &[Row],
    missed: u64,
) -> Result<(), NoMemory>
    ensures { OnOk result (page.new ≡ page.old ++ glance_html scene.now report.now missed) }
{
    page.markup(glance_open())?;
    let plan = rows_in(report, Section::Plan);
    put_outs_section(alloc, page, scene, plan, missed)?;
    let loads = rows_in(report, Section::Loads);
    put_most_overloaded(alloc, page, scene.tables(), loads)?;
    page.markup(section_end())
}

// Adds a page, from what its parts are drawn from.
#[tactic(auto, unfolding(crate::specs::Page::page_of))]
fn put_page_of(
    alloc: Global,
    page: &mut Html,
    title: &[u8],
    notes: &Notes,
    rows: &ItemRows<'_>,
    scene: &Scene<'_, '_>,
    risks: &Risks,
) -> Result<(), NoMemory>
    requires { rows.now ≡ item_lists notes.now.report }
    ensures { OnOk result (page.new ≡ page.old ++ page_of title.now notes.now scene.now risks.now) }
{
    let report = notes.report();
    let messages = rows_in(report, Section::Messages);
    let loads = rows_in(report, Section::Loads);
    let counts = notes.counts();
    let shown = scene.count_shown();
    put_top(
        alloc,
        page,
        title,
        scene.tables(),
        report,
        counts.items,
        shown,
    )?;
    put_summary(alloc, page, notes.history(), messages, loads, risks)?;
    put_glance(alloc, page, scene, report, counts.plan)?;
    put_refused(alloc, page, scene, counts.history)?;
    put_risks(alloc, page, scene, risks)?;
    put_todo(alloc, page, scene, messages, counts.messages)?;
    put_centres(alloc, page, scene, loads, counts.loads)?;
    put_rest(alloc, page, scene, rows, counts)
}

// Adds a page that is drawn from a scene.
fn put_page_in(
    alloc: Global,
    page: &mut Html,
    title: &[u8],
    items: &[&[u8]],
    notes: &Notes,
    rows: &ItemRows<'_>,
    scene: &Scene<'_, '_>,
) -> Result<(), NoMemory>
    requires { rows.now ≡ item_lists notes.now.report }
    ensures { OnOk result ((risks : RisksView) × AreRisksIn items.now notes.now risks × (page.new ≡ page.old ++ page_of title.now notes.now scene.now risks)) }
{
    let pegs = rows_in(notes.report(), Section::Pegs);
    let risks = Risks::of(alloc, items, notes.counts(), rows.orders(), pegs)?;
    put_page_of(alloc, page, title, notes, rows, scene, &risks)
}

// Adds a page that shows these items.
fn put_page_showing<'a>(
    alloc: Global,
    page: &mut Html,
    title: &[u8],
    tables: Option<&Facts<'_>>,
    items: &[&[u8]],
    notes: &'a Notes,
    rows: &ItemRows<'a>,
    shown: &[&'a Row],
) -> Result<(), NoMemory>
    requires { rows.now ≡ item_lists notes.now.report }
    ensures { OnOk result ((risks : RisksView) × AreRisksIn items.now notes.now risks × (page.new ≡ page.old ++ page_of title.now notes.now (scene_of (map (λ r. r.now) shown.now) rows.now notes.now.history notes.now.counts.pegs (option_copied tables.entry)) risks)) }
{
    let missed = notes.counts().pegs;
    let scene = Scene::of(alloc, shown, rows, notes.history(), missed, tables)?;
    put_page_in(alloc, page, title, items, notes, rows, &scene)
}

// Adds a page, given the rows of its report that belong to items.
#[tactic(auto, unfolding(crate::specs::Page::page_html, crate::specs::Page::shown_items))]
fn put_page_with<'a>(
    alloc: Global,
    page: &mut Html,
    title: &[u8],
    tables: Option<&Facts<'_>>,
    items: &[&[u8]],
    notes: &'a Notes,
    rows: &ItemRows<'a>,
) -> Result<(), NoMemory>
    requires { rows.now ≡ item_lists notes.now.report }
    ensures { OnOk result ((risks : RisksView) × AreRisksIn items.now notes.now risks × (page.new ≡ page.old ++ page_html title.now (option_copied tables.entry) notes.now risks)) }
{
    let plan = rows_in(notes.report(), Section::Plan);
    let leaders = told_first(alloc, rows.messages(), plan)?;
    let shown = first_rows(leaders.as_slice());
    put_page_showing(alloc, page, title, tables, items, notes, rows, shown)
}

// Adds a page, with what the tables of the day add to it if they are given.
//
// Errors: `NoMemory` if an allocation fails.
pub(crate) fn put_page(
    alloc: Global,
    page: &mut Html,
    title: &[u8],
    tables: Option<&Facts<'_>>,
    items: &[&[u8]],
    notes: &Notes,
) -> Result<(), NoMemory>
    ensures { OnOk result ((risks : RisksView) × AreRisksIn items.now notes.now risks × (page.new ≡ page.old ++ page_html title.now (option_copied tables.entry) notes.now risks)) }
{
    let rows = ItemRows::of(alloc, notes.report())?;
    put_page_with(alloc, page, title, tables, items, notes, &rows)
}
