//! The parts of a page: the head of a page and its end.

ghost use Rattle.std.specs.Prelude.{◌≡◌, map};
ghost use Rattle.mrp_page.specs.Template.{drawn_of};
ghost use Rattle.mrp_page.specs.layout.Head.{centre_tile, head_end, main_open, page_end, page_head, page_items, page_shown, page_top, start_end, start_open, style, summary_open, summary_tile};

use crate::style::STYLE;
use crate::template::Part;

// The style sheet.
#[tactic(auto, unfolding(crate::specs::layout::Head::style))]
pub(crate) fn style() -> &'static [u8]
    ensures { result.now ≡ style }
{
    STYLE.as_bytes()
}

// What comes before the style sheet: the title.
#[tactic(auto, unfolding(crate::specs::layout::Head::page_top))]
pub(crate) fn page_top() -> &'static [Part]
    ensures { map drawn_of result.now ≡ page_top }
{
    &[
        Part::Markup(
            b"<!doctype html>\n<html lang=\"en\">\n<head>\n<meta charset=\"utf-8\">\n<meta name=\"viewport\" content=\"width=device-width, initial-scale=1\">\n<title>",
        ),
        Part::Cell(0),
        Part::Markup(b"</title>\n<style>\n"),
    ]
}

// What a page ends with.
#[tactic(auto, unfolding(crate::specs::layout::Head::page_end))]
pub(crate) fn page_end() -> &'static [u8]
    ensures { result.now ≡ page_end }
{
    b"</main>\n</body>\n</html>\n"
}

// What the counts of a page stand in.
#[tactic(auto, unfolding(crate::specs::layout::Head::summary_open))]
pub(crate) fn summary_open() -> &'static [u8]
    ensures { result.now ≡ summary_open }
{
    b"<p class=sum>"
}

// A count that leads to a part of the page.
#[tactic(auto, unfolding(crate::specs::layout::Head::summary_tile))]
pub(crate) fn summary_tile() -> &'static [Part]
    ensures { map drawn_of result.now ≡ summary_tile }
{
    &[
        Part::Markup(b"<a class=\""),
        Part::Cell(1),
        Part::Markup(b"\" href=\"#"),
        Part::Cell(2),
        Part::Markup(b"\"><b>"),
        Part::Cell(0),
        Part::Markup(b"</b>"),
        Part::Cell(3),
        Part::Markup(b"</a>"),
    ]
}

// How many of all work centres are over their capacity.
#[tactic(auto, unfolding(crate::specs::layout::Head::centre_tile))]
pub(crate) fn centre_tile() -> &'static [Part]
    ensures { map drawn_of result.now ≡ centre_tile }
{
    &[
        Part::Markup(b"<a class=\""),
        Part::Cell(1),
        Part::Markup(b"\" href=\"#"),
        Part::Cell(2),
        Part::Markup(b"\"><b>"),
        Part::Cell(0),
        Part::Markup(b"</b>of "),
        Part::Cell(4),
        Part::Markup(b" centres over capacity</a>"),
    ]
}

// The head of a page: the title, the entry that the run plans from, the bookings that stand there, the weeks.
#[tactic(auto, unfolding(crate::specs::layout::Head::page_head))]
pub(crate) fn page_head() -> &'static [Part]
    ensures { map drawn_of result.now ≡ page_head }
{
    &[
        Part::Markup(b"</style>\n</head>\n<body style=\"--weeks:"),
        Part::Cell(3),
        Part::Markup(b"\">\n<header>\n<h1>"),
        Part::Cell(0),
        Part::Markup(b"</h1>\n<p>Plan at entry <b>"),
        Part::Cell(1),
        Part::Markup(b"</b> of the history; bookings standing: <b>"),
        Part::Cell(2),
        Part::Markup(b"</b>; weeks: <b>"),
        Part::Cell(3),
        Part::Markup(b"</b>"),
    ]
}

// What the date of the first week begins with.
#[tactic(auto, unfolding(crate::specs::layout::Head::start_open))]
pub(crate) fn start_open() -> &'static [u8]
    ensures { result.now ≡ start_open }
{
    b" from <b>"
}

// What it ends with.
#[tactic(auto, unfolding(crate::specs::layout::Head::start_end))]
pub(crate) fn start_end() -> &'static [u8]
    ensures { result.now ≡ start_end }
{
    b"</b>"
}

// The rest of the head of a page: the items.
#[tactic(auto, unfolding(crate::specs::layout::Head::page_items))]
pub(crate) fn page_items() -> &'static [Part]
    ensures { map drawn_of result.now ≡ page_items }
{
    &[
        Part::Markup(b"; items: <b>"),
        Part::Cell(4),
        Part::Markup(b"</b>"),
        Part::If(4, b"0", b" (the plan has none, or none that was asked for)"),
    ]
}

// How many items are on the page.
#[tactic(auto, unfolding(crate::specs::layout::Head::page_shown))]
pub(crate) fn page_shown() -> &'static [Part]
    ensures { map drawn_of result.now ≡ page_shown }
{
    &[
        Part::Markup(b", on this page: <b>"),
        Part::Cell(0),
        Part::Markup(b"</b>"),
    ]
}

// What the first lines of a page end with.
#[tactic(auto, unfolding(crate::specs::layout::Head::head_end))]
pub(crate) fn head_end() -> &'static [u8]
    ensures { result.now ≡ head_end }
{
    b"</p>\n"
}

// What comes between the head of a page and its parts: links to these.
#[tactic(auto, unfolding(crate::specs::layout::Head::main_open))]
pub(crate) fn main_open() -> &'static [u8]
    ensures { result.now ≡ main_open }
{
    b"</p>\n</header>\n<nav><a href=\"#unkept\">Not promised</a><a href=\"#risk\">Promises at risk</a><a href=\"#todo\">To do</a><a href=\"#glance\">At a glance</a><a href=\"#centres\">Work centres</a><a href=\"#items\">Items</a><a href=\"#history\">History</a></nav>\n<main>\n"
}
