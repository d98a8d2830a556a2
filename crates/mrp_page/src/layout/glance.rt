//! The parts of a page: what stands at a glance.

ghost use Rattle.std.specs.Prelude.{◌≡◌, map};
ghost use Rattle.mrp_page.specs.Template.{drawn_of};
ghost use Rattle.mrp_page.specs.layout.Glance.{glance_open, none_out, out_cells, out_first_open, out_late, outs_front, outs_head_end, outs_note, outs_safety, overloaded_line, overloaded_open};

use crate::template::Part;

// What the section *At a glance* begins with.
#[tactic(auto, unfolding(crate::specs::layout::Glance::glance_open))]
pub(crate) fn glance_open() -> &'static [u8]
    ensures { result.now ≡ glance_open }
{
    b"<section id=glance>\n<h2>At a glance</h2>\n"
}

// What the section *Runs out first* begins with.
#[tactic(auto, unfolding(crate::specs::layout::Glance::out_first_open))]
pub(crate) fn out_first_open() -> &'static [u8]
    ensures { result.now ≡ out_first_open }
{
    b"<section id=out-first>\n<h3>Runs out first</h3>\n"
}

// What stands there if no item runs out.
#[tactic(auto, unfolding(crate::specs::layout::Glance::none_out))]
pub(crate) fn none_out() -> &'static [u8]
    ensures { result.now ≡ none_out }
{
    b"<p>No item: stock and the orders that are placed are enough.</p>\n"
}

// What stands above the items that run out first: how many there are.
#[tactic(auto, unfolding(crate::specs::layout::Glance::outs_note))]
pub(crate) fn outs_note() -> &'static [Part]
    ensures { map drawn_of result.now ≡ outs_note }
{
    &[
        Part::Markup(
            b"<p class=note>The first week in which stock and the orders that are placed are not enough, what is left then without planned orders, and how late the first of these is. Items that run out within these weeks: ",
        ),
        Part::Cell(0),
        Part::Markup(b".</p>\n"),
    ]
}

// What the table of the items that run out first begins with.
#[tactic(auto, unfolding(crate::specs::layout::Glance::outs_front))]
pub(crate) fn outs_front() -> &'static [u8]
    ensures { result.now ≡ outs_front }
{
    b"<table class=\"list even waits\" aria-label=\"Runs out first\"><thead><tr><th class=t scope=col>Item</th><th scope=col>Week</th><th scope=col>Left</th>"
}

// What its head has besides if the tables are given.
#[tactic(auto, unfolding(crate::specs::layout::Glance::outs_safety))]
pub(crate) fn outs_safety() -> &'static [u8]
    ensures { result.now ≡ outs_safety }
{
    b"<th scope=col>Safety stock</th>"
}

// What its head ends with.
#[tactic(auto, unfolding(crate::specs::layout::Glance::outs_head_end))]
pub(crate) fn outs_head_end() -> &'static [u8]
    ensures { result.now ≡ outs_head_end }
{
    b"<th scope=col>Weeks late</th></tr></thead>\n<tbody>"
}

// An item that runs out, after its name: the week, and what is left.
#[tactic(auto, unfolding(crate::specs::layout::Glance::out_cells))]
pub(crate) fn out_cells() -> &'static [Part]
    ensures { map drawn_of result.now ≡ out_cells }
{
    &[
        Part::Markup(b"</th>"),
        Part::Week(1),
        Part::Markup(b"<td>"),
        Part::Cell(2),
        Part::Cell(3),
        Part::Markup(b"</td>"),
    ]
}

// How late the first planned order of such an item is.
#[tactic(auto, unfolding(crate::specs::layout::Glance::out_late))]
pub(crate) fn out_late() -> &'static [Part]
    ensures { map drawn_of result.now ≡ out_late }
{
    &[Part::Number(4), Part::Markup(b"</tr>\n")]
}

// What the most overloaded work centres begin with.
#[tactic(auto, unfolding(crate::specs::layout::Glance::overloaded_open))]
pub(crate) fn overloaded_open() -> &'static [u8]
    ensures { result.now ≡ overloaded_open }
{
    b"<section id=overloaded>\n<h3>Most overloaded work centres</h3>\n"
}

// What is said of such a work centre.
#[tactic(auto, unfolding(crate::specs::layout::Glance::overloaded_line))]
pub(crate) fn overloaded_line() -> &'static [Part]
    ensures { map drawn_of result.now ≡ overloaded_line }
{
    &[
        Part::Markup(b"<p><a href=\"#c-"),
        Part::Cell(0),
        Part::Markup(b"\">"),
        Part::Cell(0),
        Part::Markup(b"</a>: over in "),
        Part::Cell(1),
        Part::Markup(b" of "),
        Part::Cell(2),
        Part::Markup(b" weeks, "),
        Part::If(4, b" %", b"at most "),
        Part::Markup(b"<b class=bad>"),
        Part::Cell(3),
        Part::Cell(4),
        Part::Markup(b"</b> in week "),
        Part::Cell(5),
        Part::Date(5),
        Part::Markup(b"; <span class=n>"),
        Part::Cell(6),
        Part::Cell(7),
        Part::Markup(b"</span> over all weeks</p>\n"),
    ]
}
