//! The parts of a page: the operations behind an overload.

ghost use Rattle.std.specs.Prelude.{◌≡◌, map};
ghost use Rattle.mrp_page.specs.Template.{drawn_of};
ghost use Rattle.mrp_page.specs.layout.Work.{work_back, work_blank, work_count, work_end, work_head, work_name, work_note, work_open, work_operation, work_other, work_rest, work_share, work_unknown};

use crate::template::Part;

// What stands above the overloads if the tables are given.
#[tactic(auto, unfolding(crate::specs::layout::Work::work_note))]
pub(crate) fn work_note() -> &'static [u8]
    ensures { result.now ≡ work_note }
{
    b"<p class=note>Behind each of the first 100 stand the operations that load it, those first that take the most time.</p>\n"
}

// What the table of these operations begins with.
#[tactic(auto, unfolding(crate::specs::layout::Work::work_head))]
pub(crate) fn work_head() -> &'static [Part]
    ensures { map drawn_of result.now ≡ work_head }
{
    &[
        Part::Markup(b"<div class=scroll tabindex=0 role=region aria-label=\"What loads "),
        Part::Cell(0),
        Part::Markup(b" in week "),
        Part::Cell(1),
        Part::Markup(b"\"><table class=\"list waits\" aria-label=\"Operations at "),
        Part::Cell(0),
        Part::Markup(b" in week "),
        Part::Cell(1),
        Part::Markup(
            b"\"><thead><tr><th class=t scope=col>Order</th><th scope=col>Operation</th><th scope=col>Minutes</th><th scope=col>Share of capacity</th><th scope=col>Pieces to start</th><th scope=col>Due week</th><th scope=col>Weeks late</th></tr></thead>\n<tbody>",
        ),
    ]
}

// The order of an operation.
#[tactic(auto, unfolding(crate::specs::layout::Work::work_name))]
pub(crate) fn work_name() -> &'static [Part]
    ensures { map drawn_of result.now ≡ work_name }
{
    &[
        Part::Cell(0),
        Part::Markup(b" "),
        Part::Cell(2),
        Part::Markup(b" "),
        Part::Cell(1),
    ]
}

// The number of an operation.
#[tactic(auto, unfolding(crate::specs::layout::Work::work_operation))]
pub(crate) fn work_operation() -> &'static [Part]
    ensures { map drawn_of result.now ≡ work_operation }
{
    &[Part::Markup(b"</th>"), Part::Number(0)]
}

// The share of a capacity that a time takes.
#[tactic(auto, unfolding(crate::specs::layout::Work::work_share))]
pub(crate) fn work_share() -> &'static [Part]
    ensures { map drawn_of result.now ≡ work_share }
{
    &[
        Part::Markup(b"<td>"),
        Part::Cell(0),
        Part::Cell(1),
        Part::Markup(b"</td>"),
    ]
}

// The start, the due week and the lateness of the order of an operation.
#[tactic(auto, unfolding(crate::specs::layout::Work::work_back))]
pub(crate) fn work_back() -> &'static [Part]
    ensures { map drawn_of result.now ≡ work_back }
{
    &[
        Part::Number(5),
        Part::Week(3),
        Part::Number(7),
        Part::Markup(b"</tr>\n"),
    ]
}

// How many more operations there are.
#[tactic(auto, unfolding(crate::specs::layout::Work::work_rest))]
pub(crate) fn work_rest() -> &'static [Part]
    ensures { map drawn_of result.now ≡ work_rest }
{
    &[
        Part::Markup(b"<tr><th scope=row>and "),
        Part::Cell(0),
        Part::Markup(b" more</th><td></td>"),
    ]
}

// What stands in place of an operation for what else a load has.
#[tactic(auto, unfolding(crate::specs::layout::Work::work_other))]
pub(crate) fn work_other() -> &'static [u8]
    ensures { result.now ≡ work_other }
{
    b"<tr><th scope=row>the rest of this load</th><td></td>"
}

// What stands in place of an order.
#[tactic(auto, unfolding(crate::specs::layout::Work::work_blank))]
pub(crate) fn work_blank() -> &'static [u8]
    ensures { result.now ≡ work_blank }
{
    b"<td></td><td></td><td class=z></td></tr>\n"
}

// What stands in its place if the operations take more time than the load has.
#[tactic(auto, unfolding(crate::specs::layout::Work::work_unknown))]
pub(crate) fn work_unknown() -> &'static [u8]
    ensures { result.now ≡ work_unknown }
{
    b"<p class=note>By the routings of these tables the orders take more time than this load: they are not those of the day.</p>\n"
}

// What an overload ends with that has its operations behind it.
#[tactic(auto, unfolding(crate::specs::layout::Work::work_end))]
pub(crate) fn work_end() -> &'static [u8]
    ensures { result.now ≡ work_end }
{
    b"</details></li>\n"
}

// What an overload begins with that has its operations behind it.
#[tactic(auto, unfolding(crate::specs::layout::Work::work_open))]
pub(crate) fn work_open() -> &'static [u8]
    ensures { result.now ≡ work_open }
{
    b"<li><details><summary>"
}

// How many operations load it.
#[tactic(auto, unfolding(crate::specs::layout::Work::work_count))]
pub(crate) fn work_count() -> &'static [Part]
    ensures { map drawn_of result.now ≡ work_count }
{
    &[
        Part::Markup(b"; "),
        Part::Cell(0),
        Part::Markup(b" "),
        Part::Cell(1),
        Part::Markup(b"</summary>\n"),
    ]
}
