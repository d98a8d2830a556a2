//! The parts of a page: the work centres.

ghost use Rattle.std.specs.Prelude.{◌≡◌, map};
ghost use Rattle.mrp_page.specs.Template.{drawn_of};
ghost use Rattle.mrp_page.specs.layout.Centres.{above_bar, above_end, capacity_label, centre_head, centre_open, centres_open, cut_bar, hot_bar, hot_end, load_chart, load_end, load_label, low_bar, low_end, none_over, over_front, over_label, over_open, over_words, share_cell, share_label};

use crate::template::Part;

// The part of a work centre, with its name.
#[tactic(auto, unfolding(crate::specs::layout::Centres::centre_open))]
pub(crate) fn centre_open() -> &'static [Part]
    ensures { map drawn_of result.now ≡ centre_open }
{
    &[
        Part::Markup(b"<section class=centre id=\"c-"),
        Part::Cell(0),
        Part::Markup(b"\">\n<h3>"),
        Part::Cell(0),
        Part::Markup(b"<a href=\"#centres\">all centres</a></h3>\n"),
    ]
}

// A week's bar up to its capacity.
#[tactic(auto, unfolding(crate::specs::layout::Centres::low_bar))]
pub(crate) fn low_bar() -> &'static [Part]
    ensures { map drawn_of result.now ≡ low_bar }
{
    &[
        Part::Markup(b"M"),
        Part::Cell(1),
        Part::Markup(b" 0v"),
        Part::Cell(5),
        Part::Markup(b"h.8V0z"),
    ]
}

// What these bars end with.
#[tactic(auto, unfolding(crate::specs::layout::Centres::low_end))]
pub(crate) fn low_end() -> &'static [u8]
    ensures { result.now ≡ low_end }
{
    b"\"/><path class=hot d=\""
}

// The part of a week's bar up to its capacity, if there is more of it.
#[tactic(auto, unfolding(crate::specs::layout::Centres::hot_bar))]
pub(crate) fn hot_bar() -> &'static [Part]
    ensures { map drawn_of result.now ≡ hot_bar }
{
    &[
        Part::Markup(b"M"),
        Part::Cell(1),
        Part::Markup(b" 0v"),
        Part::Cell(6),
        Part::Markup(b"h.8V0z"),
    ]
}

// What these bars end with.
#[tactic(auto, unfolding(crate::specs::layout::Centres::hot_end))]
pub(crate) fn hot_end() -> &'static [u8]
    ensures { result.now ≡ hot_end }
{
    b"\"/><path class=above d=\""
}

// The part of a week's bar above its capacity.
#[tactic(auto, unfolding(crate::specs::layout::Centres::above_bar))]
pub(crate) fn above_bar() -> &'static [Part]
    ensures { map drawn_of result.now ≡ above_bar }
{
    &[
        Part::Markup(b"M"),
        Part::Cell(1),
        Part::Markup(b" 100v"),
        Part::Cell(7),
        Part::Markup(b"h.8V100z"),
    ]
}

// What these bars end with.
#[tactic(auto, unfolding(crate::specs::layout::Centres::above_end))]
pub(crate) fn above_end() -> &'static [u8]
    ensures { result.now ≡ above_end }
{
    b"\"/><path class=cut d=\""
}

// The mark of a week's bar that is cut.
#[tactic(auto, unfolding(crate::specs::layout::Centres::cut_bar))]
pub(crate) fn cut_bar() -> &'static [Part]
    ensures { map drawn_of result.now ≡ cut_bar }
{
    &[
        Part::Markup(b"M"),
        Part::Cell(1),
        Part::Markup(b" 204h.8l-.4 "),
        Part::Cell(8),
        Part::Markup(b"z"),
    ]
}

// The heading of a table of a work centre, with its name.
#[tactic(auto, unfolding(crate::specs::layout::Centres::centre_head))]
pub(crate) fn centre_head() -> &'static [Part]
    ensures { map drawn_of result.now ≡ centre_head }
{
    &[
        Part::Markup(
            b"<div class=scroll tabindex=0 role=region aria-label=\"Load and capacity of ",
        ),
        Part::Cell(0),
        Part::Markup(
            b", week by week\"><table class=\"grid loads\" aria-label=\"Load and capacity of ",
        ),
        Part::Cell(0),
        Part::Markup(b"\">\n<thead><tr><th scope=col>Week</th>"),
    ]
}

// The label of a row.
#[tactic(auto, unfolding(crate::specs::layout::Centres::load_label))]
pub(crate) fn load_label() -> &'static [u8]
    ensures { result.now ≡ load_label }
{
    b"<tr><th scope=row>Load, minutes</th>"
}

// The label of a row.
#[tactic(auto, unfolding(crate::specs::layout::Centres::capacity_label))]
pub(crate) fn capacity_label() -> &'static [u8]
    ensures { result.now ≡ capacity_label }
{
    b"<tr><th scope=row>Capacity, minutes</th>"
}

// The label of a row.
#[tactic(auto, unfolding(crate::specs::layout::Centres::share_label))]
pub(crate) fn share_label() -> &'static [u8]
    ensures { result.now ≡ share_label }
{
    b"<tr class=strong><th scope=row>Share, per cent</th>"
}

// The label of a row.
#[tactic(auto, unfolding(crate::specs::layout::Centres::over_label))]
pub(crate) fn over_label() -> &'static [u8]
    ensures { result.now ≡ over_label }
{
    b"<tr class=over><th scope=row>Over, minutes</th>"
}

// A week's share of its capacity.
#[tactic(auto, unfolding(crate::specs::layout::Centres::share_cell))]
pub(crate) fn share_cell() -> &'static [Part]
    ensures { map drawn_of result.now ≡ share_cell }
{
    &[
        Part::Markup(b"<td"),
        Part::If(10, b"bad", b" class=bad"),
        Part::Markup(b">"),
        Part::Cell(4),
        Part::Markup(b"</td>"),
    ]
}

// What the section of the work centres begins with.
#[tactic(auto, unfolding(crate::specs::layout::Centres::centres_open))]
pub(crate) fn centres_open() -> &'static [u8]
    ensures { result.now ≡ centres_open }
{
    b"<section id=centres>\n<h2>Work centres</h2>\n<p class=note>Week 1 holds all work that is late. Released (open) orders load nothing here. Shares of capacity are rounded up.</p>\n"
}

// What stands there if no work centre is over its capacity.
#[tactic(auto, unfolding(crate::specs::layout::Centres::none_over))]
pub(crate) fn none_over() -> &'static [u8]
    ensures { result.now ≡ none_over }
{
    b"<p>No work centre is over its capacity in any week.</p>\n"
}

// How many weeks of work centres are over their capacity.
#[tactic(auto, unfolding(crate::specs::layout::Centres::over_open))]
pub(crate) fn over_open() -> &'static [Part]
    ensures { map drawn_of result.now ≡ over_open }
{
    &[
        Part::Markup(b"<h3>Overloads: "),
        Part::Cell(0),
        Part::Markup(b"</h3>\n"),
    ]
}

// What the list of these begins with.
#[tactic(auto, unfolding(crate::specs::layout::Centres::over_front))]
pub(crate) fn over_front() -> &'static [u8]
    ensures { result.now ≡ over_front }
{
    b"<ul class=over>\n"
}

// What the picture of loads ends with: the line of 100 %.
#[tactic(auto, unfolding(crate::specs::layout::Centres::load_end))]
pub(crate) fn load_end() -> &'static [Part]
    ensures { map drawn_of result.now ≡ load_end }
{
    &[
        Part::Markup(b"\"/></g><path class=full d=\"M.5 -100h"),
        Part::Cell(1),
        Part::Markup(b"\"/></svg></div>\n"),
    ]
}

// The frame of the picture of loads, with the name and the weeks. The line is at 100 %.
#[tactic(auto, unfolding(crate::specs::layout::Centres::load_chart))]
pub(crate) fn load_chart() -> &'static [Part]
    ensures { map drawn_of result.now ≡ load_chart }
{
    &[
        Part::Markup(
            b"<div class=chart><p><span>200 %</span><span>100 %</span><span>0</span></p><p class=axis><span>week 1</span><span>a line behind each thirteenth week</span><span>week ",
        ),
        Part::Cell(1),
        Part::Markup(b"</span></p><svg role=\"img\" viewBox=\"0.5 -226 "),
        Part::Cell(1),
        Part::Markup(b" 226\" preserveAspectRatio=\"none\"><title>Load of "),
        Part::Cell(0),
        Part::Markup(
            b" as a share of its capacity, week by week</title><g transform=\"translate(-.4) scale(1 -1)\"><path class=load d=\"",
        ),
    ]
}

// What is said of a week of a work centre that is over its capacity.
#[tactic(auto, unfolding(crate::specs::layout::Centres::over_words))]
pub(crate) fn over_words() -> &'static [Part]
    ensures { map drawn_of result.now ≡ over_words }
{
    &[
        Part::Markup(b"<b>"),
        Part::Cell(2),
        Part::Cell(3),
        Part::Markup(b"</b> <a href=\"#c-"),
        Part::Cell(0),
        Part::Markup(b"\">"),
        Part::Cell(0),
        Part::Markup(b"</a>, week "),
        Part::Cell(1),
        Part::Date(1),
        Part::Markup(b": <span title=\""),
        Part::Cell(11),
        Part::Markup(b"\">"),
        Part::Cell(9),
        Part::Markup(b"</span> min over"),
    ]
}
