//! The parts of a page: time-phased records and their pictures.

ghost use Rattle.std.specs.Prelude.{◌≡◌, map};
ghost use Rattle.mrp_page.specs.Template.{drawn_of};
ghost use Rattle.mrp_page.specs.layout.Records.{available_label, balance_chart, balance_label, balance_scale, booked_label, date_end, date_open, firm_label, gross_label, later_open, line_open, no_promises, no_record, planned_label, point, points_end, record_head, safety_line, safety_scale, scheduled_label, starts_label, week, week_end, weeks_end};

use crate::template::Part;

// A week of a table's heading.
#[tactic(auto, unfolding(crate::specs::layout::Records::week))]
pub(crate) fn week() -> &'static [Part]
    ensures { map drawn_of result.now ≡ week }
{
    &[Part::Markup(b"<th scope=col>"), Part::Cell(1)]
}

// What it ends with.
#[tactic(auto, unfolding(crate::specs::layout::Records::week_end))]
pub(crate) fn week_end() -> &'static [u8]
    ensures { result.now ≡ week_end }
{
    b"</th>"
}

// What the date of a week begins with, below its number.
#[tactic(auto, unfolding(crate::specs::layout::Records::date_open))]
pub(crate) fn date_open() -> &'static [u8]
    ensures { result.now ≡ date_open }
{
    b"<br><small>"
}

// What it ends with.
#[tactic(auto, unfolding(crate::specs::layout::Records::date_end))]
pub(crate) fn date_end() -> &'static [u8]
    ensures { result.now ≡ date_end }
{
    b"</small>"
}

// A week and its balance.
#[tactic(auto, unfolding(crate::specs::layout::Records::point))]
pub(crate) fn point() -> &'static [Part]
    ensures { map drawn_of result.now ≡ point }
{
    &[
        Part::Cell(1),
        Part::Markup(b","),
        Part::Cell(7),
        Part::Markup(b" "),
    ]
}

// What the weeks of a table end with.
#[tactic(auto, unfolding(crate::specs::layout::Records::weeks_end))]
pub(crate) fn weeks_end() -> &'static [u8]
    ensures { result.now ≡ weeks_end }
{
    b"</tr></thead>\n<tbody>\n"
}

// The label of a row.
#[tactic(auto, unfolding(crate::specs::layout::Records::scheduled_label))]
pub(crate) fn scheduled_label() -> &'static [u8]
    ensures { result.now ≡ scheduled_label }
{
    b"<tr><th scope=row>Scheduled receipts</th>"
}

// The label of a row.
#[tactic(auto, unfolding(crate::specs::layout::Records::firm_label))]
pub(crate) fn firm_label() -> &'static [u8]
    ensures { result.now ≡ firm_label }
{
    b"<tr><th scope=row>Firm master schedule</th>"
}

// The label of a row.
#[tactic(auto, unfolding(crate::specs::layout::Records::booked_label))]
pub(crate) fn booked_label() -> &'static [u8]
    ensures { result.now ≡ booked_label }
{
    b"<tr><th scope=row>Booked</th>"
}

// The label of a row.
#[tactic(auto, unfolding(crate::specs::layout::Records::available_label))]
pub(crate) fn available_label() -> &'static [u8]
    ensures { result.now ≡ available_label }
{
    b"<tr class=strong><th scope=row>Available to promise</th>"
}

// The label of a row.
#[tactic(auto, unfolding(crate::specs::layout::Records::gross_label))]
pub(crate) fn gross_label() -> &'static [u8]
    ensures { result.now ≡ gross_label }
{
    b"<tr><th scope=row>Gross requirements</th>"
}

// The label of a row.
#[tactic(auto, unfolding(crate::specs::layout::Records::planned_label))]
pub(crate) fn planned_label() -> &'static [u8]
    ensures { result.now ≡ planned_label }
{
    b"<tr><th scope=row>Planned order receipts</th>"
}

// The label of a row.
#[tactic(auto, unfolding(crate::specs::layout::Records::starts_label))]
pub(crate) fn starts_label() -> &'static [u8]
    ensures { result.now ≡ starts_label }
{
    b"<tr><th scope=row>Order releases (starts)</th>"
}

// The label of a row.
#[tactic(auto, unfolding(crate::specs::layout::Records::balance_label))]
pub(crate) fn balance_label() -> &'static [u8]
    ensures { result.now ≡ balance_label }
{
    b"<tr class=strong><th scope=row>Projected available balance</th>"
}

// The note for an item whose record is not kept.
#[tactic(auto, unfolding(crate::specs::layout::Records::no_record))]
pub(crate) fn no_record() -> &'static [u8]
    ensures { result.now ≡ no_record }
{
    b"<p class=more>No record here: this item stands behind the first ones, which a page has room for. The option <code>--items</code> shows it.</p>\n"
}

// The note for an item that may have promises that are not kept.
#[tactic(auto, unfolding(crate::specs::layout::Records::no_promises))]
pub(crate) fn no_promises() -> &'static [u8]
    ensures { result.now ≡ no_promises }
{
    b"<p class=more>If this is a master item, its rows of what is booked and available to promise stand behind those that a page has room for. The option <code>--items</code> shows them.</p>\n"
}

// What the further weeks are folded behind.
#[tactic(auto, unfolding(crate::specs::layout::Records::later_open))]
pub(crate) fn later_open() -> &'static [u8]
    ensures { result.now ≡ later_open }
{
    b"<details class=later><summary>Further weeks</summary>\n"
}

// What the picture of balances ends with.
#[tactic(auto, unfolding(crate::specs::layout::Records::points_end))]
pub(crate) fn points_end() -> &'static [u8]
    ensures { result.now ≡ points_end }
{
    b"\"/></svg></div>\n"
}

// The heading of a table of an item's time-phased record, with its name.
#[tactic(auto, unfolding(crate::specs::layout::Records::record_head))]
pub(crate) fn record_head() -> &'static [Part]
    ensures { map drawn_of result.now ≡ record_head }
{
    &[
        Part::Markup(b"<div class=scroll tabindex=0 role=region aria-label=\"Record of "),
        Part::Cell(0),
        Part::Markup(b", week by week\"><table class=grid aria-label=\"Time-phased record of "),
        Part::Cell(0),
        Part::Markup(b"\">\n<thead><tr><th scope=col>Week</th>"),
    ]
}

// What the scale of the picture of balances begins with: the greatest number.
#[tactic(auto, unfolding(crate::specs::layout::Records::balance_scale))]
pub(crate) fn balance_scale() -> &'static [Part]
    ensures { map drawn_of result.now ≡ balance_scale }
{
    &[
        Part::Markup(b"<div class=chart><p><span>"),
        Part::Cell(2),
        Part::Markup(b"</span>"),
    ]
}

// What this scale says of a safety stock, given the pieces.
#[tactic(auto, unfolding(crate::specs::layout::Records::safety_scale))]
pub(crate) fn safety_scale() -> &'static [Part]
    ensures { map drawn_of result.now ≡ safety_scale }
{
    &[
        Part::Markup(b"<span>dashes: safety stock "),
        Part::Cell(0),
        Part::Markup(b"</span>"),
    ]
}

// The frame of the picture of balances, with the name, the weeks and the greatest number.
#[tactic(auto, unfolding(crate::specs::layout::Records::balance_chart))]
pub(crate) fn balance_chart() -> &'static [Part]
    ensures { map drawn_of result.now ≡ balance_chart }
{
    &[
        Part::Markup(
            b"<span>0</span></p><p class=axis><span>week 1</span><span>a line behind each thirteenth week</span><span>week ",
        ),
        Part::Cell(1),
        Part::Markup(b"</span></p><svg role=\"img\" viewBox=\"0.5 -"),
        Part::Cell(2),
        Part::Markup(b" "),
        Part::Cell(1),
        Part::Markup(b" "),
        Part::Cell(2),
        Part::Markup(b"\" preserveAspectRatio=\"none\"><title>Projected available balance of "),
        Part::Cell(0),
        Part::Markup(b"</title><path class=zero d=\"M.5 0h"),
        Part::Cell(1),
        Part::Markup(b"\"/>"),
    ]
}

// What the line of a picture of balances begins with.
#[tactic(auto, unfolding(crate::specs::layout::Records::line_open))]
pub(crate) fn line_open() -> &'static [u8]
    ensures { result.now ≡ line_open }
{
    b"<polyline transform=\"scale(1 -1)\" points=\""
}

// The line of the safety stock in a picture of balances, given the pieces and the weeks.
#[tactic(auto, unfolding(crate::specs::layout::Records::safety_line))]
pub(crate) fn safety_line() -> &'static [Part]
    ensures { map drawn_of result.now ≡ safety_line }
{
    &[
        Part::Markup(b"<path class=zero stroke-dasharray=\"6 4\" d=\"M.5 -"),
        Part::Cell(0),
        Part::Markup(b"h"),
        Part::Cell(1),
        Part::Markup(b"\"><title>Safety stock: "),
        Part::Cell(0),
        Part::Markup(b"</title></path>"),
    ]
}
