//! The parts of a page: the section *Promises at risk*.

ghost use Rattle.std.specs.Prelude.{◌≡◌, map};
ghost use Rattle.mrp_page.specs.Template.{drawn_of};
ghost use Rattle.mrp_page.specs.layout.Risk.{none_at_risk, risk_booking, risk_front, risk_middle, risk_note, risk_open, risk_order, risks_unknown};

use crate::template::Part;

// What the section *Promises at risk* begins with.
#[tactic(auto, unfolding(crate::specs::layout::Risk::risk_open))]
pub(crate) fn risk_open() -> &'static [u8]
    ensures { result.now ≡ risk_open }
{
    b"<section id=risk>\n<h2>Promises at risk</h2>\n"
}

// What stands above the bookings at risk.
#[tactic(auto, unfolding(crate::specs::layout::Risk::risk_note))]
pub(crate) fn risk_note() -> &'static [u8]
    ensures { result.now ≡ risk_note }
{
    b"<p class=note>Bookings that wait, through any number of orders, for an order past due; with the latest such order.</p>\n"
}

// What stands there if no booking is at risk.
#[tactic(auto, unfolding(crate::specs::layout::Risk::none_at_risk))]
pub(crate) fn none_at_risk() -> &'static [u8]
    ensures { result.now ≡ none_at_risk }
{
    b"<p>None: no booking waits for an order past due.</p>\n"
}

// What stands there if not all orders and pegs are kept.
#[tactic(auto, unfolding(crate::specs::layout::Risk::risks_unknown))]
pub(crate) fn risks_unknown() -> &'static [u8]
    ensures { result.now ≡ risks_unknown }
{
    b"<p>Not known: this takes all orders and pegs of the day, and not all are on this page.</p>\n"
}

// What the table of the bookings at risk begins with.
#[tactic(auto, unfolding(crate::specs::layout::Risk::risk_front))]
pub(crate) fn risk_front() -> &'static [u8]
    ensures { result.now ≡ risk_front }
{
    b"<table class=\"list even\" aria-label=\"Promises at risk\"><thead><tr><th class=t scope=col>Item</th><th scope=col>Booking</th><th scope=col>Pieces</th><th scope=col>Week</th><th class=t scope=col>Latest order</th><th scope=col>Weeks late</th></tr></thead>\n<tbody>"
}

// What comes between the item of a booking and its number.
#[tactic(auto, unfolding(crate::specs::layout::Risk::risk_booking))]
pub(crate) fn risk_booking() -> &'static [u8]
    ensures { result.now ≡ risk_booking }
{
    b"</th><td>"
}

// The pieces and the week of a booking at risk.
#[tactic(auto, unfolding(crate::specs::layout::Risk::risk_middle))]
pub(crate) fn risk_middle() -> &'static [Part]
    ensures { map drawn_of result.now ≡ risk_middle }
{
    &[
        Part::Markup(b"</td>"),
        Part::Number(3),
        Part::Week(1),
        Part::Markup(b"<td class=t>"),
    ]
}

// The late order that a booking waits for.
#[tactic(auto, unfolding(crate::specs::layout::Risk::risk_order))]
pub(crate) fn risk_order() -> &'static [Part]
    ensures { map drawn_of result.now ≡ risk_order }
{
    &[
        Part::Cell(5),
        Part::Markup(b" "),
        Part::Cell(7),
        Part::Markup(b" "),
        Part::Cell(6),
    ]
}
