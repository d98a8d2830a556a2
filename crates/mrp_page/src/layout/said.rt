//! The parts of a page: the messages of an item.

ghost use Rattle.std.specs.Prelude.{◌≡◌, map};
ghost use Rattle.mrp_page.specs.Template.{drawn_of};
ghost use Rattle.mrp_page.specs.layout.Said.{no_message, said_back, said_front, said_open, said_other_back, said_other_front, said_pieces, said_receipt, said_start, said_week};

use crate::template::Part;

// What a message begins with that has a standard term: this.
#[tactic(auto, unfolding(crate::specs::layout::Said::said_front))]
pub(crate) fn said_front() -> &'static [Part]
    ensures { map drawn_of result.now ≡ said_front }
{
    &[
        Part::Markup(b"<li class=\""),
        Part::If(3, b"PAST-DUE", b"late"),
        Part::If(3, b"RELEASE", b"release"),
        Part::If(3, b"IN", b"in"),
        Part::If(3, b"OUT", b"out"),
        Part::If(3, b"CANCEL", b"cancel"),
        Part::Markup(b"\">"),
        Part::If(3, b"PAST-DUE", b"Past due: "),
        Part::If(3, b"RELEASE", b"Release: "),
        Part::If(3, b"IN", b"Reschedule in: "),
        Part::If(3, b"OUT", b"Reschedule out: "),
        Part::If(3, b"CANCEL", b"Cancel: "),
    ]
}

// What it ends with: its value, if that has a meaning.
#[tactic(auto, unfolding(crate::specs::layout::Said::said_back))]
pub(crate) fn said_back() -> &'static [Part]
    ensures { map drawn_of result.now ≡ said_back }
{
    &[
        Part::If(3, b"IN", b" to week "),
        Part::If(3, b"OUT", b" to week "),
        Part::If(
            3,
            b"PAST-DUE",
            b", weeks late (shop days from version 2 on): ",
        ),
        Part::Cell(4),
        Part::DateIf(3, b"IN", 4),
        Part::DateIf(3, b"OUT", 4),
        Part::Markup(b"</li>\n"),
    ]
}

// What any other message begins with: its own word.
#[tactic(auto, unfolding(crate::specs::layout::Said::said_other_front))]
pub(crate) fn said_other_front() -> &'static [Part]
    ensures { map drawn_of result.now ≡ said_other_front }
{
    &[Part::Markup(b"<li>"), Part::Cell(3), Part::Markup(b": ")]
}

// What the messages of an item begin with.
#[tactic(auto, unfolding(crate::specs::layout::Said::said_open))]
pub(crate) fn said_open() -> &'static [u8]
    ensures { result.now ≡ said_open }
{
    b"<ul class=said>\n"
}

// What stands at an item without messages.
#[tactic(auto, unfolding(crate::specs::layout::Said::no_message))]
pub(crate) fn no_message() -> &'static [u8]
    ensures { result.now ≡ no_message }
{
    b"<p class=note>No message on this page.</p>\n"
}

// What any other message ends with: its value.
#[tactic(auto, unfolding(crate::specs::layout::Said::said_other_back))]
pub(crate) fn said_other_back() -> &'static [Part]
    ensures { map drawn_of result.now ≡ said_other_back }
{
    &[Part::Markup(b" "), Part::Cell(4), Part::Markup(b"</li>\n")]
}

// The pieces that a message is about.
#[tactic(auto, unfolding(crate::specs::layout::Said::said_pieces))]
pub(crate) fn said_pieces() -> &'static [Part]
    ensures { map drawn_of result.now ≡ said_pieces }
{
    &[Part::Markup(b", "), Part::Cell(0), Part::Cell(1)]
}

// The start and the due week of an order to be released.
#[tactic(auto, unfolding(crate::specs::layout::Said::said_start))]
pub(crate) fn said_start() -> &'static [Part]
    ensures { map drawn_of result.now ≡ said_start }
{
    &[
        Part::Markup(b", "),
        Part::Cell(5),
        Part::Markup(b" to start, due week "),
        Part::Cell(3),
        Part::Date(3),
    ]
}

// The week of any other order.
#[tactic(auto, unfolding(crate::specs::layout::Said::said_week))]
pub(crate) fn said_week() -> &'static [Part]
    ensures { map drawn_of result.now ≡ said_week }
{
    &[Part::Markup(b", week "), Part::Cell(3), Part::Date(3)]
}

// The week of an open order, by its receipt.
#[tactic(auto, unfolding(crate::specs::layout::Said::said_receipt))]
pub(crate) fn said_receipt() -> &'static [Part]
    ensures { map drawn_of result.now ≡ said_receipt }
{
    &[Part::Markup(b", week "), Part::Cell(1), Part::Date(1)]
}
