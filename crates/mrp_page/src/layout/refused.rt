//! The parts of a page: the section *Not promised*.

ghost use Rattle.std.specs.Prelude.{◌≡◌, map};
ghost use Rattle.mrp_page.specs.Template.{drawn_of};
ghost use Rattle.mrp_page.specs.layout.Refused.{entry_link_open, none_refused, refused_answer, refused_asked, refused_desk, refused_end, refused_front, refused_open};

use crate::template::Part;

// What a link to an entry of the history begins with, before the number in its address.
#[tactic(auto, unfolding(crate::specs::layout::Refused::entry_link_open))]
pub(crate) fn entry_link_open() -> &'static [u8]
    ensures { result.now ≡ entry_link_open }
{
    b"<a href=\"#e"
}

// What the section *Not promised* begins with.
#[tactic(auto, unfolding(crate::specs::layout::Refused::refused_open))]
pub(crate) fn refused_open() -> &'static [u8]
    ensures { result.now ≡ refused_open }
{
    b"<section id=unkept>\n<h2>Not promised</h2>\n"
}

// What stands there if each call was answered as it asked.
#[tactic(auto, unfolding(crate::specs::layout::Refused::none_refused))]
pub(crate) fn none_refused() -> &'static [u8]
    ensures { result.now ≡ none_refused }
{
    b"<p>None: each booking was promised, and each cancellation done.</p>\n"
}

// What the table of the calls begins with.
#[tactic(auto, unfolding(crate::specs::layout::Refused::refused_front))]
pub(crate) fn refused_front() -> &'static [u8]
    ensures { result.now ≡ refused_front }
{
    b"<table class=\"list even\" aria-label=\"Not promised\"><thead><tr><th class=t scope=col>Item</th><th class=t scope=col>Answer</th><th scope=col>Pieces</th><th scope=col>Week</th><th scope=col>Desk</th><th scope=col>Entry</th></tr></thead>\n<tbody>"
}

// What a call ends with.
#[tactic(auto, unfolding(crate::specs::layout::Refused::refused_end))]
pub(crate) fn refused_end() -> &'static [u8]
    ensures { result.now ≡ refused_end }
{
    b"</td></tr>\n"
}

// How a call was answered, before the entry that it names.
#[tactic(auto, unfolding(crate::specs::layout::Refused::refused_answer))]
pub(crate) fn refused_answer() -> &'static [Part]
    ensures { map drawn_of result.now ≡ refused_answer }
{
    &[
        Part::Markup(b"</th><td class=t>"),
        Part::If(7, b"short", b"<b>short: "),
        Part::If(7, b"not-standing", b"not standing: entry "),
        Part::If(7, b"not-yours", b"not yours: entry "),
        Part::Cell(8),
        Part::If(7, b"short", b" available</b>"),
    ]
}

// The pieces and the week of a call.
#[tactic(auto, unfolding(crate::specs::layout::Refused::refused_asked))]
pub(crate) fn refused_asked() -> &'static [Part]
    ensures { map drawn_of result.now ≡ refused_asked }
{
    &[Part::Markup(b"</td>"), Part::Number(5), Part::Week(4)]
}

// The desk of a call.
#[tactic(auto, unfolding(crate::specs::layout::Refused::refused_desk))]
pub(crate) fn refused_desk() -> &'static [Part]
    ensures { map drawn_of result.now ≡ refused_desk }
{
    &[Part::Number(1), Part::Markup(b"<td>")]
}
