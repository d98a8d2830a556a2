//! The parts of a page: the history.

ghost use Rattle.std.specs.Prelude.{◌≡◌, map};
ghost use Rattle.mrp_page.specs.Template.{drawn_of};
ghost use Rattle.mrp_page.specs.layout.History.{entry, history_end, history_open};

use crate::template::Part;

// An entry of the history.
#[tactic(auto, unfolding(crate::specs::layout::History::entry))]
pub(crate) fn entry() -> &'static [Part]
    ensures { map drawn_of result.now ≡ entry }
{
    &[
        Part::Markup(b"<tr id=\"e"),
        Part::Cell(0),
        Part::Markup(b"\"><th scope=row>"),
        Part::Cell(0),
        Part::Markup(b"</th>"),
        Part::Number(1),
        Part::Markup(b"<td class=t>"),
        Part::Cell(2),
        Part::Markup(b"</td><td class=t>"),
        Part::Cell(3),
        Part::Markup(b"</td>"),
        Part::Week(4),
        Part::Number(5),
        Part::Number(6),
        Part::Markup(b"<td class=t>"),
        Part::Cell(7),
        Part::Markup(b"</td>"),
        Part::Number(8),
        Part::Markup(b"</tr>\n"),
    ]
}

// What the history begins with.
#[tactic(auto, unfolding(crate::specs::layout::History::history_open))]
pub(crate) fn history_open() -> &'static [u8]
    ensures { result.now ≡ history_open }
{
    b"<section id=history>\n<details><summary>History of the order book</summary><div class=scroll tabindex=0 role=region aria-label=\"History of the order book\"><table class=list>\n<caption><span>The calls of the desks and their replies</span></caption>\n<thead><tr><th class=t scope=col>Entry</th><th scope=col>Desk</th><th class=t scope=col>Call</th><th class=t scope=col>Item</th><th scope=col>Week</th><th scope=col>Quantity</th><th scope=col>Number</th><th class=t scope=col>Reply</th><th scope=col>Value</th></tr></thead>\n<tbody>"
}

// What it ends with.
#[tactic(auto, unfolding(crate::specs::layout::History::history_end))]
pub(crate) fn history_end() -> &'static [u8]
    ensures { result.now ≡ history_end }
{
    b"</details>\n</section>\n"
}
