//! The parts of a page: the section *To do*.

ghost use Rattle.std.specs.Prelude.{◌≡◌, map};
ghost use Rattle.mrp_page.specs.Template.{drawn_of};
ghost use Rattle.mrp_page.specs.layout.Todo.{cancel_front, cancel_open, in_front, in_open, late_front, late_open, nothing_to_do, open_pieces, open_receipt, order_start, order_unknown, order_week, other_cells, other_front, other_open, out_front, out_open, release_front, release_open, row_end, task_middle, task_supply, to_week, todo_note, todo_open, weeks_late};

use crate::template::Part;

// What stands in *To do* if the plan has no message.
#[tactic(auto, unfolding(crate::specs::layout::Todo::nothing_to_do))]
pub(crate) fn nothing_to_do() -> &'static [u8]
    ensures { result.now ≡ nothing_to_do }
{
    b"<p>Nothing to do: the plan has no message.</p>\n"
}

// What messages are.
#[tactic(auto, unfolding(crate::specs::layout::Todo::todo_note))]
pub(crate) fn todo_note() -> &'static [u8]
    ensures { result.now ≡ todo_note }
{
    b"<p class=note>Each message speaks of the plan as it stands: change what can be changed, and plan again.</p>\n"
}

// What stands in place of the cells of an order that is not kept.
#[tactic(auto, unfolding(crate::specs::layout::Todo::order_unknown))]
pub(crate) fn order_unknown() -> &'static [u8]
    ensures { result.now ≡ order_unknown }
{
    b"<td></td><td></td><td></td>"
}

// What the table of a kind of messages begins with.
#[tactic(auto, unfolding(crate::specs::layout::Todo::late_front))]
pub(crate) fn late_front() -> &'static [u8]
    ensures { result.now ≡ late_front }
{
    b"<table class=\"list even\" aria-label=\"Past due\"><thead><tr><th class=t scope=col>Item</th><th class=t scope=col>Order</th><th scope=col>Pieces</th><th scope=col>Pieces to start</th><th scope=col>Due week</th><th scope=col>Weeks late</th></tr></thead>\n<tbody>"
}

// What the table of a kind of messages begins with.
#[tactic(auto, unfolding(crate::specs::layout::Todo::release_front))]
pub(crate) fn release_front() -> &'static [u8]
    ensures { result.now ≡ release_front }
{
    b"<table class=\"list even\" aria-label=\"Release\"><thead><tr><th class=t scope=col>Item</th><th class=t scope=col>Order</th><th scope=col>Pieces</th><th scope=col>Pieces to start</th><th scope=col>Due week</th><td></td></tr></thead>\n<tbody>"
}

// What the table of a kind of messages begins with.
#[tactic(auto, unfolding(crate::specs::layout::Todo::in_front))]
pub(crate) fn in_front() -> &'static [u8]
    ensures { result.now ≡ in_front }
{
    b"<table class=\"list even\" aria-label=\"Reschedule in\"><thead><tr><th class=t scope=col>Item</th><th class=t scope=col>Order</th><th scope=col>Pieces</th><td></td><th scope=col>Week</th><th scope=col>To week</th></tr></thead>\n<tbody>"
}

// What the table of a kind of messages begins with.
#[tactic(auto, unfolding(crate::specs::layout::Todo::out_front))]
pub(crate) fn out_front() -> &'static [u8]
    ensures { result.now ≡ out_front }
{
    b"<table class=\"list even\" aria-label=\"Reschedule out\"><thead><tr><th class=t scope=col>Item</th><th class=t scope=col>Order</th><th scope=col>Pieces</th><td></td><th scope=col>Week</th><th scope=col>To week</th></tr></thead>\n<tbody>"
}

// What the table of a kind of messages begins with.
#[tactic(auto, unfolding(crate::specs::layout::Todo::cancel_front))]
pub(crate) fn cancel_front() -> &'static [u8]
    ensures { result.now ≡ cancel_front }
{
    b"<table class=\"list even\" aria-label=\"Cancel\"><thead><tr><th class=t scope=col>Item</th><th class=t scope=col>Order</th><th scope=col>Pieces</th><td></td><th scope=col>Week</th><td></td></tr></thead>\n<tbody>"
}

// What the table of a kind of messages begins with.
#[tactic(auto, unfolding(crate::specs::layout::Todo::other_front))]
pub(crate) fn other_front() -> &'static [u8]
    ensures { result.now ≡ other_front }
{
    b"<table class=\"list even\" aria-label=\"Other messages\"><thead><tr><th class=t scope=col>Item</th><th class=t scope=col>Order</th><th scope=col>Pieces</th><td></td><th scope=col>Week</th><th scope=col>Message</th></tr></thead>\n<tbody>"
}

// What the section *To do* begins with.
#[tactic(auto, unfolding(crate::specs::layout::Todo::todo_open))]
pub(crate) fn todo_open() -> &'static [u8]
    ensures { result.now ≡ todo_open }
{
    b"<section id=todo>\n<h2>To do</h2>\n"
}

// The pieces, the start and the due week of an order.
#[tactic(auto, unfolding(crate::specs::layout::Todo::order_start))]
pub(crate) fn order_start() -> &'static [Part]
    ensures { map drawn_of result.now ≡ order_start }
{
    &[Part::Number(4), Part::Number(5), Part::Week(3)]
}

// The pieces and the due week of an order.
#[tactic(auto, unfolding(crate::specs::layout::Todo::order_week))]
pub(crate) fn order_week() -> &'static [Part]
    ensures { map drawn_of result.now ≡ order_week }
{
    &[Part::Number(4), Part::Markup(b"<td></td>"), Part::Week(3)]
}

// How late an order is.
#[tactic(auto, unfolding(crate::specs::layout::Todo::weeks_late))]
pub(crate) fn weeks_late() -> &'static [Part]
    ensures { map drawn_of result.now ≡ weeks_late }
{
    &[
        Part::Markup(b"<td class=bad>"),
        Part::Cell(4),
        Part::Markup(b"</td></tr>\n"),
    ]
}

// The week that an order should be due in.
#[tactic(auto, unfolding(crate::specs::layout::Todo::to_week))]
pub(crate) fn to_week() -> &'static [Part]
    ensures { map drawn_of result.now ≡ to_week }
{
    &[Part::Week(4), Part::Markup(b"</tr>\n")]
}

// What the row of a message without a value ends with.
#[tactic(auto, unfolding(crate::specs::layout::Todo::row_end))]
pub(crate) fn row_end() -> &'static [Part]
    ensures { map drawn_of result.now ≡ row_end }
{
    &[Part::Markup(b"<td></td></tr>\n")]
}

// The word and the value of a message.
#[tactic(auto, unfolding(crate::specs::layout::Todo::other_cells))]
pub(crate) fn other_cells() -> &'static [Part]
    ensures { map drawn_of result.now ≡ other_cells }
{
    &[
        Part::Markup(b"<td>"),
        Part::Cell(3),
        Part::Markup(b" "),
        Part::Cell(4),
        Part::Markup(b"</td></tr>\n"),
    ]
}

// What the fold of a kind of messages begins with: how many they are.
#[tactic(auto, unfolding(crate::specs::layout::Todo::late_open))]
pub(crate) fn late_open() -> &'static [Part]
    ensures { map drawn_of result.now ≡ late_open }
{
    &[
        Part::Markup(b"<details class=\"kind late\" id=late open><summary><b>Past due: "),
        Part::Cell(0),
        Part::Markup(
            b"</b> <small>release now and expedite; from version 2 on, late by shop days</small></summary>\n",
        ),
    ]
}

// What the fold of a kind of messages begins with: how many they are.
#[tactic(auto, unfolding(crate::specs::layout::Todo::release_open))]
pub(crate) fn release_open() -> &'static [Part]
    ensures { map drawn_of result.now ≡ release_open }
{
    &[
        Part::Markup(b"<details class=\"kind release\" id=release open><summary><b>Release: "),
        Part::Cell(0),
        Part::Markup(b"</b> <small>release this week</small></summary>\n"),
    ]
}

// What the fold of a kind of messages begins with: how many they are.
#[tactic(auto, unfolding(crate::specs::layout::Todo::in_open))]
pub(crate) fn in_open() -> &'static [Part]
    ensures { map drawn_of result.now ≡ in_open }
{
    &[
        Part::Markup(b"<details class=\"kind in\" id=in"),
        Part::If(1, b"open", b" open"),
        Part::Markup(b"><summary><b>Reschedule in: "),
        Part::Cell(0),
        Part::Markup(b"</b> <small>needed before its week</small></summary>\n"),
    ]
}

// What the fold of a kind of messages begins with: how many they are.
#[tactic(auto, unfolding(crate::specs::layout::Todo::out_open))]
pub(crate) fn out_open() -> &'static [Part]
    ensures { map drawn_of result.now ≡ out_open }
{
    &[
        Part::Markup(b"<details class=\"kind out\" id=out"),
        Part::If(1, b"open", b" open"),
        Part::Markup(b"><summary><b>Reschedule out: "),
        Part::Cell(0),
        Part::Markup(b"</b> <small>needed only after its week</small></summary>\n"),
    ]
}

// What the fold of a kind of messages begins with: how many they are.
#[tactic(auto, unfolding(crate::specs::layout::Todo::cancel_open))]
pub(crate) fn cancel_open() -> &'static [Part]
    ensures { map drawn_of result.now ≡ cancel_open }
{
    &[
        Part::Markup(b"<details class=\"kind cancel\" id=cancel"),
        Part::If(1, b"open", b" open"),
        Part::Markup(b"><summary><b>Cancel: "),
        Part::Cell(0),
        Part::Markup(b"</b> <small>not needed within these weeks</small></summary>\n"),
    ]
}

// What the fold of a kind of messages begins with: how many they are.
#[tactic(auto, unfolding(crate::specs::layout::Todo::other_open))]
pub(crate) fn other_open() -> &'static [Part]
    ensures { map drawn_of result.now ≡ other_open }
{
    &[
        Part::Markup(b"<details class=\"kind other\" id=other"),
        Part::If(1, b"open", b" open"),
        Part::Markup(b"><summary><b>Other messages: "),
        Part::Cell(0),
        Part::Markup(b"</b> <small>with words of their own</small></summary>\n"),
    ]
}

// What comes between the item of a message and its supply.
#[tactic(auto, unfolding(crate::specs::layout::Todo::task_middle))]
pub(crate) fn task_middle() -> &'static [u8]
    ensures { result.now ≡ task_middle }
{
    b"</th><td class=t>"
}

// The supply that a message is about.
#[tactic(auto, unfolding(crate::specs::layout::Todo::task_supply))]
pub(crate) fn task_supply() -> &'static [Part]
    ensures { map drawn_of result.now ≡ task_supply }
{
    &[Part::Cell(1), Part::Markup(b" "), Part::Cell(2)]
}

// The pieces of an open order.
#[tactic(auto, unfolding(crate::specs::layout::Todo::open_pieces))]
pub(crate) fn open_pieces() -> &'static [Part]
    ensures { map drawn_of result.now ≡ open_pieces }
{
    &[Part::Number(0), Part::Markup(b"<td></td><td></td>")]
}

// The pieces and the week of an open order, by its receipt.
#[tactic(auto, unfolding(crate::specs::layout::Todo::open_receipt))]
pub(crate) fn open_receipt() -> &'static [Part]
    ensures { map drawn_of result.now ≡ open_receipt }
{
    &[Part::Number(0), Part::Markup(b"<td></td>"), Part::Week(1)]
}
