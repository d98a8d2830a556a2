//! The parts of a page: what lists and links have in common.

ghost use Rattle.std.specs.Prelude.{◌≡◌, map};
ghost use Rattle.mrp_page.specs.Template.{drawn_of};
ghost use Rattle.mrp_page.specs.layout.Lists.{bullet_end, bullet_open, grid_end, link_end, link_middle, link_open, list_end, more, rest_end, rest_open, row_open, section_end, table_end, title_end, title_open};

use crate::template::Part;

// What a link to an item begins with, before the name in its address.
#[tactic(auto, unfolding(crate::specs::layout::Lists::link_open))]
pub(crate) fn link_open() -> &'static [u8]
    ensures { result.now ≡ link_open }
{
    b"<a href=\"#i-"
}

// What comes between the address and the name that is shown.
#[tactic(auto, unfolding(crate::specs::layout::Lists::link_middle))]
pub(crate) fn link_middle() -> &'static [u8]
    ensures { result.now ≡ link_middle }
{
    b"\">"
}

// What a table over the weeks ends with.
#[tactic(auto, unfolding(crate::specs::layout::Lists::grid_end))]
pub(crate) fn grid_end() -> &'static [u8]
    ensures { result.now ≡ grid_end }
{
    b"</tbody></table></div>\n"
}

// What a section ends with.
#[tactic(auto, unfolding(crate::specs::layout::Lists::section_end))]
pub(crate) fn section_end() -> &'static [u8]
    ensures { result.now ≡ section_end }
{
    b"</section>\n"
}

// How many more are not shown, with the number and the words for it.
#[tactic(auto, unfolding(crate::specs::layout::Lists::more))]
pub(crate) fn more() -> &'static [Part]
    ensures { map drawn_of result.now ≡ more }
{
    &[
        Part::Markup(b"<p class=more>and "),
        Part::Cell(0),
        Part::Markup(b" more "),
        Part::Cell(1),
        Part::Markup(b" not shown</p>\n"),
    ]
}

// What a list's table ends with.
#[tactic(auto, unfolding(crate::specs::layout::Lists::table_end))]
pub(crate) fn table_end() -> &'static [u8]
    ensures { result.now ≡ table_end }
{
    b"</tbody></table>\n"
}

// What the rows that are folded end with.
#[tactic(auto, unfolding(crate::specs::layout::Lists::rest_end))]
pub(crate) fn rest_end() -> &'static [u8]
    ensures { result.now ≡ rest_end }
{
    b"</details>\n"
}

// What rows that are folded begin with: how many they are.
#[tactic(auto, unfolding(crate::specs::layout::Lists::rest_open))]
pub(crate) fn rest_open() -> &'static [Part]
    ensures { map drawn_of result.now ≡ rest_open }
{
    &[
        Part::Markup(b"<details class=rest><summary>and "),
        Part::Cell(0),
        Part::Markup(b" more</summary>\n"),
    ]
}

// What it ends with.
#[tactic(auto, unfolding(crate::specs::layout::Lists::link_end))]
pub(crate) fn link_end() -> &'static [u8]
    ensures { result.now ≡ link_end }
{
    b"</a>"
}

// What the tag of a cell begins with that has a title.
#[tactic(auto, unfolding(crate::specs::layout::Lists::title_open))]
pub(crate) fn title_open() -> &'static [u8]
    ensures { result.now ≡ title_open }
{
    b"<td title=\""
}

// What it ends with.
#[tactic(auto, unfolding(crate::specs::layout::Lists::title_end))]
pub(crate) fn title_end() -> &'static [u8]
    ensures { result.now ≡ title_end }
{
    b"\">"
}

// What a row of a list begins with, before its head.
#[tactic(auto, unfolding(crate::specs::layout::Lists::row_open))]
pub(crate) fn row_open() -> &'static [u8]
    ensures { result.now ≡ row_open }
{
    b"<tr><th scope=row>"
}

// What a list of sentences ends with.
#[tactic(auto, unfolding(crate::specs::layout::Lists::list_end))]
pub(crate) fn list_end() -> &'static [u8]
    ensures { result.now ≡ list_end }
{
    b"</ul>\n"
}

// What a line of such a list begins with.
#[tactic(auto, unfolding(crate::specs::layout::Lists::bullet_open))]
pub(crate) fn bullet_open() -> &'static [u8]
    ensures { result.now ≡ bullet_open }
{
    b"<li>"
}

// What it ends with.
#[tactic(auto, unfolding(crate::specs::layout::Lists::bullet_end))]
pub(crate) fn bullet_end() -> &'static [u8]
    ensures { result.now ≡ bullet_end }
{
    b"</li>\n"
}
