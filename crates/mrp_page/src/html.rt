//! The text of a page, piece by piece.

ghost use Rattle.std.specs.Prelude.{◌≡◌, ◌++◌, [], OnOk};
ghost use Rattle.mrp_page.specs.Escaped.{escaped};
ghost use Rattle.mrp_page.specs.Html.{flow_html, is_zero, number_html, number_tag};

use crate::escape::put_escaped;
use mrp_qty::NoMemory;
use std::alloc::Global;
use std::marker::Model;

/// A page so far; contracts see it as its text.
#[derive(Drop)]
pub(crate) struct Html {
    bytes: Vec<u8>,
}

impl Model for Html {
    ghost use Rattle.std.specs.Prelude.{List, ℕ};

    ghost Value = { List ℕ };

    ghost view = { λ page. page.bytes.items };
}

// Whether a number is zero, with or without three decimals.
pub(crate) fn is_zero(text: &[u8]) -> bool
    ensures { result ≡ is_zero text.now }
{
    text == b"0".as_slice() || text == b"0.000".as_slice()
}

// The tag before a number. Zeros are pale.
fn number_tag(text: &[u8]) -> &'static [u8]
    ensures { result.now ≡ number_tag text.now }
{
    if is_zero(text) {
        b"<td class=z>"
    } else {
        b"<td>"
    }
}

impl Html {
    /// A page without text.
    pub(crate) fn new(alloc: Global) -> Html
        ensures { result ≡ [] }
    {
        Html {
            bytes: Vec::new(alloc),
        }
    }

    /// The text.
    pub(crate) fn as_bytes(&self) -> &[u8]
        ensures { result.now ≡ self.now }
    {
        self.bytes.as_slice()
    }

    /// Adds markup as it is.
    pub(crate) fn markup(&mut self, markup: &[u8]) -> Result<(), NoMemory>
        ensures { OnOk result (self.new ≡ self.old ++ markup.now) }
    {
        self.bytes.extend_from_slice(markup)?;
        Ok(())
    }

    /// Adds a text, escaped.
    pub(crate) fn text(&mut self, text: &[u8]) -> Result<(), NoMemory>
        ensures { OnOk result (self.new ≡ self.old ++ escaped text.now) }
    {
        put_escaped(&mut self.bytes, text)
    }

    /// Adds a cell of a table with a number, escaped.
    pub(crate) fn number(&mut self, text: &[u8]) -> Result<(), NoMemory>
        ensures { OnOk result (self.new ≡ self.old ++ number_html text.now) }
    {
        self.markup(number_tag(text))?;
        self.text(text)?;
        self.markup(b"</td>")
    }

    /// Adds a cell of a table with a number that is left empty if it is 0, escaped.
    pub(crate) fn flow(&mut self, text: &[u8]) -> Result<(), NoMemory>
        ensures { OnOk result (self.new ≡ self.old ++ flow_html text.now) }
    {
        if is_zero(text) {
            return self.markup(b"<td></td>");
        }
        self.markup(b"<td>")?;
        self.text(text)?;
        self.markup(b"</td>")
    }
}
