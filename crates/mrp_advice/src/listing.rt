//! Lines as texts, one behind the other.

ghost use Rattle.std.specs.Prelude.{◌≡◌, length};
ghost use Rattle.mrp_advice.specs.Listing as spec;

use std::alloc::{AllocError, Global};
use std::mem;

/// Lines, one below the other. A remark stands behind the first.
#[derive(Drop)]
pub struct Listing {
    // The texts in front, to which nothing is added any more.
    front: Vec<String>,
    pub(crate) text: String,
    remark: String,
    // Where the words of each line end.
    ends: Vec<usize>,
}

// What stands behind the next line.
fn remark_after<'a>(ends: &[usize], remark: &'a str) -> &'a str
    ensures { result.now ≡ spec.remark_after (length ends.now) remark.now }
{
    if ends.is_empty() { remark } else { "" }
}

impl Listing {
    ghost use Rattle.std.specs.Prelude.{◌≡◌, IfOk, OnOk, flat_map, string_bytes};
    ghost use Rattle.mrp_advice.specs.Listing.{ended, listed_in, none_listed, with_line, with_listed};

    /// No line, with the remark for the first.
    pub fn new(alloc: Global, remark: String) -> Listing
        ensures { listed_in result ≡ none_listed (string_bytes remark) }
    {
        Listing {
            front: Vec::new(alloc),
            text: String::new(alloc),
            remark,
            ends: Vec::new(alloc),
        }
    }

    /// How many lines there are.
    pub fn count(&self) -> usize
        ensures { result ≡ (listed_in self.now).count }
    {
        self.ends.len()
    }

    // Ends the line whose words were added to the text.
    pub(crate) fn end(&mut self) -> Result<(), AllocError>
        ensures { OnOk result (listed_in self.new ≡ ended (listed_in self.old)) }
    {
        let end = self.text.len();
        let remark = remark_after(&self.ends, &self.remark);
        self.text.push_str(remark)?;
        self.text.push_str("\n")?;
        self.ends.push(end)?;
        Ok(())
    }

    /// Adds a line.
    ///
    /// Errors: `AllocError` if an allocation fails.
    pub fn push(&mut self, line: &str) -> Result<(), AllocError>
        ensures { OnOk result (listed_in self.new ≡ with_line (listed_in self.old) line.now) }
    {
        self.text.push_str(line)?;
        self.end()
    }

    // Adds other lines, which are listed without a remark. No text is copied.
    pub(crate) fn append(&mut self, others: Listing) -> Result<(), AllocError>
        ensures { OnOk result (listed_in self.new ≡ with_listed (listed_in self.old) (listed_in others)) }
    {
        let mut others = others;
        let own = mem::replace(&mut self.text, others.text);
        self.front.push(own)?;
        self.front.append(&mut others.front)?;
        self.ends.append(&mut others.ends)?;
        Ok(())
    }

    /// The texts that one behind the other are all lines, each with a line feed behind it.
    ///
    /// Errors: `AllocError` if an allocation fails.
    pub fn into_texts(self) -> Result<Vec<String>, AllocError>
        ensures { IfOk result (λ texts. flat_map string_bytes texts.items ≡ (listed_in self).text) }
    {
        let Listing { front, text, .. } = self;
        let mut texts = front;
        texts.push(text)?;
        Ok(texts)
    }
}
