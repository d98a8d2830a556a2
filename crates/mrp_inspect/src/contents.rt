//! The texts of a folder's files, as their bundle has them.

ghost use Rattle.std.specs.Prelude.{◌≡◌, ◌++◌, ℕ, IfOk, List, map};
ghost use Rattle.mrp_rows.specs.Joined.{Part, joined, section_bytes, section_of};
ghost use Rattle.mrp_inspect.specs.Pieces.{content_of};

use mrp_qty::NoMemory;
use mrp_rows::Table;
use std::alloc::Global;

// The text of a file whose section is the next of a bundle, and what follows it.
fn next_content<'a>(bundle: &'a [u8], table: Table, bytes: &[u8]) -> (&'a [u8], &'a [u8])
    requires { (more : List ℕ) × (bundle.now ≡ section_bytes (section_of (table, bytes.now)) ++ more) }
    ensures text { result.0.now ≡ content_of bytes.now }
    ensures rest { (more : List ℕ) → bundle.now ≡ section_bytes (section_of (table, bytes.now)) ++ more → result.1.now ≡ more }
{
    // Two brackets and a line feed.
    let (_, below) = bundle.split_at(table.name().len() + 3);
    below.split_at(bytes.len() + 1)
}

// The texts of files, from their bundle.
pub(crate) fn contents_of<'a>(
    alloc: Global,
    bundle: &'a [u8],
    tables: &[(Table, Vec<u8>)],
) -> Result<Vec<(Table, &'a [u8])>, NoMemory>
    requires { bundle.now ≡ joined (map (λ part. (part.0, part.1.items)) tables.now) }
    ensures { IfOk result (λ contents. map {B = Part} (λ content. (content.0, content.1.now)) contents.items ≡ map (λ part. (part.0, content_of part.1.items)) tables.now) }
{
    let mut contents = Vec::with_capacity(alloc, tables.len())?;
    let mut rest = bundle;
    for (table, bytes) in tables {
        let (content, next) = next_content(rest, *table, bytes.as_slice());
        contents.push((*table, content))?;
        rest = next;
    }
    Ok(contents)
}
