//! A bundle joined from separate tables.

ghost use Rattle.std.specs.Prelude.{◌≡◌, ◌++◌, IfOk, OnOk, map};
ghost use Rattle.mrp_rows.specs.Joined.{joined, section_bytes, section_of};

use crate::fault::Table;
use mrp_qty::NoMemory;
use std::alloc::Global;

/// The bundle of some tables' bytes, in the order given: for each its section line, as `[items]`,
/// its bytes and a line feed.
///
/// A section line in a part's bytes begins a section of its own, as in every bundle.
///
/// Errors: `NoMemory` if the bundle cannot be allocated.
pub fn join_bundle(alloc: Global, parts: &[(Table, &[u8])]) -> Result<Vec<u8>, NoMemory>
    ensures { IfOk result (λ bundle.
        bundle.items ≡ joined (map (λ part. (part.0, part.1.now)) parts.now)) }
{
    let mut bundle = Vec::new(alloc);
    for part in parts {
        let (table, bytes) = *part;
        push_section(&mut bundle, table, bytes)?;
    }
    Ok(bundle)
}

// Appends a table's section to a bundle.
fn push_section(bundle: &mut Vec<u8>, table: Table, bytes: &[u8]) -> Result<(), NoMemory>
    ensures { OnOk result (bundle.new.items
        ≡ bundle.old.items ++ section_bytes (section_of (table, bytes.now))) }
{
    bundle.extend_from_slice(b"[")?;
    bundle.extend_from_slice(table.name().as_bytes())?;
    bundle.extend_from_slice(b"]\n")?;
    bundle.extend_from_slice(bytes)?;
    bundle.extend_from_slice(b"\n")?;
    Ok(())
}
