//! The sum of the tables that a journal's answers are given from.

ghost use Rattle.std.specs.Prelude.{◌≡◌, IfOk, map, string_bytes};
ghost use Rattle.mrp_open.specs.Sum.{sum_text};

use mrp_qty::NoMemory;
use mrp_rows::Table;
use mrp_words::join_tables;
use sha2::{Digest, Sha256};
use std::alloc::Global;

/// The text of the file `desk.tables`: the SHA-256 sum of the bundle of these tables, in 64 hexadecimal digits, and a
/// line feed.
///
/// Errors: `NoMemory` if an allocation fails.
pub fn sum_text(alloc: Global, tables: &[(Table, Vec<u8>)]) -> Result<String, NoMemory>
    ensures { IfOk result (λ text. string_bytes text ≡ sum_text (map (λ part. (part.0, part.1.items)) tables.now)) }
{
    let bundle = join_tables(alloc, tables)?;
    let digest = Sha256::digest(bundle.as_slice());
    let mut text = hex::encode(alloc, digest.as_slice())?;
    text.push('\n')?;
    Ok(text)
}
