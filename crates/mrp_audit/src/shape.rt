//! The shape of a given day: the claims of the history that it begins with.

ghost use Rattle.std.specs.Prelude.{◌↔◌, IsTrue};
ghost use Rattle.mrp_audit.specs.Reading.{ReadsHistory, TakesClaim};
ghost use Rattle.mrp_claims.specs.Shape.{EndsHistory};

use crate::fault::AuditFault;
use mrp_bill::Shop;
use mrp_claims::{Claim, claim_in, split_record};
use mrp_day::Section;
use mrp_tables::limits::MOST_ENTRIES;
use std::alloc::Global;

/// The claims of the history that a text begins with, and how many bytes it has.
#[derive(Drop)]
pub(crate) struct Given {
    pub(crate) claims: Vec<Claim>,
    pub(crate) len: usize,
}

/// Whether a history ends before this text.
pub(crate) fn is_end(text: &[u8]) -> bool
    ensures { IsTrue result ↔ EndsHistory text.now }
{
    match text.first() {
        None => true,
        Some(byte) => *byte == b'[',
    }
}

// The claim of the entry with this number, which a text begins with, and how many bytes its record
// has.
fn next_claim(
    alloc: Global,
    shop: &Shop,
    number: u64,
    text: &[u8],
) -> Result<(Claim, usize), AuditFault>
    ensures { TakesClaim shop.now.tables number text.now result }
{
    let tables = shop.tables();
    // Items have names, and weeks are few: a record is short.
    let _named = tables.items();
    let _weeks = tables.calendar().weeks();
    let Some((cells, len)) = split_record(alloc, text)? else {
        return Err(AuditFault::Shape);
    };
    match claim_in(shop, number, &cells) {
        Some(claim) => Ok((claim, len)),
        None => Err(AuditFault::Shape),
    }
}

/// Reads the history that a text begins with.
///
/// Errors: `Shape` if the text does not begin with one; `NoMemory` if an allocation fails.
pub(crate) fn read_history(alloc: Global, shop: &Shop, text: &[u8]) -> Result<Given, AuditFault>
    ensures { ReadsHistory shop.now.tables text.now result }
{
    let head = Section::History.head().as_bytes();
    if !text.starts_with(head) {
        return Err(AuditFault::Shape);
    }
    let mut claims = Vec::new(alloc);
    let mut len = head.len();
    for number in 1..=MOST_ENTRIES {
        let (_, rest) = text.split_at(len);
        if is_end(rest) {
            return Ok(Given { claims, len });
        }
        // Taken apart so that the proof knows the type of the call.
        let (Claim { desk, call, reply }, taken) = next_claim(alloc, shop, number, rest)?;
        claims.push(Claim { desk, call, reply })?;
        len += taken;
    }
    let (_, rest) = text.split_at(len);
    if is_end(rest) {
        Ok(Given { claims, len })
    } else {
        Err(AuditFault::Shape)
    }
}
