//! The legal history that makes given claims.

ghost use Rattle.std.specs.Prelude.{◌≡◌, ◌<◌, ◌≤◌, All, length};
ghost use Rattle.std.specs.Int.{IsInRange};
ghost use Rattle.mrp_tables.specs.declared.limits.TheConstants.{MOST_DESKS, MOST_ENTRIES};
ghost use Rattle.mrp_book.specs.History.{Fits};
ghost use Rattle.mrp_claims.specs.Claims.{IsClaim};
ghost use Rattle.mrp_audit.specs.Parts.{FollowsClaims, IsClaimJudged, Retraces};

use crate::fault::AuditFault;
use mrp_bill::Shop;
use mrp_book::{Book, History, Refused, Reply};
use mrp_claims::{Claim, ClaimedReply, is_claimed};
use std::alloc::Global;

// Whether a claim is what the book answered in the entry with this number.
fn judge(entry: u64, reply: &Reply, claim: ClaimedReply) -> Result<(), AuditFault>
    ensures { IsClaimJudged entry reply.now claim result }
{
    if is_claimed(reply, claim) {
        Ok(())
    } else {
        Err(AuditFault::HistoryNotLegal { entry })
    }
}

// The fault for a call that a book refused although it was not full.
fn refusal(refused: Refused) -> AuditFault
    requires { refused ≡ Refused.NoMemory }
    ensures { result ≡ AuditFault.NoMemory }
{
    match refused {
        Refused::NoMemory => AuditFault::NoMemory,
        Refused::Full => unreachable!(),
    }
}

// Makes the call of one more claim, and compares the book's reply with the claimed one.
fn retrace(alloc: Global, book: &mut Book, claim: &Claim) -> Result<(), AuditFault>
    requires desk { IsInRange 1 MOST_DESKS claim.now.desk }
    requires fits { Fits book.old.supply claim.now.call }
    requires room { length book.old.entries < MOST_ENTRIES }
    ensures { Retraces book.old claim.now result book.new }
{
    let _legal = book.entries();
    match book.call(alloc, claim.desk, claim.call) {
        Ok((entry, reply)) => judge(entry, &reply, claim.reply),
        Err(refused) => Err(refusal(refused)),
    }
}

/// The legal history of a shop that makes these claims.
///
/// Errors: `HistoryNotLegal` with the first entry whose reply is not the one that the entries
/// before it decide; `NoMemory` if an allocation fails.
pub(crate) fn history_of(
    alloc: Global,
    shop: &Shop,
    claims: &[Claim],
) -> Result<History, AuditFault>
    requires few { length claims.now ≤ MOST_ENTRIES }
    requires each { All (IsClaim shop.now.tables) claims.now }
    ensures { FollowsClaims shop.now.tables claims.now result }
{
    let mut book = Book::open(alloc, shop)?;
    for claim in claims {
        retrace(alloc, &mut book, claim)?;
    }
    let history = book.into_history();
    let _legal = history.entries();
    Ok(history)
}
