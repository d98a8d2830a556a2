//! What the records of a given history claim.

ghost use Rattle.std.specs.Prelude.{◌≡◌, ◌↔◌, IsTrue};
ghost use Rattle.mrp_claims.specs.Claims.{claimed};

use mrp_book::{Call, Reply};

/// A record of a given history: a desk's call, and the reply that the history claims.
#[derive(Clone, Copy, Debug, PartialEq, Eq)]
pub struct Claim {
    pub desk: u64,
    pub call: Call,
    pub reply: ClaimedReply,
}

/// A reply as a history claims it, with its value.
#[derive(Clone, Copy, Debug, PartialEq, Eq)]
pub enum ClaimedReply {
    Booked(u64),
    Short(u64),
    Cancelled,
    NotStanding,
    NotYours,
    Available(u64),
    Week(u64),
    NoWeek,
    Front(u64),
}

impl ClaimedReply {
    /// What a history says for a reply.
    pub fn of(reply: &Reply) -> ClaimedReply
        ensures { result ≡ claimed reply.now }
    {
        match reply {
            Reply::Booked(number) => ClaimedReply::Booked(*number),
            Reply::Short(available) => ClaimedReply::Short(available.value()),
            Reply::Cancelled => ClaimedReply::Cancelled,
            Reply::NotStanding => ClaimedReply::NotStanding,
            Reply::NotYours => ClaimedReply::NotYours,
            Reply::Available(available) => ClaimedReply::Available(available.value()),
            Reply::Week(week) => ClaimedReply::Week(u64::from(*week)),
            Reply::NoWeek => ClaimedReply::NoWeek,
            Reply::Taken(snapshot) => ClaimedReply::Front(snapshot.front()),
            Reply::Front(number) => ClaimedReply::Front(*number),
        }
    }
}

/// Whether a reply is the one that is claimed.
pub fn is_claimed(reply: &Reply, claim: ClaimedReply) -> bool
    ensures { IsTrue result ↔ (claimed reply.now ≡ claim) }
{
    ClaimedReply::of(reply) == claim
}

/// Whether two calls are the same.
pub fn is_same_call(one: &Call, other: &Call) -> bool
    ensures { IsTrue result ↔ (one.now ≡ other.now) }
{
    one == other
}
