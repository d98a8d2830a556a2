//! Quantities of pieces.

ghost use Rattle.std.specs.Prelude.{◌≡◌, ◌≤◌, ◌<◌, ◌+◌, ◌*◌};
ghost use Rattle.mrp_qty.specs.Quantity.{greatest_quantity, multiple_of, quantity_of, start_of};

use std::marker::Model;

/// The greatest scrap, per thousand pieces started.
pub const MOST_SCRAP: u64 = 900;

/// The greatest quantity, in pieces (profile).
pub const GREATEST_QUANTITY: u64 = 1_000_000_000_000_000;

/// A quantity in whole pieces, from 0 to `GREATEST_QUANTITY`.
#[derive(Clone, Copy, Debug, PartialEq, Eq, PartialOrd, Ord)]
pub struct Qty {
    pieces: u64,
}

impl Model for Qty {
    ghost use Rattle.std.specs.Prelude.{ℕ, ◌≤◌};
    ghost use Rattle.mrp_qty.specs.Quantity.{greatest_quantity};

    ghost Value = { ℕ };

    ghost view = { λ q. q.pieces };

    ghost invariant = { λ q. q.pieces ≤ greatest_quantity };

    ghost inverse = { λ n. record { pieces = n } };
}

impl Qty {
    /// A number of pieces as a quantity; `None` above `GREATEST_QUANTITY`.
    pub fn new(pieces: u64) -> Option<Qty>
        ensures { result ≡ quantity_of pieces }
    {
        if pieces <= GREATEST_QUANTITY {
            Some(Qty { pieces })
        } else {
            None
        }
    }

    /// The number of pieces.
    pub fn value(self) -> u64
        ensures pieces { result ≡ self }
        ensures within { result ≤ greatest_quantity }
    {
        self.pieces
    }

    /// The sum; `None` above `GREATEST_QUANTITY`.
    pub fn add(self, other: Qty) -> Option<Qty>
        ensures { result ≡ quantity_of (self + other) }
    {
        Qty::new(self.value() + other.value())
    }

    /// This quantity for each of `per` pieces; `None` above `GREATEST_QUANTITY`.
    pub fn times(self, per: u64) -> Option<Qty>
        ensures { result ≡ quantity_of (self * per) }
    {
        let product = u128::from(self.value()) * u128::from(per);
        Qty::new(u64::try_from(product).ok()?)
    }

    /// The pieces to start so that this quantity remains after `scrap` per thousand, at most
    /// `MOST_SCRAP` (Orlicky: scrap allowance; profile: rounded up); `None` above `GREATEST_QUANTITY`.
    pub fn start_for(self, scrap: u64) -> Option<Qty>
        requires { scrap ≤ MOST_SCRAP }
        ensures { result ≡ quantity_of (start_of scrap self) }
    {
        Qty::new((self.value() * 1000).div_ceil(1000 - scrap))
    }

    /// The least multiple of a size, at least 1, that covers this quantity (Orlicky: fixed order
    /// quantity; profile for several lots at once); `None` above `GREATEST_QUANTITY`.
    pub fn up_to_multiple(self, size: u64) -> Option<Qty>
        requires { 0 < size }
        ensures { result ≡ quantity_of (multiple_of size self) }
    {
        Qty::new(self.value().div_ceil(size))?.times(size)
    }
}
