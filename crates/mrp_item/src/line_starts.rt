//! A bill line to a part, as it is exploded.

use mrp_qty::Qty;
use std::marker::Model;

/// A bill line to a part: the starts of its parent in each week, and the quantity per.
#[derive(Drop)]
pub struct LineStarts<'a> {
    started: &'a [Qty],
    per: u64,
}

impl<'a> Model for LineStarts<'a> {
    ghost use Rattle.mrp_item.specs.DependentDemand.{LineStarts};

    ghost Value = { LineStarts };

    ghost view = { λ line. record { started = line.started.now; per = line.per } };
}

impl<'a> LineStarts<'a> {
    ghost use Rattle.std.specs.Prelude.{◌≡◌, ◌<◌, ◌+◌, length};
    ghost use Rattle.mrp_qty.specs.Quantity.{quantity_of};
    ghost use Rattle.mrp_item.specs.DependentDemand.{required_in};

    // The line with these starts and this quantity per.
    pub fn new(started: &'a [Qty], per: u64) -> LineStarts<'a>
        ensures { result ≡ record { started = started.now; per = per } }
    {
        LineStarts { started, per }
    }

    // What the line requires in the week after so many; overflow yields `None`.
    pub fn required(&self, before: usize) -> Option<Qty>
        requires { before < length self.now.started }
        ensures { result ≡ quantity_of (required_in (before + 1) self.now) }
    {
        let started = self.started;
        started[before].times(self.per)
    }
}
