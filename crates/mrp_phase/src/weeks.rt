//! Rows over weeks.

ghost use Rattle.std.specs.Prelude.{◌≡◌, ◌≤◌, ◌<◌, ◌+◌, ◌↔◌, length, sum, replicate, IfOk, OnSome, IfNone, IsSome, IsErrOf, IsOkUnless};
ghost use Rattle.mrp_qty.specs.Quantity.{greatest_quantity, quantity_of};
ghost use Rattle.mrp_phase.specs.Weeks.{greatest_to, in_week, row, sum_to, with_week};

use crate::fault::PhaseFault;
use mrp_qty::{NoMemory, Qty};
use std::alloc::Global;
use std::marker::Model;

/// A value for each week of a horizon. Weeks count from 1 (Orlicky: time phasing).
#[derive(Drop)]
pub struct Weeks<T> {
    values: Vec<T>,
}

impl<T> Model for Weeks<T> {
    ghost use Rattle.std.specs.Prelude.{List};

    ghost Value = { List T };

    ghost view = { λ w. w.values.items };
}

impl<T> Weeks<T> {
    /// The row of these values, from week 1 on. It does not allocate.
    pub fn from_vec(values: Vec<T>) -> Weeks<T>
        ensures { result ≡ values.items }
    {
        Self { values }
    }

    /// The values, from week 1 on. It does not allocate.
    pub fn into_vec(self) -> Vec<T>
        ensures { result.items ≡ self }
    {
        let Weeks { values } = self;
        values
    }

    /// The values, from week 1 on.
    pub fn as_slice(&self) -> &[T]
        ensures { result.now ≡ self.now }
    {
        self.values.as_slice()
    }

    /// The number of weeks.
    pub fn weeks(&self) -> usize
        ensures { result ≡ length self.now }
    {
        self.values.len()
    }
}

fn nothing() -> Qty
    ensures { result ≡ 0 }
{
    Qty::new(0).unwrap()
}

impl Weeks<Qty> {
    /// A row of zeros, one for each week.
    ///
    /// Errors: `NoMemory` if the row cannot be allocated.
    pub fn zero(alloc: Global, weeks: u16) -> Result<Weeks<Qty>, PhaseFault>
        ensures value { IfOk result (λ w. w ≡ replicate weeks 0) }
        ensures memory { IsOkUnless result PhaseFault.NoMemory }
    {
        let quantities = vec![in alloc; nothing(); usize::from(weeks)]?;
        Ok(Weeks::from_vec(quantities))
    }

    /// The sum of a quantity and those of all weeks; overflow yields `None`. It does not allocate.
    #[tactic(auto, using(crate::proofs::WeekRows::sum_to_within, crate::proofs::WeekRows::sum_to_whole, crate::proofs::WeekRows::sum_to_next, crate::proofs::WeekRows::in_week_next))]
    pub fn sum_from(&self, first: Qty) -> Option<Qty>
        ensures { result ≡ quantity_of (first + sum self.now) }
    {
        let quantities = self.as_slice();
        let mut so_far = first;
        for quantity in quantities {
            so_far = so_far.add(*quantity)?;
        }
        Some(so_far)
    }

    /// The sums up to each week.
    ///
    /// Errors: `TooLarge` exactly where the sum of all weeks passes the greatest quantity, before
    /// anything is allocated, and `NoMemory` if the row cannot be allocated.
    pub fn cumulative(&self, alloc: Global) -> Result<Weeks<Qty>, PhaseFault>
        ensures sums { IfOk result (λ w. w ≡ row (length self.now) (sum_to self.now)) }
        ensures too_large { IsErrOf result PhaseFault.TooLarge ↔ greatest_quantity < sum self.now }
    {
        if self.sum_from(nothing()).is_none() {
            return Err(PhaseFault::TooLarge);
        }
        Ok(self.sums(alloc)?)
    }

    // The sums up to each week, of quantities whose sum is a quantity.
    #[tactic(auto, using(crate::proofs::WeekRows::row_none, crate::proofs::WeekRows::row_more, crate::proofs::WeekRows::sum_to_whole, std::proofs::lemmas::List::Sums::sum_by_more))]
    fn sums(&self, alloc: Global) -> Result<Weeks<Qty>, NoMemory>
        requires { sum self.now ≤ greatest_quantity }
        ensures { IfOk result (λ w. w ≡ row (length self.now) (sum_to self.now)) }
    {
        let quantities = self.as_slice();
        let mut sums = Vec::with_capacity(alloc, quantities.len())?;
        let mut so_far = nothing();
        for quantity in quantities {
            so_far = so_far.add(*quantity).unwrap();
            sums.push(so_far)?;
        }
        Ok(Weeks::from_vec(sums))
    }

    /// The greatest quantities up to each week.
    ///
    /// Errors: `NoMemory` if the row cannot be allocated.
    #[tactic(auto, using(crate::proofs::WeekRows::row_none, crate::proofs::WeekRows::row_more, crate::proofs::WeekRows::greatest_none, crate::proofs::WeekRows::greatest_more, crate::proofs::WeekRows::in_week_next))]
    pub fn prefix_max(&self, alloc: Global) -> Result<Weeks<Qty>, PhaseFault>
        ensures value { IfOk result (λ w. w ≡ row (length self.now) (greatest_to (in_week self.now))) }
        ensures memory { IsOkUnless result PhaseFault.NoMemory }
    {
        let quantities = self.as_slice();
        let mut greatest = Vec::with_capacity(alloc, quantities.len())?;
        let mut so_far = nothing();
        for quantity in quantities {
            so_far = so_far.max(*quantity);
            greatest.push(so_far)?;
        }
        Ok(Weeks::from_vec(greatest))
    }

    /// The quantity of a week.
    #[tactic(auto, using(crate::proofs::WeekRows::in_week_at))]
    pub fn at(&self, week: u16) -> Qty
        requires first { 0 < week }
        requires last { week ≤ length self.now }
        ensures { result ≡ in_week self.now week }
    {
        self.values[usize::from(week) - 1]
    }

    /// Adds to the quantity of a week; overflow past 10^15 yields `None` and changes nothing.
    #[tactic(auto, using(crate::proofs::WeekRows::in_week_at, crate::proofs::WeekRows::with_week_at))]
    pub fn add_at(&mut self, week: u16, more: Qty) -> Option<()>
        requires first { 0 < week }
        requires last { week ≤ length self.old }
        ensures fits { IsSome result ↔ (in_week self.old week + more ≤ greatest_quantity) }
        ensures added { OnSome result (self.new ≡ with_week self.old week (in_week self.old week + more)) }
        ensures unchanged { IfNone result (self.new ≡ self.old) }
    {
        let place = usize::from(week) - 1;
        self.values[place] = self.values[place].add(more)?;
        Some(())
    }
}
