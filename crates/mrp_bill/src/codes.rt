//! Low-level codes.

ghost use Rattle.std.specs.Prelude.{◌≡◌, ◌<◌, ◌≤◌, ◌⊎◌, ℕ, suc, All, length, slice_index, IfOk};
ghost use Rattle.std.specs.List.{Contains};
ghost use Rattle.mrp_bill.specs.Bill.{HoldsEachOnce};
ghost use Rattle.mrp_bill.specs.Climb.{IsSettled};
ghost use Rattle.mrp_bill.specs.Links.{AreRising};
ghost use Rattle.mrp_bill.specs.Grouped.{IsListed};

use crate::groups::Grouped;
use mrp_qty::NoMemory;
use std::alloc::Global;

// One above the greatest code of the parents, 0 without parents.
fn code_below(parents: &[usize], codes: &[usize]) -> usize
    requires within { All (λ p. p < length codes.now) parents.now }
    requires low { All (λ p. slice_index codes.now p < length codes.now) parents.now }
    ensures above { All (λ p. slice_index codes.now p < result) parents.now }
    ensures from_one { (n : ℕ) → result ≡ suc n → (p : ℕ) × Contains parents.now p × (slice_index codes.now p ≡ n) }
{
    let mut code = 0;
    for parent in parents {
        if codes[*parent] >= code {
            code = codes[*parent] + 1;
        }
    }
    code
}

// The items' low-level codes, from an order in which parents come before their components.
pub fn codes_of(
    alloc: Global,
    parents: &Grouped<usize>,
    order: &[usize],
) -> Result<Vec<usize>, NoMemory>
    requires within { (p i : ℕ) → IsListed parents.now p i → p < length parents.now }
    requires size { length order.now ≡ length parents.now }
    requires all { HoldsEachOnce (length parents.now) order.now }
    requires settled { IsSettled (IsListed parents.now) order.now }
    ensures size { IfOk result (λ codes. length codes.items ≡ length parents.now) }
    ensures codes { IfOk result (λ codes. AreRising (IsListed parents.now) (slice_index codes.items)) }
    ensures low { IfOk result (λ codes. All (λ code. code < length parents.now) codes.items) }
{
    let mut codes = vec![in alloc; 0; parents.count()]?;
    for item in order {
        codes[*item] = code_below(parents.group(*item), &codes);
    }
    Ok(codes)
}

// The greatest code, 0 if there is none.
pub fn greatest(codes: &[usize]) -> usize
    ensures greatest { All (λ code. code ≤ result) codes.now }
    ensures reached { (result ≡ 0) ⊎ Contains codes.now result }
{
    codes.iter().copied().max().unwrap_or(0)
}
