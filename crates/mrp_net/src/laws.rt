//! What follows from the definitions alone, each law the contract of a function that does nothing.

ghost use Rattle.std.specs.Prelude.{◌≡◌, ℕ, List};
ghost use Rattle.mrp_net.specs.Need.{balance, IsNeed, need, net_to, running_balance};
ghost use Rattle.mrp_net.specs.declared.stock.Stock.{Stock};

/// Under lot for lot, netting week by week gives the cumulative net requirements and their balance;
/// and cumulative net requirements do not fall.
pub fn netting()
    ensures need { (stock : Stock) (gross : List ℕ) (t : ℕ) → net_to stock gross t ≡ need stock gross t }
    ensures balance { (stock : Stock) (gross : List ℕ) (t : ℕ) → running_balance stock gross t ≡ balance stock gross (need stock gross t) t }
    ensures rises { (stock : Stock) (gross : List ℕ) (horizon : ℕ) → IsNeed horizon (need stock gross) }
{}
