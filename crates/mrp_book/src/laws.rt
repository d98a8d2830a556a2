//! What follows from the definitions alone, each law the contract of a function that does nothing.

ghost use Rattle.std.specs.Prelude.{◌≡◌, ◌<◌, ◌++◌, ◌∷◌, [], ℕ, List, All, length, sum_by, take};
ghost use Rattle.std.specs.List.{range_with_len};
ghost use Rattle.mrp_turn.specs.Log.{AreFrom, IsSeatNumber, entries_by, entry};
ghost use Rattle.mrp_tables.specs.declared.limits.TheConstants.{MOST_DESKS};
ghost use Rattle.mrp_master.specs.Lines.{IsLine};
ghost use Rattle.mrp_master.specs.Supply.{CanPromise, IsCovered, Supply};
ghost use Rattle.mrp_book.specs.Booked.{AreBooked};
ghost use Rattle.mrp_book.specs.Bookings.{AreRising};
ghost use Rattle.mrp_book.specs.BookState.{BookState};
ghost use Rattle.mrp_book.specs.declared.call.Call.{Call};
ghost use Rattle.mrp_book.specs.declared.call.Call.TheVariants as call;
ghost use Rattle.mrp_book.specs.declared.reply.Reply.TheVariants as reply;
ghost use Rattle.mrp_book.specs.Standing.{booked, standing, stands_after, History};
ghost use Rattle.mrp_book.specs.History.{Fits, IsLegal, IsReply, MayFollow, asked, next_number, state_after, state_of};

/// Legal histories.
pub fn histories()
    // Each prefix of a legal history is covered.
    ensures covered { (s : Supply) (before after : History) → IsLegal s (before ++ after) → IsCovered s (booked before) }
    // One more entry that may follow keeps a history legal.
    ensures more { (s : Supply) (h : History) (e : _) → IsLegal s h → MayFollow s h e → IsLegal s (h ++ e ∷ []) }
    // A call that fits has exactly one reply.
    ensures some_reply { (s : Supply) (h : History) (desk : ℕ) (c : _) → IsLegal s h → Fits s c → (r : _) × IsReply s h desk c r }
    ensures one_reply { (s : Supply) (h : History) (desk : ℕ) (c : _) (q r : _) → IsReply s h desk c q → IsReply s h desk c r → q ≡ r }
    // Calls of desks that fit have a legal history, and legal histories with the same calls are the same.
    ensures some_history { (s : Supply) (calls : List (ℕ × Call)) → All (λ a. IsSeatNumber a.0 × Fits s a.1) calls → (h : History) × IsLegal s h × (asked h ≡ calls) }
    ensures one_history { (s : Supply) (g h : History) → IsLegal s g → IsLegal s h → asked g ≡ asked h → g ≡ h }
    // Standing bookings are of master items, in weeks of the horizon, of pieces that can be booked.
    ensures lines { (s : Supply) (h : History) → IsLegal s h → All (λ b. IsLine s b.line) (standing h) }
    // Each desk's number is from 1 to 64.
    ensures desks { (s : Supply) (h : History) → IsLegal s h → AreFrom MOST_DESKS h }
    // Counted by desk, these are all entries.
    ensures counts { (s : Supply) (h : History) → IsLegal s h → sum_by (λ desk. length (entries_by desk h)) (range_with_len 1 MOST_DESKS) ≡ length h }
{}

/// Bookings of a legal history.
pub fn bookings()
    // No accepted booking exceeded what was then available to promise.
    ensures within { (s : Supply) (before after : History) (desk number : ℕ) (l : _) → IsLegal s (before ++ entry desk (call.Book l) (reply.Booked number) ∷ after) → CanPromise s (booked before) l.item l.quantity l.week }
    // A booking's number is that of its entry.
    ensures number { (s : Supply) (before after : History) (desk number : ℕ) (l : _) → IsLegal s (before ++ entry desk (call.Book l) (reply.Booked number) ∷ after) → number ≡ next_number before }
    // Standing bookings are in order of their numbers, none of them after the last entry.
    ensures rising { (s : Supply) (h : History) → IsLegal s h → AreRising (standing h) }
    ensures entered { (s : Supply) (h : History) → IsLegal s h → All (λ b. b.number < next_number h) (standing h) }
    // A booking stands from its entry until one answered Cancelled names it.
    ensures stands { (h : History) (desk : ℕ) (c : _) (r : _) → standing (h ++ entry desk c r ∷ []) ≡ stands_after desk c r (standing h) }
{}

/// Snapshots of a legal history.
pub fn snapshots()
    // A snapshot's front is the number of its own entry.
    ensures front { (s : Supply) (before after : History) (desk : ℕ) (c t : _) → IsLegal s (before ++ entry desk c (reply.Taken t) ∷ after) → t.front ≡ next_number before }
    // It has the bookings that stand before its entry.
    ensures before { (s : Supply) (before after : History) (desk : ℕ) (c t : _) → IsLegal s (before ++ entry desk c (reply.Taken t) ∷ after) → t.standing ≡ standing before }
    // They are of the shop, covered, and in order of their numbers.
    ensures booked { (s : Supply) (before after : History) (desk : ℕ) (c t : _) → IsLegal s (before ++ entry desk c (reply.Taken t) ∷ after) → AreBooked s t.standing }
    // These stand after as many entries of the history as its front says.
    ensures at_front { (s : Supply) (h before after : History) (desk : ℕ) (c t : _) → IsLegal s h → h ≡ before ++ entry desk c (reply.Taken t) ∷ after → t.standing ≡ standing (take t.front h) }
{}

/// States of the book.
pub fn states()
    // A history without entries leads to the state that a book opens with.
    ensures none { (s : Supply) → state_of s [] ≡ record { supply = s; entries = 0; standing = [] } }
    // One more entry changes the state after a history as it changes any state.
    ensures more { (s : Supply) (h : History) (desk : ℕ) (c r : _) → state_of s (h ++ entry desk c r ∷ []) ≡ state_after (state_of s h) desk c r }
{}
