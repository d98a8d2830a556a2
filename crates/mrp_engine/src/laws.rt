//! What follows from the definitions alone, each law the contract of a function that does nothing.

ghost use Rattle.std.specs.Prelude.{◌≡◌, ◌++◌, ◌∷◌, [], List, ℕ, All};
ghost use Rattle.mrp_rows.specs.declared.fault.Fault.{Fault};
ghost use Rattle.mrp_tables.specs.Tables.{AreTables, Tables};
ghost use Rattle.mrp_master.specs.Supply.{supply_of};
ghost use Rattle.mrp_book.specs.History.{IsLegal};
ghost use Rattle.mrp_book.specs.Standing.{History};
ghost use Rattle.mrp_item.specs.Inputs.{Inputs};
ghost use Rattle.mrp_engine.specs.day.Day.{IsDay, IsDayBy, IsTooLarge};
ghost use Rattle.mrp_script.specs.Opened.{IsRefused};
ghost use Rattle.mrp_script.specs.Script.{AnswersScript};
ghost use Rattle.mrp_engine.specs.day.RightDay.{AnswersDesks, IsRightDay};
ghost use Rattle.mrp_bill.specs.Shop.{Shop};
ghost use Rattle.mrp_engine.specs.declared.event_core.event.Event.{Event};
ghost use Rattle.mrp_engine.specs.declared.event_core.event.Event.TheVariants as event;
ghost use Rattle.mrp_engine.specs.declared.event_core.event.Answer.{Answer};
ghost use Rattle.mrp_engine.specs.declared.event_core.event.Answer.TheVariants as answer;
ghost use Rattle.mrp_engine.specs.event_core.Core.{FitsShop, IsAnswer, IsRight, Run, Step, after, core_of, opened};
ghost use Rattle.mrp_engine.specs.event_core.Headline.{Headline, IsAcceptedShop};
ghost use Rattle.mrp_engine.specs.event_core.OneRun.{one_history, one_run};
ghost use Rattle.mrp_engine.specs.event_core.Threads.{AreLeft, AreOfSnapshots, AreReported, AreTold, IsReportOf, steps_of};
ghost use Rattle.mrp_engine.specs.Laws.{ArePlannedOrRefused, BooksWithin, CallsByWords, CallsFromScript, HasDay, HasLoopOrNone, HasReading, PlansWhatStood, StaysCovered};

use mrp_bill::laws::loops;
use mrp_book::laws::histories;
use mrp_tables::laws::accepted_tables_keep_their_limits;

/// Each bundle has a day: a text, a fault, or an item that gets too large. The law rests on the
/// laws that it calls, about tables, bills and order books.
pub fn some_day()
    // A bundle has tables, which keep their limits, or a first fault.
    ensures reading { (bundle : List ℕ) → HasReading bundle }
    // In such tables there is a first item that needs itself, or none does.
    ensures bill { (tables : Tables) → AreTables tables → HasLoopOrNone tables.bills }
    // Their script has a history that answers it.
    ensures history { (tables : Tables) → AreTables tables → (h : History) × AnswersScript tables h }
    // All runs can be planned, or there is a first that is refused.
    ensures runs { (all : List Inputs) → ArePlannedOrRefused all }
    // So a bundle has a text, a fault, or the name of an item that gets too large.
    ensures day { (bundle : List ℕ) → HasDay bundle }
{
    accepted_tables_keep_their_limits();
    loops();
    histories();
}

/// A bundle has exactly one day: one text, one fault, or one item that gets too large.
pub fn one_day()
    ensures text { (bundle one other : List ℕ) → IsDay bundle one → IsDay bundle other → one ≡ other }
    ensures fault { (bundle : List ℕ) (one other : Fault) → IsRefused bundle one → IsRefused bundle other → one ≡ other }
    ensures name { (bundle one other : List ℕ) → IsTooLarge bundle one → IsTooLarge bundle other → one ≡ other }

    ensures text_or_fault { (bundle text : List ℕ) (f : Fault) → IsDay bundle text → IsRefused bundle f → ⊥ }
    ensures text_or_name { (bundle text name : List ℕ) → IsDay bundle text → IsTooLarge bundle name → ⊥ }
    ensures fault_or_name { (bundle name : List ℕ) (f : Fault) → IsRefused bundle f → IsTooLarge bundle name → ⊥ }
{}

/// The history of a script is unique, and its runs are planned from what stood at their entries.
pub fn runs()
    // A script has one history.
    ensures one_history { (tables : Tables) (one other : History) → AnswersScript tables one → AnswersScript tables other → one ≡ other }
    // A run is planned from the bookings that stood at its entry, whatever came later in the
    // history.
    ensures what_stood { (tables : Tables) (h : History) → AnswersScript tables h → PlansWhatStood tables h }
{}

/// Promising never exceeds the supply in a script's history.
pub fn bookings()
    // Each booking that was made was within what was available to promise at that moment.
    ensures within { (tables : Tables) (h : History) → AnswersScript tables h → BooksWithin tables h }
    // At every front the standing bookings are covered by the supply.
    ensures covered { (tables : Tables) (h : History) → AnswersScript tables h → StaysCovered tables h }
{}

/// The right days of a bundle, in which its desks make their calls concurrently.
pub fn right_days()
    // The history that answers a script in row order is one of those that answer it desk by desk.
    ensures in_order { (tables : Tables) (h : History) → AnswersScript tables h → AnswersDesks tables h }
    // So the day of a bundle is a right day of it, and so is each day whose desks make their calls
    // concurrently.
    ensures day { (bundle text : List ℕ) → IsDay bundle text → IsRightDay bundle text }
    ensures live { (bundle text : List ℕ) → IsDayBy AnswersDesks bundle text → IsRightDay bundle text }
    // Each call of its history is one of the script's, by one of the script's five words.
    ensures from_script { (tables : Tables) (h : History) → AnswersDesks tables h → CallsFromScript tables h }
    ensures by_words { (tables : Tables) (h : History) → AnswersDesks tables h → CallsByWords h }
    // Its runs are planned from what stood, and its bookings were within what was available, as in row order.
    ensures what_stood { (tables : Tables) (h : History) → AnswersDesks tables h → PlansWhatStood tables h }
    ensures within { (tables : Tables) (h : History) → AnswersDesks tables h → BooksWithin tables h }
    ensures covered { (tables : Tables) (h : History) → AnswersDesks tables h → StaysCovered tables h }
{}

/// Events passed to `Core::step` one by one. By these laws the events passed so far, with their answers, are
/// right, so the headline holds of them.
pub fn steps()
    // The empty list of events is right, and leaves the core as it was opened.
    ensures none { (tables : Tables) → IsRight tables [] × (core_of tables [] ≡ opened tables) }
    // Right events stay right with one more, if it fits the shop and is answered by the core that they leave.
    ensures more { (tables : Tables) (steps : List Step) (e : Event) (a : Answer) → IsRight tables steps → FitsShop tables e → IsAnswer (core_of tables steps) e a → IsRight tables (steps ++ (e, a) ∷ []) }
    // That event leaves the core that `after` defines, and the core's tables are always the shop's.
    ensures after { (tables : Tables) (steps : List Step) (e : Event) (a : Answer) → core_of tables (steps ++ (e, a) ∷ []) ≡ after (core_of tables steps) e a }
    ensures tables { (tables : Tables) (steps : List Step) → (core_of tables steps).tables ≡ tables }
{}

/// The headline: what holds for every interleaving of bookings, cancellations, snapshots and item steps, with
/// any number of desks and workers from 1 to 64. The bytes that a finished run writes are the report of the
/// plan that the tables and the bookings standing at its snapshot define. No accepted booking exceeded what
/// was then available to promise. The pegs of every requirement add up to it exactly. The load of every work
/// centre is the standard minutes of its orders. `Headline` has a clause for each.
pub fn headline()
    ensures { (shop : Shop) (steps : List Step) → IsAcceptedShop shop → IsRight shop.tables steps → Headline shop.tables steps }
{}

/// What running threads leave behind is a right list of events of the core with their answers: a legal
/// history of the order book within its limit, and for each of some of its snapshots a legal and orderly log
/// of a board. The history comes first, a snapshot that a run plans from being the run's start, and then log
/// after log; a board answers by its own log and by what stood at its snapshot alone, so no order in time
/// between the office and the boards is claimed.
pub fn running_threads()
    ensures { (tables : Tables) (h : History) (runs : List Run) → AreLeft tables h runs → AreTold tables h runs }
{}

/// So the headline speaks of what running threads did: the reports of their finished runs may be written
/// after it, and `Headline` holds of the whole.
pub fn threads_keep_the_headline()
    ensures { (shop : Shop) (h : History) (runs : List Run) (reports : List (ℕ × Answer)) → IsAcceptedShop shop → AreLeft shop.tables h runs → All (IsReportOf shop.tables h runs) reports → AreReported shop h runs reports }
{}

/// The premises can be met: a shop without items, one snapshot, and a worker that is told the end.
pub fn one_run_is_left()
    ensures left { (tables : Tables) → tables.items ≡ [] → AreLeft tables (one_history tables) (one_run ∷ []) }
    ensures steps { (tables : Tables) → steps_of (one_history tables) (one_run ∷ []) ≡ (event.Start 1, answer.Started 1 1) ∷ (event.Take 1 1, answer.AllOut) ∷ [] }
{}

/// What the runs of a day are planned from are what runs of its history's snapshots plan from, in their
/// order.
pub fn days_are_of_snapshots()
    ensures { (tables : Tables) (h : History) → IsLegal (supply_of tables) h → AreOfSnapshots tables h }
{}
