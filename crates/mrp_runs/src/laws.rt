//! What follows from the definitions alone, each law the contract of a function that does nothing.

ghost use Rattle.std.specs.Prelude.{◌≡◌, ◌∷◌, ◌++◌, List, None, Some, ℕ};
ghost use Rattle.mrp_tables.specs.Tables.{Tables};
ghost use Rattle.mrp_master.specs.Supply.{supply_of};
ghost use Rattle.mrp_book.specs.declared.reply.Reply.TheVariants as reply;
ghost use Rattle.mrp_book.specs.History.{IsLegal};
ghost use Rattle.mrp_book.specs.Standing.{History};
ghost use Rattle.mrp_runs.specs.File.{IsFileOf, IsRunAfter};
ghost use Rattle.mrp_runs.specs.Laws.{HasReportOfDay};
ghost use Rattle.mrp_runs.specs.declared.refusal.Refusal.TheVariants as refusal;
ghost use Rattle.mrp_runs.specs.declared.run.Run.{Run};

/// The runs of a legal history, and their files.
pub fn run_files()
    // An entry that is answered with a snapshot is a run behind the entries before it.
    ensures runs { (tables : Tables) (before after : History) (e t : _) → IsLegal (supply_of tables) (before ++ e ∷ after) → e.reply ≡ reply.Taken t → IsRunAfter tables before (record { desk = e.who; snapshot = t }) }
    // A file with a report has the one that stands in the day of each history that goes on from its run.
    ensures reports { (tables : Tables) (before after : History) (run : Run) (text : List ℕ) → IsRunAfter tables before run → IsFileOf tables before run None text → HasReportOfDay tables before run after text }
    // A run has one report or is refused by one item.
    ensures one { (tables : Tables) (before : History) (run : Run) (one other : List ℕ) → IsFileOf tables before run None one → IsFileOf tables before run None other → one ≡ other }
    ensures report_or_item { (tables : Tables) (before : History) (run : Run) (one other name : List ℕ) → IsFileOf tables before run None one → IsFileOf tables before run (Some (refusal.TooLarge name)) other → ⊥ }
    ensures item { (tables : Tables) (before : History) (run : Run) (one other name another : List ℕ) → IsFileOf tables before run (Some (refusal.TooLarge name)) one → IsFileOf tables before run (Some (refusal.TooLarge another)) other → name ≡ another }
{}
