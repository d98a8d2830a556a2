//! What follows from the definitions, each law the contract of a function that at most calls other laws.

ghost use Rattle.std.specs.Prelude.{◌≡◌, ◌++◌, [], ℕ, IsTrue, List, Some};
ghost use Rattle.mrp_tables.specs.Tables.{Tables};
ghost use Rattle.mrp_master.specs.Supply.{supply_of};
ghost use Rattle.mrp_book.specs.History.{IsLegal};
ghost use Rattle.mrp_runs.specs.declared.run.Run.{Run};
ghost use Rattle.mrp_journal.specs.Held.{CanBeLeft, Held, settled};
ghost use Rattle.mrp_words.specs.Folder.{Known};
ghost use Rattle.mrp_calls.specs.Desk.{Desk};
ghost use Rattle.mrp_calls.specs.Journals.{IsLeftOpen};
ghost use Rattle.mrp_commands.specs.declared.ending.Ending.{Ending};
ghost use Rattle.mrp_open.specs.Laws.{IsOpenOn, OpensOn, StaysOpen};
ghost use Rattle.mrp_open.specs.Made.{MakesEach};
ghost use Rattle.mrp_open.specs.Runs.{Handed};
ghost use Rattle.mrp_open.specs.RunsMade.{HaveCome, Making};
ghost use Rattle.mrp_open.specs.Served.{MakesUp, Serves, Source, Stand};
ghost use Rattle.mrp_open.specs.Start.{AnswersJournal, IsPrepared, journal_of};
ghost use Rattle.mrp_open.specs.declared.finding.Found.{Found};

use mrp_calls::laws::{crashes, folders};
use mrp_folder::Folder;
use mrp_journal::laws::beginnings;
use std::io::Write;

/// The folder of an order desk.
pub fn open_desks()
    // The desk that is opened answers the journal as it is begun: with that the folder's bundle is accepted.
    ensures opened { (known : Known) (folder : List ℕ) (found : Found) (tables : Tables) (d : Desk) → IsPrepared known folder found tables → IsTrue found.takes_records → AnswersJournal tables found.room d
        → OpensOn known folder found d }
    // So it does however it ends, with the records of the lines that it has answered behind the journal, which the journal has.
    ensures served { (known : Known) (folder records : List ℕ) (given left : Source) (old new : Stand) (handed_old handed_new : Handed) (end : Ending) → IsOpenOn known folder records old.desk
        → Serves given left old new handed_old handed_new end → StaysOpen known folder records old new end }
    // What a crash leaves then is begun again as the journal with the records of all lines that were settled, and of the first of
    // the batch in which it stopped, and opens with a desk that has answered these and no others.
    ensures crashed { (known : Known) (folder : List ℕ) (given left : Source) (old new : Stand) (handed_old handed_new : Handed) (end : Ending) (on : IsOpenOn known folder [] old.desk)
        (serves : Serves given left old new handed_old handed_new end) → old.journal ≡ Some (settled (journal_of on.script)) → (held : Held) → new.journal ≡ Some held
        → (bytes : List ℕ) → CanBeLeft held bytes → IsLeftOpen serves.more on.others (journal_of on.script ++ serves.settles.settled.records) bytes serves.between.desk }
{
    beginnings();
    folders();
    crashes();
}

/// The runs of an order desk: where those that are given are those that are made, in order, each run that was answered had its
/// file when the desk was opened, or gets the file of the bookings that stood at it, or it is told why it may have none.
pub fn runs_are_made<D: Folder, N: Write>()
    ensures { (known : Known) (folder : List ℕ) (tables : Tables) (given left : Source) (old new : Stand) (handed_old handed_new : Handed) (end : Ending) (runs : List Run) (first last : Making N)
        (up : MakesUp known folder given left old new handed_old handed_new end) → IsLegal (supply_of tables) new.desk.entries → handed_old.given ≡ Some [] → handed_new.given ≡ Some runs
        → MakesEach D.Part N.contents tables runs first.1 last.1 first.0 last.0 first.2 last.2 → HaveCome known folder D.Part N.contents tables up.2.between.desk.entries handed_old handed_new first last }
{}
