//! Where the journal of an order desk is opened.

ghost use Rattle.std.specs.Prelude.{◌≡◌, ◌<◌, Option, IfErr, IfOk, OnErr, OnOk};
ghost use Rattle.mrp_journal.specs.Held.{Held};
ghost use Rattle.mrp_commands.specs.declared.ending.Ending.TheVariants as ending;
ghost use Rattle.mrp_open.specs.Opening.{FailsToOpenJournal, HasFailed, Opening, lasting, with_failure, with_journal};

use mrp_commands::Ending;
use mrp_journal::Store;

/// A folder in which the journal of an order desk is opened.
pub trait JournalPlace {
    /// The file of the journal.
    type Journal: Store + Drop;

    /// What is known of that file. Nothing is known of those of the operating system.
    ghost left: { Self → Option Held };

    /// What its calls, and those of its journal, have come to.
    ghost opening: { Self → Opening };

    /// Opens the journal to append to it; it is made if it is not there.
    ///
    /// Errors: `Write` if it could not be opened, `NoMemory` if an allocation failed.
    fn open_journal(&mut self) -> Result<Self::Journal, Ending>
        ensures left { IfOk result (λ journal. Self.Journal.held journal ≡ left self.old) }
        ensures opened { OnOk result (opening self.new ≡ with_journal (opening self.old)) }
        ensures same { OnErr result (left self.new ≡ left self.old) }
        ensures failed { IfErr result (λ end. FailsToOpenJournal (opening self.old) (opening self.new) end) };

    /// Counts that a call of its journal has failed.
    fn count_failed(&mut self, journal: &Self::Journal)
        requires { 0 < Self.Journal.failures journal.now }
        ensures { opening self.new ≡ with_failure (opening self.old) };

    /// Takes its journal back, however its calls came out.
    fn take_back(&mut self, journal: Self::Journal)
        ensures left { left self.new ≡ Self.Journal.held journal }
        ensures same { opening self.new ≡ opening self.old };

    /// Makes the names of its files durable.
    ///
    /// Errors: `Write` if they may be durable or not.
    fn sync_names(&mut self) -> Result<(), Ending>
        ensures lasts { OnOk result (opening self.new ≡ lasting (opening self.old)) }
        ensures failed { IfErr result (λ end. (end ≡ ending.Write) × HasFailed (opening self.old) (opening self.new)) };
}
