//! A journal before whose first record a text is durable in its folder.

use crate::fault::KeepFault;
use crate::folder::Folder;
use crate::keeping::keep_text;
use mrp_journal::Store;
use mrp_rows::WriteFault;

/// A journal, and a text that is put into a folder, durable with its name, before anything more is appended to the
/// journal.
#[derive(Drop)]
pub struct SealedJournal<'a, S, D> {
    journal: S,
    folder: D,
    text: &'a [u8],
    name: &'a str,
    is_sealed: bool,
    // How often the text could not be put into the folder.
    failures: u64,
}

impl<'a, S: Store, D: Folder> SealedJournal<'a, S, D> {
    ghost use Rattle.std.specs.Prelude.{◌≡◌, ◌≢◌, true, IfErr, OnErr, OnOk};
    ghost use Rattle.mrp_rows.specs.Told.{HasRisenBy};
    ghost use Rattle.mrp_folder.specs.Kept.{Fails};
    ghost use Rattle.mrp_folder.specs.Sealed.{IsThere, KeepsText, failures_of_sealed, folder_of, has_seal, journal_of, name_of, text_of};

    /// A journal, and the text that is to be in the folder under a name, where it is not there yet.
    pub fn new(
        journal: S,
        folder: D,
        text: &'a [u8],
        name: &'a str,
        is_sealed: bool,
    ) -> SealedJournal<'a, S, D>
        ensures journal { journal_of result ≡ journal }
        ensures folder { folder_of result ≡ folder }
        ensures text { text_of result ≡ text.now }
        ensures name { name_of result ≡ name.now }
        ensures sealed { has_seal result ≡ is_sealed }
        ensures failures { failures_of_sealed result ≡ 0 }
    {
        SealedJournal {
            journal,
            folder,
            text,
            name,
            is_sealed,
            failures: 0,
        }
    }

    /// The journal itself.
    pub fn journal(&self) -> &S
        ensures { result.now ≡ journal_of self.now }
    {
        &self.journal
    }

    // Puts the text into the folder, and makes its name durable.
    fn put(&mut self) -> Result<(), KeepFault<D::Part>>
        ensures journal { journal_of self.new ≡ journal_of self.old }
        ensures sealed { has_seal self.new ≡ has_seal self.old }
        ensures text { KeepsText self.old self.new }
        ensures there { OnOk result (IsThere (text_of self.old) (name_of self.old) (D.named (folder_of self.old)) (D.named (folder_of self.new)) (D.lasting (folder_of self.new))) }
        ensures failures { failures_of_sealed self.new ≡ failures_of_sealed self.old }
        ensures failed { IfErr result (Fails (D.failures (folder_of self.old)) (D.failures (folder_of self.new))) }
    {
        keep_text(&mut self.folder, self.text, self.name)?;
        Ok(self.folder.settle()?)
    }

    // Puts the text into the folder, if it is not there yet.
    fn seal(&mut self) -> Result<(), KeepFault<D::Part>>
        ensures journal { journal_of self.new ≡ journal_of self.old }
        ensures text { KeepsText self.old self.new }
        ensures sealed { OnOk result (has_seal self.new ≡ true) }
        ensures unsealed { OnErr result (has_seal self.new ≢ true) }
        ensures still { has_seal self.old ≡ true → folder_of self.new ≡ folder_of self.old }
        ensures there { OnOk result (has_seal self.old ≢ true → IsThere (text_of self.old) (name_of self.old) (D.named (folder_of self.old)) (D.named (folder_of self.new)) (D.lasting (folder_of self.new))) }
        ensures failed { IfErr result (Fails (D.failures (folder_of self.old)) (D.failures (folder_of self.new))) }
        ensures sound { OnOk result (failures_of_sealed self.new ≡ failures_of_sealed self.old) }
        ensures risen { OnErr result (HasRisenBy 1 (failures_of_sealed self.old) (failures_of_sealed self.new)) }
    {
        if self.is_sealed {
            return Ok(());
        }
        match self.put() {
            Ok(()) => {
                self.is_sealed = true;
                Ok(())
            }
            Err(fault) => {
                self.failures = self.failures.saturating_add(1);
                Err(fault)
            }
        }
    }
}

impl<'a, S: Store, D: Folder> Store for SealedJournal<'a, S, D> {
    ghost use Rattle.std.specs.Prelude.{◌≡◌, ◌⊎◌, ◌+◌, true, ◌≤◌, IfSome, OnErr, OnOk, length, option_map};
    ghost use Rattle.mrp_rows.specs.Told.{HasRisenBy};
    ghost use Rattle.mrp_journal.specs.Held.{AppendsFront, TellsFailure, appended, cut_to, half_cut, synced};
    ghost use Rattle.mrp_folder.specs.Kept.{FailsToKeep};
    ghost use Rattle.mrp_folder.specs.Sealed.{IsThere, KeepsSeal, KeepsText, failures_of_sealed, folder_of, has_seal, journal_of, name_of, text_of};

    ghost held = { λ sealed. S.held (journal_of sealed) };

    ghost failures = { λ sealed. failures_of_sealed sealed + S.failures (journal_of sealed) };

    fn append(&mut self, bytes: &[u8]) -> Result<(), WriteFault>
        ensures appended { OnOk result (S.held (journal_of self.new) ≡ option_map (appended bytes.now) (S.held (journal_of self.old))) }
        ensures front { OnErr result (AppendsFront bytes.now (S.held (journal_of self.old)) (S.held (journal_of self.new))) }
        ensures told { TellsFailure (failures_of_sealed self.old + S.failures (journal_of self.old)) (failures_of_sealed self.new + S.failures (journal_of self.new)) result }
        ensures once { OnOk result (has_seal self.new ≡ true) }
        ensures still { has_seal self.old ≡ true → folder_of self.new ≡ folder_of self.old }
        ensures text { KeepsText self.old self.new }

        // It fails only where the folder does, or the writes of the text's file, or the journal.
        ensures failed { OnErr result (FailsToKeep D.Part (D.failures (folder_of self.old)) (D.failures (folder_of self.new))
            ⊎ HasRisenBy 1 (S.failures (journal_of self.old)) (S.failures (journal_of self.new))) }

        // Nothing is appended before the text is there, durable with its name.
        ensures sealed { (has_seal self.old ≡ true) ⊎ (S.held (journal_of self.new) ≡ S.held (journal_of self.old))
            ⊎ IsThere (text_of self.old) (name_of self.old) (D.named (folder_of self.old)) (D.named (folder_of self.new)) (D.lasting (folder_of self.new)) }

        // It is taken for there only where it was, or is.
        ensures known { has_seal self.new ≡ true → (has_seal self.old ≡ true)
            ⊎ IsThere (text_of self.old) (name_of self.old) (D.named (folder_of self.old)) (D.named (folder_of self.new)) (D.lasting (folder_of self.new)) }
    {
        match self.seal() {
            Ok(()) => self.journal.append(bytes),
            Err(_) => Err(WriteFault),
        }
    }

    fn sync(&mut self) -> Result<(), WriteFault>
        ensures synced { OnOk result (S.held (journal_of self.new) ≡ option_map synced (S.held (journal_of self.old))) }
        ensures same { OnErr result (S.held (journal_of self.new) ≡ S.held (journal_of self.old)) }
        ensures told { TellsFailure (failures_of_sealed self.old + S.failures (journal_of self.old)) (failures_of_sealed self.new + S.failures (journal_of self.new)) result }
        ensures seal { KeepsSeal self.old self.new }
    {
        self.journal.sync()
    }

    fn cut(&mut self, count: usize) -> Result<(), WriteFault>
        requires { IfSome (S.held (journal_of self.old)) (λ old. count ≤ length old.bytes) }
        ensures cut { OnOk result (S.held (journal_of self.new) ≡ option_map (cut_to count) (S.held (journal_of self.old))) }
        ensures half { OnErr result (S.held (journal_of self.new) ≡ option_map (half_cut count) (S.held (journal_of self.old))) }
        ensures told { TellsFailure (failures_of_sealed self.old + S.failures (journal_of self.old)) (failures_of_sealed self.new + S.failures (journal_of self.new)) result }
        ensures seal { KeepsSeal self.old self.new }
    {
        self.journal.cut(count)
    }
}
