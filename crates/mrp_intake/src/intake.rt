//! The lines of an input, batch by batch.

use crate::pieces::{read_once, take_piece};
use mrp_rows::{READ_CALLS, ReadFault, Told};
use std::alloc::{AllocError, Global};
use std::io::Read;
use std::marker::Model;

// How many bytes one `read` call requests.
pub(crate) const PIECE: usize = 65_536;

/// The lines that a read completed, and what was read of the next one.
#[derive(Drop)]
pub struct Intake {
    batch: Vec<u8>,
    begun: Vec<u8>,
}

impl Model for Intake {
    ghost use Rattle.mrp_intake.specs.Intake.{IsBegun, Taken};

    ghost Value = { Taken };

    ghost view = { λ intake. record { batch = intake.batch.items; begun = intake.begun.items } };

    ghost invariant = { λ intake. IsBegun intake.begun.items };
}

impl Intake {
    ghost use Rattle.std.specs.Prelude.{◌≡◌, ◌≢◌, ◌≤◌, ◌⊎◌, [], OnErr, OnOk, false, true};
    ghost use Rattle.std.specs.Io.KnownBytes.{IsAtEnd};
    ghost use Rattle.mrp_rows.specs.declared.streams.TheConstants.{READ_CALLS};
    ghost use Rattle.mrp_rows.specs.Told.{HasRisenBy, calls_of, failures_of, greatest_count, inner_of, interrupted_of};
    ghost use Rattle.mrp_intake.specs.Intake.{BringsKnown, IsBatch, IsLineLeft, IsOneRead, StopsReading};

    /// An intake of which nothing was read yet.
    pub fn new(alloc: Global) -> Intake
        ensures { result ≡ record { batch = []; begun = [] } }
    {
        Intake {
            batch: Vec::new(alloc),
            begun: Vec::new(alloc),
        }
    }

    /// The lines of the batch: each with its line feed, but for what stands behind the last one at the end of the
    /// input. Of a line longer than [`LONGEST_LINE`] there may be less, but more than so many bytes.
    pub fn batch(&self) -> &[u8]
        ensures { result.now ≡ self.now.batch }
    {
        self.batch.as_slice()
    }

    // What stands behind the last line feed is the last batch.
    fn end(&mut self) -> Result<bool, AllocError>
        requires { self.old.batch ≡ [] }
        ensures last { OnOk result (self.new ≡ record { batch = self.old.begun; begun = [] }) }
        ensures none { result ≡ Ok false → self.new.batch ≡ [] }
        ensures some { result ≡ Ok true → self.new.batch ≢ [] }
        ensures left { OnErr result (self.old.begun ≢ []) }
    {
        if self.begun.is_empty() {
            return Ok(false);
        }
        self.batch.append(&mut self.begun)?;
        Ok(true)
    }

    /// Reads until lines are complete, which become the batch: no read follows one that completed a line. False at the end
    /// of the input.
    ///
    /// Errors: `Read` if the reader failed, or gave no whole line in 100,000,000 calls of `read`; `NoMemory` if an
    /// allocation failed, for a line that was to come. Then lines that were read may be lost.
    pub fn next_batch<R: Read>(&mut self, reader: &mut Told<R>) -> Result<bool, ReadFault>
        ensures brings { OnOk result (BringsKnown self.old self.new (R.remaining (inner_of reader.old)) (R.remaining (inner_of reader.new))) }
        ensures whole { result ≡ Ok true → IsBatch self.new (R.remaining (inner_of reader.new)) }
        ensures some { result ≡ Ok true → self.new.batch ≢ [] }
        ensures one { result ≡ Ok true → IsOneRead (R.remaining (inner_of reader.old)) (R.remaining (inner_of reader.new)) }
        ensures once { OnOk result (StopsReading R.remaining reader.old reader.new) }
        ensures end { result ≡ Ok false → (self.new.batch ≡ []) × (self.new.begun ≡ []) × IsAtEnd (R.remaining (inner_of reader.new)) }
        ensures failures { OnOk result (failures_of reader.new ≡ failures_of reader.old) }
        ensures memory { result ≡ Err ReadFault.NoMemory → failures_of reader.new ≡ failures_of reader.old }
        ensures left { result ≡ Err ReadFault.NoMemory → IsLineLeft self.old.begun (R.remaining (inner_of reader.old)) }
        ensures refused { result ≡ Err ReadFault.Read → HasRisenBy 1 (failures_of reader.old) (failures_of reader.new)
            ⊎ (greatest_count ≤ interrupted_of reader.new)
            ⊎ HasRisenBy READ_CALLS (calls_of reader.old) (calls_of reader.new) }
    {
        let mut piece = [0; PIECE];
        self.batch.clear();
        for _ in 0..READ_CALLS {
            match read_once(reader, &mut piece)? {
                Some(0) => return Ok(self.end()?),
                Some(count) => {
                    let (given, _) = piece.split_at(count);
                    if take_piece(&mut self.batch, &mut self.begun, given)? {
                        return Ok(true);
                    }
                }
                None => {}
            }
        }
        Err(ReadFault::Read)
    }
}
