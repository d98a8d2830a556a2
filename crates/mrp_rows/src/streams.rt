//! A bundle read whole and a text written whole, through streams that count their calls.

ghost use Rattle.std.specs.Prelude.{◌≡◌, ◌≤◌, ◌<◌, ◌+◌, ◌++◌, ◌-◌, ◌⊎◌, ℕ, List, Ok, Err, OnOk, OnErr, IfOk, IfSome, length, nat_lt, vec_len, false};
ghost use Rattle.std.specs.Io.KnownBytes.{Appends, IsAtEnd};
ghost use Rattle.mrp_rows.specs.Told.{inner_of, calls_of, interrupted_of, failures_of, moved_of, counted, HasRisenBy};
ghost use Rattle.mrp_rows.specs.Streams.{WritesFront, RisesBy, Takes, TakesFront};

use crate::told::{Told, is_interrupted};
use std::alloc::{AllocError, Global};
use std::io::{Read, Write};
use std::marker::Model;

/// The greatest bundle, in bytes.
pub const GREATEST_BUNDLE: usize = 67_108_864;

/// The greatest number of `read` calls for a bundle.
pub const READ_CALLS: u32 = 100_000_000;

// How many bytes one `read` call requests.
const PIECE: usize = 65_536;

/// How often interrupted writes are retried in one call.
pub const WRITE_TRIES: u32 = 1_000_000;

/// Why a bundle could not be read, in the order in which it is checked.
#[derive(Clone, Copy, Debug, PartialEq, Eq)]
pub enum ReadFault {
    /// The reader failed, or exceeded the limit of bytes or of calls.
    Read,
    /// An allocation failed.
    NoMemory,
}

impl From<AllocError> for ReadFault {
    ghost use Rattle.std.specs.Prelude.{◌≡◌};
    ghost use Rattle.mrp_rows.specs.declared.streams.ReadFault.TheVariants.{NoMemory};

    ghost from_gives = { λ _ fault. fault ≡ NoMemory };

    fn from(_refused: AllocError) -> ReadFault {
        ReadFault::NoMemory
    }
}

/// The writer failed, or was interrupted too often.
#[derive(Clone, Copy, Debug, PartialEq, Eq)]
pub struct WriteFault;

/// The retries of interrupted writes that are left; contracts see it as that number.
///
/// A call that writes several texts makes one and passes it to each.
#[derive(Drop)]
pub struct Tries {
    left: u32,
}

impl Model for Tries {
    ghost use Rattle.std.specs.Prelude.{ℕ};

    ghost Value = { ℕ };

    ghost view = { λ tries. tries.left };
}

impl Tries {
    ghost use Rattle.std.specs.Prelude.{◌≡◌, ◌-◌, nat_lt};

    /// The 1,000,000 retries of one call.
    pub fn new() -> Tries
        ensures { result ≡ WRITE_TRIES }
    {
        Tries { left: WRITE_TRIES }
    }

    // Takes one of the retries; false if none is left.
    fn take(&mut self) -> bool
        ensures some { result ≡ nat_lt 0 self.old }
        ensures fewer { self.new ≡ self.old - 1 }
    {
        let some = self.left > 0;
        self.left = self.left.saturating_sub(1);
        some
    }
}

/// Writes a text; after an error a prefix of it was written.
///
/// An interrupted write is retried while retries are left, a failed one never. Errors: a write
/// failed in this call, or was interrupted with no retry left.
pub fn write_text<W: Write>(
    writer: &mut Told<W>,
    text: &[u8],
    tries: &mut Tries,
) -> Result<(), WriteFault>
    ensures whole { OnOk result (Appends
        (W.contents (inner_of writer.old)) (W.contents (inner_of writer.new)) text.now) }
    ensures failures { OnOk result (failures_of writer.new ≡ failures_of writer.old) }
    ensures interrupted { OnOk result (RisesBy (tries.old - tries.new)
        (interrupted_of writer.old) (interrupted_of writer.new)) }
    ensures tries { tries.new ≤ tries.old }

    ensures front { OnErr result (WritesFront
        (W.contents (inner_of writer.old)) (W.contents (inner_of writer.new)) text.now) }
    ensures refused { OnErr result (HasRisenBy 1 (failures_of writer.old) (failures_of writer.new)
        ⊎ HasRisenBy (tries.old + 1) (interrupted_of writer.old) (interrupted_of writer.new)) }
    ensures once { OnErr result (failures_of writer.new ≤ failures_of writer.old + 1) }
{
    let mut at = 0;
    while at < text.len() {
        let (_, rest) = text.split_at(at);
        match writer.write(rest) {
            Ok(0) => return Err(WriteFault),
            Ok(n) => at += n,
            Err(error) => {
                if !is_interrupted(&error) || !tries.take() {
                    return Err(WriteFault);
                }
            }
        }
    }
    Ok(())
}

// One call of the reader: appends what it gave to the bytes. Returns whether more may follow.
fn read_piece<R: Read>(
    reader: &mut Told<R>,
    piece: &mut [u8],
    bytes: &mut Vec<u8>,
) -> Result<bool, ReadFault>
    requires { 0 < length piece.old }
    ensures calls { calls_of reader.new ≡ counted 1 (calls_of reader.old) }
    ensures failures { OnOk result (failures_of reader.new ≡ failures_of reader.old) }
    ensures behind { OnOk result ((given : List ℕ)
        × (bytes.new.items ≡ bytes.old.items ++ given)
        × Takes (R.remaining (inner_of reader.old)) (R.remaining (inner_of reader.new))
        (moved_of reader.old) (moved_of reader.new) given) }
    ensures end { result ≡ Ok false → IsAtEnd (R.remaining (inner_of reader.new)) }
    ensures nothing { result ≡ Ok false → vec_len bytes.new ≡ vec_len bytes.old }
    ensures failed { result ≡ Err ReadFault.Read
        → HasRisenBy 1 (failures_of reader.old) (failures_of reader.new) }
    ensures memory { result ≡ Err ReadFault.NoMemory
        → failures_of reader.new ≡ failures_of reader.old }
    ensures front { TakesFront (R.remaining (inner_of reader.old)) (R.remaining (inner_of reader.new))
        (moved_of reader.old) (moved_of reader.new) }
{
    match reader.read(piece) {
        Ok(0) => Ok(false),
        Ok(n) => {
            let (given, _) = piece.split_at(n);
            bytes.extend_from_slice(given)?;
            Ok(true)
        }
        Err(error) => {
            if is_interrupted(&error) {
                Ok(true)
            } else {
                Err(ReadFault::Read)
            }
        }
    }
}

/// All remaining bytes of a reader: at most so many, within so many calls of `read`.
///
/// An interrupted read is retried and counts as a call. Errors: `Read` if the reader failed in this
/// call, gave more bytes or needed more calls; `NoMemory` if an allocation failed and no read
/// failed. After an error an unspecified prefix of the reader's bytes has been read.
pub fn read_within<R: Read>(
    alloc: Global,
    reader: &mut Told<R>,
    most_bytes: usize,
    most_calls: u32,
) -> Result<Vec<u8>, ReadFault>
    ensures bytes { IfOk result (λ bytes.
        IfSome (R.remaining (inner_of reader.old)) (λ xs. bytes.items ≡ xs)) }
    ensures end { OnOk result (IsAtEnd (R.remaining (inner_of reader.new))) }
    ensures within { IfOk result (λ bytes. vec_len bytes ≤ most_bytes) }
    ensures calls { calls_of reader.new ≤ calls_of reader.old + most_calls }
    ensures failures { OnOk result (failures_of reader.new ≡ failures_of reader.old) }

    ensures refused { result ≡ Err ReadFault.Read
        → HasRisenBy 1 (failures_of reader.old) (failures_of reader.new)
        ⊎ HasRisenBy most_calls (calls_of reader.old) (calls_of reader.new)
        ⊎ HasRisenBy (most_bytes + 1) (moved_of reader.old) (moved_of reader.new) }
    ensures memory { result ≡ Err ReadFault.NoMemory
        → failures_of reader.new ≡ failures_of reader.old }
    ensures front { TakesFront (R.remaining (inner_of reader.old)) (R.remaining (inner_of reader.new))
        (moved_of reader.old) (moved_of reader.new) }
{
    let mut piece = [0; PIECE];
    let mut bytes = Vec::new(alloc);
    for _ in 0..most_calls {
        if !read_piece(reader, &mut piece, &mut bytes)? {
            return Ok(bytes);
        }
        if bytes.len() > most_bytes {
            return Err(ReadFault::Read);
        }
    }
    Err(ReadFault::Read)
}

/// All remaining bytes of a reader, as a bundle: at most 67,108,864, within 100,000,000 calls of
/// `read`.
///
/// Errors: as of [`read_within`].
pub fn read_bundle<R: Read>(alloc: Global, reader: &mut Told<R>) -> Result<Vec<u8>, ReadFault>
    ensures bytes { IfOk result (λ bytes.
        IfSome (R.remaining (inner_of reader.old)) (λ xs. bytes.items ≡ xs)) }
    ensures end { OnOk result (IsAtEnd (R.remaining (inner_of reader.new))) }
    ensures within { IfOk result (λ bytes. vec_len bytes ≤ GREATEST_BUNDLE) }
    ensures calls { calls_of reader.new ≤ calls_of reader.old + READ_CALLS }
    ensures failures { OnOk result (failures_of reader.new ≡ failures_of reader.old) }

    ensures refused { result ≡ Err ReadFault.Read
        → HasRisenBy 1 (failures_of reader.old) (failures_of reader.new)
        ⊎ HasRisenBy READ_CALLS (calls_of reader.old) (calls_of reader.new)
        ⊎ HasRisenBy (GREATEST_BUNDLE + 1) (moved_of reader.old) (moved_of reader.new) }
    ensures memory { result ≡ Err ReadFault.NoMemory
        → failures_of reader.new ≡ failures_of reader.old }
    ensures front { TakesFront (R.remaining (inner_of reader.old)) (R.remaining (inner_of reader.new))
        (moved_of reader.old) (moved_of reader.new) }
{
    read_within(alloc, reader, GREATEST_BUNDLE, READ_CALLS)
}
