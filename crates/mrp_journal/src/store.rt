//! A file that a journal is kept in.

ghost use Rattle.std.specs.Prelude.{◌≡◌, ◌≤◌, ℕ, Option, IfSome, OnErr, OnOk, length, option_map};
ghost use Rattle.mrp_journal.specs.Held.{AppendsFront, Held, TellsFailure, appended, cut_to, half_cut, synced};

use mrp_rows::WriteFault;

/// A file that is appended to. A crash leaves what is durable of it and any part of the rest from its front on, as
/// the file stood before the call of that moment or after it.
pub trait Store {
    /// Its bytes, and those that are durable. Nothing is known of the files of the operating system.
    ghost held: { Self → Option Held };

    /// How many of its calls failed. The count saturates at `u64::MAX`.
    ghost failures: { Self → ℕ };

    /// Appends bytes, which are not durable before a sync.
    ///
    /// Errors: it could not take them all. A crash may leave any front of them.
    fn append(&mut self, bytes: &[u8]) -> Result<(), WriteFault>
        ensures appended { OnOk result (held self.new ≡ option_map (appended bytes.now) (held self.old)) }
        ensures front { OnErr result (AppendsFront bytes.now (held self.old) (held self.new)) }
        ensures told { TellsFailure (failures self.old) (failures self.new) result };

    /// Makes all bytes durable.
    ///
    /// Errors: they may be durable or not.
    fn sync(&mut self) -> Result<(), WriteFault>
        ensures synced { OnOk result (held self.new ≡ option_map synced (held self.old)) }
        ensures same { OnErr result (held self.new ≡ held self.old) }
        ensures told { TellsFailure (failures self.old) (failures self.new) result };

    /// Cuts off all bytes but the first so many, and makes those durable.
    ///
    /// Errors: the others may be cut off or not.
    fn cut(&mut self, count: usize) -> Result<(), WriteFault>
        requires { IfSome (held self.old) (λ old. count ≤ length old.bytes) }
        ensures cut { OnOk result (held self.new ≡ option_map (cut_to count) (held self.old)) }
        ensures half { OnErr result (held self.new ≡ option_map (half_cut count) (held self.old)) }
        ensures told { TellsFailure (failures self.old) (failures self.new) result };
}
