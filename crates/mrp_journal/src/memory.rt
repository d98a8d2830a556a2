//! A journal in memory.

ghost use Rattle.std.specs.Prelude.{◌≡◌, ◌≤◌, ◌<◌, ◌+◌, ◌/◌, ◌⊎◌, ◌++◌, ℕ, List, length, vec_capacity, vec_len};
ghost use Rattle.mrp_journal.specs.Held.{IsFront, half_of};

use crate::store::Store;
use mrp_rows::WriteFault;

/// A file in memory, whose calls fail from some call on. A call that fails makes nothing durable; an append that fails
/// takes half of its bytes.
#[derive(Drop)]
pub struct MemoryStore {
    bytes: Vec<u8>,
    durable: usize,
    // How many calls are left before they fail.
    calls: u64,
    failures: u64,
    ghost within: { durable ≤ vec_len bytes },
}

// Appends the first half of a text, or nothing if there is no memory.
fn push_half(bytes: &mut Vec<u8>, more: &[u8])
    ensures front { (front : List ℕ) × IsFront front more.now × (bytes.new.items ≡ bytes.old.items ++ front) }
    ensures half { (bytes.new.items ≡ bytes.old.items ++ half_of more.now)
        ⊎ ((bytes.new.items ≡ bytes.old.items) × (vec_capacity bytes.old < vec_len bytes.old + length more.now / 2)) }
{
    let (half, _) = more.split_at(more.len() / 2);
    match bytes.extend_from_slice(half) {
        Ok(()) => {}
        Err(_) => {}
    }
}

impl MemoryStore {
    ghost use Rattle.std.specs.Prelude.{◌≡◌, ◌-◌, ◌<◌, ◌↔◌, IsErr, IsTrue, vec_capacity};
    ghost use Rattle.mrp_rows.specs.Told.{counted};
    ghost use Rattle.mrp_journal.specs.Held.{settled};
    ghost use Rattle.mrp_journal.specs.Memory.{calls_left, memory_failures, memory_held, memory_room};

    /// A file with these bytes, all durable. Its calls fail after so many.
    pub fn new(bytes: Vec<u8>, calls: u64) -> MemoryStore
        ensures held { memory_held result ≡ settled bytes.items }
        ensures room { memory_room result ≡ vec_capacity bytes }
        ensures calls { calls_left result ≡ calls }
        ensures failures { memory_failures result ≡ 0 }
    {
        let durable = bytes.len();
        MemoryStore {
            bytes,
            durable,
            calls,
            failures: 0,
        }
    }

    /// The bytes.
    pub fn bytes(&self) -> &[u8]
        ensures { result.now ≡ (memory_held self.now).bytes }
    {
        self.bytes.as_slice()
    }

    /// The bytes that are durable.
    pub fn durable(&self) -> &[u8]
        ensures { result.now ≡ (memory_held self.now).durable }
    {
        &self.bytes[..self.durable]
    }

    // Counts a call that fails.
    fn fail(&mut self) -> Result<(), WriteFault>
        ensures held { memory_held self.new ≡ memory_held self.old }
        ensures calls { calls_left self.new ≡ calls_left self.old }
        ensures told { memory_failures self.new ≡ counted 1 (memory_failures self.old) }
        ensures fails { IsErr result }
    {
        self.failures = self.failures.saturating_add(1);
        Err(WriteFault)
    }

    // Takes one of the calls that are left; false if none is.
    fn takes_call(&mut self) -> bool
        ensures takes { IsTrue result ↔ (0 < calls_left self.old) }
        ensures fewer { calls_left self.new ≡ calls_left self.old - 1 }
        ensures held { memory_held self.new ≡ memory_held self.old }
        ensures room { memory_room self.new ≡ memory_room self.old }
        ensures told { memory_failures self.new ≡ memory_failures self.old }
    {
        match self.calls.checked_sub(1) {
            Some(left) => {
                self.calls = left;
                true
            }
            None => false,
        }
    }
}

impl Store for MemoryStore {
    ghost use Rattle.std.specs.Prelude.{◌≡◌, ◌≤◌, ◌<◌, ◌-◌, ◌+◌, ◌⊎◌, Some, OnErr, OnOk, length};
    ghost use Rattle.mrp_journal.specs.Held.{AppendsFront, TellsFailure, appended, cut_to, half_cut, synced};
    ghost use Rattle.mrp_journal.specs.Memory.{TakesCall, TakesHalf, calls_left, memory_failures, memory_held, memory_room};

    ghost held = { λ file. Some (memory_held file) };

    ghost failures = { memory_failures };

    fn append(&mut self, bytes: &[u8]) -> Result<(), WriteFault>
        ensures appended { OnOk result (memory_held self.new ≡ appended bytes.now (memory_held self.old)) }
        ensures front { OnErr result (AppendsFront bytes.now (Some (memory_held self.old)) (Some (memory_held self.new))) }
        ensures told { TellsFailure (memory_failures self.old) (memory_failures self.new) result }
        ensures fewer { calls_left self.new ≡ calls_left self.old - 1 }
        ensures taken { OnOk result (0 < calls_left self.old) }

        // It fails only where no call is left, or there is no memory for the bytes yet.
        ensures fails { OnErr result ((calls_left self.old ≡ 0) ⊎ (memory_room self.old < length (memory_held self.old).bytes + length bytes.now)) }

        // Where no call is left it takes half, and without memory nothing.
        ensures half { calls_left self.old ≡ 0 → TakesHalf bytes.now (memory_room self.old) (memory_held self.old) (memory_held self.new) }
        ensures none { OnErr result (0 < calls_left self.old → memory_held self.new ≡ memory_held self.old) }
    {
        if !self.takes_call() {
            push_half(&mut self.bytes, bytes);
            return self.fail();
        }
        match self.bytes.extend_from_slice(bytes) {
            Ok(()) => Ok(()),
            Err(_) => self.fail(),
        }
    }

    fn sync(&mut self) -> Result<(), WriteFault>
        ensures synced { OnOk result (memory_held self.new ≡ synced (memory_held self.old)) }
        ensures same { OnErr result (memory_held self.new ≡ memory_held self.old) }
        ensures told { TellsFailure (memory_failures self.old) (memory_failures self.new) result }
        ensures call { TakesCall (calls_left self.old) (calls_left self.new) result }
    {
        if !self.takes_call() {
            return self.fail();
        }
        self.durable = self.bytes.len();
        Ok(())
    }

    fn cut(&mut self, count: usize) -> Result<(), WriteFault>
        requires { count ≤ length (memory_held self.old).bytes }
        ensures cut { OnOk result (memory_held self.new ≡ cut_to count (memory_held self.old)) }
        ensures half { OnErr result (memory_held self.new ≡ half_cut count (memory_held self.old)) }
        ensures told { TellsFailure (memory_failures self.old) (memory_failures self.new) result }
        ensures call { TakesCall (calls_left self.old) (calls_left self.new) result }
    {
        if !self.takes_call() {
            self.durable = self.durable.min(count);
            return self.fail();
        }
        self.durable = count;
        self.bytes.truncate(count);
        Ok(())
    }
}
