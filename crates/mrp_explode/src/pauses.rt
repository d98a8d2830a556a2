//! How a worker waits for an item to get ready.

use std::sync::Wait;
use std::sync::atomic::AtomicU64;
use std::thread::yield_now;
use std::time::Duration;

// How often a worker that finds no item ready looks again before it sleeps.
const LOOKS: u32 = 20;

// How many microseconds it sleeps before it looks again.
const PAUSE: u64 = 200;

// The pauses of a worker that finds no item ready: a few in which it lets others run, and then sleeps.
#[derive(Drop)]
pub struct Pauses {
    looks: u32,
    // What it sleeps on. Nobody wakes it: the worker that finishes an item's last parent mostly takes that item
    // itself, long before another would be awake.
    bell: AtomicU64,
}

impl Pauses {
    // The first pause is still to come.
    pub fn new() -> Pauses {
        Pauses {
            looks: 0,
            bell: AtomicU64::new(0),
        }
    }

    // The next pause.
    pub fn pause<R: Wait>(&mut self, rt: &R) {
        if self.looks < LOOKS {
            self.looks += 1;
            yield_now();
        } else {
            self.bell.park_timeout(rt, 0, Duration::from_micros(PAUSE));
        }
    }
}
