//! Calls of the libraries, for tools/refused_growths, which refuses growths of memory from outside.
//!
//! A call that is out of memory is made once more: a refused call leaves what it was called on as it was, so what is printed is
//! the same whichever growth was refused.
#![tactic(auto)]

mod books;
mod cores;
mod next_runs;
mod plans;
mod telling;

use std::rt::Runtime;
use std::sync::Wait;
use std::thread::Threads;
use std::{env, io};

// The most workers of a run.
const MOST: u64 = 64;

fn tell_usage<R: Runtime>(rt: &R) -> io::Result<()> {
    println!(rt;
        "usage: refused_calls core | run | book | office | turn | replan | levels | explode WORKERS (1 to {MOST})"
    )
}

// The number of workers that a word names.
fn workers_in(word: Option<String>) -> Option<u64> {
    word?.parse::<u64>().ok()
}

fn explode<R: Runtime + AllocGlobal + Threads + Wait + Sync>(
    rt: &R,
    workers: Option<u64>,
) -> io::Result<()> {
    match workers {
        Some(workers) if 1 <= workers && workers <= MOST => plans::explode(
            rt,
            rt.alloc(),
            workers as usize,
        ),
        _ => tell_usage(rt),
    }
}

// Makes the calls that a word names, by so many workers.
fn call<R: Runtime + AllocGlobal + Threads + Wait + Sync>(
    rt: &R,
    word: &str,
    workers: Option<u64>,
) -> io::Result<()> {
    match word {
        "core" => cores::step(rt, rt.alloc()),
        "run" => cores::run(rt, rt.alloc()),
        "book" => books::book(rt, rt.alloc()),
        "office" => books::office(rt, rt.alloc()),
        "turn" => books::turn(rt, rt.alloc()),
        "replan" => plans::replan(rt, rt.alloc()),
        "levels" => plans::levels(rt, rt.alloc()),
        "explode" => explode(rt, workers),
        _ => tell_usage(rt),
    }
}

fn main(rt: HostRuntime) -> io::Result<()> {
    let mut words = env::args(&rt)?;
    let _program = words.next();
    let word = words.next();
    let workers = workers_in(words.next());
    match word {
        Some(word) => call(&rt, word.as_str(), workers),
        None => tell_usage(&rt),
    }
}
