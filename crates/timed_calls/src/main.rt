//! Calls that `bench/floor` and `bench/hall` time.
//!
//! `timed_calls KIND SEATS` makes random legal calls on a floor, and prints how many were recorded. KIND is PB, PNB or
//! PIS. `timed_calls visits` makes visits to a hall, and prints how many it makes in each of two ways; `timed_calls
//! times` prints the least nanoseconds of a visit in each. Without a word it makes the visits, and then the calls under
//! PB with four seats.
#![tactic(auto)]

mod chance;
mod floors;
mod halls;

use anyhow::anyhow;
use std::alloc::Global;
use std::env;
use std::rt::Clock;
use std::sync::Wait;

fn main(rt: HostRuntime) -> anyhow::Result<()> {
    let alloc = rt.alloc();
    let words: Vec<String> = env::args(&rt)?.collect(alloc)?;
    answer(&rt, alloc, words.as_slice())
}

/// Does what the words ask for. The first is the program's name.
fn answer<R: Clock + Print + Wait>(rt: &R, alloc: Global, words: &[String]) -> anyhow::Result<()> {
    match words {
        [_, kind, seats] => {
            let count = floors::calls_of(alloc, kind.as_str(), seats.as_str().parse()?)?;
            println!(rt; "{count}")?;
        }
        [_, word] if word.as_str() == "times" => {
            let (poll, act) = halls::least_of_both(rt, alloc)?;
            println!(rt; "{poll} {act}")?;
        }
        [_, word] if word.as_str() == "visits" => {
            halls::least_of_both(rt, alloc)?;
            println!(rt; "{}", halls::MADE)?;
        }
        [_] => {
            halls::least_of_both(rt, alloc)?;
            println!(rt; "{}\n{}", halls::MADE, floors::calls_of(alloc, "PB", 4)?)?;
        }
        _ => return Err(anyhow!("timed_calls [visits | times | KIND SEATS]")),
    }
    Ok(())
}
