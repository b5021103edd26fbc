//! Times so many turns of shards: by one thread, by two on two shards, and by two on one shard; and as many plain exchanges on one word.
//! What was counted goes to standard output, and the times go to standard error.
#![tactic(auto)]

mod exchanges;
mod turns;
mod unit;

use crate::exchanges::exchange_often;
use crate::turns::{turn_alone, turn_beside};
use anyhow::Error;
use std::env;
use std::time::Instant;

/// How many turns a call of the program asks for, where it names no number.
const TURNS: u64 = 10_000_000;

/// The number that the first word names.
fn turns_of(rt: &HostRuntime) -> Result<u64, Error> {
    let mut words = env::args(rt)?;
    let _program = words.next();
    match words.next() {
        Some(word) => Ok(word.parse::<u64>()?),
        None => Ok(TURNS),
    }
}

/// Says what was counted, and how long it took.
fn say(rt: &HostRuntime, what: &str, start: Instant, counted: u64) -> Result<(), Error> {
    let time = start.elapsed(rt)?;
    eprintln!(rt; "{what}: {} ms", time.as_millis())?;
    println!(rt; "{what}: {counted}")?;
    Ok(())
}

fn main(rt: HostRuntime) -> Result<(), Error> {
    let alloc = rt.alloc();
    let turns = turns_of(&rt)?;
    let start = Instant::now(&rt)?;
    say(
        &rt,
        "exchanges on one word",
        start,
        exchange_often(alloc, turns)?,
    )?;
    let start = Instant::now(&rt)?;
    say(
        &rt,
        "turns by one thread",
        start,
        turn_alone(&rt, alloc, turns)?,
    )?;
    let start = Instant::now(&rt)?;
    say(
        &rt,
        "turns by two threads on two shards",
        start,
        turn_beside(&rt, alloc, 1, turns)?,
    )?;
    let start = Instant::now(&rt)?;
    say(
        &rt,
        "turns by two threads on one shard",
        start,
        turn_beside(&rt, alloc, 0, turns)?,
    )?;
    Ok(())
}
