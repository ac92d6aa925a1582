//! hourbook: judges standard input as an hour file, and prints the statements of its owners or the refusal.
#![tactic(auto)]

mod book;
mod entry;
mod hour;
mod hourfile;
mod notice;
mod region;
mod settlement;
mod within;

use hour::{Failure, statements};
use std::io;
use std::io::{Read, Write};

// No more of the input is judged.
const LIMIT: u64 = 65_536;

// A `HostRuntime`: readers and writers under bounds stand on one more function of C.
fn input(rt: &HostRuntime) -> io::Result<Vec<u8>> {
    let mut bytes = Vec::new(rt.alloc());
    rt.stdin().take(LIMIT).read_to_end(&mut bytes)?;
    Ok(bytes)
}

// Writes the statements in one piece, so that none is written in part. One match, since a refusal is no failure here.
fn run(rt: &HostRuntime) -> anyhow::Result<()> {
    let bytes = input(rt)?;
    match statements(rt.alloc(), &bytes) {
        Ok(text) => Ok(rt.stdout().write_all(&text)?),
        Err(Failure::Refused(fault)) => Ok(println!(rt; "{fault}")?),
        Err(failure) => Err(failure.into()),
    }
}

fn main(rt: HostRuntime) -> anyhow::Result<()> {
    run(&rt)
}
