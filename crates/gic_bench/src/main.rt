//! Does the same operations over and over at a given size, and prints counts and sums. It reads no clock: the script
//! `tools/bench` times it from outside.
#![tactic(auto)]

mod tables;

use std::env;
use std::process::ExitCode;

/// What the words ask for: how many events, and how many rounds. None for any other words.
fn asked(words: &[String]) -> Option<(u32, u32)> {
    match words {
        [what, count, rounds] if what.as_str() == "tables" => Some((
            count.as_str().parse().ok()?,
            rounds.as_str().parse().ok()?,
        )),
        _ => None,
    }
}

fn main(rt: HostRuntime) -> anyhow::Result<ExitCode> {
    let words: Vec<String> = env::args(&rt)?.skip(1).collect(rt.alloc())?;
    let Some((count, rounds)) = asked(words.as_slice()) else {
        println!(rt; "usage: gic_bench tables EVENTS ROUNDS")?;
        return Ok(ExitCode::from(2));
    };
    let mut total = tables::Tally::default();
    for _ in 0..rounds {
        total = total.plus(tables::round(rt.alloc(), count)?);
    }
    println!(rt; "{total}")?;
    Ok(ExitCode::SUCCESS)
}
