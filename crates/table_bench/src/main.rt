//! Sends messages through the ports of devices, in one thread or in four, and prints how many; writes a register, and prints how often; or makes as many
//! locked operations as messages do, on words alone. It reads no clock: the script `tools/bench` times it from outside.
#![tactic(auto)]

mod bare;
mod board;
mod raises;
mod sends;

use crate::board::Written;
use crate::sends::{Job, Kind};
use std::env;
use std::process::ExitCode;

/// Which messages a word asks for. None for any other word.
fn kind_of(word: &str) -> Option<Kind> {
    match word {
        "msi" => Some(Kind::Msi),
        "its" => Some(Kind::Its),
        "pairs" => Some(Kind::Pairs),
        _ => None,
    }
}

/// The job of these messages by as many devices as a word says. None for any other word.
fn job_of(kind: Kind, devices: &str) -> Option<Job> {
    match devices {
        "one" => Some(Job::One(kind)),
        "four" => Some(Job::Four(kind)),
        _ => None,
    }
}

/// What is written over and over for a word. None for any other word.
fn written_of(word: &str) -> Option<Written> {
    match word {
        "register" => Some(Written::Cbaser),
        "enables" => Some(Written::Enables),
        "kept" => Some(Written::Kept),
        _ => None,
    }
}

/// What the words ask for.
#[derive(Clone, Copy)]
enum Asked {
    /// A job over the ports of a guest.
    Ports(Job),
    /// Operations on words alone, by one thread or by four.
    Bare(bool),
}

/// What the words ask for, and how many messages each device sends, or how many writes there are. None for any other words.
fn wanted(words: &[String]) -> Option<(Asked, u32)> {
    let (asked, count) = match words {
        [what, count] => {
            let job = match written_of(what.as_str()) {
                Some(written) => Job::Write(written),
                None => job_of(Kind::Spi, what.as_str())?,
            };
            (Asked::Ports(job), count)
        }
        [bare, threads, count] if bare.as_str() == "bare" => {
            let is_four = matches!(job_of(Kind::Spi, threads.as_str())?, Job::Four(_));
            (Asked::Bare(is_four), count)
        }
        [kind, devices, count] => {
            let job = job_of(kind_of(kind.as_str())?, devices.as_str())?;
            (Asked::Ports(job), count)
        }
        _ => return None,
    };
    Some((asked, count.as_str().parse().ok()?))
}

/// What is done, as it is told.
fn done_by(asked: Asked) -> &'static str {
    match asked {
        Asked::Ports(Job::Write(_)) => "written",
        Asked::Ports(_) | Asked::Bare(_) => "sent",
    }
}

fn main(rt: HostRuntime) -> anyhow::Result<ExitCode> {
    let words: Vec<String> = env::args(&rt)?.skip(1).collect(rt.alloc())?;
    let Some((asked, count)) = wanted(words.as_slice()) else {
        println!(rt;
            "usage: table_bench [bare|msi|its|pairs] one|four MESSAGES, or table_bench register|enables|kept WRITES"
        )?;
        return Ok(ExitCode::from(2));
    };
    let done = match asked {
        Asked::Ports(job) => raises::all(&rt, rt.alloc(), job, count)?,
        Asked::Bare(is_four) => bare::all(&rt, is_four, count),
    };
    println!(rt; "{} {done}", done_by(asked))?;
    Ok(ExitCode::SUCCESS)
}
