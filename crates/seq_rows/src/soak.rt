//! Runs of scenarios that are made from a number: of each its words, and all that is written. Nothing is read.

ghost use Rattle.std.specs.Prelude.{◌≤◌};

use gic_top::{
    Answer, MemSource, NOTHING_SHOWN, OK, OpenGate, SureSink, USAGE, eager, generate, run_tool,
};
use std::alloc::{AllocError, Global};
use std::process::Abort;
use std::sync::Wait;
use std::test::Fail;
use std::thread::Threads;

/// Words, each with the line that is written.
#[rattlefmt::skip]
const LINES: [(&[&str], &str); 5] = [
    (&["soak", "7", "0"], "soak 7 0 reads=0 spurious=0 sum=0x0000000000000000\n"),
    (&["soak", "2", "1"], "soak 2 1 reads=1 spurious=1 sum=0x00000000000003ff\n"),
    // At step 3 vCPU 0 reads 1023, at step 4 vCPU 1 acknowledges 41, at step 8 vCPU 0 acknowledges 48.
    (&["soak", "7", "10"], "soak 7 10 reads=3 spurious=1 sum=0x0000000000000e21\n"),
    (&["soak", "0", "0"], "soak 0 0 reads=0 spurious=0 sum=0x0000000000000000\n"),
    (
        &["soak", "18446744073709551615", "0"],
        "soak 18446744073709551615 0 reads=0 spurious=0 sum=0x0000000000000000\n",
    ),
];

/// Words that are refused.
const USAGES: [&[&str]; 12] = [
    &["soak"],
    &["soak", "7"],
    &["soak", "7", "1", "1"],
    &["soak", "7", "100001"],
    &["soak", "7", "+1"],
    &["soak", "7", "-1"],
    &["soak", "7", "01"],
    &["soak", "7", ""],
    &["soak", "07", "1"],
    &["soak", "+7", "1"],
    &["soak", "18446744073709551616", "1"],
    &["Soak", "7", "1"],
];

/// Runs the tool over a source whose first read would be a fault, and compares the status and all that is written.
fn check(
    rt: &(impl Abort + Threads + Wait + Sync),
    alloc: Global,
    words: &[&str],
    status: u8,
    line: &str,
) -> Result<(), Fail> {
    let mut all = Vec::new(alloc);
    for word in words {
        all.push(String::from_str(alloc, word)?)?;
    }
    let mut source = MemSource::of(Vec::new(alloc), vec![in alloc; 1]?, 1);
    let mut sink = SureSink::new(alloc);
    let mut shown = NOTHING_SHOWN;
    let answered = run_tool(
        rt,
        alloc,
        all.as_slice(),
        &mut source,
        &mut sink,
        &OpenGate,
        &mut shown,
    );
    let taken = str::from_utf8(sink.taken().ok_or("not told")?)?;
    assert_eq!(rt; taken, line, "{words:?}");
    assert_eq!(rt; answered, status, "{words:?}");
    assert_eq!(rt; source.faults(), 0, "{words:?}");
    Ok(())
}

/// The line of the run of the scenario of 7, from what the ideal controller answers.
fn line_of_seven(alloc: Global, steps: u32) -> Result<String, Fail>
    requires { steps ≤ 100000 }
{
    let out = eager(alloc, &generate(alloc, 7, steps)?)?;
    let mut step: u64 = 0;
    let mut sum: u64 = 0;
    let mut values: Vec<u64> = Vec::new(alloc);
    for answer in out.answers.iter() {
        step = step.wrapping_add(1);
        if let Answer::Value(value) = *answer {
            sum = sum.wrapping_add(step.wrapping_mul(value));
            values.push(value)?;
        }
    }
    let reads = values.len();
    let spurious = values.iter().filter(|value| **value == 1023).count();
    Ok(format!(in alloc; "soak 7 {steps} reads={reads} spurious={spurious} sum=0x{sum:016x}\n")?)
}

#[test]
fn writes_lines(rt: HostRuntime) -> Result<(), Fail> {
    for (words, line) in LINES {
        check(&rt, rt.alloc(), words, OK, line)?;
    }
    Ok(())
}

#[test]
fn other_words_are_refused(rt: HostRuntime) -> Result<(), Fail> {
    for words in USAGES {
        check(&rt, rt.alloc(), words, USAGE, "usage\n")?;
    }
    Ok(())
}

#[test]
fn a_thousand_steps(rt: HostRuntime) -> Result<(), Fail> {
    let line = line_of_seven(rt.alloc(), 1000)?;
    check(&rt, rt.alloc(), &["soak", "7", "1000"], OK, line.as_str())
}

#[test]
fn a_hundred_thousand_steps(rt: HostRuntime) -> Result<(), Fail> {
    let line = line_of_seven(rt.alloc(), 100_000)?;
    for _ in 0..2 {
        check(&rt, rt.alloc(), &["soak", "7", "100000"], OK, line.as_str())?;
    }
    Ok(())
}
